//! Instructions.

ghost use Rattle.std.specs.Prelude.{◌<◌, ◌^◌, ◌-◌, length, IfOk};
ghost use Rattle.mp_walk.specs.InstrView.{plain_instr};
ghost use Rattle.mp_line.specs.Finds.{Finds, FindsPair};
ghost use Rattle.mp_line.specs.LineTexts.{IsInstrBody, IsInstrText, IsOverText};

use crate::action::split_action;
use crate::numbers::{behind_number, target};
use crate::token::token;
use crate::words::split_behind;
use mp_program::Format;
use mp_term::{Memory, Signature};
use mp_walk::Instr;
use std::alloc::Global;

// What stands before the last word, which follows `over`, and the instruction that it names.
fn split_over(text: &[u8]) -> Option<(&[u8], Option<u32>)>
    ensures { FindsPair (λ p. p.0.now) (λ p. p.1) (IsOverText text.now) result }
{
    let Some((rest, word)) = split_behind(b" over", b' ', text) else {
        return None;
    };
    match target(word) {
        Some(target) => Some((rest, target)),
        None => None,
    }
}

// The instruction whose printed line this is, behind its number and the blank.
fn instr(
    alloc: Global,
    sig: &Signature,
    format: Format,
    text: &[u8],
) -> Result<Option<Instr>, Memory>
    requires { length text.now < 2 ^ 32 - 1 }
    ensures { IfOk result (λ o. Finds plain_instr (IsInstrBody sig.now format text.now) o) }
{
    let Some((front, over)) = split_over(text) else {
        return Ok(None);
    };
    let Some((spelling, action)) = split_action(alloc, front)? else {
        return Ok(None);
    };
    match token(alloc, sig, format, spelling)? {
        Some(token) => Ok(Some(Instr {
            token,
            down: action.down,
            over,
            accepts: action.accepts,
        })),
        None => Ok(None),
    }
}

// The instruction whose text this is, without its line feed, in a program text of the format, where the next
// instruction has the number. None: it is the text of no instruction of the number.
pub(crate) fn read_instr(
    alloc: Global,
    sig: &Signature,
    format: Format,
    own: u32,
    text: &[u8],
) -> Result<Option<Instr>, Memory>
    requires { length text.now < 2 ^ 32 - 1 }
    ensures { IfOk result (λ o. Finds plain_instr (IsInstrText sig.now format own text.now) o) }
{
    match behind_number(own, text) {
        Some(rest) => instr(alloc, sig, format, rest),
        None => Ok(None),
    }
}
