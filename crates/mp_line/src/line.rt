//! Whole lines.

ghost use Rattle.std.specs.Prelude.{◌≡◌, ◌≤◌, ◌<◌, ◌^◌, ◌-◌, ◌++◌, ◌↔◌, ℕ, false, length, codes, decimal, IfOk, IsTrue};
ghost use Rattle.mp_program.specs.RightForm.{IsDeclaration};
ghost use Rattle.mp_line.specs.Finds.{Finds};
ghost use Rattle.mp_line.specs.Lines.{IsLineText, IsCodeLine};
ghost use Rattle.mp_line.specs.LineView.{line_view};
ghost use Rattle.mp_line.specs.Words.{begins_with_digit};

use crate::instr::read_instr;
use crate::names::MAX_KEPT;
use crate::numbers::{behind_number, target};
use crate::rule::read_rule;
use crate::test::test;
use crate::words::{behind, between, is_same};
use mp_pattern::Cond;
use mp_program::{Format, RuleLine};
use mp_term::{Memory, Signature};
use mp_walk::Instr;
use std::alloc::Global;

/// A line behind the first. Contracts see it as the line `line_view` of `specs/LineView.antt`.
#[derive(Drop)]
pub enum Line {
    /// It declares an operation.
    Op,
    /// It declares a kind.
    Kind,
    /// A test.
    Test(Cond),
    /// A rule.
    Rule(RuleLine),
    /// `code`.
    Code,
    /// The begin of the instructions, with the first one where there is one.
    Begin(Option<u32>),
    /// An instruction.
    Instr(Instr),
    /// The end of the instructions.
    Stop,
}

// The line declares something of the sort that the word says.
fn is_declaration(word: &[u8], text: &[u8]) -> bool
    ensures { IsTrue result ↔ IsDeclaration word.now text.now }
{
    between(word, text, b";").is_some()
}

// The line ends the instructions before that of the number.
fn is_stop(own: u32, text: &[u8]) -> bool
    ensures { IsTrue result ↔ (text.now ≡ decimal own ++ codes " stop") }
{
    match behind_number(own, text) {
        Some(rest) => is_same(rest, b"stop"),
        None => false,
    }
}

// The line of an instruction, of `begin` or of `stop`, where the next instruction has the number.
fn code_line(
    alloc: Global,
    sig: &Signature,
    format: Format,
    own: u32,
    text: &[u8],
) -> Result<Option<Line>, Memory>
    requires number { 1 ≤ own }
    requires few { length text.now < 2 ^ 32 - 1 }
    ensures { IfOk result (λ o. Finds line_view (IsCodeLine sig.now format own text.now) o) }
{
    if let Some(word) = behind(b"0 begin down ", text) {
        let Some(first) = target(word) else {
            return Ok(None);
        };
        return Ok(Some(Line::Begin(first)));
    }
    if let Some(instr) = read_instr(alloc, sig, format, own, text)? {
        return Ok(Some(Line::Instr(instr)));
    }
    if is_stop(own, text) {
        return Ok(Some(Line::Stop));
    }
    Ok(None)
}

// A digit comes first.
fn begins_with_digit(text: &[u8]) -> bool
    ensures { result ≡ begins_with_digit text.now }
{
    match text {
        [first, ..] => first.is_ascii_digit(),
        [] => false,
    }
}

// The line that is no instruction, no `begin` and no `stop`.
fn word_line(
    alloc: Global,
    sig: &Signature,
    format: Format,
    text: &[u8],
) -> Result<Option<Line>, Memory>
    requires few { length text.now < 2 ^ 32 - 1 }
    requires other { begins_with_digit text.now ≡ false }
    ensures { (n : ℕ) → 1 ≤ n → n < 2 ^ 32
        → IfOk result (λ o. Finds line_view (IsLineText sig.now format MAX_KEPT n text.now) o) }
{
    if let Some(line) = read_rule(alloc, sig, format, text)? {
        return Ok(Some(Line::Rule(line)));
    }
    if let Some(cond) = test(alloc, sig, text)? {
        return Ok(Some(Line::Test(cond)));
    }
    if is_declaration(b"op ", text) {
        return Ok(Some(Line::Op));
    }
    if is_declaration(b"kind ", text) {
        return Ok(Some(Line::Kind));
    }
    if is_same(text, b"code") {
        return Ok(Some(Line::Code));
    }
    Ok(None)
}

/// The line whose text this is, without its line feed, in a program text of the format, where the next instruction has
/// the number, which is at least 1 (`IsLineText` of `specs/Lines.antt`). The text has fewer than 4,294,967,295 bytes.
/// Of a line that declares something nothing is kept, and of a rule line the names of `MAX_KEPT` variables at most.
///
/// `None`: it is the text of no line. `Memory`: memory ran out.
pub fn read_line(
    alloc: Global,
    sig: &Signature,
    format: Format,
    own: u32,
    text: &[u8],
) -> Result<Option<Line>, Memory>
    requires number { 1 ≤ own }
    requires few { length text.now < 2 ^ 32 - 1 }
    ensures { IfOk result (λ o. Finds line_view (IsLineText sig.now format MAX_KEPT own text.now) o) }
{
    if begins_with_digit(text) {
        return code_line(alloc, sig, format, own, text);
    }
    word_line(alloc, sig, format, text)
}
