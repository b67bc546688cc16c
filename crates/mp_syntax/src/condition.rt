//! Reads conditions alone.

ghost use Rattle.std.specs.Prelude.{◌≡◌, ◌<◌, ◌-◌, ◌^◌, ℕ, List, [], length, IfOk, IfErr};
ghost use Rattle.mp_parser.specs.Tokens.{first_place};
ghost use Rattle.mp_parser.specs.Lexing.{lexemes};
ghost use Rattle.mp_parser.specs.Machine.{BeforeLiteral, ConditionAlone, no_level, run};
ghost use Rattle.mp_parser.specs.View.{condition_tree};
ghost use Rattle.mp_parser.specs.Syntax as syntax;
ghost use Rattle.mp_parser.specs.declared.limits.TheConstants as limits;
ghost use Rattle.mp_parser.specs.Syntax.{IsConditionOf, FitsCondition, ConditionHasNames};
ghost use Rattle.mp_syntax.specs.Printed.{condition_text, unplaced_condition};
ghost use Rattle.mp_syntax.specs.Begins.{OfCondition};
ghost use Rattle.mp_syntax.specs.FirstFault.{IsFirstFault};
ghost use Rattle.mp_syntax.specs.Reading.{text_reading, IfFault, IsConditionOrMemory};
ghost use Rattle.mp_syntax.specs.StatementParsing.{ConditionAloneGives};

use crate::bad_token::first_error;
use bumpalo::Bump;
use mp_parser::arena::Arena;
use mp_parser::condition_tree::Condition;
use mp_parser::fault::SyntaxError;
use mp_parser::limits::MAX_OPEN;
use mp_parser::parser::Parser;
use std::alloc::Global;

/// The condition that a text is, as a syntax tree whose words lie in the text's bytes.
///
/// The text has fewer than 4,294,967,295 bytes, so that each line and column is a `u32`. Which
/// condition bytes are is `IsConditionOf` of mp_parser's `specs/Syntax.antt`: at most one.
///
/// - `SyntaxError::Memory` comes where memory runs out.
/// - `SyntaxError::Fault` comes exactly where the bytes are no condition, with their first fault, by
///   `IsFirstFault` of `specs/FirstFault.antt`. Its kinds are those of `read_statements`; behind a condition no
///   text goes on with a token that isn't part of it.
///
/// The lists of the tree lie in the arena `bump`. What an error leaves in it stays there until the arena is reset or
/// dropped; besides it nothing is kept.
pub fn read_condition<'a>(
    alloc: Global,
    bump: &'a Bump,
    bytes: &'a [u8],
) -> Result<Condition<'a>, SyntaxError>
    requires { length bytes.now < 2 ^ 32 - 1 }

    // What is answered is what the bytes are.
    ensures found { IfOk result (λ c. IsConditionOf bytes.now (condition_tree c)) }
    // Each word of it is 1 to 64 letters and digits, and each sign is of sign bytes and not the arrow.
    ensures names { IfOk result (λ c. ConditionHasNames (condition_tree c)) }
    // What the bytes are is answered, unless memory runs out.
    ensures only { (c : syntax.Condition) → IsConditionOf bytes.now c → IsConditionOrMemory result (λ read. read ≡ c) }
    // A fault is the first one of the bytes.
    ensures fault { IfErr result (λ e. IfFault e (λ f. IsFirstFault OfCondition bytes.now f)) }
{
    alone(alloc, bump, bytes)
}

/// Law: bytes are one condition at most.
///
/// It does nothing when it runs.
pub fn condition_is_a_function()
    ensures { (bytes : List ℕ) (c d : syntax.Condition) → IsConditionOf bytes c → IsConditionOf bytes d → c ≡ d }
{}

/// Law: the text that a condition is printed as, `condition_text` of `specs/Printed.antt`, is read alone as that
/// condition, apart from the places where its parts stand.
///
/// Each word of the condition is a word and it fits, as of all that are read. It does nothing when it runs.
pub fn printed_condition_is_read()
    ensures { (c : syntax.Condition) → ConditionHasNames c → FitsCondition limits.MAX_OPEN c
        → (read : syntax.Condition) × IsConditionOf (condition_text c) read
        × (unplaced_condition read ≡ unplaced_condition c) }
{}

// Reads a condition up to the end, or the first fault.
fn alone<'a>(alloc: Global, bump: &'a Bump, bytes: &'a [u8]) -> Result<Condition<'a>, SyntaxError>
    requires { length bytes.now < 2 ^ 32 - 1 }
    ensures { ConditionAloneGives result (text_reading OfCondition bytes.now) }
{
    match parse(alloc, bump, bytes) {
        Ok(condition) => Ok(condition),
        Err(error) => Err(first_error(bytes, error)),
    }
}

// Reads a condition up to the end, or the first fault that the grammar has.
fn parse<'a>(alloc: Global, bump: &'a Bump, bytes: &'a [u8]) -> Result<Condition<'a>, SyntaxError>
    requires { length bytes.now < 2 ^ 32 - 1 }
    ensures { ConditionAloneGives result
        (run [] (BeforeLiteral ConditionAlone [] no_level) (lexemes bytes.now first_place)) }
{
    let mut parser = Parser::new(bytes);
    let mut arena = Arena::new(alloc, bump);
    let condition = parser.condition(&mut arena, MAX_OPEN)?;
    if !parser.is_at_end() {
        return Err(parser.refused());
    }
    Ok(condition)
}
