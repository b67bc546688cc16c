//! Reads expressions alone.

ghost use Rattle.std.specs.Prelude.{◌≡◌, ◌<◌, ◌-◌, ◌^◌, ℕ, List, [], length, IfOk};
ghost use Rattle.std.specs.Prelude.{IfErr};
ghost use Rattle.mp_parser.specs.Tokens.{first_place};
ghost use Rattle.mp_parser.specs.Lexing.{lexemes};
ghost use Rattle.mp_parser.specs.Machine.{BeforeExpr, Alone, run};
ghost use Rattle.mp_parser.specs.View.{expr_tree};
ghost use Rattle.mp_parser.specs.declared.limits.TheConstants as limits;
ghost use Rattle.mp_parser.specs.Syntax.{Tree, IsExprOf, Fits, HasNames};
ghost use Rattle.mp_syntax.specs.Printed.{tree_text, unplaced_tree};
ghost use Rattle.mp_syntax.specs.Begins.{OfExpr};
ghost use Rattle.mp_syntax.specs.FirstFault.{IsFirstFault};
ghost use Rattle.mp_syntax.specs.Reading.{text_reading, IfFault, IsExprOrMemory};
ghost use Rattle.mp_syntax.specs.StatementParsing.{AloneGives};

use crate::bad_token::first_error;
use bumpalo::Bump;
use mp_parser::arena::Arena;
use mp_parser::fault::SyntaxError;
use mp_parser::limits::MAX_OPEN;
use mp_parser::parser::Parser;
use mp_parser::tree::Expr;
use std::alloc::Global;

/// The expression that a text is, as a syntax tree whose words lie in the text's bytes.
///
/// The text has fewer than 4,294,967,295 bytes, so that each line and column is a `u32`. Which
/// expression bytes are is `IsExprOf` of mp_parser's `specs/Syntax.antt`: at most one.
///
/// - `SyntaxError::Memory` comes where memory runs out.
/// - `SyntaxError::Fault` comes exactly where the bytes are no expression, with their first fault, by
///   `IsFirstFault` of `specs/FirstFault.antt`. Its kinds are those of `read_statements`; behind an expression
///   no text goes on with a token that isn't part of it.
///
/// The lists of the tree lie in the arena `bump`. What an error leaves in it stays there until the arena is reset or
/// dropped; besides it nothing is kept.
pub fn read_expression<'a>(
    alloc: Global,
    bump: &'a Bump,
    bytes: &'a [u8],
) -> Result<Expr<'a>, SyntaxError>
    requires { length bytes.now < 2 ^ 32 - 1 }

    // What is answered is what the bytes are.
    ensures found { IfOk result (λ e. IsExprOf bytes.now (expr_tree e)) }
    // Each word of it is 1 to 64 letters and digits, and each sign is of sign bytes and not the arrow.
    ensures names { IfOk result (λ e. HasNames (expr_tree e)) }
    // What the bytes are is answered, unless memory runs out.
    ensures only { (t : Tree) → IsExprOf bytes.now t → IsExprOrMemory result (λ read. read ≡ t) }
    // A fault is the first one of the bytes.
    ensures fault { IfErr result (λ e. IfFault e (λ f. IsFirstFault OfExpr bytes.now f)) }
{
    alone(alloc, bump, bytes)
}

/// Law: bytes are one expression at most.
///
/// It does nothing when it runs.
pub fn expression_is_a_function()
    ensures { (bytes : List ℕ) (t u : Tree) → IsExprOf bytes t → IsExprOf bytes u → t ≡ u }
{}

/// Law: the text that an expression is printed as, `tree_text` of `specs/Printed.antt`, is read alone as that
/// expression, apart from the places where its parts stand.
///
/// Each word of the expression is a word and it fits, as of all that are read. It does nothing when it runs.
pub fn printed_expression_is_read()
    ensures { (t : Tree) → HasNames t → Fits limits.MAX_OPEN t
        → (read : Tree) × IsExprOf (tree_text t) read × (unplaced_tree read ≡ unplaced_tree t) }
{}

// Reads an expression up to the end, or the first fault.
fn alone<'a>(alloc: Global, bump: &'a Bump, bytes: &'a [u8]) -> Result<Expr<'a>, SyntaxError>
    requires { length bytes.now < 2 ^ 32 - 1 }
    ensures { AloneGives result (text_reading OfExpr bytes.now) }
{
    match parse(alloc, bump, bytes) {
        Ok(expr) => Ok(expr),
        Err(error) => Err(first_error(bytes, error)),
    }
}

// Reads an expression up to the end, or the first fault that the grammar has.
fn parse<'a>(alloc: Global, bump: &'a Bump, bytes: &'a [u8]) -> Result<Expr<'a>, SyntaxError>
    requires { length bytes.now < 2 ^ 32 - 1 }
    ensures { AloneGives result (run [] (BeforeExpr Alone []) (lexemes bytes.now first_place)) }
{
    let mut parser = Parser::new(bytes);
    let mut arena = Arena::new(alloc, bump);
    let expr = parser.expr(&mut arena, MAX_OPEN)?;
    if !parser.is_at_end() {
        return Err(parser.refused());
    }
    Ok(expr)
}
