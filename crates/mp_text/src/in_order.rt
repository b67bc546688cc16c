//! Reads files whose declarations come first, statement by statement.

ghost use Rattle.std.specs.Prelude.{◌≡◌, ◌<◌, ◌≤◌, ◌-◌, ◌^◌, ℕ, List, [], true, false, length, map, Ok};
ghost use Rattle.std.specs.Prelude.{IfOk, IfSome, IsTrue, OnOk};
ghost use Rattle.mp_parser.specs.Lexing.{token_of};
ghost use Rattle.mp_parser.specs.Machine.{is_end};
ghost use Rattle.mp_parser.specs.Parsing.{ahead};
ghost use Rattle.mp_parser.specs.View.{statement_tree};
ghost use Rattle.mp_pattern.specs.declared.limits.TheConstants.{MAX_SUBJECTS};
ghost use Rattle.mp_text.specs.File.{file_tree};
ghost use Rattle.mp_text.specs.InOrder.{HasRead, IsDraftRead, is_declaration};
ghost use Rattle.mp_text.specs.Reading.{IsFileOf};

use crate::file::File;
use crate::reader::{Draft, add_statement, draft_of, finished};
use crate::rule_reader::add_next_rule;
use crate::subject::add_next_subject;
use bumpalo::Bump;
use mp_build::{TextError, if_faultless};
use mp_parser::arena::Arena;
use mp_parser::parser::Parser;
use mp_syntax::{Statement, SyntaxError, read_statement};
use mp_term::Memory;
use std::alloc::Global;

// Room is taken for a rule and a subject for each so many bytes of a text: few statements are shorter.
const SHORT_STATEMENT: usize = 16;

/// The file of the bytes, built statement by statement, where its declarations come before its other statements and
/// nothing has a fault. None says nothing of the bytes. `Memory` comes where memory runs out.
pub(crate) fn read_in_order(alloc: Global, bytes: &[u8]) -> Result<Option<File>, Memory>
    requires { length bytes.now < 2 ^ 32 - 1 }
    ensures { IfOk result (λ o. IfSome o (λ f. IsFileOf bytes.now (file_tree f))) }
{
    let Some(file) = if_faultless(build_in_order(alloc, bytes))? else {
        return Ok(None);
    };
    Ok(file)
}

// The same, but where something has a fault, that is answered; it need not be the first one.
fn build_in_order(alloc: Global, bytes: &[u8]) -> Result<Option<File>, TextError>
    requires { length bytes.now < 2 ^ 32 - 1 }
    ensures { IfOk result (λ o. IfSome o (λ f. IsFileOf bytes.now (file_tree f))) }
{
    let bump = Bump::new(alloc);
    let mut arena = Arena::new(alloc, &bump);
    let mut parser = Parser::new(bytes);
    build_statements(
        alloc,
        &mut parser,
        &mut arena,
        bytes.len() / SHORT_STATEMENT,
    )
}

// The same of the statements that come next, with room at once for so many rules and subjects.
fn build_statements<'a>(
    alloc: Global,
    parser: &mut Parser<'a>,
    arena: &mut Arena<'a>,
    room: usize,
) -> Result<Option<File>, TextError>
    requires { (bytes : List ℕ) × HasRead bytes [] parser.old }
    ensures { IfOk result (λ o. IfSome o (λ f.
        (bytes : List ℕ) → HasRead bytes [] parser.old → IsFileOf bytes (file_tree f))) }
{
    let mut draft = declared(alloc, parser, arena, room)?;
    let is_whole = add_others(alloc, &mut draft, parser, arena);
    file_where(is_whole, finished(draft))
}

// The file, where it is whole.
fn file_where(is_whole: Result<bool, TextError>, file: File) -> Result<Option<File>, TextError>
    ensures { IfOk result (λ o. IfSome o (λ f. (is_whole ≡ Ok true) × (f ≡ file))) }
{
    match is_whole {
        Ok(true) => Ok(Some(file)),
        Ok(false) => {
            drop(file);
            Ok(None)
        }
        Err(error) => {
            drop(file);
            Err(error)
        }
    }
}

// The draft of the declarations that come next, with room for so many rules and subjects.
fn declared<'a>(
    alloc: Global,
    parser: &mut Parser<'a>,
    arena: &mut Arena<'a>,
    room: usize,
) -> Result<Draft<'a>, TextError>
    ensures { IfOk result (λ d. (bytes : List ℕ) → HasRead bytes [] parser.old → IsDraftRead bytes parser.new d) }
{
    let declarations = declarations(alloc, parser, arena)?;
    draft_of(alloc, &declarations, room)
}

// Adds the statements that come next, up to the end of the bytes, to the draft. At a declaration it answers false.
fn add_others<'a>(
    alloc: Global,
    draft: &mut Draft<'a>,
    parser: &mut Parser<'a>,
    arena: &mut Arena<'a>,
) -> Result<bool, TextError>
    requires { (bytes : List ℕ) × IsDraftRead bytes parser.old draft.old }
    ensures { IfOk result (λ b. IsTrue b → (bytes : List ℕ) → IsDraftRead bytes parser.old draft.old
        → IsFileOf bytes (file_tree draft.new.file)) }
{
    while !parser.is_at_end() {
        if !add_next(alloc, draft, parser, arena)? {
            return Ok(false);
        }
    }
    Ok(true)
}

// The declarations that come next.
fn declarations<'a>(
    alloc: Global,
    parser: &mut Parser<'a>,
    arena: &mut Arena<'a>,
) -> Result<Vec<Statement<'a>>, SyntaxError>
    ensures { IfOk result (λ ss. (bytes : List ℕ) → HasRead bytes [] parser.old
        → HasRead bytes (map statement_tree ss.items) parser.new) }
{
    let mut declarations = Vec::new(alloc);
    while parser.sees_word(b"op") || parser.sees_word(b"kind") {
        let statement = read_statement(parser, arena)?;
        declarations.push(statement)?;
    }
    Ok(declarations)
}

// Adds the next statement to the draft. Where that is a declaration it answers false.
fn add_next<'a>(
    alloc: Global,
    draft: &mut Draft<'a>,
    parser: &mut Parser<'a>,
    arena: &mut Arena<'a>,
) -> Result<bool, TextError>
    requires more { is_end (token_of parser.old.token.kind) ≡ false }
    requires few { length draft.old.subject_names ≤ MAX_SUBJECTS }
    ensures added { IfOk result (λ b. IsTrue b → (bytes : List ℕ) → IsDraftRead bytes parser.old draft.old
        → IsDraftRead bytes parser.new draft.new) }
    ensures shorter { OnOk result (length (ahead parser.new) < length (ahead parser.old)) }
{
    if add_next_subject(alloc, draft, parser)? {
        return Ok(true);
    }
    if add_next_rule(alloc, draft, parser, arena)? {
        return Ok(true);
    }
    add_next_statement(alloc, draft, parser, arena)
}

// The same of a statement that is read as a tree.
fn add_next_statement<'a>(
    alloc: Global,
    draft: &mut Draft<'a>,
    parser: &mut Parser<'a>,
    arena: &mut Arena<'a>,
) -> Result<bool, TextError>
    requires more { is_end (token_of parser.old.token.kind) ≡ false }
    requires few { length draft.old.subject_names ≤ MAX_SUBJECTS }
    ensures added { IfOk result (λ b. IsTrue b → (bytes : List ℕ) → IsDraftRead bytes parser.old draft.old
        → IsDraftRead bytes parser.new draft.new) }
    ensures shorter { OnOk result (length (ahead parser.new) < length (ahead parser.old)) }
{
    let statement = read_statement(parser, arena)?;
    if is_declaration(&statement) {
        return Ok(false);
    }
    add_statement(alloc, draft, &statement)?;
    Ok(true)
}

// The statement declares an operation or a kind.
fn is_declaration(statement: &Statement<'_>) -> bool
    ensures { result ≡ is_declaration (statement_tree statement.now) }
{
    match statement {
        Statement::Op { .. } | Statement::Kind { .. } => true,
        _ => false,
    }
}
