//! Reads statements and whole files.

ghost use Rattle.std.specs.Prelude.{◌≡◌, ◌<◌, ◌≤◌, ◌-◌, ◌^◌, ℕ, List, [], false, length, map, OnOk, IfOk};
ghost use Rattle.std.specs.Prelude.{IfErr};
ghost use Rattle.mp_parser.specs.Tokens.{first_place};
ghost use Rattle.mp_parser.specs.Lexing.{token_of, lexemes};
ghost use Rattle.mp_parser.specs.Machine.{is_end, keyword, OfRule, OfSubject, Top, AfterOp, AfterKind, AfterRole};
ghost use Rattle.mp_parser.specs.Machine.{AfterEdit, run};
ghost use Rattle.mp_parser.specs.Syntax as syntax;
ghost use Rattle.mp_parser.specs.Syntax.{IsSyntaxOf, StatementsHaveNames, AreStatements};
ghost use Rattle.mp_syntax.specs.Printed.{statements_text, unplaced};
ghost use Rattle.mp_parser.specs.View.{statement_tree};
ghost use Rattle.mp_parser.specs.Parsing.{ahead};
ghost use Rattle.mp_syntax.specs.StatementParsing.{StatementFrom, NamedExprGives, KeywordGives, FileGives};
ghost use Rattle.mp_syntax.specs.StatementParsing.{HeadingGives, RuleEndGives, keyword_step};
ghost use Rattle.mp_syntax.specs.Begins.{OfFile};
ghost use Rattle.mp_syntax.specs.FirstFault.{IsFirstFault};
ghost use Rattle.mp_syntax.specs.Reading.{text_reading, IfFault, IsOkOrMemory};

use crate::bad_token::first_error;
use bumpalo::Bump;
use mp_parser::arena::Arena;
use mp_parser::condition_tree::Condition;
use mp_parser::fault::SyntaxError;
use mp_parser::limits::MAX_OPEN;
use mp_parser::parser::Parser;
use mp_parser::token::{Kind, Punct};
use mp_parser::tree::{Expr, Statement};
use mp_parser::word::Word;
use std::alloc::Global;

// The number of bytes of the shortest statement, `op f 0;`.
const SHORTEST: usize = 7;

// What a statement is, by the word that it begins with.
#[derive(Clone, Copy, Debug)]
enum Keyword {
    // `op`
    Op,
    // `kind`
    Kind,
    // `rule`
    Rule,
    // `subject`
    Subject,
    // `edit`
    Edit,
}

/// The statements of a rule file, in order, as syntax trees whose words lie in the file's bytes.
///
/// The file has fewer than 4,294,967,295 bytes, so that each line and column is a `u32`. Which
/// statements bytes are is `IsSyntaxOf` of mp_parser's `specs/Syntax.antt`: at most one list of them.
///
/// - `SyntaxError::Memory` comes where memory runs out.
/// - `SyntaxError::Fault` comes exactly where the bytes are no statements, with their first fault, by
///   `IsFirstFault` of `specs/FirstFault.antt`. All tokens are looked at first: the fault is at the first byte
///   that begins no token (`BadByte`) or the first word of more than 64 bytes (`TooMany`), whichever comes
///   first. Where there is none, it is at the first token that is a bracket with which statements go on while
///   100 are open (`TooDeep`), or with which none go on (`Syntax`); and where there is no such token it is
///   `Syntax` at the end, since the statements go on.
///
/// The lists of the trees lie in the arena `bump`. What an error leaves in it stays there until the arena is reset or
/// dropped; besides it nothing is kept.
pub fn read_statements<'a>(
    alloc: Global,
    bump: &'a Bump,
    bytes: &'a [u8],
) -> Result<Vec<Statement<'a>>, SyntaxError>
    requires { length bytes.now < 2 ^ 32 - 1 }

    // What is answered is what the bytes are.
    ensures found { IfOk result (λ v. IsSyntaxOf bytes.now (map statement_tree v.items)) }
    // Each word of it is 1 to 64 letters and digits, and each sign is of sign bytes and not the arrow.
    ensures names { IfOk result (λ v. StatementsHaveNames (map statement_tree v.items)) }
    // What the bytes are is answered, unless memory runs out.
    ensures only { (file : List syntax.Statement) → IsSyntaxOf bytes.now file
        → IsOkOrMemory result (λ read. read ≡ file) }
    // A fault is the first one of the bytes.
    ensures fault { IfErr result (λ e. IfFault e (λ f. IsFirstFault OfFile bytes.now f)) }
{
    statements(alloc, bump, bytes)
}

/// Law: bytes are one list of statements at most.
///
/// It does nothing when it runs.
pub fn syntax_is_a_function()
    ensures { (bytes : List ℕ) (file other : List syntax.Statement) → IsSyntaxOf bytes file → IsSyntaxOf bytes other
        → file ≡ other }
{}

/// Law: each word of the statements of bytes is 1 to 64 letters and digits, and each sign is one or
/// more sign bytes and not the arrow, by `StatementsHaveNames` of mp_parser's `specs/Syntax.antt`.
///
/// It does nothing when it runs.
pub fn syntax_has_names()
    ensures { (bytes : List ℕ) (file : List syntax.Statement) → IsSyntaxOf bytes file → StatementsHaveNames file }
{}

/// Law: the text that statements are printed as, `statements_text` of `specs/Printed.antt`, is read as those
/// statements, apart from the places where they stand.
///
/// Of the statements each word is a word and each expression fits, as of all that are read. It does nothing when it
/// runs.
pub fn printed_statements_are_read()
    ensures { (file : List syntax.Statement) → StatementsHaveNames file → AreStatements MAX_OPEN file
        → (read : List syntax.Statement) × IsSyntaxOf (statements_text file) read
        × (map unplaced read ≡ map unplaced file) }
{}

// Reads all statements, or the first fault.
fn statements<'a>(
    alloc: Global,
    bump: &'a Bump,
    bytes: &'a [u8],
) -> Result<Vec<Statement<'a>>, SyntaxError>
    requires { length bytes.now < 2 ^ 32 - 1 }
    ensures { FileGives result (text_reading OfFile bytes.now) }
{
    match parse(alloc, bump, bytes) {
        Ok(statements) => Ok(statements),
        Err(error) => Err(first_error(bytes, error)),
    }
}

// Room for so many statements is enough: each ends with a semicolon, and has more bytes besides.
fn statement_room(bytes: &[u8]) -> usize {
    let mut count: usize = 0;
    for byte in bytes {
        if *byte == b';' {
            count = count.wrapping_add(1);
        }
    }
    count.min(bytes.len() / SHORTEST)
}

// Reads all statements, or the first fault that the grammar has.
fn parse<'a>(
    alloc: Global,
    bump: &'a Bump,
    bytes: &'a [u8],
) -> Result<Vec<Statement<'a>>, SyntaxError>
    requires { length bytes.now < 2 ^ 32 - 1 }
    ensures { FileGives result (run [] Top (lexemes bytes.now first_place)) }
{
    let mut parser = Parser::new(bytes);
    let mut arena = Arena::new(alloc, bump);
    let mut statements = Vec::with_capacity(alloc, statement_room(bytes))?;
    while !parser.is_at_end() {
        let statement = read_statement(&mut parser, &mut arena)?;
        statements.push(statement)?;
    }
    Ok(statements)
}

/// Reads the next statement, where the end is not held: its tokens are passed. What an error leaves is as said of
/// mp_parser's `Parser`.
///
/// - `SyntaxError::Memory` comes where memory runs out.
/// - `SyntaxError::Fault` comes where the tokens go on with no statement, at the first that doesn't go on with one.
///
/// The clause `read` is `StatementFrom` of `specs/StatementParsing.antt`.
pub fn read_statement<'a>(
    parser: &mut Parser<'a>,
    arena: &mut Arena<'a>,
) -> Result<Statement<'a>, SyntaxError>
    requires { is_end (token_of parser.old.token.kind) ≡ false }
    ensures read { StatementFrom Top result (ahead parser.old) (ahead parser.new) }
    ensures shorter { OnOk result (length (ahead parser.new) < length (ahead parser.old)) }
{
    match next_keyword(parser)? {
        Keyword::Op => op(parser, arena.alloc),
        Keyword::Kind => kind(parser, arena.alloc),
        Keyword::Rule => rule(parser, arena),
        Keyword::Subject => subject(parser, arena),
        Keyword::Edit => edit(parser, arena),
    }
}

// Reads what follows `op`: a name, a number, perhaps a plus, flags and the semicolon.
fn op<'a>(parser: &mut Parser<'a>, alloc: Global) -> Result<Statement<'a>, SyntaxError>
    ensures read { StatementFrom AfterOp result (ahead parser.old) (ahead parser.new) }
    ensures shorter { OnOk result (length (ahead parser.new) ≤ length (ahead parser.old)) }
{
    let name = parser.word()?;
    let least = parser.number()?;
    let open = parser.plus();
    let flags = parser.flags(alloc)?;
    Ok(Statement::Op {
        name,
        least,
        open,
        flags,
    })
}

// Reads what follows `kind`: a name, a colon, members and the semicolon.
fn kind<'a>(parser: &mut Parser<'a>, alloc: Global) -> Result<Statement<'a>, SyntaxError>
    ensures read { StatementFrom AfterKind result (ahead parser.old) (ahead parser.new) }
    ensures shorter { OnOk result (length (ahead parser.new) ≤ length (ahead parser.old)) }
{
    let name = heading(parser)?;
    let members = parser.members(alloc)?;
    Ok(Statement::Kind { name, members })
}

// Reads what follows `rule`: a name, a colon, an expression, perhaps the arrow and another one, perhaps `if` and a
// condition, and the semicolon.
fn rule<'a>(parser: &mut Parser<'a>, arena: &mut Arena<'a>) -> Result<Statement<'a>, SyntaxError>
    ensures read { StatementFrom (AfterRole OfRule) result (ahead parser.old) (ahead parser.new) }
    ensures shorter { OnOk result (length (ahead parser.new) ≤ length (ahead parser.old)) }
{
    let (name, pattern) = named_expr(parser, arena)?;
    let pattern = arena.bump.try_alloc(pattern)?;
    let (template, condition) = read_rule_end(parser, arena)?;
    Ok(Statement::Rule {
        name,
        pattern,
        template,
        condition,
    })
}

/// Reads what stands behind the pattern of a rule: its template and its condition, where it has them, and the
/// semicolon. What an error leaves is as said of mp_parser's `Parser`.
///
/// - `SyntaxError::Memory` comes where memory runs out.
/// - `SyntaxError::Fault` comes where the tokens don't end a rule, at the first that doesn't go on with its end.
///
/// The clause `read` is `RuleEndGives` of `specs/StatementParsing.antt`.
pub fn read_rule_end<'a>(
    parser: &mut Parser<'a>,
    arena: &mut Arena<'a>,
) -> Result<(Option<&'a Expr<'a>>, Option<Condition<'a>>), SyntaxError>
    ensures read { RuleEndGives result (ahead parser.old) (ahead parser.new) }
    ensures shorter { OnOk result (length (ahead parser.new) ≤ length (ahead parser.old)) }
{
    let template = parser.template(arena)?;
    let condition = parser.rule_condition(arena)?;
    parser.expect(Punct::Semicolon)?;
    Ok((template, condition))
}

// Reads what follows `subject`: a name, a colon, an expression and the semicolon.
fn subject<'a>(parser: &mut Parser<'a>, arena: &mut Arena<'a>) -> Result<Statement<'a>, SyntaxError>
    ensures read { StatementFrom (AfterRole OfSubject) result (ahead parser.old) (ahead parser.new) }
    ensures shorter { OnOk result (length (ahead parser.new) ≤ length (ahead parser.old)) }
{
    let (name, term) = named_expr(parser, arena)?;
    parser.expect(Punct::Semicolon)?;
    Ok(Statement::Subject { name, term })
}

// Reads what follows `edit`: a name, a colon, changes and the semicolon.
fn edit<'a>(parser: &mut Parser<'a>, arena: &mut Arena<'a>) -> Result<Statement<'a>, SyntaxError>
    ensures read { StatementFrom AfterEdit result (ahead parser.old) (ahead parser.new) }
    ensures shorter { OnOk result (length (ahead parser.new) ≤ length (ahead parser.old)) }
{
    let subject = heading(parser)?;
    let changes = parser.changes(arena)?;
    Ok(Statement::Edit { subject, changes })
}

// Reads a name, a colon and an expression.
fn named_expr<'a>(
    parser: &mut Parser<'a>,
    arena: &mut Arena<'a>,
) -> Result<(Word<'a>, Expr<'a>), SyntaxError>
    ensures read { NamedExprGives result (ahead parser.old) (ahead parser.new) }
    ensures shorter { OnOk result (length (ahead parser.new) ≤ length (ahead parser.old)) }
{
    let name = heading(parser)?;
    let expr = parser.expr(arena, MAX_OPEN)?;
    Ok((name, expr))
}

// Reads a name and a colon.
fn heading<'a>(parser: &mut Parser<'a>) -> Result<Word<'a>, SyntaxError>
    ensures read { HeadingGives result (ahead parser.old) (ahead parser.new) }
    ensures shorter { OnOk result (length (ahead parser.new) ≤ length (ahead parser.old)) }
{
    let name = parser.word()?;
    parser.expect(Punct::Colon)?;
    Ok(name)
}

// Reads the word that a statement begins with, where the end is not held.
fn next_keyword(parser: &mut Parser<'_>) -> Result<Keyword, SyntaxError>
    requires { is_end (token_of parser.old.token.kind) ≡ false }
    ensures read { KeywordGives result (ahead parser.old) (ahead parser.new) }
    ensures shorter { OnOk result (length (ahead parser.new) < length (ahead parser.old)) }
{
    let keyword = match parser.token.kind {
        Kind::Word(word) => keyword_of(word),
        _ => None,
    };
    match keyword {
        Some(keyword) => {
            parser.advance();
            Ok(keyword)
        }
        None => Err(parser.refused()),
    }
}

// The keyword that a word is.
fn keyword_of(word: &[u8]) -> Option<Keyword>
    ensures { keyword_step result ≡ keyword word.now }
{
    if word == b"op".as_slice() {
        Some(Keyword::Op)
    } else if word == b"kind".as_slice() {
        Some(Keyword::Kind)
    } else if word == b"rule".as_slice() {
        Some(Keyword::Rule)
    } else if word == b"subject".as_slice() {
        Some(Keyword::Subject)
    } else if word == b"edit".as_slice() {
        Some(Keyword::Edit)
    } else {
        None
    }
}
