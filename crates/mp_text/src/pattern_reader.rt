//! Reads the patterns of rules, each as its tokens are passed: no tree of their expressions is made.

ghost use Rattle.std.specs.Prelude.{◌≡◌, ◌<◌, ◌≤◌, ◌+◌, ◌-◌, ℕ, true, length, map, IfOk, IfSome};
ghost use Rattle.mp_pattern.specs.View.{pattern_tree};
ghost use Rattle.mp_parser.specs.declared.token.Punct.TheVariants.{Open};
ghost use Rattle.mp_parser.specs.Lexing.{token_of};
ghost use Rattle.mp_parser.specs.Machine.{is_punct, BeforeExpr, AfterWord, AfterWildcard};
ghost use Rattle.mp_parser.specs.Parsing.{ahead};
ghost use Rattle.mp_parser.specs.View.{spot_of, wildcard_of};
ghost use Rattle.mp_build.specs.WildcardView.{wildcard_view};
ghost use Rattle.mp_text.specs.ReadPattern.{IsPatternRead, AreArgumentPatternsRead, IsWholePatternRead};

use mp_build::{PatternWildcard, build_wildcard, find_decl, if_faultless, symbol};
use mp_parser::parser::Parser;
use mp_parser::token::{Kind, Punct};
use mp_pattern::{MAX_VARIABLES, Pattern, Patterns};
use mp_syntax::{MAX_OPEN, Wildcard, Word};
use mp_term::{Memory, Signature};
use std::alloc::Global;

/// Reads the pattern of a rule, in which no bracket is open yet, and gives it as it is written, with its wildcards in
/// order. None says nothing of the tokens, of which some may be passed then: they are no pattern that has no fault, or
/// one with other forms in it than names, applications to arguments in brackets, and wildcards without a count and a
/// default, or a wildcard alone, or it is too large.
pub(crate) fn read_whole_pattern<'a>(
    alloc: Global,
    sig: &Signature,
    parser: &mut Parser<'a>,
) -> Result<Option<(Pattern, Vec<PatternWildcard<'a>>)>, Memory>
    ensures read { IfOk result (λ o. IfSome o (λ p.
        IsWholePatternRead sig.now (pattern_tree p.0) (map wildcard_view p.1.items) (ahead parser.old)
        (ahead parser.new))) }
    ensures shorter { IfOk result (λ o. IfSome o (λ p. length (ahead parser.new) < length (ahead parser.old))) }
{
    let mut left = MAX_VARIABLES;
    let mut wildcards = Vec::new(alloc);
    let Some(pattern) = read_pattern(alloc, sig, parser, MAX_OPEN, &mut left, &mut wildcards)?
    else {
        return Ok(None);
    };
    if let Pattern::Wild(..) = pattern {
        return Ok(None);
    }
    Ok(Some((pattern, wildcards)))
}

/// Reads a pattern of at most `left` nodes behind these wildcards of the same rule, in which at most `room` brackets
/// stand open at once. It takes its nodes from `left`, and adds its wildcards to those. None says nothing of the
/// tokens, nor of the wildcards.
#[cycle(read_pattern)]
fn read_pattern<'a>(
    alloc: Global,
    sig: &Signature,
    parser: &mut Parser<'a>,
    room: usize,
    left: &mut usize,
    before: &mut Vec<PatternWildcard<'a>>,
) -> Result<Option<Pattern>, Memory>
    ensures read { IfOk result (λ o. IfSome o (λ p.
        IsPatternRead sig.now BeforeExpr room (left.old - left.new) (pattern_tree p)
        (map wildcard_view before.old.items) (map wildcard_view before.new.items) (ahead parser.old)
        (ahead parser.new))) }
    ensures fewer { IfOk result (λ o. IfSome o (λ p. left.new ≤ left.old)) }
    ensures shorter { IfOk result (λ o. IfSome o (λ p. length (ahead parser.new) < length (ahead parser.old))) }
{
    if *left == 0 {
        return Ok(None);
    }
    *left -= 1;
    let place = parser.token.place;
    match parser.token.kind {
        Kind::Word(text) => {
            parser.advance();
            read_name(alloc, sig, parser, Word { text, place }, room, left, before)
        }
        Kind::Wildcard { name, marks, kind } => {
            parser.advance();
            let wild = Wildcard {
                name,
                marks,
                kind,
                place,
            };
            read_wildcard(alloc, sig, parser, wild, before)
        }
        _ => Ok(None),
    }
}

/// Reads what stands behind a wildcard, which has neither a count nor a default.
fn read_wildcard<'a>(
    alloc: Global,
    sig: &Signature,
    parser: &Parser<'a>,
    wild: Wildcard<'a>,
    before: &mut Vec<PatternWildcard<'a>>,
) -> Result<Option<Pattern>, Memory>
    ensures { IfOk result (λ o. IfSome o (λ p. (room : ℕ)
        → IsPatternRead sig.now (λ x k. AfterWildcard x k (wildcard_of wild.entry)) room 1 (pattern_tree p)
        (map wildcard_view before.old.items) (map wildcard_view before.new.items) (ahead parser.now)
        (ahead parser.now))) }
{
    if parser.sees_default(&wild) || parser.sees_count(&wild) {
        return Ok(None);
    }
    let Some(pattern) = if_faultless(build_wildcard(alloc, sig, wild, before))? else {
        return Ok(None);
    };
    Ok(Some(pattern))
}

/// Reads what stands behind a name: the arguments of an operation in brackets, or nothing, and then it is a symbol.
#[cycle(read_pattern)]
fn read_name<'a>(
    alloc: Global,
    sig: &Signature,
    parser: &mut Parser<'a>,
    name: Word<'_>,
    room: usize,
    left: &mut usize,
    before: &mut Vec<PatternWildcard<'a>>,
) -> Result<Option<Pattern>, Memory>
    ensures read { IfOk result (λ o. IfSome o (λ p.
        IsPatternRead sig.now (λ x k. AfterWord x k (spot_of name.entry)) room (left.old - left.new + 1)
        (pattern_tree p) (map wildcard_view before.old.items) (map wildcard_view before.new.items)
        (ahead parser.old) (ahead parser.new))) }
    ensures fewer { IfOk result (λ o. IfSome o (λ p. left.new ≤ left.old)) }
    ensures shorter { IfOk result (λ o. IfSome o (λ p. length (ahead parser.new) ≤ length (ahead parser.old))) }
{
    if parser.sees(Punct::Open) {
        return read_application(alloc, sig, parser, name, room, left, before);
    }
    let Some(name) = if_faultless(symbol(alloc, sig, name))? else {
        return Ok(None);
    };
    Ok(Some(Pattern::Sym(name)))
}

/// Reads what stands in brackets behind the name of an operation, of which the opening one is held: its arguments.
#[cycle(read_pattern)]
fn read_application<'a>(
    alloc: Global,
    sig: &Signature,
    parser: &mut Parser<'a>,
    name: Word<'_>,
    room: usize,
    left: &mut usize,
    before: &mut Vec<PatternWildcard<'a>>,
) -> Result<Option<Pattern>, Memory>
    requires { is_punct Open (token_of parser.old.token.kind) ≡ true }
    ensures read { IfOk result (λ o. IfSome o (λ p.
        IsPatternRead sig.now (λ x k. AfterWord x k (spot_of name.entry)) room (left.old - left.new + 1)
        (pattern_tree p) (map wildcard_view before.old.items) (map wildcard_view before.new.items)
        (ahead parser.old) (ahead parser.new))) }
    ensures fewer { IfOk result (λ o. IfSome o (λ p. left.new ≤ left.old)) }
    ensures shorter { IfOk result (λ o. IfSome o (λ p. length (ahead parser.new) < length (ahead parser.old))) }
{
    if room == 0 {
        return Ok(None);
    }
    let Some((op, decl)) = find_decl(sig, name.text) else {
        return Ok(None);
    };
    parser.advance();
    if parser.sees(Punct::Close) {
        return Ok(None);
    }
    let least = decl.least as usize;
    let Some(patterns) = read_arguments(alloc, sig, parser, least, room - 1, left, before)? else {
        return Ok(None);
    };
    if !decl.allows(patterns.len()) {
        return Ok(None);
    }
    Ok(Some(Pattern::App(op, patterns)))
}

/// Reads patterns with a comma between each two, and the bracket that closes them. There is room for so many at once.
#[cycle(read_pattern)]
fn read_arguments<'a>(
    alloc: Global,
    sig: &Signature,
    parser: &mut Parser<'a>,
    least: usize,
    room: usize,
    left: &mut usize,
    before: &mut Vec<PatternWildcard<'a>>,
) -> Result<Option<Patterns>, Memory>
    ensures read { IfOk result (λ o. IfSome o (λ ps.
        AreArgumentPatternsRead sig.now room (left.old - left.new) ps (map wildcard_view before.old.items)
        (map wildcard_view before.new.items) (ahead parser.old) (ahead parser.new))) }
    ensures fewer { IfOk result (λ o. IfSome o (λ ps. left.new ≤ left.old)) }
    ensures shorter { IfOk result (λ o. IfSome o (λ ps. length (ahead parser.new) ≤ length (ahead parser.old))) }
{
    let mut patterns = Patterns::with_room(alloc, least)?;
    loop {
        let Some(pattern) = read_pattern(alloc, sig, parser, room, left, before)? else {
            return Ok(None);
        };
        patterns.push(pattern)?;
        if !parser.sees(Punct::Comma) {
            break;
        }
        parser.advance();
    }
    let Ok(()) = parser.expect(Punct::Close) else {
        return Ok(None);
    };
    Ok(Some(patterns))
}
