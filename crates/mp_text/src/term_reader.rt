//! Reads terms, each as its tokens are passed: no tree of their expressions is made.

ghost use Rattle.std.specs.Prelude.{◌≡◌, ◌<◌, ◌≤◌, ◌+◌, ◌-◌, true, length, IfOk, IfSome};
ghost use Rattle.mp_term.specs.View.{tree};
ghost use Rattle.mp_parser.specs.declared.token.Punct.TheVariants.{Open};
ghost use Rattle.mp_parser.specs.Lexing.{token_of};
ghost use Rattle.mp_parser.specs.Machine.{is_punct, BeforeExpr, AfterWord};
ghost use Rattle.mp_parser.specs.Parsing.{ahead};
ghost use Rattle.mp_parser.specs.View.{spot_of};
ghost use Rattle.mp_text.specs.ReadTerm.{IsTermRead, AreArgumentsRead};

use mp_build::{find_decl, if_faultless, symbol};
use mp_parser::parser::Parser;
use mp_parser::token::{Kind, Punct};
use mp_syntax::Word;
use mp_term::{Memory, Signature, Term, Terms};
use std::alloc::Global;

/// Reads a term of at most `left` nodes, in which at most `room` brackets stand open at once, and takes its nodes from
/// `left`. None says nothing of the tokens, of which some may be passed then: they are no term that has no fault, or
/// one of other forms than names and applications to arguments in brackets, or it is too large.
#[cycle(read_term)]
pub(crate) fn read_term(
    alloc: Global,
    sig: &Signature,
    parser: &mut Parser<'_>,
    room: usize,
    left: &mut usize,
) -> Result<Option<Term>, Memory>
    ensures read { IfOk result (λ o. IfSome o (λ t.
        IsTermRead sig.now BeforeExpr room (left.old - left.new) (tree t) (ahead parser.old) (ahead parser.new))) }
    ensures fewer { IfOk result (λ o. IfSome o (λ t. left.new ≤ left.old)) }
    ensures shorter { IfOk result (λ o. IfSome o (λ t. length (ahead parser.new) < length (ahead parser.old))) }
{
    if *left == 0 {
        return Ok(None);
    }
    *left -= 1;
    let place = parser.token.place;
    let Kind::Word(text) = parser.token.kind else {
        return Ok(None);
    };
    parser.advance();
    let name = Word { text, place };
    if parser.sees(Punct::Open) {
        return read_application(alloc, sig, parser, name, room, left);
    }
    let Some(name) = if_faultless(symbol(alloc, sig, name))? else {
        return Ok(None);
    };
    Ok(Some(Term::Sym(name)))
}

/// Reads what stands in brackets behind the name of an operation, of which the opening one is held: its arguments.
#[cycle(read_term)]
fn read_application(
    alloc: Global,
    sig: &Signature,
    parser: &mut Parser<'_>,
    name: Word<'_>,
    room: usize,
    left: &mut usize,
) -> Result<Option<Term>, Memory>
    requires { is_punct Open (token_of parser.old.token.kind) ≡ true }
    ensures read { IfOk result (λ o. IfSome o (λ t.
        IsTermRead sig.now (λ x k. AfterWord x k (spot_of name.entry)) room (left.old - left.new + 1) (tree t)
        (ahead parser.old) (ahead parser.new))) }
    ensures fewer { IfOk result (λ o. IfSome o (λ t. left.new ≤ left.old)) }
    ensures shorter { IfOk result (λ o. IfSome o (λ t. length (ahead parser.new) < length (ahead parser.old))) }
{
    if room == 0 {
        return Ok(None);
    }
    let Some((op, decl)) = find_decl(sig, name.text) else {
        return Ok(None);
    };
    parser.advance();
    if parser.sees(Punct::Close) {
        return Ok(None);
    }
    let Some(terms) = read_arguments(alloc, sig, parser, decl.least as usize, room - 1, left)?
    else {
        return Ok(None);
    };
    if !decl.allows(terms.len()) {
        return Ok(None);
    }
    Ok(Some(Term::App(op, terms)))
}

/// Reads terms with a comma between each two, and the bracket that closes them. There is room for so many at once.
#[cycle(read_term)]
fn read_arguments(
    alloc: Global,
    sig: &Signature,
    parser: &mut Parser<'_>,
    least: usize,
    room: usize,
    left: &mut usize,
) -> Result<Option<Terms>, Memory>
    ensures read { IfOk result (λ o. IfSome o (λ ts.
        AreArgumentsRead sig.now room (left.old - left.new) ts (ahead parser.old) (ahead parser.new))) }
    ensures fewer { IfOk result (λ o. IfSome o (λ ts. left.new ≤ left.old)) }
    ensures shorter { IfOk result (λ o. IfSome o (λ ts. length (ahead parser.new) ≤ length (ahead parser.old))) }
{
    let mut terms = Terms::with_room(alloc, least)?;
    loop {
        let Some(term) = read_term(alloc, sig, parser, room, left)? else {
            return Ok(None);
        };
        terms.push(term)?;
        if !parser.sees(Punct::Comma) {
            break;
        }
        parser.advance();
    }
    let Ok(()) = parser.expect(Punct::Close) else {
        return Ok(None);
    };
    Ok(Some(terms))
}
