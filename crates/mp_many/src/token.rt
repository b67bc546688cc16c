//! The tokens of the patterns of rules, read where they stand.
ghost use Rattle.std.specs.Prelude.{◌≡◌, true, false, IfOk, IfSome, IsTrue};
ghost use Rattle.mp_pattern.specs.NetTokens.{same_token, wild_token};
ghost use Rattle.mp_pattern.specs.NetTokenView.{net_token};
ghost use Rattle.mp_pattern.specs.PatternTree.{kind};
ghost use Rattle.mp_many.specs.TokenView.{read_token};

use mp_pattern::{NetToken, Pattern, Shape, renamed, wild_token};
use mp_term::{Memory, Name, Names, OpId};
use std::alloc::Global;

// A token of a rule's pattern where it stands: a wildcard with the number of its variable, and an application of a
// commutative operation with the variables of the whole pattern.
#[derive(Clone, Copy)]
pub(crate) enum Token<'a> {
    Sym(&'a Name),
    Enter(OpId),
    Leave(OpId),
    Wild(&'a Shape, Option<u32>),
    Comm(&'a Pattern, &'a Names),
}

// The token with copies of its parts.
pub(crate) fn to_net_token(alloc: Global, token: &Token<'_>) -> Result<NetToken, Memory>
    ensures { IfOk result (λ k. net_token k ≡ read_token token.now) }
{
    match token {
        Token::Sym(name) => Ok(NetToken::Sym(name.copy(alloc)?)),
        Token::Enter(op) => Ok(NetToken::Enter(*op)),
        Token::Leave(op) => Ok(NetToken::Leave(*op)),
        Token::Wild(shape, number) => wild_token(alloc, shape, *number),
        Token::Comm(pattern, names) => Ok(NetToken::Comm(renamed(alloc, names, pattern)?)),
    }
}

// The tokens are equal, as is told at once of all but applications of commutative operations and wildcards with a count
// or a default.
pub(crate) fn is_plainly_same(token: &Token<'_>, other: &Token<'_>) -> bool
    ensures { IsTrue result → same_token (read_token token.now) (read_token other.now) ≡ true }
{
    match (token, other) {
        (Token::Sym(m), Token::Sym(n)) => **m == **n,
        (Token::Enter(f), Token::Enter(g)) => *f == *g,
        (Token::Leave(f), Token::Leave(g)) => *f == *g,
        (Token::Wild(Shape::Dot, m), Token::Wild(Shape::Dot, n)) => *m == *n,
        (Token::Wild(Shape::Plus, m), Token::Wild(Shape::Plus, n)) => *m == *n,
        (Token::Wild(Shape::Star, m), Token::Wild(Shape::Star, n)) => *m == *n,
        (Token::Wild(Shape::Kind(k), m), Token::Wild(Shape::Kind(l), n)) => *k == *l && *m == *n,
        _ => false,
    }
}

// The numbers of the kind and of the variable of a wildcard of a kind.
fn kind_of(token: &Token<'_>) -> Option<(u32, Option<u32>)>
    ensures { IfSome result (λ k. read_token token.now ≡ wild_token (kind k.0) k.1) }
{
    match token {
        Token::Wild(Shape::Kind(kind), number) => Some((kind.0, *number)),
        _ => None,
    }
}

// The tokens are wildcards of different kinds.
fn are_of_other_kinds(token: &Token<'_>, other: &Token<'_>) -> bool
    ensures { IsTrue result → same_token (read_token token.now) (read_token other.now) ≡ false }
{
    let Some(own) = kind_of(token) else {
        return false;
    };
    let Some(others) = kind_of(other) else {
        return false;
    };
    own.0 != others.0
}

// The tokens are equal. `Memory` comes where there is no room to compare applications of a commutative operation.
pub(crate) fn is_same(alloc: Global, token: &Token<'_>, other: &Token<'_>) -> Result<bool, Memory>
    ensures { IfOk result (λ b. b ≡ same_token (read_token token.now) (read_token other.now)) }
{
    if is_plainly_same(token, other) {
        return Ok(true);
    }
    if are_of_other_kinds(token, other) {
        return Ok(false);
    }
    Ok(to_net_token(alloc, token)? == to_net_token(alloc, other)?)
}
