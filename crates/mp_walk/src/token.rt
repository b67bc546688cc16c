//! What the token of a wildcard takes, whatever was taken before.
ghost use Rattle.std.specs.Prelude.{◌≡◌, ◌≤◌, ℕ, List, [], Option, is_some, length, true, IfSome, IsTrue};
ghost use Rattle.mp_term.specs.Signature.{Sig};
ghost use Rattle.mp_term.specs.Tree.{Tree};
ghost use Rattle.mp_pattern.specs.NetTokens.{wild_token};
ghost use Rattle.mp_pattern.specs.NetTokenView.{net_token};
ghost use Rattle.mp_pattern.specs.PatternTree.{Wildcard, is_sequence};
ghost use Rattle.mp_table.specs.Table.{HasRanks, terms_at};
ghost use Rattle.mp_theory.specs.Solve as solve;
ghost use Rattle.mp_search.specs.Frames.{above};
ghost use Rattle.mp_walk.specs.Trails.{shape_of, number_of};

use mp_pattern::{NetToken, is_assoc_above, meets_count};
use mp_search::{is_contribution, is_of_kind};
use mp_table::{Rank, Table};
use mp_term::{OpId, Signature};

// The number of the variable of a wildcard.
pub(crate) fn number(token: &NetToken) -> Option<u32>
    ensures { (w : Wildcard) (x : Option ℕ) → net_token token.now ≡ wild_token w x → result ≡ x }
{
    match token {
        NetToken::Dot(var)
        | NetToken::Kind(_, var)
        | NetToken::Plus(var)
        | NetToken::Star(var)
        | NetToken::Opt(var, _)
        | NetToken::Counted(_, _, var) => *var,
        _ => None,
    }
}

// It is a wildcard that takes a list.
pub(crate) fn is_sequence(token: &NetToken) -> bool
    ensures { (w : Wildcard) (x : Option ℕ) → net_token token.now ≡ wild_token w x → result ≡ is_sequence w }
{
    matches!(
        token,
        NetToken::Plus(_) | NetToken::Star(_) | NetToken::Counted(_, _, _)
    )
}

// A number of terms that the wildcard takes at least.
pub(crate) fn least(token: &NetToken) -> usize
    ensures { (w : Wildcard) (x : Option ℕ) → net_token token.now ≡ wild_token w x
        → (sig : Sig) (f : Option ℕ) (ts : List Tree) → is_some (solve.given sig f w ts) ≡ true → result ≤ length ts }
{
    match token {
        NetToken::Star(_) | NetToken::Opt(_, _) => 0,
        NetToken::Counted(count, _, _) => *count as usize,
        _ => 1,
    }
}

// It is a wildcard.
pub(crate) fn is_wild(token: &NetToken) -> bool
    ensures { IsTrue result → net_token token.now
        ≡ wild_token (shape_of (net_token token.now)) (number_of (net_token token.now)) }
{
    !matches!(
        token,
        NetToken::Sym(_) | NetToken::Enter(_) | NetToken::Leave(_) | NetToken::Comm(_)
    )
}

// A number of terms that the wildcard takes at most: None where it may take any number.
pub(crate) fn bound(sig: &Signature, under: Option<OpId>, token: &NetToken) -> Option<usize>
    ensures { (w : Wildcard) (x : Option ℕ) → net_token token.now ≡ wild_token w x → IfSome result (λ n.
        (ts : List Tree) → is_some (solve.given sig.now (above under) w ts) ≡ true → length ts ≤ n) }
{
    match token {
        NetToken::Plus(_) | NetToken::Star(_) => None,
        NetToken::Counted(count, fixed, _) => { if *fixed { Some(*count as usize) } else { None } }
        NetToken::Dot(_) | NetToken::Opt(_, _) if is_assoc_above(sig, under) => None,
        _ => Some(1),
    }
}

// A number of so many terms that the wildcard takes at most.
pub(crate) fn most(sig: &Signature, under: Option<OpId>, token: &NetToken, left: usize) -> usize
    ensures least { result ≤ left }
    ensures most { (w : Wildcard) (x : Option ℕ) → net_token token.now ≡ wild_token w x → (ts : List Tree)
        → length ts ≤ left → is_some (solve.given sig.now (above under) w ts) ≡ true → length ts ≤ result }
{
    match bound(sig, under, token) {
        Some(bound) => bound.min(left),
        None => left,
    }
}

// The wildcard may take the list.
pub(crate) fn gives(
    sig: &Signature,
    table: &Table,
    under: Option<OpId>,
    token: &NetToken,
    ranks: &[Rank],
) -> bool
    requires { HasRanks table.now ranks.now }
    ensures { (w : Wildcard) (x : Option ℕ) → net_token token.now ≡ wild_token w x
        → result ≡ is_some (solve.given sig.now (above under) w (terms_at table.now ranks.now)) }
{
    match token {
        NetToken::Dot(_) => is_contribution(sig, table, under, ranks),
        NetToken::Kind(kind, _) => is_of_kind(sig, table, *kind, ranks),
        NetToken::Plus(_) => !ranks.is_empty(),
        NetToken::Star(_) => true,
        NetToken::Counted(count, fixed, _) => meets_count(*count, *fixed, ranks.len()),
        NetToken::Opt(_, _) => ranks.is_empty() || is_contribution(sig, table, under, ranks),
        _ => false,
    }
}
