//! A look whether a child may take a term alone, as far as heads and the trail tell.
ghost use Rattle.std.specs.Prelude.{◌≡◌, true, ℕ, List, Option, IsTrue, map};
ghost use Rattle.mp_term.specs.Signature.{Sig};
ghost use Rattle.mp_pattern.specs.PatternTree.{patterns, symbol_pattern};
ghost use Rattle.mp_term.specs.Order.{tree_cmp};
ghost use Rattle.mp_term.specs.Pieces.{same};
ghost use Rattle.mp_term.specs.Tree.{symbol};
ghost use Rattle.mp_pattern.specs.Subpatterns.{subpatterns, all_subpatterns};
ghost use Rattle.mp_pattern.specs.View.{pattern_tree, wildcard};
ghost use Rattle.mp_table.specs.Table.{HasRank, HasRanks, IsTable, term_at, terms_at};
ghost use Rattle.mp_subst.specs.Bound.{bound_of, value_in, IsBoundIn};
ghost use Rattle.mp_subst.specs.Trail.{GoesWith};
ghost use Rattle.mp_theory.specs.Known.{contributed};
ghost use Rattle.mp_theory.specs.MayMatch as look;
ghost use Rattle.mp_search.specs.Frames.{above};
ghost use Rattle.mp_search.specs.Parts.{StandsAt, IsWild};
ghost use Rattle.mp_search.specs.Query.{IsQuery};
ghost use Rattle.mp_search.specs.Reading.{subst_of};

use crate::end::{end_of, first_below};
use crate::ground::ground_rank;
use crate::query::Query;
use crate::reads::{has_head, in_kind};
use crate::variable::number_at;
use mp_pattern::{Pattern, Shape, is_assoc_above, is_comm_above, no_sequence};
use mp_subst::{Bound, Trail};
use mp_table::{Rank, Table};
use mp_term::{OpId, Signature};

// Whether the child takes exactly one term.
pub(crate) fn takes_one(sig: &Signature, under: Option<OpId>, child: &Pattern) -> bool
    ensures { result ≡ look.takes_one sig.now (above under) (pattern_tree child.now) }
{
    match child {
        Pattern::Wild(Shape::Dot, _) => !is_assoc_above(sig, under),
        Pattern::Wild(Shape::Kind(_), _) => true,
        Pattern::Wild(_, _) => false,
        _ => true,
    }
}

// Whether each child does.
fn each_takes_one(sig: &Signature, under: Option<OpId>, children: &[Pattern]) -> bool
    ensures { result ≡ look.each_takes_one sig.now (above under) (patterns (map pattern_tree children.now)) }
{
    match children {
        [] => true,
        [child, later @ ..] => takes_one(sig, under, child) && each_takes_one(sig, under, later),
    }
}

// Whether the children take their terms in order, one each.
pub(crate) fn is_plain(sig: &Signature, under: Option<OpId>, children: &[Pattern]) -> bool
    ensures { result ≡ look.is_plain sig.now (above under) (patterns (map pattern_tree children.now)) }
{
    !is_comm_above(sig, under) && each_takes_one(sig, under, children)
}

// Whether a child is optional.
fn has_optional(children: &[Pattern]) -> bool
    ensures { result ≡ look.has_optional (patterns (map pattern_tree children.now)) }
{
    match children {
        [] => false,
        [Pattern::Wild(Shape::Opt(_), _), ..] => true,
        [_, later @ ..] => has_optional(later),
    }
}

// Whether the operation on the children may stand for the one term that they take together.
pub(crate) fn may_collapse(sig: &Signature, op: OpId, children: &[Pattern]) -> bool
    ensures { result ≡ look.may_collapse sig.now op.0 (patterns (map pattern_tree children.now)) }
{
    sig.is_one(op) && no_sequence(children) && has_optional(children)
}

// Whether the child takes exactly one term, which is known somewhat before its variables are.
pub(crate) fn is_firm(sig: &Signature, child: &Pattern) -> bool {
    match child {
        Pattern::Sym(_) => true,
        Pattern::Wild(Shape::Kind(_), _) => true,
        Pattern::Wild(_, _) => false,
        Pattern::App(op, children) => !may_collapse(sig, *op, children.as_slice()),
    }
}

// Whether the wildcard is of no kind, or of the symbol's.
fn is_of_its_kind(sig: &Signature, table: &Table, shape: &Shape, rank: Rank) -> bool
    requires { HasRank table.now rank }
    ensures { result ≡ look.is_of_its_kind sig.now (wildcard shape.now) (term_at table.now rank) }
{
    match shape {
        Shape::Kind(kind) => in_kind(sig, table, *kind, rank),
        _ => true,
    }
}

// Whether what the value contributes may be the term alone.
fn is_value(table: &Table, bound: &Bound<'_>, rank: Rank) -> bool
    requires table { IsTable table.now }
    requires bound { IsBoundIn table.now (bound_of bound.now) }
    requires rank { HasRank table.now rank }
    ensures { (s : Sig) (f : Option ℕ) → look.is_alone_in (contributed s f (value_in table.now (bound_of bound.now)))
        (term_at table.now rank) ≡ true → IsTrue result }
{
    let _ = table;
    match bound.ranks {
        [only] => bound.wrap.is_none() && only.0 == rank.0,
        _ => false,
    }
}

// Whether the wildcard may take the term alone, as far as its variable's value tells, where it has one.
fn is_as_known(query: &Query<'_>, trail: &Trail, child: &Pattern, node: u32, rank: Rank) -> bool
    requires query { IsQuery query.now }
    requires trail { GoesWith query.now.table.now trail.now }
    requires child { StandsAt query.now node (subpatterns (pattern_tree child.now)) }
    requires wild { IsWild (pattern_tree child.now) }
    requires rank { HasRank query.now.table.now rank }
    ensures { (f : Option ℕ) → look.is_as_known query.now.sig.now (subst_of query.now trail.now) f
        (pattern_tree child.now) (term_at query.now.table.now rank) ≡ true → IsTrue result }
{
    let Some(var) = number_at(query, child, node) else {
        return true;
    };
    match trail.binding(var) {
        None => true,
        Some(bound) => is_value(query.table, &bound, rank),
    }
}

// Whether the term is the symbol of the child.
fn is_symbol(query: &Query<'_>, child: &Pattern, node: u32, rank: Rank) -> bool
    requires query { IsQuery query.now }
    requires child { StandsAt query.now node (subpatterns (pattern_tree child.now)) }
    requires rank { HasRank query.now.table.now rank }
    ensures { (n : List ℕ) → pattern_tree child.now ≡ symbol_pattern n →
        same tree_cmp (symbol n) (term_at query.now.table.now rank) ≡ true → IsTrue result }
{
    match ground_rank(query, child, node) {
        None => false,
        Some(own) => own.0 == rank.0,
    }
}

// Whether the child may take the term of the rank alone: false says that it can't, over this trail.
#[cycle(may_match)]
pub(crate) fn may_match(
    query: &Query<'_>,
    trail: &Trail,
    under: Option<OpId>,
    child: &Pattern,
    node: u32,
    rank: Rank,
) -> bool
    requires query { IsQuery query.now }
    requires trail { GoesWith query.now.table.now trail.now }
    requires child { StandsAt query.now node (subpatterns (pattern_tree child.now)) }
    requires rank { HasRank query.now.table.now rank }
    ensures { look.may_match query.now.sig.now (subst_of query.now trail.now) (above under) (pattern_tree child.now)
        (term_at query.now.table.now rank) ≡ true → IsTrue result }
{
    match child {
        Pattern::Sym(_) => is_symbol(query, child, node, rank),
        Pattern::Wild(Shape::Opt(_), _) => true,
        Pattern::Wild(shape, _) => {
            is_of_its_kind(query.sig, query.table, shape, rank)
                && is_as_known(query, trail, child, node, rank)
        }
        Pattern::App(op, children) => {
            let children = children.as_slice();
            if may_collapse(query.sig, *op, children) {
                return true;
            }
            if !has_head(query.table, rank, *op) {
                return false;
            }
            let args = query.table.args(rank);
            !is_plain(query.sig, Some(*op), children)
                || each_may_match(
                    query,
                    trail,
                    Some(*op),
                    children,
                    first_below(query, child, node),
                    args,
                )
        }
    }
}

// Whether each child may take the term at its place.
#[cycle(may_match)]
pub(crate) fn each_may_match(
    query: &Query<'_>,
    trail: &Trail,
    under: Option<OpId>,
    children: &[Pattern],
    node: u32,
    ranks: &[Rank],
) -> bool
    requires query { IsQuery query.now }
    requires trail { GoesWith query.now.table.now trail.now }
    requires children { StandsAt query.now node (all_subpatterns (patterns (map pattern_tree children.now))) }
    requires ranks { HasRanks query.now.table.now ranks.now }
    ensures { look.each_may_match query.now.sig.now (subst_of query.now trail.now) (above under)
        (patterns (map pattern_tree children.now)) (terms_at query.now.table.now ranks.now) ≡ true → IsTrue result }
{
    match children {
        [] => ranks.is_empty(),
        [child, later @ ..] => match ranks {
            [] => false,
            [rank, rest @ ..] => {
                if !may_match(query, trail, under, child, node, *rank) {
                    return false;
                }
                let end = end_of(query, child, node);
                each_may_match(query, trail, under, later, end, rest)
            }
        },
    }
}
