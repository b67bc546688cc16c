//! Where the terms stand that a child may match.
ghost use Rattle.std.specs.Prelude.{◌≡◌, ◌≤◌, ℕ, List, true, false, Option, Some, IfSome, IsTrue, map, length};
ghost use Rattle.std.specs.List.Sorted.{IsSorted};
ghost use Rattle.mp_term.specs.Signature.{Sig};
ghost use Rattle.mp_term.specs.Tree.{Tree};
ghost use Rattle.mp_pattern.specs.PatternTree.{app_pattern, patterns};
ghost use Rattle.mp_pattern.specs.Subpatterns.{subpatterns, all_subpatterns};
ghost use Rattle.mp_pattern.specs.View.{pattern_tree};
ghost use Rattle.mp_subst.specs.Bound.{bound_of, value_in, IsBoundIn};
ghost use Rattle.mp_subst.specs.Trail.{GoesWith};
ghost use Rattle.mp_table.specs.Subterms.{arguments};
ghost use Rattle.mp_table.specs.Table.{IsTable, HasRank, HasRanks, rank_cmp, term_at, terms_at};
ghost use Rattle.mp_theory.specs.Known.{contributed};
ghost use Rattle.mp_theory.specs.MayMatch as look;
ghost use Rattle.mp_search.specs.Frames.{above};
ghost use Rattle.mp_search.specs.Parts.{StandsAt, IsWild};
ghost use Rattle.mp_search.specs.Portion.{first_before, second_is, StandBetween};
ghost use Rattle.mp_search.specs.Query.{IsQuery};
ghost use Rattle.mp_search.specs.Reading.{subst_of};

use crate::end::{end_of, first_below};
use crate::ground::ground_rank;
use crate::headed::{Group, first_place, place_behind};
use crate::may_match::{each_may_match, is_plain, may_collapse, may_match};
use crate::query::Query;
use crate::told::has_value;
use crate::variable::number_at;
use mp_pattern::{Pattern, Shape};
use mp_subst::{Bound, Trail};
use mp_table::{Rank, Table};
use mp_term::{OpId, Signature};

// The rank of the only term that what the value contributes may be alone, if it is known.
fn alone_in(table: &Table, bound: &Bound<'_>) -> Option<Rank>
    requires { IsBoundIn table.now (bound_of bound.now) }
    ensures within { IfSome result (HasRank table.now) }
    ensures only { IfSome result (λ r. (s : Sig) (f : Option ℕ) (t : Tree) →
        look.is_alone_in (contributed s f (value_in table.now (bound_of bound.now))) t ≡ true
        → term_at table.now r ≡ t) }
{
    let _ = table;
    match (bound.wrap, bound.ranks) {
        (None, [only]) => Some(*only),
        _ => None,
    }
}

// The rank of the only term that the wildcard may take alone, if its variable's value tells.
fn value_rank(query: &Query<'_>, trail: &Trail, child: &Pattern, node: u32) -> Option<Rank>
    requires query { IsQuery query.now }
    requires trail { GoesWith query.now.table.now trail.now }
    requires child { StandsAt query.now node (subpatterns (pattern_tree child.now)) }
    requires wild { IsWild (pattern_tree child.now) }
    ensures within { IfSome result (HasRank query.now.table.now) }
    ensures only { IfSome result (λ r. (f : Option ℕ) (t : Tree) → look.is_as_known query.now.sig.now
        (subst_of query.now trail.now) f (pattern_tree child.now) t ≡ true → term_at query.now.table.now r ≡ t) }
{
    let Some(var) = number_at(query, child, node) else {
        return None;
    };
    match trail.binding(var) {
        None => None,
        Some(bound) => alone_in(query.table, &bound),
    }
}

// The rank of the only term that the child may take alone, if it is known.
fn known_rank(query: &Query<'_>, trail: &Trail, child: &Pattern, node: u32) -> Option<Rank>
    requires query { IsQuery query.now }
    requires trail { GoesWith query.now.table.now trail.now }
    requires child { StandsAt query.now node (subpatterns (pattern_tree child.now)) }
    ensures within { IfSome result (HasRank query.now.table.now) }
    ensures only { IfSome result (λ r. (f : Option ℕ) (t : Tree) → look.may_match query.now.sig.now
        (subst_of query.now trail.now) f (pattern_tree child.now) t ≡ true → term_at query.now.table.now r ≡ t) }
{
    match child {
        Pattern::Sym(_) => ground_rank(query, child, node),
        Pattern::Wild(Shape::Opt(_), _) => None,
        Pattern::Wild(_, _) => value_rank(query, trail, child, node),
        Pattern::App(_, _) => None,
    }
}

// Whether something is known of the wildcard's term.
fn is_known(query: &Query<'_>, trail: &Trail, child: &Pattern, node: u32) -> bool
    requires query { IsQuery query.now }
    requires trail { GoesWith query.now.table.now trail.now }
    requires child { StandsAt query.now node (subpatterns (pattern_tree child.now)) }
{
    match child {
        Pattern::Wild(Shape::Dot, _) => has_value(query, trail, child, node),
        _ => true,
    }
}

// Whether something is known of the term of some child.
fn some_is_known(query: &Query<'_>, trail: &Trail, children: &[Pattern], node: u32) -> bool
    requires query { IsQuery query.now }
    requires trail { GoesWith query.now.table.now trail.now }
    requires children { StandsAt query.now node (all_subpatterns (patterns (map pattern_tree children.now))) }
{
    match children {
        [] => false,
        [child, later @ ..] => {
            if is_known(query, trail, child, node) {
                return true;
            }
            let end = end_of(query, child, node);
            some_is_known(query, trail, later, end)
        }
    }
}

// Whether the child has arguments or a kind, of which its place among terms that ascend doesn't tell.
fn has_more(child: &Pattern) -> bool {
    match child {
        Pattern::App(_, _) => true,
        Pattern::Wild(Shape::Kind(_), _) => true,
        _ => false,
    }
}

// Whether a look at a term may tell more than its place among those that ascend, where the child is an application to
// the children: something is known of others than the first, or of that one's arguments or kind.
fn looks_within(query: &Query<'_>, trail: &Trail, children: &[Pattern], node: u32) -> bool
    requires query { IsQuery query.now }
    requires trail { GoesWith query.now.table.now trail.now }
    requires children { StandsAt query.now node (all_subpatterns (patterns (map pattern_tree children.now))) }
{
    match children {
        [] => false,
        [child, later @ ..] => {
            if has_more(child) {
                return true;
            }
            let end = end_of(query, child, node);
            some_is_known(query, trail, later, end)
        }
    }
}

// Whether a look at a term may tell more of whether the child matches it than its place among those that ascend.
pub(crate) fn tells_more(query: &Query<'_>, trail: &Trail, child: &Pattern, node: u32) -> bool
    requires query { IsQuery query.now }
    requires trail { GoesWith query.now.table.now trail.now }
    requires child { StandsAt query.now node (subpatterns (pattern_tree child.now)) }
{
    match child {
        Pattern::App(op, children) => {
            let children = children.as_slice();
            is_plain(query.sig, Some(*op), children)
                && looks_within(query, trail, children, first_below(query, child, node))
        }
        _ => true,
    }
}

// Whether the place of a term among those that ascend tells of its first argument what a look may tell: the application
// to the children can't be collapsed, and they take one argument each, the first one without looking into it.
pub(crate) fn tells_first(sig: &Signature, op: OpId, children: &[Pattern]) -> bool
    ensures { IsTrue result → (look.may_collapse sig.now op.0 (patterns (map pattern_tree children.now)) ≡ false)
        × (look.is_plain sig.now (Some op.0) (patterns (map pattern_tree children.now)) ≡ true) }
{
    match children {
        [] => false,
        [child, ..] => {
            if has_more(child) || may_collapse(sig, op, children) {
                return false;
            }
            is_plain(sig, Some(op), children)
        }
    }
}

// The rank of the only second argument that a term may have of which the two arguments are matched by the children, if
// there are two, and it is known.
fn second_among(query: &Query<'_>, trail: &Trail, children: &[Pattern], node: u32) -> Option<Rank>
    requires query { IsQuery query.now }
    requires trail { GoesWith query.now.table.now trail.now }
    requires children { StandsAt query.now node (all_subpatterns (patterns (map pattern_tree children.now))) }
    ensures within { IfSome result (HasRank query.now.table.now) }
    ensures only { IfSome result (λ r. (f : Option ℕ) (ts : List Tree) → look.each_may_match query.now.sig.now
        (subst_of query.now trail.now) f (patterns (map pattern_tree children.now)) ts ≡ true →
        second_is (term_at query.now.table.now r) ts ≡ true) }
{
    match children {
        [] => None,
        [child, later @ ..] => match later {
            [second] => {
                let end = end_of(query, child, node);
                known_rank(query, trail, second, end)
            }
            _ => None,
        },
    }
}

// The rank of the only second argument that a term may have which the child may match, if that is all that is to be
// looked at.
pub(crate) fn second_rank(
    query: &Query<'_>,
    trail: &Trail,
    child: &Pattern,
    node: u32,
) -> Option<Rank>
    requires query { IsQuery query.now }
    requires trail { GoesWith query.now.table.now trail.now }
    requires child { StandsAt query.now node (subpatterns (pattern_tree child.now)) }
    ensures within { IfSome result (HasRank query.now.table.now) }
    ensures only { IfSome result (λ r. (f : Option ℕ) (t : Tree) → look.may_match query.now.sig.now
        (subst_of query.now trail.now) f (pattern_tree child.now) t ≡ true →
        second_is (term_at query.now.table.now r) (arguments t) ≡ true) }
{
    match child {
        Pattern::App(op, children) => {
            let children = children.as_slice();
            if !tells_first(query.sig, *op, children) {
                return None;
            }
            let below = first_below(query, child, node);
            second_among(query, trail, children, below)
        }
        _ => None,
    }
}

// Whether the second argument of the term is that of the rank.
pub(crate) fn has_second(table: &Table, rank: Rank, second: Rank) -> bool
    requires table { IsTable table.now }
    requires rank { HasRank table.now rank }
    requires second { HasRank table.now second }
    ensures { second_is (term_at table.now second) (arguments (term_at table.now rank)) ≡ true → IsTrue result }
{
    match table.args(rank) {
        [] => false,
        [_, later @ ..] => match later {
            [] => false,
            [own, ..] => own.0 == second.0,
        },
    }
}

// Whether each child behind the first may take the argument at its place.
fn later_may_match(
    query: &Query<'_>,
    trail: &Trail,
    op: OpId,
    children: &[Pattern],
    node: u32,
    args: &[Rank],
) -> bool
    requires query { IsQuery query.now }
    requires trail { GoesWith query.now.table.now trail.now }
    requires children { StandsAt query.now node (all_subpatterns (patterns (map pattern_tree children.now))) }
    requires args { HasRanks query.now.table.now args.now }
    ensures { look.each_may_match query.now.sig.now (subst_of query.now trail.now) (Some op.0)
        (patterns (map pattern_tree children.now)) (terms_at query.now.table.now args.now) ≡ true → IsTrue result }
{
    match children {
        [] => true,
        [child, later @ ..] => match args {
            [] => true,
            [_, rest @ ..] => {
                let end = end_of(query, child, node);
                each_may_match(query, trail, Some(op), later, end, rest)
            }
        },
    }
}

// Whether the child may take the term of the rank alone, which stands where it may stand among those that ascend: false
// says that it can't. What its place tells isn't looked at again.
pub(crate) fn may_match_there(
    query: &Query<'_>,
    trail: &Trail,
    under: Option<OpId>,
    child: &Pattern,
    node: u32,
    rank: Rank,
) -> bool
    requires query { IsQuery query.now }
    requires trail { GoesWith query.now.table.now trail.now }
    requires child { StandsAt query.now node (subpatterns (pattern_tree child.now)) }
    requires rank { HasRank query.now.table.now rank }
    ensures { look.may_match query.now.sig.now (subst_of query.now trail.now) (above under) (pattern_tree child.now)
        (term_at query.now.table.now rank) ≡ true → IsTrue result }
{
    match child {
        Pattern::App(op, children) => {
            let children = children.as_slice();
            if !tells_first(query.sig, *op, children) {
                return may_match(query, trail, under, child, node, rank);
            }
            let args = query.table.args(rank);
            let below = first_below(query, child, node);
            later_may_match(query, trail, *op, children, below, args)
        }
        _ => may_match(query, trail, under, child, node, rank),
    }
}

// The rank of the only first argument that a term may have which an application to the children may match, if it is
// known, and if there must be as many arguments as children.
fn first_rank(
    query: &Query<'_>,
    trail: &Trail,
    op: OpId,
    children: &[Pattern],
    node: u32,
) -> Option<Rank>
    requires query { IsQuery query.now }
    requires trail { GoesWith query.now.table.now trail.now }
    requires children { StandsAt query.now node (all_subpatterns (patterns (map pattern_tree children.now))) }
    ensures within { IfSome result (HasRank query.now.table.now) }
    ensures plain { IfSome result (λ r. look.is_plain query.now.sig.now (Some op.0)
        (patterns (map pattern_tree children.now)) ≡ true) }
    ensures only { IfSome result (λ r. (ts : List Tree) → look.each_may_match query.now.sig.now
        (subst_of query.now trail.now) (Some op.0) (patterns (map pattern_tree children.now)) ts ≡ true →
        (length ts ≡ length children.now) × (first_before false (term_at query.now.table.now r) ts ≡ false)
        × (first_before true (term_at query.now.table.now r) ts ≡ true)) }
{
    if !is_plain(query.sig, Some(op), children) {
        return None;
    }
    match children {
        [] => None,
        [child, ..] => known_rank(query, trail, child, node),
    }
}

// Where the terms stand in an ascending list that the application may match, which can't be collapsed: from the first
// place on, and before the second.
fn group_places(
    query: &Query<'_>,
    trail: &Trail,
    op: OpId,
    children: &[Pattern],
    node: u32,
    list: &[Rank],
) -> (usize, usize)
    requires query { IsQuery query.now }
    requires trail { GoesWith query.now.table.now trail.now }
    requires children { StandsAt query.now node (all_subpatterns (patterns (map pattern_tree children.now))) }
    requires firm { look.may_collapse query.now.sig.now op.0 (patterns (map pattern_tree children.now)) ≡ false }
    requires ranks { HasRanks query.now.table.now list.now }
    requires ascending { IsSorted rank_cmp list.now }
    ensures ordered { result.0 ≤ result.1 }
    ensures places { (f : Option ℕ) → StandBetween (λ r. look.may_match query.now.sig.now (subst_of query.now trail.now)
        f (app_pattern op.0 (patterns (map pattern_tree children.now))) (term_at query.now.table.now r) ≡ true) list.now
        result.0 result.1 }
{
    let group = Group {
        op,
        count: children.len(),
        first: first_rank(query, trail, op, children, node),
    };
    let first = first_place(query.table, &group, list);
    (first, place_behind(query.table, &group, list, first))
}

// Where the terms stand in an ascending list that the child may match: from the first place on, and before the second.
pub(crate) fn places_of(
    query: &Query<'_>,
    trail: &Trail,
    child: &Pattern,
    node: u32,
    list: &[Rank],
) -> (usize, usize)
    requires query { IsQuery query.now }
    requires trail { GoesWith query.now.table.now trail.now }
    requires child { StandsAt query.now node (subpatterns (pattern_tree child.now)) }
    requires ranks { HasRanks query.now.table.now list.now }
    requires ascending { IsSorted rank_cmp list.now }
    ensures ordered { result.0 ≤ result.1 }
    ensures within { result.1 ≤ length list.now }
    ensures places { (f : Option ℕ) → StandBetween (λ r. look.may_match query.now.sig.now (subst_of query.now trail.now)
        f (pattern_tree child.now) (term_at query.now.table.now r) ≡ true) list.now result.0 result.1 }
{
    if let Pattern::App(op, children) = child {
        let children = children.as_slice();
        if !may_collapse(query.sig, *op, children) {
            return group_places(
                query,
                trail,
                *op,
                children,
                first_below(query, child, node),
                list,
            );
        }
    }
    (0, list.len())
}
