//! How many of the terms that are left the later siblings of a child take, by the values of the trail.
ghost use Rattle.std.specs.Prelude.{◌≡◌, ◌+◌, ◌<◌, ◌≤◌, ◌-◌, ◌^◌, ℕ, List, [], Option, Some, length, map, option_map};
ghost use Rattle.std.specs.Prelude.{slice_get};
ghost use Rattle.std.specs.Option.{unwrap_or};
ghost use Rattle.mp_term.specs.Signature.{Sig};
ghost use Rattle.mp_term.specs.Tree.{Tree, app, trees};
ghost use Rattle.mp_pattern.specs.Contribution.{if_several};
ghost use Rattle.mp_pattern.specs.Value.{one, Subst};
ghost use Rattle.mp_pattern.specs.PatternTree.{Patterns, patterns, more_patterns};
ghost use Rattle.mp_pattern.specs.SoundRule.{sum_most};
ghost use Rattle.mp_pattern.specs.Size.{pattern_nodes};
ghost use Rattle.mp_pattern.specs.Subpatterns.{subpatterns};
ghost use Rattle.mp_pattern.specs.View.{pattern_tree};
ghost use Rattle.mp_table.specs.Table.{HasRank, term_at};
ghost use Rattle.mp_subst.specs.Bound.{bound_of, value_in, IsBoundIn};
ghost use Rattle.mp_subst.specs.Trail.{GoesWith};
ghost use Rattle.mp_theory.specs.Known.{contributed, least_known, most_known};
ghost use Rattle.mp_search.specs.Frames.{above};
ghost use Rattle.mp_search.specs.Query.{IsQuery};
ghost use Rattle.mp_search.specs.Reading.{subst_of};
ghost use Rattle.mp_search.specs.Shares.{length_known, is_optional_child, is_use_of, AreShares, IsUsed, StandFrom};

use crate::ends::is_opened;
use crate::lengths::{least, most};
use crate::query::Query;
use crate::reads::is_alone;
use crate::variable::number_at;
use mp_pattern::{Form, Pattern, Shape};
use mp_subst::{Bound, Trail};
use mp_table::Rank;
use mp_term::{OpId, Signature};

// How many of the children are uses of a variable, and how many of the terms the others leave where they take as few as
// they can, and as many as they can, if there is a bound.
#[derive(Clone, Copy)]
pub(crate) struct Shares {
    pub(crate) uses: usize,
    pub(crate) after_least: usize,
    pub(crate) after_most: Option<usize>,
}

// The number of the node behind the child.
pub(crate) fn node_behind(query: &Query<'_>, child: &Pattern, node: u32) -> u32
    requires query { IsQuery query.now }
    requires child { slice_get (subpatterns query.now.plan.now.pattern) node ≡ Some (pattern_tree child.now) }
    ensures { result ≡ node + pattern_nodes (pattern_tree child.now) }
{
    let _ = child;
    match query.plan.end(node) {
        Some(end) => end,
        None => unreachable!(),
    }
}

// How many terms there are, where they are several.
fn if_several(count: usize) -> usize
    ensures { (ts : List Tree) → length ts ≡ count → result ≡ length (unwrap_or (if_several ts) []) }
{
    if count < 2 { 0 } else { count }
}

// How many terms contribute the term of the rank.
fn contributed_rank(query: &Query<'_>, under: Option<OpId>, rank: Rank) -> usize
    requires { HasRank query.now.table.now rank }
    ensures { result ≡ length (contributed query.now.sig.now (above under) (one (term_at query.now.table.now rank))) }
{
    if is_alone(query.sig, query.table, under, rank) {
        return 1;
    }
    if_several(query.table.args(rank).len())
}

// How many terms contribute the operation on so many terms.
fn contributed_joined(query: &Query<'_>, under: Option<OpId>, op: OpId, count: usize) -> usize
    ensures { (ts : List Tree) → length ts ≡ count →
        result ≡ length (contributed query.now.sig.now (above under) (one (app op.0 (trees ts)))) }
{
    if is_opened(query.sig, under, op) {
        return if_several(count);
    }
    1
}

// How many terms the value contributes under the operation.
fn contributed_length(query: &Query<'_>, under: Option<OpId>, bound: &Bound<'_>) -> usize
    requires { IsBoundIn query.now.table.now (bound_of bound.now) }
    ensures { result ≡ length (contributed query.now.sig.now (above under)
        (value_in query.now.table.now (bound_of bound.now))) }
{
    match (bound.form, bound.wrap) {
        (Form::One, None) => contributed_rank(query, under, bound.ranks[0]),
        (Form::One, Some(op)) => contributed_joined(query, under, op, bound.ranks.len()),
        _ => bound.ranks.len(),
    }
}

// How many terms the value of the child's variable contributes, if it has one.
fn length_known(
    query: &Query<'_>,
    under: Option<OpId>,
    child: &Pattern,
    node: u32,
    trail: &Trail,
) -> Option<usize>
    requires query { IsQuery query.now }
    requires child { slice_get (subpatterns query.now.plan.now.pattern) node ≡ Some (pattern_tree child.now) }
    requires trail { GoesWith query.now.table.now trail.now }
    ensures { result ≡ length_known query.now.sig.now (subst_of query.now trail.now) (above under)
        (pattern_tree child.now) }
{
    let var = number_at(query, child, node)?;
    match trail.binding(var) {
        None => None,
        Some(bound) => Some(contributed_length(query, under, &bound)),
    }
}

// Whether the child is an optional wildcard.
pub(crate) fn is_optional(child: &Pattern) -> bool
    ensures { result ≡ is_optional_child (pattern_tree child.now) }
{
    matches!(child, Pattern::Wild(Shape::Opt(_), _))
}

// The least number of terms that the child takes, as far as is known.
fn least_known(child: &Pattern, known: Option<usize>) -> usize
    ensures { (sig : Sig) (s : Subst) (f : Option ℕ) → known ≡ length_known sig s f (pattern_tree child.now) →
        result ≡ least_known sig s f (pattern_tree child.now) }
{
    if is_optional(child) {
        return least(child);
    }
    match known {
        Some(count) => count,
        None => least(child),
    }
}

// The greatest number, if there is a bound.
fn most_known(
    sig: &Signature,
    under: Option<OpId>,
    child: &Pattern,
    known: Option<usize>,
) -> Option<usize>
    ensures { (s : Subst) → known ≡ length_known sig.now s (above under) (pattern_tree child.now) →
        result ≡ most_known sig.now s (above under) (pattern_tree child.now) }
{
    match known {
        Some(count) => Some(count),
        None => most(sig, under, child),
    }
}

// Whether the child is a use of the variable of that number, if there is one, and not optional.
fn is_use(query: &Query<'_>, child: &Pattern, node: u32, var: Option<u32>) -> bool
    requires query { IsQuery query.now }
    requires child { slice_get (subpatterns query.now.plan.now.pattern) node ≡ Some (pattern_tree child.now) }
    ensures { (o : Option (List ℕ)) → IsUsed query.now o var → result ≡ is_use_of o (pattern_tree child.now) }
{
    if is_optional(child) {
        return false;
    }
    match var {
        None => false,
        Some(var) => match number_at(query, child, node) {
            None => false,
            Some(other) => var == other,
        },
    }
}

// What is left of the terms, where there is a bound.
fn less(terms: Option<usize>, most: Option<usize>) -> Option<usize>
    ensures { (n : ℕ) (o : Option ℕ) → terms ≡ option_map (λ m. n - m) o →
        result ≡ option_map (λ m. n - m) (sum_most most o) }
{
    match (terms, most) {
        (Some(terms), Some(most)) => Some(terms.saturating_sub(most)),
        _ => None,
    }
}

// The shares with one child more in front.
fn with_child(
    query: &Query<'_>,
    under: Option<OpId>,
    child: &Pattern,
    node: u32,
    var: Option<u32>,
    behind: Shares,
    trail: &Trail,
) -> Shares
    requires query { IsQuery query.now }
    requires child { slice_get (subpatterns query.now.plan.now.pattern) node ≡ Some (pattern_tree child.now) }
    requires trail { GoesWith query.now.table.now trail.now }
    requires few { behind.uses < 2 ^ 32 }
    ensures shares { (o : Option (List ℕ)) (ps : Patterns) (terms : ℕ) → IsUsed query.now o var →
        AreShares query.now o (subst_of query.now trail.now) (above under) ps terms behind →
        AreShares query.now o (subst_of query.now trail.now) (above under) (more_patterns (pattern_tree child.now) ps)
        terms result }
    ensures few { result.uses ≤ behind.uses + 1 }
{
    if is_use(query, child, node, var) {
        return Shares {
            uses: behind.uses + 1,
            after_least: behind.after_least,
            after_most: behind.after_most,
        };
    }
    let known = length_known(query, under, child, node, trail);
    Shares {
        uses: behind.uses,
        after_least: behind.after_least.saturating_sub(least_known(child, known)),
        after_most: less(
            behind.after_most,
            most_known(query.sig, under, child, known),
        ),
    }
}

// The shares of the children of that many terms. They stand in the plan from that node on.
pub(crate) fn shares_of(
    query: &Query<'_>,
    under: Option<OpId>,
    children: &[Pattern],
    node: u32,
    var: Option<u32>,
    terms: usize,
    trail: &Trail,
) -> Shares
    requires query { IsQuery query.now }
    requires children { StandFrom query.now node (patterns (map pattern_tree children.now)) }
    requires trail { GoesWith query.now.table.now trail.now }
    requires few { length children.now < 2 ^ 32 }
    ensures shares { (o : Option (List ℕ)) → IsUsed query.now o var →
        AreShares query.now o (subst_of query.now trail.now) (above under) (patterns (map pattern_tree children.now))
        terms result }
    ensures few { result.uses ≤ length children.now }
{
    match children {
        [] => Shares {
            uses: 0,
            after_least: terms,
            after_most: Some(terms),
        },
        [child, rest @ ..] => {
            let next = node_behind(query, child, node);
            let behind = shares_of(query, under, rest, next, var, terms, trail);
            with_child(query, under, child, node, var, behind, trail)
        }
    }
}
