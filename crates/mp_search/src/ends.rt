//! The lists that a child is known to take.
ghost use Rattle.std.specs.Prelude.{◌≡◌, [], ◌∷◌, take, min, length, IsTrue, Some, None, if◌then◌else◌};
ghost use Rattle.mp_term.specs.Sorting.{sorted};
ghost use Rattle.mp_term.specs.Tree.{Tree, app, trees};
ghost use Rattle.mp_pattern.specs.Contribution.{contribution, if_several};
ghost use Rattle.mp_pattern.specs.PatternTree.{dot};
ghost use Rattle.mp_pattern.specs.Value.{one, bag};
ghost use Rattle.mp_pattern.specs.Variables as variables;
ghost use Rattle.mp_pattern.specs.View.{pattern_tree};
ghost use Rattle.mp_table.specs.Table.{HasRank, HasRanks, IsTable, rank_cmp, rank_of, term_at, terms_at};
ghost use Rattle.mp_subst.specs.Bound.{bound_of, value_in, IsBoundIn};
ghost use Rattle.mp_theory.specs.Known.{all_of, known_lists};
ghost use Rattle.mp_search.specs.Frames.{above};
ghost use Rattle.mp_search.specs.Grounds.{ground_of};
ghost use Rattle.mp_search.specs.Levels.{IsRoomy};
ghost use Rattle.mp_search.specs.Made.{IsBeside, IsEnd, arranged_at, is_opened};
ghost use Rattle.mp_search.specs.Query.{IsQuery, width};
ghost use Rattle.mp_search.specs.Site.{IsSite};

use crate::ground::ground_rank;
use crate::level::Level;
use crate::pieces::is_piece;
use crate::query::Query;
use crate::reads::is_alone;
use crate::room::Room;
use crate::site::Site;
use mp_pattern::{Form, is_comm_above};
use mp_subst::Bound;
use mp_table::Rank;
use mp_term::{OpId, Signature};
use std::slice;

// Puts the ranks in order.
fn sort(list: &mut Room<Rank>)
    ensures items { list.new.items.items ≡ sorted rank_cmp list.old.items.items }
    ensures room { list.new.room ≡ list.old.room }
{
    list.items.sort_unstable();
}

// Puts the ranks in order, where the operation above is commutative.
fn arrange(sig: &Signature, under: Option<OpId>, list: &mut Room<Rank>)
    ensures items { list.new.items.items
        ≡ (if variables.comm_above sig.now (above under) then sorted rank_cmp list.old.items.items
        else list.old.items.items) }
    ensures room { list.new.room ≡ list.old.room }
{
    if is_comm_above(sig, under) {
        sort(list);
    }
}

// Puts the ranks into the pool as the operation above arranges them, and tells whether they are a piece of what is
// left.
pub(crate) fn fill(query: &Query<'_>, site: &Site<'_>, ranks: &[Rank], own: &mut Level) -> bool
    requires query { IsQuery query.now }
    requires site { IsSite query.now site.now }
    requires roomy { IsRoomy (width query.now) own.old }
    requires ranks { HasRanks query.now.table.now ranks.now }
    ensures pool { IsEnd query.now site.now
        (arranged_at query.now site.now (terms_at query.now.table.now ranks.now) ∷ []) result
        own.new.pool.items.items }
    ensures beside { IsBeside own.old own.new }
{
    if ranks.len() > site.left.len() {
        own.pool.clear();
        return false;
    }
    own.pool.refill(ranks);
    arrange(query.sig, site.under, &mut own.pool);
    is_piece(
        is_comm_above(query.sig, site.under),
        own.pool.as_slice(),
        site.left,
    )
}

// The same of the ranks of several terms.
fn fill_several(query: &Query<'_>, site: &Site<'_>, ranks: &[Rank], own: &mut Level) -> bool
    requires query { IsQuery query.now }
    requires site { IsSite query.now site.now }
    requires roomy { IsRoomy (width query.now) own.old }
    requires ranks { HasRanks query.now.table.now ranks.now }
    ensures pool { IsEnd query.now site.now (all_of (if_several (terms_at query.now.table.now ranks.now)))
        result own.new.pool.items.items }
    ensures beside { IsBeside own.old own.new }
{
    if ranks.len() < 2 {
        own.pool.clear();
        return false;
    }
    fill(query, site, ranks, own)
}

// The same of what contributes the term of the rank.
fn fill_contribution(query: &Query<'_>, site: &Site<'_>, rank: Rank, own: &mut Level) -> bool
    requires query { IsQuery query.now }
    requires site { IsSite query.now site.now }
    requires roomy { IsRoomy (width query.now) own.old }
    requires rank { HasRank query.now.table.now rank }
    ensures pool { IsEnd query.now site.now
        (all_of (contribution query.now.sig.now (above site.now.under) (term_at query.now.table.now rank)))
        result own.new.pool.items.items }
    ensures beside { IsBeside own.old own.new }
{
    if is_alone(query.sig, query.table, site.under, rank) {
        return fill(query, site, slice::from_ref(&rank), own);
    }
    fill_several(query, site, query.table.args(rank), own)
}

// Whether the operation above is this one, and associative.
pub(crate) fn is_opened(sig: &Signature, under: Option<OpId>, op: OpId) -> bool
    ensures { result ≡ is_opened sig.now (above under) op.0 }
{
    match under {
        None => false,
        Some(other) => sig.is_assoc(other) && other.0 == op.0,
    }
}

// The same of what contributes the operation on the terms of the ranks, which the table doesn't hold.
fn fill_joined(
    query: &Query<'_>,
    site: &Site<'_>,
    op: OpId,
    ranks: &[Rank],
    own: &mut Level,
) -> bool
    requires query { IsQuery query.now }
    requires site { IsSite query.now site.now }
    requires roomy { IsRoomy (width query.now) own.old }
    requires ranks { HasRanks query.now.table.now ranks.now }
    requires absent { rank_of query.now.table.now (app op.0 (trees (terms_at query.now.table.now ranks.now))) ≡ None }
    ensures pool { IsEnd query.now site.now
        (all_of (contribution query.now.sig.now (above site.now.under)
        (app op.0 (trees (terms_at query.now.table.now ranks.now))))) result own.new.pool.items.items }
    ensures beside { IsBeside own.old own.new }
{
    if is_opened(query.sig, site.under, op) {
        return fill_several(query, site, ranks, own);
    }
    own.pool.clear();
    false
}

// The same of a value that is one term.
fn fill_one(query: &Query<'_>, site: &Site<'_>, bound: &Bound<'_>, own: &mut Level) -> bool
    requires query { IsQuery query.now }
    requires site { IsSite query.now site.now }
    requires roomy { IsRoomy (width query.now) own.old }
    requires bound { IsBoundIn query.now.table.now (bound_of bound.now) }
    requires form { bound.now.form ≡ Form.One }
    ensures pool { IsEnd query.now site.now
        (known_lists query.now.sig.now (above site.now.under) dot (value_in query.now.table.now (bound_of bound.now))
        (terms_at query.now.table.now site.now.left.now)) result own.new.pool.items.items }
    ensures beside { IsBeside own.old own.new }
{
    match bound.wrap {
        None => fill_contribution(query, site, bound.ranks[0], own),
        Some(op) => fill_joined(query, site, op, bound.ranks, own),
    }
}

// So many of the first ranks, or all where there are fewer.
fn front(ranks: &[Rank], count: usize) -> &[Rank]
    ensures { result.now ≡ take (min count (length ranks.now)) ranks.now }
{
    &ranks[..count.min(ranks.len())]
}

// The same of a multiset: under another operation as many terms as it has.
fn fill_bag(query: &Query<'_>, site: &Site<'_>, ranks: &[Rank], own: &mut Level) -> bool
    requires query { IsQuery query.now }
    requires site { IsSite query.now site.now }
    requires roomy { IsRoomy (width query.now) own.old }
    requires ranks { HasRanks query.now.table.now ranks.now }
    ensures pool { IsEnd query.now site.now
        (known_lists query.now.sig.now (above site.now.under) dot (bag (terms_at query.now.table.now ranks.now))
        (terms_at query.now.table.now site.now.left.now)) result own.new.pool.items.items }
    ensures beside { IsBeside own.old own.new }
{
    if is_comm_above(query.sig, site.under) {
        return fill(query, site, ranks, own);
    }
    fill(query, site, front(site.left, ranks.len()), own)
}

// The same of a value.
pub(crate) fn fill_bound(
    query: &Query<'_>,
    site: &Site<'_>,
    bound: &Bound<'_>,
    own: &mut Level,
) -> bool
    requires query { IsQuery query.now }
    requires site { IsSite query.now site.now }
    requires roomy { IsRoomy (width query.now) own.old }
    requires bound { IsBoundIn query.now.table.now (bound_of bound.now) }
    ensures pool { IsEnd query.now site.now
        (known_lists query.now.sig.now (above site.now.under) dot (value_in query.now.table.now (bound_of bound.now))
        (terms_at query.now.table.now site.now.left.now)) result own.new.pool.items.items }
    ensures beside { IsBeside own.old own.new }
{
    match bound.form {
        Form::One => fill_one(query, site, bound, own),
        Form::Seq => fill(query, site, bound.ranks, own),
        Form::Bag => fill_bag(query, site, bound.ranks, own),
    }
}

// Whether the value is the term of the rank.
fn is_rank(query: &Query<'_>, bound: &Bound<'_>, rank: Rank) -> bool
    requires table { IsTable query.now.table.now }
    requires bound { IsBoundIn query.now.table.now (bound_of bound.now) }
    requires rank { HasRank query.now.table.now rank }
    ensures { value_in query.now.table.now (bound_of bound.now) ≡ one (term_at query.now.table.now rank)
        → IsTrue result }
{
    let _ = query;
    match (bound.form, bound.wrap, bound.ranks) {
        (Form::One, None, [only]) => only.0 == rank.0,
        _ => false,
    }
}

// Whether the value is the default of the child, if that is optional.
pub(crate) fn is_default(query: &Query<'_>, site: &Site<'_>, bound: &Bound<'_>) -> bool
    requires query { IsQuery query.now }
    requires site { IsSite query.now site.now }
    requires bound { IsBoundIn query.now.table.now (bound_of bound.now) }
    ensures { (d : Tree) → ground_of (pattern_tree site.now.child.now) ≡ Some d →
        value_in query.now.table.now (bound_of bound.now) ≡ one d → IsTrue result }
{
    match ground_rank(query, site.child, site.node) {
        None => false,
        Some(rank) => is_rank(query, bound, rank),
    }
}
