//! What is done at one node, whose level is one of all levels.
ghost use Rattle.std.specs.Prelude.{◌≡◌, ◌<◌, ◌≤◌, ◌+◌, ◌-◌, [], true, ℕ, Some, None, IsSome, take, length};
ghost use Rattle.std.specs.Prelude.{filter, slice_get, IsTrue, MatchBool};
ghost use Rattle.mp_term.specs.Listing.{In};
ghost use Rattle.mp_term.specs.Order.{tree_cmp};
ghost use Rattle.mp_term.specs.Pieces.{without};
ghost use Rattle.mp_pattern.specs.Plan.{IsPlanOf};
ghost use Rattle.mp_pattern.specs.Subpatterns.{subpatterns};
ghost use Rattle.mp_pattern.specs.View.{pattern_tree};
ghost use Rattle.mp_subst.specs.Trail.{GoesWith, cut};
ghost use Rattle.mp_theory.specs.Machine as machine;
ghost use Rattle.mp_theory.specs.Solve.{solve};
ghost use Rattle.mp_theory.specs.Items.{items, above_entry};
ghost use Rattle.mp_theory.specs.Narrow.{load};
ghost use Rattle.mp_theory.specs.Trail.{allows};
ghost use Rattle.mp_search.specs.At.{IsAt, IsAtNode, HasTrail, IsDrawn, HasPool, KeepsLevels, AreInOrder, drawn_at};
ghost use Rattle.mp_search.specs.At.{draws_at, own_at, items_from, BindsOnly};
ghost use Rattle.mp_search.specs.Bounds.{TakesNext};
ghost use Rattle.mp_search.specs.Frames.{above, stack_frames, left_of, rest_at, place_after};
ghost use Rattle.mp_search.specs.Levels.{AreLevels};
ghost use Rattle.mp_search.specs.OneWay.{HaveOneTable, IsToldWithin};
ghost use Rattle.mp_search.specs.Passed.{IsPassed, IsShut};
ghost use Rattle.mp_search.specs.Query.{IsQuery, width};
ghost use Rattle.mp_search.specs.Reading.{table_of, entry_at, subst_of};
ghost use Rattle.mp_search.specs.Site.{IsSite, site_place};
ghost use Rattle.mp_search.specs.Wanted.{good, AreComplete};

use crate::binding::bind;
use crate::choice::is_choice;
use crate::level::Level;
use crate::look::{leads_nowhere, looks_behind};
use crate::mode::Mode;
use crate::own::{first_own, next_own, pass_own, prepare_own};
use crate::query::Query;
use crate::site::Site;
use crate::stack::{Place, Stack, left_list};
use crate::told::{has_one_way, is_told_within};
use mp_pattern::{Pattern, is_comm_above};
use mp_subst::Trail;

// The number in the plan of node k.
fn node_at(query: &Query<'_>, k: usize) -> u32
    requires plan { IsPlanOf query.now.sig.now query.now.plan.now.pattern query.now.plan.now }
    requires within { IsSome (slice_get (subpatterns query.now.plan.now.pattern) (query.now.first + k)) }
    ensures { result ≡ query.now.first + k }
{
    // That the plan has so many nodes, and no more than their numbers have room for, is what shows that the sum fits.
    let _nodes = query.plan.len();
    query.first + k as u32
}

// The child of a place, where the levels below are those of the nodes before it.
fn site_at<'a>(query: &'a Query<'a>, place: &Place<'a>, below: &'a [Level]) -> Site<'a>
    requires query { IsQuery query.now }
    requires levels { AreLevels query.now.table.now (width query.now) below.now }
    requires narrow { load (place_after query.now below.now) ≤ width query.now }
    requires ordered { AreInOrder query.now.sig.now (place_after query.now below.now) }
    requires place { IsAt query.now below.now place.now }
    ensures place { site_place query.now result (stack_frames query.now below.now place.now.outer.now)
        ≡ place_after query.now below.now }
    ensures site { IsSite query.now result }
{
    Site {
        child: place.child,
        node: node_at(query, below.len()),
        under: place.under,
        later: place.later,
        left: left_list(query, below, place.left),
        owes: place.owes,
    }
}

// Whether the entry of node k may stand there.
pub(crate) fn may_stand(query: &Query<'_>, place: &Place<'_>, levels: &[Level], k: usize) -> bool
    requires within { k < length levels.now }
    requires node { IsAtNode query.now k levels.now }
    requires place { IsAt query.now (take k levels.now) place.now }
    ensures { result ≡ allows query.now.sig.now (place_after query.now (take k levels.now))
        (entry_at query.now.table.now levels.now k) }
{
    let site = site_at(query, place, &levels[..k]);
    is_choice(query, &site, &levels[k])
}

// Whether the child of node k is a wildcard that takes all that is left, so that it has no entry above.
pub(crate) fn takes_all_at(query: &Query<'_>, place: &Place<'_>, levels: &[Level], k: usize) -> bool
    requires within { k < length levels.now }
    requires node { IsAtNode query.now k levels.now }
    requires place { IsAt query.now (take k levels.now) place.now }
    requires allowed { allows query.now.sig.now (place_after query.now (take k levels.now))
        (entry_at query.now.table.now levels.now k) ≡ true }
    ensures { IsTrue result → above_entry (entry_at query.now.table.now levels.now k)
        (machine.choices query.now.sig.now (place_after query.now (take k levels.now))) ≡ [] }
{
    match place.child {
        Pattern::Wild(..) => {
            let site = site_at(query, place, &levels[..k]);
            levels[k].take.len() == site.left.len()
        }
        _ => false,
    }
}

// Whether it is seen that all items from node k on have one table: there is nothing around the operation above, and the
// trail tells of the child and of its later siblings what they take.
pub(crate) fn has_one_way_at(
    query: &Query<'_>,
    place: &Place<'_>,
    levels: &[Level],
    k: usize,
    trail: &Trail,
) -> bool
    requires within { k < length levels.now }
    requires node { IsAtNode query.now k levels.now }
    requires place { IsAt query.now (take k levels.now) place.now }
    requires trail { GoesWith query.now.table.now trail.now }
    ensures { IsTrue result → HaveOneTable (items_from query.now k levels.now (subst_of query.now trail.now)) }
{
    match place.outer {
        Stack::Root => {
            let site = site_at(query, place, &levels[..k]);
            has_one_way(query, trail, site.child, site.node, site.later)
        }
        _ => false,
    }
}

// Whether the trail tells of the child of node k what it takes, so that there is no other entry.
pub(crate) fn is_told_at(
    query: &Query<'_>,
    place: &Place<'_>,
    levels: &[Level],
    k: usize,
    trail: &Trail,
) -> bool
    requires within { k < length levels.now }
    requires node { IsAtNode query.now k levels.now }
    requires place { IsAt query.now (take k levels.now) place.now }
    requires trail { GoesWith query.now.table.now trail.now }
    ensures { IsTrue result
        → IsToldWithin query.now.sig.now (subst_of query.now trail.now) (pattern_tree place.now.child.now) }
{
    // The place stands behind what the levels take.
    let _ = levels;
    is_told_within(query, trail, place.child, node_at(query, k))
}

// Binds what the entry of node k says, and answers false where that clashes with the trail.
pub(crate) fn bind_at(
    query: &Query<'_>,
    place: &Place<'_>,
    levels: &[Level],
    k: usize,
    trail: &mut Trail,
) -> bool
    requires within { k < length levels.now }
    requires node { IsAtNode query.now k levels.now }
    requires place { IsAt query.now (take k levels.now) place.now }
    requires trail { HasTrail query.now k levels.now trail.old }
    requires allowed { allows query.now.sig.now (place_after query.now (take k levels.now))
        (entry_at query.now.table.now levels.now k) ≡ true }
    ensures bound { let o = solve query.now.sig.now (subst_of query.now trail.old)
        (machine.said (place_after query.now (take k levels.now)) (entry_at query.now.table.now levels.now k)) in
        MatchBool result (o ≡ Some (subst_of query.now trail.new)) (o ≡ None) }
    ensures kept { cut (length trail.old.stack) trail.new ≡ trail.old }
    ensures only { BindsOnly query.now.vars.now trail.old trail.new }
    ensures spare { trail.old.spare + load (place_after query.now (take (k + 1) levels.now))
        ≤ trail.new.spare + (load (place_after query.now (take k levels.now)) + 3) }
    ensures trail { HasTrail query.now (k + 1) levels.now trail.new }
{
    match place.child {
        Pattern::Wild(..) => {
            let site = site_at(query, place, &levels[..k]);
            bind(query, &site, &levels[k], trail)
        }
        _ => true,
    }
}

// Whether it is seen that nothing is found behind the entry of node k, once it is bound.
pub(crate) fn leads_nowhere_at(
    query: &Query<'_>,
    place: &Place<'_>,
    levels: &[Level],
    k: usize,
    trail: &Trail,
    mode: Mode,
) -> bool
    requires within { k < length levels.now }
    requires node { IsAtNode query.now k levels.now }
    requires place { IsAt query.now (take k levels.now) place.now }
    requires trail { GoesWith query.now.table.now trail.now }
    requires allowed { allows query.now.sig.now (place_after query.now (take k levels.now))
        (entry_at query.now.table.now levels.now k) ≡ true }
    ensures { IsTrue result → (j : ℕ) →
        let is = items query.now.sig.now j
        (machine.onward (place_after query.now (take k levels.now)) (entry_at query.now.table.now levels.now k))
        (subst_of query.now trail.now) in
        AreComplete query.now is → filter (good query.now) is ≡ [] }
{
    if !looks_behind(
        query,
        place.under,
        place.child,
        node_at(query, k),
        place.later,
        mode,
    ) {
        return false;
    }
    let site = site_at(query, place, &levels[..k]);
    leads_nowhere(query, &site, &levels[k], trail)
}

// Makes ready what the choices of node k are drawn from.
pub(crate) fn prepare_at(
    query: &Query<'_>,
    place: &Place<'_>,
    levels: &mut [Level],
    k: usize,
    trail: &Trail,
)
    requires within { k < length levels.old }
    requires node { IsAtNode query.now k levels.old }
    requires place { IsAt query.now (take k levels.old) place.now }
    requires trail { GoesWith query.now.table.now trail.now }
    ensures drawn { IsDrawn query.now place.now levels.new k (subst_of query.now trail.now) }
    ensures entry { entry_at query.now.table.now levels.new k ≡ entry_at query.now.table.now levels.old k }
    ensures kept { KeepsLevels query.now k levels.old levels.new }
{
    let node = node_at(query, k);
    let (below, from) = levels.split_at_mut(k);
    let left = left_list(&*query, &*below, place.left);
    prepare_own(&*query, &*place, node, left, &mut from[0], trail);
}

// Moves node k to the first entry that is drawn, if there is one.
pub(crate) fn first_at(query: &Query<'_>, place: &Place<'_>, levels: &mut [Level], k: usize) -> bool
    requires within { k < length levels.old }
    requires node { IsAtNode query.now k levels.old }
    requires place { IsAt query.now (take k levels.old) place.now }
    requires pool { HasPool query.now levels.old k }
    ensures choice { let es = drawn_at query.now place.now levels.old k in
        MatchBool result (slice_get es 0 ≡ Some (entry_at query.now.table.now levels.new k)) (es ≡ []) }
    ensures draws { draws_at levels.new k ≡ draws_at levels.old k }
    ensures kept { KeepsLevels query.now k levels.old levels.new }
{
    let node = node_at(query, k);
    let (below, from) = levels.split_at_mut(k);
    let left = left_list(&*query, &*below, place.left);
    first_own(&*query, &*place, node, left, &mut from[0])
}

// Takes the next term at node k, whose child is to take that, and binds what it says, where the child may take it and
// nothing clashes, and keeps what is left behind it.
pub(crate) fn pass_at(
    query: &Query<'_>,
    place: &Place<'_>,
    levels: &mut [Level],
    k: usize,
    trail: &mut Trail,
) -> bool
    requires within { k < length levels.old }
    requires node { IsAtNode query.now k levels.old }
    requires place { IsAt query.now (take k levels.old) place.now }
    requires next { TakesNext query.now.sig.now (above place.now.under) (pattern_tree place.now.child.now) }
    requires trail { HasTrail query.now k levels.old trail.old }
    ensures passed { let n = place_after query.now (take k levels.old) in
        let e = entry_at query.now.table.now levels.new k in
        MatchBool result (IsPassed query.now n trail.old trail.new e) (IsShut query.now n trail.old trail.new e) }
    ensures rest { IsTrue result → rest_at query.now levels.new k
        ≡ without tree_cmp (entry_at query.now.table.now levels.new k).terms
        (left_of query.now (take k levels.old) place.now.left) }
    ensures levels { KeepsLevels query.now k levels.old levels.new }
    ensures kept { cut (length trail.old.stack) trail.new ≡ trail.old }
    ensures only { BindsOnly query.now.vars.now trail.old trail.new }
    ensures spare { trail.old.spare
        ≤ trail.new.spare + (length (entry_at query.now.table.now levels.new k).terms + 3) }
    ensures trail { GoesWith query.now.table.now trail.new }
{
    let node = node_at(query, k);
    let (below, from) = levels.split_at_mut(k);
    let left = left_list(&*query, &*below, place.left);
    pass_own(&*query, &*place, node, left, &mut from[0], trail)
}

// Moves node k to the entry that is drawn next after the one at hand, if there is one.
pub(crate) fn next_at(query: &Query<'_>, place: &Place<'_>, levels: &mut [Level], k: usize) -> bool
    requires within { k < length levels.old }
    requires node { IsAtNode query.now k levels.old }
    requires place { IsAt query.now (take k levels.old) place.now }
    requires pool { HasPool query.now levels.old k }
    requires drawn { In (entry_at query.now.table.now levels.old k) (drawn_at query.now place.now levels.old k) }
    ensures choice { let es =
        above_entry (entry_at query.now.table.now levels.old k) (drawn_at query.now place.now levels.old k) in
        MatchBool result (slice_get es 0 ≡ Some (entry_at query.now.table.now levels.new k)) (es ≡ []) }
    ensures draws { draws_at levels.new k ≡ draws_at levels.old k }
    ensures kept { KeepsLevels query.now k levels.old levels.new }
{
    let node = node_at(query, k);
    let (below, from) = levels.split_at_mut(k);
    let left = left_list(&*query, &*below, place.left);
    next_own(&*query, &*place, node, left, &mut from[0])
}

// Keeps what is left behind the entry of node k.
pub(crate) fn leave_at(query: &Query<'_>, place: &Place<'_>, levels: &mut [Level], k: usize)
    requires within { k < length levels.old }
    requires node { IsAtNode query.now k levels.old }
    requires place { IsAt query.now (take k levels.old) place.now }
    ensures rest { rest_at query.now levels.new k
        ≡ without tree_cmp (entry_at query.now.table.now levels.old k).terms
        (left_of query.now (take k levels.old) place.now.left) }
    ensures own { own_at levels.new k ≡ own_at levels.old k }
    ensures entries { table_of query.now.table.now levels.new ≡ table_of query.now.table.now levels.old }
    ensures kept { KeepsLevels query.now k levels.old levels.new }
{
    let (below, from) = levels.split_at_mut(k);
    let left = left_list(&*query, &*below, place.left);
    from[0].leave(left, is_comm_above(query.sig, place.under));
}
