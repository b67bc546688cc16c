//! What is done with a node's own level, by the ranks that are left to its child.
ghost use Rattle.std.specs.Prelude.{◌≡◌, ◌<◌, ◌≤◌, ◌+◌, [], true, length, Some, slice_get, IsTrue, MatchBool};
ghost use Rattle.std.specs.List.{AllByRecursion};
ghost use Rattle.mp_term.specs.Listing.{In};
ghost use Rattle.mp_term.specs.Pieces.{without};
ghost use Rattle.mp_pattern.specs.Fits.{Entry};
ghost use Rattle.mp_pattern.specs.View.{pattern_tree};
ghost use Rattle.mp_table.specs.Table.{rank_cmp};
ghost use Rattle.mp_subst.specs.Trail.{GoesWith, cut};
ghost use Rattle.mp_theory.specs.Items.{above_entry};
ghost use Rattle.mp_theory.specs.Machine as machine;
ghost use Rattle.mp_theory.specs.Trail.{allows};
ghost use Rattle.mp_search.specs.At.{site_of, BindsOnly};
ghost use Rattle.mp_search.specs.Bounds.{TakesNext};
ghost use Rattle.mp_search.specs.Frames.{above};
ghost use Rattle.mp_search.specs.Levels.{rooms_of, draws_of, take_of, IsRoomy, IsOver, IsPool};
ghost use Rattle.mp_search.specs.Passed.{IsPassed, IsShut};
ghost use Rattle.mp_search.specs.Query.{IsQuery, width};
ghost use Rattle.mp_search.specs.Reading.{entry_of, subst_of};
ghost use Rattle.mp_search.specs.Site.{IsSite, IsPrepared, site_place, entries_drawn};

use crate::choice::{first_choice, next_choice};
use crate::level::Level;
use crate::next::pass;
use crate::prepare::prepare;
use crate::query::Query;
use crate::site::Site;
use crate::stack::Place;
use mp_subst::Trail;
use mp_table::Rank;

// The child of a place, at the node of that number, to which these ranks are left.
fn site<'x>(place: &'x Place<'x>, node: u32, left: &'x [Rank]) -> Site<'x>
    ensures { result ≡ site_of place.now node left.entry }
{
    Site {
        child: place.child,
        node,
        under: place.under,
        later: place.later,
        left,
        owes: place.owes,
    }
}

// Makes ready what the node's choices are drawn from.
pub(crate) fn prepare_own<'x>(
    query: &'x Query<'x>,
    place: &'x Place<'x>,
    node: u32,
    left: &'x [Rank],
    own: &mut Level,
    trail: &Trail,
)
    requires query { IsQuery query.now }
    requires site { IsSite query.now (site_of place.now node left) }
    requires roomy { IsRoomy (width query.now) own.old }
    requires over { IsOver query.now.table.now own.old }
    requires trail { GoesWith query.now.table.now trail.now }
    ensures leads { IsPrepared query.now (site_of place.now node left.entry) (subst_of query.now trail.now) own.new }
    ensures choices { AllByRecursion
        (λ e. In e (machine.choices query.now.sig.now (site_place query.now (site_of place.now node left.entry) [])))
        (entries_drawn query.now (site_of place.now node left.entry) own.new) }
    ensures pool { IsPool (width query.now) own.new }
    ensures take { take_of own.new ≡ take_of own.old }
    ensures rooms { rooms_of own.new ≡ rooms_of own.old }
    ensures over { IsOver query.now.table.now own.new }
{
    let site = site(place, node, left);
    prepare(query, &site, own, trail);
}

// Moves to the first entry that is drawn, if there is one.
pub(crate) fn first_own<'x>(
    query: &'x Query<'x>,
    place: &'x Place<'x>,
    node: u32,
    left: &'x [Rank],
    own: &mut Level,
) -> bool
    requires query { IsQuery query.now }
    requires site { IsSite query.now (site_of place.now node left) }
    requires roomy { IsRoomy (width query.now) own.old }
    requires over { IsOver query.now.table.now own.old }
    requires pool { IsPool (width query.now) own.old }
    ensures choice { let es = entries_drawn query.now (site_of place.now node left.entry) own.old in
        MatchBool result (slice_get es 0 ≡ Some (entry_of query.now.table.now own.new)) (es ≡ []) }
    ensures draws { draws_of own.new ≡ draws_of own.old }
    ensures rooms { rooms_of own.new ≡ rooms_of own.old }
    ensures over { IsOver query.now.table.now own.new }
{
    let site = site(place, node, left);
    first_choice(query, &site, own)
}

// Moves to the entry that is drawn next after the one at hand, if there is one.
pub(crate) fn next_own<'x>(
    query: &'x Query<'x>,
    place: &'x Place<'x>,
    node: u32,
    left: &'x [Rank],
    own: &mut Level,
) -> bool
    requires query { IsQuery query.now }
    requires site { IsSite query.now (site_of place.now node left) }
    requires roomy { IsRoomy (width query.now) own.old }
    requires over { IsOver query.now.table.now own.old }
    requires pool { IsPool (width query.now) own.old }
    requires drawn { In (entry_of query.now.table.now own.old)
        (entries_drawn query.now (site_of place.now node left) own.old) }
    ensures choice { let es = above_entry (entry_of query.now.table.now own.old)
        (entries_drawn query.now (site_of place.now node left.entry) own.old) in
        MatchBool result (slice_get es 0 ≡ Some (entry_of query.now.table.now own.new)) (es ≡ []) }
    ensures draws { draws_of own.new ≡ draws_of own.old }
    ensures rooms { rooms_of own.new ≡ rooms_of own.old }
    ensures over { IsOver query.now.table.now own.new }
{
    let site = site(place, node, left);
    next_choice(query, &site, own)
}

// Takes the next term and binds what it says, where the child may take it and nothing clashes, and keeps what is left.
pub(crate) fn pass_own<'x>(
    query: &'x Query<'x>,
    place: &'x Place<'x>,
    node: u32,
    left: &'x [Rank],
    own: &mut Level,
    trail: &mut Trail,
) -> bool
    requires query { IsQuery query.now }
    requires site { IsSite query.now (site_of place.now node left) }
    requires roomy { IsRoomy (width query.now) own.old }
    requires over { IsOver query.now.table.now own.old }
    requires next { TakesNext query.now.sig.now (above place.now.under) (pattern_tree place.now.child.now) }
    requires trail { GoesWith query.now.table.now trail.old }
    requires vars { AllByRecursion (λ v. v < trail.old.vars) query.now.vars.now }
    requires spare { (e : Entry) → allows query.now.sig.now (site_place query.now (site_of place.now node left) []) e
        ≡ true → length e.terms + 3 ≤ trail.old.spare }
    ensures passed { let n = site_place query.now (site_of place.now node left.entry) [] in
        let e = entry_of query.now.table.now own.new in
        MatchBool result (IsPassed query.now n trail.old trail.new e) (IsShut query.now n trail.old trail.new e) }
    ensures rest { IsTrue result
        → own.new.rest.items.items ≡ without rank_cmp own.new.take.items.items left.entry.now }
    ensures kept { cut (length trail.old.stack) trail.new ≡ trail.old }
    ensures only { BindsOnly query.now.vars.now trail.old trail.new }
    ensures spare { trail.old.spare ≤ trail.new.spare + (length own.new.take.items.items + 3) }
    ensures trail { GoesWith query.now.table.now trail.new }
    ensures rooms { rooms_of own.new ≡ rooms_of own.old }
    ensures over { IsOver query.now.table.now own.new }
{
    let site = site(place, node, left);
    pass(query, &site, own, trail)
}
