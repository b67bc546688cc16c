//! The choices of a node, one after the other.
ghost use Rattle.std.specs.Prelude.{◌≡◌, ◌≤◌, ◌&&◌, [], ◌∷◌, true, false, not, Some, length, slice_get, MatchBool};
ghost use Rattle.mp_term.specs.Listing.{In};
ghost use Rattle.mp_pattern.specs.View.{pattern_tree};
ghost use Rattle.mp_table.specs.Table.{HasRanks, rank_cmp, terms_at};
ghost use Rattle.mp_theory.specs.Items.{above_entry};
ghost use Rattle.mp_theory.specs.Machine as machine;
ghost use Rattle.mp_theory.specs.Trail.{allows};
ghost use Rattle.mp_search.specs.Drawn.{lists_above};
ghost use Rattle.mp_search.specs.Frames.{above};
ghost use Rattle.mp_search.specs.Query.{IsQuery, width};
ghost use Rattle.mp_search.specs.Reading.{entry_of};
ghost use Rattle.mp_search.specs.Levels.{rooms_of, draws_of, IsRoomy, IsOver, IsPool};
ghost use Rattle.mp_search.specs.Site.{IsSite, site_place, lists_drawn, entries_read, entries_drawn};

use crate::level::Level;
use crate::pieces::is_piece;
use crate::query::Query;
use crate::reads::reads;
use crate::site::Site;
use mp_pattern::is_comm_above;

// Whether the entry at hand may stand at the child.
pub(crate) fn is_choice(query: &Query<'_>, site: &Site<'_>, own: &Level) -> bool
    requires query { IsQuery query.now }
    requires site { IsSite query.now site.now }
    requires over { IsOver query.now.table.now own.now }
    ensures { let e = entry_of query.now.table.now own.now in
        result ≡ allows query.now.sig.now (site_place query.now site.now []) e }
{
    let take = own.take.as_slice();
    let anywhere = is_comm_above(query.sig, site.under);
    if !is_piece(anywhere, take, site.left) {
        return false;
    }
    reads(query, site, take, own.collapsed)
}

// Marks the list at hand as one that the child takes by its arguments, or else collapsed, if it reads either.
fn read_list(query: &Query<'_>, site: &Site<'_>, own: &mut Level) -> bool
    requires query { IsQuery query.now }
    requires site { IsSite query.now site.now }
    requires take { HasRanks query.now.table.now own.old.take.items.items }
    ensures choice { let es = entries_read query.now site.now (own.old.take.items.items ∷ []) in
        MatchBool result (slice_get es 0 ≡ Some (entry_of query.now.table.now own.new)) (es ≡ []) }
    ensures take { own.new.take.items.items ≡ own.old.take.items.items }
    ensures draws { draws_of own.new ≡ draws_of own.old }
    ensures rest { own.new.rest.items.items ≡ own.old.rest.items.items }
    ensures rooms { rooms_of own.new ≡ rooms_of own.old }
{
    own.collapsed = false;
    if reads(query, site, own.take.as_slice(), false) {
        return true;
    }
    own.collapsed = true;
    reads(query, site, own.take.as_slice(), true)
}

// Goes on from the list at hand to the first entry that the child reads, if there is one.
fn read_on(query: &Query<'_>, site: &Site<'_>, own: &mut Level) -> bool
    requires query { IsQuery query.now }
    requires site { IsSite query.now site.now }
    requires room { length site.now.left.now ≤ own.old.take.room }
    requires over { IsOver query.now.table.now own.old }
    requires pool { IsPool own.old.take.room own.old }
    requires drawn { In own.old.take.items.items (lists_drawn site.now own.old) }
    ensures choice { let ls = lists_above rank_cmp own.old.take.items.items (lists_drawn site.now own.old) in
        let es = entries_read query.now site.now (own.old.take.items.items ∷ ls) in
        MatchBool result (slice_get es 0 ≡ Some (entry_of query.now.table.now own.new)) (es ≡ []) }
    ensures draws { draws_of own.new ≡ draws_of own.old }
    ensures rest { own.new.rest.items.items ≡ own.old.rest.items.items }
    ensures rooms { rooms_of own.new ≡ rooms_of own.old }
    ensures over { IsOver query.now.table.now own.new }
{
    let mut found = read_list(query, site, own);
    while !found {
        if !own.next_list(site.left) {
            return false;
        }
        found = read_list(query, site, own);
    }
    true
}

// Moves to the first entry that is drawn, if there is one.
pub(crate) fn first_choice(query: &Query<'_>, site: &Site<'_>, own: &mut Level) -> bool
    requires query { IsQuery query.now }
    requires site { IsSite query.now site.now }
    requires roomy { IsRoomy (width query.now) own.old }
    requires over { IsOver query.now.table.now own.old }
    requires pool { IsPool (width query.now) own.old }
    ensures choice { let es = entries_drawn query.now site.now own.old in
        MatchBool result (slice_get es 0 ≡ Some (entry_of query.now.table.now own.new)) (es ≡ []) }
    ensures draws { draws_of own.new ≡ draws_of own.old }
    ensures rest { own.new.rest.items.items ≡ own.old.rest.items.items }
    ensures rooms { rooms_of own.new ≡ rooms_of own.old }
    ensures over { IsOver query.now.table.now own.new }
{
    if !own.first_list(site.left) {
        return false;
    }
    read_on(query, site, own)
}

// Whether the entry at hand isn't collapsed, and the child may also take its list collapsed.
fn reads_collapsed(query: &Query<'_>, site: &Site<'_>, own: &Level) -> bool
    requires query { IsQuery query.now }
    requires site { IsSite query.now site.now }
    requires take { HasRanks query.now.table.now own.now.take.items.items }
    ensures { result ≡ not own.now.collapsed && machine.reads query.now.sig.now (pattern_tree site.now.child.now)
        (above site.now.under)
        (record { terms = terms_at query.now.table.now own.now.take.items.items; collapsed = true }) }
{
    !own.collapsed && reads(query, site, own.take.as_slice(), true)
}

// Moves to the entry that is drawn next after the one at hand, if there is one.
pub(crate) fn next_choice(query: &Query<'_>, site: &Site<'_>, own: &mut Level) -> bool
    requires query { IsQuery query.now }
    requires site { IsSite query.now site.now }
    requires roomy { IsRoomy (width query.now) own.old }
    requires over { IsOver query.now.table.now own.old }
    requires pool { IsPool (width query.now) own.old }
    requires drawn { In (entry_of query.now.table.now own.old) (entries_drawn query.now site.now own.old) }
    ensures choice { let e = entry_of query.now.table.now own.old in
        let es = above_entry e (entries_drawn query.now site.now own.old) in
        MatchBool result (slice_get es 0 ≡ Some (entry_of query.now.table.now own.new)) (es ≡ []) }
    ensures draws { draws_of own.new ≡ draws_of own.old }
    ensures rest { own.new.rest.items.items ≡ own.old.rest.items.items }
    ensures rooms { rooms_of own.new ≡ rooms_of own.old }
    ensures over { IsOver query.now.table.now own.new }
{
    if reads_collapsed(query, site, own) {
        own.collapsed = true;
        return true;
    }
    if !own.next_list(site.left) {
        return false;
    }
    read_on(query, site, own)
}
