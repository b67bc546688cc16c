//! What a pool has of a list that ascends.
ghost use Rattle.std.specs.Prelude.{◌≡◌, ◌<◌, ◌≤◌, ◌+◌, ◌*◌, ◌++◌, ◌∷◌, [], ◌⊎◌, ℕ, length, drop, slice_index_or};
ghost use Rattle.std.specs.Prelude.{true, IsTrue, IsFalse};
ghost use Rattle.std.specs.List.Sorted.{IsSorted};
ghost use Rattle.mp_term.specs.Pieces.{is_sublist};
ghost use Rattle.mp_table.specs.Table.{rank_cmp, HasRank};
ghost use Rattle.mp_table.specs.declared.rank.Rank.{Rank as plain_rank};
ghost use Rattle.mp_subst.specs.Trail.{GoesWith};
ghost use Rattle.mp_search.specs.Partners.{IsSecond};
ghost use Rattle.mp_search.specs.Portion.{occurrences, is_at, LeadsOn, MayTake, StandBetween};
ghost use Rattle.mp_search.specs.Query.{IsQuery};
ghost use Rattle.mp_search.specs.Reading.{subst_of};
ghost use Rattle.mp_search.specs.Site.{IsSite};

use crate::candidates::{has_second, may_match_there, places_of, second_rank, tells_more};
use crate::partner::{has_partner, partners_of};
use crate::query::Query;
use crate::room::Room;
use crate::site::Site;
use mp_subst::Trail;
use mp_table::Rank;

// Whether that many equal ranks stand from the place on.
fn has_portion(list: &[Rank], place: usize, rank: Rank, count: usize) -> bool
    requires ascending { IsSorted rank_cmp list.now }
    requires some { 1 ≤ count }
    requires within { place < length list.now }
    requires rank { rank ≡ slice_index_or list.now place rank }
    ensures whole { IsTrue result → (place + count ≤ length list.now) × ((z : plain_rank) →
        occurrences z (drop place list.now) ≡ count * is_at z rank + occurrences z (drop (place + count) list.now)) }
    ensures short { IsFalse result → occurrences rank (drop place list.now) < count }
{
    if count > list.len() - place {
        return false;
    }
    list[place + (count - 1)].0 == rank.0
}

// What is known of the second argument of the child's term.
#[derive(Clone, Copy)]
pub(crate) enum Second<'a> {
    // Nothing.
    Any,
    // It is the term of the rank, and no more is to be looked at.
    Is(Rank),
    // It is that of one of these terms, and no more is to be looked at.
    Shared(&'a [Rank]),
}

// What is known of it, where terms are looked at.
fn second_of<'a>(query: &Query<'_>, site: &Site<'a>, trail: &Trail, looks: bool) -> Second<'a>
    requires query { IsQuery query.now }
    requires site { IsSite query.now site.now }
    requires trail { GoesWith query.now.table.now trail.now }
    requires ascending { IsSorted rank_cmp site.now.left.now }
    ensures { IsSecond query.now site.now (subst_of query.now trail.now) result }
{
    if !looks {
        return Second::Any;
    }
    if let Some(rank) = second_rank(query, trail, site.child, site.node) {
        return Second::Is(rank);
    }
    match partners_of(query, site, trail) {
        None => Second::Any,
        Some(ranks) => Second::Shared(ranks),
    }
}

// Whether a look at a term may tell more of whether the child takes it than its place among those that ascend.
fn tells(query: &Query<'_>, site: &Site<'_>, trail: &Trail, looks: bool, second: Second<'_>) -> bool
    requires query { IsQuery query.now }
    requires site { IsSite query.now site.now }
    requires trail { GoesWith query.now.table.now trail.now }
{
    match second {
        Second::Any => looks && tells_more(query, trail, site.child, site.node),
        _ => true,
    }
}

// Whether the child may take the term of the rank alone, which stands where it may stand: false says that it can't, or
// that nothing is found where it does.
fn fits(query: &Query<'_>, site: &Site<'_>, trail: &Trail, second: Second<'_>, rank: Rank) -> bool
    requires query { IsQuery query.now }
    requires site { IsSite query.now site.now }
    requires trail { GoesWith query.now.table.now trail.now }
    requires second { IsSecond query.now site.now (subst_of query.now trail.now) second }
    requires rank { HasRank query.now.table.now rank }
    ensures { LeadsOn query.now site.now (subst_of query.now trail.now) rank → IsTrue result }
{
    match second {
        Second::Any => may_match_there(query, trail, site.under, site.child, site.node, rank),
        Second::Is(second) => has_second(query.table, rank, second),
        Second::Shared(ranks) => has_partner(query.table, ranks, rank),
    }
}

// Adds the rank, unless it is looked at and the child can't take its term alone. There is room for it.
fn add_taken(
    query: &Query<'_>,
    site: &Site<'_>,
    trail: &Trail,
    looks: bool,
    second: Second<'_>,
    rank: Rank,
    room: &mut Room<Rank>,
)
    requires query { IsQuery query.now }
    requires site { IsSite query.now site.now }
    requires trail { GoesWith query.now.table.now trail.now }
    requires second { IsSecond query.now site.now (subst_of query.now trail.now) second }
    requires rank { HasRank query.now.table.now rank }
    requires room { length room.old.items.items < room.old.room }
    ensures items { (room.new.items.items ≡ room.old.items.items ++ rank ∷ [])
        ⊎ ((room.new.items.items ≡ room.old.items.items)
        × (MayTake query.now site.now (subst_of query.now trail.now) looks rank → ⊥)) }
    ensures room { room.new.room ≡ room.old.room }
{
    if looks && !fits(query, site, trail, second, rank) {
        return;
    }
    room.push(rank);
}

// Where the ranks stand among those that are left that the child may take, where these are looked at: from the first
// place on, and before the second.
fn places(query: &Query<'_>, site: &Site<'_>, trail: &Trail, looks: bool) -> (usize, usize)
    requires query { IsQuery query.now }
    requires site { IsSite query.now site.now }
    requires trail { GoesWith query.now.table.now trail.now }
    requires ascending { IsSorted rank_cmp site.now.left.now }
    ensures ordered { result.0 ≤ result.1 }
    ensures between { StandBetween (MayTake query.now site.now (subst_of query.now trail.now) looks) site.now.left.now
        result.0 result.1 }
{
    if looks {
        return places_of(query, trail, site.child, site.node, site.left);
    }
    (0, site.left.len())
}

// Puts each rank that the child may take into the room, once for so many of it that are left.
pub(crate) fn fill_portion(
    query: &Query<'_>,
    site: &Site<'_>,
    trail: &Trail,
    looks: bool,
    count: usize,
    room: &mut Room<Rank>,
)
    requires query { IsQuery query.now }
    requires site { IsSite query.now site.now }
    requires trail { GoesWith query.now.table.now trail.now }
    requires ascending { IsSorted rank_cmp site.now.left.now }
    requires some { 1 ≤ count }
    requires room { length site.now.left.now ≤ room.old.room }
    ensures part { is_sublist rank_cmp room.new.items.items site.now.left.now ≡ true }
    ensures enough { (z : plain_rank) (m : ℕ) → MayTake query.now site.now (subst_of query.now trail.now) looks z →
        count * m ≤ occurrences z site.now.left.now → m ≤ occurrences z room.new.items.items }
    ensures few { length room.new.items.items ≤ length site.now.left.now }
    ensures room { room.new.room ≡ room.old.room }
{
    let list = site.left;
    let (first, end) = places(query, site, trail, looks);
    let second = second_of(query, site, trail, looks);
    if count == 1 && !tells(query, site, trail, looks, second) {
        room.refill(&list[first..end]);
        return;
    }
    room.clear();
    let mut place = first;
    while place < end {
        let rank = list[place];
        if has_portion(list, place, rank, count) {
            add_taken(query, site, trail, looks, second, rank, room);
            place += count;
        } else {
            place += 1;
        }
    }
}
