//! The lists that a node may take, one after the other.
ghost use Rattle.std.specs.Prelude.{◌≡◌, ◌≤◌, ◌<◌, ◌+◌, ◌∷◌, [], true, Some, length, take, drop, min, slice_get};
ghost use Rattle.std.specs.Prelude.{IsTrue, MatchBool, MatchOption, ⊤};
ghost use Rattle.std.specs.List.Sorted.{IsSorted};
ghost use Rattle.mp_term.specs.Listing.{In};
ghost use Rattle.mp_term.specs.Pieces.{is_sublist, without};
ghost use Rattle.mp_table.specs.Table.{rank_cmp};
ghost use Rattle.mp_term.specs.Listing.{above};
ghost use Rattle.mp_search.specs.Drawn.{drawn, lists_above};
ghost use Rattle.mp_search.specs.Levels.{rooms_of, draws_of, take_of, IsPool};
ghost use Rattle.mp_search.specs.Sublists.{IsNextSublist, IsLastSublist, IsStuck, Rises};

use crate::level::{Level, Source};
use crate::pieces::{is_prefix, place_of};
use crate::room::Room;
use mp_table::Rank;

// Where the ranks above the given one begin in an ascending list.
fn place_above(list: &[Rank], rank: Rank) -> usize
    requires { IsSorted rank_cmp list.now }
    ensures within { result ≤ length list.now }
    ensures above { drop result list.now ≡ above rank_cmp rank list.now }
{
    list.partition_point(|other| other.0 <= rank.0)
}

// The last place of the list at which a greater rank may stand, and where the greater ones begin in the pool.
fn rising(pool: &[Rank], list: &[Rank]) -> Option<(usize, usize)>
    requires { IsSorted rank_cmp pool.now }
    ensures { MatchOption result (IsStuck rank_cmp pool.now list.now) (λ p. Rises rank_cmp pool.now list.now p.0 p.1) }
{
    for back in 0..list.len() {
        let i = list.len() - 1 - back;
        let j = place_above(pool, list[i]);
        if list.len() - i <= pool.len() - j {
            return Some((i, j));
        }
    }
    None
}

// Moves to the next sublist of the same length, if there is one.
fn next_sublist(pool: &[Rank], list: &mut Room<Rank>) -> bool
    requires pool { IsSorted rank_cmp pool.now }
    requires sublist { is_sublist rank_cmp list.old.items.items pool.now ≡ true }
    ensures list { MatchBool result (IsNextSublist rank_cmp pool.now list.old.items.items list.new.items.items)
        (IsLastSublist rank_cmp pool.now list.old.items.items) }
    ensures kept { MatchBool result ⊤ (list.new.items.items ≡ list.old.items.items) }
    ensures room { list.new.room ≡ list.old.room }
{
    if list.len() >= pool.len() {
        return false;
    }
    match rising(pool, list.as_slice()) {
        None => false,
        Some((i, j)) => {
            let count = list.len() - i;
            list.truncate(i);
            list.append(&pool[j..j + count]);
            true
        }
    }
}

// Moves to the front of so many items, unless that is above the greatest number.
fn move_to_front(items: &[Rank], count: usize, most: usize, list: &mut Room<Rank>) -> bool
    requires { length items.now ≤ list.old.room }
    ensures list { MatchBool result
        ((count ≤ min most (length items.now)) × (list.new.items.items ≡ take count items.now))
        (min most (length items.now) < count) }
    ensures kept { MatchBool result ⊤ (list.new.items.items ≡ list.old.items.items) }
    ensures room { list.new.room ≡ list.old.room }
{
    if count > most || count > items.len() {
        return false;
    }
    list.refill(&items[..count]);
    true
}

// Moves from a front to the one that is longer by one, unless that is above the greatest number.
fn lengthen_front(items: &[Rank], most: usize, list: &mut Room<Rank>) -> bool
    requires room { length items.now ≤ list.old.room }
    requires front { list.old.items.items ≡ take (length list.old.items.items) items.now }
    ensures list { let count = length list.old.items.items + 1 in
        MatchBool result ((count ≤ min most (length items.now)) × (list.new.items.items ≡ take count items.now))
        (min most (length items.now) < count) }
    ensures kept { MatchBool result ⊤ (list.new.items.items ≡ list.old.items.items) }
    ensures room { list.new.room ≡ list.old.room }
{
    let count = list.len();
    if count >= most || count >= items.len() {
        return false;
    }
    list.push(items[count]);
    true
}

// Moves to the other items once the rank is taken out of them, which ascend.
fn take_one_out(rank: Rank, items: &[Rank], list: &mut Room<Rank>)
    requires ascending { IsSorted rank_cmp items.now }
    requires room { length items.now ≤ list.old.room }
    ensures list { list.new.items.items ≡ without rank_cmp (rank ∷ []) items.now }
    ensures room { list.new.room ≡ list.old.room }
{
    match place_of(items, rank) {
        None => list.refill(items),
        Some(place) => {
            list.refill(&items[1..]);
            list.overwrite(&items[..place]);
        }
    }
}

// Moves to the other items once the ranks are taken out of them, each at its first place behind the one before.
fn take_out(ranks: &[Rank], items: &[Rank], list: &mut Room<Rank>)
    requires { length items.now ≤ list.old.room }
    ensures list { list.new.items.items ≡ without rank_cmp ranks.now items.now }
    ensures room { list.new.room ≡ list.old.room }
{
    if is_prefix(ranks, items) {
        list.refill(&items[ranks.len()..]);
        return;
    }
    list.clear();
    let mut taken = 0;
    for item in items {
        if taken < ranks.len() && ranks[taken].0 == item.0 {
            taken += 1;
        } else {
            list.push(*item);
        }
    }
}

impl Level {
    // Moves to the first list that is drawn, if there is one.
    pub(crate) fn first_list(&mut self, left: &[Rank]) -> bool
        requires take { length left.now ≤ self.old.take.room }
        requires pool { IsPool self.old.take.room self.old }
        ensures list { let ls = drawn rank_cmp self.old.source self.old.pool.items.items left.now in
            MatchBool result (slice_get ls 0 ≡ Some self.new.take.items.items) (ls ≡ []) }
        ensures kept { MatchBool result ⊤ (self.new.take.items.items ≡ self.old.take.items.items) }
        ensures draws { draws_of self.new ≡ draws_of self.old }
        ensures rest { self.new.rest.items.items ≡ self.old.rest.items.items }
        ensures rooms { rooms_of self.new ≡ rooms_of self.old }
    {
        match self.source {
            Source::Nothing => false,
            Source::Front(least, most) => move_to_front(left, least, most, &mut self.take),
            Source::Bag(least, most) => {
                move_to_front(self.pool.as_slice(), least, most, &mut self.take)
            }
            Source::Whole(empty, whole) => {
                if empty {
                    self.take.clear();
                } else if whole {
                    self.take.refill(self.pool.as_slice());
                }
                empty || whole
            }
        }
    }

    // Moves to the list that is drawn next after the one at hand, if there is one.
    pub(crate) fn next_list(&mut self, left: &[Rank]) -> bool
        requires take { length left.now ≤ self.old.take.room }
        requires pool { IsPool self.old.take.room self.old }
        requires drawn { let ls = drawn rank_cmp self.old.source self.old.pool.items.items left.now in
            In self.old.take.items.items ls }
        ensures list { let ls = lists_above rank_cmp self.old.take.items.items
            (drawn rank_cmp self.old.source self.old.pool.items.items left.now) in
            MatchBool result (slice_get ls 0 ≡ Some self.new.take.items.items) (ls ≡ []) }
        ensures kept { MatchBool result ⊤ (self.new.take.items.items ≡ self.old.take.items.items) }
        ensures draws { draws_of self.new ≡ draws_of self.old }
        ensures rest { self.new.rest.items.items ≡ self.old.rest.items.items }
        ensures rooms { rooms_of self.new ≡ rooms_of self.old }
    {
        let longer = self.take.len() + 1;
        match self.source {
            Source::Nothing => false,
            Source::Front(_, most) => lengthen_front(left, most, &mut self.take),
            Source::Bag(_, most) => {
                next_sublist(self.pool.as_slice(), &mut self.take)
                    || move_to_front(self.pool.as_slice(), longer, most, &mut self.take)
            }
            Source::Whole(_, whole) => {
                if !whole || self.pool.len() < longer {
                    return false;
                }
                self.take.refill(self.pool.as_slice());
                true
            }
        }
    }

    // Keeps what is left once the node's list is taken out.
    pub(crate) fn leave(&mut self, left: &[Rank], ascending: bool)
        requires room { length left.now ≤ self.old.rest.room }
        requires ascending { IsTrue ascending → IsSorted rank_cmp left.now }
        ensures rest { self.new.rest.items.items ≡ without rank_cmp self.old.take.items.items left.now }
        ensures take { take_of self.new ≡ take_of self.old }
        ensures draws { draws_of self.new ≡ draws_of self.old }
        ensures rooms { rooms_of self.new ≡ rooms_of self.old }
    {
        match self.take.as_slice() {
            [] => self.rest.refill(left),
            [only] if ascending => take_one_out(*only, left, &mut self.rest),
            ranks => take_out(ranks, left, &mut self.rest),
        }
    }
}
