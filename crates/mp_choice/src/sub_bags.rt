//! The sub-multisets of counts, one at a time.
ghost use Rattle.std.specs.Prelude.{◌≡◌, ◌^◌, ◌<◌, ◌≤◌, ◌↔◌, length, sum, take, drop, IsTrue, IsSome, IfOk};
ghost use Rattle.std.specs.Prelude.{MatchOption, MatchBool};
ghost use Rattle.mp_choice.specs.SubBags.{IsSubBag, AreSubBags};
ghost use Rattle.mp_choice.specs.SubBagSteps.{IsFilled, IsLastOfSize, Falls};
ghost use Rattle.mp_choice.specs.SubBagList.{counts_order, sub_bags_of};
ghost use Rattle.mp_choice.specs.Listed.{StandsAt, Reaches, IsExhausted, IsNext, IsLast};
ghost use Rattle.mp_choice.specs.Choices.{advanced};

use crate::limits::MAX_TOTAL;
use crate::room::{clear_to, refill};
use crate::stage::Stage;
use mp_term::Memory;
use std::alloc::Global;
use std::marker::Model;

/// The sub-multisets of a multiset that has `counts[c]` items of each class `c`, counted from 0: the lists of numbers,
/// one for each class and at most its count, in shortlex order of their ascending lists of class numbers, by
/// `AreSubBags` of `specs/SubBags.antt`. Contracts see a `SubBags` as `Choices` of `specs/Choices.antt`: the item at
/// which it stands, the items still to come, and its room.
#[derive(Drop)]
pub struct SubBags {
    counts: Vec<u32>,
    bag: Vec<u32>,
    room: usize,
    stage: Stage,
}

impl Model for SubBags {
    ghost use Rattle.mp_choice.specs.Choices.{Choices};

    ghost Value = { Choices };

    ghost use Rattle.mp_choice.specs.SubBagsView.{sub_bags_view, IsSound};

    ghost view = { sub_bags_view };

    ghost invariant = { IsSound };
}

impl SubBags {
    /// The generator of the sub-multisets of `counts`, before its first item, with room for as many classes. The sum of
    /// the counts is at most `MAX_TOTAL`. `Memory` comes where there is no room for the counts and one item.
    pub fn begin(alloc: Global, counts: &[u32]) -> Result<SubBags, Memory>
        requires bound { sum counts.now ≤ MAX_TOTAL }
        ensures list { IfOk result (λ bags. AreSubBags counts.now bags.to_come) }
        ensures before_first { IfOk result (λ bags. bags.item ≡ None) }
        ensures room { IfOk result (λ bags. bags.room ≡ length counts.now) }
    {
        let room = counts.len();
        let Ok(copies) = Vec::from_slice(alloc, counts) else {
            return Err(Memory);
        };
        let Ok(bag) = vec![in alloc; 0; room] else {
            return Err(Memory);
        };
        Ok(SubBags {
            counts: copies,
            bag,
            room,
            stage: Stage::Before,
        })
    }

    /// Makes it the generator of the sub-multisets of `counts`, before its first item, wherever it stood. There are no
    /// more counts than its room, which stays; their sum is at most `MAX_TOTAL`. It takes no memory.
    pub fn restart(&mut self, counts: &[u32])
        requires bound { sum counts.now ≤ MAX_TOTAL }
        requires within_room { length counts.now ≤ self.old.room }
        ensures list { AreSubBags counts.now self.new.to_come }
        ensures before_first { self.new.item ≡ None }
        ensures room { self.new.room ≡ self.old.room }
    {
        refill(&mut self.counts, counts);
        clear_to(&mut self.bag, counts.len());
        self.stage = Stage::Before;
    }

    /// Moves to the next item and answers true. Where no item is left it answers false and stands at none, and so does
    /// every later call. It takes no memory.
    pub fn next(&mut self) -> bool
        ensures moved { self.new ≡ advanced self.old }
        ensures answer { IsTrue result ↔ IsSome self.new.item }
    {
        let found = step(self.stage, &self.counts, &mut self.bag);
        self.stage = if found { Stage::Standing } else { Stage::Ended };
        found
    }

    /// The item at which it stands: how often each class is in it. The last `next` answered true. It takes no memory.
    pub fn counts(&self) -> &[u32]
        requires { IsSome self.now.item }
        ensures { self.now.item ≡ Some result.now }
    {
        self.bag.as_slice()
    }
}

// The sum of the numbers.
fn total(list: &[u32]) -> u32
    requires { sum list.now < 2 ^ 32 }
    ensures { result ≡ sum list.now }
{
    list.iter().sum()
}

// Fills the bag from `from` on with `size` items, the first classes first.
fn fill(counts: &[u32], bag: &mut [u32], from: usize, size: u32)
    requires same_length { length bag.old ≡ length counts.now }
    requires within { from ≤ length counts.now }
    requires fits { size ≤ sum (drop from counts.now) }
    ensures before { take from bag.new ≡ take from bag.old }
    ensures filled { IsFilled (drop from counts.now) (drop from bag.new) size }
{
    let mut left = size;
    for i in from..counts.len() {
        let share = counts[i].min(left);
        bag[i] = share;
        left -= share;
    }
}

// The last class whose count can fall by one since there is room after it, and the size of what comes after it.
fn fall(counts: &[u32], bag: &[u32]) -> Option<(usize, u32)>
    requires within { IsSubBag counts.now bag.now }
    requires bound { sum counts.now ≤ MAX_TOTAL }
    ensures { MatchOption result (IsLastOfSize counts.now bag.now) (λ r. Falls counts.now bag.now r.0 r.1) }
{
    let mut size = 0;
    let mut room = 0;
    for i in (0..counts.len()).rev() {
        if bag[i] > 0 && room > 0 {
            return Some((i, size));
        }
        size += bag[i];
        room += counts[i] - bag[i];
    }
    None
}

// Moves the bag from the place where it stands to the next sub-multiset, if there is one.
fn step(stage: Stage, counts: &[u32], bag: &mut [u32]) -> bool
    requires same_length { length bag.old ≡ length counts.now }
    requires bound { sum counts.now ≤ MAX_TOTAL }
    requires stands { StandsAt (IsSubBag counts.now) stage bag.old }
    ensures { MatchBool result
        (Reaches counts_order (IsSubBag counts.now) (sub_bags_of counts.now) stage bag.old bag.new)
        (IsExhausted counts_order (sub_bags_of counts.now) stage bag.old) }
{
    match stage {
        Stage::Before => {
            fill(counts, bag, 0, 0);
            true
        }
        Stage::Standing => following(counts, bag),
        Stage::Ended => false,
    }
}

// Makes the bag the next one: of the same size, or else the first of the next size.
fn following(counts: &[u32], bag: &mut [u32]) -> bool
    requires within { IsSubBag counts.now bag.old }
    requires bound { sum counts.now ≤ MAX_TOTAL }
    ensures { MatchBool result (IsNext counts_order (IsSubBag counts.now) bag.old bag.new)
        (IsLast counts_order (IsSubBag counts.now) bag.old) }
{
    match fall(counts, bag) {
        Some((i, size)) => {
            bag[i] -= 1;
            fill(counts, bag, i + 1, size + 1);
            true
        }
        None => {
            let size = total(bag);
            if size == total(counts) {
                return false;
            }
            fill(counts, bag, 0, size + 1);
            true
        }
    }
}
