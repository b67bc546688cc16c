//! The splits of a length by parts, one at a time.
ghost use Rattle.std.specs.Prelude.{◌≡◌, ℕ, ◌+◌, ◌^◌, ◌<◌, ◌≤◌, ◌↔◌, length, length as list_length, sum, take, drop};
ghost use Rattle.std.specs.Prelude.{All, IsTrue, IsSome, IfOk, MatchOption, MatchBool};
ghost use Rattle.std.specs.List.{AllZip};
ghost use Rattle.std.specs.Ordering.{nat_cmp};
ghost use Rattle.std.specs.Cmp.Lexicographic.{slice_cmp};
ghost use Rattle.mp_choice.specs.Splits.{Allows, IsSplit, AreSplits, leasts};
ghost use Rattle.mp_choice.specs.SplitSteps.{IsPossible, IsPacked, IsLastOfSum, IsNextOfSum, Rises};
ghost use Rattle.mp_choice.specs.SplitList.{splits_of};
ghost use Rattle.mp_choice.specs.Listed.{StandsAt, Reaches, IsExhausted, IsFirst, HasNone};
ghost use Rattle.mp_choice.specs.Choices.{advanced};

use crate::limits::MAX_TOTAL;
use crate::room::{clear_to, refill};
use crate::stage::Stage;
use mp_term::Memory;
use std::alloc::Global;
use std::marker::Model;

/// A part of a split: the least length that it may have, and the greatest, if it has one. A part whose `most` is below
/// its `least` may have no length.
#[derive(Clone, Copy)]
pub struct Part {
    /// The least length of the part.
    pub least: u32,
    /// The greatest length of the part, if it has one.
    pub most: Option<u32>,
}

/// The splits of a length by parts: the lists of lengths, one for each part and within its bounds, whose sum is the
/// length, in lexicographic order, by `AreSplits` of `specs/Splits.antt`. Contracts see a `Splits` as `Choices` of
/// `specs/Choices.antt`: the item at which it stands, the items still to come, and its room.
#[derive(Drop)]
pub struct Splits {
    parts: Vec<Part>,
    lengths: Vec<u32>,
    total: u32,
    room: usize,
    stage: Stage,
}

impl Model for Splits {
    ghost use Rattle.mp_choice.specs.Choices.{Choices};

    ghost Value = { Choices };

    ghost use Rattle.mp_choice.specs.SplitsView.{splits_view, IsSound};

    ghost view = { splits_view };

    ghost invariant = { IsSound };
}

impl Splits {
    /// The generator of the splits of `length` by `parts`, before its first item, with room for as many parts. The
    /// length and the sum of the least lengths are at most `MAX_TOTAL`. `Memory` comes where there is no room for the
    /// parts and one item.
    pub fn begin(alloc: Global, length: u32, parts: &[Part]) -> Result<Splits, Memory>
        requires length_bound { length ≤ MAX_TOTAL }
        requires least_bound { leasts parts.now ≤ MAX_TOTAL }
        ensures list { IfOk result (λ splits. AreSplits length parts.now splits.to_come) }
        ensures before_first { IfOk result (λ splits. splits.item ≡ None) }
        ensures room { IfOk result (λ splits. splits.room ≡ list_length parts.now) }
    {
        let room = parts.len();
        let Ok(copies) = Vec::from_slice(alloc, parts) else {
            return Err(Memory);
        };
        let Ok(lengths) = vec![in alloc; 0; room] else {
            return Err(Memory);
        };
        Ok(Splits {
            parts: copies,
            lengths,
            total: length,
            room,
            stage: Stage::Before,
        })
    }

    /// Makes it the generator of the splits of `length` by `parts`, before its first item, wherever it stood. There are
    /// no more parts than its room, which stays; the length and the sum of the least lengths are at most `MAX_TOTAL`.
    /// It takes no memory.
    pub fn restart(&mut self, length: u32, parts: &[Part])
        requires length_bound { length ≤ MAX_TOTAL }
        requires least_bound { leasts parts.now ≤ MAX_TOTAL }
        requires within_room { list_length parts.now ≤ self.old.room }
        ensures list { AreSplits length parts.now self.new.to_come }
        ensures before_first { self.new.item ≡ None }
        ensures room { self.new.room ≡ self.old.room }
    {
        refill(&mut self.parts, parts);
        clear_to(&mut self.lengths, parts.len());
        self.total = length;
        self.stage = Stage::Before;
    }

    /// Moves to the next item and answers true. Where no item is left it answers false and stands at none, and so does
    /// every later call. It takes no memory.
    pub fn next(&mut self) -> bool
        ensures moved { self.new ≡ advanced self.old }
        ensures answer { IsTrue result ↔ IsSome self.new.item }
    {
        let found = step(self.stage, self.total, &self.parts, &mut self.lengths);
        self.stage = if found { Stage::Standing } else { Stage::Ended };
        found
    }

    /// The item at which it stands: one length for each part. The last `next` answered true. It takes no memory.
    pub fn lengths(&self) -> &[u32]
        requires { IsSome self.now.item }
        ensures { self.now.item ≡ Some result.now }
    {
        self.lengths.as_slice()
    }
}

// Whether the part may have a length at all.
fn is_possible(part: &Part) -> bool
    ensures { IsTrue result ↔ IsPossible part.now }
{
    match part.most {
        Some(most) => part.least <= most,
        None => true,
    }
}

// Whether one more than the length is still within the part.
fn can_rise(part: &Part, length: u32) -> bool
    requires least { part.now.least ≤ length }
    ensures { IsTrue result ↔ Allows part.now (length + 1) }
{
    match part.most {
        Some(most) => length < most,
        None => true,
    }
}

// How much of `left` the part takes beyond its least length.
fn taken(part: &Part, left: u32) -> u32
    requires possible { IsPossible part.now }
    ensures within { Allows part.now (part.now.least + result) }
    ensures at_most { result ≤ left }
    ensures full { result < left → (n : ℕ) → Allows part.now n → n ≤ part.now.least + result }
{
    match part.most {
        Some(most) => left.min(most - part.least),
        None => left,
    }
}

// Gives the parts from `from` on their least lengths and lays `extra` over them, the last parts first. What is left
// over is returned.
fn pack(parts: &[Part], lengths: &mut [u32], from: usize, extra: u32) -> u32
    requires same_length { length lengths.old ≡ length parts.now }
    requires within { from ≤ length parts.now }
    requires possible { All IsPossible (drop from parts.now) }
    requires bounds { All (λ p. p.least + extra < 2 ^ 32) (drop from parts.now) }
    ensures before { take from lengths.new ≡ take from lengths.old }
    ensures packed { IsPacked (drop from parts.now) (drop from lengths.new) extra result }
{
    let mut left = extra;
    for i in (from..parts.len()).rev() {
        let more = taken(&parts[i], left);
        lengths[i] = parts[i].least + more;
        left -= more;
    }
    left
}

// The last place whose length can rise by one, taken from what lies beyond the least lengths after it, and how much
// lies there.
fn rise(parts: &[Part], lengths: &[u32]) -> Option<(usize, u32)>
    requires within { AllZip Allows parts.now lengths.now }
    requires fits { sum lengths.now < 2 ^ 32 }
    ensures { MatchOption result (IsLastOfSum parts.now lengths.now) (λ r. Rises parts.now lengths.now r.0 r.1) }
{
    let mut spare = 0;
    for i in (0..parts.len()).rev() {
        if spare > 0 && can_rise(&parts[i], lengths[i]) {
            return Some((i, spare));
        }
        spare += lengths[i] - parts[i].least;
    }
    None
}

// Makes the lengths the first split, if there is one.
fn first(total: u32, parts: &[Part], lengths: &mut [u32]) -> bool
    requires same_length { length lengths.old ≡ length parts.now }
    requires total_bound { total ≤ MAX_TOTAL }
    requires least_bound { leasts parts.now ≤ MAX_TOTAL }
    ensures { MatchBool result (IsFirst (slice_cmp nat_cmp) (IsSplit total parts.now) lengths.new)
        (HasNone (IsSplit total parts.now)) }
{
    let mut least = 0;
    for part in parts {
        if !is_possible(part) {
            return false;
        }
        least += part.least;
    }
    if least > total {
        return false;
    }
    pack(parts, lengths, 0, total - least) == 0
}

// Makes the lengths the next split of the same sum, if there is one.
fn following(parts: &[Part], lengths: &mut [u32]) -> bool
    requires within { AllZip Allows parts.now lengths.old }
    requires fits { sum lengths.old ≤ MAX_TOTAL }
    ensures { MatchBool result (IsNextOfSum parts.now lengths.old lengths.new) (IsLastOfSum parts.now lengths.old) }
{
    match rise(parts, lengths) {
        Some((i, spare)) => {
            lengths[i] += 1;
            pack(parts, lengths, i + 1, spare - 1);
            true
        }
        None => false,
    }
}

// Moves the lengths from the place where they stand to the next split, if there is one.
fn step(stage: Stage, total: u32, parts: &[Part], lengths: &mut [u32]) -> bool
    requires same_length { length lengths.old ≡ length parts.now }
    requires total_bound { total ≤ MAX_TOTAL }
    requires least_bound { leasts parts.now ≤ MAX_TOTAL }
    requires stands { StandsAt (IsSplit total parts.now) stage lengths.old }
    ensures { MatchBool result
        (Reaches (slice_cmp nat_cmp) (IsSplit total parts.now)
        (splits_of total parts.now) stage lengths.old lengths.new)
        (IsExhausted (slice_cmp nat_cmp) (splits_of total parts.now) stage lengths.old) }
{
    match stage {
        Stage::Before => first(total, parts, lengths),
        Stage::Standing => following(parts, lengths),
        Stage::Ended => false,
    }
}
