//! The pairings of a graph, one at a time.
ghost use Rattle.std.specs.Prelude.{◌≡◌, ◌↔◌, length, All, IsTrue, IsSome, IfOk, MatchBool};
ghost use Rattle.std.specs.List.Sorted.{IsStrictlyIncreasing};
ghost use Rattle.std.specs.Ordering.{nat_cmp};
ghost use Rattle.std.specs.Cmp.Lexicographic.{slice_cmp};
ghost use Rattle.mp_choice.specs.Choices.{advanced};
ghost use Rattle.mp_choice.specs.Listed.{StandsAt, Reaches, IsExhausted, IsFirst, HasNone};
ghost use Rattle.mp_pair.specs.Bipartite.{lists};
ghost use Rattle.mp_pair.specs.Pairings.{IsPairing, ArePairings};
ghost use Rattle.mp_pair.specs.PairingList.{pairings_of};

use crate::graph::{Graph, copy_lists};
use crate::look_ahead::LookAhead;
use crate::search::settle;
use crate::tight::is_hopeless;
use mp_choice::Stage;
use mp_term::Memory;
use std::alloc::Global;
use std::marker::Model;

/// The pairings of a graph: the lists that give each left item one of its classes, and no class more items than its
/// capacity, in lexicographic order, by `ArePairings` of `specs/Pairings.antt`. Contracts see a `Pairings` as `Choices`
/// of mp_choice's `specs/Choices.antt`: the item at which it stands, the items still to come, and the number of left
/// items as its room.
///
/// A choice of class after which the later left items can't all be served is left at once, by a look ahead along
/// augmenting paths. No contract speaks of that: which items are listed doesn't rest on it.
#[derive(Drop)]
pub struct Pairings {
    capacities: Vec<u32>,
    left: Vec<Vec<u32>>,
    choice: Vec<u32>,
    ahead: LookAhead,
    stage: Stage,
}

impl Model for Pairings {
    ghost use Rattle.mp_choice.specs.Choices.{Choices};

    ghost Value = { Choices };

    ghost use Rattle.mp_pair.specs.PairingsView.{pairings_view, IsSound};

    ghost view = { pairings_view };

    ghost invariant = { IsSound };
}

impl Pairings {
    /// The generator of the pairings of the graph as it is now, before its first item; it keeps a copy of the graph.
    /// `Memory` comes where there is no room for the copy, one item and the look ahead.
    pub fn begin(alloc: Global, graph: &Graph) -> Result<Pairings, Memory>
        ensures list { IfOk result (λ pairings. ArePairings graph.now.capacities graph.now.left pairings.to_come) }
        ensures before_first { IfOk result (λ pairings. pairings.item ≡ None) }
        ensures room { IfOk result (λ pairings. pairings.room ≡ length graph.now.left) }
    {
        let Ok(capacities) = Vec::from_slice(alloc, &graph.capacities) else {
            return Err(Memory);
        };
        let left = copy_lists(alloc, &graph.left)?;
        let Ok(choice) = vec![in alloc; 0; left.len()] else {
            return Err(Memory);
        };
        let ahead = LookAhead::new(alloc, left.len(), capacities.len())?;
        Ok(Pairings {
            capacities,
            left,
            choice,
            ahead,
            stage: Stage::Before,
        })
    }

    /// Moves to the next item and answers true. Where no item is left it answers false and stands at none, and so does
    /// every later call. It takes no memory.
    pub fn next(&mut self) -> bool
        ensures moved { self.new ≡ advanced self.old }
        ensures answer { IsTrue result ↔ IsSome self.new.item }
    {
        let found = step(
            self.stage,
            &self.left,
            &self.capacities,
            &mut self.choice,
            &mut self.ahead,
        );
        self.stage = if found { Stage::Standing } else { Stage::Ended };
        found
    }

    /// The item at which it stands: the class of each left item. The last `next` answered true. It takes no memory.
    pub fn choice(&self) -> &[u32]
        requires { IsSome self.now.item }
        ensures { self.now.item ≡ Some result.now }
    {
        self.choice.as_slice()
    }
}

// Makes the choices the first pairing, if there is one.
fn first(left: &[Vec<u32>], capacities: &[u32], choice: &mut [u32], ahead: &mut LookAhead) -> bool
    requires one_each { length choice.old ≡ length left.now }
    requires ascending { All IsStrictlyIncreasing (lists left.now) }
    ensures { MatchBool result
        (IsFirst (slice_cmp nat_cmp) (IsPairing capacities.now (lists left.now)) choice.new)
        (HasNone (IsPairing capacities.now (lists left.now))) }
{
    if !ahead.plans_from(left, capacities, 0) && is_hopeless(left, capacities, ahead.reached()) {
        return false;
    }
    settle(left, capacities, choice, 0, 0, ahead)
}

// Moves the choices from the place where they stand to the next pairing, if there is one.
fn step(
    stage: Stage,
    left: &[Vec<u32>],
    capacities: &[u32],
    choice: &mut [u32],
    ahead: &mut LookAhead,
) -> bool
    requires one_each { length choice.old ≡ length left.now }
    requires ascending { All IsStrictlyIncreasing (lists left.now) }
    requires stands { StandsAt (IsPairing capacities.now (lists left.now)) stage choice.old }
    ensures { MatchBool result
        (Reaches (slice_cmp nat_cmp) (IsPairing capacities.now (lists left.now))
        (pairings_of capacities.now (lists left.now)) stage choice.old choice.new)
        (IsExhausted (slice_cmp nat_cmp) (pairings_of capacities.now (lists left.now)) stage choice.old) }
{
    match stage {
        Stage::Before => first(left, capacities, choice, ahead),
        Stage::Standing => {
            let count = choice.len();
            if count == 0 {
                return false;
            }
            let bound = u64::from(choice[count - 1]) + 1;
            settle(left, capacities, choice, count - 1, bound, ahead)
        }
        Stage::Ended => false,
    }
}
