//! What a child takes that takes one term.
ghost use Rattle.std.specs.Prelude.{◌≡◌, ◌+◌, length, map, slice_get, Some, false, IfOk, MatchResult};
ghost use Rattle.mp_pattern.specs.View.{pattern_tree};
ghost use Rattle.mp_table.specs.Table.{HasRanks, terms_at};
ghost use Rattle.mp_ac.specs.Seek.{AreTaken, picks_table};

use crate::syntactic::entry_in;
use mp_pattern::Pattern;
use mp_search::Room;
use mp_table::{Rank, Table};
use mp_term::Memory;
use std::alloc::Global;

// What a child takes that takes one term: the terms that it may take are a part of a list, the one that it takes is one
// of them, and the rest is what is left to the children behind it.
#[derive(Drop)]
pub(crate) struct Pick {
    pub(crate) from: usize,
    pub(crate) end: usize,
    pub(crate) at: usize,
    pub(crate) rest: Room<Rank>,
}

impl Pick {
    // A pick of no term, with room for so many ranks. `Memory` comes where there is no memory for it.
    pub(crate) fn new(alloc: Global, width: usize) -> Result<Pick, Memory>
        ensures { IfOk result (λ k. k.rest.room ≡ width) }
    {
        Ok(Pick {
            from: 0,
            end: 0,
            at: 0,
            rest: Room::new(alloc, width)?,
        })
    }
}

// What the node of the number takes, of those of children which take what is picked, in preorder from 0; or how far the
// number is behind them.
pub(crate) fn entry_picked<'t>(
    table: &'t Table,
    choices: &'t [Rank],
    children: &[Pattern],
    picks: &[Pick],
    node: u32,
) -> Result<&'t [Rank], u32>
    requires choices { HasRanks table.now choices.now }
    requires taken { AreTaken table.now choices.now (map pattern_tree children.now) picks.now }
    ensures entry { MatchResult result
        (λ rs. slice_get (picks_table table.now choices.now (map pattern_tree children.now) picks.now) node
        ≡ Some (record { terms = terms_at table.now rs.now; collapsed = false }))
        (λ left. left + length (picks_table table.now choices.now (map pattern_tree children.now) picks.now)
        ≡ node) }
    ensures within { IfOk result (λ rs. HasRanks table.now rs.now) }
{
    match (children, picks) {
        ([child, later @ ..], [pick, behind @ ..]) => {
            match entry_in(table, child, &choices[pick.at], node) {
                Ok(entry) => Ok(entry),
                Err(left) => entry_picked(table, choices, later, behind, left),
            }
        }
        _ => Err(node),
    }
}
