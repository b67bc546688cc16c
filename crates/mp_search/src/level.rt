//! What is kept of each node of a pattern.
ghost use Rattle.std.specs.Prelude.{◌≡◌, ◌≤◌, [], false, length, IfOk};
ghost use Rattle.std.specs.List.{AllByRecursion};
ghost use Rattle.mp_search.specs.declared.level.Source.TheVariants.{Nothing};
ghost use Rattle.mp_search.specs.Levels.{rooms_of, draws_of, take_of, IsVacant};

use crate::room::Room;
use mp_table::Rank;
use mp_term::Memory;
use std::alloc::Global;

/// Where the lists come from that a node may take (`drawn` of `specs/Drawn.antt`).
#[derive(Clone, Copy)]
pub enum Source {
    /// There are none.
    Nothing,
    /// The fronts of what is left, of the least length to the greatest.
    Front(usize, usize),
    /// The sublists of the pool, of the least length to the greatest.
    Bag(usize, usize),
    /// The empty list, the whole pool, or both.
    Whole(bool, bool),
}

/// The room of a node. Only what it takes, and whether it is collapsed, have a meaning between two searches: these are
/// the node's entry in a take table (`entry_of` of `specs/Reading.antt`). The rest is made anew when a search comes to
/// the node.
#[derive(Drop)]
pub struct Level {
    /// The ranks of the terms that the node takes.
    pub take: Room<Rank>,
    /// The node is an application that is collapsed.
    pub collapsed: bool,
    /// What the lists of the node are drawn from.
    pub pool: Room<Rank>,
    /// How they are drawn.
    pub source: Source,
    /// What is left behind the node.
    pub rest: Room<Rank>,
}

impl Level {
    /// A vacant level (`IsVacant` of `specs/Levels.antt`), each list of which has room for so many ranks. All memory
    /// that it ever needs is taken here: `Memory` comes where there is not so much.
    pub fn new(alloc: Global, width: usize) -> Result<Level, Memory>
        ensures vacant { IfOk result IsVacant }
        ensures rooms { IfOk result (λ l. rooms_of l ≡ (width, width, width)) }
    {
        Ok(Level {
            take: Room::new(alloc, width)?,
            collapsed: false,
            pool: Room::new(alloc, width)?,
            source: Source::Nothing,
            rest: Room::new(alloc, width)?,
        })
    }

    /// Puts the ranks in the place of what the node takes, for which there must be room.
    pub fn set(&mut self, ranks: &[Rank], collapsed: bool)
        requires { length ranks.now ≤ self.old.take.room }
        ensures take { take_of self.new ≡ (ranks.now, collapsed) }
        ensures draws { draws_of self.new ≡ draws_of self.old }
        ensures rest { self.new.rest.items.items ≡ self.old.rest.items.items }
        ensures rooms { rooms_of self.new ≡ rooms_of self.old }
    {
        self.take.refill(ranks);
        self.collapsed = collapsed;
    }

    /// Makes the level vacant again (`IsVacant` of `specs/Levels.antt`).
    pub fn clear(&mut self)
        ensures vacant { IsVacant self.new }
        ensures rooms { rooms_of self.new ≡ rooms_of self.old }
    {
        self.take.clear();
        self.collapsed = false;
        self.pool.clear();
        self.source = Source::Nothing;
        self.rest.clear();
    }
}

/// So many vacant levels (`IsVacant` of `specs/Levels.antt`), each list of which has room for `width` ranks. All memory
/// that they ever need is taken here: `Memory` comes where there is not so much.
pub fn vacant_levels(alloc: Global, count: usize, width: usize) -> Result<Vec<Level>, Memory>
    ensures count { IfOk result (λ ls. length ls.items ≡ count) }
    ensures vacant { IfOk result (λ ls. AllByRecursion IsVacant ls.items) }
    ensures rooms { IfOk result (λ ls. AllByRecursion (λ l. rooms_of l ≡ (width, width, width)) ls.items) }
{
    let mut levels = Vec::with_capacity(alloc, count)?;
    for _ in 0..count {
        levels.push(Level::new(alloc, width)?)?;
    }
    Ok(levels)
}
