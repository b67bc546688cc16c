//! The room of a search below a node.
ghost use Rattle.std.specs.Prelude.{◌≡◌, ◌≤◌, length, IfOk, IsTrue};
ghost use Rattle.std.specs.List.{AllByRecursion};
ghost use Rattle.mp_table.specs.Table.{Table};
ghost use Rattle.mp_ac.specs.CommRoom.{IsOfTable, IsRoomFor};

use crate::pick::Pick;
use mp_search::{Grounds, Level, vacant_levels};
use mp_table::Rank;
use mp_term::Memory;
use std::alloc::Global;

// All the memory that a search below a node needs, but for what its children may take. It may be used again and again,
// for whatever patterns have no more nodes, over one table (`IsRoomFor` of `specs/CommRoom.antt`).
#[derive(Drop)]
pub(crate) struct CommRoom {
    // How many ranks each pick and each level has room for.
    pub(crate) width: usize,
    pub(crate) choices: Vec<Rank>,
    pub(crate) picks: Vec<Pick>,
    pub(crate) levels: Vec<Level>,
    pub(crate) grounds: Grounds,
}

// So many picks, each with room for so many ranks.
fn vacant_picks(alloc: Global, count: usize, width: usize) -> Result<Vec<Pick>, Memory>
    ensures count { IfOk result (λ ks. length ks.items ≡ count) }
    ensures rooms { IfOk result (λ ks. AllByRecursion (λ k. width ≤ k.rest.room) ks.items) }
{
    let mut picks = Vec::with_capacity(alloc, count)?;
    for _ in 0..count {
        picks.push(Pick::new(alloc, width)?)?;
    }
    Ok(picks)
}

impl CommRoom {
    // Room for so many children that take one term each, for so many nodes below a root beside them, and for arguments
    // of so many nodes together. `Memory` comes where there is no memory for it.
    pub(crate) fn new(
        alloc: Global,
        children: usize,
        nodes: u32,
        width: usize,
    ) -> Result<CommRoom, Memory>
        ensures { (t : Table) → IfOk result (IsRoomFor t children nodes width) }
    {
        Ok(CommRoom {
            width,
            choices: Vec::new(alloc),
            picks: vacant_picks(alloc, children, width)?,
            levels: vacant_levels(alloc, nodes as usize, width)?,
            grounds: Grounds::new(alloc, nodes as usize + 1)?,
        })
    }

    // Whether there is room for so many children and nodes and so many ranks at each, of a room whose ranks are the
    // table's.
    pub(crate) fn is_for(&self, children: usize, nodes: u32, width: usize) -> bool
        ensures { IsTrue result → (t : Table) → IsOfTable t self.now → IsRoomFor t children nodes width self.now }
    {
        let nodes = nodes as usize;
        children <= self.picks.len()
            && nodes <= self.levels.len()
            && nodes < self.grounds.list.room
            && width <= self.width
    }
}
