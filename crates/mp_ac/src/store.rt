//! What all searches over one table have in common.
ghost use Rattle.std.specs.Prelude.{IfOk, OnOk};
ghost use Rattle.mp_table.specs.Table.{Table};
ghost use Rattle.mp_ac.specs.Store.{IsStoreOf};
ghost use Rattle.mp_ac.specs.CommRoom.{IsOfTable, IsRoomFor};
ghost use Rattle.mp_ac.specs.declared.comm_plans.CommPlans.{CommPlans as plain_plans};

use crate::candidates::Candidates;
use crate::room::CommRoom;
use mp_term::Memory;
use std::alloc::Global;

/// What all searches over one table have in common: the terms that children may take, each child of the prepared
/// patterns by its number, and the rooms of searches that are over. What holds of it is `IsStoreOf` of
/// `specs/Store.antt`.
#[derive(Drop)]
pub struct CommStore {
    pub(crate) candidates: Candidates,
    pub(crate) rooms: Vec<CommRoom>,
}

impl CommStore {
    /// The store before the first search. It takes no memory.
    pub fn new(alloc: Global) -> CommStore
        ensures { (t : Table) (x : plain_plans) → IsStoreOf t x result }
    {
        CommStore {
            candidates: Candidates::new(alloc),
            rooms: Vec::new(alloc),
        }
    }

    // A room for so many children that take one term each, so many nodes of the others, and so many ranks: the last one
    // that was given back, if it is large enough, or a new one.
    pub(crate) fn take_room(
        &mut self,
        alloc: Global,
        children: usize,
        nodes: u32,
        width: usize,
    ) -> Result<CommRoom, Memory>
        ensures room { (t : Table) (x : plain_plans) → IsStoreOf t x self.old
            → IfOk result (IsRoomFor t children nodes width) }
        ensures store { (t : Table) (x : plain_plans) → IsStoreOf t x self.old → IsStoreOf t x self.new }
    {
        let Some(room) = self.rooms.pop() else {
            return CommRoom::new(alloc, children, nodes, width);
        };
        if room.is_for(children, nodes, width) {
            Ok(room)
        } else {
            CommRoom::new(alloc, children, nodes, width)
        }
    }

    // Takes back a room.
    pub(crate) fn put_room(&mut self, room: CommRoom) -> Result<(), Memory>
        ensures { OnOk result ((t : Table) (x : plain_plans) → IsStoreOf t x self.old → IsOfTable t room
            → IsStoreOf t x self.new) }
    {
        self.candidates.forget();
        self.rooms.push(room)?;
        Ok(())
    }
}
