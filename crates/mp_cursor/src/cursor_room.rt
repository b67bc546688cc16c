//! The room of a cursor.
ghost use Rattle.std.specs.Prelude.{◌≡◌, ◌≤◌, IfOk};

use crate::parts::Parts;
use mp_term::Memory;
use std::alloc::Global;
use std::marker::Model;

/// The greatest number of nodes for which a room can be made.
pub const MAX_ROOM_NODES: u32 = 128;

/// The greatest number of variables for which a room can be made.
pub const MAX_ROOM_VARS: u32 = 32;

/// The greatest number of ranks at a node for which a room can be made.
pub const MAX_ROOM_WIDTH: u32 = 100_000;

/// All the memory that a cursor needs, made from three numbers, before its rule and its subject are known. Contracts
/// see it as these numbers (`CursorRoom` of `specs/CursorRoom.antt`).
///
/// It has room for `4 * nodes * width` ranks, four times what the takes alone can need, and little besides.
#[derive(Drop)]
pub struct CursorRoom {
    pub(crate) parts: Parts,
    pub(crate) nodes: u32,
    pub(crate) vars: u32,
    pub(crate) width: u32,
}

impl Model for CursorRoom {
    ghost use Rattle.mp_cursor.specs.CursorRoom as plain;
    ghost use Rattle.mp_cursor.specs.CursorRoomCode.{coded_room};
    ghost use Rattle.mp_cursor.specs.Parts.{AreRoomy, AreVacant};

    ghost Value = { plain.CursorRoom };

    ghost coded = { coded_room };

    ghost view = { λ r. record { nodes = r.nodes; vars = r.vars; width = r.width } };

    ghost invariant = { λ r. AreRoomy r.nodes r.vars r.width r.parts × AreVacant r.width r.parts };
}

impl CursorRoom {
    /// A room for a pattern of so many nodes and variables, and for subjects of at most `width` nodes. They are at most
    /// `MAX_ROOM_NODES`, `MAX_ROOM_VARS` and `MAX_ROOM_WIDTH`. `Memory` comes where there is no memory for it, and then
    /// nothing is left.
    pub fn new(alloc: Global, nodes: u32, vars: u32, width: u32) -> Result<CursorRoom, Memory>
        requires nodes { nodes ≤ MAX_ROOM_NODES }
        requires vars { vars ≤ MAX_ROOM_VARS }
        requires width { width ≤ MAX_ROOM_WIDTH }
        ensures { IfOk result (λ r. r ≡ record { nodes = nodes; vars = vars; width = width }) }
    {
        Ok(CursorRoom {
            parts: Parts::new(alloc, nodes, vars, width)?,
            nodes,
            vars,
            width,
        })
    }
}
