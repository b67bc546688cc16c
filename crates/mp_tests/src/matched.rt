//! What a test matches, and rooms for it.

ghost use Rattle.std.specs.Prelude.{◌≡◌, ◌≤◌, length, IsTrue};
ghost use Rattle.mp_term.specs.Size.{node_count};
ghost use Rattle.mp_table.specs.Table.{subject_of};
ghost use Rattle.mp_term.specs.View.{tree};
ghost use Rattle.mp_pattern.specs.Planned.{rule_plan};
ghost use Rattle.mp_tests.specs.Matched.{IsMatched};

use mp_cursor::{Cursor, CursorRoom, MAX_ROOM_NODES, MAX_ROOM_VARS, MAX_ROOM_WIDTH};
use mp_pattern::PlannedRule;
use mp_table::Table;
use mp_term::{Name, Signature, Term};
use std::alloc::Global;
use std::process::Abort;

/// For how many nodes, variables and ranks at a node a room is.
#[derive(Clone, Copy)]
pub struct Sizes {
    pub nodes: u32,
    pub vars: u32,
    pub width: u32,
}

/// A rule with its plan, a subject with its name, and the table of both.
#[derive(Clone, Copy)]
pub struct Matched<'a> {
    pub sig: &'a Signature,
    pub planned: &'a PlannedRule<'a>,
    pub name: &'a Name,
    pub subject: &'a Term,
    pub table: &'a Table,
}

/// A room of these sizes.
pub fn room(rt: &impl Abort, alloc: Global, sizes: Sizes) -> CursorRoom
    ensures { result ≡ record { nodes = sizes.nodes; vars = sizes.vars; width = sizes.width } }
{
    assert!(rt; sizes.nodes <= MAX_ROOM_NODES);
    assert!(rt; sizes.vars <= MAX_ROOM_VARS);
    assert!(rt; sizes.width <= MAX_ROOM_WIDTH);
    CursorRoom::new(alloc, sizes.nodes, sizes.vars, sizes.width).expect(rt, "memory")
}

/// Whether a room of these sizes is for what is matched.
pub fn is_fit(m: Matched<'_>, sizes: Sizes) -> bool
    ensures nodes { IsTrue result → sizes.nodes ≡ length m.entry.planned.now.plan.nodes }
    ensures vars { IsTrue result → sizes.vars ≡ length m.entry.planned.now.plan.variables }
    ensures width { IsTrue result → node_count (subject_of m.entry.table.now) ≤ sizes.width }
{
    let plan = &m.planned.plan;
    plan.len() == sizes.nodes
        && plan.vars() == sizes.vars
        && m.table.nodes(m.table.root()) <= u64::from(sizes.width)
}

/// The cursor on what is matched, in a room of these sizes.
pub fn begin<'a>(rt: &impl Abort, m: Matched<'a>, room: CursorRoom, sizes: Sizes) -> Cursor<'a>
    requires matched { IsMatched m.sig.now (rule_plan m.planned.now) (tree m.subject.now) m.table.now }
    requires room { room ≡ record { nodes = sizes.nodes; vars = sizes.vars; width = sizes.width } }
{
    assert!(rt; is_fit(m, sizes), "the room is another one");
    Cursor::begin(room, m.sig, m.planned.rule, &m.planned.plan, m.table)
}
