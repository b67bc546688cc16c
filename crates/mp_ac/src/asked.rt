//! What a search below a node goes by.
use mp_pattern::Plan;
use mp_table::Table;
use mp_term::Signature;

// The plan of the node's pattern, the number of each of its variables in the trail, the table, and whether one of the
// children must be left out (`IsAsked` of `specs/Asked.antt`).
#[derive(Clone, Copy)]
pub(crate) struct Asked<'a> {
    pub(crate) sig: &'a Signature,
    pub(crate) plan: &'a Plan,
    pub(crate) vars: &'a [u32],
    pub(crate) table: &'a Table,
    pub(crate) owes: bool,
}
