//! What a cursor matches.
use mp_pattern::Plan;
use mp_table::Table;
use mp_term::Signature;

// What is matched: a plan and a table over a signature.
#[derive(Clone, Copy)]
pub(crate) struct Matched<'a> {
    pub(crate) sig: &'a Signature,
    pub(crate) plan: &'a Plan,
    pub(crate) table: &'a Table,
}
