//! What stands at a place of a text.
use mp_term::Term;

// A subterm, the number of its nodes, and its rank: a number above all ranks, as long as it isn't told.
#[derive(Drop)]
pub(crate) struct Node<'a> {
    pub(crate) term: &'a Term,
    pub(crate) nodes: u32,
    pub(crate) rank: u32,
}
