//! What a table keeps of each of its terms.
use mp_term::{Name, OpId};

// What stands at the top of a term, owned.
#[derive(Drop)]
pub(crate) enum OwnHead {
    Sym(Name),
    App(OpId),
}

// A term: its head, where the ranks of its arguments begin and end in the list of all, and how many nodes it has.
#[derive(Drop)]
pub(crate) struct Entry {
    pub(crate) head: OwnHead,
    pub(crate) from: usize,
    pub(crate) end: usize,
    pub(crate) nodes: u64,
}
