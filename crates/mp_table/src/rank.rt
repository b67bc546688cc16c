//! Ranks, and what stands at the top of a term.
use mp_term::{Name, OpId};

/// The place of a term among those of a table, from 0 in the term order.
#[derive(Debug, Drop, Clone, Copy, PartialEq, Eq, PartialOrd, Ord)]
pub struct Rank(pub u32);

/// What stands at the top of a term.
#[derive(Drop)]
pub enum Head<'a> {
    /// A symbol.
    Sym(&'a Name),
    /// An operation.
    App(OpId),
}
