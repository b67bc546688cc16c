//! Positions of subterms.
ghost use Rattle.std.specs.Prelude.{◌≡◌, IfOk};

use crate::memory::Memory;
use std::alloc::Global;
use std::marker::Model;

/// A position in a term: the argument indexes from 0 on the way down from the root, which is the empty position.
/// Contracts see the list of the indexes.
#[derive(Drop)]
pub struct Position {
    indexes: Vec<u32>,
}

impl Model for Position {
    ghost use Rattle.std.specs.Prelude.{ℕ, List};

    ghost Value = { List ℕ };

    ghost view = { λ p. p.indexes.items };
}

impl Position {
    /// The position of these indexes, which are copied. `Memory` comes where there is no room for the copy.
    pub fn new(alloc: Global, indexes: &[u32]) -> Result<Position, Memory>
        ensures { IfOk result (λ p. p ≡ indexes.now) }
    {
        let mut copy = Vec::new(alloc);
        copy.extend_from_slice(indexes)?;
        Ok(Position { indexes: copy })
    }

    /// The indexes, from the root down.
    pub fn indexes(&self) -> &[u32]
        ensures { result.now ≡ self.now }
    {
        &self.indexes
    }
}
