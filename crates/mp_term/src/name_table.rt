//! The index of each of a list of distinct names.
ghost use Rattle.std.specs.Prelude.{◌≡◌, ◌<◌, ◌++◌, ◌∷◌, [], length, position, bytes_eq, IfSome, OnOk, OnErr, false};
ghost use Rattle.std.specs.List.{list_any};

use crate::bytes::same_bytes;
use crate::memory::Memory;
use indexmap::IndexSet;
use std::alloc::Global;
use std::marker::Model;

/// Distinct names in the order in which they came, each found by its bytes. Contracts see the list of the names.
#[derive(Drop)]
pub struct NameTable {
    alloc: Global,
    names: IndexSet<Vec<u8>>,
}

impl Model for NameTable {
    ghost use Rattle.std.specs.Prelude.{ℕ, List, map};

    ghost Value = { List (List ℕ) };

    ghost view = { λ t. map (λ k. k.items) t.names.keys };
}

// The most names of which each is looked at, which takes less time than a look-up.
const FEW: usize = 8;

impl NameTable {
    /// The table of no name. It takes no memory.
    pub fn new(alloc: Global) -> Self
        ensures { result ≡ [] }
    {
        NameTable {
            alloc,
            names: IndexSet::new(alloc),
        }
    }

    /// The index of the name of these bytes, from 0. It is None exactly where the name isn't there. It takes no memory.
    pub fn index_of(&self, name: &[u8]) -> Option<usize>
        ensures index { result ≡ position (bytes_eq name.now) self.now }
        ensures within { IfSome result (λ i. i < length self.now) }
    {
        if self.names.len() <= FEW {
            self.look_for(name)
        } else {
            self.names.get_index_of(name)
        }
    }

    // The same: each name is looked at.
    fn look_for(&self, name: &[u8]) -> Option<usize>
        ensures index { result ≡ position (bytes_eq name.now) self.now }
        ensures within { IfSome result (λ i. i < length self.now) }
    {
        for index in 0..self.names.len() {
            if let Some(own) = self.names.get_index(index)
                && same_bytes(own, name)
            {
                return Some(index);
            }
        }
        None
    }

    /// Adds a name that isn't there, behind the others.
    ///
    /// `Memory`: memory ran out, and the table is as it was.
    pub fn push(&mut self, name: &[u8]) -> Result<(), Memory>
        requires { list_any (bytes_eq name.now) self.old ≡ false }
        ensures ok { OnOk result (self.new ≡ self.old ++ name.now ∷ []) }
        ensures err { OnErr result (self.new ≡ self.old) }
    {
        let mut copy = Vec::new(self.alloc);
        copy.extend_from_slice(name)?;
        self.names.insert(copy)?;
        Ok(())
    }
}
