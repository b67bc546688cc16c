//! The names of statements, each found by its bytes.

ghost use Rattle.std.specs.Prelude.{◌≡◌, ◌++◌, ◌∷◌, [], not, length, position, bytes_eq, IfOk, IsTrue, IsFalse};
ghost use Rattle.std.specs.List.{list_any};

use indexmap::IndexSet;
use mp_term::Memory;
use std::alloc::Global;
use std::marker::Model;

/// Distinct names of a text in the order in which they came. Contracts see the list of the names.
#[derive(Drop)]
pub struct TextNames<'a> {
    names: IndexSet<&'a [u8]>,
}

impl<'a> Model for TextNames<'a> {
    ghost use Rattle.std.specs.Prelude.{ℕ, List, map};

    ghost Value = { List (List ℕ) };

    ghost view = { λ t. map (λ k. k.now) t.names.keys };
}

impl<'a> TextNames<'a> {
    /// No name. It takes no memory.
    pub fn new(alloc: Global) -> Self
        ensures { result ≡ [] }
    {
        TextNames {
            names: IndexSet::new(alloc),
        }
    }

    /// No name, with room for so many at once where memory has it.
    pub fn with_room(alloc: Global, room: usize) -> Self
        ensures { result ≡ [] }
    {
        match IndexSet::with_capacity(alloc, room) {
            Ok(names) => TextNames { names },
            Err(_) => TextNames::new(alloc),
        }
    }

    /// How many names there are.
    pub fn len(&self) -> usize
        ensures { result ≡ length self.now }
    {
        self.names.len()
    }

    /// The index of the name of these bytes, from 0. It is None exactly where the name isn't there. It takes no memory.
    pub fn index_of(&self, name: &[u8]) -> Option<usize>
        ensures { result ≡ position (bytes_eq name.now) self.now }
    {
        self.names.get_index_of(name)
    }

    /// Adds a name behind the others, or answers false where it is one of them, and leaves them as they were. `Memory`:
    /// memory ran out.
    pub fn insert(&mut self, name: &'a [u8]) -> Result<bool, Memory>
        ensures new { IfOk result (λ is_new. is_new ≡ not (list_any (bytes_eq name.now) self.old)) }
        ensures names { IfOk result (λ is_new. IsTrue is_new → self.new ≡ self.old ++ name.now ∷ []) }
        ensures kept { IfOk result (λ is_new. IsFalse is_new → self.new ≡ self.old) }
    {
        Ok(self.names.insert(name)?)
    }
}
