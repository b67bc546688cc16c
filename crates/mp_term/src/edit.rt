//! Edits of a term, and lists of them.
ghost use Rattle.std.specs.Prelude.{◌≡◌, [], ◌∷◌, ◌++◌, length, slice_get, option_map, OnOk, OnErr};

use crate::memory::Memory;
use crate::position::Position;
use crate::term::Terms;
use std::alloc::Global;
use std::marker::Model;

/// An edit of a term: the terms that replace the subterm at a position.
#[derive(Drop)]
pub struct Edit {
    /// Where the subterm stands.
    pub position: Position,
    /// What replaces it, in order.
    pub terms: Terms,
}

/// A list of edits, which are made at once.
#[derive(Drop)]
pub struct Edits {
    items: Vec<Edit>,
}

impl Model for Edits {
    ghost use Rattle.std.specs.Prelude.{List};
    ghost use Rattle.mp_term.specs.declared.edit.Edit.{Edit};
    ghost use Rattle.std.specs.Coded.{coded_list};
    ghost use Rattle.mp_term.specs.Edits.{coded_edit};

    ghost Value = { List Edit };

    ghost coded = { coded_list coded_edit };

    ghost view = { λ es. es.items.items };
}

impl Edits {
    /// The empty list, which takes no memory.
    pub fn new(alloc: Global) -> Self
        ensures { result ≡ [] }
    {
        Edits {
            items: Vec::new(alloc),
        }
    }

    /// Adds an edit at the end. At `Memory` the list is as before, and the edit is dropped.
    pub fn push(&mut self, item: Edit) -> Result<(), Memory>
        ensures ok { OnOk result (self.new ≡ self.old ++ item ∷ []) }
        ensures err { OnErr result (self.new ≡ self.old) }
    {
        self.items.push(item)?;
        Ok(())
    }

    /// The number of edits.
    pub fn len(&self) -> usize
        ensures { result ≡ length self.now }
    {
        self.items.len()
    }

    /// The edit at an index from 0, and None exactly where the index isn't below the length.
    pub fn get(&self, index: usize) -> Option<&Edit>
        ensures { slice_get self.now index ≡ option_map (λ e. e.now) result }
    {
        self.items.get(index)
    }
    /// The edits as a slice.
    pub fn as_slice(&self) -> &[Edit]
        ensures { result.now ≡ self.now }
    {
        &self.items
    }
}
