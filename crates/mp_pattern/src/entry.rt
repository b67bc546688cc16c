//! Take tables, entry by entry, and the forms of variables.
ghost use Rattle.std.specs.Prelude.{◌≡◌, [], ◌∷◌, ◌++◌, length, map, slice_get, OnOk, OnErr, option_map};
ghost use Rattle.mp_pattern.specs.EntryView.{table_entry};

use mp_term::{Memory, Terms};
use std::alloc::Global;
use std::marker::Model;

/// What a node of a pattern takes, and of an application whether it is collapsed.
/// Contracts see it as the record `table_entry` of `specs/EntryView.antt`.
#[derive(Drop)]
pub struct Entry {
    /// The terms that the node takes, in order.
    pub terms: Terms,
    /// The node is an application that stands for the one term which its arguments take together.
    pub collapsed: bool,
}

/// A take table: one entry for each node of a pattern, in preorder. Contracts see it as the list of its entries'
/// records; `specs/Fits.antt` says when it fits.
#[derive(Drop)]
pub struct Entries {
    items: Vec<Entry>,
}

impl Model for Entries {
    ghost use Rattle.std.specs.Prelude.{List, map};
    ghost use Rattle.std.specs.Coded.{coded_list};
    ghost use Rattle.mp_pattern.specs.Fits as plain;
    ghost use Rattle.mp_pattern.specs.EntryCode.{coded_entry};

    ghost Value = { List plain.Entry };

    ghost coded = { coded_list coded_entry };

    ghost use Rattle.mp_pattern.specs.EntryView.{table_entry};

    ghost view = { λ es. map table_entry es.items.items };
}

impl Entries {
    /// The empty list. It takes no memory.
    pub fn new(alloc: Global) -> Self
        ensures { result ≡ [] }
    {
        Entries {
            items: Vec::new(alloc),
        }
    }

    /// Adds an entry at the end. For want of memory it answers `Memory`, drops the entry and leaves the list as it was.
    pub fn push(&mut self, item: Entry) -> Result<(), Memory>
        ensures ok { OnOk result (self.new ≡ self.old ++ table_entry item ∷ []) }
        ensures err { OnErr result (self.new ≡ self.old) }
    {
        self.items.push(item)?;
        Ok(())
    }

    /// How many entries there are.
    pub fn len(&self) -> usize
        ensures { result ≡ length self.now }
    {
        self.items.len()
    }

    /// The entry at the index, from 0. It is None exactly where the index isn't below the length.
    pub fn get(&self, index: usize) -> Option<&Entry>
        ensures { slice_get self.now index ≡ option_map (λ e. table_entry e.now) result }
    {
        self.items.get(index)
    }

    /// The entries in order.
    pub fn as_slice(&self) -> &[Entry]
        ensures { map table_entry result.now ≡ self.now }
    {
        &self.items
    }
}

/// What a variable stands for: one term, a tuple of terms, or a multiset of terms, kept as its sorted list.
/// `specs/Variables.antt` says which form a variable of a pattern has.
#[derive(Debug, Drop, Clone, Copy, PartialEq, Eq)]
pub enum Form {
    One,
    Seq,
    Bag,
}
