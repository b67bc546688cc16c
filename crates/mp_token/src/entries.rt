//! The entries of tokens.

ghost use Rattle.std.specs.Prelude.{◌≡◌, [], ◌∷◌, ◌++◌, length, slice_get, option_map, OnOk, OnErr};

use mp_table::Rank;
use mp_term::Memory;
use std::alloc::Global;
use std::marker::Model;

// The ranks of the terms of an entry, and whether it is collapsed.
#[derive(Drop)]
struct TokenEntry {
    ranks: Vec<Rank>,
    collapsed: bool,
}

/// The entries of a token. Contracts see the list of the entries, each as the pair of the list of its ranks and of the
/// mark that says whether it is collapsed.
#[derive(Drop)]
pub struct TokenEntries {
    alloc: Global,
    items: Vec<TokenEntry>,
}

impl Model for TokenEntries {
    ghost use Rattle.std.specs.Prelude.{List};
    ghost use Rattle.std.specs.Coded.{coded_list};
    ghost use Rattle.mp_token.specs.Entry.{Entry, coded_entry};

    ghost Value = { List Entry };

    ghost coded = { coded_list coded_entry };

    ghost use Rattle.mp_token.specs.EntriesView.{entries_of};

    ghost view = { entries_of };
}

impl TokenEntries {
    /// No entries. It takes no memory.
    pub fn new(alloc: Global) -> TokenEntries
        ensures { result ≡ [] }
    {
        TokenEntries {
            alloc,
            items: Vec::new(alloc),
        }
    }

    /// Adds an entry behind the others: a copy of the ranks, and whether it is collapsed.
    ///
    /// `Memory`: there was no memory, and the entries are as before.
    pub fn push(&mut self, ranks: &[Rank], collapsed: bool) -> Result<(), Memory>
        ensures ok { OnOk result (self.new ≡ self.old ++ (ranks.now, collapsed) ∷ []) }
        ensures err { OnErr result (self.new ≡ self.old) }
    {
        let ranks = Vec::from_slice(self.alloc, ranks)?;
        self.items.push(TokenEntry { ranks, collapsed })?;
        Ok(())
    }

    /// The number of entries.
    pub fn len(&self) -> usize
        ensures { result ≡ length self.now }
    {
        self.items.len()
    }

    /// The ranks of the entry at an index from 0, and whether it is collapsed. It is None exactly where the index isn't
    /// below the length.
    pub fn get(&self, index: usize) -> Option<(&[Rank], bool)>
        ensures { slice_get self.now index ≡ option_map (λ e. (e.0.now, e.1)) result }
    {
        match self.items.get(index) {
            Some(entry) => Some((entry.ranks.as_slice(), entry.collapsed)),
            None => None,
        }
    }
}
