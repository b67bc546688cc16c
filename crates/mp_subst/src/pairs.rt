//! Lists of pairs.
ghost use Rattle.std.specs.Prelude.{◌≡◌, [], ◌∷◌, ◌++◌, length, map, slice_get, OnOk, OnErr, option_map};
ghost use Rattle.mp_subst.specs.View.{pair_of};

use crate::pair::Pair;
use mp_term::Memory;
use std::alloc::Global;
use std::marker::Model;

/// A list of pairs, seen by contracts as the list of their plain pairs (`pair_of` of mp_subst's `specs/View.antt`).
#[derive(Drop)]
pub struct Pairs {
    items: Vec<Pair>,
}

impl Model for Pairs {
    ghost use Rattle.std.specs.Prelude.{List, map};
    ghost use Rattle.std.specs.Coded.{coded_list};
    ghost use Rattle.mp_pattern.specs.Lists as lists;
    ghost use Rattle.mp_subst.specs.Code.{coded_pair};

    ghost Value = { List lists.Pair };

    ghost coded = { coded_list coded_pair };

    ghost use Rattle.mp_subst.specs.View.{pair_of};

    ghost view = { λ ps. map pair_of ps.items.items };
}

impl Pairs {
    /// The empty list. It takes no memory.
    pub fn new(alloc: Global) -> Self
        ensures { result ≡ [] }
    {
        Pairs {
            items: Vec::new(alloc),
        }
    }

    /// Adds a pair at the end. For want of memory it answers `Memory`, drops the pair and leaves the list as it was.
    pub fn push(&mut self, item: Pair) -> Result<(), Memory>
        ensures ok { OnOk result (self.new ≡ self.old ++ pair_of item ∷ []) }
        ensures err { OnErr result (self.new ≡ self.old) }
    {
        self.items.push(item)?;
        Ok(())
    }

    /// How many pairs there are.
    pub fn len(&self) -> usize
        ensures { result ≡ length self.now }
    {
        self.items.len()
    }

    /// The pair at the index, from 0. It is None exactly where the index isn't below the length.
    pub fn get(&self, index: usize) -> Option<&Pair>
        ensures { slice_get self.now index ≡ option_map (λ p. pair_of p.now) result }
    {
        self.items.get(index)
    }

    /// The pairs in order.
    pub fn as_slice(&self) -> &[Pair]
        ensures { map pair_of result.now ≡ self.now }
    {
        &self.items
    }
}
