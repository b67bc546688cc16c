//! The pairs that a walk finds, and their list in order.
ghost use Rattle.std.specs.Prelude.{◌≡◌, ◌↔◌, [], ◌∷◌, ◌++◌, IsTrue, OnOk, Contains};
ghost use Rattle.std.specs.List.Sorted.{IsStrictlySortedBy};
ghost use Rattle.mp_term.specs.Listing.{IsListing};
ghost use Rattle.mp_pattern.specs.Lists as lists;
ghost use Rattle.mp_table.specs.Table as tables;
ghost use Rattle.mp_walk.specs.Found.{found_cmp};
ghost use Rattle.mp_walk.specs.Ranked.{pairs_of, AreOver};

use crate::ranked::RankedPair;
use mp_table::Table;
use mp_term::Memory;
use std::alloc::Global;
use std::marker::Model;

// As many pairs are kept at first before those that stand twice are dropped.
const FEW: usize = 64;

// Puts the pairs in order, each once; they are so where they ascend.
fn compact(found: &mut Vec<RankedPair<'_>>, ascending: bool)
    requires { IsTrue ascending → IsStrictlySortedBy found_cmp (pairs_of found.old.items) }
    ensures pairs { IsListing found_cmp (Contains (pairs_of found.old.items)) (pairs_of found.new.items) }
    ensures over { (t : tables.Table) → AreOver t found.old.items → AreOver t found.new.items }
{
    if !ascending {
        found.sort_unstable();
        found.dedup();
    }
}

// Where there are so many pairs those that stand twice are dropped. It answers how many may be kept from now on, which
// are twice as many as are left, and more.
fn make_room(found: &mut Vec<RankedPair<'_>>, most: usize) -> usize
    ensures pairs { (p : lists.Pair) → Contains (pairs_of found.new.items) p ↔ Contains (pairs_of found.old.items) p }
    ensures over { (t : tables.Table) → AreOver t found.old.items → AreOver t found.new.items }
{
    if found.len() < most {
        return most;
    }
    compact(found, false);
    found.len().saturating_mul(2).saturating_add(FEW)
}

// The pair comes after the last one, where there is one.
fn follows(found: &[RankedPair<'_>], pair: &RankedPair<'_>) -> bool
    ensures { IsTrue result → IsStrictlySortedBy found_cmp (pairs_of found.now)
        → IsStrictlySortedBy found_cmp (pairs_of found.now ++ pair.now.pair ∷ []) }
{
    let count = found.len();
    count == 0 || found[count - 1].cmp(pair).is_lt()
}

/// The pairs that a walk has found, whose values are by ranks in one table. Contracts see it as the record `Finds` of
/// `specs/FindsView.antt`: the table, and the list of the pairs that are kept, which are all that were added, but what
/// stood twice may stand there once. They are given in the order `found_cmp` of `specs/Found.antt`.
#[derive(Drop)]
pub struct Finds<'a> {
    table: &'a Table,
    found: Vec<RankedPair<'a>>,
    // Whether they ascend.
    ascending: bool,
    // How many of them may be kept where they don't, before those that stand twice are dropped.
    most: usize,
}

impl<'a> Model for Finds<'a> {
    ghost use Rattle.std.specs.Prelude.{IsTrue};
    ghost use Rattle.std.specs.List.Sorted.{IsStrictlySortedBy};
    ghost use Rattle.mp_walk.specs.FindsView as plain;
    ghost use Rattle.mp_walk.specs.FindsView.{coded_finds};
    ghost use Rattle.mp_walk.specs.Found.{found_cmp};
    ghost use Rattle.mp_walk.specs.Ranked.{pairs_of, AreOver};

    ghost Value = { plain.Finds };

    ghost coded = { coded_finds };

    ghost view = { λ f. record { table = f.table.now; pairs = pairs_of f.found.items } };

    ghost invariant = { λ f. (IsTrue f.ascending → IsStrictlySortedBy found_cmp (pairs_of f.found.items))
        × AreOver f.table.now f.found.items };
}

impl<'a> Finds<'a> {
    /// No pairs, over the table. It takes no memory.
    pub fn new(alloc: Global, table: &'a Table) -> Finds<'a>
        ensures none { result.pairs ≡ [] }
        ensures table { result.table ≡ table.now }
    {
        Finds {
            table,
            found: Vec::new(alloc),
            ascending: true,
            most: FEW,
        }
    }

    /// Adds a pair over the table: kept are then exactly those that were, and this one. `Memory` comes where there is
    /// no room for the pair: then it is dropped, and nothing is promised of those that are kept.
    // What stands twice is dropped on the way, so the room is linear in the number of the distinct ones.
    pub fn add(&mut self, pair: RankedPair<'a>) -> Result<(), Memory>
        requires { pair.table ≡ self.old.table }
        ensures pairs { OnOk result ((p : lists.Pair) →
            Contains self.new.pairs p ↔ Contains (self.old.pairs ++ pair.entry.pair ∷ []) p) }
        ensures table { self.new.table ≡ self.old.table }
    {
        if self.ascending {
            self.ascending = follows(&self.found, &pair);
        } else {
            self.most = make_room(&mut self.found, self.most);
        }
        self.found.push(pair)?;
        Ok(())
    }

    /// The pairs that are kept, all over the table, each once, ascending in the order `found_cmp` of
    /// `specs/Found.antt`. It takes no memory.
    pub fn into_pairs(self) -> Vec<RankedPair<'a>>
        ensures pairs { IsListing found_cmp (Contains self.entry.pairs) (pairs_of result.items) }
        ensures over { AreOver self.entry.table result.items }
    {
        let Finds {
            mut found,
            ascending,
            ..
        } = self;
        compact(&mut found, ascending);
        found
    }
}
