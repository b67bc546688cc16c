//! The lists and the trails in which a cursor searches.
ghost use Rattle.std.specs.Prelude.{◌≡◌, ◌<◌, ◌*◌, ◌^◌, [], IfOk, MatchBool, Some, drop, option_map, slice_get};
ghost use Rattle.mp_term.specs.Search.{In};
ghost use Rattle.mp_pattern.specs.CondView.{cond_tree};
ghost use Rattle.mp_theory.specs.Least.{is_least_item};
ghost use Rattle.mp_search.specs.Wanted.{IsStanding};
ghost use Rattle.mp_search.specs.declared.mode.Mode.TheVariants.{First, After};
ghost use Rattle.mp_cursor.specs.Matched.{IsMatched, IsDecidable, IsDecided, IsOnward, all_items, looked_for, sought};
ghost use Rattle.mp_cursor.specs.Matched.{search_room};
ghost use Rattle.mp_cursor.specs.Parts.{AreRoomy, AreVacant, AreOver, item_of, levels_table};
ghost use Rattle.mp_table.specs.Table.{subject_of};
ghost use Rattle.mp_cursor.specs.Listing.{ReadAs, StandForNone};

use crate::kept::{Kept, kept_takes};
use crate::least::has_least;
use crate::look::look;
use crate::matched::Matched;
use crate::takes::set_takes;
use mp_pattern::Cond;
use mp_search::{Grounds, Level, Mode, vacant_levels};
use mp_subst::{Mark, Trail};
use mp_term::Memory;
use mp_token::TokenEntries;
use std::alloc::Global;

// The levels, one for each node; the table that is kept; the trail of the first search and that of the second, which
// asks whether a table is the least of its substitution; the mark of an empty stack; and what is known of the nodes.
#[derive(Drop)]
pub(crate) struct Parts {
    pub(crate) levels: Vec<Level>,
    pub(crate) kept: Vec<Kept>,
    pub(crate) trail: Trail,
    pub(crate) second: Trail,
    pub(crate) start: Mark,
    pub(crate) grounds: Grounds,
}

impl Parts {
    // Room for so many nodes, variables and ranks at a node.
    pub(crate) fn new(alloc: Global, nodes: u32, vars: u32, width: u32) -> Result<Parts, Memory>
        requires { 2 * search_room nodes width < 2 ^ 32 }
        ensures roomy { IfOk result (AreRoomy nodes vars width) }
        ensures vacant { IfOk result (AreVacant width) }
    {
        let room = 2 * (width + 3 * nodes);
        let trail = Trail::new(alloc, vars, room)?;
        Ok(Parts {
            levels: vacant_levels(alloc, nodes as usize, width as usize)?,
            kept: kept_takes(alloc, nodes as usize, width as usize)?,
            start: trail.mark(),
            trail,
            second: Trail::new(alloc, vars, room)?,
            grounds: Grounds::new(alloc, nodes as usize)?,
        })
    }

    // Looks for the item that is wanted. True says that it is at hand.
    pub(crate) fn find(
        &mut self,
        matched: Matched<'_>,
        condition: Option<&Cond>,
        mode: Mode,
    ) -> bool
        requires matched { IsMatched matched }
        requires decidable { IsDecidable matched (option_map (λ c. cond_tree c.now) condition) }
        requires over { AreOver matched self.old }
        requires standing { IsStanding mode (levels_table matched self.old) (all_items matched []) }
        ensures found { let is = looked_for matched.entry (option_map (λ c. cond_tree c.now) condition.entry) mode
            (levels_table matched.entry self.old) [] in
            MatchBool result (slice_get is 0 ≡ Some (item_of matched.entry self.new)) (is ≡ []) }
        ensures over { AreOver matched.entry self.new }
    {
        self.trail.undo(self.start);
        look(
            matched,
            self.grounds.as_slice(),
            condition,
            &mut self.levels,
            &mut self.trail,
            mode,
        )
    }

    // Whether the table of the item at hand is the least of its substitution.
    pub(crate) fn is_least(&mut self, matched: Matched<'_>) -> bool
        requires matched { IsMatched matched }
        requires over { AreOver matched self.old }
        requires item { In (item_of matched self.old) (all_items matched []) }
        ensures least { result ≡ is_least_item matched.entry.sig.now matched.entry.plan.now.pattern
            (subject_of matched.entry.table.now) (item_of matched.entry self.old) }
        ensures item { item_of matched.entry self.new ≡ item_of matched.entry self.old }
        ensures over { AreOver matched.entry self.new }
    {
        self.second.refill(&self.trail);
        has_least(
            matched,
            self.grounds.as_slice(),
            &mut self.kept,
            &mut self.levels,
            &mut self.second,
        )
    }

    // The same, where it is told whether a substitution decides its table, and so has no other one.
    fn is_chosen(&mut self, matched: Matched<'_>, decides_table: bool) -> bool
        requires matched { IsMatched matched }
        requires over { AreOver matched self.old }
        requires item { In (item_of matched self.old) (all_items matched []) }
        requires decides { IsDecided matched decides_table }
        ensures least { result ≡ is_least_item matched.entry.sig.now matched.entry.plan.now.pattern
            (subject_of matched.entry.table.now) (item_of matched.entry self.old) }
        ensures item { item_of matched.entry self.new ≡ item_of matched.entry self.old }
        ensures over { AreOver matched.entry self.new }
    {
        decides_table || self.is_least(matched)
    }

    // Looks for the first item that is wanted whose table is the least of its substitution.
    pub(crate) fn advance(
        &mut self,
        matched: Matched<'_>,
        condition: Option<&Cond>,
        decides_table: bool,
        mode: Mode,
    ) -> bool
        requires matched { IsMatched matched }
        requires decidable { IsDecidable matched (option_map (λ c. cond_tree c.now) condition) }
        requires over { AreOver matched self.old }
        requires decides { IsDecided matched decides_table }
        requires mode { IsOnward mode }
        requires standing { IsStanding mode (levels_table matched self.old) (all_items matched []) }
        ensures found { let c = option_map (λ c. cond_tree c.now) condition.entry in
            let is = sought matched.entry c mode (levels_table matched.entry self.old) in
            MatchBool result ((slice_get is 0 ≡ Some (item_of matched.entry self.new))
            × (drop 1 is ≡ sought matched.entry c After (levels_table matched.entry self.new))) (is ≡ []) }
        ensures over { AreOver matched.entry self.new }
    {
        let mut mode = mode;
        while self.find(matched, condition, mode) {
            if self.is_chosen(matched, decides_table) {
                return true;
            }
            mode = Mode::After;
        }
        false
    }

    // Looks for the item whose table the entries are, if its table is the least of its substitution.
    pub(crate) fn stand_at(
        &mut self,
        matched: Matched<'_>,
        condition: Option<&Cond>,
        decides_table: bool,
        entries: &TokenEntries,
    ) -> bool
        requires matched { IsMatched matched }
        requires decidable { IsDecidable matched (option_map (λ c. cond_tree c.now) condition) }
        requires over { AreOver matched self.old }
        requires decides { IsDecided matched decides_table }
        ensures found { let is = sought matched.entry (option_map (λ c. cond_tree c.now) condition.entry) First
            (levels_table matched.entry self.old) in
            MatchBool result
            (In (item_of matched.entry self.new) is
            × ReadAs matched.entry.table.now entries.now (levels_table matched.entry self.new))
            (StandForNone matched.entry.table.now entries.now is) }
        ensures over { AreOver matched.entry self.new }
    {
        if !set_takes(&mut self.levels, matched.table, entries) {
            return false;
        }
        if !self.find(matched, condition, Mode::At) {
            return false;
        }
        self.is_chosen(matched, decides_table)
    }
}
