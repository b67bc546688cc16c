//! The operations that a walk has open.
ghost use Rattle.std.specs.Prelude.{◌≡◌, ◌≤◌, false, true, nat_eq, [], ◌∷◌, drop, length};
ghost use Rattle.std.specs.Prelude.{None, Some};
ghost use Rattle.std.specs.Prelude.{ℕ, List, MatchOption, IfSome};
ghost use Rattle.std.specs.Str.{bytes_eq};
ghost use Rattle.mp_table.specs.Table.{HasRank, term_at, subject_of};
ghost use Rattle.mp_theory.specs.Frames.{is_done};
ghost use Rattle.mp_walk.specs.Keys.{name_key};
ghost use Rattle.mp_walk.specs.OpenOnes.{IsFrame, open_of};
ghost use Rattle.mp_walk.specs.TokenMachine.{begin_state, opened};
ghost use Rattle.mp_walk.specs.Ways.{first_entry, is_first_symbol};

use crate::key::name_key;
use mp_table::{Head, Rank, Table};
use mp_term::OpId;

// An open operation: the terms that its children are still to take; whether it is collapsed, so that they take one term
// alone; whether a child must be left out; and the place of the operation around it.
#[derive(Clone, Copy)]
pub(crate) struct Frame<'a> {
    pub(crate) under: Option<OpId>,
    pub(crate) left: &'a [Rank],
    pub(crate) collapsed: bool,
    pub(crate) owes: bool,
    pub(crate) outer: Option<usize>,
}

impl<'a> Frame<'a> {
    // The frame of the root, whose child takes the table's subject.
    pub(crate) fn root(table: &'a Table) -> Frame<'a>
        ensures frame { IsFrame table.now result }
        ensures open { open_of table.now result ∷ [] ≡ (begin_state (subject_of table.now)).open_ones }
        ensures under { result.under ≡ None }
        ensures outer { result.outer ≡ None }
    {
        Frame {
            under: None,
            left: table.root_list(),
            collapsed: false,
            owes: false,
            outer: None,
        }
    }

    // The frame of an application of the operation in this one: its children take the arguments of the first term that
    // is left, or that term alone, where it is collapsed.
    pub(crate) fn entered(
        &self,
        table: &'a Table,
        op: OpId,
        collapsed: bool,
        outer: usize,
    ) -> Frame<'a>
        requires frame { IsFrame table.now self.now }
        requires some { 1 ≤ length (open_of table.now self.now).left }
        ensures frame { IsFrame table.now result }
        ensures open { (way : ℕ) → collapsed ≡ nat_eq way 1
            → open_of table.now result ≡ opened op.0 (first_entry (open_of table.now self.now).left way) }
        ensures under { result.under ≡ Some op }
        ensures outer { result.outer ≡ Some outer }
    {
        let left = if collapsed {
            &self.left[..1]
        } else {
            table.args(self.left[0])
        };
        Frame {
            under: Some(op),
            left,
            collapsed,
            owes: collapsed,
            outer: Some(outer),
        }
    }

    // The first term that is left, if there is one.
    pub(crate) fn first(&self, table: &Table) -> Option<Rank>
        requires { IsFrame table.now self.now }
        ensures term { MatchOption result ((open_of table.now self.now).left ≡ [])
            (λ r. (open_of table.now self.now).left ≡ term_at table.now r ∷ drop 1 (open_of table.now self.now).left) }
        ensures rank { IfSome result (HasRank table.now) }
    {
        let _ = table;
        match self.left {
            [] => None,
            [first, ..] => Some(*first),
        }
    }

    // The bytes of the first term that is left, if that is a symbol.
    pub(crate) fn first_name<'t>(&self, table: &'t Table) -> Option<&'t [u8]>
        requires { IsFrame table.now self.now }
        ensures { (name : List ℕ) → MatchOption result
            (is_first_symbol name (open_of table.now self.now).left ≡ false)
            (λ own. is_first_symbol name (open_of table.now self.now).left ≡ bytes_eq own.now name) }
    {
        let first = self.first(table)?;
        match table.head(first) {
            Head::Sym(name) => Some(name.bytes()),
            Head::App(_) => None,
        }
    }

    // The key of the first term that is left, if that is a symbol.
    pub(crate) fn first_key(&self, table: &Table) -> u32
        requires { IsFrame table.now self.now }
        ensures { (name : List ℕ) → is_first_symbol name (open_of table.now self.now).left ≡ true
            → result ≡ name_key name }
    {
        match self.first_name(table) {
            None => 0,
            Some(name) => name_key(name),
        }
    }

    // Nothing is left, and nothing is owed.
    pub(crate) fn is_done(&self, table: &Table) -> bool
        requires { IsFrame table.now self.now }
        ensures { result ≡ is_done (open_of table.now self.now).left self.now.owes }
    {
        let _ = table;
        self.left.is_empty() && !self.owes
    }

    // The frame once a child has taken so many terms.
    pub(crate) fn behind(self, table: &Table, count: usize) -> Frame<'a>
        requires frame { IsFrame table.now self }
        requires count { count ≤ length (open_of table.now self).left }
        ensures frame { IsFrame table.now result }
        ensures open { open_of table.now result
            ≡ record (open_of table.now self.entry) { left = drop count (open_of table.now self.entry).left } }
        ensures outer { result.outer ≡ self.entry.outer }
    {
        let _ = table;
        Frame {
            left: &self.left[count..],
            ..self
        }
    }

    // The frame once a child is left out.
    pub(crate) fn settled(self, table: &Table) -> Frame<'a>
        requires frame { IsFrame table.now self }
        ensures frame { IsFrame table.now result }
        ensures open { open_of table.now result ≡ record (open_of table.now self.entry) { owes = false } }
        ensures outer { result.outer ≡ self.entry.outer }
    {
        let _ = table;
        Frame {
            owes: false,
            ..self
        }
    }
}
