//! The walk of a subject over many rules at once.
ghost use Rattle.std.specs.Prelude.{◌≡◌, ◌≤◌, ◌↔◌, true, length, drop, slice_get, slice_index_or, Some, None, IsTrue};
ghost use Rattle.std.specs.Prelude.{IsSome, IsErr, IfOk, IfSome, OnOk, OnErr, MatchOption};
ghost use Rattle.mp_pattern.specs.Fits.{Fits, nothing};
ghost use Rattle.mp_pattern.specs.Instance.{is_fully_named, IsPatternApplied};
ghost use Rattle.mp_theory.specs.NoOptional.{HasNoOptional};
ghost use Rattle.mp_subst.specs.View.{subst_of};
ghost use Rattle.mp_table.specs.Table.{subject_of};
ghost use Rattle.mp_search.specs.Reading.{ReadsAs};
ghost use Rattle.mp_many.specs.RuleWalk.{Item};
ghost use Rattle.mp_many.specs.Many.{IsWalkTable};
ghost use Rattle.mp_many.specs.WalkItems.{AreWalkItems, HaveOneTable};

use crate::many::Many;
use mp_subst::Subst;
use mp_table::{Rank, Table};
use mp_term::Memory;
use mp_walk::{RankedPair, Walk as LeafWalk};
use std::alloc::Global;
use std::marker::Model;

/// A walk of a table's subject over the tree of many rules. Contracts see it as the record `RuleWalk` of
/// `specs/RuleWalk.antt`: the rules, the table, the item at which the walk stands and the items that are to come. An
/// item is a pair of a rule's number and a take table that fits the rule's pattern and the subject with some
/// substitution, whatever the rule's condition says.
#[derive(Drop)]
pub struct Walk<'a> {
    many: &'a Many<'a>,
    table: &'a Table,
    leaves: LeafWalk<'a>,
    // The rules of the leaf that are still to be given, the item's own first.
    accepts: &'a [u32],
}

impl<'a> Model for Walk<'a> {
    ghost use Rattle.mp_many.specs.RuleWalk as plain;
    ghost use Rattle.mp_many.specs.RuleWalk.{coded_walk};

    ghost Value = { plain.RuleWalk };

    ghost coded = { coded_walk };

    ghost use Rattle.mp_many.specs.RuleWalkView.{walk_view, IsWalk};

    ghost view = { walk_view };

    ghost invariant = { IsWalk };
}

impl<'a> Walk<'a> {
    /// A walk before its first item. Its items are exactly the pairs of a rule and a take table that fits, each once,
    /// in an order of their own (`AreWalkItems` of `specs/WalkItems.antt`); a rule whose pattern is fully named and has
    /// no optional wildcard has one item with a substitution (`HaveOneTable`). The table must be one that may be walked
    /// (`IsWalkTable` of `specs/Many.antt`). `Memory` comes where there is no room for the walk.
    pub fn begin(alloc: Global, many: &'a Many<'a>, table: &'a Table) -> Result<Walk<'a>, Memory>
        requires { IsWalkTable many.now table.now }
        ensures many { IfOk result (λ w. w.many ≡ many.now) }
        ensures table { IfOk result (λ w. w.table ≡ table.now) }
        ensures before { IfOk result (λ w. w.item ≡ None) }
        ensures items { IfOk result (λ w. AreWalkItems many.now.sig many.now.rules (subject_of table.now) w.to_come) }
        ensures one_table { IfOk result (λ w.
            HaveOneTable many.now.sig many.now.rules (subject_of table.now) w.to_come) }
    {
        let leaves = LeafWalk::begin(alloc, many.sig(), many.code(), table)?;
        Ok(Walk {
            many,
            table,
            leaves,
            accepts: &[],
        })
    }

    /// Goes on to the next item, and answers whether there was one. For want of memory it answers `Memory`, now and at
    /// each later call.
    pub fn next(&mut self) -> Result<bool, Memory>
        ensures item { OnOk result (self.new.item ≡ slice_get self.old.to_come 0) }
        ensures to_come { OnOk result (self.new.to_come ≡ drop 1 self.old.to_come) }
        ensures answer { IfOk result (λ b. IsTrue b ↔ IsSome self.new.item) }
        ensures failed { OnErr result (self.new.failed ≡ true) }
        ensures stays { self.old.failed ≡ true → IsErr result }
        ensures many { self.new.many ≡ self.old.many }
        ensures table { self.new.table ≡ self.old.table }
    {
        if self.accepts.len() > 1 {
            self.accepts = &self.accepts[1..];
            return Ok(true);
        }
        self.accepts = &self.accepts[..0];
        if !self.leaves.next()? {
            return Ok(false);
        }
        self.accepts = self.many.code().accepts(self.leaves.leaf());
        Ok(true)
    }

    /// The number of the item's rule. The walk stands at an item.
    pub fn rule(&self) -> u32
        requires { IsSome self.now.item }
        ensures { IfSome self.now.item (λ i. result ≡ i.0) }
    {
        self.accepts[0]
    }

    /// What the node of that number takes in the item's table, and whether it is collapsed: the nodes are those of the
    /// rule's pattern in preorder, from 0. It is None exactly where no node has the number. The walk stands at an item.
    pub fn entry(&self, node: u32) -> Option<(&[Rank], bool)>
        requires { IsSome self.now.item }
        ensures { (i : Item) → self.now.item ≡ Some i → MatchOption result (length i.1 ≤ node)
            (λ e. ReadsAs self.now.table (e.0.now, e.1) (slice_index_or i.1 node nothing)) }
    {
        self.leaves.entry(node)
    }

    /// The pair of the item's rule and the substitution with which the item's table fits, its values by ranks; where
    /// the rule's pattern is fully named and has no optional wildcard, its instance makes the subject
    /// (`IsPatternApplied` of mp_pattern's `specs/Instance.antt`). The walk stands at an item. `Memory` comes where
    /// there is no room for it.
    pub fn ranked(&self, alloc: Global) -> Result<RankedPair<'a>, Memory>
        requires { IsSome self.now.item }
        ensures rule { IfOk result (λ p. IfSome self.now.item (λ i. p.pair.0 ≡ i.0)) }
        ensures fits { IfOk result (λ p. IfSome self.now.item (λ i. IfSome (slice_get self.now.many.rules i.0)
            (λ r. Fits self.now.many.sig r.pattern (subject_of self.now.table) p.pair.1 i.1))) }
        ensures applied { IfOk result (λ p. IfSome self.now.item (λ i. IfSome (slice_get self.now.many.rules i.0)
            (λ r. is_fully_named r.pattern ≡ true → HasNoOptional r.pattern →
            IsPatternApplied self.now.many.sig r.pattern p.pair.1 (subject_of self.now.table)))) }
        ensures table { IfOk result (λ p. p.table ≡ self.now.table) }
    {
        let rule = self.accepts[0];
        RankedPair::new(
            alloc,
            rule,
            self.many.names(rule),
            self.table,
            self.leaves.trail(),
        )
    }

    /// The substitution of that pair, with copies of its terms. The walk stands at an item. `Memory` comes where there
    /// is no room for it.
    pub fn subst(&self, alloc: Global) -> Result<Subst, Memory>
        requires { IsSome self.now.item }
        ensures fits { IfOk result (λ s. IfSome self.now.item (λ i. IfSome (slice_get self.now.many.rules i.0)
            (λ r. Fits self.now.many.sig r.pattern (subject_of self.now.table) (subst_of s) i.1))) }
        ensures applied { IfOk result (λ s. IfSome self.now.item (λ i. IfSome (slice_get self.now.many.rules i.0)
            (λ r. is_fully_named r.pattern ≡ true → HasNoOptional r.pattern →
            IsPatternApplied self.now.many.sig r.pattern (subst_of s) (subject_of self.now.table)))) }
    {
        let pair = self.ranked(alloc)?;
        let subst = pair.to_subst(alloc)?;
        Ok(subst)
    }
}
