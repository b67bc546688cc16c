//! All that many rules admit on a subject.
ghost use Rattle.std.specs.Prelude.{◌≡◌, ◌≤◌, IfOk, IfSome, IsSome, option_map};
ghost use Rattle.mp_term.specs.Normal.{IsNormal};
ghost use Rattle.mp_term.specs.Size.{node_count};
ghost use Rattle.mp_pattern.specs.Admission.{meets};
ghost use Rattle.mp_pattern.specs.CondView.{cond_tree};
ghost use Rattle.mp_pattern.specs.Lists.{IsAllList};
ghost use Rattle.mp_pattern.specs.RuleView.{rule_tree};
ghost use Rattle.mp_pattern.specs.declared.limits.TheConstants.{MAX_TERM_NODES};
ghost use Rattle.mp_cond.specs.Ready.{IsReady};
ghost use Rattle.mp_walk.specs.Ranked.{pairs_of, AreOver};
ghost use Rattle.mp_many.specs.Given.{IsPairOf};
ghost use Rattle.mp_table.specs.Table.{subject_of};
ghost use Rattle.mp_many.specs.Many.{IsWalkTable};
ghost use Rattle.mp_many.specs.WalkItems.{IsWalkItem};

use crate::many::Many;
use crate::walk::Walk;
use mp_cond::holds;
use mp_pattern::Rule;
use mp_subst::Pairs;
use mp_table::Table;
use mp_term::{Memory, Signature};
use mp_walk::{Finds, RankedPair};
use std::alloc::Global;

// The rule's condition, where it has one, holds of the pair's substitution.
fn meets(alloc: Global, sig: &Signature, rule: &Rule, pair: &RankedPair<'_>) -> Result<bool, Memory>
    requires { IfSome rule.now.condition (λ c. IsReady pair.now.pair.1 (cond_tree c)) }
    ensures { IfOk result (λ b. b ≡ meets sig.now (rule_tree rule.now).condition pair.now.pair.1) }
{
    match &rule.condition {
        None => Ok(true),
        Some(condition) => Ok(holds(sig, condition, &pair.to_subst(alloc)?)),
    }
}

// The pair of the item at which the walk stands, where the rule's condition holds.
fn admitted<'a>(
    alloc: Global,
    many: &Many<'_>,
    walk: &Walk<'a>,
) -> Result<Option<RankedPair<'a>>, Memory>
    requires over { walk.now.many ≡ many.now }
    requires normal { IsNormal many.now.sig (subject_of walk.now.table) }
    requires few { node_count (subject_of walk.now.table) ≤ MAX_TERM_NODES }
    requires some { IsSome walk.now.item }
    requires item { IfSome walk.now.item (IsWalkItem many.now.sig many.now.rules (subject_of walk.now.table)) }
    ensures pair { IfOk result (λ o. IfSome walk.now.item (λ i.
        IsPairOf many.now.sig many.now.rules (subject_of walk.now.table) i (option_map (λ p. p.pair) o))) }
    ensures table { IfOk result (λ o. IfSome o (λ p. p.table ≡ walk.now.table)) }
{
    let Some(rule) = many.rules().get(walk.rule() as usize) else {
        unreachable!()
    };
    let pair = walk.ranked(alloc)?;
    if meets(alloc, many.sig(), rule, &pair)? {
        Ok(Some(pair))
    } else {
        Ok(None)
    }
}

impl<'a> Many<'a> {
    /// All that the rules admit on the table's subject, each pair once, in order (`IsAllList` of mp_pattern's
    /// `specs/Lists.antt`), with values by ranks in the table. The table must be one that may be walked (`IsWalkTable`
    /// of `specs/Many.antt`), as is that of a normal subject with the terms of `constants`. `Memory` comes where there
    /// is no room for the walk or the pairs.
    // What is found twice is dropped on the way, so the room for pairs is linear in their number.
    pub fn ranked<'t>(
        &'t self,
        alloc: Global,
        table: &'t Table,
    ) -> Result<Vec<RankedPair<'t>>, Memory>
        requires { IsWalkTable self.now table.now }
        ensures pairs { IfOk result
            (λ ps. IsAllList self.now.sig self.now.rules (subject_of table.now) (pairs_of ps.items)) }
        ensures table { IfOk result (λ ps. AreOver table.now ps.items) }
    {
        let mut walk = Walk::begin(alloc, self, table)?;
        let mut found = Finds::new(alloc, table);
        while walk.next()? {
            if let Some(pair) = admitted(alloc, self, &walk)? {
                found.add(pair)?;
            }
        }
        Ok(found.into_pairs())
    }

    /// The pairs that `ranked` gives, with copies of their terms, as a list in the same order (`IsAllList`). The table
    /// must be one that may be walked (`IsWalkTable`). `Memory` comes where there is no room for the walk or the pairs.
    pub fn all(&self, alloc: Global, table: &Table) -> Result<Pairs, Memory>
        requires { IsWalkTable self.now table.now }
        ensures { IfOk result (IsAllList self.now.sig self.now.rules (subject_of table.now)) }
    {
        let ranked = self.ranked(alloc, table)?;
        let mut pairs = Pairs::new(alloc);
        for pair in &ranked {
            pairs.push(pair.to_pair(alloc)?)?;
        }
        Ok(pairs)
    }
}
