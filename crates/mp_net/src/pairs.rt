//! What a rule admits, by what was read of a subject.
ghost use Rattle.std.specs.Prelude.{◌≡◌, ◌++◌, true, [], option_map, IfOk, OnOk};
ghost use Rattle.std.specs.List.{AllByRecursion, cons_option};
ghost use Rattle.mp_pattern.specs.RuleView.{rule_tree};
ghost use Rattle.mp_pattern.specs.SoundRule.{IsSoundRule};
ghost use Rattle.mp_pattern.specs.View.{pattern_tree};
ghost use Rattle.mp_subst.specs.View.{subst_of};
ghost use Rattle.mp_table.specs.Table.{IsTable, subject_of};
ghost use Rattle.mp_net.specs.AllList.{tested};
ghost use Rattle.mp_net.specs.Nets.{is_syntactic_rule};
ghost use Rattle.mp_theory.specs.Shape.{shape};
ghost use Rattle.mp_net.specs.Walk.{visits, IsSeen, IsRead};

use crate::taken::{follow, to_subst};
use crate::visit::Seen;
use mp_cond::meets;
use mp_pattern::Rule;
use mp_subst::{Pair, Pairs, Subst};
use mp_table::Table;
use mp_term::{Memory, Signature};
use std::alloc::Global;

// The substitution of a rule of the shape, where it admits one, by what was read of the subject.
pub(crate) fn tested(
    alloc: Global,
    sig: &Signature,
    table: &Table,
    rule: &Rule,
    trace: &[Seen<'_>],
) -> Result<Option<Subst>, Memory>
    requires table { IsTable table.now }
    requires seen { AllByRecursion (IsSeen table.now) trace.now }
    requires syntactic { is_syntactic_rule sig.now (rule_tree rule.now) ≡ true }
    requires sound { IsSoundRule sig.now (rule_tree rule.now) }
    requires shape { shape (pattern_tree rule.now.pattern) (subject_of table.now) ≡ true }
    requires read { IsRead (pattern_tree rule.now.pattern) (subject_of table.now) (visits table.now trace.now) [] }
    ensures { IfOk result
        (λ o. option_map subst_of o ≡ tested sig.now (subject_of table.now) (rule_tree rule.now)) }
{
    let mut taken = Vec::new(alloc);
    let Some(_) = follow(sig, table, &rule.pattern, trace, &mut taken)? else {
        return Ok(None);
    };
    let subst = to_subst(alloc, table, &taken)?;
    if meets(sig, rule, &subst) {
        Ok(Some(subst))
    } else {
        Ok(None)
    }
}

// Adds the pair of a rule, where there is a substitution.
pub(crate) fn push_pair(pairs: &mut Pairs, rule: u32, subst: Option<Subst>) -> Result<(), Memory>
    ensures { OnOk result
        (pairs.new ≡ pairs.old ++ cons_option (option_map (λ s. (rule, subst_of s)) subst) []) }
{
    match subst {
        None => Ok(()),
        Some(subst) => pairs.push(Pair { rule, subst }),
    }
}
