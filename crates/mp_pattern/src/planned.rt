//! Rules made ready for matching: each with its plan and its constants.
ghost use Rattle.std.specs.Prelude.{◌≡◌, ◌∷◌, [], map, IfOk};
ghost use Rattle.std.specs.List.{AllByRecursion};
ghost use Rattle.mp_pattern.specs.RuleView.{rule_tree};
ghost use Rattle.mp_pattern.specs.SoundRule.{IsSoundRule};
ghost use Rattle.mp_pattern.specs.Planned.{IsPlanned, planned_rule, rule_plan};

use crate::compile::PlanFault;
use crate::constant::rule_constants;
use crate::plan::Plan;
use crate::rule::Rule;
use mp_term::{Memory, Signature, Terms};
use std::alloc::Global;

/// A rule with the plan of its pattern and with its constants. What holds of it is `IsPlanned` of `specs/Planned.antt`.
#[derive(Drop)]
pub struct PlannedRule<'a> {
    /// The rule.
    pub rule: &'a Rule,
    /// The plan of its pattern.
    pub plan: Plan,
    /// Its constants, ascending and without repeats.
    pub constants: Terms,
}

// The rule with its plan and its constants.
fn plan_rule<'a>(alloc: Global, sig: &Signature, rule: &'a Rule) -> Result<PlannedRule<'a>, Memory>
    requires { IsSoundRule sig.now (rule_tree rule.now) }
    ensures rule { IfOk result (λ p. planned_rule p ≡ rule_tree rule.now) }
    ensures planned { IfOk result (λ p. IsPlanned sig.now (rule_plan p)) }
{
    let constants = rule_constants(alloc, rule)?;
    match Plan::compile(alloc, sig, &rule.pattern) {
        Ok(plan) => Ok(PlannedRule {
            rule,
            plan,
            constants,
        }),
        Err(fault) => {
            prove!(matches!(fault, PlanFault::Memory));
            Err(Memory)
        }
    }
}

/// The rules in order, each with the plan of its pattern and with its constants. The rules must be sound over the
/// signature (`IsSoundRule` of `specs/SoundRule.antt`), and so each pattern has a plan. `Memory` comes where there is
/// no room for them.
pub fn plan_rules<'a>(
    alloc: Global,
    sig: &Signature,
    rules: &'a [Rule],
) -> Result<Vec<PlannedRule<'a>>, Memory>
    requires { AllByRecursion (IsSoundRule sig.now) (map rule_tree rules.now) }
    ensures rules { IfOk result (λ ps. map planned_rule ps.items ≡ map rule_tree rules.now) }
    ensures planned { IfOk result (λ ps. AllByRecursion (IsPlanned sig.now) (map rule_plan ps.items)) }
{
    let mut all = Vec::new(alloc);
    for rule in rules {
        all.push(plan_rule(alloc, sig, rule)?)?;
    }
    Ok(all)
}
