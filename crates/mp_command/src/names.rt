//! The names of rules.

ghost use Rattle.std.specs.Prelude.{◌≡◌, IfOk, map};
ghost use Rattle.mp_matches.specs.PairsListed.{named};
ghost use Rattle.mp_pattern.specs.RuleView.{rule_tree};
ghost use Rattle.mp_program.specs.ProgramView.{rule_view};

use mp_pattern::Rule;
use mp_program::ProgramRule;
use mp_term::{Memory, Name};
use std::alloc::Global;

/// The names of rules, in order.
pub fn rule_names(alloc: Global, rules: &[Rule]) -> Result<Vec<&Name>, Memory>
    ensures { IfOk result (λ ns. named ns.items ≡ map (λ r. r.name) (map rule_tree rules.now)) }
{
    let mut names = Vec::new(alloc);
    for rule in rules {
        names.push(&rule.name)?;
    }
    Ok(names)
}

/// The names of a program's rules, in order.
pub fn program_names(alloc: Global, rules: &[ProgramRule]) -> Result<Vec<&Name>, Memory>
    ensures { IfOk result (λ ns. named ns.items ≡ map (λ r. r.name) (map rule_view rules.now)) }
{
    let mut names = Vec::new(alloc);
    for rule in rules {
        names.push(&rule.name)?;
    }
    Ok(names)
}
