//! The match program of rules.

ghost use Rattle.std.specs.Prelude.{◌≡◌, suc, length, map, option_map, IfOk};
ghost use Rattle.mp_pattern.specs.CondView.{cond_tree};
ghost use Rattle.mp_pattern.specs.RuleView.{rule_tree};
ghost use Rattle.mp_many.specs.Prefixes.{prefixes};
ghost use Rattle.mp_program.specs.FormText.{program_text};
ghost use Rattle.mp_program.specs.Reading.{IsProgramOf, IsValid};
ghost use Rattle.mp_program.specs.RightForm.{IsShort};
ghost use Rattle.mp_program.specs.ProgramView.{program_view};
ghost use Rattle.mp_program.specs.RuleView.{rule_test, rule_line_view};
ghost use Rattle.mp_gen.specs.Generated.{spelled_condition, spelled_rule, generated};
ghost use Rattle.mp_gen.specs.Printable.{ArePrintable};

use crate::laws::a_generated_program_is_valid;
use mp_many::{Many, the_tree_is_of_the_prefixes};
use mp_pattern::{BoxedCond, Cond, Rule, copy_cond, variable_names};
use mp_program::{Program, RuleLine, RuleTest, rules_of};
use mp_term::Memory;
use std::alloc::Global;

// What the line of a rule with the condition says of it.
fn spelled(alloc: Global, condition: &Option<Cond>) -> Result<RuleTest, Memory>
    ensures { IfOk result (λ t. rule_test t ≡ spelled_condition (option_map cond_tree condition.now)) }
{
    match condition {
        None => Ok(RuleTest::Untested),
        Some(cond) => Ok(RuleTest::Spelled(BoxedCond::new(alloc, copy_cond(alloc, cond)?)?)),
    }
}

// The line of the rule.
fn line_of(alloc: Global, rule: &Rule) -> Result<RuleLine, Memory>
    ensures { IfOk result (λ l. rule_line_view l ≡ spelled_rule (rule_tree rule.now)) }
{
    let name = rule.name.copy(alloc)?;
    let vars = variable_names(alloc, &rule.pattern)?;
    let test = spelled(alloc, &rule.condition)?;
    Ok(RuleLine { name, vars, test })
}

// The lines of the rules.
fn lines_of(alloc: Global, rules: &[Rule]) -> Result<Vec<RuleLine>, Memory>
    ensures { IfOk result (λ ls. map rule_line_view ls.items ≡ map spelled_rule (map rule_tree rules.now)) }
{
    let mut lines = Vec::new(alloc);
    for rule in rules {
        lines.push(line_of(alloc, rule)?)?;
    }
    Ok(lines)
}

/// The program of the rules (`generated` of `specs/Generated.antt`): the rules in order, each distinct condition once,
/// as a test on numbered variables, and an instruction for each prefix of the rules' token lists, as many as `many` has
/// states. `Memory` comes where there is no room for it, or where a `u32` can't number its instructions with `begin`
/// and `stop`. Of rules that can be printed (`ArePrintable` of `specs/Printable.antt`) it is valid, and its printed
/// text is read as it.
pub fn generate(alloc: Global, many: &Many<'_>) -> Result<Program, Memory>
    ensures program { IfOk result (λ p. program_view p ≡ generated many.now.sig many.now.rules) }
    ensures short { IfOk result (λ p. IsShort (suc (length p.code))) }
    ensures instrs { IfOk result (λ p. length p.code ≡ length (prefixes many.now.sig many.now.rules)) }
    ensures again { IfOk result (λ p. ArePrintable many.now.sig many.now.rules
        → IsProgramOf many.now.sig (program_text many.now.sig (program_view p)) (program_view p)) }
    ensures valid { IfOk result (λ p. ArePrintable many.now.sig many.now.rules
        → IsValid many.now.sig (program_view p)) }
{
    let tree = many.code();
    if tree.len() >= u32::MAX as usize {
        return Err(Memory);
    }
    let lines = lines_of(alloc, many.rules().as_slice())?;
    let (rules, tests) = rules_of(alloc, many.sig(), lines)?;
    let code = tree.instrs().copy(alloc)?;
    the_tree_is_of_the_prefixes();
    a_generated_program_is_valid();
    Ok(Program { rules, tests, code })
}
