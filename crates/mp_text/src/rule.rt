//! Makes rules of syntax trees, and checks them on the way.

ghost use Rattle.std.specs.Prelude.{◌≡◌, ◌||◌, ◌++◌, Some, map, option_map, IfOk};
ghost use Rattle.mp_pattern.specs.CondView.{cond_tree};
ghost use Rattle.mp_pattern.specs.TemplateView.{template_tree};
ghost use Rattle.mp_pattern.specs.RuleView.{rule_tree};
ghost use Rattle.mp_pattern.specs.View.{pattern_tree};
ghost use Rattle.mp_parser.specs.View.{spot_of, expr_tree, arrow_tree, if_tree};
ghost use Rattle.mp_build.specs.Answers.{Gives};
ghost use Rattle.mp_build.specs.Build.{template_of};
ghost use Rattle.mp_build.specs.Scope.{pattern_variables};
ghost use Rattle.mp_build.specs.ScopeView.{scope_of, variable_of};
ghost use Rattle.mp_build.specs.WildcardView.{wildcard_view};
ghost use Rattle.mp_build.specs.Conditions.{condition_of};
ghost use Rattle.mp_text.specs.FileBuild.{rule_of};
ghost use Rattle.mp_build.specs.ConditionChecks.{has_large_condition, if_faults};
ghost use Rattle.mp_build.specs.TemplateChecks.{has_large_template, arrow_faults};
ghost use Rattle.mp_text.specs.FileChecks.{rule_faults, is_large_rule};
ghost use Rattle.mp_text.specs.ReadRule.{wildcard_variable};

use crate::template::{has_large_template, rule_template};
use mp_build::{
    PatternWildcard, Scope, TextError, Variable, build_condition, is_large_condition,
    is_large_pattern, new_name, normal_pattern, pattern_variables,
};
use mp_pattern::{Cond, Pattern, Rule, Template};
use mp_syntax::{Condition, Expr, Word};
use mp_term::{Name, Signature};
use std::alloc::{AllocError, Global};

/// The condition of a rule over the variables that it may name, where it has one, or its first fault.
fn rule_condition(
    alloc: Global,
    sig: &Signature,
    scope: &Scope<'_>,
    condition: &Option<Condition<'_>>,
) -> Result<Option<Cond>, TextError>
    ensures { Gives result (if_faults sig.now (scope_of scope.now) (if_tree condition.now))
        (λ c. option_map cond_tree c ≡ condition_of sig.now (if_tree condition.now)) }
{
    match condition {
        None => Ok(None),
        Some(condition) => {
            let cond = build_condition(alloc, sig, scope, condition)?;
            Ok(Some(cond))
        }
    }
}

/// The condition of a rule, where it has one, is larger than it may be.
fn has_large_condition(condition: &Option<Condition<'_>>) -> bool
    ensures { result ≡ has_large_condition (if_tree condition.now) }
{
    match condition {
        None => false,
        Some(condition) => is_large_condition(condition),
    }
}

/// The template of a rule or its condition, where it has them, is larger than it may be.
pub(crate) fn has_large_result(
    template: &Option<&Expr<'_>>,
    condition: &Option<Condition<'_>>,
) -> bool
    ensures { result ≡ (has_large_template (arrow_tree template.now) || has_large_condition (if_tree condition.now)) }
{
    has_large_template(template) || has_large_condition(condition)
}

/// The pattern of a rule, its template or its condition is larger than it may be.
pub fn is_large_rule(
    alloc: Global,
    pattern: &Expr<'_>,
    template: &Option<&Expr<'_>>,
    condition: &Option<Condition<'_>>,
) -> Result<bool, AllocError>
    ensures { IfOk result
        (λ large. large ≡ is_large_rule (expr_tree pattern.now) (arrow_tree template.now) (if_tree condition.now)) }
{
    if is_large_pattern(alloc, pattern)? {
        return Ok(true);
    }
    Ok(has_large_result(template, condition))
}

/// The template of a rule and its condition over the variables that they may name, where it has them, or their first
/// fault.
fn results_over<'a>(
    alloc: Global,
    sig: &Signature,
    variables: Vec<Variable<'a>>,
    template: &Option<&Expr<'a>>,
    condition: &Option<Condition<'_>>,
) -> Result<(Option<Template>, Option<Cond>), TextError>
    ensures { Gives result
        (arrow_faults (map variable_of variables.entry.items) sig.now (arrow_tree template.now)
        ++ if_faults sig.now (Some (map variable_of variables.entry.items)) (if_tree condition.now))
        (λ r. (option_map template_tree r.0 ≡ option_map (template_of sig.now) (arrow_tree template.now))
        × (option_map cond_tree r.1 ≡ condition_of sig.now (if_tree condition.now))) }
{
    let template = rule_template(alloc, sig, &variables, template)?;
    let condition = rule_condition(alloc, sig, &Scope::Among(variables), condition)?;
    Ok((template, condition))
}

/// The variables of wildcards, one for each, in order.
fn wildcard_variables<'a>(
    alloc: Global,
    wildcards: &[PatternWildcard<'a>],
) -> Result<Vec<Variable<'a>>, AllocError>
    ensures { IfOk result (λ vs. map variable_of vs.items ≡ map wildcard_variable (map wildcard_view wildcards.now)) }
{
    let mut variables = Vec::with_capacity(alloc, wildcards.len())?;
    for found in wildcards {
        variables.push(Variable {
            name: found.wildcard.name,
            extent: found.extent,
        })?;
    }
    Ok(variables)
}

/// The template of a rule and its condition, where it has them, or their first fault, where these are the wildcards of
/// its pattern.
///
/// Their variables, which both may name, are gathered where there is one of them.
pub(crate) fn results_behind<'a>(
    alloc: Global,
    sig: &Signature,
    wildcards: &[PatternWildcard<'a>],
    template: &Option<&Expr<'a>>,
    condition: &Option<Condition<'_>>,
) -> Result<(Option<Template>, Option<Cond>), TextError>
    ensures { Gives result
        (arrow_faults (map wildcard_variable (map wildcard_view wildcards.now)) sig.now (arrow_tree template.now)
        ++ if_faults sig.now (Some (map wildcard_variable (map wildcard_view wildcards.now))) (if_tree condition.now))
        (λ r. (option_map template_tree r.0 ≡ option_map (template_of sig.now) (arrow_tree template.now))
        × (option_map cond_tree r.1 ≡ condition_of sig.now (if_tree condition.now))) }
{
    if let (None, None) = (template, condition) {
        return Ok((None, None));
    }
    let variables = wildcard_variables(alloc, wildcards)?;
    results_over(alloc, sig, variables, template, condition)
}

/// The template of a rule and its condition, where it has them, or their first fault.
///
/// The variables of the pattern, which they may name, are gathered where there is one of them.
fn rule_results<'a>(
    alloc: Global,
    sig: &Signature,
    pattern: &Expr<'a>,
    template: &Option<&Expr<'a>>,
    condition: &Option<Condition<'_>>,
) -> Result<(Option<Template>, Option<Cond>), TextError>
    ensures { Gives result
        (arrow_faults (pattern_variables (expr_tree pattern.now)) sig.now (arrow_tree template.now)
        ++ if_faults sig.now (Some (pattern_variables (expr_tree pattern.now))) (if_tree condition.now))
        (λ r. (option_map template_tree r.0 ≡ option_map (template_of sig.now) (arrow_tree template.now))
        × (option_map cond_tree r.1 ≡ condition_of sig.now (if_tree condition.now))) }
{
    if let (None, None) = (template, condition) {
        return Ok((None, None));
    }
    let variables = pattern_variables(alloc, pattern)?;
    results_over(alloc, sig, variables, template, condition)
}

/// The rule of a name, a pattern, and a template and a condition, where it has them.
pub(crate) fn rule_with(
    name: Name,
    pattern: Pattern,
    results: (Option<Template>, Option<Cond>),
) -> Rule
    ensures { rule_tree result ≡ record {
      name = name;
      pattern = pattern_tree pattern;
      template = option_map template_tree results.0;
      condition = option_map cond_tree results.1;
    } }
{
    let (template, condition) = results;
    Rule {
        name,
        pattern,
        template,
        condition,
    }
}

/// A rule, with its pattern in normal form and its template as it is written, or its first fault behind its name.
pub fn build_rule<'a>(
    alloc: Global,
    sig: &Signature,
    name: Word<'_>,
    pattern: &Expr<'a>,
    template: &Option<&Expr<'a>>,
    condition: &Option<Condition<'_>>,
) -> Result<Rule, TextError>
    ensures { Gives result
        (rule_faults sig.now (expr_tree pattern.now) (arrow_tree template.now) (if_tree condition.now))
        (λ r. rule_tree r ≡ rule_of sig.now (spot_of name.entry) (expr_tree pattern.now) (arrow_tree template.now)
        (if_tree condition.now)) }
{
    let name = new_name(alloc, name)?;
    let normal = normal_pattern(alloc, sig, pattern)?;
    let results = rule_results(alloc, sig, pattern, template, condition)?;
    Ok(rule_with(name, normal, results))
}
