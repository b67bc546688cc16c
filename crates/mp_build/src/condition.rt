//! Makes conditions of syntax trees, and checks them on the way.

ghost use Rattle.std.specs.Prelude.{◌≡◌, [], map};
ghost use Rattle.mp_pattern.specs.CondView.{cond_tree};
ghost use Rattle.mp_parser.specs.Syntax.{condition, literals};
ghost use Rattle.mp_parser.specs.View.{literal_tree, alternative_tree, condition_tree};
ghost use Rattle.mp_build.specs.Answers.{Gives};
ghost use Rattle.mp_build.specs.Conditions.{negated_if, literal_of, alternative_of, cond_of};
ghost use Rattle.mp_build.specs.ConditionChecks.{literal_faults, literals_faults, condition_faults};
ghost use Rattle.mp_build.specs.ScopeView.{scope_of};

use crate::atom::build_atom;
use crate::fault::TextError;
use crate::scope::Scope;
use mp_pattern::{BoxedCond, Cond, Conds};
use mp_syntax::{Alternative, Condition, Literal};
use mp_term::Signature;
use std::alloc::Global;

/// The condition, or its negation.
fn negate_if(alloc: Global, negated: bool, cond: Cond) -> Result<Cond, TextError>
    ensures { Gives result [] (λ c. cond_tree c ≡ negated_if negated (cond_tree cond)) }
{
    if !negated {
        return Ok(cond);
    }
    let cond = BoxedCond::new(alloc, cond)?;
    Ok(Cond::Not(cond))
}

/// The condition of a syntax tree, with its terms in normal form: `cond_of` of `specs/Conditions.antt`.
///
/// `scope` has the variables that it may name.
///
/// - `Text`: its first fault, by `condition_faults` of `specs/ConditionChecks.antt`.
/// - `Memory`: memory ran out.
#[cycle(build_condition)]
pub fn build_condition(
    alloc: Global,
    sig: &Signature,
    scope: &Scope<'_>,
    condition: &Condition<'_>,
) -> Result<Cond, TextError>
    ensures { Gives result (condition_faults sig.now (scope_of scope.now) (condition_tree condition.now))
        (λ c. cond_tree c ≡ cond_of sig.now (condition_tree condition.now)) }
{
    let alternatives = condition.alternatives.as_slice();
    if alternatives.len() == 1 {
        return build_alternative(alloc, sig, scope, &alternatives[0]);
    }
    let conds = build_alternatives(alloc, sig, scope, alternatives)?;
    Ok(Cond::Any(conds))
}

/// The conditions of alternatives, or their first fault.
#[cycle(build_condition)]
fn build_alternatives(
    alloc: Global,
    sig: &Signature,
    scope: &Scope<'_>,
    alternatives: &[Alternative<'_>],
) -> Result<Conds, TextError>
    ensures { Gives result
        (condition_faults sig.now (scope_of scope.now) (condition (map alternative_tree alternatives.now)))
        (λ cs. cs ≡ map (alternative_of sig.now) (map alternative_tree alternatives.now)) }
{
    let mut conds = Conds::new(alloc);
    for alternative in alternatives {
        let cond = build_alternative(alloc, sig, scope, alternative)?;
        conds.push(cond)?;
    }
    Ok(conds)
}

/// The condition of literals joined by `and`, or its first fault.
#[cycle(build_condition)]
fn build_alternative(
    alloc: Global,
    sig: &Signature,
    scope: &Scope<'_>,
    alternative: &Alternative<'_>,
) -> Result<Cond, TextError>
    ensures { Gives result (literals_faults sig.now (scope_of scope.now) (alternative_tree alternative.now))
        (λ c. cond_tree c ≡ alternative_of sig.now (alternative_tree alternative.now)) }
{
    let literals = alternative.literals.as_slice();
    if literals.len() == 1 {
        return build_literal(alloc, sig, scope, &literals[0]);
    }
    let conds = build_literals(alloc, sig, scope, literals)?;
    Ok(Cond::All(conds))
}

/// The conditions of literals, or their first fault.
#[cycle(build_condition)]
fn build_literals(
    alloc: Global,
    sig: &Signature,
    scope: &Scope<'_>,
    parts: &[Literal<'_>],
) -> Result<Conds, TextError>
    ensures { Gives result (literals_faults sig.now (scope_of scope.now) (literals (map literal_tree parts.now)))
        (λ cs. cs ≡ map (literal_of sig.now) (map literal_tree parts.now)) }
{
    let mut conds = Conds::new(alloc);
    for literal in parts {
        let cond = build_literal(alloc, sig, scope, literal)?;
        conds.push(cond)?;
    }
    Ok(conds)
}

/// The condition of a literal, or its first fault.
#[cycle(build_condition)]
fn build_literal(
    alloc: Global,
    sig: &Signature,
    scope: &Scope<'_>,
    literal: &Literal<'_>,
) -> Result<Cond, TextError>
    ensures { Gives result (literal_faults sig.now (scope_of scope.now) (literal_tree literal.now))
        (λ c. cond_tree c ≡ literal_of sig.now (literal_tree literal.now)) }
{
    match literal {
        Literal::Atom { negated, atom } => {
            let cond = build_atom(alloc, sig, scope, atom)?;
            negate_if(alloc, *negated, cond)
        }
        Literal::Bracketed { negated, condition } => {
            let cond = build_condition(alloc, sig, scope, condition)?;
            negate_if(alloc, *negated, cond)
        }
    }
}
