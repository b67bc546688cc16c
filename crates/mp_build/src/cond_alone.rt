//! Reads conditions that stand alone.

ghost use Rattle.std.specs.Prelude.{◌≡◌, ◌<◌, ◌-◌, ◌^◌, length, None, Some, IfOk};
ghost use Rattle.mp_pattern.specs.CondTree as cond;
ghost use Rattle.mp_pattern.specs.CondView.{cond_tree};
ghost use Rattle.mp_parser.specs.View.{condition_tree};
ghost use Rattle.mp_build.specs.declared.fault.TextFault as plain;
ghost use Rattle.mp_build.specs.Answers.{Gives};
ghost use Rattle.mp_build.specs.Conditions.{cond_of};
ghost use Rattle.mp_build.specs.Answers.{IfText, IsFaultOrMemory};
ghost use Rattle.mp_build.specs.Alone.{Answers, IsValueOrMemory};
ghost use Rattle.mp_build.specs.AloneCondition.{condition_alone_faults, placed_cond_of, IsCondOf, IsCondFaultOf};
ghost use Rattle.mp_build.specs.PlacedReading.{placed_reading};
ghost use Rattle.mp_build.specs.Scope.{plan_variables};
ghost use Rattle.mp_build.specs.ScopeView.{scope_of};

use crate::condition::build_condition;
use crate::condition_size::is_large_condition;
use crate::fault::{TextError, TextKind, error_at};
use crate::scope::{Scope, plan_variables};
use bumpalo::Bump;
use mp_pattern::{Cond, Plan};
use mp_syntax::{Condition, Place, first_token_place, read_condition};
use mp_term::Signature;
use std::alloc::Global;

/// Reads one condition over a signature and the variables of a plan.
///
/// Each operand that isn't a variable is given in normal form. The text is a condition exactly where its tokens spell
/// one (`IsConditionOf` of mp_parser's `specs/Syntax.antt`) in which no check finds a fault (`condition_alone_faults`
/// of `specs/AloneCondition.antt`). It has fewer than 4,294,967,295 bytes.
///
/// - `Text`: the text has this fault, by `IsCondFaultOf` of `specs/AloneCondition.antt`, with its line and column, from
///   1: the first that its tokens or the grammar have, and where it is a condition, the first that the checks find. A
///   condition of more than 64 atoms, or with an operand of more than 64 nodes, has the fault `TooMany` at its first
///   token.
/// - `Memory`: memory ran out.
///
/// After an error nothing is kept.
pub fn read_cond(
    alloc: Global,
    sig: &Signature,
    plan: &Plan,
    bytes: &[u8],
) -> Result<Cond, TextError>
    requires { length bytes.now < 2 ^ 32 - 1 }

    // What is answered is the condition that the bytes are.
    ensures found { IfOk result (λ c. IsCondOf sig.now (Some (plan_variables plan.now)) bytes.now (cond_tree c)) }
    // The condition that the bytes are is answered, unless memory runs out.
    ensures only { (c : cond.Cond) → IsCondOf sig.now (Some (plan_variables plan.now)) bytes.now c
        → IsValueOrMemory result (λ d. cond_tree d ≡ c) }
    // The fault that is answered is the fault of the bytes.
    ensures fault { IfText result (λ f. IsCondFaultOf sig.now (Some (plan_variables plan.now)) bytes.now f) }
    // The fault of the bytes is answered, unless memory runs out.
    ensures only_fault { (f : plain.TextFault) → IsCondFaultOf sig.now (Some (plan_variables plan.now)) bytes.now f
        → IsFaultOrMemory result (λ g. g ≡ f) }
{
    let variables = plan_variables(alloc, plan)?;
    cond_of_text(alloc, sig, &Scope::Among(variables), bytes)
}

/// Reads one condition over a signature, as `read_cond` does, without a check of the variables that it names.
///
/// The text is a condition, or has a fault, by the same definitions: `IsCondOf` and `IsCondFaultOf` of
/// `specs/AloneCondition.antt`, where any variable may be named and may be an operand of `less`.
///
/// - `Text`: the text has this fault.
/// - `Memory`: memory ran out.
///
/// After an error nothing is kept.
pub fn read_loose_cond(alloc: Global, sig: &Signature, bytes: &[u8]) -> Result<Cond, TextError>
    requires { length bytes.now < 2 ^ 32 - 1 }

    // What is answered is the condition that the bytes are.
    ensures found { IfOk result (λ c. IsCondOf sig.now None bytes.now (cond_tree c)) }
    // The condition that the bytes are is answered, unless memory runs out.
    ensures only { (c : cond.Cond) → IsCondOf sig.now None bytes.now c → IsValueOrMemory result (λ d. cond_tree d ≡ c) }
    // The fault that is answered is the fault of the bytes.
    ensures fault { IfText result (λ f. IsCondFaultOf sig.now None bytes.now f) }
    // The fault of the bytes is answered, unless memory runs out.
    ensures only_fault { (f : plain.TextFault) → IsCondFaultOf sig.now None bytes.now f
        → IsFaultOrMemory result (λ g. g ≡ f) }
{
    cond_of_text(alloc, sig, &Scope::Any, bytes)
}

/// Reads one condition over the variables that it may name, or finds its fault.
fn cond_of_text(
    alloc: Global,
    sig: &Signature,
    scope: &Scope<'_>,
    bytes: &[u8],
) -> Result<Cond, TextError>
    requires { length bytes.now < 2 ^ 32 - 1 }
    ensures { Answers (condition_alone_faults sig.now (scope_of scope.now)) (placed_cond_of sig.now) cond_tree
        (placed_reading bytes.now) result }
{
    let start = first_token_place(bytes);
    let bump = Bump::new(alloc);
    let condition = read_condition(alloc, &bump, bytes)?;
    cond_alone(alloc, sig, scope, start, &condition)
}

/// The condition of a syntax tree alone that begins at this place, or its first fault.
fn cond_alone(
    alloc: Global,
    sig: &Signature,
    scope: &Scope<'_>,
    start: Place,
    condition: &Condition<'_>,
) -> Result<Cond, TextError>
    ensures { Gives result
        (condition_alone_faults sig.now (scope_of scope.now)
        (record { start = start; condition = condition_tree condition.now }))
        (λ c. cond_tree c ≡ cond_of sig.now (condition_tree condition.now)) }
{
    if is_large_condition(condition) {
        return Err(error_at(TextKind::TooMany, start));
    }
    build_condition(alloc, sig, scope, condition)
}
