//! Conditions decided.
ghost use Rattle.std.specs.Prelude.{◌≡◌, map, IfSome};
ghost use Rattle.std.specs.List.{AllByRecursion};
ghost use Rattle.mp_pattern.specs.Admission.{meets};
ghost use Rattle.mp_pattern.specs.CondTree.{conds};
ghost use Rattle.mp_pattern.specs.CondView.{cond_tree};
ghost use Rattle.mp_pattern.specs.Operands.{operands, all_operands};
ghost use Rattle.mp_pattern.specs.RuleView.{rule_tree};
ghost use Rattle.mp_pattern.specs.Holds.{holds, all_hold, some_holds};
ghost use Rattle.mp_subst.specs.View.{subst_of};
ghost use Rattle.mp_cond.specs.Ready.{IsReady};

use crate::amount::{amount_of, compares};
use crate::values::Values;
use mp_pattern::{Cond, Rule};
use mp_subst::Subst;
use mp_term::Signature;

// Whether the condition holds of the values.
#[cycle(holds)]
pub(crate) fn holds_of<V: Values>(sig: &Signature, cond: &Cond, values: &V) -> bool
    requires { AllByRecursion (V.is_ready values.now) (operands (cond_tree cond.now)) }
    ensures { result ≡ holds sig.now (V.subst values.now) (cond_tree cond.now) }
{
    match cond {
        Cond::Amounts(m, by, n) => compares(amount_of(m, values), *by, amount_of(n, values)),
        Cond::Same(a, b) => values.are_same(a, b),
        Cond::Less(a, b) => values.comes_before(a, b),
        Cond::Free(a, b) => values.are_free(a, b),
        Cond::OfKind(a, kind) => values.are_in_kind(sig, *kind, a),
        Cond::Headed(a, op) => values.have_head(*op, a),
        Cond::Not(part) => !holds_of(sig, part.get(), values),
        Cond::All(parts) => all_hold(sig, parts.as_slice(), values),
        Cond::Any(parts) => some_holds(sig, parts.as_slice(), values),
    }
}

// Whether each condition of the list holds.
#[cycle(holds)]
fn all_hold<V: Values>(sig: &Signature, parts: &[Cond], values: &V) -> bool
    requires { AllByRecursion (V.is_ready values.now) (all_operands (conds (map cond_tree parts.now))) }
    ensures { result ≡ all_hold sig.now (V.subst values.now) (conds (map cond_tree parts.now)) }
{
    for part in parts {
        if !holds_of(sig, part, values) {
            return false;
        }
    }
    true
}

// Whether some condition of the list holds.
#[cycle(holds)]
fn some_holds<V: Values>(sig: &Signature, parts: &[Cond], values: &V) -> bool
    requires { AllByRecursion (V.is_ready values.now) (all_operands (conds (map cond_tree parts.now))) }
    ensures { result ≡ some_holds sig.now (V.subst values.now) (conds (map cond_tree parts.now)) }
{
    for part in parts {
        if holds_of(sig, part, values) {
            return true;
        }
    }
    false
}

/// Whether the condition holds of the substitution (`holds` of mp_pattern's `specs/Holds.antt`). Each variable of the
/// condition is bound, and the terms of its value, and likewise each ground term, have fewer than 2 ^ 64 nodes together
/// (`IsReady` of `specs/Ready.antt`). It takes no memory.
pub fn holds(sig: &Signature, cond: &Cond, subst: &Subst) -> bool
    requires { IsReady (subst_of subst.now) (cond_tree cond.now) }
    ensures { result ≡ holds sig.now (subst_of subst.now) (cond_tree cond.now) }
{
    holds_of(sig, cond, subst)
}

/// Whether the rule's condition, where it has one, holds of the substitution (`meets` of mp_pattern's
/// `specs/Admission.antt`). What `holds` asks of a condition holds of the rule's. It takes no memory.
pub fn meets(sig: &Signature, rule: &Rule, subst: &Subst) -> bool
    requires { IfSome rule.now.condition (λ c. IsReady (subst_of subst.now) (cond_tree c)) }
    ensures { result ≡ meets sig.now (rule_tree rule.now).condition (subst_of subst.now) }
{
    match &rule.condition {
        None => true,
        Some(condition) => holds(sig, condition, subst),
    }
}
