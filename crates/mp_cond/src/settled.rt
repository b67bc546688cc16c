//! Whether the variables of a condition are bound in their forms.
ghost use Rattle.std.specs.Prelude.{◌≡◌, map, option_map};
ghost use Rattle.std.specs.List.{list_all};
ghost use Rattle.mp_pattern.specs.CondTree.{var, conds};
ghost use Rattle.mp_pattern.specs.CondView.{operand, amount, cond_tree};
ghost use Rattle.mp_pattern.specs.PlanView.{form as plain_form};
ghost use Rattle.mp_pattern.specs.Operands.{amount_operands, all_operands};
ghost use Rattle.mp_subst.specs.Bound.{bound_of};
ghost use Rattle.mp_cond.specs.Verdict.{is_in_form, is_settled, are_settled};

use mp_pattern::{Amount, Cond, Form, Operand, Plan};
use mp_subst::{Bound, Trail};
use mp_term::Name;

// Whether there is a form, and a value of that form.
fn is_in_form(form: Option<Form>, bound: &Option<Bound<'_>>) -> bool
    ensures { result ≡ is_in_form (option_map plain_form form) (option_map bound_of bound.now) }
{
    match (form, bound) {
        (Some(form), Some(bound)) => form == bound.form,
        _ => false,
    }
}

// Whether the variable is bound in the form that the plan has for it.
fn is_variable_settled(plan: &Plan, trail: &Trail, name: &Name) -> bool
    ensures { result ≡ is_settled plan.now trail.now (var name.now) }
{
    match plan.find_var(name.bytes()) {
        None => false,
        Some(var) => is_in_form(plan.var_form(var), &trail.binding(var)),
    }
}

// Whether the operand is a ground term, or a variable that is bound in the form which the plan has for it.
fn is_settled(plan: &Plan, trail: &Trail, a: &Operand) -> bool
    ensures { result ≡ is_settled plan.now trail.now (operand a.now) }
{
    match a {
        Operand::Ground(_) => true,
        Operand::Var(name) => is_variable_settled(plan, trail, name),
    }
}

// So is the operand of an amount, if it has one.
fn is_amount_settled(plan: &Plan, trail: &Trail, m: &Amount) -> bool
    ensures { result ≡ list_all (is_settled plan.now trail.now) (amount_operands (amount m.now)) }
{
    match m {
        Amount::Fixed(_) => true,
        Amount::Count(a) | Amount::Size(a) => is_settled(plan, trail, a),
    }
}

// So is each operand of the condition.
#[cycle(settled)]
pub(crate) fn are_settled(plan: &Plan, trail: &Trail, cond: &Cond) -> bool
    ensures { result ≡ are_settled plan.now trail.now (cond_tree cond.now) }
{
    match cond {
        Cond::Amounts(m, _, n) => is_amount_settled(plan, trail, m)
            && is_amount_settled(plan, trail, n),
        Cond::Same(a, b) | Cond::Less(a, b) | Cond::Free(a, b) => {
            is_settled(plan, trail, a) && is_settled(plan, trail, b)
        }
        Cond::OfKind(a, _) | Cond::Headed(a, _) => is_settled(plan, trail, a),
        Cond::Not(part) => are_settled(plan, trail, part.get()),
        Cond::All(parts) | Cond::Any(parts) => all_settled(plan, trail, parts.as_slice()),
    }
}

// So is each operand of each condition of the list.
#[cycle(settled)]
fn all_settled(plan: &Plan, trail: &Trail, parts: &[Cond]) -> bool
    ensures { result ≡ list_all (is_settled plan.now trail.now) (all_operands (conds (map cond_tree parts.now))) }
{
    for part in parts {
        if !are_settled(plan, trail, part) {
            return false;
        }
    }
    true
}
