//! What operands stand for.
ghost use Rattle.std.specs.Prelude.{◌≡◌, map, option_map};
ghost use Rattle.mp_term.specs.View.{tree};
ghost use Rattle.mp_pattern.specs.CondView.{operand};
ghost use Rattle.mp_pattern.specs.Holds.{value_at, list_of, is_bag};
ghost use Rattle.mp_subst.specs.View.{subst_of};
ghost use Rattle.mp_cond.specs.Single.{single};

use mp_pattern::Operand;
use mp_subst::{Subst, Value};
use mp_term::Term;
use std::slice;

// The terms of the operand: none where it is a variable without a value.
pub(crate) fn list_of<'a>(a: &'a Operand, subst: &'a Subst) -> &'a [Term]
    ensures { map tree result.now ≡ list_of (subst_of subst.now) (operand a.now) }
{
    match a {
        Operand::Ground(term) => slice::from_ref(term),
        Operand::Var(name) => match subst.value_of(name) {
            None => &[],
            Some(value) => value.terms(),
        },
    }
}

// The term of an operand that is one term.
pub(crate) fn single<'a>(a: &'a Operand, subst: &'a Subst) -> Option<&'a Term>
    ensures { option_map (λ t. tree t.now) result ≡ single (value_at (subst_of subst.now) (operand a.now)) }
{
    match a {
        Operand::Ground(term) => Some(term),
        Operand::Var(name) => match subst.value_of(name) {
            Some(Value::One(term)) => Some(term),
            _ => None,
        },
    }
}

// Whether the operand is a multiset.
pub(crate) fn is_bag(a: &Operand, subst: &Subst) -> bool
    ensures { result ≡ is_bag (value_at (subst_of subst.now) (operand a.now)) }
{
    match a {
        Operand::Ground(_) => false,
        Operand::Var(name) => matches!(subst.value_of(name), Some(Value::Bag(_))),
    }
}
