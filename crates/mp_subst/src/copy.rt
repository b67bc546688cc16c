//! Copies of values and substitutions.
ghost use Rattle.std.specs.Prelude.{◌≡◌, IfOk};
ghost use Rattle.mp_subst.specs.View.{value_of, subst_of};

use crate::subst::{Binding, Bindings, Subst};
use crate::value::Value;
use mp_term::{Memory, copy_term, copy_terms};
use std::alloc::Global;

/// An equal value. `Memory` comes where there is no room for it.
pub fn copy_value(alloc: Global, value: &Value) -> Result<Value, Memory>
    ensures { IfOk result (λ v. value_of v ≡ value_of value.now) }
{
    match value {
        Value::One(term) => Ok(Value::One(copy_term(alloc, term)?)),
        Value::Seq(terms) => Ok(Value::Seq(copy_terms(alloc, terms)?)),
        Value::Bag(terms) => Ok(Value::Bag(copy_terms(alloc, terms)?)),
    }
}

/// An equal substitution. `Memory` comes where there is no room for it.
pub fn copy_subst(alloc: Global, subst: &Subst) -> Result<Subst, Memory>
    ensures { IfOk result (λ s. subst_of s ≡ subst_of subst.now) }
{
    let mut bindings = Bindings::new(alloc);
    for binding in subst.bindings.as_slice() {
        let name = binding.name.copy(alloc)?;
        let value = copy_value(alloc, &binding.value)?;
        bindings.push(Binding { name, value })?;
    }
    Ok(Subst { bindings })
}
