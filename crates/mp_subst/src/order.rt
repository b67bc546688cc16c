//! The order of values and of substitutions, and their equality.
ghost use Rattle.std.specs.Prelude.{◌≡◌, ◌↔◌, map, length, IsTrue};
ghost use Rattle.std.specs.declared.cmp.Ordering.TheVariants.{Equal};
ghost use Rattle.mp_pattern.specs.Lists.{value_cmp, subst_cmp};
ghost use Rattle.mp_subst.specs.View.{value_of, binding_of, subst_of};

use crate::subst::{Binding, Subst};
use crate::value::Value;
use mp_term::{compare, compare_all};
use std::cmp::Ordering;

/// The order of values (`value_cmp` of mp_pattern's `specs/Lists.antt`): One comes before Seq, and Seq before Bag. Two
/// One compare by the term order, two Seq and two Bag by shortlex. Equal values alone are `Equal`. It takes no memory.
pub fn compare_value(a: &Value, b: &Value) -> Ordering
    ensures order { result ≡ value_cmp (value_of a.now) (value_of b.now) }
    ensures equal { (result ≡ Equal) ↔ (value_of a.now ≡ value_of b.now) }
{
    match (a, b) {
        (Value::One(term), Value::One(other)) => compare(term, other),
        (Value::Seq(terms), Value::Seq(others)) => {
            compare_all(terms.as_slice(), others.as_slice())
        }
        (Value::Bag(terms), Value::Bag(others)) => {
            compare_all(terms.as_slice(), others.as_slice())
        }
        (Value::One(_), _) => Ordering::Less,
        (_, Value::One(_)) => Ordering::Greater,
        (Value::Seq(_), _) => Ordering::Less,
        _ => Ordering::Greater,
    }
}

// The order of the values, binding by binding.
fn compare_bindings(bindings: &[Binding], others: &[Binding]) -> Ordering
    requires { length bindings.now ≡ length others.now }
    ensures { result ≡ subst_cmp (map binding_of bindings.now) (map binding_of others.now) }
{
    for (i, binding) in bindings.iter().enumerate() {
        let order = compare_value(&binding.value, &others[i].value);
        if order.is_ne() {
            return order;
        }
    }
    Ordering::Equal
}

/// The order of substitutions (`subst_cmp` of mp_pattern's `specs/Lists.antt`): variable by variable in order, by
/// `compare_value`. Both have the same names in the same order. Equal substitutions alone are `Equal`. It takes no
/// memory.
pub fn compare_subst(a: &Subst, b: &Subst) -> Ordering
    requires { map (λ x. x.name) (subst_of a.now) ≡ map (λ x. x.name) (subst_of b.now) }
    ensures order { result ≡ subst_cmp (subst_of a.now) (subst_of b.now) }
    ensures equal { (result ≡ Equal) ↔ (subst_of a.now ≡ subst_of b.now) }
{
    compare_bindings(a.bindings.as_slice(), b.bindings.as_slice())
}

// Whether the bindings are equal.
fn same_binding(binding: &Binding, other: &Binding) -> bool
    ensures { IsTrue result ↔ (binding_of binding.now ≡ binding_of other.now) }
{
    binding.name == other.name && compare_value(&binding.value, &other.value).is_eq()
}

// Whether the lists are equal.
fn same_bindings(bindings: &[Binding], others: &[Binding]) -> bool
    ensures { IsTrue result ↔ (map binding_of bindings.now ≡ map binding_of others.now) }
{
    if bindings.len() != others.len() {
        return false;
    }
    for (i, binding) in bindings.iter().enumerate() {
        if !same_binding(binding, &others[i]) {
            return false;
        }
    }
    true
}

/// Whether the substitutions are equal: the same variables in the same order, each with the same value of the same
/// form. It takes no memory.
pub fn same_subst(a: &Subst, b: &Subst) -> bool
    ensures { IsTrue result ↔ (subst_of a.now ≡ subst_of b.now) }
{
    same_bindings(a.bindings.as_slice(), b.bindings.as_slice())
}
