//! The common value of two uses of a variable.
ghost use Rattle.std.specs.Prelude.{◌≡◌, Some, None, IfOk, IfErr, if◌then◌else◌};
ghost use Rattle.mp_pattern.specs.Value.{merge};
ghost use Rattle.mp_subst.specs.View.{value_of};
ghost use Rattle.mp_subst.specs.Choice.{chosen};

use crate::multiset::same_multiset;
use crate::order::compare_value;
use crate::value::Value;

// Which of two values is the value of both uses.
#[derive(Drop)]
pub(crate) enum Choice {
    Old,
    New,
    Neither,
}

// The first one or neither.
pub(crate) fn old_if(same: bool) -> Choice
    ensures { result ≡ (if same then Choice.Old else Choice.Neither) }
{
    if same { Choice::Old } else { Choice::Neither }
}

// The second one or neither.
pub(crate) fn new_if(same: bool) -> Choice
    ensures { result ≡ (if same then Choice.New else Choice.Neither) }
{
    if same { Choice::New } else { Choice::Neither }
}

// Which of the values is the value of both uses.
fn choose(old: &Value, new: &Value) -> Choice
    ensures { chosen (value_of old.now) (value_of new.now) result ≡ merge (value_of old.now) (value_of new.now) }
{
    match (old, new) {
        (Value::Seq(terms), Value::Bag(others)) => {
            old_if(same_multiset(terms.as_slice(), others.as_slice()))
        }
        (Value::Bag(terms), Value::Seq(others)) => {
            new_if(same_multiset(terms.as_slice(), others.as_slice()))
        }
        _ => old_if(compare_value(old, new).is_eq()),
    }
}

/// The common value of two uses of a variable (`merge` of mp_pattern's `specs/Value.antt`): of equal values of one form
/// that value, and of a tuple and a multiset with the same terms, each as often, the tuple. Exactly in every other case
/// both values come back as they were, the old one first. A multiset needn't be sorted. It takes no memory.
pub fn merge(old: Value, new: Value) -> Result<Value, (Value, Value)>
    ensures ok { IfOk result (λ v. merge (value_of old) (value_of new) ≡ Some (value_of v)) }
    ensures err { IfErr result (λ _. merge (value_of old) (value_of new) ≡ None) }
    ensures kept { IfErr result (λ p. p ≡ (old, new)) }
{
    match choose(&old, &new) {
        Choice::Old => Ok(old),
        Choice::New => Ok(new),
        Choice::Neither => Err((old, new)),
    }
}
