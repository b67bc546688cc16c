//! Numbers that conditions compare.
ghost use Rattle.std.specs.Prelude.{◌≡◌};
ghost use Rattle.std.specs.List.{AllByRecursion};
ghost use Rattle.mp_pattern.specs.CondView.{amount};
ghost use Rattle.mp_pattern.specs.Holds.{amount_of, compares};
ghost use Rattle.mp_pattern.specs.Operands.{amount_operands};

use crate::values::Values;
use mp_pattern::{Amount, Sense};

// The number of an amount.
pub(crate) fn amount_of<V: Values>(m: &Amount, values: &V) -> u128
    requires { AllByRecursion (V.is_ready values.now) (amount_operands (amount m.now)) }
    ensures { result ≡ amount_of (V.subst values.now) (amount m.now) }
{
    match m {
        Amount::Fixed(number) => u128::from(*number),
        Amount::Count(a) => values.count(a),
        Amount::Size(a) => values.size(a),
    }
}

// Whether the numbers compare so.
pub(crate) fn compares(m: u128, by: Sense, n: u128) -> bool
    ensures { result ≡ compares by m n }
{
    match by {
        Sense::Lt => m < n,
        Sense::Le => m <= n,
        Sense::Gt => m > n,
        Sense::Ge => m >= n,
        Sense::Eq => m == n,
        Sense::Ne => m != n,
    }
}
