//! What the operands of a condition stand for.
ghost use Rattle.std.specs.Prelude.{◌≡◌, ◌||◌, not, length, sum_by, if◌then◌else◌};
ghost use Rattle.std.specs.List.{list_all};
ghost use Rattle.mp_term.specs.Order.{tree_cmp};
ghost use Rattle.mp_term.specs.Size.{node_count};
ghost use Rattle.mp_term.specs.Sorting.{sorted};
ghost use Rattle.mp_term.specs.Signature.{in_kind};
ghost use Rattle.mp_term.specs.NormalTest.{has_head};
ghost use Rattle.mp_pattern.specs.CondTree as plain;
ghost use Rattle.mp_pattern.specs.CondView.{operand};
ghost use Rattle.mp_pattern.specs.Value.{Subst, same_terms};
ghost use Rattle.mp_pattern.specs.Holds.{value_at, list_of, is_bag, comes_before, occurs};

use mp_pattern::Operand;
use mp_term::{KindId, OpId, Signature};

/// The values of variables, as the atoms of a condition ask for them.
pub(crate) trait Values {
    /// The variables with their values.
    ghost subst: { Self → Subst };

    /// The operand may be asked for.
    ghost is_ready: { Self → plain.Operand → Type 0 };

    /// How many terms the operand has.
    fn count(&self, a: &Operand) -> u128
        requires { is_ready self.now (operand a.now) }
        ensures { result ≡ length (list_of (subst self.now) (operand a.now)) };

    /// How many nodes its terms have together.
    fn size(&self, a: &Operand) -> u128
        requires { is_ready self.now (operand a.now) }
        ensures { result ≡ sum_by node_count (list_of (subst self.now) (operand a.now)) };

    /// Whether the lists are equal, and as multisets where an operand is one.
    fn are_same(&self, a: &Operand, b: &Operand) -> bool
        requires first { is_ready self.now (operand a.now) }
        requires second { is_ready self.now (operand b.now) }
        ensures { result ≡ (
            let s = subst self.now in
            let v = operand a.now in
            let w = operand b.now in
            if is_bag (value_at s v) || is_bag (value_at s w)
            then same_terms (sorted tree_cmp (list_of s v)) (sorted tree_cmp (list_of s w))
            else same_terms (list_of s v) (list_of s w)) };

    /// Whether both are single terms, and the first comes before the second.
    fn comes_before(&self, a: &Operand, b: &Operand) -> bool
        requires first { is_ready self.now (operand a.now) }
        requires second { is_ready self.now (operand b.now) }
        ensures { result ≡ comes_before (value_at (subst self.now) (operand a.now))
            (value_at (subst self.now) (operand b.now)) };

    /// Whether no term of the first list is equal to, or a subterm of, a term of the second.
    fn are_free(&self, a: &Operand, b: &Operand) -> bool
        requires first { is_ready self.now (operand a.now) }
        requires second { is_ready self.now (operand b.now) }
        ensures { result ≡ list_all (λ t. list_all (λ u. not (occurs t u)) (list_of (subst self.now) (operand b.now)))
            (list_of (subst self.now) (operand a.now)) };

    /// Whether each term is a symbol of the kind.
    fn are_in_kind(&self, sig: &Signature, kind: KindId, a: &Operand) -> bool
        requires { is_ready self.now (operand a.now) }
        ensures { result ≡ list_all (in_kind sig.now kind.0) (list_of (subst self.now) (operand a.now)) };

    /// Whether each term is an application of the operation.
    fn have_head(&self, op: OpId, a: &Operand) -> bool
        requires { is_ready self.now (operand a.now) }
        ensures { result ≡ list_all (has_head op.0) (list_of (subst self.now) (operand a.now)) };
}
