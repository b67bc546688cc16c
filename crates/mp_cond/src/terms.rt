//! Operands under a substitution.
ghost use Rattle.mp_subst.specs.View.{subst_of};
ghost use Rattle.mp_cond.specs.Ready.{IsOperandReady};

use crate::lists::{are_free, are_in_kind, have_head, total_nodes};
use crate::operand::{is_bag, list_of, single};
use crate::values::Values;
use mp_pattern::Operand;
use mp_subst::{Subst, same_multiset};
use mp_term::{KindId, OpId, Signature, compare};

impl Values for Subst {
    ghost subst = { subst_of };

    ghost is_ready = { λ s. IsOperandReady (subst_of s) };

    fn count(&self, a: &Operand) -> u128 {
        list_of(a, self).len() as u128
    }

    fn size(&self, a: &Operand) -> u128 {
        u128::from(total_nodes(list_of(a, self)))
    }

    fn are_same(&self, a: &Operand, b: &Operand) -> bool {
        let terms = list_of(a, self);
        let others = list_of(b, self);
        if is_bag(a, self) || is_bag(b, self) {
            same_multiset(terms, others)
        } else {
            terms == others
        }
    }

    fn comes_before(&self, a: &Operand, b: &Operand) -> bool {
        match (single(a, self), single(b, self)) {
            (Some(term), Some(other)) => compare(term, other).is_lt(),
            _ => false,
        }
    }

    fn are_free(&self, a: &Operand, b: &Operand) -> bool {
        are_free(list_of(a, self), list_of(b, self))
    }

    fn are_in_kind(&self, sig: &Signature, kind: KindId, a: &Operand) -> bool {
        are_in_kind(sig, kind, list_of(a, self))
    }

    fn have_head(&self, op: OpId, a: &Operand) -> bool {
        have_head(op, list_of(a, self))
    }
}
