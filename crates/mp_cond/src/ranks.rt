//! The values that a trail has for the variables of a plan.
ghost use Rattle.std.specs.Prelude.{◌≡◌, Some, IfSome, position, option_map};
ghost use Rattle.mp_pattern.specs.Value.{same_name};
ghost use Rattle.mp_pattern.specs.CondView.{operand};
ghost use Rattle.mp_pattern.specs.Holds.{value_at as operand_value};
ghost use Rattle.mp_subst.specs.Bound.{bound_of, IsBoundIn};
ghost use Rattle.mp_subst.specs.Trail.{GoesWith};
ghost use Rattle.mp_cond.specs.Ranked.{value_at, IsIn, bound_at, subst_of, IsOperandIn};

use crate::ranked::{Ranked, of_bound};
use crate::ranked_atoms;
use crate::values::Values;
use mp_pattern::{Operand, Plan};
use mp_subst::{Bound, Trail};
use mp_table::Table;
use mp_term::{KindId, Name, OpId, Signature};

// A trail with the plan whose variables it binds, and with the table of its ranks.
#[derive(Drop)]
pub(crate) struct Ranks<'a> {
    pub(crate) plan: &'a Plan,
    pub(crate) trail: &'a Trail,
    pub(crate) table: &'a Table,
}

impl<'a> Ranks<'a> {
    // The value of the variable of that name, where it is bound.
    fn bound(&self, name: &Name) -> Option<Bound<'_>>
        requires { GoesWith self.now.table.now self.now.trail.now }
        ensures value { option_map bound_of result
            ≡ bound_at self.now.trail.now (position (λ v. same_name name.now v.name) self.now.plan.now.variables) }
        ensures within { IfSome result (λ b. IsBoundIn self.now.table.now (bound_of b)) }
    {
        match self.plan.find_var(name.bytes()) {
            None => None,
            Some(var) => self.trail.binding(var),
        }
    }

    // The value of the operand. One without a value, which would have no terms, isn't asked for.
    pub(crate) fn value(&self, a: &Operand) -> Ranked<'_>
        requires { IsOperandIn self.now (operand a.now) }
        ensures value { operand_value (subst_of self.now) (operand a.now) ≡ Some (value_at self.now.table.now result) }
        ensures within { IsIn self.now.table.now result }
    {
        match a {
            Operand::Ground(term) => match self.table.find(term) {
                Some(rank) => Ranked::One(rank),
                None => Ranked::Seq(&[]),
            },
            Operand::Var(name) => match self.bound(name) {
                Some(bound) => of_bound(&bound),
                None => Ranked::Seq(&[]),
            },
        }
    }
}

impl<'a> Values for Ranks<'a> {
    ghost subst = { subst_of };

    ghost is_ready = { IsOperandIn };

    fn count(&self, a: &Operand) -> u128 {
        ranked_atoms::count(&self.value(a))
    }

    fn size(&self, a: &Operand) -> u128 {
        ranked_atoms::size(self.table, &self.value(a))
    }

    fn are_same(&self, a: &Operand, b: &Operand) -> bool {
        ranked_atoms::are_same(self.table, &self.value(a), &self.value(b))
    }

    fn comes_before(&self, a: &Operand, b: &Operand) -> bool {
        ranked_atoms::comes_before(self.table, &self.value(a), &self.value(b))
    }

    fn are_free(&self, a: &Operand, b: &Operand) -> bool {
        ranked_atoms::are_free(self.table, &self.value(a), &self.value(b))
    }

    fn are_in_kind(&self, sig: &Signature, kind: KindId, a: &Operand) -> bool {
        ranked_atoms::are_in_kind(sig, kind, self.table, &self.value(a))
    }

    fn have_head(&self, op: OpId, a: &Operand) -> bool {
        ranked_atoms::have_head(self.table, op, &self.value(a))
    }
}
