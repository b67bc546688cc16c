//! When a substitution is ready for a condition, and when conditions don't tell two substitutions apart, each as the
//! contract of a function that does nothing.
ghost use Rattle.std.specs.Prelude.{◌≡◌, true, map};
ghost use Rattle.mp_term.specs.Signature.{Sig};
ghost use Rattle.mp_pattern.specs.CondTree.{Cond};
ghost use Rattle.mp_pattern.specs.Holds.{holds};
ghost use Rattle.mp_pattern.specs.Value.{Subst};
ghost use Rattle.mp_pattern.specs.Operands.{IsConditionOver};
ghost use Rattle.mp_pattern.specs.Plan.{Plan};
ghost use Rattle.mp_table.specs.Table.{Table};
ghost use Rattle.mp_subst.specs.Trail.{Trail, subst_in};
ghost use Rattle.mp_cond.specs.Ready.{IsReady, AreCountable};
ghost use Rattle.mp_cond.specs.Verdict.{are_settled};
ghost use Rattle.mp_cond.specs.Extension.{Extends};
ghost use Rattle.mp_cond.specs.Complete.{AreFirst, IsComplete};

/// A substitution whose values have fewer than 2 ^ 64 nodes each is ready, by `IsReady` of `specs/Ready.antt`, for a
/// condition whose variables it binds and whose ground terms have at most `MAX_OPERAND_NODES` nodes each.
pub fn conditions_over_the_bound_variables_are_ready()
    ensures { (s : Subst) (c : Cond) → IsConditionOver (map (λ b. b.name) s) c → AreCountable s → IsReady s c }
{}

/// Once its variables are bound in their forms, a condition holds of each substitution that extends the trail
/// (`Extends` of `specs/Extension.antt`) exactly where it holds of what the trail has bound: what `decide` then says
/// stays true however the search goes on.
pub fn conditions_hold_of_extensions_as_of_the_trail()
    ensures { (sig : Sig) (t : Table) (p : Plan) (trail : Trail) (s : Subst) (c : Cond) →
        Extends t p trail s → are_settled p trail c ≡ true →
        holds sig s c ≡ holds sig (subst_in t p.variables trail) c }
{}

/// Once a trail has bound each variable of the plan to a value of its form (`IsComplete` of `specs/Complete.antt`), the
/// variables of a condition over the plan's variables are bound in their forms: then `decide` doesn't answer `Later`.
/// The variables of the plan have names of their own.
pub fn conditions_are_settled_by_complete_trails()
    ensures { (t : Table) (p : Plan) (trail : Trail) (c : Cond) →
        AreFirst p.variables → IsComplete t p trail → IsConditionOver (map (λ x. x.name) p.variables) c →
        are_settled p trail c ≡ true }
{}
