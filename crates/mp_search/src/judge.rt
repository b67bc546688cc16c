//! Whether the condition holds of what is found, or of anything that may still be found.
ghost use Rattle.std.specs.Prelude.{◌≡◌, ◌∷◌, [], Some, false, IsTrue};
ghost use Rattle.mp_pattern.specs.Admission.{meets};
ghost use Rattle.mp_pattern.specs.CondView.{cond_tree};
ghost use Rattle.mp_pattern.specs.Value.{Subst};
ghost use Rattle.mp_cond.specs.declared.verdict.Verdict.TheVariants as verdicts;
ghost use Rattle.mp_subst.specs.Trail.{GoesWith};
ghost use Rattle.mp_theory.specs.Kept.{Keeps};
ghost use Rattle.mp_search.specs.Query.{IsQuery};
ghost use Rattle.mp_search.specs.Reading.{subst_of};
ghost use Rattle.mp_search.specs.Says.{Says};
ghost use Rattle.mp_search.specs.Wanted.{condition_of, IsComplete, AreComplete};

use crate::query::Query;
use mp_cond::{Verdict, conditions_hold_of_extensions_as_of_the_trail, decide};
use mp_pattern::Cond;
use mp_subst::Trail;

// What the trail says of the condition at each substitution that it may still become. Where each variable has a value
// of its form already, it is decided.
fn judge(query: &Query<'_>, condition: &Cond, trail: &Trail) -> Verdict
    requires query { IsQuery query.now }
    requires condition { condition_of query.now ≡ Some (cond_tree condition.now) }
    requires trail { GoesWith query.now.table.now trail.now }
    ensures says { (s : Subst) → Keeps (subst_of query.now trail.now) s →
        IsComplete query.now.plan.now.variables s → Says query.now.sig.now (cond_tree condition.now) s result }
    ensures decided { IsComplete query.now.plan.now.variables (subst_of query.now trail.now) →
        result ≡ verdicts.Later → ⊥ }
{
    conditions_hold_of_extensions_as_of_the_trail();
    decide(query.sig, condition, query.plan, trail, query.table)
}

// Whether the condition holds of the substitution. Where there is one, each variable of the plan is bound to a value of
// its form.
pub(crate) fn holds(query: &Query<'_>, trail: &Trail) -> bool
    requires query { IsQuery query.now }
    requires trail { GoesWith query.now.table.now trail.now }
    requires complete { AreComplete query.now (([], subst_of query.now trail.now) ∷ []) }
    ensures { result ≡ meets query.now.sig.now (condition_of query.now) (subst_of query.now trail.now) }
{
    match query.condition {
        None => true,
        Some(condition) => match judge(query, condition, trail) {
            Verdict::Yes => true,
            _ => false,
        },
    }
}

// Whether the condition fails at each substitution that the trail may still become.
pub(crate) fn fails(query: &Query<'_>, trail: &Trail) -> bool
    requires query { IsQuery query.now }
    requires trail { GoesWith query.now.table.now trail.now }
    ensures { IsTrue result → (s : Subst) → Keeps (subst_of query.now trail.now) s →
        AreComplete query.now (([], s) ∷ []) → meets query.now.sig.now (condition_of query.now) s ≡ false }
{
    match query.condition {
        None => false,
        Some(condition) => match judge(query, condition, trail) {
            Verdict::No => true,
            _ => false,
        },
    }
}
