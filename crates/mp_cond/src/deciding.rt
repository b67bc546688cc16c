//! Conditions decided while variables are being bound.
ghost use Rattle.std.specs.Prelude.{◌≡◌};
ghost use Rattle.mp_pattern.specs.CondView.{cond_tree};
ghost use Rattle.mp_subst.specs.Trail.{GoesWith};
ghost use Rattle.mp_cond.specs.Verdict.{verdict, AreHeld};

use crate::condition::holds_of;
use crate::ranks::Ranks;
use crate::settled::are_settled;
use crate::verdict::Verdict;
use mp_pattern::{Cond, Plan};
use mp_subst::Trail;
use mp_table::Table;
use mp_term::Signature;

/// What can be said of the condition of the variables that the trail has bound (`verdict` of `specs/Verdict.antt`).
/// `Later` comes exactly where a variable of the condition is unbound, or is bound in another form than the plan has
/// for it (`are_settled`); a variable that the plan doesn't have is unbound. Else `Yes` comes exactly where the
/// condition holds of the substitution of the bound variables (`subst_in` of mp_subst's `specs/Trail.antt`).
///
/// The trail goes with the table, which holds the ground terms of the condition. It takes no memory.
pub fn decide(sig: &Signature, cond: &Cond, plan: &Plan, trail: &Trail, table: &Table) -> Verdict
    requires trail { GoesWith table.now trail.now }
    requires held { AreHeld table.now (cond_tree cond.now) }
    ensures { result ≡ verdict sig.now table.now plan.now trail.now (cond_tree cond.now) }
{
    if !are_settled(plan, trail, cond) {
        return Verdict::Later;
    }
    // Each table is valid.
    let _ = table.len();
    if holds_of(sig, cond, &Ranks { plan, trail, table }) {
        Verdict::Yes
    } else {
        Verdict::No
    }
}
