//! The plan of the children that don't take one term each.
ghost use Rattle.std.specs.Prelude.{◌≡◌};
ghost use Rattle.mp_ac.specs.Planned.{plan_of};

use crate::comm_plan::CommPlan;

// A plan that is kept elsewhere, or one of its own.
#[derive(Drop)]
pub(crate) enum Planned<'a> {
    Kept(&'a CommPlan),
    Own(CommPlan),
}

impl<'a> Planned<'a> {
    // The plan.
    pub(crate) fn get(&self) -> &CommPlan
        ensures { result.now ≡ plan_of self.now }
    {
        match self {
            Planned::Kept(plan) => plan,
            Planned::Own(plan) => plan,
        }
    }
}
