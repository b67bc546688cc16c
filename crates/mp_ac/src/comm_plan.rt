//! Patterns of a commutative operation that are prepared once.
ghost use Rattle.std.specs.Prelude.{◌≡◌, ◌<◌, ℕ, List, map, IfOk, IfSome};
ghost use Rattle.std.specs.List.{AllByRecursion};
ghost use Rattle.mp_term.specs.Listing.{In};
ghost use Rattle.mp_term.specs.Signature.{Sig};
ghost use Rattle.mp_pattern.specs.NetTokens.{numbered};
ghost use Rattle.mp_pattern.specs.Plan.{IsPlanOf};
ghost use Rattle.mp_pattern.specs.PlanFault.{plan_fault};
ghost use Rattle.mp_pattern.specs.Variables.{variables};
ghost use Rattle.mp_pattern.specs.View.{pattern_tree};
ghost use Rattle.mp_ac.specs.CommPlan.{IsApplication, IsNumbered, IsNumberedPattern, IsCommPlanOf, nodes_below};

use mp_pattern::{MAX_VARIABLES, Pattern, Plan, PlanFault};
use mp_term::{Memory, Name, Signature};
use std::alloc::Global;

// A pattern of a commutative operation, prepared once for all searches below it: its plan, and the number of each of
// its variables in a trail. The variables are named by these numbers (`IsCommPlanOf` of `specs/CommPlan.antt`).
#[derive(Drop)]
pub(crate) struct CommPlan {
    pub(crate) plan: Plan,
    pub(crate) vars: Vec<u32>,
}

// The number in a name.
pub(crate) fn number_of(name: &Name) -> u32
    requires { IsNumbered name.now }
    ensures name { name.now ≡ numbered result }
    ensures few { result < MAX_VARIABLES }
{
    match name.bytes() {
        [_, ones] => (*ones - b'0') as u32,
        [_, tens, ones] => (*tens - b'0') as u32 * 10 + (*ones - b'0') as u32,
        _ => unreachable!(),
    }
}

// The numbers in the names of the plan's variables.
fn numbers(alloc: Global, plan: &Plan) -> Result<Vec<u32>, Memory>
    requires { (x : List ℕ) → In x (map (λ v. v.name) plan.now.variables) → IsNumbered x }
    ensures names { IfOk result (λ vs. map numbered vs.items ≡ map (λ v. v.name) plan.now.variables) }
    ensures few { IfOk result (λ vs. AllByRecursion (λ v. v < MAX_VARIABLES) vs.items) }
{
    let mut vars = Vec::with_capacity(alloc, plan.vars() as usize)?;
    for var in 0..plan.vars() {
        let Some(name) = plan.var_name(var) else {
            unreachable!()
        };
        vars.push(number_of(name))?;
    }
    Ok(vars)
}

// The plan of a pattern that has one.
pub(crate) fn plan_of(alloc: Global, sig: &Signature, pattern: &Pattern) -> Result<Plan, Memory>
    requires { plan_fault (pattern_tree pattern.now) ≡ None }
    ensures { IfOk result (IsPlanOf sig.now (pattern_tree pattern.now)) }
{
    match Plan::compile(alloc, sig, pattern) {
        Ok(plan) => Ok(plan),
        Err(PlanFault::Memory) => Err(Memory),
        Err(_) => unreachable!(),
    }
}

impl CommPlan {
    // The pattern, prepared: an application whose variables are named `v` and a number below `MAX_VARIABLES` in
    // decimal, which is their number in the trail, and that has a plan. `Memory` comes where there is no memory for
    // it.
    pub(crate) fn new(alloc: Global, sig: &Signature, pattern: &Pattern) -> Result<CommPlan, Memory>
        requires { IsNumberedPattern (pattern_tree pattern.now) }
        ensures { IfOk result (IsCommPlanOf sig.now (pattern_tree pattern.now)) }
    {
        let plan = plan_of(alloc, sig, pattern)?;
        let vars = numbers(alloc, &plan)?;
        Ok(CommPlan { plan, vars })
    }

    // The same of a pattern that may have no plan: None where it has none.
    pub(crate) fn planned(
        alloc: Global,
        sig: &Signature,
        pattern: &Pattern,
    ) -> Result<Option<CommPlan>, Memory>
        requires application { IsApplication (pattern_tree pattern.now) }
        requires names { (x : List ℕ) → In x (variables (pattern_tree pattern.now)) → IsNumbered x }
        ensures { IfOk result (λ o. IfSome o (IsCommPlanOf sig.now (pattern_tree pattern.now))) }
    {
        match Plan::compile(alloc, sig, pattern) {
            Ok(plan) => {
                let vars = numbers(alloc, &plan)?;
                Ok(Some(CommPlan { plan, vars }))
            }
            Err(PlanFault::Memory) => Err(Memory),
            Err(_) => Ok(None),
        }
    }

    // How many nodes there are below the pattern's root.
    pub(crate) fn nodes(&self) -> u32
        requires { (sig : Sig) × IsCommPlanOf sig self.now.plan.pattern self.now }
        ensures { result ≡ nodes_below self.now.plan.pattern }
    {
        self.plan.len() - 1
    }
}
