//! Conditions decided: whether a condition holds of a substitution, and what can be said of it before all variables are
//! bound.
#![tactic(auto)]

mod amount;
mod condition;
mod deciding;
mod laws;
mod lists;
mod operand;
mod rank_lists;
mod rank_subterm;
mod ranked;
mod ranked_atoms;
mod ranks;
mod settled;
mod subterm;
mod terms;
mod values;
mod verdict;

pub use condition::{holds, meets};
pub use deciding::decide;
pub use laws::{
    conditions_are_settled_by_complete_trails, conditions_hold_of_extensions_as_of_the_trail,
    conditions_over_the_bound_variables_are_ready,
};
pub use verdict::Verdict;
