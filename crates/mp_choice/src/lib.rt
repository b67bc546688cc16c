//! Generators of choices. Each goes through all of its items, one at a time, in a fixed order, and keeps one item at a
//! time.
#![tactic(auto)]

mod equation_fault;
mod equations;
mod laws;
mod limits;
mod room;
mod splits;
mod stage;
mod sub_bags;

pub use equation_fault::EquationFault;
pub use equations::Equations;
pub use laws::{
    list_of_solutions_is_unique, list_of_splits_is_unique, list_of_sub_bags_is_unique,
    steps_give_the_items_in_turn, sub_bags_are_those_of_the_theory,
};
pub use limits::MAX_TOTAL;
pub use splits::{Part, Splits};
pub use stage::Stage;
pub use sub_bags::SubBags;
