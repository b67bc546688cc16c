//! The match program of rules.
#![tactic(auto)]

mod laws;
mod program;

pub use laws::{a_generated_program_has_the_items_of_the_rules, a_generated_program_is_valid};
pub use program::generate;
