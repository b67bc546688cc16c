//! Pairings: each of several items takes one of its classes, and no class more items than its capacity.
#![tactic(auto)]

mod graph;
mod laws;
mod look_ahead;
mod pairings;
mod search;
mod tight;

pub use graph::Graph;
pub use laws::list_of_pairings_is_unique;
pub use pairings::Pairings;
