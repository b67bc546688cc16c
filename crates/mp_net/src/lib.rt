//! Nets: deterministic automata that find which of many syntactic rules a subject matches, in one walk through the
//! subject for each.
#![tactic(auto)]

mod build;
mod chain;
mod fault;
mod group;
mod item;
mod laws;
mod limits;
mod mark;
mod mark_order;
mod nets;
mod pairs;
mod probe;
mod state;
mod taken;
mod turn;
mod visit;

pub use fault::NetFault;
pub use laws::{
    a_net_finds_the_rules_of_the_shape, syntactic_patterns_fit_by_shape,
    syntactic_rules_have_their_all_list,
};
pub use nets::Nets;
pub use probe::Probe;
