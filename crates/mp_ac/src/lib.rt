//! The commutative matcher: the tables of a commutative node's children, each once, over a trail.
#![tactic(auto)]

mod args;
mod asked;
mod begin;
mod candidates;
mod clash;
mod comm_matcher;
mod comm_plan;
mod comm_plans;
mod digest;
mod laws;
mod look;
mod node;
mod pick;
mod planned;
mod room;
mod search;
mod seek;
mod spent;
mod star;
mod store;
mod subpattern;
mod syntactic;

pub use comm_matcher::CommMatcher;
pub use comm_plans::{CommPlans, Prepared};
pub use laws::a_commutative_node_has_the_items_of_its_list;
pub use search::CommSearch;
pub use store::CommStore;
