//! The command `matchpy`, over any shelf of files and any two sinks: pattern matching over the rules and subjects of a
//! file.
#![tactic(auto)]

mod accepted;
mod answer;
mod command;
mod compile;
mod edit;
mod ending;
mod laws;
mod many_matcher;
mod matches;
mod names;
mod net_matcher;
mod program_matcher;
mod programs;
mod rewrite;
mod show;

pub use command::run;
pub use laws::{an_outcome_is_unique, there_is_an_outcome};
