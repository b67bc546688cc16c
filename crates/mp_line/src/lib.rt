//! Reads the lines of program texts, each by itself.
#![tactic(auto)]

mod action;
mod comm;
mod exact;
mod held;
mod instr;
mod line;
mod names;
mod numbers;
mod rule;
mod test;
mod token;
mod wild;
mod words;

pub use line::{Line, read_line};
pub use names::MAX_KEPT;
pub use numbers::{number, number_of_name};
pub use test::{condition_names, is_test_name};
