//! Laws of program texts: what is printed of a program is read again, each fact as the contract of a function that does
//! nothing.
#![tactic(auto)]

mod conditions;
mod programs;

pub use conditions::a_renamed_condition_is_read;
pub use programs::a_printed_program_is_read;
