//! The laws that printed text is read again: what is printed of a file, a term, a pattern, a template or a condition is
//! read as it.
#![tactic(auto)]

mod alone;
mod file;

pub use alone::{
    printed_condition_is_read, printed_pattern_is_read, printed_template_is_read,
    printed_term_is_read,
};
pub use file::{
    members_and_conditions_of_files_are_spelled, printed_file_is_its_statements,
    printed_file_is_read, signatures_of_files_are_spelled,
};
