//! Rule files: from the bytes of a file to its signature, rules, subjects and edit statements, checked; and the printed
//! text of files.
#![tactic(auto)]

mod file;
mod file_printer;
mod heading;
mod in_order;
mod names;
mod pattern_reader;
mod reader;
mod rule;
mod rule_reader;
mod subject;
mod template;
mod term_reader;

pub use file::{EditSet, EditSets, File, Subject, Subjects};
pub use file_printer::write_file;
pub use mp_build::{
    TextError, TextFault, TextKind, read_cond, read_loose_cond, read_pattern, read_term,
};
pub use mp_print::{write_cond, write_pattern, write_signature, write_subst, write_term};
pub use reader::{fault_is_computed, file_is_computed, read_file};
