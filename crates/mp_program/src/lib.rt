//! Match programs as data: what their text says line by line, which text is a program and which fault another text has,
//! and the printed text.
#![tactic(auto)]

mod fault;
mod format;
mod laws;
mod numbered;
mod printer;
mod program;
mod renamed;
mod rule_line;

pub use fault::ProgramError;
pub use format::Format;
pub use laws::a_program_has_one_spelling;
pub use numbered::rules_of;
pub use printer::write_program;
pub use program::{Program, ProgramRule, ProgramRules};
pub use renamed::{numbered_name, renamed_cond};
pub use rule_line::{RuleLine, RuleTest};
