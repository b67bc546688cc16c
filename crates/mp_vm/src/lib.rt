//! Match programs: read of their text, printed, and run.
#![tactic(auto)]

mod above;
mod code;
mod constants;
mod declared;
mod draft;
mod laws;
mod lines;
mod look;
mod needs;
mod reader;
mod rules;
mod run;
mod runner;
mod stage;
mod trail;
mod ways;

pub use constants::program_constants;
pub use laws::{a_text_is_a_program_or_has_a_fault, a_text_is_one_program_at_most};
pub use mp_program::{Program, ProgramError, ProgramRule, ProgramRules, write_program};
pub use mp_walk::{Instr, Instrs, Numbers, RankedPair};
pub use reader::read_program;
pub use runner::{Runner, run_program};
