//! Tables of instructions, and the walk of a subject over one: all patterns that the paths of the table stand for are
//! matched at once.
// What the patterns begin with alike is read once.
#![tactic(auto)]

mod code;
mod comm;
mod constants;
mod copy;
mod course;
mod entries;
mod fewest;
mod found;
mod frame;
mod front;
mod instr;
mod key;
mod level;
mod named;
mod opening;
mod rank_order;
mod ranked;
mod reading;
mod setting;
mod stage;
mod steps;
mod token;
mod walk;

pub use code::Code;
pub use found::Finds;
pub use instr::{Instr, Instrs, Numbers};
pub use named::named_values;
pub use ranked::{RankedBinding, RankedPair};
pub use walk::Walk;
