//! Which request the words of the command line make.
#![tactic(auto)]

mod laws;
mod number;
mod request;
mod words;

pub use laws::words_make_requests;
pub use request::{Action, Engine, Request};
pub use words::read_words;
