//! Resume tokens: the place of an item in a list of matches, as a text that is printed and read.
#![tactic(auto)]

mod entries;
mod fault;
mod laws;
mod printer;
mod reader;
mod token;

pub use entries::TokenEntries;
pub use fault::TokenFault;
pub use laws::{printed_tokens_are_read, spellings_are_unique};
pub use printer::{put_entry, put_names, put_token, write_token};
pub use reader::read_token;
pub use token::Token;
