//! The tokens and the grammar of rule files: syntax trees with places, and the parser of the parts of statements.
#![tactic(auto)]

pub mod arena;
mod atom;
mod condition;
pub mod condition_tree;
mod declaration;
mod edit;
mod expression;
pub mod fault;
mod lexer;
pub mod limits;
pub mod parser;
pub mod place;
mod rule;
pub mod token;
pub mod tree;
pub mod word;

pub use crate::lexer::first_token_place;
