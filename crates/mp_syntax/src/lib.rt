//! The text of rule files: the reading of files, and of expressions and conditions alone, as syntax trees with places,
//! or their first fault.
#![tactic(auto)]

mod bad_token;
mod condition;
mod expression;
pub mod laws;
pub mod statement;

pub use crate::condition::{condition_is_a_function, printed_condition_is_read, read_condition};
pub use crate::expression::{
    expression_is_a_function, printed_expression_is_read, read_expression,
};
pub use crate::statement::{read_rule_end, read_statement, read_statements};
pub use mp_parser::condition_tree::{
    Alternative, Amount, Atom, Condition, Literal, Measure, Property, Relation, Sense,
};
pub use mp_parser::fault::{Fault, FaultKind, SyntaxError};
pub use mp_parser::limits::{MAX_OPEN, MAX_WORD_BYTES};
pub use mp_parser::place::Place;
pub use mp_parser::tree::{Change, Expr, Flag, Position, Replacement, Statement, Wildcard};
pub use mp_parser::word::{InfixSign, Word};
pub use mp_parser::{condition_tree, fault, first_token_place, limits, place, token, tree, word};
