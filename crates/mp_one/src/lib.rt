//! One-to-one matching: what one rule admits on one subject, one item after the other, and the check of one take table.
#![tactic(auto)]

mod check;
mod choices;
mod node;
mod pieces;
mod stack;
mod terms;
mod trail;
mod trail_value;

pub use check::check_takes;
pub use mp_cursor::{
    Cursor, CursorRoom, MAX_ROOM_NODES, MAX_ROOM_VARS, MAX_ROOM_WIDTH, NotAnItem, first_subst,
    may_fit, room_for,
};
pub use mp_token::{Token, TokenEntries, TokenFault, read_token, write_token};
