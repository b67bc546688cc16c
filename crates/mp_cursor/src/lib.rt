//! One-to-one matching: the items of one rule on one subject, one after the other.
#![tactic(auto)]

mod cursor;
mod cursor_room;
mod direct;
mod entries;
mod first;
mod kept;
mod least;
mod look;
mod matched;
mod parts;
mod root;
mod takes;
mod wildcards;

pub use cursor::{Cursor, NotAnItem};
pub use cursor_room::{CursorRoom, MAX_ROOM_NODES, MAX_ROOM_VARS, MAX_ROOM_WIDTH};
pub use first::{first_subst, room_for};
pub use root::may_fit;
