//! The search for take tables over the ranks of a table: from a place and a trail it finds the first table, the first
//! one after another, or that one alone, in room that is made before.
#![tactic(auto)]

mod behind;
mod binding;
mod bounds;
mod candidates;
mod choice;
mod descent;
mod end;
mod ends;
mod ground;
mod grounds;
mod headed;
mod judge;
mod lengths;
mod level;
mod lists;
mod look;
mod may_match;
mod mode;
mod next;
mod node;
mod own;
mod partner;
mod pieces;
mod portion;
mod prepare;
mod query;
mod reads;
mod rivals;
mod room;
mod shares;
mod site;
mod stack;
mod stage;
mod supply;
mod told;
mod variable;

pub use descent::find;
pub use grounds::{Ground, Grounds};
pub use level::{Level, Source, vacant_levels};
pub use mode::Mode;
pub use pieces::place_of;
pub use query::{Query, Start};
pub use reads::{has_head, is_contribution, is_of_kind};
pub use room::Room;
pub use stage::Stage;
