//! Tables of terms: the distinct subterms of a subject and of constants, each by its rank in the term order.
#![tactic(auto)]

mod entries;
mod entry;
mod guess;
mod laws;
mod limits;
mod node;
mod piece;
mod pieces;
mod preorder;
mod rank;
mod search;
mod table;

pub use laws::{pieces_of_ranks_are_pieces_of_terms, ranks_compare_as_their_terms};
pub use limits::MAX_CONSTANT_NODES;
pub use rank::{Head, Rank};
pub use search::compare_apps;
pub use table::Table;
