//! The matches of a file as lines: all of them or so many, from the first on or from behind the match of a token. So
//! are listed the matches that a cursor finds rule by rule, and the pairs that a matcher finds for all rules together.
#![tactic(auto)]

mod fault;
mod laws;
mod left;
mod line;
mod list;
mod matcher;
mod matches;
mod pairs;
mod ranked;
mod resume;
mod stop;
mod told;

pub use fault::ListFault;
pub use list::list_matches;
pub use matcher::{Line, Matcher};
pub use pairs::{list_pairs, put_pairs, put_ranked_pairs};
pub use told::Told;
