//! Rewriting: steps at the first position of a term at which a rule admits something, one or many.
#![tactic(auto)]

mod below;
mod cancellation;
mod cancelled;
mod fault;
mod in_place;
mod known;
mod known_redex;
mod laws;
mod quiet;
mod redex;
mod rewrite;
mod rules;
mod run;
mod stop;
mod taken;
mod turn;
mod turns;
mod valid;

pub use fault::RewriteFault;
pub use laws::{next_step_is_the_step, rewriting_is_the_rewriting, steps_keep_terms_rewritable};
pub use rewrite::{Rewritten, replace_all, step};
