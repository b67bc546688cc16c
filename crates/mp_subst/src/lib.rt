//! Values of variables, substitutions and trails: how two values merge, how substitutions compare, what a template
//! becomes under one, and the bindings of a search, which are taken back in turn.
#![tactic(auto)]

mod apply_fault;
mod applying;
mod binding;
mod bound;
mod copy;
mod instance;
mod instance_size;
mod joining;
mod merging;
mod multiset;
mod order;
mod pair;
mod pairs;
mod subst;
mod trail;
mod value;

pub use apply_fault::ApplyFault;
pub use applying::apply;
pub use bound::Bound;
pub use copy::{copy_subst, copy_value};
pub use joining::same_rank_multiset;
pub use merging::merge;
pub use multiset::same_multiset;
pub use order::{compare_subst, compare_value, same_subst};
pub use pair::Pair;
pub use pairs::Pairs;
pub use subst::{Binding, Bindings, Subst};
pub use trail::{Mark, Trail};
pub use value::Value;
