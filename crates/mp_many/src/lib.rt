//! Many rules at once: the tree of the prefixes of their patterns' tokens, and the walk of a subject over it.
// What the patterns share is read once.
#![tactic(auto)]

mod all;
mod digest;
mod group;
mod laws;
mod lists;
mod many;
mod marks;
mod names;
mod states;
mod token;
mod tokens;
mod tree;
mod walk;

pub use laws::{
    a_rule_has_one_item_with_a_substitution, a_table_with_the_constants_of_the_rules_may_be_walked,
    a_walk_over_the_tree_has_the_items_of_the_rules, an_item_of_a_walk_makes_the_subject,
    rules_have_their_all_list, the_tree_is_of_the_prefixes,
};
pub use many::{Many, State};
pub use walk::Walk;
