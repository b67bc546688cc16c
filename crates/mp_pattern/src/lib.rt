//! Patterns, templates, conditions and rules over a signature as data, and what matching is.
#![tactic(auto)]

mod above;
mod compile;
mod condition;
mod constant;
mod copy;
mod entry;
mod first_names;
mod laws;
mod limits;
mod named;
mod net_token;
mod normal;
mod numbering;
mod order;
mod outline;
mod pattern;
mod plan;
mod planned;
mod rule;
mod syntactic;
mod template;
mod tokens;

pub use above::{is_assoc_above, is_comm_above};
pub use compile::PlanFault;
pub use condition::{Amount, BoxedCond, Cond, Conds, Operand, Sense};
pub use constant::{
    constants, push_cond_constants, push_pattern_constants, rule_constants, term_listing,
};
pub use copy::{copy_cond, copy_pattern, copy_shape};
pub use entry::{Entries, Entry, Form};
pub use first_names::variable_names;
pub use laws::{
    a_plan_has_one_pattern, constants_of_sound_rules_are_normal_and_few, ground_patterns_are_terms,
    instances_of_sound_templates_are_well_formed, nodes_and_variables_decide_the_pattern,
    normal_pattern_is_idempotent, normal_pattern_is_no_larger, normal_pattern_keeps_no_clash,
    normal_pattern_keeps_variables, pattern_order_is_total, sound_rules_can_be_matched,
    subpatterns_are_normal,
};
pub use limits::{
    MAX_ATOMS, MAX_COUNT, MAX_DEFAULT_NODES, MAX_DEPTH, MAX_EDIT_STATEMENTS, MAX_INDEX, MAX_NUMBER,
    MAX_OPERAND_NODES, MAX_PATTERN_NODES, MAX_RULES, MAX_SUBJECTS, MAX_TERM_NODES, MAX_VARIABLES,
};
pub use named::is_fully_named;
pub use net_token::{NetToken, NetTokens};
pub use normal::normalise_pattern;
pub use numbering::{renamed, variable_number};
pub use order::pattern_compare;
pub use pattern::{Pattern, Patterns, Shape, meets_count, no_sequence};
pub use plan::{Plan, PlanNode};
pub use planned::{PlannedRule, plan_rules};
pub use rule::{Rule, Rules};
pub use syntactic::is_syntactic;
pub use template::{Template, Templates};
pub use tokens::{tokens_of, wild_token};
