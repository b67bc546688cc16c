//! What the syntax trees of a rule file stand for: its signature, and over it terms, patterns, conditions and edits,
//! checked; and terms, patterns and conditions of texts that hold one alone.
//!
//! A call that makes something of a syntax tree answers it, or the first fault that the checks find in the tree, or
//! that memory ran out: `Gives` of `specs/Answers.antt`. What each tree stands for is said by `specs/Build.antt`,
//! `specs/Conditions.antt` and `specs/Edits.antt`, and its faults by `specs/Checks.antt`, `specs/ConditionChecks.antt`
//! and `specs/TemplateChecks.antt`.
#![tactic(auto)]

mod alone;
mod arguments;
mod atom;
mod build;
mod checks;
mod cond_alone;
mod condition;
mod condition_size;
mod declaration;
mod edit;
mod extent;
mod fault;
mod flags;
mod given;
mod normal;
mod operations;
mod scope;
mod wildcard;
mod written;

pub use alone::{read_pattern, read_term};
pub use arguments::{Arguments, head_op, sign_op};
pub use build::{new_name, normal_built, normal_term, symbol, whole_pattern, wildcard_in_term};
pub use checks::{is_large_pattern, is_large_template, is_large_term, number_of};
pub use cond_alone::{read_cond, read_loose_cond};
pub use condition::build_condition;
pub use condition_size::is_large_condition;
pub use declaration::{check_name, declare};
pub use edit::{build_edits, check_edits_of, is_large_edit};
pub use extent::Extent;
pub use fault::{TextError, TextFault, TextKind, error_at, if_faultless};
pub use normal::{normal_built_pattern, normal_pattern};
pub use operations::find_decl;
pub use scope::{Scope, Variable, is_bound, is_bound_sequence, pattern_variables};
pub use wildcard::{DefaultForm, PatternWildcard, build_wildcard};
