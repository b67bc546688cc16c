//! The limits of rules, conditions and subjects, each said once: code, contracts and specs name these constants.

/// The greatest number of nodes of a pattern, a wildcard with its default being one node, and of a template.
pub const MAX_PATTERN_NODES: u32 = 128;

/// The greatest number of nodes of the default of an optional wildcard.
pub const MAX_DEFAULT_NODES: u64 = 64;

/// The greatest count of a counted wildcard.
pub const MAX_COUNT: u32 = 1_000;

/// The greatest number of variables of a pattern.
pub const MAX_VARIABLES: usize = 32;

/// The greatest number of nodes of a ground operand of a condition.
pub const MAX_OPERAND_NODES: u64 = 64;

/// The greatest number of atoms of a condition.
pub const MAX_ATOMS: u64 = 64;

/// The greatest number that is written in a condition.
pub const MAX_NUMBER: u32 = 1_000_000;

/// The greatest number of nodes of a subject.
pub const MAX_TERM_NODES: u64 = mp_term::MAX_TERM_NODES;

/// The greatest depth of a pattern and of a term, that of a symbol being 0.
pub const MAX_DEPTH: u64 = mp_term::MAX_DEPTH;

/// The greatest number of rules.
pub const MAX_RULES: usize = 1_000;

/// The greatest number of subjects.
pub const MAX_SUBJECTS: usize = 1_000;

/// The greatest number of edit statements.
pub const MAX_EDIT_STATEMENTS: usize = 1_000;

/// The greatest index in a position of an edit that may name an argument.
pub const MAX_INDEX: u32 = 1_000_000;
