//! The limit of constants.

/// The greatest number of nodes that the constants of a table have together.
pub const MAX_CONSTANT_NODES: u64 = 1_000_000_000;
