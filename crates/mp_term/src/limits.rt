//! The limits of signatures, terms and edits, each said once: code, contracts and specs name these constants.

/// The greatest number of bytes of a name.
pub const MAX_NAME_BYTES: usize = 64;

/// The greatest number of bytes of an infix sign.
pub const MAX_SIGN_BYTES: usize = 4;

/// The greatest least number of arguments that an operation is declared with.
pub const MAX_ARITY: u32 = 1_000;

/// The greatest number of operations.
pub const MAX_OPS: u32 = 256;

/// The greatest number of kinds, the built-in one among them.
pub const MAX_KINDS: u32 = 256;

/// The greatest number of symbols that are written in the declaration of one kind.
pub const MAX_KIND_SYMBOLS: usize = 10_000;

/// The greatest number of nodes of a term that edits may give, and of a subject.
pub const MAX_TERM_NODES: u64 = 100_000;

/// The greatest depth of a term that edits may give, and of a subject and a pattern, that of a symbol being 0.
pub const MAX_DEPTH: u64 = 100;

/// The greatest number of edits that are made at once.
pub const MAX_EDITS: usize = 1_000;
