//! The limits of a rule file's text.

/// How many bytes a word, or the name or the kind of a wildcard, has at most.
pub const MAX_WORD_BYTES: usize = 64;

/// How many brackets stand open at once at most.
pub const MAX_OPEN: usize = 100;
