//! The limit of a net.

// The most states of a net.
pub(crate) const MAX_STATES: usize = 4096;
