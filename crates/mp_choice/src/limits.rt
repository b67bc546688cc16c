//! The limit of the generators, which code, contracts and specs name.

/// The greatest length that is split, the greatest sum of least lengths, the greatest sum of counts, and the greatest
/// number of coefficients.
pub const MAX_TOTAL: u32 = 1_000_000;
