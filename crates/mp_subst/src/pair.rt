//! What a rule admits on a subject.
use crate::subst::Subst;

/// The number of a rule, its index from 0, and a substitution that the rule admits.
/// Contracts see it as the pair `pair_of` of `specs/View.antt`.
#[derive(Drop)]
pub struct Pair {
    /// The rule's index, from 0.
    pub rule: u32,
    /// What the rule admits.
    pub subst: Subst,
}
