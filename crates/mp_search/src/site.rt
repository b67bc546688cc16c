//! A child that is to take.
use mp_pattern::Pattern;
use mp_table::Rank;
use mp_term::OpId;

// A child, its number in the plan, the operation above, its siblings that are to take after it, what is left for it and
// them, and whether one of them must be left out. What holds of it is `IsSite` of `specs/Site.antt`.
#[derive(Clone, Copy)]
pub(crate) struct Site<'a> {
    pub(crate) child: &'a Pattern,
    pub(crate) node: u32,
    pub(crate) under: Option<OpId>,
    pub(crate) later: &'a [Pattern],
    pub(crate) left: &'a [Rank],
    pub(crate) owes: bool,
}
