//! What a search is asked.
use crate::grounds::Ground;
use mp_pattern::{Cond, Pattern, Plan};
use mp_table::{Rank, Table};
use mp_term::{OpId, Signature};

/// Where a search starts: the operation above, its children, what they are to take together, and whether one of them
/// must be left out.
#[derive(Clone, Copy)]
pub struct Start<'a> {
    /// The operation above, or none for a pattern that stands alone.
    pub under: Option<OpId>,
    /// The children, which are those of the plan's nodes from the first one of the query on.
    pub children: &'a [Pattern],
    /// The terms that they are to take together: ascending under a commutative operation, and else in turn.
    pub left: &'a [Rank],
    /// One of the children must be left out, as in an application that is collapsed.
    pub owes: bool,
}

/// What a search goes by. What it may count on is `IsQuery` of `specs/Query.antt`.
#[derive(Clone, Copy)]
pub struct Query<'a> {
    /// The signature of the pattern and of the table's terms, which are normal over it.
    pub sig: &'a Signature,
    /// The plan of the pattern that the children are of.
    pub plan: &'a Plan,
    /// The plan's number of the first child.
    pub first: u32,
    /// The number that each variable of the plan has in the trail.
    pub vars: &'a [u32],
    /// The terms by rank, with the symbols and the defaults of the pattern.
    pub table: &'a Table,
    /// What is known of each node of the plan: the ranks of its symbols and of its defaults.
    pub grounds: &'a [Ground],
    /// What a substitution is to meet, where it is to meet anything.
    pub condition: Option<&'a Cond>,
    /// How many ranks there is room for at each node: as many as the terms that are to be taken have nodes together, or
    /// more.
    pub width: usize,
    /// Where the search starts.
    pub start: Start<'a>,
}
