//! Where a search is over behind the item at hand, as it is seen at once.
ghost use Rattle.std.specs.Prelude.{◌≡◌, ◌≤◌, length, IsTrue};
ghost use Rattle.mp_pattern.specs.View.{pattern_tree};
ghost use Rattle.mp_ac.specs.Spent.{IsLast, IsOfWildcard, IsSpent};

use crate::pick::Pick;
use mp_pattern::{Pattern, Plan};

// Whether the child takes the last of the terms that it may take.
fn is_last(pick: &Pick) -> bool
    ensures { IsTrue result → IsLast pick.now }
{
    pick.end.saturating_sub(pick.at) == 1
}

// Whether the pattern is an application to one wildcard.
fn is_of_wildcard(pattern: &Pattern) -> bool
    ensures { IsTrue result → IsOfWildcard (pattern_tree pattern.now) }
{
    match pattern {
        Pattern::App(_, children) => matches!(children.as_slice(), [Pattern::Wild(..)]),
        _ => false,
    }
}

// Whether it is seen that no item comes behind the one at hand: each child that takes one term took the last of those
// that it may take, and one wildcard takes what is left.
pub(crate) fn is_spent(plan: &Plan, count: usize, picks: &[Pick]) -> bool
    requires { count ≤ length picks.now }
    ensures { IsTrue result → IsSpent plan.now count picks.now }
{
    is_of_wildcard(plan.pattern()) && picks[..count].iter().all(is_last)
}
