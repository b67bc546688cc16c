//! Where the nodes of a child end.
ghost use Rattle.std.specs.Prelude.{◌≡◌, ◌+◌, length};
ghost use Rattle.mp_pattern.specs.View.{pattern_tree};
ghost use Rattle.mp_pattern.specs.Subpatterns.{subpatterns};
ghost use Rattle.mp_search.specs.Parts.{StandsAt};
ghost use Rattle.mp_search.specs.Query.{IsQuery};

use crate::query::Query;
use mp_pattern::Pattern;

// The number of the node after those of the child.
pub(crate) fn end_of(query: &Query<'_>, child: &Pattern, node: u32) -> u32
    requires query { IsQuery query.now }
    requires child { StandsAt query.now node (subpatterns (pattern_tree child.now)) }
    ensures { result ≡ node + length (subpatterns (pattern_tree child.now)) }
{
    let _ = child;
    let Some(end) = query.plan.end(node) else {
        unreachable!()
    };
    end
}

// The number of the node after that of the child, which is its first child's where it has one.
pub(crate) fn first_below(query: &Query<'_>, child: &Pattern, node: u32) -> u32
    requires query { IsQuery query.now }
    requires child { StandsAt query.now node (subpatterns (pattern_tree child.now)) }
    ensures { result ≡ node + 1 }
{
    // The child is one of the plan's nodes, which are few.
    let _ = child;
    let _ = query.plan.len();
    node + 1
}
