//! The numbers of variables in the trail.
ghost use Rattle.std.specs.Prelude.{◌≡◌, Some, None, slice_get, IsFalse};
ghost use Rattle.mp_pattern.specs.View.{pattern_tree};
ghost use Rattle.mp_pattern.specs.Subpatterns.{subpatterns};
ghost use Rattle.mp_search.specs.declared.query.Query.{Query as plain_query};
ghost use Rattle.mp_search.specs.Numbers.{IsNumberAt};
ghost use Rattle.mp_search.specs.Query.{IsQuery};

use crate::query::Query;
use mp_pattern::Pattern;

// Whether the child is a wildcard with a name.
fn is_named(child: &Pattern) -> bool
    ensures { IsFalse result → (q : plain_query) → IsNumberAt q (pattern_tree child.now) None }
{
    matches!(child, Pattern::Wild(_, Some(_)))
}

// The number in the trail of the variable of the node, if it has one.
pub(crate) fn number_at(query: &Query<'_>, child: &Pattern, node: u32) -> Option<u32>
    requires query { IsQuery query.now }
    requires child { slice_get (subpatterns query.now.plan.now.pattern) node ≡ Some (pattern_tree child.now) }
    ensures { IsNumberAt query.now (pattern_tree child.now) result }
{
    if !is_named(child) {
        return None;
    }
    match query.plan.variable_at(node) {
        None => None,
        Some(number) => Some(query.vars[number as usize]),
    }
}
