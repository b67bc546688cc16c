//! What is known of a node before any search.
ghost use Rattle.std.specs.Prelude.{◌≡◌, Some, slice_get, option_map, IfSome};
ghost use Rattle.mp_pattern.specs.View.{pattern_tree};
ghost use Rattle.mp_pattern.specs.Subpatterns.{subpatterns};
ghost use Rattle.mp_table.specs.Table.{term_at, HasRank};
ghost use Rattle.mp_search.specs.Grounds.{ground_of};
ghost use Rattle.mp_search.specs.Query.{IsQuery};

use crate::grounds::Ground;
use crate::query::Query;
use mp_pattern::Pattern;
use mp_table::Rank;

// The rank of the symbol of the node, or of its default.
pub(crate) fn ground_rank(query: &Query<'_>, child: &Pattern, node: u32) -> Option<Rank>
    requires query { IsQuery query.now }
    requires child { slice_get (subpatterns query.now.plan.now.pattern) node ≡ Some (pattern_tree child.now) }
    ensures term { option_map (term_at query.now.table.now) result ≡ ground_of (pattern_tree child.now) }
    ensures within { IfSome result (HasRank query.now.table.now) }
{
    // Any reference makes the child's tree one of the contract.
    let _ = child;
    match query.grounds[node as usize] {
        Ground::At(rank) => Some(rank),
        _ => None,
    }
}
