//! What is left behind an entry.
ghost use Rattle.std.specs.Prelude.{◌≡◌, ◌<◌, ◌+◌, ◌∷◌, [], map, length, take};
ghost use Rattle.mp_term.specs.Order.{tree_cmp};
ghost use Rattle.mp_term.specs.Pieces.{without};
ghost use Rattle.mp_pattern.specs.Fits as fits;
ghost use Rattle.mp_pattern.specs.PatternTree.{app_pattern, patterns};
ghost use Rattle.mp_pattern.specs.View.{pattern_tree};
ghost use Rattle.mp_table.specs.Table.{terms_at};
ghost use Rattle.mp_theory.specs.Machine as machine;
ghost use Rattle.mp_search.specs.Frames.{frame_of, inner_of, left_of, rest_at, LeftBelow};
ghost use Rattle.mp_search.specs.Reading.{entry_at};

use crate::level::Level;
use crate::query::Query;
use crate::stack::{Frame, Left, Place};
use mp_pattern::{Pattern, Shape};
use mp_table::Rank;
use mp_term::OpId;

// Whether the child is an optional wildcard that takes the empty list.
fn is_left_out(query: &Query<'_>, child: &Pattern, ranks: &[Rank]) -> bool
    ensures { result ≡ fits.is_left_out (pattern_tree child.now) (terms_at query.now.table.now ranks.now) }
{
    match child {
        Pattern::Wild(Shape::Opt(_), _) => ranks.is_empty(),
        _ => false,
    }
}

// What is left for the later children once the child of node k has taken its entry.
pub(crate) fn rest_frame<'a>(
    query: &Query<'_>,
    place: &Place<'a>,
    levels: &[Level],
    k: usize,
) -> Frame<'a>
    requires within { k < length levels.now }
    requires rest { rest_at query.now levels.now k
        ≡ without tree_cmp (entry_at query.now.table.now levels.now k).terms
        (left_of query.now (take k levels.now) place.now.left) }
    ensures frame { frame_of query.now levels.now result
        ≡ machine.taken_out (pattern_tree place.now.child.now) (entry_at query.now.table.now levels.now k)
        (inner_of query.now (take k levels.now) place.now) }
    ensures below { LeftBelow (k + 1) result.left }
{
    let ranks = levels[k].take.as_slice();
    Frame {
        under: place.under,
        children: place.later,
        left: Left::Rest(k),
        owes: place.owes && !is_left_out(query, place.child, ranks),
    }
}

// What the children of an application are to take, where it takes the entry of node k.
pub(crate) fn inner_frame<'a>(
    query: &Query<'_>,
    op: OpId,
    children: &'a [Pattern],
    levels: &[Level],
    k: usize,
) -> Frame<'a>
    requires within { k < length levels.now }
    ensures frame { frame_of query.now levels.now result ∷ []
        ≡ machine.entered (app_pattern op.0 (patterns (map pattern_tree children.now)))
        (entry_at query.now.table.now levels.now k) [] }
    ensures below { LeftBelow (k + 1) result.left }
{
    // The frame reads the terms of the entry in the query's table.
    let _ = query;
    let collapsed = levels[k].collapsed;
    let left = if collapsed {
        Left::Take(k)
    } else {
        Left::Args(k)
    };
    Frame {
        under: Some(op),
        children,
        left,
        owes: collapsed,
    }
}
