//! Children of which the trail tells what they take, so that a search goes on in one way at most.
ghost use Rattle.std.specs.Prelude.{◌++◌, map, IsTrue};
ghost use Rattle.mp_pattern.specs.PatternTree.{patterns, more_patterns};
ghost use Rattle.mp_pattern.specs.Subpatterns.{subpatterns, all_subpatterns};
ghost use Rattle.mp_pattern.specs.View.{pattern_tree};
ghost use Rattle.mp_subst.specs.Trail.{GoesWith};
ghost use Rattle.mp_search.specs.OneWay.{IsTold, AreTold, IsToldWithin, IsAnyWild, HaveOneWay};
ghost use Rattle.mp_search.specs.Parts.{StandsAt, IsWild};
ghost use Rattle.mp_search.specs.Query.{IsQuery};
ghost use Rattle.mp_search.specs.Reading.{subst_of};

use crate::end::{end_of, first_below};
use crate::may_match::is_plain;
use crate::query::Query;
use crate::variable::number_at;
use mp_pattern::{Pattern, Shape};
use mp_subst::Trail;

// Whether the wildcard's variable has a value.
pub(crate) fn has_value(query: &Query<'_>, trail: &Trail, child: &Pattern, node: u32) -> bool
    requires query { IsQuery query.now }
    requires trail { GoesWith query.now.table.now trail.now }
    requires child { StandsAt query.now node (subpatterns (pattern_tree child.now)) }
    requires wild { IsWild (pattern_tree child.now) }
    ensures { IsTrue result → IsTold (subst_of query.now trail.now) (pattern_tree child.now) }
{
    match number_at(query, child, node) {
        None => false,
        Some(var) => trail.binding(var).is_some(),
    }
}

// Whether the child is a symbol, or a wildcard that isn't optional and whose variable has a value.
fn is_told(query: &Query<'_>, trail: &Trail, child: &Pattern, node: u32) -> bool
    requires query { IsQuery query.now }
    requires trail { GoesWith query.now.table.now trail.now }
    requires child { StandsAt query.now node (subpatterns (pattern_tree child.now)) }
    ensures { IsTrue result → IsTold (subst_of query.now trail.now) (pattern_tree child.now) }
{
    match child {
        Pattern::Sym(_) => true,
        Pattern::Wild(Shape::Opt(_), _) => false,
        Pattern::Wild(_, _) => has_value(query, trail, child, node),
        Pattern::App(_, _) => false,
    }
}

// Whether each child is so.
fn are_told(query: &Query<'_>, trail: &Trail, children: &[Pattern], node: u32) -> bool
    requires query { IsQuery query.now }
    requires trail { GoesWith query.now.table.now trail.now }
    requires children { StandsAt query.now node (all_subpatterns (patterns (map pattern_tree children.now))) }
    ensures { IsTrue result → AreTold (subst_of query.now trail.now) (patterns (map pattern_tree children.now)) }
{
    match children {
        [] => true,
        [child, later @ ..] => {
            is_told(query, trail, child, node)
                && are_told(query, trail, later, end_of(query, child, node))
        }
    }
}

// Whether the child is an application that can't be collapsed to children that are so and take their terms in order,
// one each.
pub(crate) fn is_told_within(query: &Query<'_>, trail: &Trail, child: &Pattern, node: u32) -> bool
    requires query { IsQuery query.now }
    requires trail { GoesWith query.now.table.now trail.now }
    requires child { StandsAt query.now node (subpatterns (pattern_tree child.now)) }
    ensures { IsTrue result
        → IsToldWithin query.now.sig.now (subst_of query.now trail.now) (pattern_tree child.now) }
{
    match child {
        Pattern::App(op, children) => {
            let children = children.as_slice();
            if query.sig.is_one(*op) {
                return false;
            }
            is_plain(query.sig, Some(*op), children)
                && are_told(query, trail, children, first_below(query, child, node))
        }
        _ => false,
    }
}

// Whether the child is a wildcard.
fn is_wild(child: &Pattern) -> bool
    ensures { IsTrue result → IsAnyWild (pattern_tree child.now) }
{
    matches!(child, Pattern::Wild(_, _))
}

// Whether there is one way at most from the child on: it and its later siblings are such applications, but for a
// wildcard that may be the last one.
pub(crate) fn has_one_way(
    query: &Query<'_>,
    trail: &Trail,
    child: &Pattern,
    node: u32,
    later: &[Pattern],
) -> bool
    requires query { IsQuery query.now }
    requires trail { GoesWith query.now.table.now trail.now }
    requires children { StandsAt query.now node
        (subpatterns (pattern_tree child.now) ++ all_subpatterns (patterns (map pattern_tree later.now))) }
    ensures { IsTrue result → HaveOneWay query.now.sig.now (subst_of query.now trail.now)
        (more_patterns (pattern_tree child.now) (patterns (map pattern_tree later.now))) }
{
    match later {
        [] => is_wild(child) || is_told_within(query, trail, child, node),
        [next, others @ ..] => {
            is_told_within(query, trail, child, node)
                && has_one_way(query, trail, next, end_of(query, child, node), others)
        }
    }
}
