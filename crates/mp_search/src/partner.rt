//! Siblings that have one variable as their second argument.
ghost use Rattle.std.specs.Prelude.{◌≡◌, true, IfSome, IsTrue, map};
ghost use Rattle.std.specs.List.Sorted.{IsSorted};
ghost use Rattle.mp_term.specs.Listing.{In};
ghost use Rattle.mp_pattern.specs.PatternTree.{patterns};
ghost use Rattle.mp_pattern.specs.Subpatterns.{subpatterns, all_subpatterns};
ghost use Rattle.mp_pattern.specs.View.{pattern_tree};
ghost use Rattle.mp_subst.specs.Trail.{GoesWith};
ghost use Rattle.mp_table.specs.Subterms.{arguments};
ghost use Rattle.mp_table.specs.Table.{HasRank, HasRanks, IsTable, rank_cmp, term_at};
ghost use Rattle.mp_table.specs.declared.rank.Rank.{Rank as plain_rank};
ghost use Rattle.mp_search.specs.Parts.{StandsAt};
ghost use Rattle.mp_search.specs.Partners.{AreAlike, ArePair, ArePartners, HasSecond, HaveSecond, IsDot, IsFlat};
ghost use Rattle.mp_search.specs.Partners.{ShareSecond};
ghost use Rattle.mp_search.specs.Portion.{second_is};
ghost use Rattle.mp_search.specs.Query.{IsQuery};
ghost use Rattle.mp_search.specs.Reading.{subst_of};
ghost use Rattle.mp_search.specs.Site.{IsSite};

use crate::candidates::{has_second, places_of, tells_first};
use crate::end::{end_of, first_below};
use crate::query::Query;
use crate::site::Site;
use crate::variable::number_at;
use mp_pattern::{Pattern, Shape};
use mp_subst::Trail;
use mp_table::{Rank, Table};

// How many partners are looked at, at most.
const FEW: usize = 8;

// Whether both are applications of one operation.
pub(crate) fn are_alike(child: &Pattern, other: &Pattern) -> bool
    ensures { IsTrue result → AreAlike (pattern_tree child.now) (pattern_tree other.now) }
{
    match (child, other) {
        (Pattern::App(op, _), Pattern::App(own, _)) => op.0 == own.0,
        _ => false,
    }
}

// Whether the pattern is no application.
fn is_flat(child: &Pattern) -> bool
    ensures { IsTrue result → IsFlat (pattern_tree child.now) }
{
    !matches!(child, Pattern::App(_, _))
}

// The number of the variable of the child, where that is a dot.
fn dot_number(query: &Query<'_>, child: &Pattern, node: u32) -> Option<u32>
    requires query { IsQuery query.now }
    requires child { StandsAt query.now node (subpatterns (pattern_tree child.now)) }
    ensures { IfSome result (IsDot query.now (pattern_tree child.now)) }
{
    match child {
        Pattern::Wild(shape, _) => match shape {
            Shape::Dot => number_at(query, child, node),
            _ => None,
        },
        _ => None,
    }
}

// The number of the variable that is the second of two children, where the first is no application.
fn second_variable(query: &Query<'_>, children: &[Pattern], node: u32) -> Option<u32>
    requires query { IsQuery query.now }
    requires children { StandsAt query.now node (all_subpatterns (patterns (map pattern_tree children.now))) }
    ensures { IfSome result (HaveSecond query.now (patterns (map pattern_tree children.now))) }
{
    match children {
        [] => None,
        [child, later @ ..] => match later {
            [second] => {
                if !is_flat(child) {
                    return None;
                }
                let end = end_of(query, child, node);
                dot_number(query, second, end)
            }
            _ => None,
        },
    }
}

// The number of the variable that is the second argument of the application, where it can't be collapsed and its
// children take one argument each, two in all.
fn second_number(query: &Query<'_>, child: &Pattern, node: u32) -> Option<u32>
    requires query { IsQuery query.now }
    requires child { StandsAt query.now node (subpatterns (pattern_tree child.now)) }
    ensures { IfSome result (HasSecond query.now (pattern_tree child.now)) }
{
    match child {
        Pattern::App(op, children) => {
            let children = children.as_slice();
            if !tells_first(query.sig, *op, children) {
                return None;
            }
            second_variable(query, children, first_below(query, child, node))
        }
        _ => None,
    }
}

// Whether both are applications of one operation with one variable as their second argument, which has no value yet.
fn share_second(
    query: &Query<'_>,
    trail: &Trail,
    child: &Pattern,
    node: u32,
    other: &Pattern,
    other_node: u32,
) -> bool
    requires query { IsQuery query.now }
    requires trail { GoesWith query.now.table.now trail.now }
    requires child { StandsAt query.now node (subpatterns (pattern_tree child.now)) }
    requires other { StandsAt query.now other_node (subpatterns (pattern_tree other.now)) }
    ensures { IsTrue result → ArePair query.now (pattern_tree child.now) (pattern_tree other.now) }
{
    if !are_alike(child, other) {
        return false;
    }
    let Some(own) = second_number(query, child, node) else {
        return false;
    };
    match second_number(query, other, other_node) {
        None => false,
        Some(var) => var == own && trail.binding(own).is_none(),
    }
}

// The terms that are left to the next sibling, where that and the child have one variable as their second argument, and
// these are few.
pub(crate) fn partners_of<'a>(
    query: &Query<'_>,
    site: &Site<'a>,
    trail: &Trail,
) -> Option<&'a [Rank]>
    requires query { IsQuery query.now }
    requires site { IsSite query.now site.now }
    requires trail { GoesWith query.now.table.now trail.now }
    requires ascending { IsSorted rank_cmp site.now.left.now }
    ensures ranks { IfSome result (λ rs. HasRanks query.now.table.now rs.now) }
    ensures partners { IfSome result (λ rs. ArePartners query.now site.now (subst_of query.now trail.now) rs.now) }
{
    match site.later {
        [] => None,
        [next, ..] => {
            let node = end_of(query, site.child, site.node);
            if !share_second(query, trail, site.child, site.node, next, node) {
                return None;
            }
            let (first, end) = places_of(query, trail, next, node, site.left);
            if end - first > FEW {
                return None;
            }
            Some(&site.left[first..end])
        }
    }
}

// Whether one of the terms has that second argument.
fn some_has_second(table: &Table, ranks: &[Rank], second: Rank) -> bool
    requires table { IsTable table.now }
    requires ranks { HasRanks table.now ranks.now }
    requires second { HasRank table.now second }
    ensures { (r : plain_rank) → In r ranks.now
        → second_is (term_at table.now second) (arguments (term_at table.now r)) ≡ true → IsTrue result }
{
    match ranks {
        [] => false,
        [rank, others @ ..] => {
            if has_second(table, *rank, second) {
                return true;
            }
            some_has_second(table, others, second)
        }
    }
}

// Whether one of the terms has the second argument of the term.
pub(crate) fn has_partner(table: &Table, ranks: &[Rank], rank: Rank) -> bool
    requires table { IsTable table.now }
    requires ranks { HasRanks table.now ranks.now }
    requires rank { HasRank table.now rank }
    ensures { (r : plain_rank) → In r ranks.now
        → ShareSecond (arguments (term_at table.now rank)) (arguments (term_at table.now r)) → IsTrue result }
{
    match table.args(rank) {
        [] => false,
        [_, later @ ..] => match later {
            [] => false,
            [second, ..] => some_has_second(table, ranks, *second),
        },
    }
}
