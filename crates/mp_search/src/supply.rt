//! Whether children that are marked have as many terms to take as they are.
ghost use Rattle.std.specs.Prelude.{◌≡◌, ◌<◌, ◌≤◌, ◌+◌, ◌∷◌, List, true, IsTrue, map, length, drop, MatchBool};
ghost use Rattle.mp_term.specs.Order.{tree_cmp};
ghost use Rattle.mp_term.specs.Pieces.{without};
ghost use Rattle.mp_pattern.specs.PatternTree.{patterns};
ghost use Rattle.mp_pattern.specs.Subpatterns.{subpatterns, all_subpatterns};
ghost use Rattle.mp_pattern.specs.View.{pattern_tree};
ghost use Rattle.mp_table.specs.Table.{HasRank, HasRanks, rank_cmp, term_at, terms_at};
ghost use Rattle.mp_subst.specs.Trail.{GoesWith};
ghost use Rattle.mp_theory.specs.MayMatch as look;
ghost use Rattle.mp_theory.specs.Supply.{marked, passing};
ghost use Rattle.mp_search.specs.Frames.{above};
ghost use Rattle.mp_search.specs.Lacking as lacking;
ghost use Rattle.mp_search.specs.Parts.{StandsAt};
ghost use Rattle.mp_search.specs.Query.{IsQuery};
ghost use Rattle.mp_search.specs.Reading.{subst_of};

use crate::end::end_of;
use crate::may_match::{may_match, takes_one};
use crate::query::Query;
use mp_pattern::Pattern;
use mp_subst::Trail;
use mp_table::Rank;
use mp_term::{OpId, Signature};

// Whether each marked child takes exactly one term.
fn each_takes_one(
    sig: &Signature,
    under: Option<OpId>,
    children: &[Pattern],
    marks: &[bool],
) -> bool
    ensures { result
        ≡ lacking.each_takes_one sig.now (above under) marks.now (patterns (map pattern_tree children.now)) }
{
    match marks {
        [] => true,
        [mark, others @ ..] => match children {
            [] => true,
            [child, later @ ..] => {
                (!*mark || takes_one(sig, under, child))
                    && each_takes_one(sig, under, later, others)
            }
        },
    }
}

// Whether more children are marked.
fn marks_more(children: &[Pattern], marks: &[bool], count: usize) -> bool
    ensures { IsTrue result → count < marked marks.now (patterns (map pattern_tree children.now)) }
{
    match marks {
        [] => false,
        [mark, others @ ..] => match children {
            [] => false,
            [_, later @ ..] => {
                if !*mark {
                    marks_more(later, others, count)
                } else if count == 0 {
                    true
                } else {
                    marks_more(later, others, count - 1)
                }
            }
        },
    }
}

// Whether the child is marked and may match the term of the rank. False says that it isn't, or doesn't.
fn is_met(
    query: &Query<'_>,
    trail: &Trail,
    under: Option<OpId>,
    child: &Pattern,
    node: u32,
    mark: bool,
    rank: Rank,
) -> bool
    requires query { IsQuery query.now }
    requires trail { GoesWith query.now.table.now trail.now }
    requires child { StandsAt query.now node (subpatterns (pattern_tree child.now)) }
    requires rank { HasRank query.now.table.now rank }
    ensures { mark ≡ true → look.may_match query.now.sig.now (subst_of query.now trail.now) (above under)
        (pattern_tree child.now) (term_at query.now.table.now rank) ≡ true → IsTrue result }
{
    mark && may_match(query, trail, under, child, node, rank)
}

// Whether some marked child may match the term of the rank. False says that none does.
fn some_may_match(
    query: &Query<'_>,
    trail: &Trail,
    under: Option<OpId>,
    children: &[Pattern],
    node: u32,
    marks: &[bool],
    rank: Rank,
) -> bool
    requires query { IsQuery query.now }
    requires trail { GoesWith query.now.table.now trail.now }
    requires children { StandsAt query.now node (all_subpatterns (patterns (map pattern_tree children.now))) }
    requires rank { HasRank query.now.table.now rank }
    ensures { lacking.some_may_match query.now.sig.now (subst_of query.now trail.now) (above under) marks.now
        (patterns (map pattern_tree children.now)) (term_at query.now.table.now rank) ≡ true → IsTrue result }
{
    match marks {
        [] => false,
        [mark, others @ ..] => match children {
            [] => false,
            [child, later @ ..] => {
                if is_met(query, trail, under, child, node, *mark, rank) {
                    return true;
                }
                let end = end_of(query, child, node);
                some_may_match(query, trail, under, later, end, others, rank)
            }
        },
    }
}

// Whether the rank is the next of those that are taken out.
pub(crate) fn is_next(take: &[Rank], taken: usize, rank: Rank) -> bool
    ensures { MatchBool result
        ((taken < length take.now) × ((others : List Rank) → without rank_cmp (drop taken take.now) (rank ∷ others)
        ≡ without rank_cmp (drop (taken + 1) take.now) others))
        ((others : List Rank) → without rank_cmp (drop taken take.now) (rank ∷ others)
        ≡ rank ∷ without rank_cmp (drop taken take.now) others) }
{
    taken < take.len() && take[taken].0 == rank.0
}

// How many of the ranks that are left without those that are taken may be matched by some marked child, at most.
fn count(
    query: &Query<'_>,
    trail: &Trail,
    under: Option<OpId>,
    children: &[Pattern],
    node: u32,
    marks: &[bool],
    take: &[Rank],
    left: &[Rank],
) -> usize
    requires query { IsQuery query.now }
    requires trail { GoesWith query.now.table.now trail.now }
    requires children { StandsAt query.now node (all_subpatterns (patterns (map pattern_tree children.now))) }
    requires left { HasRanks query.now.table.now left.now }
    ensures { passing (lacking.some_may_match query.now.sig.now (subst_of query.now trail.now) (above under) marks.now
        (patterns (map pattern_tree children.now))) (terms_at query.now.table.now (without rank_cmp take.now left.now))
        ≤ result }
{
    let mut taken = 0;
    let mut count = 0;
    for rank in left {
        if is_next(take, taken, *rank) {
            taken += 1;
        } else if some_may_match(query, trail, under, children, node, marks, *rank) {
            count += 1;
        }
    }
    count
}

// Whether the marked children take a term each, and fewer are left that any of them may match.
pub(crate) fn are_lacking(
    query: &Query<'_>,
    trail: &Trail,
    under: Option<OpId>,
    children: &[Pattern],
    node: u32,
    marks: &[bool],
    take: &[Rank],
    left: &[Rank],
) -> bool
    requires query { IsQuery query.now }
    requires trail { GoesWith query.now.table.now trail.now }
    requires children { StandsAt query.now node (all_subpatterns (patterns (map pattern_tree children.now))) }
    requires take { HasRanks query.now.table.now take.now }
    requires left { HasRanks query.now.table.now left.now }
    ensures { IsTrue result → lacking.AreLacking query.now.sig.now (subst_of query.now trail.now) (above under)
        marks.now (patterns (map pattern_tree children.now))
        (without tree_cmp (terms_at query.now.table.now take.now) (terms_at query.now.table.now left.now)) }
{
    if !each_takes_one(query.sig, under, children, marks) {
        return false;
    }
    let count = count(query, trail, under, children, node, marks, take, left);
    marks_more(children, marks, count)
}
