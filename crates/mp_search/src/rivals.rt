//! Later children that compete for too few terms: a search for them, whose answer is counted after.
ghost use Rattle.std.specs.Prelude.{◌≡◌, ◌<◌, ◌≤◌, map, length, IfSome};
ghost use Rattle.std.specs.List.Sorted.{IsSorted};
ghost use Rattle.mp_pattern.specs.PatternTree.{patterns};
ghost use Rattle.mp_pattern.specs.Subpatterns.{subpatterns, all_subpatterns};
ghost use Rattle.mp_pattern.specs.View.{pattern_tree};
ghost use Rattle.mp_table.specs.Table.{rank_cmp};
ghost use Rattle.mp_subst.specs.Trail.{GoesWith};
ghost use Rattle.mp_search.specs.Look.{IsLook};
ghost use Rattle.mp_search.specs.Parts.{StandsAt};
ghost use Rattle.mp_search.specs.Query.{IsQuery};
ghost use Rattle.mp_search.specs.Site.{IsSite};

use crate::candidates::places_of;
use crate::end::end_of;
use crate::may_match::{is_firm, is_plain, may_match};
use crate::partner::are_alike;
use crate::query::Query;
use crate::site::Site;
use mp_pattern::Pattern;
use mp_subst::Trail;
use mp_table::Rank;

// How many equal ranks stand right before the place.
fn equal_before(list: &[Rank], place: usize) -> usize
    requires { place < length list.now }
{
    for count in 0..place {
        if list[place - 1 - count].0 != list[place].0 {
            return count;
        }
    }
    place
}

// Whether the rank at the place is one of those that are taken out of the list, of equal ones the first.
fn is_taken(take: &[Rank], list: &[Rank], place: usize) -> bool
    requires { place < length list.now }
{
    let rank = list[place];
    let from = take.partition_point(|other| other.0 < rank.0);
    if from >= take.len() || take[from].0 != rank.0 {
        return false;
    }
    let before = equal_before(list, place);
    before < take.len() - from && take[from + before].0 == rank.0
}

// Which child has the place.
fn owner_of(places: &[usize], place: usize) -> Option<usize>
    ensures { IfSome result (λ i. i < length places.now) }
{
    places.iter().position(|own| *own == place)
}

// What a look at the later children goes by: the child at hand and its siblings, the ranks that it takes, the trail,
// and the number of the first later child. What holds of it is `IsLook` of `specs/Look.antt`.
#[derive(Clone, Copy)]
pub(crate) struct Look<'a> {
    query: &'a Query<'a>,
    site: &'a Site<'a>,
    take: &'a [Rank],
    trail: &'a Trail,
    node: u32,
}

// The first place from one on that none of the children has, with a term that isn't taken and that the child may match.
fn place_from(
    look: Look<'_>,
    child: &Pattern,
    node: u32,
    others: &[usize],
    from: usize,
) -> Option<usize>
    requires look { IsLook look }
    requires child { StandsAt look.query.now node (subpatterns (pattern_tree child.now)) }
{
    let Look {
        query,
        site,
        take,
        trail,
        ..
    } = look;
    let (first, end) = places_of(query, trail, child, node, site.left);
    for place in first.max(from)..end {
        if !is_taken(take, site.left, place)
            && may_match(query, trail, site.under, child, node, site.left[place])
            && owner_of(others, place).is_none()
        {
            return Some(place);
        }
    }
    None
}

// A place that no child has, with a term that isn't taken and that the child may match: behind that of the child before
// if there is one.
fn free_place(
    look: Look<'_>,
    child: &Pattern,
    node: u32,
    places: &[usize],
    which: usize,
) -> Option<usize>
    requires look { IsLook look }
    requires child { StandsAt look.query.now node (subpatterns (pattern_tree child.now)) }
    requires within { which < length places.now }
{
    let near = if which > 0 { places[which - 1] } else { 0 };
    if let Some(place) = place_from(look, child, node, places, near) {
        return Some(place);
    }
    place_from(look, child, node, places, 0)
}

// The first place from one on that none of the others has, with a term that isn't taken and that the child of that
// number among the children may match.
fn nth_place_from(
    look: Look<'_>,
    children: &[Pattern],
    node: u32,
    which: usize,
    others: &[usize],
    from: usize,
) -> Option<usize>
    requires look { IsLook look }
    requires children { StandsAt look.query.now node (all_subpatterns (patterns (map pattern_tree children.now))) }
{
    match children {
        [] => None,
        [child, later @ ..] => {
            if which == 0 {
                return place_from(look, child, node, others, from);
            }
            let end = end_of(look.query, child, node);
            nth_place_from(look, later, end, which - 1, others, from)
        }
    }
}

// Whether the place is made free by moving the child that has it, where that isn't marked.
#[cycle(settle_child)]
fn make_free(
    look: Look<'_>,
    places: &mut [usize],
    marks: &mut [bool],
    place: usize,
    steps: usize,
) -> bool
    requires look { IsLook look }
    requires many { length places.old ≤ length marks.old }
    ensures places { length places.new ≡ length places.old }
    ensures marks { length marks.new ≡ length marks.old }
{
    match owner_of(&*places, place) {
        None => true,
        Some(owner) => {
            if marks[owner] {
                return false;
            }
            settle_child(look, places, marks, owner, steps)
        }
    }
}

// Finds the child a place among the terms that are left, if need be by moving others that aren't marked, and marks
// those that are asked.
#[cycle(settle_child)]
fn settle_child(
    look: Look<'_>,
    places: &mut [usize],
    marks: &mut [bool],
    which: usize,
    steps: usize,
) -> bool
    requires look { IsLook look }
    requires many { length places.old ≤ length marks.old }
    requires within { which < length places.old }
    ensures places { length places.new ≡ length places.old }
    ensures marks { length marks.new ≡ length marks.old }
{
    if steps == 0 {
        return true;
    }
    marks[which] = true;
    let later = look.site.later;
    if let Some(place) = nth_place_from(look, later, look.node, which, &*places, 0) {
        places[which] = place;
        return true;
    }
    let mut from = 0;
    for _ in 0..look.site.left.len() {
        let Some(place) = nth_place_from(look, later, look.node, which, &[], from) else {
            return false;
        };
        if make_free(look, places, marks, place, steps - 1) {
            places[which] = place;
            return true;
        }
        from = place.saturating_add(1);
    }
    false
}

// Whether the site's child is the first one of its operation.
pub(crate) fn is_first(query: &Query<'_>, node: u32) -> bool {
    match query.plan.parent(node) {
        None => true,
        Some(parent) => node.saturating_sub(parent) == 1,
    }
}

// Whether the later child is looked at: where the child at hand is the first any, and else those that are like it.
fn is_rival(query: &Query<'_>, child: &Pattern, first: bool, later: &Pattern) -> bool {
    (first || are_alike(child, later)) && is_firm(query.sig, later)
}

// Whether none of them is an application.
fn are_leaves(children: &[Pattern]) -> bool {
    children
        .iter()
        .all(|child| !matches!(child, Pattern::App(_, _)))
}

// Whether a search goes on to the next sibling in one way at most, once the child has taken a list: there is no choice
// within it.
fn goes_on_at_once(query: &Query<'_>, child: &Pattern) -> bool {
    match child {
        Pattern::App(op, children) => {
            let children = children.as_slice();
            is_plain(query.sig, Some(*op), children) && are_leaves(children)
        }
        _ => true,
    }
}

// Whether some of the children are looked at.
fn some_is_rival(query: &Query<'_>, child: &Pattern, first: bool, children: &[Pattern]) -> bool {
    children
        .iter()
        .any(|later| is_rival(query, child, first, later))
}

// Whether later children are looked at: not where there is but the very next one, to which a search goes on at once.
pub(crate) fn has_rival(
    query: &Query<'_>,
    child: &Pattern,
    node: u32,
    children: &[Pattern],
) -> bool {
    match children {
        [] => false,
        [next, others @ ..] => {
            let first = is_first(query, node);
            // Children that are alike stand together, since a commutative operation's are in order.
            if !first && !are_alike(child, next) {
                return false;
            }
            some_is_rival(query, child, first, others)
                || !goes_on_at_once(query, child) && is_rival(query, child, first, next)
        }
    }
}

// Whether the child is a symbol, or an application within which there is no choice.
fn is_at_once(query: &Query<'_>, child: &Pattern) -> bool {
    match child {
        Pattern::Wild(_, _) => false,
        _ => goes_on_at_once(query, child),
    }
}

// How many later children come soon, at most.
const FEW: usize = 3;

// Whether a search comes to each of the later children so soon that a look at them costs more than it may save: they
// are few, and there is no choice within the child or any of them but for the last one.
pub(crate) fn come_soon(query: &Query<'_>, child: &Pattern, later: &[Pattern]) -> bool {
    if later.len() > FEW {
        return false;
    }
    match later {
        [] => true,
        [others @ .., _] => {
            goes_on_at_once(query, child) && others.iter().all(|other| is_at_once(query, other))
        }
    }
}

// Whether the child of that number isn't looked at, or finds a place among the terms that are left. If not, those are
// marked that have the places that it may have.
fn is_placed(
    look: Look<'_>,
    child: &Pattern,
    node: u32,
    places: &mut [usize],
    marks: &mut [bool],
    which: usize,
) -> bool
    requires look { IsLook look }
    requires child { StandsAt look.query.now node (subpatterns (pattern_tree child.now)) }
    requires many { length places.old ≤ length marks.old }
    requires within { which < length places.old }
    ensures places { length places.new ≡ length places.old }
    ensures marks { length marks.new ≡ length marks.old }
{
    let Look { query, site, .. } = look;
    if !is_rival(query, site.child, is_first(query, site.node), child) {
        return true;
    }
    if let Some(place) = free_place(look, child, node, &*places, which) {
        places[which] = place;
        return true;
    }
    marks.fill(false);
    let steps = places.len();
    settle_child(look, places, marks, which, steps)
}

// Marks children that are to take a term each behind the entry at hand, but seem to have too few, if there are any
// among these, which are those from that number on.
fn mark_from(
    look: Look<'_>,
    children: &[Pattern],
    node: u32,
    places: &mut [usize],
    marks: &mut [bool],
    which: usize,
) -> bool
    requires look { IsLook look }
    requires children { StandsAt look.query.now node (all_subpatterns (patterns (map pattern_tree children.now))) }
    requires many { length places.old ≤ length marks.old }
{
    match children {
        [] => false,
        [child, later @ ..] => {
            if which >= places.len() {
                return false;
            }
            if !is_placed(look, child, node, &mut *places, &mut *marks, which) {
                return true;
            }
            let end = end_of(look.query, child, node);
            mark_from(look, later, end, places, marks, which + 1)
        }
    }
}

// Marks children that are to take a term each once the list is taken, but seem to have too few, if there are any.
pub(crate) fn mark_rivals(
    query: &Query<'_>,
    site: &Site<'_>,
    take: &[Rank],
    trail: &Trail,
    node: u32,
    places: &mut [usize],
    marks: &mut [bool],
) -> bool
    requires query { IsQuery query.now }
    requires site { IsSite query.now site.now }
    requires trail { GoesWith query.now.table.now trail.now }
    requires ascending { IsSorted rank_cmp site.now.left.now }
    requires later { StandsAt query.now node (all_subpatterns (patterns (map pattern_tree site.now.later.now))) }
    requires many { length places.old ≤ length marks.old }
{
    let look = Look {
        query,
        site,
        take,
        trail,
        node,
    };
    mark_from(look, site.later, node, places, marks, 0)
}
