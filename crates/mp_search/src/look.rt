//! What shows that nothing is found behind an entry.
ghost use Rattle.std.specs.Prelude.{◌≡◌, ℕ, Bool, [], true, List, map, filter, IsTrue};
ghost use Rattle.mp_term.specs.Order.{tree_cmp};
ghost use Rattle.mp_term.specs.Pieces.{without};
ghost use Rattle.mp_pattern.specs.PatternTree.{patterns};
ghost use Rattle.mp_pattern.specs.Subpatterns.{all_subpatterns};
ghost use Rattle.mp_pattern.specs.View.{pattern_tree};
ghost use Rattle.mp_subst.specs.Trail.{GoesWith};
ghost use Rattle.mp_theory.specs.Frames as walk;
ghost use Rattle.mp_theory.specs.Items.{items};
ghost use Rattle.mp_theory.specs.Machine as machine;
ghost use Rattle.mp_theory.specs.Trail.{allows};
ghost use Rattle.mp_table.specs.Table.{HasRanks, terms_at};
ghost use Rattle.mp_search.specs.Frames.{above};
ghost use Rattle.mp_search.specs.Lacking.{AreLacking};
ghost use Rattle.mp_search.specs.Parts.{StandsAt};
ghost use Rattle.mp_search.specs.Query.{IsQuery};
ghost use Rattle.mp_search.specs.Reading.{entry_of, subst_of};
ghost use Rattle.mp_search.specs.Levels.{IsOver};
ghost use Rattle.mp_search.specs.Site.{IsSite, site_place};
ghost use Rattle.mp_search.specs.Wanted.{good, AreComplete};

use crate::end::end_of;
use crate::judge::fails;
use crate::level::Level;
use crate::mode::Mode;
use crate::query::Query;
use crate::rivals::{come_soon, has_rival, is_first, mark_rivals};
use crate::site::Site;
use crate::supply::are_lacking;
use mp_pattern::{Pattern, is_comm_above};
use mp_subst::Trail;
use mp_table::Rank;
use mp_term::OpId;

// The number of the node of the first later child.
fn later_node(query: &Query<'_>, site: &Site<'_>) -> u32
    requires query { IsQuery query.now }
    requires site { IsSite query.now site.now }
    ensures { StandsAt query.now result (all_subpatterns (patterns (map pattern_tree site.now.later.now))) }
{
    end_of(query, site.child, site.node)
}

// How many later children are looked at.
const MOST_RIVALS: usize = 128;

// Whether it is seen that the later children have too few terms, once the list is taken out of those that are left:
// there are more of them that take one each than are left that they may match.
fn are_short(query: &Query<'_>, site: &Site<'_>, take: &[Rank], trail: &Trail) -> bool
    requires query { IsQuery query.now }
    requires site { IsSite query.now site.now }
    requires take { HasRanks query.now.table.now take.now }
    requires trail { GoesWith query.now.table.now trail.now }
    ensures { IsTrue result → (ms : List Bool) × AreLacking query.now.sig.now (subst_of query.now trail.now)
        (above site.now.under) ms (patterns (map pattern_tree site.now.later.now))
        (without tree_cmp (terms_at query.now.table.now take.now) (terms_at query.now.table.now site.now.left.now)) }
{
    if !is_comm_above(query.sig, site.under) {
        return false;
    }
    if !has_rival(query, site.child, site.node, site.later) {
        return false;
    }
    let node = later_node(query, site);
    let mut places = [usize::MAX; MOST_RIVALS];
    let mut marks = [false; MOST_RIVALS];
    let many = site.later.len().min(MOST_RIVALS);
    if !mark_rivals(
        query,
        site,
        take,
        trail,
        node,
        &mut places[..many],
        &mut marks,
    ) {
        return false;
    }
    are_lacking(
        query, trail, site.under, site.later, node, &marks, take, site.left,
    )
}

// Whether it is seen that the later children have too few terms behind the entry at hand.
fn lacks_terms(query: &Query<'_>, site: &Site<'_>, own: &Level, trail: &Trail) -> bool
    requires query { IsQuery query.now }
    requires site { IsSite query.now site.now }
    requires over { IsOver query.now.table.now own.now }
    requires trail { GoesWith query.now.table.now trail.now }
    ensures { IsTrue result → (j : ℕ) (fs : List walk.Frame) → items query.now.sig.now j
        (machine.onward (site_place query.now site.now fs) (entry_of query.now.table.now own.now))
        (subst_of query.now trail.now) ≡ [] }
{
    if come_soon(query, site.child, site.later) {
        return false;
    }
    are_short(query, site, own.take.as_slice(), trail)
}

// Whether it is seen that the later children have too few terms before the child has taken any, where it is the first
// one.
pub(crate) fn lacks_terms_before(query: &Query<'_>, site: &Site<'_>, trail: &Trail) -> bool
    requires query { IsQuery query.now }
    requires site { IsSite query.now site.now }
    requires trail { GoesWith query.now.table.now trail.now }
    ensures { IsTrue result → (ms : List Bool) × AreLacking query.now.sig.now (subst_of query.now trail.now)
        (above site.now.under) ms (patterns (map pattern_tree site.now.later.now))
        (terms_at query.now.table.now site.now.left.now) }
{
    if !is_first(query, site.node) {
        return false;
    }
    are_short(query, site, &[], trail)
}

// Whether anything is looked at behind an entry of the child of that number: a condition, or later children, unless
// they come soon.
fn has_look(
    query: &Query<'_>,
    under: Option<OpId>,
    child: &Pattern,
    node: u32,
    later: &[Pattern],
) -> bool {
    query.condition.is_some()
        || is_comm_above(query.sig, under)
            && !come_soon(query, child, later)
            && has_rival(query, child, node, later)
}

// The same of an entry that is tried: behind those of a table at hand there is one way, which is gone at once.
pub(crate) fn looks_behind(
    query: &Query<'_>,
    under: Option<OpId>,
    child: &Pattern,
    node: u32,
    later: &[Pattern],
    mode: Mode,
) -> bool {
    match mode {
        Mode::First => has_look(query, under, child, node, later),
        _ => false,
    }
}

// Whether it is seen that nothing is found behind the entry at hand, once it is bound: the condition fails, or what is
// left isn't enough for the children that are to take it.
pub(crate) fn leads_nowhere(query: &Query<'_>, site: &Site<'_>, own: &Level, trail: &Trail) -> bool
    requires query { IsQuery query.now }
    requires site { IsSite query.now site.now }
    requires over { IsOver query.now.table.now own.now }
    requires allowed { allows query.now.sig.now (site_place query.now site.now [])
        (entry_of query.now.table.now own.now) ≡ true }
    requires trail { GoesWith query.now.table.now trail.now }
    ensures { IsTrue result → (j : ℕ) (fs : List walk.Frame) →
        let is = items query.now.sig.now j
        (machine.onward (site_place query.now site.now fs) (entry_of query.now.table.now own.now))
        (subst_of query.now trail.now) in
        AreComplete query.now is → filter (good query.now) is ≡ [] }
{
    fails(query, trail) || lacks_terms(query, site, own, trail)
}
