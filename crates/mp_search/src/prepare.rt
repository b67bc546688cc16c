//! What the choices of a node are drawn from.
ghost use Rattle.std.specs.Prelude.{◌≡◌, ◌≤◌, ℕ, List, [], Some, IsTrue};
ghost use Rattle.std.specs.List.{AllByRecursion};
ghost use Rattle.mp_term.specs.Listing.{In};
ghost use Rattle.mp_pattern.specs.PatternTree.{symbol_pattern};
ghost use Rattle.mp_pattern.specs.View.{pattern_tree};
ghost use Rattle.mp_pattern.specs.Value.{Subst};
ghost use Rattle.mp_subst.specs.Bound.{bound_of, value_in, IsBoundIn};
ghost use Rattle.mp_subst.specs.Trail.{GoesWith};
ghost use Rattle.mp_theory.specs.Machine as machine;
ghost use Rattle.mp_search.specs.declared.query.Query.{Query as plain_query};
ghost use Rattle.mp_search.specs.Bounds.{IsFree, HasNoValue};
ghost use Rattle.mp_search.specs.Made.{IsMade, IsBeside, HasValue};
ghost use Rattle.mp_search.specs.Numbers.{IsNumberAt};
ghost use Rattle.mp_search.specs.Query.{IsQuery, width};
ghost use Rattle.mp_search.specs.Reading.{subst_of};
ghost use Rattle.mp_search.specs.Levels.{rooms_of, take_of, IsRoomy, IsOver, IsPool};
ghost use Rattle.mp_search.specs.Site.{IsSite, IsPrepared, site_place, entries_drawn};

use crate::bounds::bounds_of;
use crate::ends::{fill, fill_bound, is_default};
use crate::ground::ground_rank;
use crate::level::{Level, Source};
use crate::look::lacks_terms_before;
use crate::portion::fill_portion;
use crate::query::Query;
use crate::shares::is_optional;
use crate::site::Site;
use crate::variable::number_at;
use mp_pattern::{Pattern, Shape, is_comm_above};
use mp_subst::{Bound, Trail};
use std::slice;

// Whether terms are looked at that the child may take alone: it takes one at most, and not any.
fn looks_at(child: &Pattern, most: usize) -> bool
    ensures { IsTrue result → most ≤ 1 }
{
    most <= 1
        && match child {
            Pattern::Wild(Shape::Kind(_), _) => true,
            Pattern::Wild(_, _) => false,
            _ => true,
        }
}

// The choices are drawn from what is left, by the bounds of the child, whose variable has that number if it has one
// that isn't bound, and isn't optional.
fn draw_open(query: &Query<'_>, site: &Site<'_>, var: Option<u32>, own: &mut Level, trail: &Trail)
    requires query { IsQuery query.now }
    requires site { IsSite query.now site.now }
    requires roomy { IsRoomy (width query.now) own.old }
    requires trail { GoesWith query.now.table.now trail.now }
    requires var { IsFree query.now site.now (subst_of query.now trail.now) var }
    ensures made { IsMade query.now site.now (subst_of query.now trail.now) own.new }
    ensures beside { IsBeside own.old own.new }
{
    let bounds = bounds_of(query, site, var, trail);
    if bounds.least > bounds.most {
        own.pool.clear();
        own.source = Source::Nothing;
        return;
    }
    if !is_comm_above(query.sig, site.under) {
        own.pool.clear();
        own.source = Source::Front(bounds.least, bounds.most);
        return;
    }
    let looks = looks_at(site.child, bounds.most);
    fill_portion(query, site, trail, looks, bounds.uses, &mut own.pool);
    // Where there are several entries to try, one look before them may save a look behind each.
    if own.pool.len() > 2 && lacks_terms_before(query, site, trail) {
        own.pool.clear();
        own.source = Source::Nothing;
        return;
    }
    own.source = Source::Bag(bounds.least, bounds.most);
}

// The child is a symbol.
fn draw_symbol(query: &Query<'_>, site: &Site<'_>, own: &mut Level)
    requires query { IsQuery query.now }
    requires site { IsSite query.now site.now }
    requires symbol { (n : List ℕ) × (pattern_tree site.now.child.now ≡ symbol_pattern n) }
    requires roomy { IsRoomy (width query.now) own.old }
    ensures made { (s : Subst) → IsMade query.now site.now s own.new }
    ensures beside { IsBeside own.old own.new }
{
    let Some(rank) = ground_rank(query, site.child, site.node) else {
        unreachable!()
    };
    let there = fill(query, site, slice::from_ref(&rank), own);
    own.source = Source::Whole(false, there);
}

// The child is a wildcard whose variable has the value.
fn draw_bound(query: &Query<'_>, site: &Site<'_>, bound: &Bound<'_>, own: &mut Level)
    requires query { IsQuery query.now }
    requires site { IsSite query.now site.now }
    requires bound { IsBoundIn query.now.table.now (bound_of bound.now) }
    requires roomy { IsRoomy (width query.now) own.old }
    ensures made { (s : Subst) → HasValue (pattern_tree site.now.child.now) s
        (value_in query.now.table.now (bound_of bound.now)) → IsMade query.now site.now s own.new }
    ensures beside { IsBeside own.old own.new }
{
    let empty = is_default(query, site, bound);
    let whole = fill_bound(query, site, bound, own);
    own.source = Source::Whole(empty, whole);
}

// The number of the child's variable, unless the child is optional.
fn free_number(site: &Site<'_>, var: u32) -> Option<u32>
    ensures { (q : plain_query) (s : Subst) → IsNumberAt q (pattern_tree site.now.child.now) (Some var) →
        HasNoValue (pattern_tree site.now.child.now) s → IsFree q site.now s result }
{
    if is_optional(site.child) {
        None
    } else {
        Some(var)
    }
}

// The child is a wildcard of the variable of that number.
fn draw_variable(query: &Query<'_>, site: &Site<'_>, var: u32, own: &mut Level, trail: &Trail)
    requires query { IsQuery query.now }
    requires site { IsSite query.now site.now }
    requires number { IsNumberAt query.now (pattern_tree site.now.child.now) (Some var) }
    requires roomy { IsRoomy (width query.now) own.old }
    requires over { IsOver query.now.table.now own.old }
    requires trail { GoesWith query.now.table.now trail.now }
    ensures made { IsMade query.now site.now (subst_of query.now trail.now) own.new }
    ensures beside { IsBeside own.old own.new }
{
    match trail.binding(var) {
        None => draw_open(query, site, free_number(site, var), own, trail),
        Some(bound) => draw_bound(query, site, &bound, own),
    }
}

// Makes ready what the child's choices are drawn from.
fn draw(query: &Query<'_>, site: &Site<'_>, own: &mut Level, trail: &Trail)
    requires query { IsQuery query.now }
    requires site { IsSite query.now site.now }
    requires roomy { IsRoomy (width query.now) own.old }
    requires over { IsOver query.now.table.now own.old }
    requires trail { GoesWith query.now.table.now trail.now }
    ensures made { IsMade query.now site.now (subst_of query.now trail.now) own.new }
    ensures beside { IsBeside own.old own.new }
{
    if let Pattern::Sym(_) = site.child {
        draw_symbol(query, site, own)
    } else {
        match number_at(query, site.child, site.node) {
            None => draw_open(query, site, None, own, trail),
            Some(var) => draw_variable(query, site, var, own, trail),
        }
    }
}

// Makes ready what the child's choices are drawn from: of all that it may take, what may lead on over the trail.
pub(crate) fn prepare(query: &Query<'_>, site: &Site<'_>, own: &mut Level, trail: &Trail)
    requires query { IsQuery query.now }
    requires site { IsSite query.now site.now }
    requires roomy { IsRoomy (width query.now) own.old }
    requires over { IsOver query.now.table.now own.old }
    requires trail { GoesWith query.now.table.now trail.now }
    ensures leads { IsPrepared query.now site.now (subst_of query.now trail.now) own.new }
    ensures choices { AllByRecursion (λ e. In e (machine.choices query.now.sig.now (site_place query.now site.now [])))
        (entries_drawn query.now site.now own.new) }
    ensures pool { IsPool (width query.now) own.new }
    ensures take { take_of own.new ≡ take_of own.old }
    ensures rest { own.new.rest.items.items ≡ own.old.rest.items.items }
    ensures rooms { rooms_of own.new ≡ rooms_of own.old }
    ensures over { IsOver query.now.table.now own.new }
{
    draw(query, site, own, trail);
}
