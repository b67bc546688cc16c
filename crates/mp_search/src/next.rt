//! Children that take the next term.
ghost use Rattle.std.specs.Prelude.{◌≡◌, ◌<◌, ◌≤◌, ◌+◌, [], ◌∷◌, true, take, length, IsTrue, MatchBool};
ghost use Rattle.std.specs.List.{AllByRecursion};
ghost use Rattle.mp_term.specs.Pieces.{without};
ghost use Rattle.mp_pattern.specs.Fits.{Entry};
ghost use Rattle.mp_pattern.specs.View.{pattern_tree};
ghost use Rattle.mp_table.specs.Table.{rank_cmp};
ghost use Rattle.mp_subst.specs.Trail.{GoesWith, cut};
ghost use Rattle.mp_theory.specs.Machine as machine;
ghost use Rattle.mp_theory.specs.Trail.{allows};
ghost use Rattle.mp_search.specs.At.{BindsOnly};
ghost use Rattle.mp_search.specs.Bounds.{TakesNext};
ghost use Rattle.mp_search.specs.Frames.{above};
ghost use Rattle.mp_search.specs.Levels.{rooms_of, draws_of, IsRoomy, IsOver};
ghost use Rattle.mp_search.specs.Passed.{IsPassed, IsShut};
ghost use Rattle.mp_search.specs.Query.{IsQuery, width};
ghost use Rattle.mp_search.specs.Reading.{entry_of};
ghost use Rattle.mp_search.specs.Site.{IsSite, site_place};

use crate::binding::bind;
use crate::level::Level;
use crate::query::Query;
use crate::reads::reads;
use crate::site::Site;
use mp_pattern::{Pattern, Shape, is_assoc_above, is_comm_above};
use mp_subst::Trail;
use mp_term::{OpId, Signature};
use std::slice;

// Whether the child is a symbol, or a wildcard that takes the next term alone, whatever its variable's value.
pub(crate) fn takes_the_next(sig: &Signature, under: Option<OpId>, child: &Pattern) -> bool
    ensures { IsTrue result → TakesNext sig.now (above under) (pattern_tree child.now) }
{
    match child {
        Pattern::Wild(Shape::Dot, _) => !is_comm_above(sig, under) && !is_assoc_above(sig, under),
        Pattern::Wild(Shape::Kind(_), _) => !is_comm_above(sig, under),
        Pattern::Sym(_) => !is_comm_above(sig, under),
        _ => false,
    }
}

// Moves to the next term that is left, if the child may take it: there is no other choice.
pub(crate) fn take_next(query: &Query<'_>, site: &Site<'_>, own: &mut Level) -> bool
    requires query { IsQuery query.now }
    requires site { IsSite query.now site.now }
    requires roomy { IsRoomy (width query.now) own.old }
    requires over { IsOver query.now.table.now own.old }
    requires next { TakesNext query.now.sig.now (above site.now.under) (pattern_tree site.now.child.now) }
    ensures choice { let es = machine.choices query.now.sig.now (site_place query.now site.now []) in
        MatchBool result (es ≡ entry_of query.now.table.now own.new ∷ []) (es ≡ []) }
    ensures taken { IsTrue result
        → (1 ≤ length site.now.left.now) × (own.new.take.items.items ≡ take 1 site.now.left.now) }
    ensures draws { draws_of own.new ≡ draws_of own.old }
    ensures rooms { rooms_of own.new ≡ rooms_of own.old }
    ensures over { IsOver query.now.table.now own.new }
{
    match site.left {
        [] => false,
        [next, ..] => {
            own.set(slice::from_ref(next), false);
            reads(query, site, own.take.as_slice(), false)
        }
    }
}

// Takes the next term and binds what it says, where the child may take it and nothing clashes, and keeps what is left.
pub(crate) fn pass(query: &Query<'_>, site: &Site<'_>, own: &mut Level, trail: &mut Trail) -> bool
    requires query { IsQuery query.now }
    requires site { IsSite query.now site.now }
    requires roomy { IsRoomy (width query.now) own.old }
    requires over { IsOver query.now.table.now own.old }
    requires next { TakesNext query.now.sig.now (above site.now.under) (pattern_tree site.now.child.now) }
    requires trail { GoesWith query.now.table.now trail.old }
    requires vars { AllByRecursion (λ v. v < trail.old.vars) query.now.vars.now }
    requires spare { (e : Entry) → allows query.now.sig.now (site_place query.now site.now []) e ≡ true
        → length e.terms + 3 ≤ trail.old.spare }
    ensures passed { let n = site_place query.now site.now [] in let e = entry_of query.now.table.now own.new in
        MatchBool result (IsPassed query.now n trail.old trail.new e) (IsShut query.now n trail.old trail.new e) }
    ensures rest { IsTrue result
        → own.new.rest.items.items ≡ without rank_cmp own.new.take.items.items site.now.left.now }
    ensures kept { cut (length trail.old.stack) trail.new ≡ trail.old }
    ensures only { BindsOnly query.now.vars.now trail.old trail.new }
    ensures spare { trail.old.spare ≤ trail.new.spare + (length own.new.take.items.items + 3) }
    ensures trail { GoesWith query.now.table.now trail.new }
    ensures rooms { rooms_of own.new ≡ rooms_of own.old }
    ensures over { IsOver query.now.table.now own.new }
{
    if !take_next(query, site, own) {
        return false;
    }
    if !bind(query, site, &*own, trail) {
        return false;
    }
    own.rest.refill(&site.left[1..]);
    true
}
