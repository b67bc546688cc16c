//! What an entry says of a variable.
ghost use Rattle.std.specs.Prelude.{◌≡◌, ◌<◌, ◌≤◌, ◌+◌, ℕ, List, [], true, false, Some, None, length, MatchBool};
ghost use Rattle.std.specs.Prelude.{IsSome};
ghost use Rattle.std.specs.Prelude.{nat_lt, if◌then◌else◌};
ghost use Rattle.std.specs.List.{AllByRecursion};
ghost use Rattle.mp_term.specs.Listing.{In};
ghost use Rattle.mp_term.specs.Sorting.{sorted};
ghost use Rattle.mp_term.specs.Tree.{Tree};
ghost use Rattle.mp_pattern.specs.Fits.{is_left_out};
ghost use Rattle.mp_pattern.specs.PatternTree.{wild_pattern};
ghost use Rattle.mp_pattern.specs.Value.{one, one_form};
ghost use Rattle.mp_pattern.specs.Variables as variables;
ghost use Rattle.mp_pattern.specs.View.{wildcard, pattern_tree};
ghost use Rattle.mp_table.specs.Table.{HasRanks, rank_cmp, terms_at};
ghost use Rattle.mp_subst.specs.Bound.{bound_of, value_in, AreRanksOf};
ghost use Rattle.mp_subst.specs.Trail.{GoesWith, cut};
ghost use Rattle.mp_theory.specs.Machine as machine;
ghost use Rattle.mp_theory.specs.Solve as solve;
ghost use Rattle.mp_theory.specs.Trail.{allows};
ghost use Rattle.mp_search.specs.At.{BindsOnly};
ghost use Rattle.mp_search.specs.Frames.{above};
ghost use Rattle.mp_search.specs.Grounds.{ground_of};
ghost use Rattle.mp_search.specs.Numbers.{IsNumberOf};
ghost use Rattle.mp_search.specs.Query.{IsQuery};
ghost use Rattle.mp_search.specs.Reading.{entry_of, subst_of};
ghost use Rattle.mp_search.specs.Levels.{IsOver};
ghost use Rattle.mp_search.specs.Site.{IsSite, site_place};

use crate::ground::ground_rank;
use crate::level::Level;
use crate::query::Query;
use crate::site::Site;
use crate::variable::number_at;
use mp_pattern::{Form, Pattern, Shape, is_comm_above};
use mp_subst::{Bound, Trail};
use mp_table::Rank;
use mp_term::OpId;
use std::slice;

// A tuple, or under a commutative operation a multiset, whose ranks ascend.
fn sequence<'a>(query: &Query<'_>, under: Option<OpId>, ranks: &'a [Rank]) -> Bound<'a>
    requires { variables.comm_above query.now.sig.now (above under) ≡ true → sorted rank_cmp ranks.now ≡ ranks.now }
    ensures value { value_in query.now.table.now (bound_of result)
        ≡ solve.sequence query.now.sig.now (above under) (terms_at query.now.table.now ranks.now) }
    ensures formed { AreRanksOf (bound_of result).form (bound_of result).wrap ranks.now }
    ensures ranks { result.ranks.now ≡ ranks.now }
{
    let form = if is_comm_above(query.sig, under) {
        Form::Bag
    } else {
        Form::Seq
    };
    Bound {
        form,
        wrap: None,
        ranks,
    }
}

// One term: that of the rank, or the operation above applied to those of several.
fn single<'a>(under: Option<OpId>, ranks: &'a [Rank]) -> Bound<'a>
    ensures { bound_of result
        ≡ record {
          form = one_form;
          wrap = if nat_lt 1 (length ranks.now) then above under else None;
          ranks = ranks.now;
        } }
{
    let wrap = if ranks.len() > 1 { under } else { None };
    Bound {
        form: Form::One,
        wrap,
        ranks,
    }
}

// The value that a wildcard gives by taking a list that it may take, where it isn't left out.
fn given<'a>(query: &Query<'_>, under: Option<OpId>, shape: &Shape, ranks: &'a [Rank]) -> Bound<'a>
    requires ascending { variables.comm_above query.now.sig.now (above under) ≡ true
        → sorted rank_cmp ranks.now ≡ ranks.now }
    requires given { IsSome (solve.given query.now.sig.now (above under) (wildcard shape.now)
        (terms_at query.now.table.now ranks.now)) }
    requires taken { is_left_out (wild_pattern (wildcard shape.now) None) (terms_at query.now.table.now ranks.now)
        ≡ false }
    ensures value { solve.given query.now.sig.now (above under) (wildcard shape.now)
        (terms_at query.now.table.now ranks.now) ≡ Some (value_in query.now.table.now (bound_of result)) }
    ensures formed { AreRanksOf (bound_of result).form (bound_of result).wrap ranks.now }
    ensures ranks { result.ranks.now ≡ ranks.now }
{
    if shape.is_sequence() {
        sequence(query, under, ranks)
    } else {
        single(under, ranks)
    }
}

// Binds the variable of the number to the value too, and answers false where that clashes.
fn bind_value(query: &Query<'_>, var: u32, bound: &Bound<'_>, trail: &mut Trail) -> bool
    requires var { var < trail.old.vars }
    requires ranks { HasRanks query.now.table.now bound.now.ranks.now }
    requires formed { AreRanksOf (bound_of bound.now).form (bound_of bound.now).wrap bound.now.ranks.now }
    requires spare { length bound.now.ranks.now + 2 ≤ trail.old.spare }
    requires trail { GoesWith query.now.table.now trail.old }
    ensures bound { (x : List ℕ) → IsNumberOf query.now x var →
        let o = solve.bind (subst_of query.now trail.old) x (value_in query.now.table.now (bound_of bound.now)) in
        MatchBool result (o ≡ Some (subst_of query.now trail.new)) (o ≡ None) }
    ensures kept { cut (length trail.old.stack) trail.new ≡ trail.old }
    ensures only { In var query.now.vars.now → BindsOnly query.now.vars.now trail.old trail.new }
    ensures spare { trail.old.spare ≤ trail.new.spare + (length bound.now.ranks.now + 2) }
    ensures trail { GoesWith query.now.table.now trail.new }
{
    trail.bind(query.table, var, bound.form, bound.wrap, bound.ranks)
}

// Binds the variable of an optional child that is left out.
fn bind_default(query: &Query<'_>, site: &Site<'_>, var: u32, trail: &mut Trail) -> bool
    requires query { IsQuery query.now }
    requires site { IsSite query.now site.now }
    requires optional { IsSome (ground_of (pattern_tree site.now.child.now)) }
    requires var { var < trail.old.vars }
    requires spare { 3 ≤ trail.old.spare }
    requires trail { GoesWith query.now.table.now trail.old }
    ensures bound { (x : List ℕ) (d : Tree) → IsNumberOf query.now x var →
        ground_of (pattern_tree site.now.child.now) ≡ Some d →
        let o = solve.bind (subst_of query.now trail.old) x (one d) in
        MatchBool result (o ≡ Some (subst_of query.now trail.new)) (o ≡ None) }
    ensures kept { cut (length trail.old.stack) trail.new ≡ trail.old }
    ensures only { In var query.now.vars.now → BindsOnly query.now.vars.now trail.old trail.new }
    ensures spare { trail.old.spare ≤ trail.new.spare + 3 }
    ensures trail { GoesWith query.now.table.now trail.new }
{
    let Some(rank) = ground_rank(query, site.child, site.node) else {
        unreachable!()
    };
    let bound = Bound {
        form: Form::One,
        wrap: None,
        ranks: slice::from_ref(&rank),
    };
    bind_value(query, var, &bound, trail)
}

// Binds what the entry at hand says, and answers false where that clashes with the trail.
pub(crate) fn bind(query: &Query<'_>, site: &Site<'_>, own: &Level, trail: &mut Trail) -> bool
    requires query { IsQuery query.now }
    requires site { IsSite query.now site.now }
    requires over { IsOver query.now.table.now own.now }
    requires allowed { allows query.now.sig.now (site_place query.now site.now [])
        (entry_of query.now.table.now own.now) ≡ true }
    requires trail { GoesWith query.now.table.now trail.old }
    requires vars { AllByRecursion (λ v. v < trail.old.vars) query.now.vars.now }
    requires spare { length own.now.take.items.items + 3 ≤ trail.old.spare }
    ensures bound { let o = solve.solve query.now.sig.now (subst_of query.now trail.old)
        (machine.said (site_place query.now site.now []) (entry_of query.now.table.now own.now)) in
        MatchBool result (o ≡ Some (subst_of query.now trail.new)) (o ≡ None) }
    ensures kept { cut (length trail.old.stack) trail.new ≡ trail.old }
    ensures only { BindsOnly query.now.vars.now trail.old trail.new }
    ensures spare { trail.old.spare ≤ trail.new.spare + (length own.now.take.items.items + 3) }
    ensures trail { GoesWith query.now.table.now trail.new }
{
    let Some(var) = number_at(query, site.child, site.node) else {
        return true;
    };
    let Pattern::Wild(shape, _) = site.child else {
        return true;
    };
    let ranks = own.take.as_slice();
    match (shape, ranks) {
        (Shape::Opt(_), []) => bind_default(query, site, var, trail),
        _ => bind_value(query, var, &given(query, site.under, shape, ranks), trail),
    }
}
