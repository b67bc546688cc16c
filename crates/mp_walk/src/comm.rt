//! The steps of a walk below a commutative application.
ghost use Rattle.std.specs.Prelude.{◌≡◌, ◌≤◌, ◌+◌, List, [], ◌∷◌, drop, IfOk, IsTrue, IsFalse, None};
ghost use Rattle.mp_pattern.specs.Value.{Subst};
ghost use Rattle.mp_subst.specs.Trail.{cut, length_at};
ghost use Rattle.mp_ac.specs.Store.{IsStoreOf};
ghost use Rattle.mp_walk.specs.Below.{IsAbove, IsBelow, IsNextItem, IsSearch, IsStepBelow, below_ahead, cost_of};
ghost use Rattle.mp_walk.specs.Below.{left_steps, term_of, unboxed};
ghost use Rattle.mp_walk.specs.TokenMachine.{Open};
ghost use Rattle.mp_walk.specs.Below.{IsAtWay, IsWayOf, items_by_way};
ghost use Rattle.mp_ac.specs.Numbered.{IsTrailOf, numbered_subst};

use crate::steps::first_way;
use mp_ac::{CommPlans, CommSearch, CommStore, Prepared};
use mp_pattern::Pattern;
use mp_subst::{Mark, Trail};
use mp_table::{Rank, Table};
use mp_term::{Memory, OpId, Signature};
use std::alloc::Global;

// A commutative application that is read where a term stands first: its pattern, which is prepared among the plans, its
// operation, and whether it may be collapsed (`IsBelow` of `specs/Below.antt`).
#[derive(Clone, Copy)]
pub(crate) struct Below<'a> {
    pub(crate) sig: &'a Signature,
    pub(crate) table: &'a Table,
    pub(crate) plans: &'a CommPlans,
    pub(crate) prepared: Prepared,
    pub(crate) pattern: &'a Pattern,
    pub(crate) op: OpId,
    pub(crate) collapses: bool,
    pub(crate) rank: Rank,
}

// Gives the room of a search back.
fn give_back<'a>(
    below: Below<'a>,
    search: &mut Option<Box<CommSearch<'a>>>,
    store: &mut CommStore,
    trail: &Trail,
) -> Result<(), Memory>
    requires search { IsSearch below trail.now (unboxed search.old) }
    requires store { IsStoreOf below.table.now below.plans.now store.old }
    ensures store { IfOk result (λ _. IsStoreOf below.entry.table.now below.entry.plans.now store.new) }
    ensures search { IfOk result (λ _. search.new ≡ None) }
{
    let _ = below;
    let _ = trail;
    if let Some(search) = search.take() {
        Box::into_inner(search).give_back(store)?;
    }
    Ok(())
}

// Goes on to the next item of a search, if there is one.
fn next_item<'a>(
    below: Below<'a>,
    mark: Mark,
    search: &mut Option<Box<CommSearch<'a>>>,
    trail: &mut Trail,
) -> bool
    requires search { IsSearch below (cut (length_at mark) trail.old) (unboxed search.old) }
    requires above { IsAbove below (length_at mark) (cut (length_at mark) trail.old) trail.old }
    ensures found { let u = cut (length_at mark) trail.old in
        IsNextItem result (unboxed search.old) (unboxed search.new) u trail.new below.entry.table.now }
    ensures search { IsSearch below.entry (cut (length_at mark) trail.old) (unboxed search.new) }
    ensures above { IsAbove below.entry (length_at mark) (cut (length_at mark) trail.old) trail.new }
    ensures spare { IsTrue result → (cut (length_at mark) trail.old).spare ≤ trail.new.spare + cost_of below.entry }
{
    let _ = below;
    let _ = mark;
    match search {
        None => false,
        Some(search) => search.next(trail),
    }
}

// The search of a way, before its first item, where there may be one.
fn begin<'a>(
    alloc: Global,
    below: Below<'a>,
    way: usize,
    store: &mut CommStore,
    trail: &Trail,
) -> Result<Option<Box<CommSearch<'a>>>, Memory>
    requires below { IsBelow below }
    requires way { IsWayOf below way }
    requires trail { IsTrailOf below.table.now trail.now }
    requires spare { cost_of below ≤ trail.now.spare }
    requires store { IsStoreOf below.table.now below.plans.now store.old }
    ensures search { IfOk result (λ o. IsSearch below.entry trail.now (unboxed o)) }
    ensures list { IfOk result (λ o. (s : Subst) → below_ahead (unboxed o) s ≡ items_by_way below.entry way s) }
    ensures store { IfOk result (λ _. IsStoreOf below.entry.table.now below.entry.plans.now store.new) }
{
    let Below {
        sig,
        plans,
        prepared,
        pattern,
        table,
        rank,
        ..
    } = below;
    let alone = way == 1;
    let begun = CommSearch::begin(
        alloc, store, sig, plans, prepared, pattern, table, rank, alone, trail,
    )?;
    match begun {
        None => Ok(None),
        Some(search) => Ok(Some(Box::new(alloc, search)?)),
    }
}

// Takes the next step below the application, which is bound over the trail of the mark: the next item of the search at
// hand, or the first one of a later way. False comes where there is none.
pub(crate) fn step_below<'a>(
    alloc: Global,
    below: Below<'a>,
    mark: Mark,
    next: &mut usize,
    search: &mut Option<Box<CommSearch<'a>>>,
    store: &mut CommStore,
    trail: &mut Trail,
) -> Result<bool, Memory>
    requires below { IsBelow below }
    requires search { IsSearch below (cut (length_at mark) trail.old) (unboxed search.old) }
    requires way { IsAtWay next.old (unboxed search.old) }
    requires above { IsAbove below (length_at mark) (cut (length_at mark) trail.old) trail.old }
    requires spare { cost_of below ≤ (cut (length_at mark) trail.old).spare }
    requires store { IsStoreOf below.table.now below.plans.now store.old }
    ensures step { IfOk result (λ found. IsStepBelow below.entry found (next.old, unboxed search.old)
        (next.new, unboxed search.new) (cut (length_at mark) trail.old) trail.new) }
    ensures next { IfOk result (λ found. IsTrue found → (1 ≤ next.new) × (next.new ≤ 2)) }
    ensures way { IfOk result (λ _. IsAtWay next.new (unboxed search.new)) }
    ensures search { IfOk result (λ _. IsSearch below.entry (cut (length_at mark) trail.old) (unboxed search.new)) }
    ensures above { IfOk result (λ _.
        IsAbove below.entry (length_at mark) (cut (length_at mark) trail.old) trail.new) }
    ensures spare { IfOk result (λ found.
        IsTrue found → (cut (length_at mark) trail.old).spare ≤ trail.new.spare + cost_of below.entry) }
    ensures ended { IfOk result (λ found. IsFalse found → (f : Open) (gs : List Open)
        → f.left ≡ term_of below.entry ∷ drop 1 f.left → left_steps below.entry f gs next.new (unboxed search.new)
        (numbered_subst below.entry.table.now (cut (length_at mark) trail.old).stack) ≡ []) }
    ensures back { IfOk result (λ found. IsFalse found → trail.new ≡ cut (length_at mark) trail.old) }
    ensures store { IfOk result (λ _. IsStoreOf below.entry.table.now below.entry.plans.now store.new) }
{
    while !next_item(below, mark, search, trail) {
        trail.undo(mark);
        give_back(below, search, store, trail)?;
        let Some(way) = first_way(
            below.sig,
            below.table,
            below.op,
            below.collapses,
            below.rank,
            *next,
        ) else {
            return Ok(false);
        };
        let begun = begin(alloc, below, way, store, trail)?;
        *search = begun;
        *next = way + 1;
    }
    Ok(true)
}
