//! The search for the items of a commutative node, where its first children take one term each.
ghost use Rattle.std.specs.Prelude.{◌≡◌, ◌<◌, ◌≤◌, ◌+◌, ◌∷◌, ◌++◌, List, [], length, map, MatchBool};
ghost use Rattle.std.specs.Prelude.{IsTrue, false, slice_get, true};
ghost use Rattle.std.specs.List.{AllByRecursion};
ghost use Rattle.std.specs.List.Sorted.{IsSorted};
ghost use Rattle.mp_term.specs.Pieces.{is_sublist, without};
ghost use Rattle.mp_term.specs.Size.{all_nodes};
ghost use Rattle.mp_term.specs.Tree.{Tree};
ghost use Rattle.mp_pattern.specs.View.{pattern_tree};
ghost use Rattle.mp_table.specs.Table.{HasRank, rank_cmp, term_at, terms_at};
ghost use Rattle.mp_subst.specs.Trail.{cut};
ghost use Rattle.mp_theory.specs.Shape.{shape, table_of};
ghost use Rattle.mp_search.specs.Levels.{AreLevels};
ghost use Rattle.mp_search.specs.Wanted.{IsStanding};
ghost use Rattle.mp_ac.specs.Asked.{AreGiven, levels_table};
ghost use Rattle.mp_ac.specs.CommPlan.{nodes_below};
ghost use Rattle.mp_ac.specs.Numbered.{IsTrailOf, numbered_subst};
ghost use Rattle.mp_ac.specs.Seek.{ArePicked, ArePicksOf, IsFoundOf, IsLeading, IsPickOf, IsSought, items_of_pick};
ghost use Rattle.mp_ac.specs.Seek.{items_sought, seek_cost, sought_table};
ghost use Rattle.mp_ac.specs.Stage.{IsOnward};

use crate::asked::Asked;
use crate::look::look;
use crate::pick::Pick;
use crate::star::{bind_bag, is_of_star};
use crate::syntactic::fill;
use mp_pattern::Pattern;
use mp_search::{Ground, Level, Mode, Room, place_of};
use mp_subst::Trail;
use mp_table::Rank;

// What a search goes by: what is asked of the children behind those that take one term each, the terms that these may
// take, what is known of the plan's nodes, and for how many ranks there is room. What it may count on is `IsSought` of
// `specs/Seek.antt`.
#[derive(Clone, Copy)]
pub(crate) struct Sought<'a> {
    pub(crate) asked: Asked<'a>,
    pub(crate) choices: &'a [Rank],
    pub(crate) grounds: &'a [Ground],
    pub(crate) width: usize,
}

// Looks for the item that is wanted where no child is left that takes one term. A star wildcard that is alone takes all
// that is left.
fn seek_tail(
    sought: Sought<'_>,
    left: &[Rank],
    levels: &mut [Level],
    trail: &mut Trail,
    mode: Mode,
) -> bool
    requires sought { IsSought sought }
    requires left { AreGiven sought.asked.sig.now sought.asked.plan.now.pattern sought.asked.table.now left.now }
    requires wide { all_nodes (terms_at sought.asked.table.now left.now) ≤ sought.width }
    requires count { nodes_below sought.asked.plan.now.pattern ≤ length levels.old }
    requires levels { AreLevels sought.asked.table.now sought.width levels.old }
    requires trail { IsTrailOf sought.asked.table.now trail.old }
    requires spare { seek_cost sought.asked [] left.now ≤ trail.old.spare }
    requires mode { IsOnward mode }
    requires standing { IsStanding mode (levels_table sought.asked levels.old)
        (items_sought sought.asked [] left.now (numbered_subst sought.asked.table.now trail.old.stack)) }
    ensures found { let a = sought.entry.asked in
        IsFoundOf mode (levels_table a levels.old) (levels_table a levels.new)
        (items_sought a [] left.now (numbered_subst a.table.now trail.old.stack))
        (numbered_subst a.table.now trail.new.stack) result }
    ensures count { length levels.new ≡ length levels.old }
    ensures levels { AreLevels sought.entry.asked.table.now sought.entry.width levels.new }
    ensures kept { cut (length trail.old.stack) trail.new ≡ trail.old }
    ensures spare { trail.old.spare ≤ trail.new.spare + seek_cost sought.entry.asked [] left.now }
    ensures trail { IsTrailOf sought.entry.asked.table.now trail.new }
{
    let asked = sought.asked;
    if asked.owes || !is_of_star(asked.plan.pattern()) {
        return look(
            asked,
            left,
            sought.grounds,
            sought.width,
            levels,
            trail,
            mode,
        );
    }
    let Mode::First = mode else {
        return false;
    };
    if !bind_bag(asked.table, asked.vars, left, trail) {
        return false;
    }
    levels[0].set(left, false);
    true
}

// Takes the rank out of those that are left, where it stands among them.
fn take_out(left: &[Rank], rank: Rank, rest: &mut Room<Rank>) -> bool
    requires ascending { IsSorted rank_cmp left.now }
    requires room { length left.now ≤ rest.old.room }
    ensures taken { MatchBool result
        ((is_sublist rank_cmp (rank ∷ []) left.now ≡ true)
        × (rest.new.items.items ≡ without rank_cmp (rank ∷ []) left.now))
        (is_sublist rank_cmp (rank ∷ []) left.now ≡ false) }
    ensures room { rest.new.room ≡ rest.old.room }
{
    let Some(place) = place_of(left, rank) else {
        return false;
    };
    rest.refill(&left[..place]);
    rest.append(&left[place + 1..]);
    true
}

// Looks for the item that is wanted where the first child takes the term of the rank, which has its shape.
#[cycle(seek)]
fn seek_with(
    sought: Sought<'_>,
    child: &Pattern,
    later: &[Pattern],
    left: &[Rank],
    rank: Rank,
    rest: &mut Room<Rank>,
    picks: &mut [Pick],
    levels: &mut [Level],
    trail: &mut Trail,
    mode: Mode,
) -> bool
    requires sought { IsSought sought }
    requires child { IsLeading sought.asked.sig.now (pattern_tree child.now) }
    requires later { AllByRecursion (λ p. IsLeading sought.asked.sig.now (pattern_tree p)) later.now }
    requires left { AreGiven sought.asked.sig.now sought.asked.plan.now.pattern sought.asked.table.now left.now }
    requires wide { all_nodes (terms_at sought.asked.table.now left.now) ≤ sought.width }
    requires rank { HasRank sought.asked.table.now rank }
    requires shape { shape (pattern_tree child.now) (term_at sought.asked.table.now rank) ≡ true }
    requires room { sought.width ≤ rest.old.room }
    requires picks { ArePicksOf sought.asked.table.now (terms_at sought.asked.table.now left.now) sought.width
        sought.choices.now (map pattern_tree later.now) picks.old }
    requires count { nodes_below sought.asked.plan.now.pattern ≤ length levels.old }
    requires levels { AreLevels sought.asked.table.now sought.width levels.old }
    requires trail { IsTrailOf sought.asked.table.now trail.old }
    requires spare { seek_cost sought.asked (pattern_tree child.now ∷ map pattern_tree later.now) left.now
        ≤ trail.old.spare }
    requires mode { IsOnward mode }
    requires standing { IsStanding mode
        (table_of (pattern_tree child.now) (term_at sought.asked.table.now rank)
        ++ sought_table sought.asked sought.choices.now (map pattern_tree later.now) picks.old levels.old)
        (items_of_pick sought.asked (pattern_tree child.now) (map pattern_tree later.now) left.now
        (numbered_subst sought.asked.table.now trail.old.stack) rank) }
    ensures found { let a = sought.entry.asked in
        let own = table_of (pattern_tree child.now) (term_at a.table.now rank) in let ps = map pattern_tree later.now in
        IsFoundOf mode (own ++ sought_table a sought.entry.choices.now ps picks.old levels.old)
        (own ++ sought_table a sought.entry.choices.now ps picks.new levels.new)
        (items_of_pick a (pattern_tree child.now) ps left.now (numbered_subst a.table.now trail.old.stack) rank)
        (numbered_subst a.table.now trail.new.stack) result }
    ensures room { rest.new.room ≡ rest.old.room }
    ensures picks { (us : List Tree) → ArePicksOf sought.entry.asked.table.now us sought.entry.width
        sought.entry.choices.now (map pattern_tree later.now) picks.old
        → ArePicksOf sought.entry.asked.table.now us sought.entry.width sought.entry.choices.now
        (map pattern_tree later.now) picks.new }
    ensures rooms { map (λ k. k.rest.room) picks.new ≡ map (λ k. k.rest.room) picks.old }
    ensures picked { IsTrue result → ArePicked (map pattern_tree later.now) picks.new }
    ensures count { length levels.new ≡ length levels.old }
    ensures levels { AreLevels sought.entry.asked.table.now sought.entry.width levels.new }
    ensures kept { cut (length trail.old.stack) trail.new ≡ trail.old }
    ensures spare { trail.old.spare ≤ trail.new.spare
        + seek_cost sought.entry.asked (pattern_tree child.now ∷ map pattern_tree later.now) left.now }
    ensures trail { IsTrailOf sought.entry.asked.table.now trail.new }
{
    let Asked { sig, table, .. } = sought.asked;
    if !fill(sig, table, child, rank, trail) {
        return false;
    }
    if !take_out(left, rank, rest) {
        return false;
    }
    seek(sought, later, rest.as_slice(), picks, levels, trail, mode)
}

// Looks for the item that is wanted, over the terms that the first child may take, in turn.
#[cycle(seek)]
fn seek_each(
    sought: Sought<'_>,
    child: &Pattern,
    later: &[Pattern],
    left: &[Rank],
    own: &mut Pick,
    below: &mut [Pick],
    levels: &mut [Level],
    trail: &mut Trail,
    mode: Mode,
) -> bool
    requires sought { IsSought sought }
    requires child { IsLeading sought.asked.sig.now (pattern_tree child.now) }
    requires later { AllByRecursion (λ p. IsLeading sought.asked.sig.now (pattern_tree p)) later.now }
    requires left { AreGiven sought.asked.sig.now sought.asked.plan.now.pattern sought.asked.table.now left.now }
    requires wide { all_nodes (terms_at sought.asked.table.now left.now) ≤ sought.width }
    requires own { IsPickOf sought.asked.table.now (terms_at sought.asked.table.now left.now) sought.width
        sought.choices.now (pattern_tree child.now) (slice_get (map pattern_tree later.now) 0) own.old }
    requires below { ArePicksOf sought.asked.table.now (terms_at sought.asked.table.now left.now) sought.width
        sought.choices.now (map pattern_tree later.now) below.old }
    requires count { nodes_below sought.asked.plan.now.pattern ≤ length levels.old }
    requires levels { AreLevels sought.asked.table.now sought.width levels.old }
    requires trail { IsTrailOf sought.asked.table.now trail.old }
    requires spare { seek_cost sought.asked (pattern_tree child.now ∷ map pattern_tree later.now) left.now
        ≤ trail.old.spare }
    requires mode { IsOnward mode }
    requires standing { let ps = pattern_tree child.now ∷ map pattern_tree later.now in
        IsStanding mode (sought_table sought.asked sought.choices.now ps (own.old ∷ below.old) levels.old)
        (items_sought sought.asked ps left.now (numbered_subst sought.asked.table.now trail.old.stack)) }
    ensures found { let a = sought.entry.asked in let ps = pattern_tree child.now ∷ map pattern_tree later.now in
        IsFoundOf mode (sought_table a sought.entry.choices.now ps (own.old ∷ below.old) levels.old)
        (sought_table a sought.entry.choices.now ps (own.new ∷ below.new) levels.new)
        (items_sought a ps left.now (numbered_subst a.table.now trail.old.stack))
        (numbered_subst a.table.now trail.new.stack) result }
    ensures own { (us : List Tree) → IsPickOf sought.entry.asked.table.now us sought.entry.width
        sought.entry.choices.now (pattern_tree child.now) (slice_get (map pattern_tree later.now) 0) own.old
        → IsPickOf sought.entry.asked.table.now us sought.entry.width sought.entry.choices.now
        (pattern_tree child.now) (slice_get (map pattern_tree later.now) 0) own.new }
    ensures below { (us : List Tree) → ArePicksOf sought.entry.asked.table.now us sought.entry.width
        sought.entry.choices.now (map pattern_tree later.now) below.old
        → ArePicksOf sought.entry.asked.table.now us sought.entry.width sought.entry.choices.now
        (map pattern_tree later.now) below.new }
    ensures rooms { map (λ k. k.rest.room) (own.new ∷ below.new) ≡ map (λ k. k.rest.room) (own.old ∷ below.old) }
    ensures picked { IsTrue result
        → ArePicked (pattern_tree child.now ∷ map pattern_tree later.now) (own.new ∷ below.new) }
    ensures count { length levels.new ≡ length levels.old }
    ensures levels { AreLevels sought.entry.asked.table.now sought.entry.width levels.new }
    ensures kept { cut (length trail.old.stack) trail.new ≡ trail.old }
    ensures spare { trail.old.spare ≤ trail.new.spare
        + seek_cost sought.entry.asked (pattern_tree child.now ∷ map pattern_tree later.now) left.now }
    ensures trail { IsTrailOf sought.entry.asked.table.now trail.new }
{
    let mark = trail.mark();
    let mut mode = mode;
    let mut at = match mode {
        Mode::After => own.at,
        _ => own.from,
    };
    while at < own.end {
        own.at = at;
        let rank = sought.choices[at];
        if seek_with(
            sought,
            child,
            later,
            left,
            rank,
            &mut own.rest,
            below,
            levels,
            trail,
            mode,
        ) {
            return true;
        }
        trail.undo(mark);
        mode = Mode::First;
        at += 1;
    }
    false
}

// Looks for the item that is wanted, over the children that take one term each and then those of the plan: the first
// one, or the first one behind that of the picks and the levels.
#[cycle(seek)]
pub(crate) fn seek(
    sought: Sought<'_>,
    children: &[Pattern],
    left: &[Rank],
    picks: &mut [Pick],
    levels: &mut [Level],
    trail: &mut Trail,
    mode: Mode,
) -> bool
    requires sought { IsSought sought }
    requires children { AllByRecursion (λ p. IsLeading sought.asked.sig.now (pattern_tree p)) children.now }
    requires left { AreGiven sought.asked.sig.now sought.asked.plan.now.pattern sought.asked.table.now left.now }
    requires wide { all_nodes (terms_at sought.asked.table.now left.now) ≤ sought.width }
    requires picks { ArePicksOf sought.asked.table.now (terms_at sought.asked.table.now left.now) sought.width
        sought.choices.now (map pattern_tree children.now) picks.old }
    requires count { nodes_below sought.asked.plan.now.pattern ≤ length levels.old }
    requires levels { AreLevels sought.asked.table.now sought.width levels.old }
    requires trail { IsTrailOf sought.asked.table.now trail.old }
    requires spare { seek_cost sought.asked (map pattern_tree children.now) left.now ≤ trail.old.spare }
    requires mode { IsOnward mode }
    requires standing { IsStanding mode
        (sought_table sought.asked sought.choices.now (map pattern_tree children.now) picks.old levels.old)
        (items_sought sought.asked (map pattern_tree children.now) left.now
        (numbered_subst sought.asked.table.now trail.old.stack)) }
    ensures found { let a = sought.entry.asked in let ps = map pattern_tree children.now in
        IsFoundOf mode (sought_table a sought.entry.choices.now ps picks.old levels.old)
        (sought_table a sought.entry.choices.now ps picks.new levels.new)
        (items_sought a ps left.now (numbered_subst a.table.now trail.old.stack))
        (numbered_subst a.table.now trail.new.stack) result }
    ensures picks { (us : List Tree) → ArePicksOf sought.entry.asked.table.now us sought.entry.width
        sought.entry.choices.now (map pattern_tree children.now) picks.old
        → ArePicksOf sought.entry.asked.table.now us sought.entry.width sought.entry.choices.now
        (map pattern_tree children.now) picks.new }
    ensures rooms { map (λ k. k.rest.room) picks.new ≡ map (λ k. k.rest.room) picks.old }
    ensures picked { IsTrue result → ArePicked (map pattern_tree children.now) picks.new }
    ensures count { length levels.new ≡ length levels.old }
    ensures levels { AreLevels sought.entry.asked.table.now sought.entry.width levels.new }
    ensures kept { cut (length trail.old.stack) trail.new ≡ trail.old }
    ensures spare { trail.old.spare ≤ trail.new.spare
        + seek_cost sought.entry.asked (map pattern_tree children.now) left.now }
    ensures trail { IsTrailOf sought.entry.asked.table.now trail.new }
{
    let [child, later @ ..] = children else {
        return seek_tail(sought, left, levels, trail, mode);
    };
    let (own, below) = picks.split_at_mut(1);
    seek_each(
        sought,
        child,
        later,
        left,
        &mut own[0],
        below,
        levels,
        trail,
        mode,
    )
}
