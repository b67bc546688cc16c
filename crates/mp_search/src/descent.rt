//! The search for the first table, for the first one after another, or for one alone.
ghost use Rattle.std.specs.Prelude.{◌≡◌, ◌<◌, ◌≤◌, ◌+◌, ◌-◌, ◌*◌, ◌∷◌, true, take, drop, length};
ghost use Rattle.std.specs.Prelude.{filter, flat_map, IsTrue};
ghost use Rattle.mp_term.specs.Listing.{In};
ghost use Rattle.mp_term.specs.Order.{tree_cmp};
ghost use Rattle.mp_term.specs.Pieces.{without};
ghost use Rattle.mp_pattern.specs.View.{pattern_tree};
ghost use Rattle.mp_theory.specs.Frames as walk;
ghost use Rattle.mp_theory.specs.Items.{items};
ghost use Rattle.mp_theory.specs.Narrow.{load};
ghost use Rattle.mp_theory.specs.Trail.{allows};
ghost use Rattle.mp_subst.specs.Trail.{GoesWith, cut};
ghost use Rattle.mp_search.specs.At.{IsAt, IsAtNode, HasTrail, IsDrawn, Keeps, IsFound, drawn_at, own_at, items_from};
ghost use Rattle.mp_search.specs.At.{items_with, BindsOnly};
ghost use Rattle.mp_search.specs.Bounds.{TakesNext};
ghost use Rattle.mp_search.specs.Frames.{above, frame_of, stack_frames, left_of, rest_at, place_after, start_of};
ghost use Rattle.mp_search.specs.Frames.{LeftBelow, IsBelow};
ghost use Rattle.mp_search.specs.Levels.{AreLevels};
ghost use Rattle.mp_search.specs.Query.{IsReady, width};
ghost use Rattle.mp_search.specs.Reading.{table_of, entry_at, subst_of};
ghost use Rattle.mp_search.specs.Tried.{to_try};
ghost use Rattle.mp_search.specs.Wanted.{wanted, good, IsStanding, AreComplete};

use crate::behind::{inner_frame, rest_frame};
use crate::judge::{fails, holds};
use crate::level::Level;
use crate::mode::Mode;
use crate::next::takes_the_next;
use crate::node::{
    bind_at, first_at, has_one_way_at, is_told_at, leads_nowhere_at, leave_at, may_stand, next_at,
    pass_at, prepare_at, takes_all_at,
};
use crate::query::Query;
use crate::stack::{Frame, Left, Next, Place, Stack, is_behind, settle};
use mp_pattern::Pattern;
use mp_subst::Trail;

// Goes on behind the entry of node k.
#[cycle(search)]
fn descend<'a>(
    query: &Query<'_>,
    place: &Place<'a>,
    levels: &mut [Level],
    k: usize,
    trail: &mut Trail,
    mode: Mode,
) -> bool
    requires within { k < length levels.old }
    requires node { IsAtNode query.now (k + 1) levels.old }
    requires place { IsAt query.now (take k levels.old) place.now }
    requires rest { rest_at query.now levels.old k
        ≡ without tree_cmp (entry_at query.now.table.now levels.old k).terms
        (left_of query.now (take k levels.old) place.now.left) }
    requires trail { HasTrail query.now (k + 1) levels.old trail.old }
    requires standing { IsStanding mode (table_of query.now.table.now (drop (k + 1) levels.old))
        (items_from query.now (k + 1) levels.old (subst_of query.now trail.old)) }
    requires complete { AreComplete query.now (items_from query.now (k + 1) levels.old (subst_of query.now trail.old)) }
    ensures found { let is = wanted query.now mode (table_of query.now.table.now (drop (k + 1) levels.old))
        (items_from query.now (k + 1) levels.old (subst_of query.now trail.old)) in
        IsFound query.now result is (drop (k + 1) levels.new) trail.new }
    ensures kept { Keeps query.now (k + 1) levels.old levels.new trail.old trail.new }
{
    let rest = Stack::Within(rest_frame(query, place, levels, k), place.outer);
    match place.child {
        Pattern::App(op, children) => {
            let inner = inner_frame(query, *op, children.as_slice(), levels, k);
            search_within(query, inner, &rest, levels, k + 1, trail, mode)
        }
        _ => search(query, &rest, levels, k + 1, trail, mode),
    }
}

// Binds what the entry of node k says, and goes on behind it.
#[cycle(search)]
fn follow<'a>(
    query: &Query<'_>,
    place: &Place<'a>,
    levels: &mut [Level],
    k: usize,
    trail: &mut Trail,
    mode: Mode,
) -> bool
    requires within { k < length levels.old }
    requires node { IsAtNode query.now k levels.old }
    requires place { IsAt query.now (take k levels.old) place.now }
    requires trail { HasTrail query.now k levels.old trail.old }
    requires allowed { allows query.now.sig.now (place_after query.now (take k levels.old))
        (entry_at query.now.table.now levels.old k) ≡ true }
    requires standing { IsStanding mode (table_of query.now.table.now (drop k levels.old))
        (items_with query.now k levels.old (subst_of query.now trail.old) (entry_at query.now.table.now levels.old k)) }
    requires complete { AreComplete query.now
        (items_with query.now k levels.old (subst_of query.now trail.old) (entry_at query.now.table.now levels.old k)) }
    ensures found { let is = wanted query.now mode (table_of query.now.table.now (drop k levels.old))
        (items_with query.now k levels.old (subst_of query.now trail.old)
        (entry_at query.now.table.now levels.old k)) in
        IsFound query.now result is (drop k levels.new) trail.new }
    ensures own { own_at levels.new k ≡ own_at levels.old k }
    ensures kept { Keeps query.now k levels.old levels.new trail.old trail.new }
{
    if !bind_at(query, place, levels, k, trail) {
        return false;
    }
    if leads_nowhere_at(query, place, levels, k, trail, mode) {
        return false;
    }
    leave_at(&*query, &*place, levels, k);
    descend(query, place, levels, k, trail, mode)
}

// Tries the entries that are drawn at node k from the one at hand on, if there is one.
#[cycle(search)]
fn try_each<'a>(
    query: &Query<'_>,
    place: &Place<'a>,
    levels: &mut [Level],
    k: usize,
    trail: &mut Trail,
    from: bool,
) -> bool
    requires within { k < length levels.old }
    requires node { IsAtNode query.now k levels.old }
    requires place { IsAt query.now (take k levels.old) place.now }
    requires trail { HasTrail query.now k levels.old trail.old }
    requires drawn { IsDrawn query.now place.now levels.old k (subst_of query.now trail.old) }
    requires from { IsTrue from
        → In (entry_at query.now.table.now levels.old k) (drawn_at query.now place.now levels.old k) }
    requires complete { AreComplete query.now (items_from query.now k levels.old (subst_of query.now trail.old)) }
    ensures found { let is =
        filter (good query.now) (flat_map (items_with query.now k levels.old (subst_of query.now trail.old))
        (to_try from (entry_at query.now.table.now levels.old k) (drawn_at query.now place.now levels.old k))) in
        IsFound query.now result is (drop k levels.new) trail.new }
    ensures kept { Keeps query.now k levels.old levels.new trail.old trail.new }
{
    let mark = trail.mark();
    let mut found = from;
    while found {
        if follow(query, place, levels, k, trail, Mode::First) {
            return true;
        }
        trail.undo(mark);
        found = next_at(&*query, &*place, levels, k);
    }
    false
}

// What is found where nothing more is to take.
fn ended(query: &Query<'_>, levels: &[Level], k: usize, trail: &Trail, mode: Mode) -> bool
    requires within { k ≤ length levels.now }
    requires node { IsAtNode query.now k levels.now }
    requires ended { place_after query.now (take k levels.now) ≡ walk.ended }
    requires trail { GoesWith query.now.table.now trail.now }
    requires complete { AreComplete query.now (items_from query.now k levels.now (subst_of query.now trail.now)) }
    ensures found { let is = wanted query.now mode (table_of query.now.table.now (drop k levels.now))
        (items_from query.now k levels.now (subst_of query.now trail.now)) in
        IsFound query.now result is (drop k levels.now) trail.now }
{
    if k < levels.len() {
        return false;
    }
    match mode {
        Mode::After => false,
        _ => holds(query, trail),
    }
}

// Whether the entry of node k may stand there, as that of a table does after which one looks.
fn stands(
    query: &Query<'_>,
    place: &Place<'_>,
    levels: &[Level],
    k: usize,
    trail: &Trail,
    mode: Mode,
) -> bool
    requires within { k < length levels.now }
    requires node { IsAtNode query.now k levels.now }
    requires place { IsAt query.now (take k levels.now) place.now }
    requires standing { IsStanding mode (table_of query.now.table.now (drop k levels.now))
        (items_from query.now k levels.now (subst_of query.now trail.now)) }
    ensures { result ≡ allows query.now.sig.now (place_after query.now (take k levels.now))
        (entry_at query.now.table.now levels.now k) }
{
    // That of which table it is, is said over the trail.
    let _ = trail;
    match mode {
        Mode::After => true,
        _ => may_stand(query, place, levels, k),
    }
}

// Looks for what is wanted at a child that takes the next term, node k.
#[cycle(search)]
fn visit_next<'a>(
    query: &Query<'_>,
    place: &Place<'a>,
    levels: &mut [Level],
    k: usize,
    trail: &mut Trail,
    mode: Mode,
) -> bool
    requires within { k < length levels.old }
    requires node { IsAtNode query.now k levels.old }
    requires place { IsAt query.now (take k levels.old) place.now }
    requires next { TakesNext query.now.sig.now (above place.now.under) (pattern_tree place.now.child.now) }
    requires trail { HasTrail query.now k levels.old trail.old }
    requires standing { IsStanding mode (table_of query.now.table.now (drop k levels.old))
        (items_from query.now k levels.old (subst_of query.now trail.old)) }
    requires complete { AreComplete query.now (items_from query.now k levels.old (subst_of query.now trail.old)) }
    ensures found { let is = wanted query.now mode (table_of query.now.table.now (drop k levels.old))
        (items_from query.now k levels.old (subst_of query.now trail.old)) in
        IsFound query.now result is (drop k levels.new) trail.new }
    ensures kept { Keeps query.now k levels.old levels.new trail.old trail.new }
{
    match mode {
        Mode::First => {
            if !pass_at(&*query, &*place, levels, k, trail) {
                return false;
            }
            if fails(query, trail) {
                return false;
            }
            let rest = rest_frame(query, place, levels, k);
            search_within(query, rest, place.outer, levels, k + 1, trail, Mode::First)
        }
        _ => {
            if !stands(query, place, levels, k, trail, mode) {
                return false;
            }
            follow(query, place, levels, k, trail, mode)
        }
    }
}

// Looks for what is wanted at a child, node k.
#[cycle(search)]
fn visit<'a>(
    query: &Query<'_>,
    place: &Place<'a>,
    levels: &mut [Level],
    k: usize,
    trail: &mut Trail,
    mode: Mode,
) -> bool
    requires within { k < length levels.old }
    requires node { IsAtNode query.now k levels.old }
    requires place { IsAt query.now (take k levels.old) place.now }
    requires trail { HasTrail query.now k levels.old trail.old }
    requires standing { IsStanding mode (table_of query.now.table.now (drop k levels.old))
        (items_from query.now k levels.old (subst_of query.now trail.old)) }
    requires complete { AreComplete query.now (items_from query.now k levels.old (subst_of query.now trail.old)) }
    ensures found { let is = wanted query.now mode (table_of query.now.table.now (drop k levels.old))
        (items_from query.now k levels.old (subst_of query.now trail.old)) in
        IsFound query.now result is (drop k levels.new) trail.new }
    ensures kept { Keeps query.now k levels.old levels.new trail.old trail.new }
{
    if takes_the_next(query.sig, place.under, place.child) {
        return visit_next(query, place, levels, k, trail, mode);
    }
    match mode {
        Mode::First => {
            prepare_at(&*query, &*place, levels, k, trail);
            let found = first_at(&*query, &*place, levels, k);
            try_each(query, place, levels, k, trail, found)
        }
        Mode::At => {
            if !may_stand(query, place, levels, k) {
                return false;
            }
            follow(query, place, levels, k, trail, mode)
        }
        Mode::After => {
            if has_one_way_at(query, place, &*levels, k, &*trail) {
                return false;
            }
            let mark = trail.mark();
            let last = takes_all_at(query, place, &*levels, k);
            let told = is_told_at(query, place, &*levels, k, &*trail);
            if follow(query, place, levels, k, trail, mode) {
                return true;
            }
            trail.undo(mark);
            if last {
                return false;
            }
            if told {
                return false;
            }
            prepare_at(&*query, &*place, levels, k, trail);
            let found = next_at(&*query, &*place, levels, k);
            try_each(query, place, levels, k, trail, found)
        }
    }
}

// Looks for what is wanted from node k on.
#[cycle(search)]
fn search<'a>(
    query: &Query<'_>,
    stack: &'a Stack<'a>,
    levels: &mut [Level],
    k: usize,
    trail: &mut Trail,
    mode: Mode,
) -> bool
    requires within { k ≤ length levels.old }
    requires node { IsAtNode query.now k levels.old }
    requires stands { walk.settle (stack_frames query.now (take k levels.old) stack.now)
        ≡ place_after query.now (take k levels.old) }
    requires below { IsBelow k stack.now }
    requires trail { HasTrail query.now k levels.old trail.old }
    requires standing { IsStanding mode (table_of query.now.table.now (drop k levels.old))
        (items_from query.now k levels.old (subst_of query.now trail.old)) }
    requires complete { AreComplete query.now (items_from query.now k levels.old (subst_of query.now trail.old)) }
    ensures found { let is = wanted query.now mode (table_of query.now.table.now (drop k levels.old))
        (items_from query.now k levels.old (subst_of query.now trail.old)) in
        IsFound query.now result is (drop k levels.new) trail.new }
    ensures kept { Keeps query.now k levels.old levels.new trail.old trail.new }
{
    match settle(query, &levels[..k], stack) {
        Next::Refused => false,
        Next::Ended => ended(query, levels, k, trail, mode),
        Next::Child(place) => {
            if k == levels.len() {
                return false;
            }
            visit(query, &place, levels, k, trail, mode)
        }
    }
}

// The same, where the innermost frame is given: mostly it has a child to take next.
#[cycle(search)]
fn search_within<'a>(
    query: &Query<'_>,
    frame: Frame<'a>,
    outer: &'a Stack<'a>,
    levels: &mut [Level],
    k: usize,
    trail: &mut Trail,
    mode: Mode,
) -> bool
    requires within { k ≤ length levels.old }
    requires node { IsAtNode query.now k levels.old }
    requires stands { walk.settle (frame_of query.now (take k levels.old) frame
        ∷ stack_frames query.now (take k levels.old) outer.now) ≡ place_after query.now (take k levels.old) }
    requires below { LeftBelow k frame.left × IsBelow k outer.now }
    requires trail { HasTrail query.now k levels.old trail.old }
    requires standing { IsStanding mode (table_of query.now.table.now (drop k levels.old))
        (items_from query.now k levels.old (subst_of query.now trail.old)) }
    requires complete { AreComplete query.now (items_from query.now k levels.old (subst_of query.now trail.old)) }
    ensures found { let is = wanted query.now mode (table_of query.now.table.now (drop k levels.old))
        (items_from query.now k levels.old (subst_of query.now trail.old)) in
        IsFound query.now result is (drop k levels.new) trail.new }
    ensures kept { Keeps query.now k levels.old levels.new trail.old trail.new }
{
    if is_behind(query, &levels[..k], &frame) {
        return search(query, outer, levels, k, trail, mode);
    }
    if k < levels.len() {
        if let [child, later @ ..] = frame.children {
            let place = Place {
                child,
                under: frame.under,
                later,
                left: frame.left,
                owes: frame.owes,
                outer,
            };
            return visit(query, &place, levels, k, trail, mode);
        }
    }
    let stack = Stack::Within(frame, outer);
    search(query, &stack, levels, k, trail, mode)
}

/// Looks for a table of the items from the query's start on, over the trail: for the first one, for the first one after
/// the table at hand, or for that one alone, where the condition holds of its substitution (`wanted` of
/// `specs/Wanted.antt`). True says that the levels have the first table that is wanted, and the trail its substitution;
/// false, that there is none. What was bound before is bound below (`kept`), so that an undo to the length that the
/// trail had gives it again, and all that is bound are variables of the query (`only`). Of the trail's room it takes no
/// more than the nodes of what is left at the start, and three for each level (`spare`), whether it finds a table or
/// not.
///
/// What must hold is `IsReady` of `specs/Query.antt`; where one looks for what comes after the table at hand, that is
/// the table of an item (`IsStanding`); and where there is a condition, each item has a value for each variable
/// (`AreComplete`).
pub fn find(query: &Query<'_>, levels: &mut [Level], trail: &mut Trail, mode: Mode) -> bool
    requires ready { IsReady query.now 0 levels.old trail.old }
    requires standing { IsStanding mode (table_of query.now.table.now levels.old)
        (items query.now.sig.now (length levels.old) (start_of query.now) (subst_of query.now trail.old)) }
    requires complete { AreComplete query.now
        (items query.now.sig.now (length levels.old) (start_of query.now) (subst_of query.now trail.old)) }
    ensures found { let is = wanted query.now mode (table_of query.now.table.now levels.old)
        (items query.now.sig.now (length levels.old) (start_of query.now) (subst_of query.now trail.old)) in
        IsFound query.now result is levels.new trail.new }
    ensures many { length levels.new ≡ length levels.old }
    ensures levels { AreLevels query.now.table.now (width query.now) levels.new }
    ensures kept { cut (length trail.old.stack) trail.new ≡ trail.old }
    ensures only { BindsOnly query.now.vars.now trail.old trail.new }
    ensures vars { trail.new.vars ≡ trail.old.vars }
    ensures room { trail.new.room ≡ trail.old.room }
    ensures spare { trail.old.spare ≤ trail.new.spare + (load (start_of query.now) + 3 * length levels.old) }
    ensures trail { GoesWith query.now.table.now trail.new }
{
    let root = Stack::Root;
    let start = Stack::Within(
        Frame {
            under: query.start.under,
            children: query.start.children,
            left: Left::Given,
            owes: query.start.owes,
        },
        &root,
    );
    search(query, &start, levels, 0, trail, mode)
}
