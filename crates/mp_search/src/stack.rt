//! The operations that a search is inside of: the patterns by reference, the ranks by the level that has them.
ghost use Rattle.std.specs.Prelude.{◌≡◌, ◌∷◌, List, IsTrue, length};
ghost use Rattle.mp_table.specs.Table.{HasRanks, terms_at};
ghost use Rattle.mp_theory.specs.Frames as walk;
ghost use Rattle.mp_theory.specs.Machine.{arguments};
ghost use Rattle.mp_search.specs.Frames.{frame_of, stack_frames, next_of, left_of, IsBelow, LeftBelow, NextBelow};
ghost use Rattle.mp_search.specs.Levels.{AreLevels};
ghost use Rattle.mp_search.specs.Query.{IsQuery, width};

use crate::level::Level;
use crate::query::Query;
use mp_pattern::Pattern;
use mp_table::{Rank, Table};
use mp_term::OpId;

// Where the terms are that are left to a frame: those that are given; the arguments of what a level takes; what it
// takes; what is left behind it.
#[derive(Clone, Copy)]
pub(crate) enum Left {
    Given,
    Args(usize),
    Take(usize),
    Rest(usize),
}

// The children of an operation that are still to take, what they are to take together, and whether one must be left
// out.
#[derive(Clone, Copy)]
pub(crate) struct Frame<'a> {
    pub(crate) under: Option<OpId>,
    pub(crate) children: &'a [Pattern],
    pub(crate) left: Left,
    pub(crate) owes: bool,
}

// The operations around a place, the innermost first.
#[derive(Drop)]
pub(crate) enum Stack<'a> {
    Root,
    Within(Frame<'a>, &'a Stack<'a>),
}

// A child that is to take next.
#[derive(Clone, Copy)]
pub(crate) struct Place<'a> {
    pub(crate) child: &'a Pattern,
    pub(crate) under: Option<OpId>,
    pub(crate) later: &'a [Pattern],
    pub(crate) left: Left,
    pub(crate) owes: bool,
    pub(crate) outer: &'a Stack<'a>,
}

// What comes next.
#[derive(Drop)]
pub(crate) enum Next<'a> {
    Ended,
    Refused,
    Child(Place<'a>),
}

// The arguments of the one term, if it is one.
fn arguments_of<'a>(table: &'a Table, ranks: &[Rank]) -> &'a [Rank]
    requires { HasRanks table.now ranks.now }
    ensures terms { terms_at table.now result.now ≡ arguments (terms_at table.now ranks.now) }
    ensures ranks { HasRanks table.now result.now }
{
    if ranks.len() == 1 {
        table.args(ranks[0])
    } else {
        &[]
    }
}

// The terms that are left to a frame, which are in the levels below.
pub(crate) fn left_list<'a>(query: &Query<'a>, below: &'a [Level], left: Left) -> &'a [Rank]
    requires query { IsQuery query.now }
    requires levels { AreLevels query.now.table.now (width query.now) below.now }
    requires within { LeftBelow (length below.now) left }
    ensures terms { terms_at query.now.table.now result.now ≡ left_of query.now below.now left }
    ensures ranks { HasRanks query.now.table.now result.now }
{
    match left {
        Left::Given => query.start.left,
        Left::Take(j) => below[j].take.as_slice(),
        Left::Rest(j) => below[j].rest.as_slice(),
        Left::Args(j) => arguments_of(query.table, below[j].take.as_slice()),
    }
}

// Whether the operation is left behind: its children have all taken, nothing is left to them, and none owes.
pub(crate) fn is_behind(query: &Query<'_>, below: &[Level], frame: &Frame<'_>) -> bool
    requires query { IsQuery query.now }
    requires levels { AreLevels query.now.table.now (width query.now) below.now }
    requires within { LeftBelow (length below.now) frame.now.left }
    ensures { IsTrue result → (fs : List walk.Frame) →
        walk.settle (frame_of query.now below.now frame.now ∷ fs) ≡ walk.settle fs }
{
    match frame.children {
        [] => !frame.owes && left_list(&*query, below, frame.left).is_empty(),
        _ => false,
    }
}

// What comes next. The operations are left behind whose children have all taken, if nothing is left to them and none
// owes, and else it is refused.
pub(crate) fn settle<'a>(query: &Query<'_>, below: &[Level], stack: &'a Stack<'a>) -> Next<'a>
    requires query { IsQuery query.now }
    requires levels { AreLevels query.now.table.now (width query.now) below.now }
    requires within { IsBelow (length below.now) stack.now }
    ensures next { walk.settle (stack_frames query.now below.now stack.now) ≡ next_of query.now below.now result }
    ensures below { NextBelow (length below.now) result }
{
    match stack {
        Stack::Root => Next::Ended,
        Stack::Within(frame, outer) => match frame.children {
            [] => {
                if left_list(&*query, below, frame.left).is_empty() && !frame.owes {
                    settle(query, below, outer)
                } else {
                    Next::Refused
                }
            }
            [child, later @ ..] => Next::Child(Place {
                child,
                under: frame.under,
                later,
                left: frame.left,
                owes: frame.owes,
                outer,
            }),
        },
    }
}
