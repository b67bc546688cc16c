//! The operations that a walk over a pattern is inside of.
ghost use Rattle.std.specs.Prelude.{◌≡◌, ◌∷◌, [], IfOk};
ghost use Rattle.mp_term.specs.View.{tree};
ghost use Rattle.mp_pattern.specs.PatternTree.{patterns, app_pattern};
ghost use Rattle.mp_pattern.specs.Fits as fits;
ghost use Rattle.mp_pattern.specs.View.{pattern_tree};
ghost use Rattle.mp_theory.specs.Frames as walk;
ghost use Rattle.mp_theory.specs.Machine as machine;
ghost use Rattle.mp_one.specs.Lists.{trees_of};
ghost use Rattle.mp_one.specs.Stack.{stack_frames, frame_of, inner_frame, next_of, entry_of};

use crate::pieces::without;
use crate::terms::{copied, references};
use mp_pattern::{Pattern, Patterns, Shape};
use mp_term::{Memory, OpId, Term};
use std::alloc::Global;
use std::slice;

/// The children of an operation that are still to take, what they are to take together, and whether one of them must
/// be left out.
#[derive(Drop)]
pub struct Frame<'a> {
    pub under: Option<OpId>,
    pub children: &'a [Pattern],
    pub left: Vec<&'a Term>,
    pub owes: bool,
}

/// The operations around a place, the innermost first.
#[derive(Drop)]
pub enum Stack<'a> {
    Root,
    Within(Frame<'a>, &'a Stack<'a>),
}

/// A child that is to take next, with the innermost frame around it taken apart, and the frames around that.
#[derive(Drop)]
pub struct Place<'a> {
    pub child: &'a Pattern,
    pub under: Option<OpId>,
    pub later: &'a [Pattern],
    pub left: &'a [&'a Term],
    pub owes: bool,
    pub outer: &'a Stack<'a>,
}

/// What comes next: nothing more, a refusal, or a child.
#[derive(Drop)]
pub enum Next<'a> {
    Ended,
    Refused,
    Child(Place<'a>),
}

/// What a node takes, and of an application whether it is collapsed.
#[derive(Drop)]
pub struct Take<'a> {
    pub terms: Vec<&'a Term>,
    pub collapsed: bool,
}

/// What comes next. A frame whose children have all taken is left, if it has no terms over and owes nothing, and else
/// refused.
pub fn settle<'a>(stack: &'a Stack<'a>) -> Next<'a>
    ensures { walk.settle (stack_frames stack.now) ≡ next_of result }
{
    match stack {
        Stack::Root => Next::Ended,
        Stack::Within(frame, outer) => match frame.children {
            [] => {
                if frame.left.is_empty() && !frame.owes {
                    settle(outer)
                } else {
                    Next::Refused
                }
            }
            [child, later @ ..] => Next::Child(Place {
                child,
                under: frame.under,
                later,
                left: &frame.left,
                owes: frame.owes,
                outer,
            }),
        },
    }
}

// Whether the child is an optional wildcard that takes the empty list.
fn is_left_out(child: &Pattern, terms: &[&Term]) -> bool
    ensures { result ≡ fits.is_left_out (pattern_tree child.now) (trees_of terms.now) }
{
    match child {
        Pattern::Wild(Shape::Opt(_), _) => terms.is_empty(),
        _ => false,
    }
}

/// What is left for the later children once the child has taken the entry.
pub fn frame_behind<'a>(
    alloc: Global,
    place: &Place<'a>,
    entry: &Take<'_>,
) -> Result<Frame<'a>, Memory>
    ensures { IfOk result (λ f. frame_of f ≡ machine.taken_out (pattern_tree place.now.child.now) (entry_of entry.now)
        (inner_frame place.now)) }
{
    Ok(Frame {
        under: place.under,
        children: place.later,
        left: without(alloc, &entry.terms, place.left)?,
        owes: place.owes && !is_left_out(place.child, &entry.terms),
    })
}

/// The arguments of the term.
pub fn arguments_of<'a>(alloc: Global, term: &'a Term) -> Result<Vec<&'a Term>, Memory>
    ensures { IfOk result (λ v. trees_of v.items ≡ machine.arguments (tree term.now ∷ [])) }
{
    match term {
        Term::Sym(_) => Ok(Vec::new(alloc)),
        Term::App(_, args) => {
            let all = references(alloc, args.as_slice())?;
            Ok(all)
        }
    }
}

// The arguments of the one term.
fn arguments<'a>(alloc: Global, terms: &[&'a Term]) -> Result<Vec<&'a Term>, Memory>
    ensures { IfOk result (λ v. trees_of v.items ≡ machine.arguments (trees_of terms.now)) }
{
    match terms {
        [only] => arguments_of(alloc, only),
        _ => Ok(Vec::new(alloc)),
    }
}

/// What the children of an application are to take, where it takes the entry.
pub fn children_frame<'a>(
    alloc: Global,
    op: OpId,
    children: &'a Patterns,
    entry: &Take<'a>,
) -> Result<Frame<'a>, Memory>
    ensures { IfOk result (λ f. frame_of f ∷ []
        ≡ machine.entered (app_pattern op.0 (patterns children.now)) (entry_of entry.now) []) }
{
    let left = if entry.collapsed {
        copied(alloc, &entry.terms)?
    } else {
        arguments(alloc, &entry.terms)?
    };
    Ok(Frame {
        under: Some(op),
        children: children.as_slice(),
        left,
        owes: entry.collapsed,
    })
}

/// What the pattern is to take: the subject.
pub fn root_frame<'a>(
    alloc: Global,
    pattern: &'a Pattern,
    subject: &'a Term,
) -> Result<Frame<'a>, Memory>
    ensures { IfOk result (λ f. frame_of f ∷ [] ≡ walk.start (pattern_tree pattern.now) (tree subject.now)) }
{
    Ok(Frame {
        under: None,
        children: slice::from_ref(pattern),
        left: copied(alloc, &[subject])?,
        owes: false,
    })
}
