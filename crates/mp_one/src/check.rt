//! The check of a take table: the walk over the pattern, with one entry at each node.
ghost use Rattle.std.specs.Prelude.{◌≡◌, ◌↔◌, ◌∷◌, [], IfOk, IsTrue, map};
ghost use Rattle.mp_term.specs.View.{tree};
ghost use Rattle.mp_term.specs.Normal.{IsNormal};
ghost use Rattle.mp_pattern.specs.PatternTree as plain;
ghost use Rattle.mp_pattern.specs.EntryView.{table_entry};
ghost use Rattle.mp_pattern.specs.Plan.{IsPlanOf};
ghost use Rattle.mp_pattern.specs.Value.{Subst};
ghost use Rattle.mp_pattern.specs.Fits.{Fits};
ghost use Rattle.mp_theory.specs.Frames as walk;
ghost use Rattle.mp_theory.specs.Machine as machine;
ghost use Rattle.mp_one.specs.Stack.{frame_of, stack_frames, child_of, entry_of};
ghost use Rattle.mp_one.specs.Trail.{trail_of};
ghost use Rattle.mp_one.specs.Check.{goes_on};

use crate::choices::allows;
use crate::stack::{
    Frame, Next, Place, Stack, Take, children_frame, frame_behind, root_frame, settle,
};
use crate::terms::references;
use crate::trail::{Extended, TrailBinding, extend};
use mp_pattern::{Entries, Entry, Pattern, Plan};
use mp_term::{Memory, Signature, Term};
use std::alloc::Global;

// The entry, held by reference.
fn borrowed(alloc: Global, entry: &Entry) -> Result<Take<'_>, Memory>
    ensures { IfOk result (λ e. entry_of e ≡ table_entry entry.now) }
{
    Ok(Take {
        terms: references(alloc, entry.terms.as_slice())?,
        collapsed: entry.collapsed,
    })
}

// Whether the walk has come to its end.
fn is_ended(stack: &Stack<'_>) -> bool
    ensures { result ≡ machine.is_ended (walk.settle (stack_frames stack.now)) }
{
    match settle(stack) {
        Next::Ended => true,
        _ => false,
    }
}

// Whether the table goes on behind the entry.
#[cycle(check)]
fn goes_on_behind<'a>(
    alloc: Global,
    sig: &Signature,
    place: &Place<'a>,
    entry: &Take<'a>,
    trail: &[TrailBinding<'a>],
    later: &'a [Entry],
) -> Result<bool, Memory>
    ensures { IfOk result (λ b. b ≡ goes_on sig.now (machine.onward (child_of place.now) (entry_of entry.now))
        (trail_of trail.now) (map table_entry later.now)) }
{
    let rest = Stack::Within(frame_behind(alloc, place, entry)?, place.outer);
    match place.child {
        Pattern::App(op, children) => {
            let inner = Stack::Within(children_frame(alloc, *op, children, entry)?, &rest);
            goes_on(alloc, sig, &inner, &*trail, later)
        }
        _ => goes_on(alloc, sig, &rest, &*trail, later),
    }
}

// Whether the table goes on with the entry at the place.
#[cycle(check)]
fn goes_on_with<'a>(
    alloc: Global,
    sig: &Signature,
    place: &Place<'a>,
    entry: &Take<'a>,
    trail: &[TrailBinding<'a>],
    later: &'a [Entry],
) -> Result<bool, Memory>
    ensures { IfOk result
        (λ b. b ≡ goes_on sig.now (child_of place.now) (trail_of trail.now)
        (entry_of entry.now ∷ map table_entry later.now)) }
{
    if !allows(sig, place, entry) {
        return Ok(false);
    }
    match extend(alloc, sig, place, entry, trail)? {
        Extended::Clash => Ok(false),
        Extended::Same => goes_on_behind(alloc, sig, place, entry, trail, later),
        Extended::Changed(after) => goes_on_behind(alloc, sig, place, entry, &after, later),
    }
}

// Whether the entries go on from the stack, where the trail has been bound.
#[cycle(check)]
fn goes_on<'a>(
    alloc: Global,
    sig: &Signature,
    stack: &'a Stack<'a>,
    trail: &'a [TrailBinding<'a>],
    entries: &'a [Entry],
) -> Result<bool, Memory>
    ensures { IfOk result (λ b. b ≡ goes_on sig.now (walk.settle (stack_frames stack.now)) (trail_of trail.now)
        (map table_entry entries.now)) }
{
    let [entry, later @ ..] = entries else {
        return Ok(is_ended(stack));
    };
    match settle(stack) {
        Next::Child(place) => {
            let entry = borrowed(alloc, entry)?;
            goes_on_with(alloc, sig, &place, &entry, trail, later)
        }
        _ => Ok(false),
    }
}

// Whether the table goes on from the frame.
fn goes_on_from<'a>(
    alloc: Global,
    sig: &Signature,
    frame: Frame<'a>,
    entries: &'a [Entry],
) -> Result<bool, Memory>
    ensures { IfOk result
        (λ b. b ≡ goes_on sig.now (walk.settle (frame_of frame.entry ∷ [])) [] (map table_entry entries.now)) }
{
    let root = Stack::Root;
    goes_on(alloc, sig, &Stack::Within(frame, &root), &[], entries)
}

/// Whether the take table fits the plan's pattern and the subject with some substitution, by `Fits` of mp_pattern's
/// `specs/Fits.antt`.
///
/// The plan is that of a pattern over the signature, and the subject is normal. The table may be any list of entries.
/// One that is too short or too long, that marks as collapsed what doesn't collapse, that has a term which the subject
/// doesn't have there, or that leaves out a variable whose default isn't normal, fits nothing.
///
/// `Memory`: memory ran out, and nothing is left.
// The call searches nothing: it takes the entries in turn, up to the first that can't stand where it stands. At each
// node it goes a few times over the entry's terms, over what is left of the arguments there, and over the values so
// far. So it takes at most some multiple of as many steps as there are nodes times terms, of the table and of the
// subject's longest list of arguments, where to compare two terms is one step; a tuple that meets a multiset is sorted
// besides.
pub fn check_takes(
    alloc: Global,
    sig: &Signature,
    plan: &Plan,
    subject: &Term,
    takes: &Entries,
) -> Result<bool, Memory>
    requires { IsNormal sig.now (tree subject.now) }
    ensures { IfOk result (λ b. (p : plain.Pattern) → IsPlanOf sig.now p plan.now →
        (IsTrue b ↔ ((s : Subst) × Fits sig.now p (tree subject.now) s takes.now))) }
{
    let frame = root_frame(alloc, plan.pattern(), subject)?;
    let fits = goes_on_from(alloc, sig, frame, takes.as_slice())?;
    Ok(fits)
}
