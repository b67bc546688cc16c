//! The test of edits before they are made.
ghost use Rattle.std.specs.Prelude.{◌≡◌, ◌≤◌, [], length, position};
ghost use Rattle.std.specs.List.{list_any};
ghost use Rattle.mp_term.specs.View.{tree};
ghost use Rattle.mp_term.specs.EditFault.{overlap, overlap_after, is_astray, breaks, edit_fault};
ghost use Rattle.mp_term.specs.EditWalk.{is_sibling};

use crate::edit::{Edit, Edits};
use crate::edit_fault::EditFault;
use crate::edited::{count_after, size_after};
use crate::limits::MAX_EDITS;
use crate::signature::Signature;
use crate::term::{Term, at};

// The position of the edit names no subterm.
fn is_astray(term: &Term, edit: &Edit) -> bool
    ensures { result ≡ is_astray (tree term.now) edit.now }
{
    at(term, edit.position.indexes()).is_none()
}

// The first edit whose position names no subterm.
fn first_astray(term: &Term, edits: &[Edit]) -> Option<usize>
    ensures { result ≡ position (is_astray (tree term.now)) edits.now }
{
    edits.iter().position(|edit| is_astray(term, edit))
}

// One position is a prefix of the other, or they are equal.
fn overlap(a: &Edit, b: &Edit) -> bool
    ensures { result ≡ overlap a.now.position b.now.position }
{
    let a = a.position.indexes();
    let b = b.position.indexes();
    a.starts_with(b) || b.starts_with(a)
}

// The first of the edits that the edit overlaps.
fn first_overlapped(edits: &[Edit], edit: &Edit) -> Option<usize>
    ensures { result ≡ position (λ d. overlap d.position edit.now.position) edits.now }
{
    edits.iter().position(|other| overlap(other, edit))
}

// The first edit that overlaps one before it, and the first of those.
fn first_overlap(edits: &[Edit]) -> Option<EditFault>
    requires { length edits.now ≤ MAX_EDITS }
    ensures { result ≡ overlap_after [] edits.now }
{
    for (second, edit) in edits.iter().enumerate() {
        if let Some(first) = first_overlapped(&edits[..second], edit) {
            return Some(EditFault::Overlap {
                first: first as u32,
                second: second as u32,
            });
        }
    }
    None
}

// The two edits stand below the same application, as arguments of it.
fn is_sibling(a: &Edit, b: &Edit) -> bool
    ensures { result ≡ is_sibling a.now b.now }
{
    match (
        a.position.indexes().split_last(),
        b.position.indexes().split_last(),
    ) {
        (Some((_, above)), Some((_, other))) => above == other,
        _ => false,
    }
}

// One of the edits stands below the same application.
fn has_sibling(edits: &[Edit], edit: &Edit) -> bool
    ensures { result ≡ list_any (λ d. is_sibling d edit.now) edits.now }
{
    edits.iter().any(|other| is_sibling(other, edit))
}

// After all edits the number of arguments above the edit isn't allowed; at the root the edit hasn't one term.
fn breaks(sig: &Signature, term: &Term, edits: &[Edit], edit: &Edit) -> bool
    ensures { result ≡ breaks sig.now (tree term.now) edits.now edit.now }
{
    // The least counts are within their limit.
    let _ = &sig.ops;
    match edit.position.indexes().split_last() {
        None => edit.terms.len() != 1,
        Some((_, above)) => match at(term, above) {
            Some(Term::App(op, args)) => !sig.allows(*op, count_after(args, edits, above)),
            _ => false,
        },
    }
}

// The first edit that breaks a number of arguments. Below an application that was looked at before it needs no look.
fn first_broken(sig: &Signature, term: &Term, edits: &[Edit]) -> Option<usize>
    ensures { result ≡ position (breaks sig.now (tree term.now) edits.now) edits.now }
{
    for (index, edit) in edits.iter().enumerate() {
        let is_seen = has_sibling(&edits[..index], edit);
        if !is_seen && breaks(sig, term, edits, edit) {
            return Some(index);
        }
    }
    None
}

/// Why the edits of the term can't be made at once: the first that comes of the faults below, and None otherwise
/// (`edit_fault` of `specs/EditFault.antt`). There are at most `MAX_EDITS` edits. It takes no memory.
///
/// `BadPosition` comes with the least index of an edit whose position names no subterm. `Overlap` comes with the least
/// `second`, and then with the least `first` below it, such that the position of one of these two edits is a prefix of
/// the other's or equal to it. `Arity` comes with the least index of an edit that breaks a number of arguments: below
/// the root, where the application above has a number of arguments after all edits that isn't allowed; at the root,
/// where the edit hasn't exactly one term. `TooLarge` and `TooDeep` come where what comes out has more than
/// `MAX_TERM_NODES` nodes or a depth above `MAX_DEPTH` before it is normalised.
pub fn check_edits(sig: &Signature, term: &Term, edits: &Edits) -> Option<EditFault>
    requires { length edits.now ≤ MAX_EDITS }
    ensures { result ≡ edit_fault sig.now (tree term.now) edits.now }
{
    let edits = edits.as_slice();
    if let Some(index) = first_astray(term, edits) {
        return Some(EditFault::BadPosition {
            index: index as u32,
        });
    }
    if let Some(fault) = first_overlap(edits) {
        return Some(fault);
    }
    if let Some(index) = first_broken(sig, term, edits) {
        return Some(EditFault::Arity {
            index: index as u32,
        });
    }
    match size_after(term, edits, &[]).excess() {
        None => None,
        Some(excess) => Some(EditFault::from(excess)),
    }
}
