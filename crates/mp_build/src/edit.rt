//! Makes edits of syntax trees, and checks them on the way.

ghost use Rattle.std.specs.Prelude.{◌≡◌, ◌≤◌, length, map, flat_map, IfOk};
ghost use Rattle.std.specs.List.{list_any};
ghost use Rattle.mp_term.specs.View.{tree};
ghost use Rattle.mp_term.specs.Normal.{normal};
ghost use Rattle.mp_term.specs.EditFault.{edit_fault};
ghost use Rattle.mp_parser.specs.View.{spot_of, expr_tree, position_of, replacement_tree, change_tree};
ghost use Rattle.mp_build.specs.Answers.{Gives};
ghost use Rattle.mp_build.specs.Build.{term_of};
ghost use Rattle.mp_build.specs.Checks.{term_faults, is_large_term};
ghost use Rattle.mp_build.specs.Edits.{index_of, indexes, position_place, new_exprs, edit_of, is_large_edit};
ghost use Rattle.mp_build.specs.Edits.{change_fault, made_faults, new_term_faults};

use crate::build::normal_term;
use crate::checks::{is_large_term, number_of};
use crate::fault::{TextError, TextKind, error_at};
use mp_pattern::MAX_INDEX;
use mp_syntax::{Change, Expr, Place, Replacement, Word};
use mp_term::{
    Edit, EditFault, Edits, MAX_EDITS, Memory, Position, Signature, Term, Terms, check_edits,
};
use std::alloc::{AllocError, Global};

/// The index that digits write; one more than an index may be where it is above that.
fn index_of(digits: Word<'_>) -> u32
    ensures { result ≡ index_of (spot_of digits.entry) }
{
    number_of(digits.text, MAX_INDEX)
}

/// The indexes of a position.
fn indexes(alloc: Global, position: &mp_syntax::Position<'_>) -> Result<Vec<u32>, AllocError>
    ensures { IfOk result (λ is. is.items ≡ indexes (position_of position.now)) }
{
    let mut indexes = Vec::new(alloc);
    match position {
        mp_syntax::Position::Root(_) => Ok(indexes),
        mp_syntax::Position::Path { first, others } => {
            indexes.push(index_of(*first))?;
            for other in others {
                indexes.push(index_of(*other))?;
            }
            Ok(indexes)
        }
    }
}

/// A position, with its indexes.
fn new_position(alloc: Global, position: &mp_syntax::Position<'_>) -> Result<Position, Memory>
    ensures { IfOk result (λ p. p ≡ indexes (position_of position.now)) }
{
    let indexes = indexes(alloc, position)?;
    Position::new(alloc, &indexes)
}

/// Where a position begins.
fn position_place(position: &mp_syntax::Position<'_>) -> Place
    ensures { result ≡ position_place (position_of position.now) }
{
    match position {
        mp_syntax::Position::Root(place) => *place,
        mp_syntax::Position::Path { first, .. } => first.place,
    }
}

/// The terms of the expressions in normal form, or their first fault.
fn normal_terms(alloc: Global, sig: &Signature, exprs: &[Expr<'_>]) -> Result<Terms, TextError>
    ensures { Gives result (flat_map (term_faults sig.now) (map expr_tree exprs.now))
        (λ ts. ts ≡ map (λ t. normal sig.now (term_of sig.now t)) (map expr_tree exprs.now)) }
{
    let mut terms = Terms::with_room(alloc, exprs.len())?;
    for expr in exprs {
        let term = normal_term(alloc, sig, expr)?;
        terms.push(term)?;
    }
    Ok(terms)
}

/// The new terms of a change in normal form, or their first fault.
fn new_terms(
    alloc: Global,
    sig: &Signature,
    replacement: &Replacement<'_>,
) -> Result<Terms, TextError>
    ensures { Gives result (flat_map (term_faults sig.now) (new_exprs (replacement_tree replacement.now)))
        (λ ts. ts
        ≡ map (λ t. normal sig.now (term_of sig.now t)) (new_exprs (replacement_tree replacement.now))) }
{
    match *replacement {
        Replacement::Single(expr) => {
            let term = normal_term(alloc, sig, &expr)?;
            let mut terms = Terms::with_room(alloc, 1)?;
            terms.push(term)?;
            Ok(terms)
        }
        Replacement::Listed(exprs) => normal_terms(alloc, sig, exprs),
    }
}

/// The edit that a change stands for, or the first fault of its new terms.
fn build_edit(alloc: Global, sig: &Signature, change: &Change<'_>) -> Result<Edit, TextError>
    ensures { Gives result (new_term_faults sig.now (change_tree change.now))
        (λ e. e ≡ edit_of sig.now (change_tree change.now)) }
{
    let terms = new_terms(alloc, sig, &change.terms)?;
    let position = new_position(alloc, &change.position)?;
    Ok(Edit { position, terms })
}

/// The edits that the changes stand for, with their new terms in normal form: `edit_of` of `specs/Edits.antt` for each.
///
/// - `Text`: the first fault of their new terms, by `new_term_faults` of `specs/Edits.antt`.
/// - `Memory`: memory ran out.
pub fn build_edits(
    alloc: Global,
    sig: &Signature,
    changes: &[Change<'_>],
) -> Result<Edits, TextError>
    ensures { Gives result (flat_map (new_term_faults sig.now) (map change_tree changes.now))
        (λ es. es ≡ map (edit_of sig.now) (map change_tree changes.now)) }
{
    let mut edits = Edits::new(alloc);
    for change in changes {
        let edit = build_edit(alloc, sig, change)?;
        edits.push(edit)?;
    }
    Ok(edits)
}

/// One of the expressions has more nodes than a term may have, or a default in it has more than a default may have.
fn some_large_term(exprs: &[Expr<'_>]) -> bool
    ensures { result ≡ list_any is_large_term (map expr_tree exprs.now) }
{
    for expr in exprs {
        if is_large_term(expr) {
            return true;
        }
    }
    false
}

/// One of the new terms of a change is too large.
fn has_large_term(change: &Change<'_>) -> bool
    ensures { result ≡ list_any is_large_term (new_exprs (change_tree change.now).terms) }
{
    match change.terms {
        Replacement::Single(expr) => is_large_term(&expr),
        Replacement::Listed(exprs) => some_large_term(exprs),
    }
}

/// There are more changes than a statement may have, or a new term is larger than a term may be: `is_large_edit` of
/// `specs/Edits.antt`. It takes no memory.
pub fn is_large_edit(changes: &[Change<'_>]) -> bool
    ensures { result ≡ is_large_edit (map change_tree changes.now) }
{
    if MAX_EDITS < changes.len() {
        return true;
    }
    for change in changes {
        if has_large_term(change) {
            return true;
        }
    }
    false
}

/// The error of this kind at the position of the change with this index.
fn check_change(kind: TextKind, changes: &[Change<'_>], index: u32) -> Result<(), TextError>
    ensures { Gives result (change_fault kind (map change_tree changes.now) index) (λ _. Unit {0}) }
{
    match changes.get(index as usize) {
        None => Ok(()),
        Some(change) => Err(error_at(kind, position_place(&change.position))),
    }
}

/// Checks that the edits, which are those of the changes, can be made on a term; how large the result gets isn't looked
/// at.
///
/// - `Text`: what hinders them, at the position of a change, by `made_faults` of `specs/Edits.antt`: an edit names no
///   subterm (`BadPosition`), overlaps with an earlier one (`Overlap`), or leaves an operation a number of arguments
///   that it doesn't allow (`Arity`).
///
/// It takes no memory.
pub fn check_edits_of(
    sig: &Signature,
    term: &Term,
    changes: &[Change<'_>],
    edits: &Edits,
) -> Result<(), TextError>
    requires { length edits.now ≤ MAX_EDITS }
    ensures { Gives result
        (made_faults (map change_tree changes.now) (edit_fault sig.now (tree term.now) edits.now))
        (λ _. Unit {0}) }
{
    match check_edits(sig, term, edits) {
        Some(EditFault::BadPosition { index }) => {
            check_change(TextKind::BadPosition, changes, index)
        }
        Some(EditFault::Overlap { second, .. }) => {
            check_change(TextKind::Overlap, changes, second)
        }
        Some(EditFault::Arity { index }) => check_change(TextKind::Arity, changes, index),
        Some(EditFault::TooLarge { .. }) | Some(EditFault::TooDeep { .. }) => Ok(()),
        Some(EditFault::Memory) | None => Ok(()),
    }
}
