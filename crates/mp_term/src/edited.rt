//! A term after its edits, which is looked at without being built.
ghost use Rattle.std.specs.Prelude.{◌≡◌, ◌<◌, ◌≤◌, ◌-◌, ◌^◌, ◌++◌, ◌∷◌, [], ℕ, length, map, min, find, bytes_eq};
ghost use Rattle.std.specs.Prelude.{nat_eq, true, false, option_map, IfSome, IfNone};
ghost use Rattle.std.specs.Option.{option_map_or};
ghost use Rattle.std.specs.List.{starts_with};
ghost use Rattle.mp_term.specs.View.{tree};
ghost use Rattle.mp_term.specs.Tree.{Tree, trees};
ghost use Rattle.mp_term.specs.Edited.{new_terms, edited_args, edited_at};
ghost use Rattle.mp_term.specs.Excess.{IsSizeOf};
ghost use Rattle.mp_term.specs.EditWalk.{AreUntouched, IsNext, FindsSame};

use crate::edit::Edit;
use crate::size::Size;
use crate::term::{Term, Terms};

// The size of the terms.
fn size_of_all(terms: &[Term]) -> Size
    ensures { IsSizeOf result (map tree terms.now) }
{
    let mut all = Size::none();
    for term in terms {
        all = all.beside(Size::of_term(term));
    }
    all
}

// The first edit at the position.
pub(crate) fn edit_at<'a>(edits: &'a [Edit], position: &[u32]) -> Option<&'a Edit>
    ensures { option_map (λ e. e.now) result ≡ find (λ e. bytes_eq e.position position.now) edits.now }
{
    for edit in edits {
        if edit.position.indexes() == position {
            return Some(edit);
        }
    }
    None
}

// The index of the argument of the application at the position that the inner position is at or below, where the index
// is one of these.
fn argument_among(inner: &[u32], position: &[u32], from: usize, end: usize) -> Option<usize>
    ensures low { IfSome result (λ k. from ≤ k) }
    ensures high { IfSome result (λ k. k < end) }
    ensures some { IfSome result (λ k. starts_with nat_eq inner.now (position.now ++ k ∷ []) ≡ true) }
    ensures none { IfNone result ((k : ℕ) → from ≤ k → k < end
        → starts_with nat_eq inner.now (position.now ++ k ∷ []) ≡ false) }
{
    if inner.len() <= position.len() {
        return None;
    }
    let index = inner[position.len()] as usize;
    if from <= index && index < end && inner.starts_with(position) {
        return Some(index);
    }
    None
}

// The first of these arguments of the application at the position at or below which some edit stands, with its
// position, which is a front of the position of an edit.
pub(crate) fn next_argument<'a>(
    edits: &'a [Edit],
    position: &[u32],
    from: usize,
    end: usize,
) -> Option<(usize, &'a [u32])>
    ensures some { IfSome result (λ r. IsNext edits.now position.now from end r.0 r.1.now) }
    ensures none { IfNone result (AreUntouched edits.now position.now from end) }
{
    let mut next: Option<(usize, &'a [u32])> = None;
    let mut stop = end;
    for edit in edits {
        let inner = edit.position.indexes();
        if let Some(index) = argument_among(inner, position, from, stop) {
            next = Some((index, &inner[..position.len() + 1]));
            stop = index;
        }
    }
    next
}

// The edits from the first on that stands at or below the position.
fn from_first<'a>(edits: &'a [Edit], position: &[u32]) -> &'a [Edit]
    ensures { FindsSame position.now edits.now result.now }
{
    for (index, edit) in edits.iter().enumerate() {
        if edit.position.indexes().starts_with(position) {
            return &edits[index..];
        }
    }
    &[]
}

// The edits up to the last that stands at or below the position.
fn to_last<'a>(edits: &'a [Edit], position: &[u32]) -> &'a [Edit]
    ensures { FindsSame position.now edits.now result.now }
{
    let mut end = 0;
    for (index, edit) in edits.iter().enumerate() {
        if edit.position.indexes().starts_with(position) {
            end = index + 1;
        }
    }
    &edits[..end]
}

// Edits among which are all that stand at or below the position, so few that a look at each costs little.
pub(crate) fn edits_within<'a>(edits: &'a [Edit], position: &[u32]) -> &'a [Edit]
    ensures { (t : Tree) → edited_at result.now position.now t ≡ edited_at edits.now position.now t }
{
    to_last(from_first(edits, position), position)
}

// The size of what stands in place of the term, which is at the position, after all edits.
#[cycle(size_after)]
pub(crate) fn size_after(term: &Term, edits: &[Edit], position: &[u32]) -> Size
    ensures { IsSizeOf result (edited_at edits.now position.now (tree term.now)) }
{
    if let Some(edit) = edit_at(edits, position) {
        return size_of_all(edit.terms.as_slice());
    }
    match term {
        Term::Sym(_) => Size::of_term(term),
        Term::App(_, args) => size_of_args(args, edits, position).applied(),
    }
}

// The size of the arguments of an application at the position after all edits.
#[cycle(size_after)]
fn size_of_args(args: &Terms, edits: &[Edit], position: &[u32]) -> Size
    ensures { IsSizeOf result (edited_args edits.now position.now 0 (trees args.now)) }
{
    let terms: &[Term] = &args.items;
    let mut all = Size::none();
    let mut index = 0;
    while let Some((next, inner)) = next_argument(edits, position, index, terms.len()) {
        let below = edits_within(edits, inner);
        let kept = size_of_all(&terms[index..next]);
        all = all
            .beside(kept)
            .beside(size_after(&terms[next], below, inner));
        index = next + 1;
    }
    all.beside(size_of_all(&terms[index..]))
}

// How many terms stand at the position after all edits.
fn width_at(edits: &[Edit], position: &[u32]) -> usize
    ensures { result ≡ option_map_or length (new_terms edits.now position.now) 1 }
{
    match edit_at(edits, position) {
        None => 1,
        Some(edit) => edit.terms.len(),
    }
}

// The number of arguments that an application at the position has after all edits, or the greatest `usize` where there
// are more.
pub(crate) fn count_after(args: &Terms, edits: &[Edit], position: &[u32]) -> usize
    ensures { result ≡ min (length (edited_args edits.now position.now 0 (trees args.now))) (2 ^ 64 - 1) }
{
    let terms: &[Term] = &args.items;
    let mut count: usize = 0;
    let mut index = 0;
    while let Some((next, inner)) = next_argument(edits, position, index, terms.len()) {
        count = count
            .saturating_add(next - index)
            .saturating_add(width_at(edits, inner));
        index = next + 1;
    }
    count.saturating_add(terms.len() - index)
}
