//! Edits of a term, made at once.
ghost use Rattle.std.specs.Prelude.{◌≡◌, ◌≤◌, ◌⊎◌, ◌++◌, ◌∷◌, [], length, map, Some, None, OnOk, IfOk, IfErr, IfSome};
ghost use Rattle.std.specs.Prelude.{Err, true};
ghost use Rattle.std.specs.List.{AllByRecursion};
ghost use Rattle.mp_term.specs.View.{tree};
ghost use Rattle.mp_term.specs.Tree.{trees};
ghost use Rattle.mp_term.specs.Signature.{well_formed, all_well_formed};
ghost use Rattle.mp_term.specs.Normal.{normal};
ghost use Rattle.mp_term.specs.Edited.{edited_args, edited_at, edited, one_edit};
ghost use Rattle.mp_term.specs.EditFault.{edit_fault};

use crate::edit::{Edit, Edits};
use crate::edit_check::check_edits;
use crate::edit_fault::EditFault;
use crate::edited::{edit_at, edits_within, next_argument};
use crate::limits::MAX_EDITS;
use crate::memory::Memory;
use crate::normal::normal_form;
use crate::position::Position;
use crate::signature::Signature;
use crate::term::{Term, Terms, copy_term};
use std::alloc::Global;

// Adds copies of the terms.
fn push_copies(alloc: Global, terms: &[Term], out: &mut Terms) -> Result<(), Memory>
    ensures { OnOk result (out.new ≡ out.old ++ map tree terms.now) }
{
    for term in terms {
        out.push(copy_term(alloc, term)?)?;
    }
    Ok(())
}

// Adds what stands in place of the term, which is at the position, after all edits.
#[cycle(push_edited)]
fn push_edited(
    alloc: Global,
    term: &Term,
    edits: &[Edit],
    position: &[u32],
    out: &mut Terms,
) -> Result<(), Memory>
    ensures { OnOk result (out.new ≡ out.old ++ edited_at edits.now position.now (tree term.now)) }
{
    if let Some(edit) = edit_at(edits, position) {
        return push_copies(alloc, edit.terms.as_slice(), out);
    }
    match term {
        Term::Sym(name) => out.push(Term::Sym(name.copy(alloc)?)),
        Term::App(op, args) => {
            let edited = edited_terms(alloc, args, edits, position)?;
            out.push(Term::App(*op, edited))
        }
    }
}

// The arguments of an application at the position after all edits.
#[cycle(push_edited)]
fn edited_terms(
    alloc: Global,
    args: &Terms,
    edits: &[Edit],
    position: &[u32],
) -> Result<Terms, Memory>
    ensures { IfOk result (λ ts. ts ≡ edited_args edits.now position.now 0 (trees args.now)) }
{
    let terms: &[Term] = &args.items;
    let mut edited = Terms::new(alloc);
    let mut index = 0;
    while let Some((next, inner)) = next_argument(edits, position, index, terms.len()) {
        push_copies(alloc, &terms[index..next], &mut edited)?;
        let below = edits_within(edits, inner);
        push_edited(alloc, &terms[next], below, inner, &mut edited)?;
        index = next + 1;
    }
    push_copies(alloc, &terms[index..], &mut edited)?;
    Ok(edited)
}

/// The term after the edits, all of which are made at once, in normal form (`edited` of `specs/Edited.antt`). There are
/// at most `MAX_EDITS` edits.
///
/// Where the term and the new terms are well formed, so is the term that comes out. The fault that `check_edits` gives
/// comes exactly where it gives one. `Memory` comes where there is no room for the term.
pub fn replace_many(
    alloc: Global,
    sig: &Signature,
    term: &Term,
    edits: &Edits,
) -> Result<Term, EditFault>
    requires { length edits.now ≤ MAX_EDITS }
    ensures term { IfOk result
        (λ u. map (normal sig.now) (edited edits.now (tree term.now)) ≡ tree u ∷ []) }
    ensures ok { IfOk result (λ _. edit_fault sig.now (tree term.now) edits.now ≡ None) }
    ensures formed { well_formed sig.now (tree term.now) ≡ true
        → AllByRecursion (λ e. all_well_formed sig.now (trees e.terms) ≡ true) edits.now
        → IfOk result (λ u. well_formed sig.now (tree u) ≡ true) }
    ensures fault { IfSome (edit_fault sig.now (tree term.now) edits.now) (λ f. result ≡ Err f) }
    ensures only { IfErr result
        (λ e. (edit_fault sig.now (tree term.now) edits.now ≡ Some e) ⊎ (e ≡ EditFault.Memory)) }
{
    if let Some(fault) = check_edits(sig, term, edits) {
        return Err(fault);
    }
    let mut whole = Terms::new(alloc);
    push_edited(alloc, term, edits.as_slice(), &[], &mut whole)?;
    let Some(only) = whole.items.pop() else {
        unreachable!()
    };
    // The declarations are in order.
    let _ = &sig.ops;
    let normal = normal_form(alloc, sig, only)?;
    Ok(normal)
}

// The list of one term, which is copied.
fn one_term(alloc: Global, term: &Term) -> Result<Terms, Memory>
    ensures { IfOk result (λ ts. ts ≡ tree term.now ∷ []) }
{
    let mut terms = Terms::new(alloc);
    terms.push(copy_term(alloc, term)?)?;
    Ok(terms)
}

// The one edit that replaces the subterm at the position by another term.
fn one_edit(alloc: Global, position: &[u32], new: &Term) -> Result<Edits, Memory>
    ensures { IfOk result (λ es. es ≡ one_edit position.now (tree new.now)) }
{
    let terms = one_term(alloc, new)?;
    let position = Position::new(alloc, position)?;
    let mut edits = Edits::new(alloc);
    edits.push(Edit { position, terms })?;
    Ok(edits)
}

/// The term with the subterm at the position replaced by another term, in normal form: `replace_many` of one edit.
/// Where both terms are well formed, so is what comes out. The fault is that of the one edit, or `Memory` where there
/// is no room for the edit or the term.
pub fn replace_at(
    alloc: Global,
    sig: &Signature,
    term: &Term,
    position: &[u32],
    new: &Term,
) -> Result<Term, EditFault>
    ensures term { IfOk result (λ u.
        map (normal sig.now) (edited (one_edit position.now (tree new.now)) (tree term.now)) ≡ tree u ∷ []) }
    ensures ok { IfOk result (λ _. edit_fault sig.now (tree term.now) (one_edit position.now (tree new.now)) ≡ None) }
    ensures formed { well_formed sig.now (tree term.now) ≡ true → well_formed sig.now (tree new.now) ≡ true
        → IfOk result (λ u. well_formed sig.now (tree u) ≡ true) }
    ensures only { IfErr result
        (λ e. (edit_fault sig.now (tree term.now) (one_edit position.now (tree new.now)) ≡ Some e)
        ⊎ (e ≡ EditFault.Memory)) }
{
    let edits = one_edit(alloc, position, new)?;
    replace_many(alloc, sig, term, &edits)
}
