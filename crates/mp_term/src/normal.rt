//! Normal forms.
ghost use Rattle.std.specs.Prelude.{◌≡◌, ◌≤◌, ◌++◌, map, OnOk, IfOk, true, IsTrue, ◌↔◌, ◌&&◌, not};
ghost use Rattle.mp_term.specs.View.{tree};
ghost use Rattle.mp_term.specs.Order.{tree_cmp};
ghost use Rattle.mp_term.specs.Sorting.{sorted};
ghost use Rattle.mp_term.specs.Signature.{Sig, all_in_order, is_comm, is_one, well_formed};
ghost use Rattle.mp_term.specs.Size.{node_count, depth};
ghost use Rattle.mp_term.specs.Tree.{Tree, trees};
ghost use Rattle.mp_term.specs.Normal.{parts, flattened, collapsed, normal, normals, IsNormal};
ghost use Rattle.mp_term.specs.NormalTest.{ascending, has_head, is_single, passes};

use crate::memory::Memory;
use crate::order::compare;
use crate::signature::Signature;
use crate::term::{OpId, Term, Terms};
use std::alloc::Global;

// Sorts the terms by the term order.
fn sort(terms: &mut Terms)
    ensures { terms.new ≡ sorted tree_cmp terms.old }
{
    terms.items.sort_unstable();
}

// Adds what an argument of the operation gives: its own arguments, where the operation is associative and its head.
fn push_parts(out: &mut Terms, sig: &Signature, op: OpId, term: Term) -> Result<(), Memory>
    ensures ok { OnOk result (out.new ≡ out.old ++ parts sig.now op.0 (tree term)) }
{
    match term {
        Term::Sym(name) => out.push(Term::Sym(name)),
        Term::App(inner, mut args) => {
            if inner.0 != op.0 || !sig.is_assoc(op) {
                return out.push(Term::App(inner, args));
            }
            out.items.append(&mut args.items)?;
            Ok(())
        }
    }
}

// A one-identity operation of one argument is that argument.
fn collapse(sig: &Signature, op: OpId, mut args: Terms) -> Term
    ensures { tree result ≡ collapsed sig.now op.0 args }
{
    if args.len() == 1
        && sig.is_one(op)
        && let Some(only) = args.items.pop()
    {
        return only;
    }
    Term::App(op, args)
}

/// The normal form of any term, in one pass from the leaves up (`normal` of `specs/Normal.antt`), whatever operations
/// it has and however many arguments they have. `Memory` comes where there is no room for the flattened lists; the term
/// is then dropped.
#[cycle(normal_form)]
pub fn normal_form(alloc: Global, sig: &Signature, term: Term) -> Result<Term, Memory>
    ensures { IfOk result (λ t. tree t ≡ normal sig.now (tree term)) }
{
    match term {
        Term::Sym(name) => Ok(Term::Sym(name)),
        Term::App(op, args) => {
            let mut flat = flat_arguments(alloc, sig, op, args)?;
            if sig.is_comm(op) {
                sort(&mut flat);
            }
            Ok(collapse(sig, op, flat))
        }
    }
}

// What the normal forms of the arguments of the operation give.
#[cycle(normal_form)]
#[inline(always)]
fn flat_arguments(alloc: Global, sig: &Signature, op: OpId, args: Terms) -> Result<Terms, Memory>
    ensures { IfOk result (λ ts. ts ≡ flattened sig.now op.0 (normals sig.now (trees args))) }
{
    let mut flat = Terms::with_room(alloc, args.len())?;
    for arg in args.items {
        push_parts(&mut flat, sig, op, normal_form(alloc, sig, arg)?)?;
    }
    Ok(flat)
}

/// The normal form of a term (`normal` of `specs/Normal.antt`): the arguments are normalised, those of an associative
/// operation that are headed by it are replaced by their arguments, those of a commutative operation are sorted by the
/// term order, and a one-identity operation of one argument is replaced by that argument. It is well formed. `Memory`
/// comes where there is no room for the flattened lists; the term is then dropped.
pub fn normalise(alloc: Global, sig: &Signature, term: Term) -> Result<Term, Memory>
    requires { well_formed sig.now (tree term) ≡ true }
    ensures normal { IfOk result (λ t. tree t ≡ normal sig.now (tree term)) }
    ensures well_formed { IfOk result (λ t. well_formed sig.now (tree t) ≡ true) }
{
    // The declarations are in order.
    let _ = &sig.ops;
    let normal = normal_form(alloc, sig, term)?;
    Ok(normal)
}

// No term is greater than the next.
fn is_ascending(terms: &[Term]) -> bool
    ensures { result ≡ ascending (map tree terms.now) }
{
    for (i, term) in terms.iter().enumerate() {
        if i + 1 < terms.len() && compare(term, &terms[i + 1]).is_gt() {
            return false;
        }
    }
    true
}

/// The term is an application of the operation (`has_head` of `specs/NormalTest.antt`). It takes no memory.
pub fn has_head(term: &Term, op: OpId) -> bool
    ensures { result ≡ has_head op.0 (tree term.now) }
{
    match term {
        Term::Sym(_) => false,
        Term::App(head, _) => op.0 == head.0,
    }
}

// The arguments need neither a collapse nor a sort.
fn is_arranged(sig: &Signature, op: OpId, args: &Terms) -> bool
    ensures { result
        ≡ (not (is_one sig.now op.0 && is_single args.now) && not (is_comm sig.now op.0 && not (ascending args.now))) }
{
    if sig.is_one(op) && args.len() == 1 {
        return false;
    }
    !sig.is_comm(op) || is_ascending(&args.items)
}

// The term is normal.
fn passes(sig: &Signature, term: &Term) -> bool
    ensures { result ≡ passes sig.now (tree term.now) }
{
    match term {
        Term::Sym(_) => true,
        Term::App(op, args) => {
            if !is_arranged(sig, *op, args) {
                return false;
            }
            let assoc = sig.is_assoc(*op);
            for arg in &args.items {
                if !passes(sig, arg) || (assoc && has_head(arg, *op)) {
                    return false;
                }
            }
            true
        }
    }
}

/// The term is its own normal form (`IsNormal` of `specs/Normal.antt`). It takes no memory.
pub fn is_normal(sig: &Signature, term: &Term) -> bool
    ensures { IsTrue result ↔ IsNormal sig.now (tree term.now) }
{
    passes(sig, term)
}

/// A normal form is its own normal form.
pub fn normal_is_idempotent()
    ensures { (sig : Sig) (t : Tree) → normal sig (normal sig t) ≡ normal sig t }
{}

/// The normal form of a well formed term is well formed, where each declaration is in order.
pub fn normal_is_well_formed()
    ensures { (sig : Sig) (t : Tree) → all_in_order sig.ops ≡ true → well_formed sig t ≡ true
        → well_formed sig (normal sig t) ≡ true }
{}

/// A normal form has no more nodes than the term, and is no deeper.
pub fn normal_is_no_larger()
    ensures nodes { (sig : Sig) (t : Tree) → node_count (normal sig t) ≤ node_count t }
    ensures depth { (sig : Sig) (t : Tree) → depth (normal sig t) ≤ depth t }
{}
