//! The places of what a cancellation takes first.
ghost use Rattle.std.specs.Prelude.{◌≡◌, ◌<◌, ◌+◌, [], Some, map, slice_get, MatchOption};
ghost use Rattle.std.specs.Prelude.{IsTrue, IsFalse, true};
ghost use Rattle.mp_term.specs.Tree.{symbol};
ghost use Rattle.mp_term.specs.Order.{tree_cmp};
ghost use Rattle.mp_term.specs.View.{tree};
ghost use Rattle.mp_term.specs.NormalTest.{ascending, has_head};
ghost use Rattle.mp_term.proofs.Sorting.{tally};
ghost use Rattle.mp_rewrite.specs.Cancellation.{IsPairAt, HasNoPair, IsUnderAt, HasNoUnder, IsBoth, IsUnderOf};
ghost use Rattle.mp_rewrite.specs.Cancellation.{IsNoUnder, AreFirst, StandsNowhere, IsFound, IsOnly};

use crate::cancellation::{Cancellation, Taken};
use mp_term::{Name, OpId, Signature, Term, has_head};

// Whether something stands at a place, where that is sure.
#[derive(Drop)]
pub(crate) enum Found<T> {
    // It stands nowhere.
    Nowhere,
    // Nothing is said.
    Unsure,
    // It stands there.
    At(T),
}

// The places of one or two arguments, the lesser one first.
#[derive(Clone, Copy)]
pub(crate) struct Places {
    pub(crate) first: usize,
    pub(crate) second: Option<usize>,
}

// Whether the term is the symbol.
fn is_symbol(term: &Term, name: &Name) -> bool
    ensures symbol { IsTrue result → tree term.now ≡ symbol name.now }
    ensures other { IsFalse result → tree term.now ≡ symbol name.now → ⊥ }
{
    match term {
        Term::Sym(own) => own == name,
        Term::App(_, _) => false,
    }
}

// The place of the symbol.
fn symbol_place(args: &[Term], name: &Name) -> Option<usize>
    ensures { MatchOption result (tally tree_cmp (symbol name.now) (map tree args.now) ≡ 0)
        (λ i. slice_get (map tree args.now) i ≡ Some (symbol name.now)) }
{
    for (index, arg) in args.iter().enumerate() {
        if is_symbol(arg, name) {
            return Some(index);
        }
    }
    None
}

// The place of the least argument that stands there twice: it stands there and right behind.
pub(crate) fn pair_place(args: &[Term]) -> Option<usize>
    ensures { MatchOption result (HasNoPair (map tree args.now)) (IsPairAt (map tree args.now)) }
{
    let mut place = 0;
    while place + 1 < args.len() {
        if args[place] == args[place + 1] {
            return Some(place);
        }
        place += 1;
    }
    None
}

// The argument of an application of the operation to one argument.
fn only_argument(term: &Term, op: OpId) -> Option<&Term>
    ensures { IsOnly op.0 (tree term.now) result }
{
    let Term::App(own, args) = term else {
        return None;
    };
    if own.0 != op.0 {
        return None;
    }
    if args.len() != 1 {
        return None;
    }
    args.get(0)
}

// The places in order.
fn both(place: usize, other: usize) -> Places
    ensures { IsBoth place other result }
{
    if place < other {
        Places {
            first: place,
            second: Some(other),
        }
    } else {
        Places {
            first: other,
            second: Some(place),
        }
    }
}

// The place of the only argument of the term among the arguments, where the term is an application of the inner
// operation. It isn't sure where that argument would be opened.
fn under_at(op: OpId, inner: OpId, term: &Term, args: &[Term]) -> Found<usize>
    requires { ascending (map tree args.now) ≡ true }
    ensures { IsFound (IsNoUnder op.0 inner.0 (map tree args.now) (tree term.now))
        (IsUnderOf inner.0 (map tree args.now) (tree term.now)) result }
{
    match only_argument(term, inner) {
        None => Found::Nowhere,
        Some(only) => {
            if has_head(only, op) {
                return Found::Unsure;
            }
            match args.binary_search(only) {
                Ok(found) => Found::At(found),
                Err(_) => Found::Nowhere,
            }
        }
    }
}

// The places of the least application of the inner operation whose argument stands there too, and of that argument.
fn under_places(op: OpId, inner: OpId, args: &[Term]) -> Found<(usize, usize)>
    requires { ascending (map tree args.now) ≡ true }
    ensures { IsFound (HasNoUnder op.0 inner.0 (map tree args.now)) (IsUnderAt op.0 inner.0 (map tree args.now))
        result }
{
    for (index, arg) in args.iter().enumerate() {
        match under_at(op, inner, arg, args) {
            Found::Nowhere => {}
            Found::Unsure => return Found::Unsure,
            Found::At(found) => return Found::At((index, found)),
        }
    }
    Found::Nowhere
}

// Whether others are left of so many arguments, where others must be left.
fn is_enough(leaves: bool, count: usize, taken: usize) -> bool
    ensures { IsTrue result → leaves ≡ true → count ≡ taken → ⊥ }
{
    !leaves || count != taken
}

// The places of what the cancellation takes first of the arguments.
pub(crate) fn places_of(
    sig: &Signature,
    cancellation: &Cancellation<'_>,
    args: &[Term],
) -> Found<Places>
    requires { ascending (map tree args.now) ≡ true }
    ensures { IsFound (StandsNowhere sig.now cancellation.now.op.0 (map tree args.now) cancellation.now.taken)
        (AreFirst sig.now cancellation.now (map tree args.now)) result }
{
    match &cancellation.taken {
        Taken::Symbol(name) => {
            let Some(first) = symbol_place(args, name) else {
                return Found::Nowhere;
            };
            if !is_enough(cancellation.leaves, args.len(), 1) {
                return Found::Unsure;
            }
            Found::At(Places {
                first,
                second: None,
            })
        }
        Taken::Pair => {
            let Some(first) = pair_place(args) else {
                return Found::Nowhere;
            };
            if !is_enough(cancellation.leaves, args.len(), 2) {
                return Found::Unsure;
            }
            Found::At(both(first, first + 1))
        }
        Taken::Under(inner) => {
            if sig.is_assoc(*inner) {
                return Found::Unsure;
            }
            match under_places(cancellation.op, *inner, args) {
                Found::Nowhere => Found::Nowhere,
                Found::Unsure => Found::Unsure,
                Found::At((first, second)) => {
                    if !is_enough(cancellation.leaves, args.len(), 2) {
                        return Found::Unsure;
                    }
                    Found::At(both(first, second))
                }
            }
        }
    }
}
