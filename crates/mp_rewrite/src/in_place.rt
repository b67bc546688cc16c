//! A subterm is replaced in place: only the applications above it are brought into normal form again.
ghost use Rattle.std.specs.Prelude.{◌≡◌, ◌≤◌, ◌<◌, ◌+◌, ◌++◌, ◌∷◌, [], ℕ, List, length, take, drop, true, false};
ghost use Rattle.std.specs.Prelude.{is_some, IfOk, IsTrue, ◌&&◌, ◌⊎◌};
ghost use Rattle.std.specs.List.{insert, remove};
ghost use Rattle.mp_term.specs.Tree.{Tree, trees};
ghost use Rattle.mp_term.specs.View.{tree};
ghost use Rattle.mp_term.specs.Size.{node_count, all_nodes};
ghost use Rattle.mp_term.specs.Positions.{subterm};
ghost use Rattle.mp_term.specs.Signature.{is_assoc, is_comm, is_one};
ghost use Rattle.mp_term.specs.Normal.{parts, in_order, collapsed, normal, IsNormal};
ghost use Rattle.mp_term.specs.NormalTest.{ascending, has_head};
ghost use Rattle.mp_pattern.specs.Admission.{Rule};
ghost use Rattle.mp_rewrite.specs.Marks.{marks};
ghost use Rattle.mp_rewrite.specs.MarkView.{mark_of};
ghost use Rattle.mp_rewrite.specs.Known.{IsKnown, AreKnown};
ghost use Rattle.mp_term.specs.Replaced.{replaced};

use crate::known::{Known, KnownArgs, known_args};
use mp_term::{Memory, OpId, Signature, Term, Terms, has_head};
use std::alloc::Global;

// A term, what is known of it, and a number of nodes: those of the term and of all that is around it.
#[derive(Drop)]
pub(crate) struct Marked {
    pub(crate) term: Term,
    pub(crate) known: Known,
    pub(crate) nodes: u64,
}

// Arguments, what is known of each, and such a number of nodes.
#[derive(Drop)]
struct MarkedArgs {
    terms: Terms,
    known: KnownArgs,
    nodes: u64,
}

// Where the term goes among the arguments of the operation: to the index, or where they ascend to its place.
pub(crate) fn place(sig: &Signature, op: OpId, terms: &Terms, index: usize, term: &Term) -> usize
    requires { index ≤ length terms.now }
    ensures within { result ≤ length terms.now }
    ensures index { is_comm sig.now op.0 ≡ false → result ≡ index }
    ensures ascending { is_comm sig.now op.0 ≡ true → ascending terms.now ≡ true
        → ascending (insert terms.now result (tree term.now)) ≡ true }
{
    if !sig.is_comm(op) {
        return index;
    }
    match terms.as_slice().binary_search(term) {
        Ok(found) => found,
        Err(found) => found,
    }
}

// Whether an argument gives its own arguments in place of itself: its head is the operation, an associative one.
fn opens(sig: &Signature, op: OpId, argument: &Term) -> bool
    ensures { result ≡ (is_assoc sig.now op.0 && has_head op.0 (tree argument.now)) }
{
    sig.is_assoc(op) && has_head(argument, op)
}

// The arguments of such an argument, which are one node less.
fn open(alloc: Global, sig: &Signature, op: OpId, argument: Marked) -> Result<MarkedArgs, Memory>
    requires opens { (is_assoc sig.now op.0 && has_head op.0 (tree argument.term)) ≡ true }
    ensures terms { IfOk result (λ r. r.terms ≡ parts sig.now op.0 (tree argument.term)) }
    ensures same { IfOk result (λ r. length r.known ≡ length r.terms) }
    ensures known { IfOk result (λ r. (rules : List Rule)
        → IsKnown sig.now rules (mark_of argument.known) (tree argument.term)
        → AreKnown sig.now rules (marks r.known) (trees r.terms)) }
    ensures nodes { IfOk result (λ r. (rest : ℕ) → argument.nodes ≡ node_count (tree argument.term) + rest
        → r.nodes ≡ all_nodes r.terms + rest) }
{
    let Marked { term, known, nodes } = argument;
    match term {
        Term::Sym(_) => unreachable!(),
        Term::App(_, terms) => {
            let known = known_args(alloc, known, terms.len())?;
            Ok(MarkedArgs {
                terms,
                known,
                nodes: nodes.saturating_sub(1),
            })
        }
    }
}

// The arguments of the operation with another one put in at the index, or where they ascend at its place.
fn put_one(
    sig: &Signature,
    op: OpId,
    args: MarkedArgs,
    index: usize,
    one: Marked,
) -> Result<MarkedArgs, Memory>
    requires within { index ≤ length args.terms }
    requires same { length args.known ≡ length args.terms }
    requires ascending { is_comm sig.now op.0 ≡ true → ascending args.terms ≡ true }
    ensures terms { IfOk result (λ r.
        r.terms ≡ in_order sig.now op.0 (take index args.terms ++ (tree one.term ∷ drop index args.terms))) }
    ensures before { IfOk result (λ r. (more : List Tree)
        → in_order sig.now op.0 (take index r.terms ++ (more ++ drop index r.terms))
        ≡ in_order sig.now op.0 (take index args.terms ++ ((more ++ tree one.term ∷ []) ++ drop index args.terms))) }
    ensures longer { IfOk result (λ r. length r.terms ≡ length args.terms + 1) }
    ensures same { IfOk result (λ r. length r.known ≡ length r.terms) }
    ensures ascending { IfOk result (λ r. is_comm sig.now op.0 ≡ true → ascending r.terms ≡ true) }
    ensures known { IfOk result (λ r. (rules : List Rule) → AreKnown sig.now rules (marks args.known) (trees args.terms)
        → IsKnown sig.now rules (mark_of one.known) (tree one.term)
        → AreKnown sig.now rules (marks r.known) (trees r.terms)) }
    ensures nodes { IfOk result (λ r. r.nodes ≡ one.nodes) }
{
    let MarkedArgs {
        mut terms,
        known: mut all,
        nodes: _,
    } = args;
    let Marked { term, known, nodes } = one;
    let at = place(sig, op, &terms, index, &term);
    terms.insert(at, term)?;
    all.insert(at, known)?;
    Ok(MarkedArgs {
        terms,
        known: all,
        nodes,
    })
}

// The arguments of the operation with the parts put in at the index, or where they ascend each at its place.
fn insert_parts(
    sig: &Signature,
    op: OpId,
    args: MarkedArgs,
    index: usize,
    parts: MarkedArgs,
) -> Result<MarkedArgs, Memory>
    requires within { index ≤ length args.terms }
    requires same { length args.known ≡ length args.terms }
    requires same_parts { length parts.known ≡ length parts.terms }
    requires ascending { is_comm sig.now op.0 ≡ true → ascending args.terms ≡ true }
    ensures terms { IfOk result (λ r.
        r.terms ≡ in_order sig.now op.0 (take index args.terms ++ (parts.terms ++ drop index args.terms))) }
    ensures same { IfOk result (λ r. length r.known ≡ length r.terms) }
    ensures known { IfOk result (λ r. (rules : List Rule) → AreKnown sig.now rules (marks args.known) (trees args.terms)
        → AreKnown sig.now rules (marks parts.known) (trees parts.terms)
        → AreKnown sig.now rules (marks r.known) (trees r.terms)) }
    ensures nodes { IfOk result (λ r. r.nodes ≡ parts.nodes) }
{
    let mut all = args;
    let MarkedArgs {
        terms: mut more,
        known: mut more_known,
        nodes,
    } = parts;
    while 0 < more.len() {
        let last = more.len() - 1;
        let part = Marked {
            term: more.remove(last),
            known: more_known.remove(last),
            nodes,
        };
        all = put_one(sig, op, all, index, part)?;
    }
    let MarkedArgs { terms, known, .. } = all;
    Ok(MarkedArgs {
        terms,
        known,
        nodes,
    })
}

// The application to the arguments, or the only one, where the operation is one-identity: then there is one node less.
fn close(sig: &Signature, op: OpId, args: MarkedArgs) -> Marked
    requires { length args.known ≡ length args.terms }
    ensures term { tree result.term ≡ collapsed sig.now op.0 args.terms }
    ensures known { (rules : List Rule) → AreKnown sig.now rules (marks args.known) (trees args.terms)
        → IsKnown sig.now rules (mark_of result.known) (tree result.term) }
    ensures nodes { (rest : ℕ) → args.nodes ≡ all_nodes args.terms + 1 + rest
        → result.nodes ≡ node_count (tree result.term) + rest }
{
    let MarkedArgs {
        mut terms,
        mut known,
        nodes,
    } = args;
    if terms.len() == 1 && sig.is_one(op) {
        return Marked {
            term: terms.remove(0),
            known: known.remove(0),
            nodes: nodes.saturating_sub(1),
        };
    }
    Marked {
        term: Term::App(op, terms),
        known: Known::Inner(known),
        nodes,
    }
}

// The normal form of the application to the arguments, which are normal, with another normal one put in at the index.
fn put_among(
    alloc: Global,
    sig: &Signature,
    op: OpId,
    args: MarkedArgs,
    index: usize,
    changed: Marked,
) -> Result<Marked, Memory>
    requires within { index ≤ length args.terms }
    requires same { length args.known ≡ length args.terms }
    requires ascending { is_comm sig.now op.0 ≡ true → ascending args.terms ≡ true }
    ensures term { IfOk result (λ m. tree m.term
        ≡ collapsed sig.now op.0 (in_order sig.now op.0
        (take index args.terms ++ (parts sig.now op.0 (tree changed.term) ++ drop index args.terms)))) }
    ensures known { IfOk result (λ m. (rules : List Rule) → AreKnown sig.now rules (marks args.known) (trees args.terms)
        → IsKnown sig.now rules (mark_of changed.known) (tree changed.term)
        → IsKnown sig.now rules (mark_of m.known) (tree m.term)) }
    ensures nodes { IfOk result (λ m. (rest : ℕ)
        → changed.nodes ≡ node_count (tree changed.term) + (all_nodes args.terms + 1 + rest)
        → m.nodes ≡ node_count (tree m.term) + rest) }
{
    if !opens(sig, op, &changed.term) {
        let all = put_one(sig, op, args, index, changed)?;
        return Ok(close(sig, op, all));
    }
    let opened = open(alloc, sig, op, changed)?;
    let all = insert_parts(sig, op, args, index, opened)?;
    Ok(close(sig, op, all))
}

// Whether a term stays at its index among that many arguments of the operation, and the application stays one to them.
fn stays_there(sig: &Signature, op: OpId, count: usize, term: &Term) -> bool
    ensures fixed { IsTrue result → is_comm sig.now op.0 ≡ false }
    ensures whole { IsTrue result → (is_assoc sig.now op.0 && has_head op.0 (tree term.now)) ≡ false }
    ensures open { IsTrue result → (count ≡ 1 → ⊥) ⊎ (is_one sig.now op.0 ≡ false) }
{
    !sig.is_comm(op) && !opens(sig, op, term) && (count != 1 || !sig.is_one(op))
}

// The application to the arguments with another one put in the place of the one at the index, where it stays there.
fn put_there(sig: &Signature, op: OpId, args: MarkedArgs, index: usize, changed: Marked) -> Marked
    requires within { index < length args.terms }
    requires same { length args.known ≡ length args.terms }
    requires fixed { is_comm sig.now op.0 ≡ false }
    requires whole { (is_assoc sig.now op.0 && has_head op.0 (tree changed.term)) ≡ false }
    requires open { (length args.terms ≡ 1 → ⊥) ⊎ (is_one sig.now op.0 ≡ false) }
    ensures term { tree result.term ≡ collapsed sig.now op.0 (in_order sig.now op.0
        (take index (remove args.terms index)
        ++ (parts sig.now op.0 (tree changed.term) ++ drop index (remove args.terms index)))) }
    ensures known { (rules : List Rule)
        → AreKnown sig.now rules (marks (remove args.known index)) (trees (remove args.terms index))
        → IsKnown sig.now rules (mark_of changed.known) (tree changed.term)
        → IsKnown sig.now rules (mark_of result.known) (tree result.term) }
    ensures nodes { (rest : ℕ)
        → changed.nodes ≡ node_count (tree changed.term) + (all_nodes (remove args.terms index) + 1 + rest)
        → result.nodes ≡ node_count (tree result.term) + rest }
{
    let MarkedArgs {
        mut terms,
        known: mut all,
        nodes: _,
    } = args;
    let Marked { term, known, nodes } = changed;
    terms.replace(index, term);
    all.set(index, known);
    Marked {
        term: Term::App(op, terms),
        known: Known::Inner(all),
        nodes,
    }
}

// The same as `put_among`, but another one stands at the index, which goes.
fn put_back(
    alloc: Global,
    sig: &Signature,
    op: OpId,
    args: MarkedArgs,
    index: usize,
    changed: Marked,
) -> Result<Marked, Memory>
    requires within { index < length args.terms }
    requires same { length args.known ≡ length args.terms }
    requires ascending { is_comm sig.now op.0 ≡ true → ascending (remove args.terms index) ≡ true }
    ensures term { IfOk result (λ m. tree m.term ≡ collapsed sig.now op.0 (in_order sig.now op.0
        (take index (remove args.terms index)
        ++ (parts sig.now op.0 (tree changed.term) ++ drop index (remove args.terms index))))) }
    ensures known { IfOk result (λ m. (rules : List Rule)
        → AreKnown sig.now rules (marks (remove args.known index)) (trees (remove args.terms index))
        → IsKnown sig.now rules (mark_of changed.known) (tree changed.term)
        → IsKnown sig.now rules (mark_of m.known) (tree m.term)) }
    ensures nodes { IfOk result (λ m. (rest : ℕ)
        → changed.nodes ≡ node_count (tree changed.term) + (all_nodes (remove args.terms index) + 1 + rest)
        → m.nodes ≡ node_count (tree m.term) + rest) }
{
    if stays_there(sig, op, args.terms.len(), &changed.term) {
        return Ok(put_there(sig, op, args, index, changed));
    }
    let MarkedArgs {
        mut terms,
        mut known,
        nodes,
    } = args;
    terms.remove(index);
    known.remove(index);
    let rest = MarkedArgs {
        terms,
        known,
        nodes,
    };
    put_among(alloc, sig, op, rest, index, changed)
}

// The normal form of the term, which is normal, with the subterm at the position replaced by another normal term.
// `nodes` counts the nodes of the term with the new one put in and of all that is around it, and is kept up with what
// goes by normalising.
pub(crate) fn put_in(
    alloc: Global,
    sig: &Signature,
    into: Marked,
    position: &[u32],
    new: Term,
) -> Result<Marked, Memory>
    requires normal { IsNormal sig.now (tree into.term) }
    requires new { IsNormal sig.now (tree new) }
    requires there { is_some (subterm (tree into.term) position.now) ≡ true }
    ensures term { IfOk result (λ m.
        tree m.term ≡ normal sig.now (replaced position.now (tree new) (tree into.term))) }
    ensures known { IfOk result (λ m. (rules : List Rule) → IsKnown sig.now rules (mark_of into.known) (tree into.term)
        → IsKnown sig.now rules (mark_of m.known) (tree m.term)) }
    ensures nodes { IfOk result (λ m. (rest : ℕ)
        → into.nodes ≡ node_count (replaced position.now (tree new) (tree into.term)) + rest
        → m.nodes ≡ node_count (tree m.term) + rest) }
{
    let Marked { term, known, nodes } = into;
    let Some((index, below)) = position.split_first() else {
        return Ok(Marked {
            term: new,
            known: Known::Nothing,
            nodes,
        });
    };
    let index = *index as usize;
    match term {
        Term::Sym(_) => unreachable!(),
        Term::App(op, mut terms) => {
            let mut all = known_args(alloc, known, terms.len())?;
            let old = Marked {
                term: terms.replace(index, Term::App(op, Terms::new(alloc))),
                known: all.take(index),
                nodes,
            };
            let changed = put_in(alloc, sig, old, below, new)?;
            let args = MarkedArgs {
                terms,
                known: all,
                nodes: 0,
            };
            let whole = put_back(alloc, sig, op, args, index, changed)?;
            Ok(whole)
        }
    }
}
