//! Steps by rules that cancel, made at the root of a term.
ghost use Rattle.std.specs.Prelude.{◌≡◌, ◌<◌, ◌≤◌, ◌+◌, ◌∷◌, [], ℕ, List, map, length, true, IfOk, IfSome};
ghost use Rattle.std.specs.List.{remove};
ghost use Rattle.mp_term.specs.Tree.{Tree, symbol, app, trees};
ghost use Rattle.mp_term.specs.View.{tree};
ghost use Rattle.mp_term.specs.Size.{node_count, all_nodes};
ghost use Rattle.mp_term.specs.Signature.{is_comm};
ghost use Rattle.mp_term.specs.Normal.{IsNormal, in_order, collapsed};
ghost use Rattle.mp_term.specs.NormalTest.{ascending};
ghost use Rattle.mp_pattern.specs.Admission as plain;
ghost use Rattle.mp_pattern.specs.Planned.{planned_rule};
ghost use Rattle.mp_pattern.specs.RuleView.{rule_tree};
ghost use Rattle.mp_rewrite.specs.Computed as computed;
ghost use Rattle.mp_rewrite.specs.Marks.{unknown};
ghost use Rattle.mp_rewrite.specs.MarkView.{mark_of};
ghost use Rattle.mp_theory.specs.OneList.{one_list};
ghost use Rattle.mp_rewrite.specs.Cancellation.{IsCancelled, IsFound, IsWithin, left_by, after_cancellation};

use crate::cancellation::{Cancellation, cancellation_of};
use crate::in_place::{Marked, place};
use crate::known::Known;
use crate::taken::{Found, Places, places_of};
use mp_cursor::may_fit;
use mp_pattern::{MAX_TERM_NODES, PlannedRule, Rule};
use mp_term::{Memory, Name, OpId, Signature, Term, Terms, node_count};
use std::alloc::Global;

// A cancellation with the places of what it takes first on a term.
#[derive(Drop)]
pub(crate) struct Cancelled<'a> {
    pub(crate) cancellation: Cancellation<'a>,
    pub(crate) places: Places,
}

// Terms, and a number of nodes: theirs and those of all that is around them.
#[derive(Drop)]
struct Counted {
    terms: Terms,
    nodes: u64,
}

// The cancellation of the rule on the term. It stands nowhere where the rule admits nothing there.
pub(crate) fn cancelled_by<'a>(sig: &Signature, rule: &'a Rule, term: &Term) -> Found<Cancelled<'a>>
    requires { IsNormal sig.now (tree term.now) }
    ensures { IsFound (one_list sig.now (rule_tree rule.now) (tree term.now) ≡ [])
        (IsCancelled sig.now (rule_tree rule.now) (tree term.now)) result }
{
    let Term::App(op, args) = term else {
        return Found::Unsure;
    };
    if !sig.is_comm(*op) {
        return Found::Unsure;
    }
    let Some(cancellation) = cancellation_of(rule) else {
        return Found::Unsure;
    };
    if cancellation.op.0 != op.0 {
        return Found::Unsure;
    }
    match places_of(sig, &cancellation, args.as_slice()) {
        Found::Nowhere => Found::Nowhere,
        Found::Unsure => Found::Unsure,
        Found::At(places) => Found::At(Cancelled {
            cancellation,
            places,
        }),
    }
}

// The cancellation of the first rule that may admit something on the term, where it is sure to make one.
pub(crate) fn first_cancelled<'a>(
    sig: &Signature,
    rules: &[PlannedRule<'a>],
    term: &Term,
) -> Option<Cancelled<'a>>
    requires { IsNormal sig.now (tree term.now) }
    ensures { IfSome result (λ d. (r : plain.Rule) × (later : List plain.Rule)
        × IsCancelled sig.now r (tree term.now) d
        × (computed.first_match sig.now (r ∷ later) (tree term.now)
        ≡ computed.first_match sig.now (map planned_rule rules.now) (tree term.now))) }
{
    for rule in rules {
        if !may_fit(sig, &rule.rule.pattern, term) {
            continue;
        }
        match cancelled_by(sig, rule.rule, term) {
            Found::Nowhere => {}
            Found::Unsure => return None,
            Found::At(cancelled) => return Some(cancelled),
        }
    }
    None
}

// The terms without the one at the place.
fn take_out(all: Counted, place: usize) -> Counted
    requires within { place < length all.terms }
    requires few { all.nodes ≤ MAX_TERM_NODES }
    ensures terms { result.terms ≡ remove all.terms place }
    ensures nodes { (rest : ℕ) → all.nodes ≡ all_nodes all.terms + rest → result.nodes ≡ all_nodes result.terms + rest }
    ensures fewer { result.nodes ≤ all.nodes }
{
    let Counted { mut terms, nodes } = all;
    let old = terms.remove(place);
    Counted {
        terms,
        nodes: nodes.saturating_sub(node_count(&old)),
    }
}

// The terms without those at the places.
fn leave(all: Counted, places: &Places) -> Counted
    requires within { IsWithin (length all.terms) places.now }
    requires few { all.nodes ≤ MAX_TERM_NODES }
    ensures terms { result.terms ≡ left_by places.now all.terms }
    ensures nodes { (rest : ℕ) → all.nodes ≡ all_nodes all.terms + rest → result.nodes ≡ all_nodes result.terms + rest }
    ensures fewer { result.nodes ≤ all.nodes }
{
    match places.second {
        None => take_out(all, places.first),
        Some(second) => {
            let left = take_out(all, second);
            take_out(left, places.first)
        }
    }
}

// The terms with a symbol among them.
fn put(
    alloc: Global,
    sig: &Signature,
    op: OpId,
    all: Counted,
    name: &Name,
) -> Result<Counted, Memory>
    requires comm { is_comm sig.now op.0 ≡ true }
    requires ascending { ascending all.terms ≡ true }
    requires few { all.nodes ≤ MAX_TERM_NODES }
    ensures terms { IfOk result (λ c. c.terms ≡ in_order sig.now op.0 (symbol name.now ∷ all.terms)) }
    ensures nodes { IfOk result (λ c. (rest : ℕ) → all.nodes ≡ all_nodes all.terms + rest
        → c.nodes ≡ all_nodes c.terms + rest) }
{
    let Counted { mut terms, nodes } = all;
    let new = Term::Sym(name.copy(alloc)?);
    let at = place(sig, op, &terms, 0, &new);
    terms.insert(at, new)?;
    Ok(Counted {
        terms,
        nodes: nodes.saturating_add(1),
    })
}

// The application to the terms, or the only one, where the operation is one-identity: then there is one node less.
fn whole(sig: &Signature, op: OpId, all: Counted) -> Marked
    ensures term { tree result.term ≡ collapsed sig.now op.0 all.terms }
    ensures known { mark_of result.known ≡ unknown }
    ensures nodes { all.nodes ≡ all_nodes all.terms + 1 → result.nodes ≡ node_count (tree result.term) }
{
    let Counted { mut terms, nodes } = all;
    if terms.len() == 1 && sig.is_one(op) {
        return Marked {
            term: terms.remove(0),
            known: Known::Nothing,
            nodes: nodes.saturating_sub(1),
        };
    }
    Marked {
        term: Term::App(op, terms),
        known: Known::Nothing,
        nodes,
    }
}

// The term after the cancellation.
pub(crate) fn make(
    alloc: Global,
    sig: &Signature,
    here: Marked,
    cancelled: &Cancelled<'_>,
) -> Result<Marked, Memory>
    requires normal { IsNormal sig.now (tree here.term) }
    requires few { here.nodes ≤ MAX_TERM_NODES }
    requires cancelled { (r : plain.Rule) × IsCancelled sig.now r (tree here.term) cancelled.now }
    ensures term { IfOk result (λ m. (ts : List Tree) → tree here.term ≡ app cancelled.now.cancellation.op.0 (trees ts)
        → tree m.term ≡ collapsed sig.now cancelled.now.cancellation.op.0
        (in_order sig.now cancelled.now.cancellation.op.0 (after_cancellation cancelled.now ts))) }
    ensures known { IfOk result (λ m. mark_of m.known ≡ unknown) }
    ensures nodes { IfOk result (λ m. here.nodes ≡ node_count (tree here.term) → m.nodes ≡ node_count (tree m.term)) }
{
    let Marked { term, nodes, .. } = here;
    let Term::App(op, terms) = term else {
        unreachable!()
    };
    let left = leave(Counted { terms, nodes }, &cancelled.places);
    match cancelled.cancellation.put {
        None => Ok(whole(sig, op, left)),
        Some(name) => {
            let all = put(alloc, sig, op, left, name)?;
            Ok(whole(sig, op, all))
        }
    }
}
