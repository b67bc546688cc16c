//! Steps by a rule that cancels equal arguments, many in one pass over the arguments.
ghost use Rattle.std.specs.Prelude.{◌≡◌, ◌≤◌, ◌<◌, ◌+◌, ◌++◌, [], List, length, map, replicate, true, IfOk, IfSome};
ghost use Rattle.std.specs.Prelude.{IsTrue};
ghost use Rattle.std.specs.List.{AllByRecursion, insert};
ghost use Rattle.mp_term.specs.Tree.{Tree, symbol, app, trees};
ghost use Rattle.mp_term.specs.View.{tree};
ghost use Rattle.mp_term.specs.NormalTest.{ascending};
ghost use Rattle.mp_term.specs.Normal.{IsNormal};
ghost use Rattle.mp_term.specs.Signature.{is_comm};
ghost use Rattle.mp_pattern.specs.Admission as plain;
ghost use Rattle.mp_pattern.specs.Planned.{IsPlanned, planned_rule, rule_plan};
ghost use Rattle.mp_pattern.specs.RuleView.{rule_tree};
ghost use Rattle.mp_pattern.specs.View.{pattern_tree};
ghost use Rattle.mp_theory.specs.OneList.{item_list};
ghost use Rattle.mp_rewrite.specs.Rewritable.{AreRewriteRules, IsRewritable};
ghost use Rattle.mp_rewrite.specs.Turn.{IsHere};
ghost use Rattle.mp_rewrite.specs.Run.{IsPairing, IsFirstPairing, IsRunnable, IsPassed, Leads, copies};

use crate::below::run_argument;
use crate::cancellation::{Cancellation, Taken, cancellation_of};
use crate::in_place::{Marked, place};
use crate::known::Known;
use crate::quiet::quiet_index;
use crate::taken::pair_place;
use crate::valid::signature_is_valid;
use mp_pattern::{Pattern, PlannedRule, Rule};
use mp_term::{Memory, Name, OpId, Signature, Term, Terms, copy_term, node_count};
use std::alloc::Global;

// A term after some steps, and how many they were.
#[derive(Drop)]
pub(crate) struct Run {
    pub(crate) here: Marked,
    pub(crate) made: u64,
}

// How far a pass over arguments came: what is kept of those so far, the place, and how many steps were made.
#[derive(Drop)]
struct Pass {
    kept: Terms,
    place: usize,
    made: u64,
}

// Whether the pattern is no wildcard, has another head than the operation, and doesn't collapse.
pub(crate) fn is_apart(sig: &Signature, op: OpId, pattern: &Pattern) -> bool
    ensures { IsTrue result → (ts : List Tree) (r : plain.Rule) → IsNormal sig.now (app op.0 (trees ts))
        → r.pattern ≡ pattern_tree pattern.now → item_list sig.now r (app op.0 (trees ts)) ≡ [] }
{
    match pattern {
        Pattern::Sym(_) => true,
        Pattern::App(own, _) => {
            if own.0 == op.0 {
                return false;
            }
            !sig.is_one(*own)
        }
        Pattern::Wild(_, _) => false,
    }
}

// What the rule cancels, where it cancels equal arguments of the operation.
fn pairing_of(rule: &Rule, op: OpId) -> Option<Cancellation<'_>>
    ensures { IfSome result (IsPairing op.0 (rule_tree rule.now)) }
{
    let cancellation = cancellation_of(rule)?;
    if cancellation.op.0 != op.0 {
        return None;
    }
    match &cancellation.taken {
        Taken::Pair => Some(cancellation),
        _ => None,
    }
}

// The same of the first rule that may fit an application of the operation.
fn first_pairing<'a>(
    sig: &Signature,
    rules: &[PlannedRule<'a>],
    op: OpId,
) -> Option<Cancellation<'a>>
    ensures { IfSome result (IsFirstPairing sig.now (map planned_rule rules.now) op.0) }
{
    for rule in rules {
        if !is_apart(sig, op, &rule.rule.pattern) {
            return pairing_of(rule.rule, op);
        }
    }
    None
}

// The end of those arguments in front of which nothing is put in.
fn end_of(
    alloc: Global,
    sig: &Signature,
    op: OpId,
    args: &Terms,
    put: Option<&Name>,
) -> Result<usize, Memory>
    requires comm { is_comm sig.now op.0 ≡ true }
    requires ascending { ascending args.now ≡ true }
    ensures within { IfOk result (λ k. k ≤ length args.now) }
    ensures ascending { IfOk result (λ k. IfSome put.entry (λ n. ascending (insert args.now k (symbol n.now)) ≡ true)) }
{
    match put {
        None => Ok(args.len()),
        Some(name) => {
            let new = Term::Sym(name.copy(alloc)?);
            Ok(place(sig, op, args, 0, &new))
        }
    }
}

// Whether the first equal arguments are followed by two more.
fn has_two_pairs(args: &[Term]) -> bool {
    let Some(place) = pair_place(args) else {
        return false;
    };
    let [_, _, one, second, ..] = &args[place..] else {
        return false;
    };
    one == second
}

// Whether two arguments stand before, from the place on, and two others are left with those behind.
fn goes_on(before: usize, behind: usize, place: usize) -> bool
    requires { place ≤ before }
    ensures { IsTrue result → (place + 2 ≤ before) × (place + 4 ≤ before + behind) }
{
    let ahead = before - place;
    if 4 <= ahead {
        return true;
    }
    2 <= ahead && 2 <= behind
}

// Step after step by the rule, at most so many, each of which takes the first equal arguments out of those before, and
// puts in what it puts in between those and the ones behind. It ends where no two stand before or fewer than two would
// be left.
fn pass_over(
    alloc: Global,
    sig: &Signature,
    rules: &[PlannedRule<'_>],
    cancellation: &Cancellation<'_>,
    before: &[Term],
    behind: &[Term],
    max: u64,
) -> Result<Pass, Memory>
    requires rules { AreRewriteRules sig.now (map planned_rule rules.now) }
    requires run { IsRunnable sig.now (map planned_rule rules.now) cancellation.now (map tree before.now)
        (map tree behind.now) }
    ensures few { IfOk result (λ p. p.made ≤ max) }
    ensures within { IfOk result (λ p. p.place ≤ length before.now) }
    ensures passed { IfOk result (λ p. IsPassed sig.now (map planned_rule rules.now) cancellation.now
        (map tree before.now) (map tree behind.now) p.kept p.place p.made) }
{
    signature_is_valid(sig);
    let mut kept = Terms::new(alloc);
    let mut place = 0;
    let mut made = 0;
    while made < max && goes_on(before.len(), behind.len(), place) {
        if before[place] == before[place + 1] {
            place += 2;
            made += 1;
        } else {
            kept.push(copy_term(alloc, &before[place])?)?;
            place += 1;
        }
    }
    Ok(Pass { kept, place, made })
}

// The terms with copies of others behind them.
fn with_copies(alloc: Global, terms: Terms, more: &[Term]) -> Result<Terms, Memory>
    ensures { IfOk result (λ r. r ≡ terms ++ map tree more.now) }
{
    let mut all = terms;
    for term in more {
        all.push(copy_term(alloc, term)?)?;
    }
    Ok(all)
}

// The terms with the symbol so many times behind them.
fn with_symbols(alloc: Global, terms: Terms, name: &Name, count: u64) -> Result<Terms, Memory>
    ensures { IfOk result (λ r. r ≡ terms ++ replicate count (symbol name.now)) }
{
    let mut all = terms;
    for _ in 0..count {
        all.push(Term::Sym(name.copy(alloc)?))?;
    }
    Ok(all)
}

// The terms with what so many steps put in behind them.
fn with_put(alloc: Global, terms: Terms, put: Option<&Name>, count: u64) -> Result<Terms, Memory>
    ensures { IfOk result (λ r. r ≡ terms ++ copies put.entry count) }
{
    match put {
        None => Ok(terms),
        Some(name) => with_symbols(alloc, terms, name, count),
    }
}

// The application after a pass over its arguments.
fn run_over(
    alloc: Global,
    sig: &Signature,
    rules: &[PlannedRule<'_>],
    cancellation: &Cancellation<'_>,
    before: &[Term],
    behind: &[Term],
    max: u64,
) -> Result<Run, Memory>
    requires rules { AreRewriteRules sig.now (map planned_rule rules.now) }
    requires run { IsRunnable sig.now (map planned_rule rules.now) cancellation.now (map tree before.now)
        (map tree behind.now) }
    ensures few { IfOk result (λ r. r.made ≤ max) }
    ensures here { IfOk result (λ r. IsHere sig.now (map planned_rule rules.now) r.here) }
    ensures run { IfOk result (λ r. Leads sig.now (map planned_rule rules.now) r.made
        (app cancellation.now.op.0 (trees (map tree before.now ++ map tree behind.now))) (tree r.here.term)) }
{
    let passed = pass_over(alloc, sig, rules, cancellation, before, behind, max)?;
    let Pass { kept, place, made } = passed;
    let kept = with_copies(alloc, kept, &before[place..])?;
    let kept = with_put(alloc, kept, cancellation.put, made)?;
    let kept = with_copies(alloc, kept, behind)?;
    let term = Term::App(cancellation.op, kept);
    let nodes = node_count(&term);
    let here = Marked {
        term,
        known: Known::Nothing,
        nodes,
    };
    Ok(Run { here, made })
}

// The term after a pass over its arguments, and None where the first rule cancels no equal arguments of it, or where
// no two of them follow each other.
fn run_of(
    alloc: Global,
    sig: &Signature,
    rules: &[PlannedRule<'_>],
    term: &Term,
    max: u64,
) -> Result<Option<Run>, Memory>
    requires rules { AreRewriteRules sig.now (map planned_rule rules.now) }
    requires term { IsRewritable sig.now (tree term.now) }
    ensures few { IfOk result (λ o. IfSome o (λ r. r.made ≤ max)) }
    ensures here { IfOk result (λ o. IfSome o (λ r. IsHere sig.now (map planned_rule rules.now) r.here)) }
    ensures run { IfOk result (λ o. IfSome o (λ r. Leads sig.now (map planned_rule rules.now) r.made (tree term.now)
        (tree r.here.term))) }
{
    let Term::App(op, args) = term else {
        return Ok(None);
    };
    if !sig.is_comm(*op) {
        return Ok(None);
    }
    let Some(cancellation) = first_pairing(sig, rules, *op) else {
        return Ok(None);
    };
    let end = end_of(alloc, sig, *op, args, cancellation.put)?;
    let (before, behind) = args.as_slice().split_at(end);
    if !has_two_pairs(before) {
        return Ok(None);
    }
    let run = run_over(alloc, sig, rules, &cancellation, before, behind, max)?;
    Ok(Some(run))
}

// The term after as many steps as one pass over its arguments makes, at most so many, or those of an argument that no
// rule fits around, or after none.
pub(crate) fn run_on(
    alloc: Global,
    sig: &Signature,
    rules: &[PlannedRule<'_>],
    here: Marked,
    max: u64,
) -> Result<Run, Memory>
    requires planned { AllByRecursion (IsPlanned sig.now) (map rule_plan rules.now) }
    requires rules { AreRewriteRules sig.now (map planned_rule rules.now) }
    requires here { IsHere sig.now (map planned_rule rules.now) here }
    ensures few { IfOk result (λ r. r.made ≤ max) }
    ensures here { IfOk result (λ r. IsHere sig.now (map planned_rule rules.now) r.here) }
    ensures run { IfOk result (λ r. Leads sig.now (map planned_rule rules.now) r.made (tree here.term)
        (tree r.here.term)) }
{
    if let Some(run) = run_of(alloc, sig, rules, &here.term, max)? {
        return Ok(run);
    }
    let Some(index) = quiet_index(sig, rules, &here) else {
        return Ok(Run { here, made: 0 });
    };
    let below = run_argument(alloc, sig, rules, here, index, 0, max)?;
    Ok(below.run)
}
