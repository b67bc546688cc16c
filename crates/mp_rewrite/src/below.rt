//! Steps of an argument, one after the other, where no rule fits around it whatever it is.
ghost use Rattle.std.specs.Prelude.{◌≡◌, ◌≤◌, ◌<◌, List, Some, map, IfOk};
ghost use Rattle.std.specs.List.{AllByRecursion};
ghost use Rattle.mp_term.specs.Tree.{Tree};
ghost use Rattle.mp_term.specs.View.{tree};
ghost use Rattle.mp_pattern.specs.Admission.{Rule};
ghost use Rattle.mp_pattern.specs.Planned.{IsPlanned, planned_rule, rule_plan};
ghost use Rattle.mp_rewrite.specs.Computed.{first_redex};
ghost use Rattle.mp_rewrite.specs.Made.{IsReady, redex_of};
ghost use Rattle.mp_rewrite.specs.Rewritable.{AreRewriteRules, IsRewritable};
ghost use Rattle.mp_rewrite.specs.Within.{IsMarkedWithin, IsRunWithin, IsQuietAt};

use crate::in_place::{Marked, put_in};
use crate::known::{Known, known_args};
use crate::known_redex::{KnownRedex, first_known_redex};
use crate::quiet::quiet_index;
use crate::redex::Redex;
use crate::run::Run;
use crate::turn::nodes_within;
use crate::valid::signature_is_valid;
use mp_pattern::PlannedRule;
use mp_subst::apply;
use mp_term::{Memory, Signature, Term, Terms};
use std::alloc::Global;

// Some steps, and whether the next one would be too large or too deep.
#[derive(Drop)]
pub(crate) struct Below {
    pub(crate) run: Run,
    pub(crate) stopped: bool,
}

// No step, where the next one would be too large or too deep.
fn stop(here: Marked) -> Below
    ensures { result.run ≡ record { here = here; made = 0 } }
{
    Below {
        run: Run { here, made: 0 },
        stopped: true,
    }
}

// The step that is made at the redex of the term, which stands below so many applications.
fn step_within(
    alloc: Global,
    sig: &Signature,
    into: Marked,
    levels: u64,
    redex: &Redex<'_>,
) -> Result<Below, Memory>
    requires term { IsRewritable sig.now (tree into.term) }
    requires ready { IsReady sig.now (tree into.term) (redex_of redex.now) }
    ensures few { IfOk result (λ b. b.run.made ≤ 1) }
    ensures run { IfOk result (λ b. (rules : List Rule) → AreRewriteRules sig.now rules
        → first_redex sig.now rules (tree into.term) ≡ Some (redex_of redex.now)
        → IsRunWithin sig.now rules levels into b.run) }
{
    signature_is_valid(sig);
    let Some(template) = &redex.found.rule.template else {
        unreachable!()
    };
    let Ok(new) = apply(alloc, sig, template, &redex.found.subst) else {
        return Ok(stop(into));
    };
    let Ok(nodes) = nodes_within(&into, levels, &redex.position, &new) else {
        return Ok(stop(into));
    };
    let Marked { term, known, .. } = into;
    let counted = Marked { term, known, nodes };
    let here = put_in(alloc, sig, counted, &redex.position, new)?;
    Ok(Below {
        run: Run { here, made: 1 },
        stopped: false,
    })
}

// The first step of the term, if there is one.
fn first_step(
    alloc: Global,
    sig: &Signature,
    rules: &[PlannedRule<'_>],
    here: Marked,
    levels: u64,
) -> Result<Below, Memory>
    requires planned { AllByRecursion (IsPlanned sig.now) (map rule_plan rules.now) }
    requires rules { AreRewriteRules sig.now (map planned_rule rules.now) }
    requires within { (C : Tree → Tree) × IsMarkedWithin sig.now (map planned_rule rules.now) C levels here }
    ensures few { IfOk result (λ b. b.run.made ≤ 1) }
    ensures run { IfOk result (λ b. IsRunWithin sig.now (map planned_rule rules.now) levels here b.run) }
{
    signature_is_valid(sig);
    let Marked { term, known, nodes } = here;
    match first_known_redex(alloc, sig, rules, &term, known)? {
        None => {
            let here = Marked {
                term,
                known: Known::Dead,
                nodes,
            };
            Ok(Below {
                run: Run { here, made: 0 },
                stopped: false,
            })
        }
        Some(found) => {
            let KnownRedex { redex, known } = found;
            let into = Marked { term, known, nodes };
            let below = step_within(alloc, sig, into, levels, &redex)?;
            Ok(below)
        }
    }
}

// At most so many steps of the argument, no rule fitting around it.
#[cycle(run_below)]
pub(crate) fn run_argument(
    alloc: Global,
    sig: &Signature,
    rules: &[PlannedRule<'_>],
    here: Marked,
    index: usize,
    levels: u64,
    max: u64,
) -> Result<Below, Memory>
    requires planned { AllByRecursion (IsPlanned sig.now) (map rule_plan rules.now) }
    requires rules { AreRewriteRules sig.now (map planned_rule rules.now) }
    requires within { (C : Tree → Tree) × IsMarkedWithin sig.now (map planned_rule rules.now) C levels here }
    requires quiet { IsQuietAt sig.now (map planned_rule rules.now) (tree here.term) index }
    ensures few { IfOk result (λ b. b.run.made ≤ max) }
    ensures run { IfOk result (λ b. IsRunWithin sig.now (map planned_rule rules.now) levels here b.run) }
{
    let Marked { term, known, nodes } = here;
    match term {
        Term::Sym(_) => unreachable!(),
        Term::App(op, mut terms) => {
            let mut all = known_args(alloc, known, terms.len())?;
            let argument = Marked {
                term: terms.replace(index, Term::App(op, Terms::new(alloc))),
                known: all.take(index),
                nodes,
            };
            let below = run_below(alloc, sig, rules, argument, levels.saturating_add(1), max)?;
            let Below { run, stopped } = below;
            let Run { here, made } = run;
            let Marked { term, known, nodes } = here;
            terms.replace(index, term);
            all.set(index, known);
            let whole = Marked {
                term: Term::App(op, terms),
                known: Known::Inner(all),
                nodes,
            };
            Ok(Below {
                run: Run { here: whole, made },
                stopped,
            })
        }
    }
}

// At most so many steps of an argument, where no rule fits around it, or else the first one.
#[cycle(run_below)]
fn run_once(
    alloc: Global,
    sig: &Signature,
    rules: &[PlannedRule<'_>],
    here: Marked,
    levels: u64,
    max: u64,
) -> Result<Below, Memory>
    requires planned { AllByRecursion (IsPlanned sig.now) (map rule_plan rules.now) }
    requires rules { AreRewriteRules sig.now (map planned_rule rules.now) }
    requires within { (C : Tree → Tree) × IsMarkedWithin sig.now (map planned_rule rules.now) C levels here }
    requires some { 0 < max }
    ensures few { IfOk result (λ b. b.run.made ≤ max) }
    ensures run { IfOk result (λ b. IsRunWithin sig.now (map planned_rule rules.now) levels here b.run) }
{
    let Some(index) = quiet_index(sig, rules, &here) else {
        let alone = first_step(alloc, sig, rules, here, levels)?;
        return Ok(alone);
    };
    let below = run_argument(alloc, sig, rules, here, index, levels, max)?;
    if 0 < below.run.made || below.stopped {
        return Ok(below);
    }
    let first = first_step(alloc, sig, rules, below.run.here, levels)?;
    Ok(first)
}

// At most so many steps of the term, which stands below so many applications, as long as it has a redex.
#[cycle(run_below)]
fn run_below(
    alloc: Global,
    sig: &Signature,
    rules: &[PlannedRule<'_>],
    here: Marked,
    levels: u64,
    max: u64,
) -> Result<Below, Memory>
    requires planned { AllByRecursion (IsPlanned sig.now) (map rule_plan rules.now) }
    requires rules { AreRewriteRules sig.now (map planned_rule rules.now) }
    requires within { (C : Tree → Tree) × IsMarkedWithin sig.now (map planned_rule rules.now) C levels here }
    ensures few { IfOk result (λ b. b.run.made ≤ max) }
    ensures run { IfOk result (λ b. IsRunWithin sig.now (map planned_rule rules.now) levels here b.run) }
{
    let mut here = here;
    let mut made = 0;
    while made < max {
        let Below { run, stopped } = run_once(alloc, sig, rules, here, levels, max - made)?;
        here = run.here;
        made += run.made;
        if stopped || run.made == 0 {
            let run = Run { here, made };
            return Ok(Below { run, stopped });
        }
    }
    let run = Run { here, made };
    Ok(Below {
        run,
        stopped: false,
    })
}
