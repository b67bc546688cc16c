//! The search for the first redex of a term, which passes over what is known to have none.
ghost use Rattle.std.specs.Prelude.{◌≡◌, ◌≤◌, ◌<◌, ℕ, length, slice_set, map, option_map, IfOk, IfSome};
ghost use Rattle.std.specs.List.{AllByRecursion};
ghost use Rattle.mp_term.specs.Tree.{app, trees};
ghost use Rattle.mp_term.specs.View.{tree};
ghost use Rattle.mp_term.specs.Size.{node_count, all_nodes};
ghost use Rattle.mp_term.specs.Normal.{IsNormal};
ghost use Rattle.mp_rewrite.specs.Computed as computed;
ghost use Rattle.mp_pattern.specs.Planned.{IsPlanned, planned_rule, rule_plan};
ghost use Rattle.mp_rewrite.specs.Marks.{inner, marks};
ghost use Rattle.mp_rewrite.specs.MarkView.{mark_of};
ghost use Rattle.mp_rewrite.specs.Known.{IsKnown, AreKnown};
ghost use Rattle.mp_rewrite.specs.Made.{redex_of};

use crate::known::{Known, KnownArgs, known_args};
use crate::redex::{Redex, at_argument};
use crate::rules::first_match;
use mp_pattern::{MAX_TERM_NODES, PlannedRule};
use mp_term::{Memory, Signature, Term, Terms};
use std::alloc::Global;

// The first redex of a term, and what is known of the whole term after the search for it.
#[derive(Drop)]
pub(crate) struct KnownRedex<'a> {
    pub(crate) redex: Redex<'a>,
    pub(crate) known: Known,
}

// The redex of the argument with this index as one of the application.
fn of_argument<'a>(
    found: KnownRedex<'a>,
    index: usize,
    mut args: KnownArgs,
) -> Result<KnownRedex<'a>, Memory>
    requires fits { index ≤ MAX_TERM_NODES }
    requires within { index < length args }
    ensures redex { IfOk result (λ r. redex_of r.redex ≡ computed.at_argument index (redex_of found.entry.redex)) }
    ensures known { IfOk result
        (λ r. mark_of r.known ≡ inner (marks (slice_set args index (mark_of found.entry.known)))) }
{
    let KnownRedex { redex, known } = found;
    let redex = at_argument(index, redex)?;
    args.set(index, known);
    Ok(KnownRedex {
        redex,
        known: Known::Inner(args),
    })
}

// The first redex of the term in preorder (`first_redex` of `specs/Computed.antt`), where not all is known to be dead.
// The term is normal and has at most `MAX_TERM_NODES` nodes. `Memory`: memory ran out, and nothing is left.
#[cycle(first_known_redex)]
pub(crate) fn first_known_redex<'a>(
    alloc: Global,
    sig: &Signature,
    rules: &[PlannedRule<'a>],
    term: &Term,
    known: Known,
) -> Result<Option<KnownRedex<'a>>, Memory>
    requires planned { AllByRecursion (IsPlanned sig.now) (map rule_plan rules.now) }
    requires normal { IsNormal sig.now (tree term.now) }
    requires few { node_count (tree term.now) ≤ MAX_TERM_NODES }
    requires known { IsKnown sig.now (map planned_rule rules.now) (mark_of known) (tree term.now) }
    ensures redex { IfOk result (λ o. option_map (λ r. redex_of r.redex) o
        ≡ computed.first_redex sig.now (map planned_rule rules.now) (tree term.now)) }
    ensures known { IfOk result (λ o. IfSome o
        (λ r. IsKnown sig.now (map planned_rule rules.now) (mark_of r.known) (tree term.now))) }
{
    if let Known::Dead = known {
        return Ok(None);
    }
    if let Some(found) = first_match(alloc, sig, rules, term)? {
        let position = Vec::new(alloc);
        let redex = Redex { position, found };
        return Ok(Some(KnownRedex { redex, known }));
    }
    match term {
        Term::Sym(_) => Ok(None),
        Term::App(_, args) => {
            let known = known_args(alloc, known, args.len())?;
            first_below(alloc, sig, rules, args, known)
        }
    }
}

// The first redex of the arguments of an application, as one of the application.
#[cycle(first_known_redex)]
fn first_below<'a>(
    alloc: Global,
    sig: &Signature,
    rules: &[PlannedRule<'a>],
    args: &Terms,
    mut known: KnownArgs,
) -> Result<Option<KnownRedex<'a>>, Memory>
    requires planned { AllByRecursion (IsPlanned sig.now) (map rule_plan rules.now) }
    requires normal { AllByRecursion (IsNormal sig.now) args.now }
    requires few { all_nodes args.now ≤ MAX_TERM_NODES }
    requires known { AreKnown sig.now (map planned_rule rules.now) (marks known) (trees args.now) }
    ensures redex { IfOk result (λ o. option_map (λ r. redex_of r.redex) o
        ≡ computed.first_below sig.now (map planned_rule rules.now) 0 (trees args.now)) }
    ensures known { IfOk result (λ o. IfSome o (λ r. (f : ℕ)
        → IsKnown sig.now (map planned_rule rules.now) (mark_of r.known) (app f (trees args.now)))) }
{
    for (index, arg) in args.as_slice().iter().enumerate() {
        if known.is_dead(index) {
            continue;
        }
        let before = known.take(index);
        if let Some(inner) = first_known_redex(alloc, sig, rules, arg, before)? {
            let whole = of_argument(inner, index, known)?;
            return Ok(Some(whole));
        }
    }
    Ok(None)
}
