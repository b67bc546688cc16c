//! The next step of a term, made in place.
ghost use Rattle.std.specs.Prelude.{◌≡◌, ◌≤◌, ◌<◌, ◌++◌, ◌∷◌, [], ℕ, List, map, max, IfOk, is_some, true};
ghost use Rattle.std.specs.List.{AllByRecursion};
ghost use Rattle.mp_term.specs.Tree.{Tree};
ghost use Rattle.mp_term.specs.View.{tree};
ghost use Rattle.mp_term.specs.Size.{node_count, depth};
ghost use Rattle.mp_term.specs.Excess.{excess};
ghost use Rattle.mp_term.specs.Signature.{Sig};
ghost use Rattle.mp_term.specs.Normal.{IsNormal};
ghost use Rattle.mp_term.specs.Positions.{subterm};
ghost use Rattle.mp_term.specs.Replaced.{replaced};
ghost use Rattle.mp_pattern.specs.Admission.{Rule};
ghost use Rattle.mp_rewrite.specs.Computed as computed;
ghost use Rattle.mp_pattern.specs.Planned.{IsPlanned, planned_rule, rule_plan};
ghost use Rattle.mp_rewrite.specs.Rewritable.{AreRewriteRules, IsRewritable};
ghost use Rattle.mp_rewrite.specs.Made.{IsReady, redex_of};
ghost use Rattle.mp_rewrite.specs.Turn.{IsHere, IsMade, IsNextTurn, IsPutIn, IsTurn};
ghost use Rattle.mp_rewrite.specs.Within.{IsWhole, IsCounted};
ghost use Rattle.mp_rewrite.specs.MarkView.{mark_of};
ghost use Rattle.mp_rewrite.specs.Known.{IsKnown};

use crate::cancelled::{first_cancelled, make};
use crate::in_place::{Marked, put_in};
use crate::known::Known;
use crate::known_redex::{KnownRedex, first_known_redex};
use crate::redex::Redex;
use crate::stop::Stop;
use crate::valid::signature_is_valid;
use mp_pattern::PlannedRule;
use mp_subst::apply;
use mp_term::{
    Excess, MAX_DEPTH, MAX_TERM_NODES, Memory, Signature, Term, at, copy_term, depth, node_count,
};
use std::alloc::Global;

// What comes of the next step.
#[derive(Drop)]
pub(crate) enum Turn {
    // The term after it.
    Made(Marked),
    // The same term, of which no position is live.
    Ended(Term),
}

// Where rewriting of the term begins: a copy of it, of which nothing is known.
pub(crate) fn begin(alloc: Global, term: &Term) -> Result<Marked, Memory>
    ensures term { IfOk result (λ m. tree m.term ≡ tree term.now) }
    ensures here { IfOk result (λ m. (sig : Sig) (rules : List Rule) → IsRewritable sig (tree term.now)
        → IsHere sig rules m) }
{
    Ok(Marked {
        term: copy_term(alloc, term)?,
        known: Known::Nothing,
        nodes: node_count(term),
    })
}

// What is too large or too deep of a term of so many nodes in which a new term reaches so deep, where all else of it
// is within the limits.
fn excess_of(nodes: u64, reach: u64) -> Option<Excess>
    ensures { (t : Tree) → nodes ≡ node_count t → reach ≤ depth t → depth t ≤ max MAX_DEPTH reach
        → result ≡ excess (t ∷ []) }
{
    if MAX_TERM_NODES < nodes {
        Some(Excess::TooLarge { nodes })
    } else if MAX_DEPTH < reach {
        Some(Excess::TooDeep { depth: reach })
    } else {
        None
    }
}

// The nodes of the whole around the term, with a new one put in at the position, where that isn't too large or too
// deep.
pub(crate) fn nodes_within(
    into: &Marked,
    levels: u64,
    position: &[u32],
    new: &Term,
) -> Result<u64, Excess>
    requires few { node_count (tree new.now) ≤ MAX_TERM_NODES }
    requires shallow { depth (tree new.now) ≤ MAX_DEPTH }
    requires there { is_some (subterm (tree into.now.term) position.now) ≡ true }
    ensures { (w : Tree) (p : List ℕ)
        → IsWhole w p position.now levels (tree into.now.term) into.now.nodes
        → IsCounted (replaced (p ++ position.now) (tree new.now) w) result }
{
    let Some(old) = at(&into.term, position) else {
        unreachable!()
    };
    let nodes = into
        .nodes
        .saturating_sub(node_count(old))
        .saturating_add(node_count(new));
    let reach = depth(new)
        .saturating_add(position.len() as u64)
        .saturating_add(levels);
    match excess_of(nodes, reach) {
        Some(excess) => Err(excess),
        None => Ok(nodes),
    }
}

// The term with a normal one in place of the subterm at the position, in normal form, where that isn't too large or
// too deep before it is normalised.
fn put_in_within(
    alloc: Global,
    sig: &Signature,
    into: Marked,
    position: &[u32],
    new: Term,
) -> Result<Marked, Stop>
    requires normal { IsNormal sig.now (tree into.term) }
    requires shallow { depth (tree into.term) ≤ MAX_DEPTH }
    requires few { node_count (tree into.term) ≤ MAX_TERM_NODES }
    requires nodes { into.nodes ≡ node_count (tree into.term) }
    requires new { IsNormal sig.now (tree new) }
    requires new_few { node_count (tree new) ≤ MAX_TERM_NODES }
    requires new_shallow { depth (tree new) ≤ MAX_DEPTH }
    requires there { is_some (subterm (tree into.term) position.now) ≡ true }
    ensures put { IsPutIn sig.now (replaced position.now (tree new) (tree into.term)) result }
    ensures known { IfOk result (λ m. (rules : List Rule) → IsKnown sig.now rules (mark_of into.known) (tree into.term)
        → IsKnown sig.now rules (mark_of m.known) (tree m.term)) }
    ensures nodes { IfOk result (λ m. m.nodes ≡ node_count (tree m.term)) }
{
    let nodes = nodes_within(&into, 0, position, &new)?;
    let Marked { term, known, .. } = into;
    Ok(put_in(alloc, sig, Marked { term, known, nodes }, position, new)?)
}

// The term after the step that is made at the redex (`step_at` of `specs/Computed.antt`).
fn step_in_place(
    alloc: Global,
    sig: &Signature,
    into: Marked,
    redex: &Redex<'_>,
) -> Result<Marked, Stop>
    requires term { IsRewritable sig.now (tree into.term) }
    requires nodes { into.nodes ≡ node_count (tree into.term) }
    requires ready { IsReady sig.now (tree into.term) (redex_of redex.now) }
    ensures step { IsMade (computed.step_at sig.now (tree into.term) (redex_of redex.now)) result }
    ensures known { IfOk result (λ m. (rules : List Rule) → IsKnown sig.now rules (mark_of into.known) (tree into.term)
        → IsKnown sig.now rules (mark_of m.known) (tree m.term)) }
    ensures nodes { IfOk result (λ m. m.nodes ≡ node_count (tree m.term)) }
{
    let Some(template) = &redex.found.rule.template else {
        unreachable!()
    };
    let new = apply(alloc, sig, template, &redex.found.subst)?;
    put_in_within(alloc, sig, into, &redex.position, new)
}

// The next step of the term (`next_step` of `specs/Computed.antt`), and the term itself where no position is live.
pub(crate) fn take_turn(
    alloc: Global,
    sig: &Signature,
    rules: &[PlannedRule<'_>],
    here: Marked,
) -> Result<Turn, Stop>
    requires planned { AllByRecursion (IsPlanned sig.now) (map rule_plan rules.now) }
    requires rules { AreRewriteRules sig.now (map planned_rule rules.now) }
    requires here { IsHere sig.now (map planned_rule rules.now) here }
    ensures turn { IsTurn (computed.next_step sig.now (map planned_rule rules.now) (tree here.term)) here result }
    ensures here { IfOk result (IsNextTurn sig.now (map planned_rule rules.now)) }
{
    signature_is_valid(sig);
    if let Some(cancelled) = first_cancelled(sig, rules, &here.term) {
        let next = make(alloc, sig, here, &cancelled)?;
        return Ok(Turn::Made(next));
    }
    let Marked { term, known, nodes } = here;
    let Some(found) = first_known_redex(alloc, sig, rules, &term, known)? else {
        return Ok(Turn::Ended(term));
    };
    let KnownRedex { redex, known } = found;
    let into = Marked { term, known, nodes };
    let next = step_in_place(alloc, sig, into, &redex)?;
    Ok(Turn::Made(next))
}
