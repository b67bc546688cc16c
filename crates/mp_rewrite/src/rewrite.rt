//! One rewriting step, and as many as a limit allows.
ghost use Rattle.std.specs.Prelude.{IfOk, IfSome};
ghost use Rattle.mp_term.specs.View.{tree};
ghost use Rattle.mp_rewrite.specs.Answers.{IsStepAnswer, IsRewritingAnswer};
ghost use Rattle.mp_rewrite.specs.ComputedAnswers.{IsComputedStep, IsComputedRewriting};
ghost use Rattle.mp_rewrite.specs.Computed as computed;
ghost use Rattle.mp_rewrite.specs.Rewritable.{AreRewriteRules, IsRewritable};

use crate::fault::RewriteFault;
use crate::turn::{Turn, begin, take_turn};
use crate::turns::rewritten;
use crate::valid::signature_is_valid;
use mp_pattern::{Rules, plan_rules};
use mp_term::{Signature, Term};
use std::alloc::Global;

/// A term after rewriting.
#[derive(Drop)]
pub struct Rewritten {
    /// The last term.
    pub term: Term,
    /// How many steps were made.
    pub turns: u64,
    /// Whether the limit was reached and a position of the term is still live.
    pub more: bool,
}

/// One step of a term: at the first position in preorder at which a rule admits something, by the least such rule, with
/// the first substitution of its one-list there (`IsStep` of `specs/Step.antt`). The answer is the normal form of the
/// whole term after it, and None exactly where no position is live.
///
/// The rules are sound and each has a template (`AreRewriteRules` of `specs/Rewritable.antt`); the term is normal, well
/// formed and within the limits of a term (`IsRewritable`, there too), and so is the one after the step.
///
/// `TooLarge` and `TooDeep` come exactly where the instance of the template, or the term with the normal form of that
/// put in, has more nodes or is deeper than a term may be (`step_excess` of mp_pattern's `specs/Step.antt`); `turns` is
/// 0. `Memory` comes where there is no room. The term that was given stays as it is.
pub fn step(
    alloc: Global,
    sig: &Signature,
    rules: &Rules,
    term: &Term,
) -> Result<Option<Term>, RewriteFault>
    requires rules { AreRewriteRules sig.now rules.now }
    requires term { IsRewritable sig.now (tree term.now) }
    ensures answer { IsStepAnswer sig.now rules.now (tree term.now) result }
    ensures computed { IsComputedStep (computed.next_step sig.now rules.now (tree term.now)) result }
    ensures rewritable { IfOk result (λ o. IfSome o (λ u. IsRewritable sig.now (tree u))) }
{
    signature_is_valid(sig);
    let planned = plan_rules(alloc, sig, rules.as_slice())?;
    let here = begin(alloc, term)?;
    match take_turn(alloc, sig, &planned, here) {
        Ok(Turn::Made(next)) => Ok(Some(next.term)),
        Ok(Turn::Ended(_)) => Ok(None),
        Err(stop) => Err(stop.after(0)),
    }
}

/// Rewriting with a limit: step after step until no position is live or `max` steps are made (`IsRewriting` of
/// `specs/Rewriting.antt`). The answer has the last term, the number of steps, and whether the limit was reached at a
/// term of which a position is still live.
///
/// The conditions are those of `step`; the last term too is normal, well formed and within the limits of a term
/// (`IsRewritable` of `specs/Rewritable.antt`).
///
/// `TooLarge` and `TooDeep` come exactly where a step before the limit exceeds a size, as `step` tells, after `turns`
/// steps. `Memory` comes where there is no room. The term that was given stays as it is.
pub fn replace_all(
    alloc: Global,
    sig: &Signature,
    rules: &Rules,
    term: &Term,
    max: u64,
) -> Result<Rewritten, RewriteFault>
    requires rules { AreRewriteRules sig.now rules.now }
    requires term { IsRewritable sig.now (tree term.now) }
    ensures answer { IsRewritingAnswer sig.now rules.now max (tree term.now) result }
    ensures computed { IsComputedRewriting (computed.rewriting sig.now rules.now max (tree term.now)) result }
    ensures rewritable { IfOk result (λ r. IsRewritable sig.now (tree r.term)) }
{
    signature_is_valid(sig);
    let planned = plan_rules(alloc, sig, rules.as_slice())?;
    rewritten(alloc, sig, &planned, term, max)
}
