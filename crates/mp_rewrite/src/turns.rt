//! Steps made in place, as many as a limit allows.
ghost use Rattle.std.specs.Prelude.{map, IfOk};
ghost use Rattle.std.specs.List.{AllByRecursion};
ghost use Rattle.mp_term.specs.View.{tree};
ghost use Rattle.mp_rewrite.specs.ComputedAnswers.{IsComputedRewriting};
ghost use Rattle.mp_rewrite.specs.Computed as computed;
ghost use Rattle.mp_pattern.specs.Planned.{IsPlanned, planned_rule, rule_plan};
ghost use Rattle.mp_rewrite.specs.Rewritable.{AreRewriteRules, IsRewritable};

use crate::fault::RewriteFault;
use crate::in_place::Marked;
use crate::known_redex::first_known_redex;
use crate::rewrite::Rewritten;
use crate::run::run_on;
use crate::turn::{Turn, begin, take_turn};
use crate::valid::signature_is_valid;
use mp_pattern::PlannedRule;
use mp_term::{Signature, Term};
use std::alloc::Global;

// The rewriting of the term with at most `max` steps (`rewriting` of `specs/Computed.antt`). A step takes about as long
// as its position is deep and its new term large, with one look at each argument beside the way; the way begins below
// the arguments that no rule fits around whatever they are.
pub(crate) fn rewritten(
    alloc: Global,
    sig: &Signature,
    rules: &[PlannedRule<'_>],
    term: &Term,
    max: u64,
) -> Result<Rewritten, RewriteFault>
    requires planned { AllByRecursion (IsPlanned sig.now) (map rule_plan rules.now) }
    requires rules { AreRewriteRules sig.now (map planned_rule rules.now) }
    requires term { IsRewritable sig.now (tree term.now) }
    ensures computed { IsComputedRewriting
        (computed.rewriting sig.now (map planned_rule rules.now) max (tree term.now)) result }
    ensures rewritable { IfOk result (λ r. IsRewritable sig.now (tree r.term)) }
{
    signature_is_valid(sig);
    let mut here = begin(alloc, term)?;
    let mut turns = 0;
    while turns < max {
        let run = run_on(alloc, sig, rules, here, max - turns)?;
        if 0 < run.made {
            turns += run.made;
            here = run.here;
        } else {
            match take_turn(alloc, sig, rules, run.here) {
                Ok(Turn::Made(next)) => {
                    turns += 1;
                    here = next;
                }
                Ok(Turn::Ended(term)) => {
                    return Ok(Rewritten {
                        term,
                        turns,
                        more: false,
                    });
                }
                Err(stop) => return Err(stop.after(turns)),
            }
        }
    }
    let Marked { term, known, .. } = here;
    let more = first_known_redex(alloc, sig, rules, &term, known)?.is_some();
    Ok(Rewritten {
        term,
        turns: max,
        more,
    })
}
