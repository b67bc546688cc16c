//! The first rule that admits something on a term.
ghost use Rattle.std.specs.Prelude.{◌≡◌, ◌≤◌, map, option_map, IfOk};
ghost use Rattle.std.specs.List.{AllByRecursion};
ghost use Rattle.mp_term.specs.View.{tree};
ghost use Rattle.mp_term.specs.Size.{node_count};
ghost use Rattle.mp_term.specs.Normal.{IsNormal};
ghost use Rattle.mp_pattern.specs.Planned.{IsPlanned, planned_rule, rule_plan};
ghost use Rattle.mp_rewrite.specs.Computed as computed;
ghost use Rattle.mp_rewrite.specs.Matched.{match_of};

use crate::cancelled::cancelled_by;
use crate::taken::Found;
use mp_cursor::may_fit;
use mp_one::first_subst;
use mp_pattern::{MAX_TERM_NODES, PlannedRule, Rule};
use mp_subst::Subst;
use mp_term::{Memory, Signature, Term};
use std::alloc::Global;

// A rule, and a substitution that it admits on some term.
#[derive(Drop)]
pub(crate) struct Match<'a> {
    pub(crate) rule: &'a Rule,
    pub(crate) subst: Subst,
}

// The first substitution that the rule admits on the term. It isn't inlined: most rules don't fit most terms, and what
// a search needs on the stack would be made ready for each of them.
#[inline(never)]
fn search_rule<'a>(
    alloc: Global,
    sig: &Signature,
    planned: &PlannedRule<'a>,
    term: &Term,
) -> Result<Option<Match<'a>>, Memory>
    requires planned { IsPlanned sig.now (rule_plan planned.now) }
    requires normal { IsNormal sig.now (tree term.now) }
    requires few { node_count (tree term.now) ≤ MAX_TERM_NODES }
    ensures { IfOk result (λ m.
        option_map match_of m ≡ computed.rule_match sig.now (planned_rule planned.now) (tree term.now)) }
{
    if let Found::Nowhere = cancelled_by(sig, planned.rule, term) {
        return Ok(None);
    }
    match first_subst(alloc, sig, planned, term)? {
        None => Ok(None),
        Some(subst) => Ok(Some(Match {
            rule: planned.rule,
            subst,
        })),
    }
}

// The same, after a look at whether the rule fits at all.
fn match_rule<'a>(
    alloc: Global,
    sig: &Signature,
    planned: &PlannedRule<'a>,
    term: &Term,
) -> Result<Option<Match<'a>>, Memory>
    requires planned { IsPlanned sig.now (rule_plan planned.now) }
    requires normal { IsNormal sig.now (tree term.now) }
    requires few { node_count (tree term.now) ≤ MAX_TERM_NODES }
    ensures { IfOk result (λ m.
        option_map match_of m ≡ computed.rule_match sig.now (planned_rule planned.now) (tree term.now)) }
{
    if !may_fit(sig, &planned.rule.pattern, term) {
        return Ok(None);
    }
    search_rule(alloc, sig, planned, term)
}

// The least rule that admits something on the term, with the first substitution of its one-list there, and None where
// no rule admits anything (`first_match` of `specs/Computed.antt`). The term is normal and has at most `MAX_TERM_NODES`
// nodes. `Memory`: memory ran out, and nothing is left.
pub(crate) fn first_match<'a>(
    alloc: Global,
    sig: &Signature,
    rules: &[PlannedRule<'a>],
    term: &Term,
) -> Result<Option<Match<'a>>, Memory>
    requires planned { AllByRecursion (IsPlanned sig.now) (map rule_plan rules.now) }
    requires normal { IsNormal sig.now (tree term.now) }
    requires few { node_count (tree term.now) ≤ MAX_TERM_NODES }
    ensures { IfOk result (λ m.
        option_map match_of m ≡ computed.first_match sig.now (map planned_rule rules.now) (tree term.now)) }
{
    for rule in rules {
        if let Some(found) = match_rule(alloc, sig, rule, term)? {
            return Ok(Some(found));
        }
    }
    Ok(None)
}
