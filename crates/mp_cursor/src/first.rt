//! The first substitution that a rule admits on a term.
ghost use Rattle.std.specs.Prelude.{◌≡◌, ◌≤◌, [], Some, None, true, List, length, option_map, slice_get, IfOk, IsTrue};
ghost use Rattle.mp_term.specs.View.{tree};
ghost use Rattle.mp_term.specs.Normal.{IsNormal};
ghost use Rattle.mp_term.specs.Size.{node_count};
ghost use Rattle.mp_pattern.specs.Lists.{IsOneList};
ghost use Rattle.mp_pattern.specs.Planned.{IsPlanned, planned_rule, rule_plan};
ghost use Rattle.mp_pattern.specs.RuleView.{rule_tree};
ghost use Rattle.mp_pattern.specs.Syntactic.{is_syntactic};
ghost use Rattle.mp_pattern.specs.Value as values;
ghost use Rattle.mp_pattern.specs.View.{pattern_tree};
ghost use Rattle.mp_subst.specs.View.{subst_of};
ghost use Rattle.mp_theory.specs.OneList.{one_list};
ghost use Rattle.mp_table.specs.Table.{subject_of};

use crate::cursor::Cursor;
use crate::cursor_room::CursorRoom;
use crate::direct::direct_subst;
use crate::root::may_fit;
use mp_pattern::{MAX_TERM_NODES, Plan, PlannedRule, Rule, is_syntactic};
use mp_subst::Subst;
use mp_table::Table;
use mp_term::{Memory, Signature, Term};
use std::alloc::Global;

/// A room for so many nodes and variables as the plan of a pattern has, and as wide as the table's subject has nodes,
/// which are at most `MAX_TERM_NODES`. `Memory` comes where there is no memory for it, and then nothing is left.
pub fn room_for(alloc: Global, plan: &Plan, table: &Table) -> Result<CursorRoom, Memory>
    requires { node_count (subject_of table.now) ≤ MAX_TERM_NODES }
    ensures nodes { IfOk result (λ r. r.nodes ≡ length plan.now.nodes) }
    ensures vars { IfOk result (λ r. r.vars ≡ length plan.now.variables) }
    ensures width { IfOk result (λ r. r.width ≡ node_count (subject_of table.now)) }
{
    CursorRoom::new(
        alloc,
        plan.len(),
        plan.vars(),
        table.nodes(table.root()) as u32,
    )
}

// Whether the rule has no condition, and a syntactic pattern: it admits one substitution at most.
fn is_direct(sig: &Signature, rule: &Rule) -> bool
    ensures free { IsTrue result → (rule_tree rule.now).condition ≡ None }
    ensures syntactic { IsTrue result → is_syntactic sig.now (pattern_tree rule.now.pattern) ≡ true }
{
    rule.condition.is_none() && is_syntactic(sig, &rule.pattern)
}

/// The first substitution of the one-list, which has the least take table of all that the rule admits on the subject,
/// and None exactly where the rule admits nothing there (`one_list` of mp_theory's `specs/OneList.antt`, `IsOneList` of
/// mp_pattern's `specs/Lists.antt`). The rule is planned (`IsPlanned` of mp_pattern's `specs/Planned.antt`), and the
/// subject is normal and has at most `MAX_TERM_NODES` nodes. `Memory`: memory ran out, and nothing is left.
pub fn first_subst(
    alloc: Global,
    sig: &Signature,
    planned: &PlannedRule<'_>,
    subject: &Term,
) -> Result<Option<Subst>, Memory>
    requires planned { IsPlanned sig.now (rule_plan planned.now) }
    requires normal { IsNormal sig.now (tree subject.now) }
    requires few { node_count (tree subject.now) ≤ MAX_TERM_NODES }
    ensures first { IfOk result (λ s.
        option_map subst_of s ≡ slice_get (one_list sig.now (planned_rule planned.now) (tree subject.now)) 0) }
    ensures exact { IfOk result (λ s. (ss : List values.Subst)
        × IsOneList sig.now (planned_rule planned.now) (tree subject.now) ss
        × (option_map subst_of s ≡ slice_get ss 0)) }
{
    if !may_fit(sig, planned.plan.pattern(), subject) {
        return Ok(None);
    }
    if is_direct(sig, planned.rule) {
        let found = direct_subst(alloc, sig, &planned.rule.pattern, subject)?;
        return Ok(found);
    }
    let table = Table::build(alloc, sig, subject, &planned.constants)?;
    let room = room_for(alloc, &planned.plan, &table)?;
    let mut cursor = Cursor::begin(room, sig, planned.rule, &planned.plan, &table);
    if !cursor.next() {
        return Ok(None);
    }
    Ok(Some(cursor.subst(alloc)?))
}
