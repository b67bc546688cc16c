//! How a search begins: the children that it goes through one by one, and the terms that these may take.
ghost use Rattle.std.specs.Prelude.{◌≡◌, ◌≤◌, length, IfOk, MatchOption, OnOk, List};
ghost use Rattle.mp_term.specs.Signature.{Sig};
ghost use Rattle.mp_term.specs.Size.{all_nodes};
ghost use Rattle.mp_pattern.specs.PatternTree.{Pattern as plain_pattern};
ghost use Rattle.mp_pattern.specs.Subpatterns.{subpatterns};
ghost use Rattle.mp_pattern.specs.View.{pattern_tree};
ghost use Rattle.mp_table.specs.Table.{HasRanks, IsTable, term_at, terms_at};
ghost use Rattle.mp_search.specs.Grounds.{AreGrounds};
ghost use Rattle.mp_ac.specs.Args as plain;
ghost use Rattle.mp_ac.specs.Begin.{AreNone, AreParts, IsBlocked};
ghost use Rattle.mp_ac.specs.Candidates.{IsNodeOf, given_terms};
ghost use Rattle.mp_ac.specs.CommPlan.{IsCommPlanOf, IsNumberedPattern, nodes_below};
ghost use Rattle.mp_ac.specs.CommPlans.{AreLeads, IsPrepared};
ghost use Rattle.mp_ac.specs.CommRoom.{IsOfTable, IsRoomFor};
ghost use Rattle.mp_ac.specs.Planned.{plan_of};
ghost use Rattle.mp_ac.specs.Seek.{ArePicksOf};
ghost use Rattle.mp_ac.specs.Store.{IsStoreOf};

use crate::comm_plan::CommPlan;
use crate::comm_plans::{CommPlans, Prepared};
use crate::node::Node;
use crate::planned::Planned;
use crate::room::CommRoom;
use crate::store::CommStore;
use mp_pattern::Pattern;
use mp_table::Table;
use mp_term::{Memory, Signature};
use std::alloc::Global;

// So many combinations of terms are gone through at most, child by child; where there may be more, a search looks
// ahead, over all children.
const FEW: usize = 256;

// How many combinations of their choices the leading children of these numbers may take, or more than few. It is 0
// only where one of them has no choice.
fn ways(
    store: &mut CommStore,
    table: &Table,
    plans: &CommPlans,
    node: Node<'_>,
    numbers: &[u32],
) -> Result<usize, Memory>
    requires table { IsTable table.now }
    requires node { IsNodeOf table.now node }
    requires numbers { (ps : List plain_pattern) × AreLeads plans.now numbers.now ps }
    requires store { IsStoreOf table.now plans.now store.old }
    ensures none { IfOk result (λ n. n ≡ 0 → (ps : List plain_pattern) → AreLeads plans.now numbers.now ps
        → IsBlocked table.now (given_terms (term_at table.now node.entry.node) node.entry.alone) ps) }
    ensures store { OnOk result (IsStoreOf table.now plans.now store.new) }
{
    let mut ways: usize = 1;
    for number in numbers {
        let (from, end) = store.candidates.choices(table, plans, node, *number)?;
        ways = ways.saturating_mul(end - from);
        if ways == 0 || ways > FEW {
            return Ok(ways);
        }
    }
    Ok(ways)
}

// Puts the choices of the leading children of these numbers into the room, and picks the first of each.
fn set_choices(
    store: &mut CommStore,
    table: &Table,
    plans: &CommPlans,
    node: Node<'_>,
    numbers: &[u32],
    room: &mut CommRoom,
) -> Result<(), Memory>
    requires table { IsTable table.now }
    requires node { IsNodeOf table.now node }
    requires numbers { (ps : List plain_pattern) × AreLeads plans.now numbers.now ps }
    requires store { IsStoreOf table.now plans.now store.old }
    requires room { IsOfTable table.now room.old }
    requires children { length numbers.now ≤ length room.old.picks.items }
    ensures store { OnOk result (IsStoreOf table.now plans.now store.new) }
    ensures room { OnOk result (IsOfTable table.now room.new) }
    ensures picks { OnOk result ((ps : List plain_pattern) → AreLeads plans.now numbers.now ps
        → ArePicksOf table.now (terms_at table.now (plain.args_of node.entry.args)) room.new.width
        room.new.choices.items ps room.new.picks.items) }
    ensures choices { OnOk result (HasRanks table.now room.new.choices.items) }
    ensures same { (room.new.width ≡ room.old.width) × (room.new.levels ≡ room.old.levels)
        × (room.new.grounds ≡ room.old.grounds) × (length room.new.picks.items ≡ length room.old.picks.items) }
{
    room.choices.clear();
    for (index, number) in numbers.iter().enumerate() {
        let (from, end) = store.candidates.choices(table, plans, node, *number)?;
        let start = room.choices.len();
        room.choices
            .extend_from_slice(&store.candidates.ranks()[from..end])?;
        let pick = &mut room.picks[index];
        pick.from = start;
        pick.end = start + (end - from);
        pick.at = start;
    }
    Ok(())
}

// The numbers of the leading children that a search goes through one by one, and the plan of the others: of all leading
// children where these may take few combinations of terms, and else of none. None says that there is no item.
pub(crate) fn parts<'a>(
    alloc: Global,
    store: &mut CommStore,
    sig: &Signature,
    plans: &'a CommPlans,
    prepared: Prepared,
    pattern: &Pattern,
    table: &Table,
    node: Node<'_>,
) -> Result<Option<(&'a [u32], Planned<'a>)>, Memory>
    requires table { IsTable table.now }
    requires pattern { IsNumberedPattern (pattern_tree pattern.now) }
    requires prepared { IsPrepared sig.now plans.now (pattern_tree pattern.now) prepared }
    requires node { IsNodeOf table.now node }
    requires store { IsStoreOf table.now plans.now store.old }
    ensures parts { IfOk result (λ o. MatchOption o
        (AreNone sig.now table.now (pattern_tree pattern.now)
        (given_terms (term_at table.now node.entry.node) node.entry.alone))
        (λ r. AreParts sig.now plans.now (pattern_tree pattern.now) r.0.now (plan_of r.1))) }
    ensures store { OnOk result (IsStoreOf table.now plans.now store.new) }
{
    let Some(tail) = plans.tail(prepared) else {
        unreachable!()
    };
    let numbers = plans.numbers_of(prepared);
    let ways = ways(store, table, plans, node, numbers)?;
    if ways == 0 {
        return Ok(None);
    }
    if ways <= FEW {
        return Ok(Some((numbers, Planned::Kept(tail))));
    }
    let whole = CommPlan::new(alloc, sig, pattern)?;
    Ok(Some((&numbers[..0], Planned::Own(whole))))
}

// A room with the terms that the children of these numbers may take, and with what is known of the plan's nodes.
pub(crate) fn room_for(
    alloc: Global,
    store: &mut CommStore,
    table: &Table,
    plans: &CommPlans,
    node: Node<'_>,
    numbers: &[u32],
    plan: &CommPlan,
) -> Result<CommRoom, Memory>
    requires table { IsTable table.now }
    requires node { IsNodeOf table.now node }
    requires numbers { (ps : List plain_pattern) × AreLeads plans.now numbers.now ps }
    requires plan { (sig : Sig) × IsCommPlanOf sig plan.now.plan.pattern plan.now }
    requires store { IsStoreOf table.now plans.now store.old }
    ensures room { IfOk result (IsRoomFor table.now 0 (nodes_below plan.now.plan.pattern)
        (all_nodes (terms_at table.now (plain.args_of node.entry.args)))) }
    ensures grounds { IfOk result (λ r. AreGrounds table.now (subpatterns plan.now.plan.pattern)
        r.grounds.list.items.items) }
    ensures choices { IfOk result (λ r. HasRanks table.now r.choices.items) }
    ensures picks { IfOk result (λ r. (ps : List plain_pattern) → AreLeads plans.now numbers.now ps
        → ArePicksOf table.now (terms_at table.now (plain.args_of node.entry.args)) r.width r.choices.items ps
        r.picks.items) }
    ensures store { OnOk result (IsStoreOf table.now plans.now store.new) }
{
    let width = table.nodes(node.node) as usize;
    let nodes = plan.nodes();
    let mut room = store.take_room(alloc, numbers.len(), nodes, width)?;
    set_choices(store, table, plans, node, numbers, &mut room)?;
    room.grounds.fill(table, plan.plan.pattern());
    Ok(room)
}
