//! The walk of a subject through a net.
ghost use Rattle.std.specs.Prelude.{◌≡◌, ℕ, ◌<◌, ◌≤◌, ◌+◌, ◌++◌, Some, true, length, map, IfOk, IfSome};
ghost use Rattle.std.specs.List.{AllByRecursion};
ghost use Rattle.mp_term.specs.Tree.{Tree, trees};
ghost use Rattle.mp_term.specs.Size.{node_count, all_nodes};
ghost use Rattle.mp_table.specs.Table.{term_at, terms_at, HasRank, HasRanks};
ghost use Rattle.mp_table.specs.Reading.{IsHeadOf};
ghost use Rattle.mp_table.specs.Subterms.{arguments};
ghost use Rattle.mp_net.specs.Net as plain;
ghost use Rattle.mp_net.specs.Net.{same_mark, edge_of, turn_at, head_of, run, runs, trace, traces};
ghost use Rattle.mp_net.specs.View.{mark_of, turn_of};
ghost use Rattle.mp_net.specs.NetOf.{IsState, IsNet};
ghost use Rattle.mp_net.specs.Probe.{more_reads};
ghost use Rattle.mp_net.specs.Walk.{visits, IsSeen};

use crate::build::Net;
use crate::mark::Mark;
use crate::probe::{Node, Probe};
use crate::state::State;
use mp_table::{Head, Rank};
use mp_term::Memory;

// A node that was read, with how many were read below it.
#[derive(Drop)]
pub(crate) struct Seen<'t> {
    pub(crate) rank: Rank,
    pub(crate) head: Head<'t>,
    pub(crate) inside: usize,
}

// The mark that asks for a node of that head with so many arguments.
fn asking<'t>(head: &Head<'t>, count: usize) -> Mark<'t>
    ensures mark { (t : Tree) → IsHeadOf head.now t → count ≡ length (arguments t) → mark_of result ≡ head_of t }
    ensures itself { same_mark (mark_of result) (mark_of result) ≡ true }
{
    match head {
        Head::Sym(name) => Mark::Named(*name),
        Head::App(op) => Mark::Entered(*op, count),
    }
}

// The state below a node of that head with so many arguments, where there is one.
fn below(state: &State<'_>, head: &Head<'_>, count: usize) -> Option<u32>
    requires { IsState state.now }
    ensures { (t : Tree) → IsHeadOf head.now t → count ≡ length (arguments t)
        → result ≡ edge_of (head_of t) (turn_of state.now).edges }
{
    state.below(&asking(head, count))
}

// The state of the number.
fn state_at<'n, 'a>(net: &'n Net<'a>, state: u32) -> &'n State<'a>
    requires net { IsNet net.now }
    requires state { state < length net.now.states.items }
    ensures turn { turn_at (map turn_of net.now.states.items) (Some state) ≡ turn_of result.now }
    ensures sound { IsState result.now }
    ensures below { (h : plain.Mark) (k : ℕ) → edge_of h (turn_of result.now).edges ≡ Some k
        → k < length net.now.states.items }
    ensures other { IfSome result.now.other (λ k. k < length net.now.states.items) }
{
    &net.states[state as usize]
}

// The state behind the subterm of the rank, from that state on; what is read is added to the trace.
#[cycle(visit)]
pub(crate) fn visit<'t>(
    net: &Net<'_>,
    probe: &mut Probe<'t>,
    rank: Rank,
    state: u32,
    seen: &mut Vec<Seen<'t>>,
) -> Result<Option<u32>, Memory>
    requires net { IsNet net.now }
    requires rank { HasRank probe.old.table rank }
    requires state { state < length net.now.states.items }
    requires seen { AllByRecursion (IsSeen probe.old.table) seen.old.items }
    ensures state { IfOk result
        (λ q. q ≡ run (map turn_of net.now.states.items) (term_at probe.old.table rank) (Some state)) }
    ensures trace { IfOk result (λ q. IfSome q (λ k. visits probe.old.table seen.new.items
        ≡ visits probe.old.table seen.old.items
        ++ trace (map turn_of net.now.states.items) (term_at probe.old.table rank) (Some state))) }
    ensures within { IfOk result (λ q. IfSome q (λ k. k < length net.now.states.items)) }
    ensures seen { AllByRecursion (IsSeen probe.old.table) seen.new.items }
    ensures table { probe.new.table ≡ probe.old.table }
    ensures least_reads { probe.old.reads ≤ probe.new.reads }
    ensures most_reads { probe.new.reads
        ≤ more_reads probe.old.reads (node_count (term_at probe.old.table rank)) }
{
    let Node { head, args } = probe.read(rank);
    let state = state_at(net, state);
    let below = below(state, &head, args.len());
    let here = seen.len();
    seen.push(Seen {
        rank,
        head,
        inside: 0,
    })?;
    let Some(first) = below else {
        return Ok(state.other);
    };
    let Some(behind) = visit_all(net, probe, args, first, seen)? else {
        return Ok(None);
    };
    seen[here].inside = seen.len() - here - 1;
    Ok(Some(behind))
}

// The state behind the subterms of the ranks.
#[cycle(visit)]
fn visit_all<'t>(
    net: &Net<'_>,
    probe: &mut Probe<'t>,
    ranks: &[Rank],
    first: u32,
    seen: &mut Vec<Seen<'t>>,
) -> Result<Option<u32>, Memory>
    requires net { IsNet net.now }
    requires ranks { HasRanks probe.old.table ranks.now }
    requires state { first < length net.now.states.items }
    requires seen { AllByRecursion (IsSeen probe.old.table) seen.old.items }
    ensures state { IfOk result
        (λ q. q ≡ runs (map turn_of net.now.states.items) (trees (terms_at probe.old.table ranks.now)) (Some first)) }
    ensures trace { IfOk result (λ q. IfSome q (λ k. visits probe.old.table seen.new.items
        ≡ visits probe.old.table seen.old.items
        ++ traces (map turn_of net.now.states.items) (trees (terms_at probe.old.table ranks.now)) (Some first))) }
    ensures within { IfOk result (λ q. IfSome q (λ k. k < length net.now.states.items)) }
    ensures seen { AllByRecursion (IsSeen probe.old.table) seen.new.items }
    ensures table { probe.new.table ≡ probe.old.table }
    ensures least_reads { probe.old.reads ≤ probe.new.reads }
    ensures most_reads { probe.new.reads
        ≤ more_reads probe.old.reads (all_nodes (terms_at probe.old.table ranks.now)) }
{
    // The number of reads is asked for what holds of it.
    let _ = probe.reads();
    let [rank, rest @ ..] = ranks else {
        return Ok(Some(first));
    };
    let Some(next) = visit(net, probe, *rank, first, seen)? else {
        return Ok(None);
    };
    visit_all(net, probe, rest, next, seen)
}
