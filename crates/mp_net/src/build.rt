//! Nets: their states, one after the other.
ghost use Rattle.std.specs.Prelude.{◌≡◌, ◌≤◌, ◌+◌, ◌++◌, length, nat_le, IfOk, IfSome};
ghost use Rattle.std.specs.List.{filter_map};
ghost use Rattle.mp_net.specs.Items.{tables, opens, listed};
ghost use Rattle.mp_net.specs.Short.{AreShort};
ghost use Rattle.mp_net.specs.NetOf.{ended, IsNetOf};
ghost use Rattle.mp_net.specs.Entered.{led, number_of};
ghost use Rattle.mp_net.specs.declared.limits.TheConstants.{MAX_STATES};

use crate::item::{Item, first};
use crate::limits::MAX_STATES;
use crate::mark::Mark;
use crate::state::State;
use crate::turn::{Turn, turned};
use mp_term::Memory;
use std::alloc::Global;

// A net: a deterministic automaton over the preorder of a subject. It begins in its first state.
#[derive(Drop)]
pub(crate) struct Net<'a> {
    pub(crate) states: Vec<State<'a>>,
}

// The rules that ask nothing more.
fn accepted(alloc: Global, marks: &[Vec<Mark<'_>>], items: &[Item]) -> Result<Vec<u32>, Memory>
    ensures { IfOk result (λ v. v.items ≡ filter_map ended (opens (tables marks.now) items.now)) }
{
    let mut accepted = Vec::new(alloc);
    for item in items {
        if first(marks, *item).is_none() {
            accepted.push(item.rule)?;
        }
    }
    Ok(accepted)
}

// A state leads to no more states than there is room for.
fn fits(turn: &Turn<'_>, room: usize) -> bool
    ensures { result ≡ nat_le (length (led turn.now)) room }
{
    if turn.behind.is_empty() {
        turn.below.len() <= room
    } else {
        turn.below.len() < room
    }
}

// Adds the states that a state leads to behind those that there are, and answers the state.
fn enter<'a>(
    turn: Turn<'a>,
    accepted: Vec<u32>,
    rules: &mut Vec<Vec<Item>>,
) -> Result<State<'a>, Memory>
    requires { length rules.old.items + length (led turn) ≤ MAX_STATES }
    ensures rules { IfOk result (λ s. listed rules.new.items ≡ listed rules.old.items ++ led turn.entry) }
    ensures heads { IfOk result (λ s. s.heads.items ≡ turn.entry.heads.items) }
    ensures first { IfOk result (λ s. s.first ≡ length rules.old.items) }
    ensures other { IfOk result
        (λ s. s.other ≡ number_of (length rules.old.items + length turn.entry.below.items) turn.entry.behind.items) }
    ensures accepted { IfOk result (λ s. s.accepted.items ≡ accepted.items) }
{
    let Turn {
        heads,
        mut below,
        behind,
    } = turn;
    let first = rules.len() as u32;
    rules.append(&mut below)?;
    let other = if behind.is_empty() {
        None
    } else {
        let other = rules.len() as u32;
        rules.push(behind)?;
        Some(other)
    };
    Ok(State {
        heads,
        first,
        other,
        accepted,
    })
}

// The net of the rules, whose first state has them as they are. It is None only where it would have more than
// `MAX_STATES` states.
pub(crate) fn build_net<'a>(
    alloc: Global,
    marks: &[Vec<Mark<'a>>],
    start: Vec<Item>,
) -> Result<Option<Net<'a>>, Memory>
    requires { AreShort MAX_STATES (opens (tables marks.now) start.items) }
    ensures { IfOk result (λ o. IfSome o (IsNetOf (opens (tables marks.now) start.items))) }
{
    let mut rules = Vec::new(alloc);
    let mut states = Vec::new(alloc);
    rules.push(start)?;
    while states.len() < rules.len() {
        let items = &rules[states.len()];
        let turn = turned(alloc, marks, items)?;
        let accepted = accepted(alloc, marks, items)?;
        if !fits(&turn, MAX_STATES - rules.len()) {
            return Ok(None);
        }
        states.push(enter(turn, accepted, &mut rules)?)?;
    }
    Ok(Some(Net { states }))
}
