//! The tree of token lists, state by state.
ghost use Rattle.std.specs.Prelude.{◌≡◌, ◌<◌, ◌+◌, ◌^◌, [], ◌∷◌, ◌++◌, suc, length, take, drop, IfOk, OnOk};
ghost use Rattle.std.specs.Prelude.{None, Some, if◌then◌else◌};
ghost use Rattle.std.specs.List.{AllByRecursion};
ghost use Rattle.mp_many.specs.Groups.{left_at};
ghost use Rattle.mp_many.specs.GroupView.{numbers_of};
ghost use Rattle.mp_many.specs.Laid.{laid, unlinked, linked};
ghost use Rattle.mp_many.specs.TokenView.{read_token};

use crate::group::{Group, ended, groups_of};
use crate::lists::TokenLists;
use crate::token::to_net_token;
use mp_term::Memory;
use mp_walk::{Instr, Instrs, Numbers};
use std::alloc::Global;

// The number of the state that comes next. `Memory` comes where a `u32` can't hold it.
fn next_number(states: &Instrs) -> Result<u32, Memory>
    ensures { IfOk result (λ n. n ≡ suc (length states.now)) }
{
    if states.len() >= u32::MAX as usize {
        return Err(Memory);
    }
    Ok(states.len() as u32 + 1)
}

// Adds the state of a group, which leads nowhere yet; `place` is the place behind the group's token.
fn push_state(
    alloc: Global,
    lists: &TokenLists<'_>,
    group: &Group<'_, '_>,
    place: usize,
    states: &mut Instrs,
) -> Result<(), Memory>
    requires { AllByRecursion (λ n. n < length lists.now) (numbers_of group.now) }
    ensures { OnOk result (states.new ≡ states.old
        ++ unlinked (read_token group.now.token) (left_at lists.now place (numbers_of group.now)) ∷ []) }
{
    let token = to_net_token(alloc, &group.token)?;
    let accepts = ended(alloc, lists, group.numbers(), place)?;
    states.push(Instr {
        token,
        down: None,
        over: None,
        accepts,
    })
}

// Tells a state where it leads: down to the state behind it, where there is one, and over to the state that comes next,
// where more states come. `Memory` comes where a `u32` can't hold a number.
fn link_state(states: &mut Instrs, own: usize, more: bool) -> Result<(), Memory>
    requires { own < length states.old }
    ensures { OnOk result (states.new ≡ take own states.old ++ linked own more (drop own states.old)) }
{
    let behind = next_number(states)?;
    let down = if own + 1 < states.len() {
        Some(own as u32 + 2)
    } else {
        None
    };
    let over = if more { Some(behind) } else { None };
    states.link(own, down, over);
    Ok(())
}

// The number of the state behind the one that comes next, where there is one.
fn number_behind(states: &Instrs, more: bool) -> Result<Option<u32>, Memory>
    ensures { IfOk result (λ o. o ≡ (if more then Some (suc (suc (length states.now))) else None)) }
{
    let own = next_number(states)?;
    if !more {
        return Ok(None);
    }
    match own.checked_add(1) {
        None => Err(Memory),
        Some(behind) => Ok(Some(behind)),
    }
}

// What is accepted after a token of a list: its number where no token follows.
fn accepted(alloc: Global, number: u32, is_last: bool) -> Result<Numbers, Memory>
    ensures { IfOk result (λ ns. ns ≡ (if is_last then number ∷ [] else [])) }
{
    let mut accepts = Numbers::new(alloc);
    if is_last {
        accepts.push(number)?;
    }
    Ok(accepts)
}

// Adds the states of the one list of the number, of which the tokens from the place on are taken, and so many at most.
fn push_chain(
    alloc: Global,
    lists: &TokenLists<'_>,
    number: u32,
    place: usize,
    most: usize,
    states: &mut Instrs,
) -> Result<(), Memory>
    requires number { number < length lists.now }
    requires fits { place + most < 2 ^ 64 }
    ensures { OnOk result (states.new ≡ states.old
        ++ laid most (left_at lists.now place (number ∷ [])) (suc (length states.old))) }
{
    let count = lists.length(number);
    let end = count.min(place + most);
    for index in place..end {
        let token = to_net_token(alloc, &lists.at(number, index))?;
        let down = number_behind(states, index + 1 < end)?;
        let accepts = accepted(alloc, number, index + 1 == count)?;
        states.push(Instr {
            token,
            down,
            over: None,
            accepts,
        })?;
    }
    Ok(())
}

// Adds the states of the lists of the numbers, of which the tokens from the place on are taken, and so many at most.
pub(crate) fn push_states(
    alloc: Global,
    lists: &TokenLists<'_>,
    numbers: &[u32],
    place: usize,
    most: usize,
    states: &mut Instrs,
) -> Result<(), Memory>
    requires numbers { AllByRecursion (λ n. n < length lists.now) numbers.now }
    requires fits { place + most < 2 ^ 64 }
    ensures { OnOk result (states.new ≡ states.old
        ++ laid most (left_at lists.now place numbers.now) (suc (length states.old))) }
{
    if most == 0 {
        return Ok(());
    }
    if let [number] = numbers {
        return push_chain(alloc, lists, *number, place, most, states);
    }
    let groups = groups_of(alloc, lists, numbers, place)?;
    for (index, group) in groups.iter().enumerate() {
        let own = states.len();
        push_state(alloc, lists, group, place + 1, states)?;
        push_states(alloc, lists, group.numbers(), place + 1, most - 1, states)?;
        link_state(states, own, index + 1 < groups.len())?;
    }
    Ok(())
}
