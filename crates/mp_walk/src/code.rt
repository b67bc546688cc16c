//! Tables of instructions that are ready to be walked.
ghost use Rattle.std.specs.Prelude.{◌≡◌, ◌≤◌, ◌++◌, List, [], ◌∷◌, length, map, IfOk, IfSome, option_map};
ghost use Rattle.std.specs.List.{AllByRecursion};
ghost use Rattle.mp_term.specs.Signature.{Sig};
ghost use Rattle.mp_pattern.specs.NetTokenView.{net_token};
ghost use Rattle.mp_pattern.specs.Size.{pattern_nodes};
ghost use Rattle.mp_pattern.specs.View.{pattern_tree};
ghost use Rattle.mp_pattern.specs.declared.limits.TheConstants.{MAX_PATTERN_NODES};
ghost use Rattle.mp_ac.specs.CommPlans.{ArePlans};
ghost use Rattle.mp_walk.specs.Code.{IsPlanned, ArePlanned, IsCode, plan_at};
ghost use Rattle.mp_walk.specs.CodeForest.{code_forest};
ghost use Rattle.mp_walk.specs.Instrs as plain;
ghost use Rattle.mp_walk.specs.Instrs.{accepts_at, instr_at};
ghost use Rattle.mp_walk.specs.InstrView.{plain_instr};
ghost use Rattle.mp_walk.specs.Keys.{instr_key};
ghost use Rattle.mp_walk.specs.Rooms.{forest_room, room_at, token_room};
ghost use Rattle.mp_walk.specs.SoundTokens.{IsSoundToken, token_nodes};
ghost use Rattle.mp_walk.specs.Walkable.{IsWalkable};

use crate::instr::{Instr, Instrs};
use crate::key::{InstrKey, keys_of};
use mp_ac::{CommPlans, Prepared};
use mp_pattern::{NetToken, Pattern};
use mp_term::{Memory, Signature};
use std::alloc::Global;

// The patterns of the tokens of commutative applications, prepared in order, and for each instruction the number of its
// pattern, from 1: 0 where it has none.
#[derive(Drop)]
pub(crate) struct Plans {
    pub(crate) numbers: Vec<u32>,
    pub(crate) plans: CommPlans,
}

/// A table of instructions that is ready to be walked: the pattern of each token of a commutative application is
/// prepared. `IsCode` of `specs/Code.antt` says over which signature.
// With it go the keys of the instructions, since what is passed over need not be looked at as a whole, and how much of
// a trail's room a walk takes at most, beside the terms of its subject.
#[derive(Drop)]
pub struct Code {
    pub(crate) instrs: Instrs,
    pub(crate) plans: Plans,
    pub(crate) keys: Vec<InstrKey>,
    pub(crate) room: u32,
}

impl Plans {
    // Adds the next instruction, which has this token, and prepares its pattern, where it has one.
    fn add(&mut self, alloc: Global, sig: &Signature, token: &NetToken) -> Result<(), Memory>
        requires sound { IsSoundToken sig.now (net_token token.now) }
        requires plans { ArePlans sig.now self.old.plans }
        ensures { IfOk result (λ _. (is : List plain.Instr) (i : plain.Instr) → i.token ≡ net_token token.now
            → ArePlanned sig.now is self.old → ArePlanned sig.now (is ++ i ∷ []) self.new) }
    {
        let NetToken::Comm(pattern) = token else {
            self.numbers.push(0)?;
            return Ok(());
        };
        if self.plans.len() >= u32::MAX as usize {
            return Err(Memory);
        }
        self.numbers.push(self.plans.len() as u32 + 1)?;
        self.plans.add(alloc, sig, pattern)?;
        Ok(())
    }

    // What is prepared of the pattern of the instruction of the number, from 1.
    fn at(&self, number: usize) -> Option<Prepared>
        ensures { result ≡ plan_at self.now.numbers.items self.now.plans.list.items number }
    {
        if number == 0 {
            return None;
        }
        let plan = *self.numbers.get(number - 1)?;
        if plan == 0 {
            return None;
        }
        self.plans.at(plan as usize - 1)
    }
}

// How many nodes a pattern has.
fn node_count(pattern: &Pattern) -> u32
    requires { pattern_nodes (pattern_tree pattern.now) ≤ MAX_PATTERN_NODES }
    ensures { result ≡ pattern_nodes (pattern_tree pattern.now) }
{
    let Pattern::App(_, children) = pattern else {
        return 1;
    };
    let mut count: u32 = 1;
    for child in children.as_slice() {
        count += node_count(child);
    }
    count
}

// What a token takes of a trail's room at most, beside the terms that it takes.
fn token_room(token: &NetToken) -> u32
    requires { token_nodes (net_token token.now) ≤ MAX_PATTERN_NODES }
    ensures { result ≡ token_room (net_token token.now) }
{
    match token {
        NetToken::Sym(_) | NetToken::Enter(_) | NetToken::Leave(_) => 0,
        NetToken::Comm(pattern) => 3 * (node_count(pattern) - 1),
        _ => 3,
    }
}

// What is read from the target on takes at most, where that of each instruction is given.
fn room_at(rooms: &[u32], target: Option<u32>) -> u32
    requires { IfSome target (λ n. (1 ≤ n) × (n ≤ length rooms.now)) }
    ensures { result ≡ room_at rooms.now target }
{
    match target {
        Some(number) => rooms[number as usize - 1],
        None => 0,
    }
}

// What is read over the instructions takes of a trail's room at most, beside the subject's terms.
fn room_of(alloc: Global, sig: &Signature, instrs: &Instrs) -> Result<u32, Memory>
    requires { IsWalkable sig.now instrs.now }
    ensures { IfOk result (λ n. n ≡ forest_room (code_forest instrs.now)) }
{
    let _ = sig;
    let mut rooms = Vec::from_elem(alloc, 0, instrs.len())?;
    let mut left = instrs.len();
    while left > 0 {
        left -= 1;
        let Some(instr) = instrs.get(left) else {
            unreachable!()
        };
        let below = token_room(&instr.token) + room_at(&rooms, instr.down);
        rooms[left] = below.max(room_at(&rooms, instr.over));
    }
    Ok(match rooms.first() {
        Some(room) => *room,
        None => 0,
    })
}

// The patterns of the instructions, prepared.
fn plans_of(alloc: Global, sig: &Signature, instrs: &[Instr]) -> Result<Plans, Memory>
    requires { AllByRecursion (λ i. IsSoundToken sig.now i.token) (map plain_instr instrs.now) }
    ensures { IfOk result (ArePlanned sig.now (map plain_instr instrs.now)) }
{
    let numbers = Vec::with_capacity(alloc, instrs.len())?;
    let mut plans = Plans {
        numbers,
        plans: CommPlans::new(alloc),
    };
    for instr in instrs {
        plans.add(alloc, sig, &instr.token)?;
    }
    Ok(plans)
}

impl Code {
    /// The table of the instructions, which must be such that they may be walked over the signature (`IsWalkable` of
    /// `specs/Walkable.antt`). `Memory` comes where there is no room for what is prepared of them, or where 32 bits
    /// can't number the patterns of their tokens.
    pub fn new(alloc: Global, sig: &Signature, instrs: Instrs) -> Result<Code, Memory>
        requires { IsWalkable sig.now instrs }
        ensures instrs { IfOk result (λ c. c.instrs ≡ instrs) }
        ensures planned { IfOk result (IsCode sig.now) }
    {
        let plans = plans_of(alloc, sig, instrs.as_slice())?;
        let keys = keys_of(alloc, instrs.as_slice())?;
        let room = room_of(alloc, sig, &instrs)?;
        Ok(Code {
            instrs,
            plans,
            keys,
            room,
        })
    }

    /// The number of the instructions.
    pub fn len(&self) -> usize
        ensures { result ≡ length self.now.instrs }
    {
        self.instrs.len()
    }

    /// The instructions.
    pub fn instrs(&self) -> &Instrs
        ensures { result.now ≡ self.now.instrs }
    {
        &self.instrs
    }

    // The patterns of all tokens of commutative applications, prepared together.
    pub(crate) fn comm_plans(&self) -> &CommPlans
        ensures { result.now ≡ self.now.plans.plans }
    {
        &self.plans.plans
    }

    // What is prepared of the token of the instruction of the number, where that is one of a commutative application.
    pub(crate) fn prepared(&self, number: u32) -> Option<Prepared>
        ensures { (sig : Sig) (i : plain.Instr) → IsCode sig self.now → instr_at self.now.instrs number ≡ Some i
            → IsPlanned sig self.now.plans.plans i.token result }
    {
        self.plans.at(number as usize)
    }

    // What is seen of the instruction of the number at a glance.
    pub(crate) fn key(&self, number: u32) -> Option<InstrKey>
        ensures { (sig : Sig) → IsCode sig self.now → option_map instr_key (instr_at self.now.instrs number) ≡ result }
    {
        if number == 0 {
            return None;
        }
        self.keys.get(number as usize - 1).copied()
    }

    /// The instruction of the number, from 1. It is None exactly where there is none.
    pub fn instr(&self, number: u32) -> Option<&Instr>
        ensures { instr_at self.now.instrs number ≡ option_map (λ i. plain_instr i.now) result }
    {
        if number == 0 {
            return None;
        }
        self.instrs.get(number as usize - 1)
    }

    /// The rules that the instruction of the number accepts, from 1 (`accepts_at` of `specs/Instrs.antt`): none where
    /// there is no such instruction.
    pub fn accepts(&self, number: u32) -> &[u32]
        ensures { result.now ≡ accepts_at self.now.instrs number }
    {
        match self.instr(number) {
            None => &[],
            Some(instr) => instr.accepts.as_slice(),
        }
    }
}
