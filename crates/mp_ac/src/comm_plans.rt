//! Patterns of commutative operations that are prepared together.
ghost use Rattle.std.specs.Prelude.{◌≡◌, ◌<◌, ◌≤◌, ◌++◌, [], ◌∷◌, ℕ, List, true, map, take, drop, length, slice_get};
ghost use Rattle.std.specs.Prelude.{IfOk, OnOk, IsTrue, option_map};
ghost use Rattle.std.specs.List.{AllByRecursion};
ghost use Rattle.mp_term.specs.Listing.{In};
ghost use Rattle.mp_term.specs.Signature.{Sig};
ghost use Rattle.mp_pattern.specs.PatternTree as plain;
ghost use Rattle.mp_pattern.specs.PatternTree.{app_pattern, patterns};
ghost use Rattle.mp_pattern.specs.Variables.{variables};
ghost use Rattle.mp_pattern.specs.View.{pattern_tree};
ghost use Rattle.mp_pattern.specs.declared.pattern.Pattern as declared;
ghost use Rattle.mp_ac.specs.CommPlan.{IsNumbered, IsNumberedPattern};
ghost use Rattle.mp_ac.specs.CommPlans.{AreAdded, ArePlans, AreTails, IsLast, IsLed, IsPrepared, child_at};
ghost use Rattle.mp_ac.specs.TakesOne.{takes_one};
ghost use Rattle.mp_ac.specs.declared.comm_plan.CommPlan as plan;

use crate::comm_plan::CommPlan;
use crate::digest::digest;
use crate::syntactic::leading;
use mp_pattern::{Pattern, Patterns, copy_pattern};
use mp_term::{Memory, OpId, Signature};
use std::alloc::Global;

// How many slots there are for numbers, and how many of them are looked at for one child.
const SLOTS: usize = 4096;

const PROBES: usize = 64;

// A leading child and the one behind it, if there is one, by the numbers of children.
#[derive(Clone, Copy)]
pub(crate) struct Lead {
    pub(crate) child: u32,
    pub(crate) next: Option<u32>,
}

/// A commutative pattern that is prepared: where the numbers of its leading children stand, how many there are, and
/// the number of the plan of the others.
#[derive(Clone, Copy)]
pub struct Prepared {
    pub(crate) from: usize,
    pub(crate) count: usize,
    pub(crate) tail: usize,
}

/// Patterns of commutative operations that are prepared together. A leading child is one that takes one term, in one
/// way at most; equal ones of several patterns are mostly kept once, and so are equal ones in front of equal ones.
/// `IsPrepared` of `specs/CommPlans.antt` says what is known of a pattern.
// The slots hold the numbers of children, and of those with the next ones, from 1, by their digests. They only help to
// find one.
#[derive(Drop)]
pub struct CommPlans {
    pub(crate) children: Vec<Pattern>,
    pub(crate) slots: Vec<u32>,
    pub(crate) leads: Vec<Lead>,
    pub(crate) lead_slots: Vec<u32>,
    pub(crate) numbers: Vec<u32>,
    pub(crate) tails: Vec<CommPlan>,
    pub(crate) list: Vec<Prepared>,
}

// Puts a number into the slot. The slots are made where there are none yet.
fn put(alloc: Global, slots: &mut Vec<u32>, slot: usize, number: u32) -> Result<(), Memory> {
    if slots.is_empty() {
        *slots = Vec::from_elem(alloc, 0, SLOTS)?;
    }
    if slot < slots.len() {
        slots[slot] = number;
    }
    Ok(())
}

// The slot for the number of a lead.
fn lead_slot(lead: Lead) -> usize
    ensures { result < SLOTS }
{
    let next = match lead.next {
        None => 0,
        Some(number) => u64::from(number) + 1,
    };
    ((u64::from(lead.child) * 67 + next) % SLOTS as u64) as usize
}

// The leads are the same.
fn is_lead(own: Lead, lead: Lead) -> bool
    ensures { IsTrue result → own ≡ lead }
{
    own.child == lead.child && own.next == lead.next
}

// The two lists have the same patterns.
fn are_same(list: &[Pattern], other: &[Pattern]) -> bool
    ensures { IsTrue result → map pattern_tree list.now ≡ map pattern_tree other.now }
{
    if list.len() != other.len() {
        return false;
    }
    for (i, pattern) in list.iter().enumerate() {
        if *pattern != other[i] {
            return false;
        }
    }
    true
}

// The pattern is that of the operation and the children.
fn is_of(pattern: &Pattern, op: OpId, children: &[Pattern]) -> bool
    ensures { IsTrue result → pattern_tree pattern.now ≡ app_pattern op.0 (patterns (map pattern_tree children.now)) }
{
    match pattern {
        Pattern::App(own, list) => own.0 == op.0 && are_same(list.as_slice(), children),
        _ => false,
    }
}

// The operation with copies of the children.
fn applied(alloc: Global, op: OpId, children: &[Pattern]) -> Result<Pattern, Memory>
    ensures { IfOk result (λ p. pattern_tree p ≡ app_pattern op.0 (patterns (map pattern_tree children.now))) }
{
    let mut copies = Patterns::with_room(alloc, children.len())?;
    for child in children {
        copies.push(copy_pattern(alloc, child)?)?;
    }
    Ok(Pattern::App(op, copies))
}

// Sees to it that the last plan is that of the operation and the children, and answers whether they have one.
fn add_tail(
    alloc: Global,
    sig: &Signature,
    tails: &mut Vec<CommPlan>,
    op: OpId,
    children: &[Pattern],
) -> Result<bool, Memory>
    requires tails { AreTails sig.now tails.old.items }
    requires names { (x : List ℕ) → In x (variables (app_pattern op.0 (patterns (map pattern_tree children.now))))
        → IsNumbered x }
    ensures tails { OnOk result (AreTails sig.now tails.new.items) }
    ensures more { OnOk result ((cs : List plan.CommPlan) × (tails.new.items ≡ tails.old.items ++ cs)) }
    ensures last { IfOk result (λ b. IsTrue b
        → IsLast sig.now tails.new.items (app_pattern op.0 (patterns (map pattern_tree children.now)))) }
{
    if let Some(last) = tails.last()
        && is_of(last.plan.pattern(), op, children)
    {
        return Ok(true);
    }
    let pattern = applied(alloc, op, children)?;
    match CommPlan::planned(alloc, sig, &pattern)? {
        None => Ok(false),
        Some(plan) => {
            tails.push(plan)?;
            Ok(true)
        }
    }
}

// So many leading children there may be at most: of more, the candidates of one tell too much of those of another, and
// a search that looks ahead, over all children, serves better.
const MOST: usize = 4;

// How many of the children, from the first one on, take one term each: none where they are many.
fn few_leading(sig: &Signature, children: &[Pattern]) -> usize
    ensures within { result ≤ length children.now }
    ensures each { AllByRecursion (λ p. takes_one sig.now p ≡ true) (take result (map pattern_tree children.now)) }
{
    let count = leading(sig, children);
    if count > MOST { 0 } else { count }
}

// Sees to it that the last plan is that of the children behind the leading ones, and answers how many these are: none
// where the others have no plan of their own.
fn set_tail(
    alloc: Global,
    sig: &Signature,
    tails: &mut Vec<CommPlan>,
    pattern: &Pattern,
    op: OpId,
    children: &[Pattern],
) -> Result<usize, Memory>
    requires pattern { IsNumberedPattern (pattern_tree pattern.now) }
    requires children { pattern_tree pattern.now ≡ app_pattern op.0 (patterns (map pattern_tree children.now)) }
    requires tails { AreTails sig.now tails.old.items }
    ensures tails { OnOk result (AreTails sig.now tails.new.items) }
    ensures more { OnOk result ((cs : List plan.CommPlan) × (tails.new.items ≡ tails.old.items ++ cs)) }
    ensures led { IfOk result (IsLed sig.now tails.new.items op.0 (map pattern_tree children.now)) }
{
    let count = few_leading(sig, children);
    if add_tail(alloc, sig, tails, op, &children[count..])? {
        return Ok(count);
    }
    tails.push(CommPlan::new(alloc, sig, pattern)?)?;
    Ok(0)
}

impl CommPlans {
    /// No pattern. It takes no memory.
    pub fn new(alloc: Global) -> CommPlans
        ensures none { result.list.items ≡ [] }
        ensures plans { (sig : Sig) → ArePlans sig result }
    {
        CommPlans {
            children: Vec::new(alloc),
            slots: Vec::new(alloc),
            leads: Vec::new(alloc),
            lead_slots: Vec::new(alloc),
            numbers: Vec::new(alloc),
            tails: Vec::new(alloc),
            list: Vec::new(alloc),
        }
    }

    /// How many patterns there are.
    pub fn len(&self) -> usize
        ensures { result ≡ length self.now.list.items }
    {
        self.list.len()
    }

    /// What is prepared of the pattern of the number, from 0. It is None exactly where there is none.
    pub fn at(&self, number: usize) -> Option<Prepared>
        ensures { result ≡ slice_get self.now.list.items number }
    {
        match self.list.get(number) {
            None => None,
            Some(prepared) => Some(*prepared),
        }
    }

    // The child of the number, from 0.
    fn child(&self, number: u32) -> Option<&Pattern>
        ensures { option_map (λ p. pattern_tree p.now) result ≡ child_at self.now number }
    {
        self.children.get(number as usize)
    }

    // The child of the number is this one.
    fn is_child(&self, number: u32, child: &Pattern) -> bool
        ensures { IsTrue result → child_at self.now number ≡ Some (pattern_tree child.now) }
    {
        match self.child(number) {
            None => false,
            Some(own) => *own == *child,
        }
    }

    // The number of the child, or a slot for it.
    fn find(&self, child: &Pattern) -> Result<u32, usize>
        ensures { IfOk result (λ n. child_at self.now n ≡ Some (pattern_tree child.now)) }
    {
        let start = (digest(0, child) % SLOTS as u64) as usize;
        for step in 0..PROBES {
            let slot = (start + step) % SLOTS;
            let Some(number) = self.slots.get(slot) else {
                return Err(slot);
            };
            if *number == 0 {
                return Err(slot);
            }
            if self.is_child(*number - 1, child) {
                return Ok(*number - 1);
            }
        }
        Err(start)
    }

    // The number of a new child, which the slot then holds.
    fn new_child(&mut self, alloc: Global, child: &Pattern, slot: usize) -> Result<u32, Memory>
        ensures children { IfOk result (λ n. (c : declared.Pattern) × (pattern_tree c ≡ pattern_tree child.now)
            × (n ≡ length self.old.children.items)
            × (self.new.children.items ≡ self.old.children.items ++ c ∷ [])) }
        ensures leads { self.new.leads ≡ self.old.leads }
        ensures numbers { self.new.numbers ≡ self.old.numbers }
        ensures tails { self.new.tails ≡ self.old.tails }
        ensures list { self.new.list ≡ self.old.list }
    {
        let number = self.children.len();
        if number >= u32::MAX as usize {
            return Err(Memory);
        }
        self.children.push(copy_pattern(alloc, child)?)?;
        put(alloc, &mut self.slots, slot, number as u32 + 1)?;
        Ok(number as u32)
    }

    // The number of a child, which is new where it isn't found.
    fn number(&mut self, alloc: Global, child: &Pattern) -> Result<u32, Memory>
        ensures children { OnOk result ((cs : List declared.Pattern)
            × (self.new.children.items ≡ self.old.children.items ++ cs)) }
        ensures number { IfOk result (λ n. child_at self.new n ≡ Some (pattern_tree child.now)) }
        ensures leads { self.new.leads ≡ self.old.leads }
        ensures numbers { self.new.numbers ≡ self.old.numbers }
        ensures tails { self.new.tails ≡ self.old.tails }
        ensures list { self.new.list ≡ self.old.list }
    {
        match self.find(child) {
            Ok(number) => Ok(number),
            Err(slot) => self.new_child(alloc, child, slot),
        }
    }

    // The number of the lead, or a slot for it.
    fn find_lead(&self, lead: Lead) -> Result<u32, usize>
        ensures { IfOk result (λ n. slice_get self.now.leads.items n ≡ Some lead) }
    {
        let start = lead_slot(lead);
        for step in 0..PROBES {
            let slot = (start + step) % SLOTS;
            let Some(number) = self.lead_slots.get(slot) else {
                return Err(slot);
            };
            if *number == 0 {
                return Err(slot);
            }
            if let Some(own) = self.leads.get(*number as usize - 1)
                && is_lead(*own, lead)
            {
                return Ok(*number - 1);
            }
        }
        Err(start)
    }

    // The number of a new lead, which the slot then holds.
    fn new_lead(&mut self, alloc: Global, lead: Lead, slot: usize) -> Result<u32, Memory>
        ensures leads { IfOk result (λ n. (n ≡ length self.old.leads.items)
            × (self.new.leads.items ≡ self.old.leads.items ++ lead ∷ [])) }
        ensures children { self.new.children ≡ self.old.children }
        ensures numbers { self.new.numbers ≡ self.old.numbers }
        ensures tails { self.new.tails ≡ self.old.tails }
        ensures list { self.new.list ≡ self.old.list }
    {
        let number = self.leads.len();
        if number >= u32::MAX as usize {
            return Err(Memory);
        }
        self.leads.push(lead)?;
        put(alloc, &mut self.lead_slots, slot, number as u32 + 1)?;
        Ok(number as u32)
    }

    // The number of a lead, which is new where it isn't found.
    fn lead_number(&mut self, alloc: Global, lead: Lead) -> Result<u32, Memory>
        ensures leads { OnOk result ((ls : List Lead) × (self.new.leads.items ≡ self.old.leads.items ++ ls)) }
        ensures number { IfOk result (λ n. slice_get self.new.leads.items n ≡ Some lead) }
        ensures children { self.new.children ≡ self.old.children }
        ensures numbers { self.new.numbers ≡ self.old.numbers }
        ensures tails { self.new.tails ≡ self.old.tails }
        ensures list { self.new.list ≡ self.old.list }
    {
        match self.find_lead(lead) {
            Ok(number) => Ok(number),
            Err(slot) => self.new_lead(alloc, lead, slot),
        }
    }

    // Adds the number of a lead.
    fn add_lead(&mut self, alloc: Global, lead: Lead) -> Result<(), Memory>
        ensures leads { OnOk result ((ls : List Lead) × (self.new.leads.items ≡ self.old.leads.items ++ ls)) }
        ensures numbers { OnOk result ((n : ℕ) × (self.new.numbers.items ≡ self.old.numbers.items ++ n ∷ [])
            × (slice_get self.new.leads.items n ≡ Some lead)) }
        ensures children { self.new.children ≡ self.old.children }
        ensures tails { self.new.tails ≡ self.old.tails }
        ensures list { self.new.list ≡ self.old.list }
    {
        let number = self.lead_number(alloc, lead)?;
        self.numbers.push(number)?;
        Ok(())
    }

    // Adds the numbers of the child of the number and of those behind it, as leading children.
    fn add_from(&mut self, alloc: Global, child: u32, later: &[Pattern]) -> Result<(), Memory>
        ensures { OnOk result ((p : plain.Pattern) → child_at self.old child ≡ Some p
            → AreAdded self.old self.new (p ∷ map pattern_tree later.now)) }
    {
        let [first, rest @ ..] = later else {
            return self.add_lead(alloc, Lead { child, next: None });
        };
        let number = self.number(alloc, first)?;
        let next = Some(number);
        self.add_lead(alloc, Lead { child, next })?;
        self.add_from(alloc, number, rest)
    }

    // Adds the numbers of the leading children.
    fn add_leads(&mut self, alloc: Global, children: &[Pattern]) -> Result<(), Memory>
        ensures { OnOk result (AreAdded self.old self.new (map pattern_tree children.now)) }
    {
        let [first, later @ ..] = children else {
            return Ok(());
        };
        let number = self.number(alloc, first)?;
        self.add_from(alloc, number, later)
    }

    /// Prepares a pattern behind the others, whose variables are named by their numbers in a trail. The signature is
    /// the same for all patterns. `Memory` comes where there is no memory for it.
    pub fn add(&mut self, alloc: Global, sig: &Signature, pattern: &Pattern) -> Result<(), Memory>
        requires pattern { IsNumberedPattern (pattern_tree pattern.now) }
        requires plans { ArePlans sig.now self.old }
        ensures plans { OnOk result (ArePlans sig.now self.new) }
        ensures kept { OnOk result ((p : plain.Pattern) (r : Prepared) → IsPrepared sig.now self.old p r
            → IsPrepared sig.now self.new p r) }
        ensures added { OnOk result ((r : Prepared) × (self.new.list.items ≡ self.old.list.items ++ r ∷ [])
            × IsPrepared sig.now self.new (pattern_tree pattern.now) r) }
    {
        let Pattern::App(op, children) = pattern else {
            unreachable!()
        };
        let children = children.as_slice();
        let count = set_tail(alloc, sig, &mut self.tails, pattern, *op, children)?;
        let from = self.numbers.len();
        self.add_leads(alloc, &children[..count])?;
        let tail = self.tails.len() - 1;
        self.list.push(Prepared { from, count, tail })?;
        Ok(())
    }

    // The plan of the children behind the leading ones.
    pub(crate) fn tail(&self, prepared: Prepared) -> Option<&CommPlan>
        ensures { option_map (λ c. c.now) result ≡ slice_get self.now.tails.items prepared.tail }
    {
        self.tails.get(prepared.tail)
    }

    // The numbers of the leading children, each with the next one (`IsLead` of `specs/CommPlans.antt`).
    pub(crate) fn numbers_of(&self, prepared: Prepared) -> &[u32]
        requires { (sig : Sig) × (p : plain.Pattern) × IsPrepared sig self.now p prepared }
        ensures { result.now ≡ take prepared.count (drop prepared.from self.now.numbers.items) }
    {
        &self.numbers[prepared.from..prepared.from + prepared.count]
    }
}
