//! The ways to the instructions of a program.

ghost use Rattle.std.specs.Prelude.{◌≡◌, ◌≢◌, ◌≤◌, ◌<◌, ◌++◌, ℕ, List, Some, length, map, IfOk, OnOk, MatchOption};
ghost use Rattle.mp_pattern.specs.NetTokens as plain;
ghost use Rattle.mp_walk.specs.InstrView.{plain_instr};
ghost use Rattle.mp_vm.specs.Known.{tokens_in};
ghost use Rattle.mp_vm.specs.WayView.{way_at, way_more, AreAbove};
ghost use Rattle.mp_vm.specs.declared.ways.Way.TheVariants as way;

use mp_pattern::NetToken;
use mp_term::Memory;
use mp_walk::Instr;
use std::alloc::Global;

// The ways to an instruction that are known: none, one, or more. One comes from below the instruction of the number
// `above`, which has the token before its own in its path, or from the top where that is 0.
#[derive(Clone, Copy)]
pub(crate) enum Way {
    Unknown,
    One(u32),
    Several,
}

// The ways to each instruction.
#[derive(Drop)]
pub(crate) struct Ways {
    ways: Vec<Way>,
}

// One way more.
fn way_more(way: Way, above: u32) -> Way
    ensures { result ≡ way_more above way }
{
    match way {
        Way::Unknown => Way::One(above),
        Way::One(_) | Way::Several => Way::Several,
    }
}

impl Ways {
    // No ways to so many instructions.
    pub(crate) fn new(alloc: Global, count: usize) -> Result<Ways, Memory>
        ensures count { IfOk result (λ w. length w.ways.items ≡ count) }
        ensures none { IfOk result (λ w. (n : ℕ) → way_at w.ways.items n ≡ way.Unknown) }
    {
        let ways = Vec::from_elem(alloc, Way::Unknown, count)?;
        Ok(Ways { ways })
    }

    // Adds a way to the target, which is the number of an instruction.
    pub(crate) fn lead(&mut self, target: Option<u32>, above: u32)
        ensures count { length self.new.ways.items ≡ length self.old.ways.items }
        ensures led { (n : ℕ) → target ≡ Some n → 1 ≤ n → n ≤ length self.old.ways.items
            → way_at self.new.ways.items n ≡ way_more above (way_at self.old.ways.items n) }
        ensures others { (n : ℕ) → target ≢ Some n → way_at self.new.ways.items n ≡ way_at self.old.ways.items n }
    {
        if let Some(number) = target {
            let number = number as usize;
            if number > 0 && number <= self.ways.len() {
                self.ways[number - 1] = way_more(self.ways[number - 1], above);
            }
        }
    }

    // The one way to the instruction of the number.
    pub(crate) fn above(&self, number: u32) -> Option<u32>
        ensures { MatchOption result ((a : ℕ) → way_at self.now.ways.items number ≢ way.One a)
            (λ a. way_at self.now.ways.items number ≡ way.One a) }
    {
        let number = number as usize;
        if number == 0 || number > self.ways.len() {
            return None;
        }
        match self.ways[number - 1] {
            Way::One(above) => Some(above),
            _ => None,
        }
    }

    // The number of the instruction above, which is 0 at the top.
    fn next(&self, number: u32) -> u32
        ensures less { 0 < number → result < number }
        ensures is { (a : ℕ) → way_at self.now.ways.items number ≡ way.One a → a < number → result ≡ a }
    {
        match self.above(number) {
            Some(next) if next < number => next,
            _ => 0,
        }
    }

    // Adds the tokens of the instruction of the number and of those above it.
    pub(crate) fn add_above<'a>(
        &self,
        code: &'a [Instr],
        above: u32,
        tokens: &mut Vec<&'a NetToken>,
    ) -> Result<(), Memory>
        ensures { (ks : List plain.NetToken) → AreAbove (map plain_instr code.now) self.now.ways.items above ks
            → OnOk result (tokens_in tokens.new.items ≡ tokens_in tokens.old.items ++ ks) }
    {
        let mut number = above;
        while number > 0 {
            let Some(instr) = code.get(number as usize - 1) else {
                return Ok(());
            };
            tokens.push(&instr.token)?;
            number = self.next(number);
        }
        Ok(())
    }
}
