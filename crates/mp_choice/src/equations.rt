//! The solutions of an equation, one at a time.
ghost use Rattle.std.specs.Prelude.{◌≡◌, ℕ, ◌+◌, ◌-◌, ◌^◌, ◌<◌, ◌≤◌, ◌↔◌, ◌==◌, ◌++◌, length, take, replicate};
ghost use Rattle.std.specs.Prelude.{position, All, IsTrue, IsSome, IfOk, MatchOption, MatchBool};
ghost use Rattle.std.specs.Ordering.{nat_cmp};
ghost use Rattle.std.specs.Cmp.Lexicographic.{slice_cmp};
ghost use Rattle.mp_choice.specs.Equations.{weighed, IsSolution, AreSolutions};
ghost use Rattle.mp_choice.specs.EquationSteps.{IsLastLight, IsNextLight, Rises, IsSolutionFrom, FillsLast};
ghost use Rattle.mp_choice.specs.EquationList.{solutions_of};
ghost use Rattle.mp_choice.specs.Listed.{StandsAt, Reaches, IsExhausted, IsFirst, HasNone, IsNext, IsLast};
ghost use Rattle.mp_choice.specs.Choices.{advanced};
ghost use Rattle.mp_choice.specs.declared.equation_fault.EquationFault.TheVariants as fault;

use crate::equation_fault::EquationFault;
use crate::limits::MAX_TOTAL;
use crate::stage::Stage;
use std::alloc::Global;
use std::marker::Model;

/// The solutions of an equation `c1 n1 + .. + cm nm = total` with coefficients `c1 .. cm` above 0: the lists of
/// numbers from 0, one for each coefficient, for which it holds, in lexicographic order, by `AreSolutions` of
/// `specs/Equations.antt`. Contracts see an `Equations` as `Choices` of `specs/Choices.antt`: the item at which it
/// stands, the items still to come, and the number of coefficients as its room.
#[derive(Drop)]
pub struct Equations {
    coefficients: Vec<u32>,
    numbers: Vec<u32>,
    total: u32,
    stage: Stage,
}

impl Model for Equations {
    ghost use Rattle.mp_choice.specs.Choices.{Choices};

    ghost Value = { Choices };

    ghost use Rattle.mp_choice.specs.EquationsView.{equations_view, IsSound};

    ghost view = { equations_view };

    ghost invariant = { IsSound };
}

impl Equations {
    /// The generator of the solutions of the equation with these coefficients and this total, before its first item.
    /// There are at most `MAX_TOTAL` coefficients. `ZeroCoefficient` comes exactly where a coefficient is 0, with the
    /// least index of one, since the solutions would then be too many to list. `Memory` comes where there is no room
    /// for the coefficients and one item.
    pub fn begin(
        alloc: Global,
        coefficients: &[u32],
        total: u32,
    ) -> Result<Equations, EquationFault>
        requires length_bound { length coefficients.now ≤ MAX_TOTAL }
        ensures list { IfOk result (λ equations. AreSolutions coefficients.now total equations.to_come) }
        ensures before_first { IfOk result (λ equations. equations.item ≡ None) }
        ensures room { IfOk result (λ equations. equations.room ≡ length coefficients.now) }
        ensures zero { (index : ℕ) →
            (result ≡ Err (fault.ZeroCoefficient index)) ↔ (position (λ c. c == 0) coefficients.now ≡ Some index) }
    {
        if let Some(index) = least_zero(coefficients) {
            return Err(EquationFault::ZeroCoefficient {
                index: index as u32,
            });
        }
        let Ok(copies) = Vec::from_slice(alloc, coefficients) else {
            return Err(EquationFault::Memory);
        };
        let Ok(numbers) = vec![in alloc; 0; coefficients.len()] else {
            return Err(EquationFault::Memory);
        };
        Ok(Equations {
            coefficients: copies,
            numbers,
            total,
            stage: Stage::Before,
        })
    }

    /// Moves to the next item and answers true. Where no item is left it answers false and stands at none, and so does
    /// every later call. It takes no memory.
    pub fn next(&mut self) -> bool
        ensures moved { self.new ≡ advanced self.old }
        ensures answer { IsTrue result ↔ IsSome self.new.item }
    {
        let found = step(
            self.stage,
            &self.coefficients,
            self.total,
            &mut self.numbers,
        );
        self.stage = if found { Stage::Standing } else { Stage::Ended };
        found
    }

    /// The item at which it stands: one number for each coefficient. The last `next` answered true. It takes no memory.
    pub fn solution(&self) -> &[u32]
        requires { IsSome self.now.item }
        ensures { self.now.item ≡ Some result.now }
    {
        self.numbers.as_slice()
    }
}

// The index of the first coefficient that is 0.
fn least_zero(coefficients: &[u32]) -> Option<usize>
    ensures index { result ≡ position (λ c. c == 0) coefficients.now }
    ensures none { result ≡ None → All (λ c. 0 < c) coefficients.now }
{
    coefficients.iter().position(|c| *c == 0)
}

// The last number that can rise by one once all after it are 0, and what is lacking then; `rest` is lacking now.
fn rise(coefficients: &[u32], numbers: &[u32], rest: u32) -> Option<(usize, u32)>
    requires one_each { length numbers.now ≡ length coefficients.now }
    requires fits { weighed coefficients.now numbers.now + rest < 2 ^ 32 }
    ensures { MatchOption result
        (IsLastLight coefficients.now (weighed coefficients.now numbers.now + rest) numbers.now)
        (λ r. Rises coefficients.now numbers.now rest r.0 r.1) }
{
    let mut free = rest;
    for i in (0..coefficients.len()).rev() {
        if coefficients[i] <= free {
            return Some((i, free));
        }
        free += coefficients[i] * numbers[i];
    }
    None
}

// Makes the numbers from `from` on 0.
fn clear_from(numbers: &mut [u32], from: usize)
    requires { from ≤ length numbers.old }
    ensures { numbers.new ≡ take from numbers.old ++ replicate (length numbers.old - from) 0 }
{
    numbers[from..].fill(0);
}

// Makes the numbers the next light list and returns what it lacks to the total, if there is one; `rest` is lacking now.
fn advance(coefficients: &[u32], numbers: &mut [u32], rest: u32) -> Option<u32>
    requires one_each { length numbers.old ≡ length coefficients.now }
    requires positive { All (λ c. 0 < c) coefficients.now }
    requires fits { weighed coefficients.now numbers.old + rest < 2 ^ 32 }
    ensures { MatchOption result
        (IsLastLight coefficients.now (weighed coefficients.now numbers.old + rest) numbers.old)
        (IsNextLight coefficients.now (weighed coefficients.now numbers.old + rest) numbers.old numbers.new) }
{
    let (i, free) = rise(coefficients, numbers, rest)?;
    numbers[i] += 1;
    clear_from(numbers, i + 1);
    Some(free - coefficients[i])
}

// Raises the last number as far as what is lacking allows, and returns what is lacking then.
fn fill_last(coefficients: &[u32], numbers: &mut [u32], rest: u32) -> u32
    requires one_each { length numbers.old ≡ length coefficients.now }
    requires positive { All (λ c. 0 < c) coefficients.now }
    requires fits { weighed coefficients.now numbers.old + rest < 2 ^ 32 }
    ensures { FillsLast coefficients.now (weighed coefficients.now numbers.old + rest) numbers.old numbers.new result }
{
    let count = coefficients.len();
    if count == 0 {
        return rest;
    }
    let last = coefficients[count - 1];
    numbers[count - 1] += rest / last;
    rest % last
}

// Makes the numbers the first solution from them on, if there is one; `rest` is lacking now.
fn settle(coefficients: &[u32], total: u32, numbers: &mut [u32], mut rest: u32) -> bool
    requires one_each { length numbers.old ≡ length coefficients.now }
    requires positive { All (λ c. 0 < c) coefficients.now }
    requires lacks { weighed coefficients.now numbers.old + rest ≡ total }
    ensures { MatchBool result
        (IsFirst (slice_cmp nat_cmp) (IsSolutionFrom coefficients.now total numbers.old) numbers.new)
        (HasNone (IsSolutionFrom coefficients.now total numbers.old)) }
{
    loop {
        rest = fill_last(coefficients, numbers, rest);
        if rest == 0 {
            return true;
        }
        match advance(coefficients, numbers, rest) {
            Some(lacking) => rest = lacking,
            None => return false,
        }
    }
}

// Makes the numbers the first solution, if there is one.
fn first(coefficients: &[u32], total: u32, numbers: &mut [u32]) -> bool
    requires one_each { length numbers.old ≡ length coefficients.now }
    requires positive { All (λ c. 0 < c) coefficients.now }
    ensures { MatchBool result (IsFirst (slice_cmp nat_cmp) (IsSolution coefficients.now total) numbers.new)
        (HasNone (IsSolution coefficients.now total)) }
{
    clear_from(numbers, 0);
    settle(coefficients, total, numbers, total)
}

// Makes the numbers the next solution, if there is one.
fn following(coefficients: &[u32], total: u32, numbers: &mut [u32]) -> bool
    requires positive { All (λ c. 0 < c) coefficients.now }
    requires solution { IsSolution coefficients.now total numbers.old }
    ensures { MatchBool result (IsNext (slice_cmp nat_cmp) (IsSolution coefficients.now total) numbers.old numbers.new)
        (IsLast (slice_cmp nat_cmp) (IsSolution coefficients.now total) numbers.old) }
{
    match advance(coefficients, numbers, 0) {
        Some(rest) => settle(coefficients, total, numbers, rest),
        None => false,
    }
}

// Moves the numbers from the place where they stand to the next solution, if there is one.
fn step(stage: Stage, coefficients: &[u32], total: u32, numbers: &mut [u32]) -> bool
    requires one_each { length numbers.old ≡ length coefficients.now }
    requires positive { All (λ c. 0 < c) coefficients.now }
    requires stands { StandsAt (IsSolution coefficients.now total) stage numbers.old }
    ensures { MatchBool result
        (Reaches (slice_cmp nat_cmp) (IsSolution coefficients.now total)
        (solutions_of coefficients.now total) stage numbers.old numbers.new)
        (IsExhausted (slice_cmp nat_cmp) (solutions_of coefficients.now total) stage numbers.old) }
{
    match stage {
        Stage::Before => first(coefficients, total, numbers),
        Stage::Standing => following(coefficients, total, numbers),
        Stage::Ended => false,
    }
}
