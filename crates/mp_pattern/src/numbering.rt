//! Patterns with their variables named by numbers.
ghost use Rattle.std.specs.Prelude.{◌≡◌, IfOk, map, option_map};
ghost use Rattle.mp_pattern.specs.NetTokens.{number_in, numbered, renamed};
ghost use Rattle.mp_pattern.specs.PatternTree.{wild_pattern};
ghost use Rattle.mp_pattern.specs.View.{wildcard, pattern_tree};

use crate::copy::copy_shape;
use crate::pattern::{Pattern, Patterns, Shape};
use itoa::write_digits;
use mp_term::{Memory, Name, NameFault, Names};
use std::alloc::Global;

// The length of the longest name of a number: a `v` and the ten digits that a `u32` has at most.
const LONGEST: usize = 11;

// How many of the names stand before the name.
fn names_before(names: &Names, name: &Name) -> usize
    ensures { result ≡ number_in names.now name.now }
{
    for index in 0..names.len() {
        let Some(other) = names.get(index) else {
            return index;
        };
        if *other == *name {
            return index;
        }
    }
    names.len()
}

// The number of the variable. `Memory` comes where a `u32` can't hold it.
fn number_of(names: &Names, name: &Name) -> Result<u32, Memory>
    ensures { IfOk result (λ n. n ≡ number_in names.now name.now) }
{
    let number = names_before(names, name);
    if number > u32::MAX as usize {
        return Err(Memory);
    }
    Ok(number as u32)
}

/// The number of a variable among the names, from 0 (`number_in` of `specs/NetTokens.antt`), where there is a variable:
/// as many as there are names, where it is none of them. `Memory` comes where a `u32` can't hold it.
pub fn variable_number(names: &Names, variable: &Option<Name>) -> Result<Option<u32>, Memory>
    ensures { IfOk result (λ x. x ≡ option_map (number_in names.now) variable.now) }
{
    match variable {
        None => Ok(None),
        Some(name) => Ok(Some(number_of(names, name)?)),
    }
}

// The name of the variable of that number in a commutative pattern. The digits end the text, and each byte before them
// is a `v`.
fn numbered(alloc: Global, number: u32) -> Result<Name, Memory>
    ensures { IfOk result (λ n. n ≡ numbered number) }
{
    let mut text = [b'v'; LONGEST];
    let start = write_digits(number as u64, &mut text, LONGEST);
    match Name::new(alloc, &text[start - 1..]) {
        Ok(name) => Ok(name),
        Err(NameFault::Memory) => Err(Memory),
        Err(NameFault::Spelling) => unreachable!(),
    }
}

// The name of the variable by its number, where there is a variable.
fn renamed_variable(
    alloc: Global,
    names: &Names,
    variable: &Option<Name>,
) -> Result<Option<Name>, Memory>
    ensures { IfOk result (λ x. x ≡ option_map (λ y. numbered (number_in names.now y)) variable.now) }
{
    match variable {
        None => Ok(None),
        Some(name) => Ok(Some(numbered(alloc, number_of(names, name)?)?)),
    }
}

// A copy of the wildcard with its variable so named, as a pattern.
fn renamed_wildcard(
    alloc: Global,
    names: &Names,
    shape: &Shape,
    variable: &Option<Name>,
) -> Result<Pattern, Memory>
    ensures { IfOk result (λ p. pattern_tree p
        ≡ wild_pattern (wildcard shape.now) (option_map (λ y. numbered (number_in names.now y)) variable.now)) }
{
    let shape = copy_shape(alloc, shape)?;
    Ok(Pattern::Wild(shape, renamed_variable(alloc, names, variable)?))
}

/// A copy of the pattern with its variables named by their numbers among the names (`renamed` of
/// `specs/NetTokens.antt`). `Memory` comes where there is no room for it, or where the number of a variable is beyond
/// `u32::MAX`.
#[cycle(renamed)]
pub fn renamed(alloc: Global, names: &Names, pattern: &Pattern) -> Result<Pattern, Memory>
    ensures { IfOk result (λ p. pattern_tree p ≡ renamed names.now (pattern_tree pattern.now)) }
{
    match pattern {
        Pattern::Sym(name) => Ok(Pattern::Sym(name.copy(alloc)?)),
        Pattern::App(op, args) => Ok(Pattern::App(*op, all_renamed(alloc, names, args)?)),
        Pattern::Wild(shape, variable) => renamed_wildcard(alloc, names, shape, variable),
    }
}

// Copies of the patterns with their variables so named.
#[cycle(renamed)]
fn all_renamed(alloc: Global, names: &Names, parts: &Patterns) -> Result<Patterns, Memory>
    ensures { IfOk result (λ ps. ps ≡ map (renamed names.now) parts.now) }
{
    let mut copies = Patterns::with_room(alloc, parts.len())?;
    for part in &parts.items {
        copies.push(renamed(alloc, names, part)?)?;
    }
    Ok(copies)
}
