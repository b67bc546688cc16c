//! Conditions with numbered variables.

ghost use Rattle.std.specs.Prelude.{◌≡◌, map, IfOk};
ghost use Rattle.mp_pattern.specs.CondView.{operand, amount, cond_tree};
ghost use Rattle.mp_pattern.specs.NetTokens.{numbered, number_in};
ghost use Rattle.mp_program.specs.ProgramOf.{renamed_operand, renamed_amount, renamed_cond};

use mp_pattern::{Amount, BoxedCond, Cond, Conds, Operand};
use mp_term::{Memory, Name, NameFault, Names, copy_term};
use std::alloc::Global;

// How many of the names stand before the name.
fn names_before(names: &Names, name: &Name) -> usize
    ensures { result ≡ number_in names.now name.now }
{
    for index in 0..names.len() {
        if let Some(other) = names.get(index) {
            if *other == *name {
                return index;
            }
        }
    }
    names.len()
}

/// The name of a variable by its number: `v` and the number in decimal. `Memory` comes where there is no room for it.
pub fn numbered_name(alloc: Global, number: u32) -> Result<Name, Memory>
    ensures { IfOk result (λ n. n ≡ numbered number) }
{
    let text = format!(in alloc; "v{number}")?;
    match Name::new(alloc, text.as_bytes()) {
        Ok(name) => Ok(name),
        Err(NameFault::Memory) => Err(Memory),
        Err(NameFault::Spelling) => unreachable!(),
    }
}

// The variable of the name, called by its place among the names. `Memory` comes where a `u32` can't hold that.
fn renamed_variable(alloc: Global, names: &Names, name: &Name) -> Result<Name, Memory>
    ensures { IfOk result (λ n. n ≡ numbered (number_in names.now name.now)) }
{
    let number = names_before(names, name);
    if number > u32::MAX as usize {
        return Err(Memory);
    }
    numbered_name(alloc, number as u32)
}

// The operand, its variable called by its place among the names.
fn renamed_operand(alloc: Global, names: &Names, source: &Operand) -> Result<Operand, Memory>
    ensures { IfOk result (λ a. operand a ≡ renamed_operand names.now (operand source.now)) }
{
    match source {
        Operand::Var(name) => Ok(Operand::Var(renamed_variable(alloc, names, name)?)),
        Operand::Ground(term) => Ok(Operand::Ground(copy_term(alloc, term)?)),
    }
}

// Both operands, in the same way.
fn renamed_operands(
    alloc: Global,
    names: &Names,
    first: &Operand,
    second: &Operand,
) -> Result<(Operand, Operand), Memory>
    ensures first { IfOk result (λ r. operand r.0 ≡ renamed_operand names.now (operand first.now)) }
    ensures second { IfOk result (λ r. operand r.1 ≡ renamed_operand names.now (operand second.now)) }
{
    let first = renamed_operand(alloc, names, first)?;
    Ok((first, renamed_operand(alloc, names, second)?))
}

// The amount, in the same way.
fn renamed_amount(alloc: Global, names: &Names, source: &Amount) -> Result<Amount, Memory>
    ensures { IfOk result (λ m. amount m ≡ renamed_amount names.now (amount source.now)) }
{
    match source {
        Amount::Fixed(number) => Ok(Amount::Fixed(*number)),
        Amount::Count(of) => Ok(Amount::Count(renamed_operand(alloc, names, of)?)),
        Amount::Size(of) => Ok(Amount::Size(renamed_operand(alloc, names, of)?)),
    }
}

// Both amounts, in the same way.
fn renamed_amounts(
    alloc: Global,
    names: &Names,
    first: &Amount,
    second: &Amount,
) -> Result<(Amount, Amount), Memory>
    ensures first { IfOk result (λ r. amount r.0 ≡ renamed_amount names.now (amount first.now)) }
    ensures second { IfOk result (λ r. amount r.1 ≡ renamed_amount names.now (amount second.now)) }
{
    let first = renamed_amount(alloc, names, first)?;
    Ok((first, renamed_amount(alloc, names, second)?))
}

/// The condition, its variables called `v0`, `v1` and so on by their places among the names (`renamed_cond` of
/// `specs/ProgramOf.antt`); one that isn't among them is called by how many they are. `Memory` comes where there is no
/// room for it, or where a `u32` can't hold such a number.
#[cycle(renamed_cond)]
pub fn renamed_cond(alloc: Global, names: &Names, cond: &Cond) -> Result<Cond, Memory>
    ensures { IfOk result (λ c. cond_tree c ≡ renamed_cond names.now (cond_tree cond.now)) }
{
    match cond {
        Cond::Amounts(m, sense, n) => {
            let (m, n) = renamed_amounts(alloc, names, m, n)?;
            Ok(Cond::Amounts(m, *sense, n))
        }
        Cond::Same(a, b) => {
            let (a, b) = renamed_operands(alloc, names, a, b)?;
            Ok(Cond::Same(a, b))
        }
        Cond::Less(a, b) => {
            let (a, b) = renamed_operands(alloc, names, a, b)?;
            Ok(Cond::Less(a, b))
        }
        Cond::Free(a, b) => {
            let (a, b) = renamed_operands(alloc, names, a, b)?;
            Ok(Cond::Free(a, b))
        }
        Cond::OfKind(a, kind) => Ok(Cond::OfKind(renamed_operand(alloc, names, a)?, *kind)),
        Cond::Headed(a, op) => Ok(Cond::Headed(renamed_operand(alloc, names, a)?, *op)),
        Cond::Not(part) => {
            let part = renamed_cond(alloc, names, part.get())?;
            Ok(Cond::Not(BoxedCond::new(alloc, part)?))
        }
        Cond::All(parts) => Ok(Cond::All(renamed_conds(alloc, names, parts.as_slice())?)),
        Cond::Any(parts) => Ok(Cond::Any(renamed_conds(alloc, names, parts.as_slice())?)),
    }
}

// The conditions, in the same way.
#[cycle(renamed_cond)]
fn renamed_conds(alloc: Global, names: &Names, parts: &[Cond]) -> Result<Conds, Memory>
    ensures { IfOk result (λ cs. cs ≡ map (renamed_cond names.now) (map cond_tree parts.now)) }
{
    let mut renamed = Conds::new(alloc);
    for part in parts {
        renamed.push(renamed_cond(alloc, names, part)?)?;
    }
    Ok(renamed)
}
