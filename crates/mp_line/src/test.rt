//! Tests.

ghost use Rattle.std.specs.Prelude.{◌≡◌, ◌<◌, ◌^◌, ◌-◌, [], ◌∷◌, ◌++◌, length, map, IfOk, OnOk};
ghost use Rattle.mp_pattern.specs.declared.limits.TheConstants.{MAX_VARIABLES};
ghost use Rattle.mp_pattern.specs.CondView.{operand, amount, cond_tree};
ghost use Rattle.mp_pattern.specs.Firsts.{is_known};
ghost use Rattle.mp_pattern.specs.Operands.{amount_operands};
ghost use Rattle.mp_pattern.specs.Value.{same_name};
ghost use Rattle.mp_walk.specs.Walkable.{numbered_names};
ghost use Rattle.mp_program.specs.TokenPaths.{cond_names};
ghost use Rattle.mp_line.specs.Finds.{Finds};
ghost use Rattle.mp_line.specs.LineTexts.{IsTestText};
ghost use Rattle.mp_line.specs.Named.{names_in, operands_names, all_cond_names, are_test_names};

use crate::exact::exact_cond;
use crate::numbers::number_of_name;
use crate::words::between;
use mp_pattern::{Amount, Cond, MAX_VARIABLES, Operand};
use mp_term::{Memory, Name, Signature};
use std::alloc::Global;

// Adds the name of the variable of an operand.
fn add_operand<'a>(part: &'a Operand, names: &mut Vec<&'a Name>) -> Result<(), Memory>
    ensures { OnOk result (names_in names.new.items
        ≡ names_in names.old.items ++ operands_names (operand part.now ∷ [])) }
{
    match part {
        Operand::Var(name) => {
            names.push(name)?;
            Ok(())
        }
        Operand::Ground(_) => Ok(()),
    }
}

// Adds those of two operands.
fn add_operands<'a>(
    left: &'a Operand,
    right: &'a Operand,
    names: &mut Vec<&'a Name>,
) -> Result<(), Memory>
    ensures { OnOk result (names_in names.new.items
        ≡ names_in names.old.items ++ operands_names (operand left.now ∷ operand right.now ∷ [])) }
{
    add_operand(left, names)?;
    add_operand(right, names)
}

// Adds the name of the variable of an amount.
fn add_amount<'a>(part: &'a Amount, names: &mut Vec<&'a Name>) -> Result<(), Memory>
    ensures { OnOk result (names_in names.new.items
        ≡ names_in names.old.items ++ operands_names (amount_operands (amount part.now))) }
{
    match part {
        Amount::Fixed(_) => Ok(()),
        Amount::Count(operand) | Amount::Size(operand) => add_operand(operand, names),
    }
}

// Adds those of two amounts.
fn add_amounts<'a>(
    left: &'a Amount,
    right: &'a Amount,
    names: &mut Vec<&'a Name>,
) -> Result<(), Memory>
    ensures { OnOk result (names_in names.new.items ≡ names_in names.old.items
        ++ operands_names (amount_operands (amount left.now) ++ amount_operands (amount right.now))) }
{
    add_amount(left, names)?;
    add_amount(right, names)
}

/// Adds the names of the variables of a condition at the end, in order, each as often as it stands there (`cond_names`
/// of mp_program's `specs/TokenPaths.antt`). After `Memory` some of them may have been added.
#[cycle(condition_names)]
pub fn condition_names<'a>(cond: &'a Cond, names: &mut Vec<&'a Name>) -> Result<(), Memory>
    ensures { OnOk result (names_in names.new.items ≡ names_in names.old.items ++ cond_names (cond_tree cond.now)) }
{
    match cond {
        Cond::Amounts(a, _, b) => add_amounts(a, b, names),
        Cond::Same(a, b) | Cond::Less(a, b) | Cond::Free(a, b) => add_operands(a, b, names),
        Cond::OfKind(a, _) | Cond::Headed(a, _) => add_operand(a, names),
        Cond::Not(part) => condition_names(part.get(), names),
        Cond::All(parts) | Cond::Any(parts) => all_condition_names(parts.as_slice(), names),
    }
}

// Adds those of each condition.
#[cycle(condition_names)]
fn all_condition_names<'a>(conds: &'a [Cond], names: &mut Vec<&'a Name>) -> Result<(), Memory>
    ensures { OnOk result (names_in names.new.items
        ≡ names_in names.old.items ++ all_cond_names (map cond_tree conds.now)) }
{
    for cond in conds {
        condition_names(cond, names)?;
    }
    Ok(())
}

/// The name is one of `v0` to `v31`: `v` and the decimal text of a number below `MAX_VARIABLES` (`numbered_names` of
/// mp_walk's `specs/Walkable.antt`).
pub fn is_test_name(name: &[u8]) -> bool
    ensures { result ≡ is_known same_name (numbered_names MAX_VARIABLES) name.now }
{
    match number_of_name(name) {
        Some(number) => (number as usize) < MAX_VARIABLES,
        None => false,
    }
}

// The test whose printed line this is.
pub(crate) fn test(alloc: Global, sig: &Signature, line: &[u8]) -> Result<Option<Cond>, Memory>
    requires { length line.now < 2 ^ 32 - 1 }
    ensures { IfOk result (λ o. Finds cond_tree (IsTestText sig.now line.now) o) }
{
    let Some(text) = between(b"test ", line, b";") else {
        return Ok(None);
    };
    let Some(cond) = exact_cond(alloc, sig, text)? else {
        return Ok(None);
    };
    let is_named = has_test_names(alloc, &cond)?;
    if is_named { Ok(Some(cond)) } else { Ok(None) }
}

// Each name is such a one.
fn are_test_names(names: &[&Name]) -> bool
    ensures { result ≡ are_test_names (names_in names.now) }
{
    for name in names {
        if !is_test_name(name.bytes()) {
            return false;
        }
    }
    true
}

// Each variable of the condition has such a name.
fn has_test_names(alloc: Global, cond: &Cond) -> Result<bool, Memory>
    ensures { IfOk result (λ b. b ≡ are_test_names (cond_names (cond_tree cond.now))) }
{
    let mut names = Vec::new(alloc);
    condition_names(cond, &mut names)?;
    Ok(are_test_names(names.as_slice()))
}
