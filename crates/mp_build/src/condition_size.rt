//! How large a condition is.

ghost use Rattle.std.specs.Prelude.{◌≡◌, ◌-◌, ◌^◌, length, min};
ghost use Rattle.std.specs.List.{list_any};
ghost use Rattle.mp_parser.specs.View.{amount_tree, atom_tree, literal_tree, alternative_tree, condition_tree};
ghost use Rattle.mp_build.specs.Conditions.{literal_atoms, literals_atoms, atoms};
ghost use Rattle.mp_build.specs.ConditionChecks.{has_large_amount, has_large_operand, is_large_condition};

use crate::checks::is_large_operand;
use mp_pattern::MAX_ATOMS;
use mp_syntax::{Alternative, Amount, Atom, Condition, Literal};

/// The number of atoms of a condition; the greatest `u64` where there are more.
#[cycle(atom_count)]
fn atom_count(condition: &Condition<'_>) -> u64
    ensures { result ≡ min (length (atoms (condition_tree condition.now))) (2 ^ 64 - 1) }
{
    let mut count: u64 = 0;
    for alternative in &condition.alternatives {
        count = count.saturating_add(alternative_atom_count(alternative));
    }
    count
}

/// The number of atoms of literals joined by `and`; the greatest `u64` where there are more.
#[cycle(atom_count)]
fn alternative_atom_count(alternative: &Alternative<'_>) -> u64
    ensures { result ≡ min (length (literals_atoms (alternative_tree alternative.now))) (2 ^ 64 - 1) }
{
    let mut count: u64 = 0;
    for literal in &alternative.literals {
        count = count.saturating_add(literal_atom_count(literal));
    }
    count
}

/// The number of atoms of a literal; the greatest `u64` where there are more.
#[cycle(atom_count)]
fn literal_atom_count(literal: &Literal<'_>) -> u64
    ensures { result ≡ min (length (literal_atoms (literal_tree literal.now))) (2 ^ 64 - 1) }
{
    match literal {
        Literal::Atom { .. } => 1,
        Literal::Bracketed { condition, .. } => atom_count(condition),
    }
}

/// The operand of an amount, where it has one, has more nodes than one may have.
fn has_large_amount(amount: &Amount<'_>) -> bool
    ensures { result ≡ has_large_amount (amount_tree amount.now) }
{
    match amount {
        Amount::Number(_) => false,
        Amount::Measured(_, operand) => is_large_operand(operand),
    }
}

/// An operand of the atom has more nodes than one may have.
fn has_large_operand(atom: &Atom<'_>) -> bool
    ensures { result ≡ has_large_operand (atom_tree atom.now) }
{
    match atom {
        Atom::Compare(left, _, right) => has_large_amount(left) || has_large_amount(right),
        Atom::Relate(_, left, right) => is_large_operand(left) || is_large_operand(right),
        Atom::Test(_, operand, _) => is_large_operand(operand),
    }
}

/// An operand of an atom of the condition has more nodes than one may have.
#[cycle(some_is_large)]
fn some_is_large(condition: &Condition<'_>) -> bool
    ensures { result ≡ list_any has_large_operand (atoms (condition_tree condition.now)) }
{
    for alternative in &condition.alternatives {
        if some_in_alternative(alternative) {
            return true;
        }
    }
    false
}

/// The same of literals joined by `and`.
#[cycle(some_is_large)]
fn some_in_alternative(alternative: &Alternative<'_>) -> bool
    ensures { result ≡ list_any has_large_operand (literals_atoms (alternative_tree alternative.now)) }
{
    for literal in &alternative.literals {
        if some_in_literal(literal) {
            return true;
        }
    }
    false
}

/// The same of a literal.
#[cycle(some_is_large)]
fn some_in_literal(literal: &Literal<'_>) -> bool
    ensures { result ≡ list_any has_large_operand (literal_atoms (literal_tree literal.now)) }
{
    match literal {
        Literal::Atom { atom, .. } => has_large_operand(atom),
        Literal::Bracketed { condition, .. } => some_is_large(condition),
    }
}

/// The condition has more atoms than one may have, or an operand of more nodes: `is_large_condition` of
/// `specs/ConditionChecks.antt`. It takes no memory.
pub fn is_large_condition(condition: &Condition<'_>) -> bool
    ensures { result ≡ is_large_condition (condition_tree condition.now) }
{
    atom_count(condition) > MAX_ATOMS || some_is_large(condition)
}
