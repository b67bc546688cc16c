//! Makes the atoms of conditions of syntax trees, and checks them on the way.

ghost use Rattle.std.specs.Prelude.{◌≡◌};
ghost use Rattle.mp_pattern.specs.CondView.{operand, amount, cond_tree};
ghost use Rattle.mp_parser.specs.View.{spot_of, expr_tree, amount_tree, atom_tree};
ghost use Rattle.mp_build.specs.Answers.{Gives};
ghost use Rattle.mp_build.specs.Build.{op_number, kind_number, head_number};
ghost use Rattle.mp_build.specs.Conditions.{measured, sense_of, related, tested, operand_of, amount_of, atom_of};
ghost use Rattle.mp_build.specs.ConditionChecks.{unbound_faults, sequence_faults, single_faults, property_faults};
ghost use Rattle.mp_build.specs.ConditionChecks.{operand_faults, related_faults, amount_faults, atom_faults};
ghost use Rattle.mp_build.specs.ScopeView.{scope_of};

use crate::build::{new_name, normal_term};
use crate::checks::number_of;
use crate::fault::{TextError, TextKind, error_at};
use crate::scope::{Scope, is_bound, is_bound_sequence};
use mp_pattern::{Amount, Cond, MAX_NUMBER, Operand, Sense};
use mp_syntax as syntax;
use mp_syntax::{Atom, Expr, Measure, Property, Relation, Word};
use mp_term::{KindId, OpId, Signature};
use std::alloc::Global;

/// A variable that is named is one of those that may be.
fn check_bound(scope: &Scope<'_>, name: Word<'_>) -> Result<(), TextError>
    ensures { Gives result (unbound_faults (scope_of scope.now) (spot_of name.entry)) (λ _. Unit {0}) }
{
    match scope {
        Scope::Any => Ok(()),
        Scope::Among(variables) => {
            if !is_bound(variables, name.text) {
                return Err(error_at(TextKind::UnboundVariable, name.place));
            }
            Ok(())
        }
    }
}

/// A variable that is named stands for one term.
fn check_single(scope: &Scope<'_>, name: Word<'_>) -> Result<(), TextError>
    ensures { Gives result (sequence_faults (scope_of scope.now) (spot_of name.entry)) (λ _. Unit {0}) }
{
    match scope {
        Scope::Any => Ok(()),
        Scope::Among(variables) => {
            if is_bound_sequence(variables, name.text) {
                return Err(error_at(TextKind::ConditionKind, name.place));
            }
            Ok(())
        }
    }
}

/// An operand that is a variable stands for one term.
fn check_single_operand(scope: &Scope<'_>, expr: &Expr<'_>) -> Result<(), TextError>
    ensures { Gives result (single_faults (scope_of scope.now) (expr_tree expr.now)) (λ _. Unit {0}) }
{
    match *expr {
        Expr::Variable(name) => check_single(scope, name),
        _ => Ok(()),
    }
}

/// The operand of an expression: a variable, or the normal form of a term; or its first fault.
fn build_operand(
    alloc: Global,
    sig: &Signature,
    scope: &Scope<'_>,
    expr: &Expr<'_>,
) -> Result<Operand, TextError>
    ensures { Gives result (operand_faults sig.now (scope_of scope.now) (expr_tree expr.now))
        (λ a. operand a ≡ operand_of sig.now (expr_tree expr.now)) }
{
    match *expr {
        Expr::Variable(name) => {
            check_bound(scope, name)?;
            let name = new_name(alloc, name)?;
            Ok(Operand::Var(name))
        }
        _ => {
            let term = normal_term(alloc, sig, expr)?;
            Ok(Operand::Ground(term))
        }
    }
}

/// An operand of a relation, or its first fault: an operand of `less` stands for one term.
fn build_related(
    alloc: Global,
    sig: &Signature,
    scope: &Scope<'_>,
    relation: Relation,
    expr: &Expr<'_>,
) -> Result<Operand, TextError>
    ensures { Gives result (related_faults sig.now (scope_of scope.now) relation (expr_tree expr.now))
        (λ a. operand a ≡ operand_of sig.now (expr_tree expr.now)) }
{
    let operand = build_operand(alloc, sig, scope, expr)?;
    if relation == Relation::Less {
        check_single_operand(scope, expr)?;
    }
    Ok(operand)
}

/// The amount of a side of a comparison, or its first fault.
fn build_amount(
    alloc: Global,
    sig: &Signature,
    scope: &Scope<'_>,
    side: &syntax::Amount<'_>,
) -> Result<Amount, TextError>
    ensures { Gives result (amount_faults sig.now (scope_of scope.now) (amount_tree side.now))
        (λ a. amount a ≡ amount_of sig.now (amount_tree side.now)) }
{
    match side {
        syntax::Amount::Number(digits) => {
            let number = number_of(digits.text, MAX_NUMBER);
            if number > MAX_NUMBER {
                return Err(error_at(TextKind::TooMany, digits.place));
            }
            Ok(Amount::Fixed(number))
        }
        syntax::Amount::Measured(measure, expr) => {
            let operand = build_operand(alloc, sig, scope, expr)?;
            Ok(measured(*measure, operand))
        }
    }
}

/// The count of an operand, or its size.
fn measured(measure: Measure, of: Operand) -> Amount
    ensures { amount result ≡ measured measure (operand of) }
{
    match measure {
        Measure::Count => Amount::Count(of),
        Measure::Size => Amount::Size(of),
    }
}

/// The sense of a comparison.
fn sense(way: syntax::Sense) -> Sense
    ensures { result ≡ sense_of way }
{
    match way {
        syntax::Sense::Lt => Sense::Lt,
        syntax::Sense::Le => Sense::Le,
        syntax::Sense::Gt => Sense::Gt,
        syntax::Sense::Ge => Sense::Ge,
        syntax::Sense::Eq => Sense::Eq,
        syntax::Sense::Ne => Sense::Ne,
    }
}

/// The atom of two operands.
fn related(relation: Relation, left: Operand, right: Operand) -> Cond
    ensures { cond_tree result ≡ related relation (operand left) (operand right) }
{
    match relation {
        Relation::Same => Cond::Same(left, right),
        Relation::Less => Cond::Less(left, right),
        Relation::Free => Cond::Free(left, right),
    }
}

/// The kind of that name.
fn kind_named(sig: &Signature, name: Word<'_>) -> Result<KindId, TextError>
    ensures { Gives result (property_faults sig.now Property.Kind (spot_of name.entry))
        (λ k. k.0 ≡ head_number (kind_number sig.now name.entry.text.now)) }
{
    match sig.find_kind(name.text) {
        None => Err(error_at(TextKind::UnknownKind, name.place)),
        Some(kind) => Ok(kind),
    }
}

/// The operation of that name.
fn op_named(sig: &Signature, name: Word<'_>) -> Result<OpId, TextError>
    ensures { Gives result (property_faults sig.now Property.Head (spot_of name.entry))
        (λ f. f.0 ≡ head_number (op_number sig.now name.entry.text.now)) }
{
    match sig.find_op(name.text) {
        None => Err(error_at(TextKind::UnknownOp, name.place)),
        Some(op) => Ok(op),
    }
}

/// The atom of an operand and a name, or the fault of the name.
fn tested(
    sig: &Signature,
    property: Property,
    of: Operand,
    name: Word<'_>,
) -> Result<Cond, TextError>
    ensures { Gives result (property_faults sig.now property (spot_of name.entry))
        (λ c. cond_tree c ≡ tested sig.now property (operand of) name.entry.text.now) }
{
    match property {
        Property::Kind => {
            let kind = kind_named(sig, name)?;
            Ok(Cond::OfKind(of, kind))
        }
        Property::Head => {
            let op = op_named(sig, name)?;
            Ok(Cond::Headed(of, op))
        }
    }
}

/// The atom of a condition, or its first fault.
pub fn build_atom(
    alloc: Global,
    sig: &Signature,
    scope: &Scope<'_>,
    atom: &Atom<'_>,
) -> Result<Cond, TextError>
    ensures { Gives result (atom_faults sig.now (scope_of scope.now) (atom_tree atom.now))
        (λ c. cond_tree c ≡ atom_of sig.now (atom_tree atom.now)) }
{
    match atom {
        Atom::Compare(left, way, right) => {
            let left = build_amount(alloc, sig, scope, left)?;
            let right = build_amount(alloc, sig, scope, right)?;
            Ok(Cond::Amounts(left, sense(*way), right))
        }
        Atom::Relate(relation, left, right) => {
            let left = build_related(alloc, sig, scope, *relation, left)?;
            let right = build_related(alloc, sig, scope, *relation, right)?;
            Ok(related(*relation, left, right))
        }
        Atom::Test(property, expr, name) => {
            let operand = build_operand(alloc, sig, scope, expr)?;
            tested(sig, *property, operand, *name)
        }
    }
}
