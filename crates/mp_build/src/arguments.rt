//! The operations that are applied, and whether they allow their arguments.

ghost use Rattle.std.specs.Prelude.{◌≡◌, option_map, is_some};
ghost use Rattle.mp_term.specs.Signature.{Sig};
ghost use Rattle.mp_parser.specs.View.{spot_of};
ghost use Rattle.mp_build.specs.Answers.{Gives};
ghost use Rattle.mp_build.specs.Build.{op_number, sign_number, head_number};
ghost use Rattle.mp_build.specs.Checks.{op_named, op_signed, head_faults, arity_faults};
ghost use Rattle.mp_build.specs.ArgumentsView.{allows_arguments};

use crate::checks::allows_patterns;
use crate::fault::{TextError, TextKind, error_at};
use crate::given::allows_given;
use crate::operations::find_decl;
use crate::scope::Variable;
use mp_syntax::{Expr, InfixSign, Place, Word};
use mp_term::{OpDecl, OpId, Signature};

/// The arguments of an operation, by what they are read as. What it allows is `allows_arguments` of
/// `specs/ArgumentsView.antt`.
#[derive(Clone, Copy)]
pub enum Arguments<'s, 'a> {
    /// Terms.
    Terms(&'s [Expr<'a>]),
    /// Patterns.
    Patterns(&'s [Expr<'a>]),
    /// Templates over the variables of a pattern.
    Templates(&'s [Variable<'a>], &'s [Expr<'a>]),
}

/// The operation allows the number of arguments.
#[inline(always)]
fn allows(decl: &OpDecl, args: Arguments<'_, '_>) -> bool
    ensures { (sig : Sig) → result ≡ allows_arguments sig args.entry decl.now }
{
    match args {
        Arguments::Terms(args) => decl.allows(args.len()),
        Arguments::Patterns(args) => allows_patterns(decl, args),
        Arguments::Templates(variables, args) => allows_given(decl, variables, args),
    }
}

/// The number and the declaration of the first operation of that sign.
fn find_sign_decl<'a>(sig: &'a Signature, sign: &[u8]) -> Option<(OpId, &'a OpDecl)>
    ensures number { option_map (λ p. p.0.0) result ≡ sign_number sig.now sign.now }
    ensures decl { option_map (λ p. p.1.now) result ≡ op_signed sig.now sign.now }
{
    let id = sig.find_sign(sign)?;
    let decl = sig.op(id)?;
    Some((id, decl))
}

/// The operation that is applied to these arguments: the first of the signature that has the name.
///
/// - `Text`: no operation has the name (`UnknownOp`), or the operation doesn't allow so many arguments (`Arity`); both
///   at the name, by `head_faults` of `specs/Checks.antt`.
///
/// It takes no memory.
#[inline(always)]
pub fn head_op(sig: &Signature, name: Word<'_>, args: Arguments<'_, '_>) -> Result<OpId, TextError>
    ensures { Gives result
        (head_faults (allows_arguments sig.now args.entry) (spot_of name.entry) (op_named sig.now name.entry.text.now))
        (λ id. id.0 ≡ head_number (op_number sig.now name.entry.text.now)) }
{
    match find_decl(sig, name.text) {
        None => Err(error_at(TextKind::UnknownOp, name.place)),
        Some((id, decl)) => {
            if !allows(decl, args) {
                return Err(error_at(TextKind::Arity, name.place));
            }
            Ok(id)
        }
    }
}

/// The operation whose sign stands between these arguments: the first of the signature that has the sign. There is none
/// where no operation has it, which is a fault that counts behind those of the first operand.
///
/// `place` is that of the bracket round the operands.
///
/// - `Text`: the operation doesn't allow so many arguments (`Arity`), at the bracket, by `arity_faults` of
///   `specs/Checks.antt`.
///
/// It takes no memory.
pub fn sign_op(
    sig: &Signature,
    place: Place,
    sign: InfixSign<'_>,
    args: Arguments<'_, '_>,
) -> Result<Option<OpId>, TextError>
    ensures { Gives result
        (arity_faults (allows_arguments sig.now args.entry) place (op_signed sig.now sign.entry.text.now))
        (λ o. (option_map (λ id. id.0) o ≡ sign_number sig.now sign.entry.text.now)
        × (is_some o ≡ is_some (op_signed sig.now sign.entry.text.now))) }
{
    match find_sign_decl(sig, sign.text) {
        None => Ok(None),
        Some((id, decl)) => {
            if !allows(decl, args) {
                return Err(error_at(TextKind::Arity, place));
            }
            Ok(Some(id))
        }
    }
}
