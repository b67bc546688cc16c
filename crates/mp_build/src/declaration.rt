//! Declares the operations and kinds of a file.

ghost use Rattle.std.specs.Prelude.{◌≡◌, ◌≤◌, ◌+◌, ℕ, List, [], ◌∷◌, ◌++◌, length, map, flat_map, false};
ghost use Rattle.std.specs.Prelude.{option_map, IfOk};
ghost use Rattle.mp_parser.specs.View.{spot_of, flag_of, statement_tree, spot_of_sign};
ghost use Rattle.mp_build.specs.Answers.{Gives};
ghost use Rattle.mp_build.specs.Build.{op_decl, op_decls, kind_decl, sig_with, sig_of};
ghost use Rattle.mp_build.specs.Checks.{symbol_faults, name_faults, has_bad_flags, held_sign_faults, op_faults};
ghost use Rattle.mp_build.specs.Checks.{kind_faults, op_statement_faults, kind_statement_faults, declaration_faults};
ghost use Rattle.mp_build.specs.Checks.{faults_by};
ghost use Rattle.mp_build.specs.Flags.{sign_spot, is_long_sign};
ghost use Rattle.mp_build.specs.Names.{is_among, number_of};

use crate::build::{new_name, symbol};
use crate::checks::number_of;
use crate::fault::{TextError, TextKind, error_at};
use crate::flags::{FlagSort, has_bad_flags, is_said, sign_spot};
use mp_syntax::{Flag, InfixSign, Statement, Word};
use mp_term::{
    MAX_ARITY, MAX_KIND_SYMBOLS, MAX_KINDS, MAX_OPS, NameFault, Names, OpDecl, SigFault, Sign,
    Signature,
};
use std::alloc::Global;

/// Checks the name of a statement.
///
/// `is_held`: an earlier statement of its sort has the name; `count` of them there are, and `most` there may be;
/// `is_large`: a part of this one is larger than it may be.
///
/// - `Text`: the name is held (`DuplicateName`), or there are as many statements as may be or this one is too large
///   (`TooMany`); both at the name, by `name_faults` of `specs/Checks.antt`.
///
/// It takes no memory.
pub fn check_name(
    name: Word<'_>,
    is_held: bool,
    count: usize,
    most: usize,
    is_large: bool,
) -> Result<(), TextError>
    ensures first { (earlier : List (List ℕ)) → is_held ≡ is_among name.entry.text.now earlier → count ≡ length earlier
        → Gives result (name_faults most earlier is_large (spot_of name.entry)) (λ _. Unit {0}) }
    ensures new { IfOk result (λ _. is_held ≡ false) }
{
    if is_held {
        return Err(error_at(TextKind::DuplicateName, name.place));
    }
    if most <= count || is_large {
        return Err(error_at(TextKind::TooMany, name.place));
    }
    Ok(())
}

/// Checks that no operation of the signature has the sign.
fn check_sign(sig: &Signature, sign: Option<InfixSign<'_>>) -> Result<(), TextError>
    ensures { Gives result (held_sign_faults sig.now.ops (option_map spot_of_sign sign.entry)) (λ _. Unit {0}) }
{
    match sign {
        None => Ok(()),
        Some(sign) => {
            if sig.find_sign(sign.text).is_some() {
                return Err(error_at(TextKind::DuplicateName, sign.place));
            }
            Ok(())
        }
    }
}

/// Checks the declaration of an operation.
fn check_op(
    sig: &Signature,
    name: Word<'_>,
    least: Word<'_>,
    is_open: bool,
    flags: &[Flag<'_>],
) -> Result<(), TextError>
    ensures { Gives result
        (op_faults sig.now.ops (spot_of name.entry) (spot_of least.entry) is_open (map flag_of flags.now))
        (λ _. Unit {0}) }
{
    let is_held = sig.find_op(name.text).is_some();
    check_name(
        name,
        is_held,
        sig.op_count() as usize,
        MAX_OPS as usize,
        false,
    )?;
    let count = number_of(least.text, MAX_ARITY);
    if has_bad_flags(count, is_open, flags) {
        return Err(error_at(TextKind::BadFlags, name.place));
    }
    if count > MAX_ARITY {
        return Err(error_at(TextKind::TooMany, least.place));
    }
    check_sign(sig, sign_spot(flags))
}

/// The sign of a flag, where there is one. It has 4 bytes at most.
fn new_sign(alloc: Global, sign: Option<InfixSign<'_>>) -> Result<Option<Sign>, TextError>
    requires { is_long_sign (option_map spot_of_sign sign) ≡ false }
    ensures { Gives result [] (λ s. s ≡ option_map (λ s. s.text.now) sign.entry) }
{
    match sign {
        None => Ok(None),
        Some(sign) => match Sign::new(alloc, sign.text) {
            Ok(sign) => Ok(Some(sign)),
            Err(NameFault::Memory) => Err(TextError::Memory),
            Err(NameFault::Spelling) => unreachable!(),
        },
    }
}

/// The declaration of an operation, which has no fault.
fn new_decl(
    alloc: Global,
    name: Word<'_>,
    least: Word<'_>,
    is_open: bool,
    flags: &[Flag<'_>],
) -> Result<OpDecl, TextError>
    requires least { number_of least.text.now ≤ MAX_ARITY }
    requires sign { is_long_sign (sign_spot (map flag_of flags.now)) ≡ false }
    ensures { Gives result []
        (λ d. d ≡ op_decl (spot_of name.entry) (spot_of least.entry) is_open (map flag_of flags.now)) }
{
    Ok(OpDecl {
        name: new_name(alloc, name)?,
        least: number_of(least.text, MAX_ARITY),
        fixed: !is_open,
        assoc: is_said(flags, FlagSort::Assoc),
        comm: is_said(flags, FlagSort::Comm),
        one: is_said(flags, FlagSort::One),
        sign: new_sign(alloc, sign_spot(flags))?,
    })
}

/// Declares an operation.
fn declare_op(
    alloc: Global,
    sig: &mut Signature,
    name: Word<'_>,
    least: Word<'_>,
    is_open: bool,
    flags: &[Flag<'_>],
) -> Result<(), TextError>
    ensures { Gives result
        (op_faults sig.old.ops (spot_of name.entry) (spot_of least.entry) is_open (map flag_of flags.now))
        (λ _. sig.new
        ≡ record sig.old {
          ops = sig.old.ops ++ op_decl (spot_of name.entry) (spot_of least.entry) is_open
              (map flag_of flags.now) ∷ [];
        }) }
{
    check_op(sig, name, least, is_open, flags)?;
    let decl = new_decl(alloc, name, least, is_open, flags)?;
    match sig.add_op(decl) {
        Ok(_) => Ok(()),
        Err(SigFault::Memory) => Err(TextError::Memory),
        Err(_) => unreachable!(),
    }
}

/// The members of a kind, or the first fault.
fn new_members(alloc: Global, sig: &Signature, members: &[Word<'_>]) -> Result<Names, TextError>
    ensures { Gives result (flat_map (symbol_faults sig.now) (map spot_of members.now))
        (λ ns. ns ≡ map (λ m. m.text) (map spot_of members.now)) }
{
    let mut names = Names::new(alloc);
    for member in members {
        let name = symbol(alloc, sig, *member)?;
        names.push(name)?;
    }
    Ok(names)
}

/// Declares a kind.
fn declare_kind(
    alloc: Global,
    sig: &mut Signature,
    name: Word<'_>,
    members: &[Word<'_>],
) -> Result<(), TextError>
    ensures { Gives result (kind_faults sig.old (spot_of name.entry) (map spot_of members.now))
        (λ _. sig.new
        ≡ record sig.old {
          kinds = sig.old.kinds ++ kind_decl (spot_of name.entry) (map spot_of members.now)
              ∷ [];
        }) }
{
    let is_held = sig.find_kind(name.text).is_some();
    let is_large = members.len() > MAX_KIND_SYMBOLS;
    check_name(
        name,
        is_held,
        sig.kind_count() as usize,
        MAX_KINDS as usize,
        is_large,
    )?;
    let members = new_members(alloc, sig, members)?;
    let name = new_name(alloc, name)?;
    match sig.add_kind(name, members) {
        Ok(_) => Ok(()),
        Err(SigFault::Memory) => Err(TextError::Memory),
        Err(_) => unreachable!(),
    }
}

/// The signature of the operations that the statements declare, or the first fault of such a declaration.
fn declare_ops(alloc: Global, statements: &[Statement<'_>]) -> Result<Signature, TextError>
    ensures { Gives result (faults_by op_statement_faults [] (map statement_tree statements.now))
        (λ sig. sig ≡ sig_with (op_decls (map statement_tree statements.now)) []) }
{
    let mut sig = Signature::new(alloc)?;
    for statement in statements {
        if let Statement::Op {
            name,
            least,
            open: is_open,
            flags,
        } = statement
        {
            declare_op(alloc, &mut sig, *name, *least, *is_open, flags)?;
        }
    }
    Ok(sig)
}

/// Declares the kinds of the statements over the operations, or finds the first fault of such a declaration.
fn declare_kinds(
    alloc: Global,
    sig: &mut Signature,
    statements: &[Statement<'_>],
) -> Result<(), TextError>
    requires no_kinds { sig.old ≡ sig_with sig.old.ops [] }
    ensures { Gives result (faults_by (kind_statement_faults sig.old.ops) [] (map statement_tree statements.now))
        (λ _. sig.new ≡ sig_with sig.old.ops (map statement_tree statements.now)) }
{
    for statement in statements {
        if let Statement::Kind { name, members } = statement {
            declare_kind(alloc, sig, *name, members)?;
        }
    }
    Ok(())
}

/// The signature that the statements declare, its operations and kinds in their order: `sig_of` of `specs/Build.antt`.
/// Statements that declare nothing are passed over.
///
/// - `Text`: the first fault of a declaration, by `declaration_faults` of `specs/Checks.antt`: those of operations come
///   before those of kinds.
/// - `Memory`: memory ran out.
pub fn declare(alloc: Global, statements: &[Statement<'_>]) -> Result<Signature, TextError>
    ensures { Gives result (declaration_faults (map statement_tree statements.now))
        (λ sig. sig ≡ sig_of (map statement_tree statements.now)) }
{
    let mut sig = declare_ops(alloc, statements)?;
    declare_kinds(alloc, &mut sig, statements)?;
    Ok(sig)
}
