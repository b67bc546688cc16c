//! Makes terms of expressions whose operations may have any number of arguments.

ghost use Rattle.std.specs.Prelude.{◌≡◌, Option, Some, None, [], map, option_map, if◌then◌else◌};
ghost use Rattle.mp_term.specs.Tree as term;
ghost use Rattle.mp_term.specs.View.{tree};
ghost use Rattle.mp_parser.specs.Syntax.{trees};
ghost use Rattle.mp_parser.specs.View.{expr_tree};
ghost use Rattle.mp_build.specs.Answers.{Gives};
ghost use Rattle.mp_build.specs.Build.{has_term, all_have_terms, term_of};

use crate::build::new_name;
use crate::fault::TextError;
use mp_syntax::Expr;
use mp_term::{OpId, Signature, Term, Terms};
use std::alloc::Global;

/// The term of an expression as it is written, where it is one: it holds no wildcard, and each of its operations is one
/// of the signature's. It may have any number of arguments, and a symbol may have the name of an operation.
#[cycle(written_term)]
pub fn written_term(
    alloc: Global,
    sig: &Signature,
    expr: &Expr<'_>,
) -> Result<Option<Term>, TextError>
    ensures { Gives result [] (λ o. option_map tree o
        ≡ (if has_term sig.now (expr_tree expr.now) then Some (term_of sig.now (expr_tree expr.now)) else None)) }
{
    match *expr {
        Expr::Symbol(word) => {
            let name = new_name(alloc, word)?;
            Ok(Some(Term::Sym(name)))
        }
        Expr::Apply(name, args) => match sig.find_op(name.text) {
            None => Ok(None),
            Some(op) => written_application(alloc, sig, op, args),
        },
        Expr::Infix { sign, operands, .. } => match sig.find_sign(sign.text) {
            None => Ok(None),
            Some(op) => written_application(alloc, sig, op, operands),
        },
        Expr::Wild(_) => Ok(None),
        Expr::Optional { .. } => Ok(None),
        Expr::Counted { .. } => Ok(None),
        Expr::Variable(_) => Ok(None),
    }
}

/// The operation applied to the terms of expressions, where each is one.
#[cycle(written_term)]
fn written_application(
    alloc: Global,
    sig: &Signature,
    op: OpId,
    args: &[Expr<'_>],
) -> Result<Option<Term>, TextError>
    ensures { Gives result [] (λ o. option_map tree o
        ≡ (if all_have_terms sig.now (trees (map expr_tree args.now)) then Some
        (term.app op.0 (term.trees (map (term_of sig.now) (map expr_tree args.now)))) else None)) }
{
    match written_terms(alloc, sig, args)? {
        None => Ok(None),
        Some(terms) => Ok(Some(Term::App(op, terms))),
    }
}

/// The terms of expressions, where each is one.
#[cycle(written_term)]
fn written_terms(
    alloc: Global,
    sig: &Signature,
    exprs: &[Expr<'_>],
) -> Result<Option<Terms>, TextError>
    ensures { Gives result []
        (λ o. o ≡ (if all_have_terms sig.now (trees (map expr_tree exprs.now)) then Some
        (map (term_of sig.now) (map expr_tree exprs.now)) else None)) }
{
    let mut terms = Terms::with_room(alloc, exprs.len())?;
    for expr in exprs {
        match written_term(alloc, sig, expr)? {
            None => return Ok(None),
            Some(term) => terms.push(term)?,
        }
    }
    Ok(Some(terms))
}
