//! Reads terms and patterns that stand alone.

ghost use Rattle.std.specs.Prelude.{◌≡◌, ◌<◌, ◌-◌, ◌^◌, length, IfOk};
ghost use Rattle.mp_term.specs.Tree as term;
ghost use Rattle.mp_term.specs.View.{tree};
ghost use Rattle.mp_pattern.specs.PatternTree as pattern;
ghost use Rattle.mp_pattern.specs.View.{pattern_tree};
ghost use Rattle.mp_syntax.specs.Reading.{expr_reading};
ghost use Rattle.mp_parser.specs.View.{expr_tree};
ghost use Rattle.mp_build.specs.declared.fault.TextFault as plain;
ghost use Rattle.mp_build.specs.Answers.{Gives};
ghost use Rattle.mp_build.specs.Build.{pattern_of};
ghost use Rattle.mp_build.specs.Answers.{IfText, IsFaultOrMemory};
ghost use Rattle.mp_build.specs.Alone.{start, term_alone_faults, pattern_alone_faults, normal_term_of, IsTermOf};
ghost use Rattle.mp_build.specs.Alone.{IsTermFaultOf, IsPatternOf, IsPatternFaultOf, Answers, IsValueOrMemory};

use crate::build::{normal_term, whole_pattern};
use crate::checks::{is_large_pattern, is_large_term};
use crate::fault::{TextError, TextKind, error_at};
use bumpalo::Bump;
use mp_pattern::Pattern;
use mp_syntax::{Expr, Place, read_expression};
use mp_term::{Signature, Term};
use std::alloc::Global;

/// Reads one term over a signature, and gives its normal form.
///
/// The text is a term exactly where its tokens spell an expression (`IsExprOf` of mp_parser's `specs/Syntax.antt`) in
/// which no check finds a fault (`term_alone_faults` of `specs/Alone.antt`). It has fewer than 4,294,967,295 bytes.
///
/// - `Text`: the text has this fault, by `IsTermFaultOf` of `specs/Alone.antt`, with its line and column, from 1: the
///   first that its tokens or the grammar have, and where it is an expression, the first that the checks find. A term
///   of more than 100,000 nodes, or with a default of more than 64, has the fault `TooMany` at its first token.
/// - `Memory`: memory ran out.
///
/// After an error nothing is kept.
pub fn read_term(alloc: Global, sig: &Signature, bytes: &[u8]) -> Result<Term, TextError>
    requires { length bytes.now < 2 ^ 32 - 1 }

    // What is answered is the normal form of the term that the bytes are.
    ensures found { IfOk result (λ t. IsTermOf sig.now bytes.now (tree t)) }
    // The normal form of the term that the bytes are is answered, unless memory runs out.
    ensures only { (t : term.Tree) → IsTermOf sig.now bytes.now t → IsValueOrMemory result (λ u. tree u ≡ t) }
    // The fault that is answered is the fault of the bytes.
    ensures fault { IfText result (λ f. IsTermFaultOf sig.now bytes.now f) }
    // The fault of the bytes is answered, unless memory runs out.
    ensures only_fault { (f : plain.TextFault) → IsTermFaultOf sig.now bytes.now f
        → IsFaultOrMemory result (λ g. g ≡ f) }
{
    term_of_text(alloc, sig, bytes)
}

/// Reads one pattern over a signature, and gives it as it is written, with its defaults in normal form.
///
/// The text is a pattern exactly where its tokens spell an expression (`IsExprOf` of mp_parser's `specs/Syntax.antt`)
/// in which no check finds a fault (`pattern_alone_faults` of `specs/Alone.antt`). It has fewer than 4,294,967,295
/// bytes.
///
/// - `Text`: the text has this fault, by `IsPatternFaultOf` of `specs/Alone.antt`, with its line and column, from 1:
///   the first that its tokens or the grammar have, and where it is an expression, the first that the checks find. A
///   pattern of more than 128 nodes or 32 variables, or with a default of more than 64 nodes, has the fault `TooMany`
///   at its first token.
/// - `Memory`: memory ran out.
///
/// After an error nothing is kept.
pub fn read_pattern(alloc: Global, sig: &Signature, bytes: &[u8]) -> Result<Pattern, TextError>
    requires { length bytes.now < 2 ^ 32 - 1 }

    // What is answered is the pattern that the bytes are.
    ensures found { IfOk result (λ p. IsPatternOf sig.now bytes.now (pattern_tree p)) }
    // The pattern that the bytes are is answered, unless memory runs out.
    ensures only { (p : pattern.Pattern) → IsPatternOf sig.now bytes.now p
        → IsValueOrMemory result (λ q. pattern_tree q ≡ p) }
    // The fault that is answered is the fault of the bytes.
    ensures fault { IfText result (λ f. IsPatternFaultOf sig.now bytes.now f) }
    // The fault of the bytes is answered, unless memory runs out.
    ensures only_fault { (f : plain.TextFault) → IsPatternFaultOf sig.now bytes.now f
        → IsFaultOrMemory result (λ g. g ≡ f) }
{
    pattern_of_text(alloc, sig, bytes)
}

/// Reads one term, or finds its fault.
fn term_of_text(alloc: Global, sig: &Signature, bytes: &[u8]) -> Result<Term, TextError>
    requires { length bytes.now < 2 ^ 32 - 1 }
    ensures { Answers (term_alone_faults sig.now) (normal_term_of sig.now) tree (expr_reading bytes.now) result }
{
    let bump = Bump::new(alloc);
    let expr = read_expression(alloc, &bump, bytes)?;
    term_alone(alloc, sig, &expr)
}

/// Reads one pattern, or finds its fault.
fn pattern_of_text(alloc: Global, sig: &Signature, bytes: &[u8]) -> Result<Pattern, TextError>
    requires { length bytes.now < 2 ^ 32 - 1 }
    ensures { Answers (pattern_alone_faults sig.now) (pattern_of sig.now) pattern_tree (expr_reading bytes.now) result }
{
    let bump = Bump::new(alloc);
    let expr = read_expression(alloc, &bump, bytes)?;
    pattern_alone(alloc, sig, &expr)
}

/// The normal form of the term of an expression alone, or its first fault.
fn term_alone(alloc: Global, sig: &Signature, expr: &Expr<'_>) -> Result<Term, TextError>
    ensures { Gives result (term_alone_faults sig.now (expr_tree expr.now))
        (λ t. tree t ≡ normal_term_of sig.now (expr_tree expr.now)) }
{
    if is_large_term(expr) {
        return Err(error_at(TextKind::TooMany, start(expr)));
    }
    normal_term(alloc, sig, expr)
}

/// The pattern of an expression alone as it is written, or its first fault.
fn pattern_alone(alloc: Global, sig: &Signature, expr: &Expr<'_>) -> Result<Pattern, TextError>
    ensures { Gives result (pattern_alone_faults sig.now (expr_tree expr.now))
        (λ p. pattern_tree p ≡ pattern_of sig.now (expr_tree expr.now)) }
{
    if is_large_pattern(alloc, expr)? {
        return Err(error_at(TextKind::TooMany, start(expr)));
    }
    whole_pattern(alloc, sig, expr)
}

/// The place of the first token of an expression.
fn start(expr: &Expr<'_>) -> Place
    ensures { result ≡ start (expr_tree expr.now) }
{
    match *expr {
        Expr::Symbol(word) => word.place,
        Expr::Apply(name, _) => name.place,
        Expr::Infix { open: place, .. } => place,
        Expr::Wild(wild) => wild.place,
        Expr::Optional { wildcard, .. } => wildcard.place,
        Expr::Counted { wildcard, .. } => wildcard.place,
        Expr::Variable(name) => name.place,
    }
}
