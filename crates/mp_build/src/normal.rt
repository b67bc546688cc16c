//! Patterns of expressions in normal form.

ghost use Rattle.std.specs.Prelude.{◌≡◌, [], true, IsTrue};
ghost use Rattle.mp_pattern.specs.Normal.{normal_pattern, IsNormalPattern};
ghost use Rattle.mp_pattern.specs.Sound.{DefaultsAreNormal, holds_ops};
ghost use Rattle.mp_pattern.specs.View.{pattern_tree};
ghost use Rattle.mp_parser.specs.View.{expr_tree};
ghost use Rattle.mp_build.specs.Answers.{Gives};
ghost use Rattle.mp_build.specs.Build.{pattern_of};
ghost use Rattle.mp_build.specs.Checks.{whole_pattern_faults};

use crate::build::whole_pattern;
use crate::fault::TextError;
use crate::operations::{are_few_and_free, has_equation};
use mp_pattern::{Pattern, normalise_pattern};
use mp_syntax::Expr;
use mp_term::Signature;
use std::alloc::Global;

// No operation of the pattern has an equation, so that it is its own normal form.
fn is_plain(sig: &Signature, pattern: &Pattern) -> bool
    ensures { IsTrue result → IsNormalPattern sig.now (pattern_tree pattern.now) }
{
    match pattern {
        Pattern::Sym(_) => true,
        Pattern::Wild(_, _) => true,
        Pattern::App(op, args) => {
            if has_equation(sig, *op) {
                return false;
            }
            for arg in args.as_slice() {
                if !is_plain(sig, arg) {
                    return false;
                }
            }
            true
        }
    }
}

/// The pattern of a whole expression in normal form: that of `pattern_of` of `specs/Build.antt`.
///
/// - `Text`: the first fault of the expression as a pattern, by `whole_pattern_faults` of `specs/Checks.antt`.
/// - `Memory`: memory ran out.
pub fn normal_pattern(alloc: Global, sig: &Signature, expr: &Expr<'_>) -> Result<Pattern, TextError>
    ensures { Gives result (whole_pattern_faults sig.now (expr_tree expr.now))
        (λ p. pattern_tree p ≡ normal_pattern sig.now (pattern_of sig.now (expr_tree expr.now))) }
{
    let pattern = whole_pattern(alloc, sig, expr)?;
    normal_built_pattern(alloc, sig, pattern)
}

/// The normal form of a pattern whose operations are held and whose defaults are normal, by `normal_pattern` of
/// mp_pattern's `specs/Normal.antt`: the pattern itself, where none of its operations has an equation.
///
/// `Memory`: memory ran out. No other error comes.
pub fn normal_built_pattern(
    alloc: Global,
    sig: &Signature,
    pattern: Pattern,
) -> Result<Pattern, TextError>
    requires held { holds_ops sig.now (pattern_tree pattern) ≡ true }
    requires defaults { DefaultsAreNormal sig.now (pattern_tree pattern) }
    ensures { Gives result [] (λ p. pattern_tree p ≡ normal_pattern sig.now (pattern_tree pattern)) }
{
    if are_few_and_free(sig) || is_plain(sig, &pattern) {
        return Ok(pattern);
    }
    let pattern = normalise_pattern(alloc, sig, pattern)?;
    Ok(pattern)
}
