//! The patterns of tokens.

ghost use Rattle.std.specs.Prelude.{◌≡◌, ◌<◌, ◌^◌, ◌-◌, ◌↔◌, length, map, IsTrue, IfOk};
ghost use Rattle.mp_pattern.specs.Normal.{is_loose, is_collapsible};
ghost use Rattle.mp_pattern.specs.PatternTree.{patterns as patterns_of};
ghost use Rattle.mp_pattern.specs.View.{wildcard, pattern_tree};
ghost use Rattle.mp_program.specs.RightForm.{IsWildcardOf, is_headed, is_flat, are_flat, is_comm_rooted};
ghost use Rattle.mp_line.specs.Finds.{Finds};
ghost use Rattle.mp_line.specs.LineTexts.{HasRightWildcards, HaveRightWildcards, IsCommTree, IsCommText};

use crate::exact::exact_pattern;
use crate::numbers::number_of_name;
use mp_pattern::{Pattern, Shape};
use mp_program::Format;
use mp_term::{Memory, OpId, Signature};
use std::alloc::Global;

// The pattern is an application of the operation.
fn is_headed(op: OpId, pattern: &Pattern) -> bool
    ensures { result ≡ is_headed op.0 (pattern_tree pattern.now) }
{
    match pattern {
        Pattern::App(head, _) => op == *head,
        _ => false,
    }
}

// The pattern is a wildcard that may take no argument or several.
fn is_loose(pattern: &Pattern) -> bool
    ensures { result ≡ is_loose (pattern_tree pattern.now) }
{
    match pattern {
        Pattern::Wild(shape, _) => shape.is_loose(),
        _ => false,
    }
}

// The arguments are one pattern that isn't loose.
fn is_collapsible(args: &[Pattern]) -> bool
    ensures { result ≡ is_collapsible (map pattern_tree args.now) }
{
    match args {
        [only] => !is_loose(only),
        _ => false,
    }
}

// No associative operation stands directly under itself, and no one-identity application collapses.
#[cycle(is_flat)]
fn is_flat(sig: &Signature, pattern: &Pattern) -> bool
    ensures { result ≡ is_flat sig.now (pattern_tree pattern.now) }
{
    match pattern {
        Pattern::App(op, args) => {
            let args = args.as_slice();
            !(sig.is_one(*op) && is_collapsible(args)) && are_flat(sig, *op, args)
        }
        _ => true,
    }
}

// So is each argument of an operation.
#[cycle(is_flat)]
fn are_flat(sig: &Signature, op: OpId, args: &[Pattern]) -> bool
    ensures { result ≡ are_flat sig.now op.0 (patterns_of (map pattern_tree args.now)) }
{
    for arg in args {
        if sig.is_assoc(op) && is_headed(op, arg) || !is_flat(sig, arg) {
            return false;
        }
    }
    true
}

// A wildcard of this shape may stand in the format.
pub(crate) fn is_shape_of(format: Format, shape: &Shape) -> bool
    ensures { IsTrue result ↔ IsWildcardOf format (wildcard shape.now) }
{
    match (format, shape) {
        (Format::One, Shape::Counted { .. }) => false,
        _ => true,
    }
}

// Each variable is called by a number, and each wildcard may stand in the format.
#[cycle(has_right_wildcards)]
fn has_right_wildcards(format: Format, pattern: &Pattern) -> bool
    ensures { IsTrue result ↔ HasRightWildcards format (pattern_tree pattern.now) }
{
    match pattern {
        Pattern::Sym(_) => true,
        Pattern::App(_, args) => have_right_wildcards(format, args.as_slice()),
        Pattern::Wild(shape, None) => is_shape_of(format, shape),
        Pattern::Wild(shape, Some(name)) => {
            is_shape_of(format, shape) && number_of_name(name.bytes()).is_some()
        }
    }
}

// So are those of each pattern.
#[cycle(has_right_wildcards)]
fn have_right_wildcards(format: Format, patterns: &[Pattern]) -> bool
    ensures { IsTrue result ↔ HaveRightWildcards format (patterns_of (map pattern_tree patterns.now)) }
{
    for pattern in patterns {
        if !has_right_wildcards(format, pattern) {
            return false;
        }
    }
    true
}

// The root is an application of a commutative operation.
fn is_comm_rooted(sig: &Signature, pattern: &Pattern) -> bool
    ensures { result ≡ is_comm_rooted sig.now (pattern_tree pattern.now) }
{
    match pattern {
        Pattern::App(op, _) => sig.is_comm(*op),
        _ => false,
    }
}

// The pattern may be that of a token, but for its text.
fn is_comm_tree(sig: &Signature, format: Format, pattern: &Pattern) -> bool
    ensures { IsTrue result ↔ IsCommTree sig.now format (pattern_tree pattern.now) }
{
    is_comm_rooted(sig, pattern) && is_flat(sig, pattern) && has_right_wildcards(format, pattern)
}

// The pattern of a token, where the text is its printed text.
pub(crate) fn comm_pattern(
    alloc: Global,
    sig: &Signature,
    format: Format,
    text: &[u8],
) -> Result<Option<Pattern>, Memory>
    requires { length text.now < 2 ^ 32 - 1 }
    ensures { IfOk result (λ o. Finds pattern_tree (IsCommText sig.now format text.now) o) }
{
    let Some(pattern) = exact_pattern(alloc, sig, text)? else {
        return Ok(None);
    };
    let is_right = is_comm_tree(sig, format, &pattern);
    if is_right {
        Ok(Some(pattern))
    } else {
        Ok(None)
    }
}
