//! Normal forms of patterns.
ghost use Rattle.std.specs.Prelude.{◌≡◌, ◌++◌, map, OnOk, IfOk, MatchOption, true};
ghost use Rattle.mp_pattern.specs.PatternTree.{app_pattern, patterns};
ghost use Rattle.mp_pattern.specs.View.{pattern_tree};
ghost use Rattle.mp_pattern.specs.Normal.{is_loose, is_collapsible, parts, flattened, in_order, collapsed};
ghost use Rattle.mp_pattern.specs.Normal.{normal_pattern};
ghost use Rattle.mp_pattern.specs.Sound.{holds_ops, DefaultsAreNormal};

use crate::pattern::{Pattern, Patterns};
use mp_term::{Memory, OpId, Signature};
use std::alloc::Global;
use std::mem;

// Puts the arguments of a commutative operation into the pattern order.
fn put_in_order(sig: &Signature, op: OpId, args: &mut Patterns)
    ensures { args.new ≡ in_order sig.now op.0 args.old }
{
    if sig.is_comm(op) {
        args.items.sort_unstable();
    }
}

// Adds what an argument of the operation gives: its own arguments, where the operation is associative and its head.
fn push_parts(out: &mut Patterns, sig: &Signature, op: OpId, pattern: Pattern) -> Result<(), Memory>
    ensures ok { OnOk result (out.new ≡ out.old ++ parts sig.now op.0 (pattern_tree pattern)) }
{
    match pattern {
        Pattern::Sym(name) => out.push(Pattern::Sym(name)),
        Pattern::Wild(shape, name) => out.push(Pattern::Wild(shape, name)),
        Pattern::App(inner, mut args) => {
            if inner.0 != op.0 || !sig.is_assoc(op) {
                return out.push(Pattern::App(inner, args));
            }
            out.items.append(&mut args.items)?;
            Ok(())
        }
    }
}

// The pattern is a wildcard that may take no argument or several.
pub(crate) fn is_loose(pattern: &Pattern) -> bool
    ensures { result ≡ is_loose (pattern_tree pattern.now) }
{
    match pattern {
        Pattern::Wild(shape, _) => shape.is_loose(),
        _ => false,
    }
}

// The arguments are one pattern that isn't loose.
fn is_collapsible(args: &[Pattern]) -> bool
    ensures { result ≡ is_collapsible (map pattern_tree args.now) }
{
    match args {
        [only] => !is_loose(only),
        _ => false,
    }
}

// Replaces the arguments of an associative operation that are headed by it by their arguments.
fn flatten(alloc: Global, sig: &Signature, op: OpId, args: &mut Patterns) -> Result<(), Memory>
    ensures { OnOk result (args.new ≡ flattened sig.now op.0 args.old) }
{
    if !sig.is_assoc(op) {
        return Ok(());
    }
    let nested = mem::replace(args, Patterns::with_room(alloc, args.len())?);
    for arg in nested.items {
        push_parts(args, sig, op, arg)?;
    }
    Ok(())
}

// Takes the argument that a one-identity operation of one argument is replaced by, which isn't loose.
fn take_only(sig: &Signature, op: OpId, args: &mut Patterns) -> Option<Pattern>
    ensures { MatchOption result
        ((args.new ≡ args.old) × (collapsed sig.now op.0 args.old ≡ app_pattern op.0 (patterns args.old)))
        (λ p. collapsed sig.now op.0 args.old ≡ pattern_tree p) }
{
    if sig.is_one(op) && is_collapsible(&args.items) {
        return args.items.pop();
    }
    None
}

// Puts the pattern into normal form, from the leaves up.
fn normalise(alloc: Global, sig: &Signature, pattern: &mut Pattern) -> Result<(), Memory>
    ensures { OnOk result (pattern_tree pattern.new ≡ normal_pattern sig.now (pattern_tree pattern.old)) }
{
    if let Pattern::App(op, args) = pattern {
        let op = *op;
        for arg in args.items.iter_mut() {
            normalise(alloc, sig, arg)?;
        }
        flatten(alloc, sig, op, args)?;
        put_in_order(sig, op, args);
        if let Some(only) = take_only(sig, op, args) {
            *pattern = only;
        }
    }
    Ok(())
}

/// The normal form of a pattern (`normal_pattern` of `specs/Normal.antt`): the arguments are normalised, those of an
/// associative operation that are headed by it are replaced by their arguments, those of a commutative operation are
/// sorted by the pattern order, and a one-identity operation of one argument is replaced by that argument, unless it is
/// a plus, star, counted or optional wildcard. Its operations are held and its defaults normal, as before. `Memory`
/// comes where there is no room for the flattened lists; the pattern is then dropped.
pub fn normalise_pattern(
    alloc: Global,
    sig: &Signature,
    pattern: Pattern,
) -> Result<Pattern, Memory>
    requires held { holds_ops sig.now (pattern_tree pattern) ≡ true }
    requires defaults { DefaultsAreNormal sig.now (pattern_tree pattern) }
    ensures normal { IfOk result (λ p. pattern_tree p ≡ normal_pattern sig.now (pattern_tree pattern)) }
    ensures held { IfOk result (λ p. holds_ops sig.now (pattern_tree p) ≡ true) }
    ensures defaults { IfOk result (λ p. DefaultsAreNormal sig.now (pattern_tree p)) }
{
    let mut normal = pattern;
    normalise(alloc, sig, &mut normal)?;
    Ok(normal)
}
