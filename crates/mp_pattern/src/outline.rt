//! The subpatterns, the occurrences of variables and the variables of a pattern, as a plan is made of them.
ghost use Rattle.std.specs.Prelude.{◌≡◌, ◌+◌, ◌-◌, ◌^◌, ◌≤◌, ◌<◌, ◌++◌, None, [], map, length, min, OnOk, IfOk, IfSome};
ghost use Rattle.std.specs.Prelude.{option_map};
ghost use Rattle.std.specs.List.{list_any};
ghost use Rattle.mp_pattern.specs.View.{wildcard, pattern_tree};
ghost use Rattle.mp_pattern.specs.Size.{pattern_nodes};
ghost use Rattle.mp_pattern.specs.Subpatterns.{subpatterns};
ghost use Rattle.mp_pattern.specs.Firsts.{is_known, firsts_after};
ghost use Rattle.mp_pattern.specs.Value.{same_name};
ghost use Rattle.mp_pattern.specs.Variables.{uses, variables};
ghost use Rattle.mp_pattern.specs.Clash.{same_shape, clashes, first_clash_after};
ghost use Rattle.mp_pattern.specs.UseView.{occurrence};

use crate::order::{compare_shapes, wildcard_class};
use crate::pattern::{Pattern, Shape};
use mp_term::{Name, OpId};
use std::alloc::{AllocError, Global};

// An occurrence of a variable: its name, its wildcard, and the operation directly above.
#[derive(Drop)]
pub(crate) struct Occurrence<'a> {
    pub(crate) name: &'a Name,
    pub(crate) shape: &'a Shape,
    pub(crate) under: Option<OpId>,
}

// The occurrences of variables in a pattern, its variables by first occurrence, and its subpatterns in preorder.
#[derive(Drop)]
pub(crate) struct Outline<'a> {
    pub(crate) occurrences: Vec<Occurrence<'a>>,
    pub(crate) names: Vec<&'a Name>,
    pub(crate) patterns: Vec<&'a Pattern>,
}

// The number of nodes, a wildcard with its default being one, or the greatest `u32` where there are more.
pub(crate) fn node_count(pattern: &Pattern) -> u32
    ensures { result ≡ min (pattern_nodes (pattern_tree pattern.now)) (2 ^ 32 - 1) }
{
    match pattern {
        Pattern::Sym(_) => 1,
        Pattern::App(_, args) => {
            let mut count: u32 = 1;
            for arg in &args.items {
                count = count.saturating_add(node_count(arg));
            }
            count
        }
        Pattern::Wild(_, _) => 1,
    }
}

// Adds the pattern and, for an application, the subpatterns of its arguments, in preorder.
fn push_subpatterns<'a>(out: &mut Vec<&'a Pattern>, pattern: &'a Pattern) -> Result<(), AllocError>
    ensures { OnOk result (map (λ p. pattern_tree p.now) out.new.items
        ≡ map (λ p. pattern_tree p.now) out.old.items ++ subpatterns (pattern_tree pattern.now)) }
{
    out.push(pattern)?;
    if let Pattern::App(_, args) = pattern {
        for arg in &args.items {
            push_subpatterns(out, arg)?;
        }
    }
    Ok(())
}

// The subpatterns of the pattern in preorder.
fn subpatterns_of<'a>(alloc: Global, pattern: &'a Pattern) -> Result<Vec<&'a Pattern>, AllocError>
    ensures { IfOk result (λ ps. map (λ p. pattern_tree p.now) ps.items ≡ subpatterns (pattern_tree pattern.now)) }
{
    let mut patterns = Vec::with_capacity(alloc, node_count(pattern) as usize)?;
    push_subpatterns(&mut patterns, pattern)?;
    Ok(patterns)
}

// Adds the occurrences of variables in the pattern, which stands under the operation, in preorder.
fn push_occurrences<'a>(
    out: &mut Vec<Occurrence<'a>>,
    pattern: &'a Pattern,
    under: Option<OpId>,
) -> Result<(), AllocError>
    ensures { OnOk result (map occurrence out.new.items
        ≡ map occurrence out.old.items ++ uses (option_map (λ f. f.0) under) (pattern_tree pattern.now)) }
{
    match pattern {
        Pattern::Sym(_) => Ok(()),
        Pattern::App(op, args) => {
            for arg in &args.items {
                push_occurrences(out, arg, Some(*op))?;
            }
            Ok(())
        }
        Pattern::Wild(_, None) => Ok(()),
        Pattern::Wild(shape, Some(name)) => {
            out.push(Occurrence { name, shape, under })?;
            Ok(())
        }
    }
}

// The name is one of these.
fn is_known(known: &[&Name], name: &Name) -> bool
    ensures { result ≡ is_known same_name (map (λ n. n.now) known.now) name.now }
{
    for other in known {
        if **other == *name {
            return true;
        }
    }
    false
}

// The names of the occurrences, each at its first place.
fn first_names<'a>(
    alloc: Global,
    occurrences: &[Occurrence<'a>],
) -> Result<Vec<&'a Name>, AllocError>
    ensures { IfOk result (λ names. map (λ n. n.now) names.items
        ≡ firsts_after same_name [] (map (λ u. u.name) (map occurrence occurrences.now))) }
{
    let mut names = Vec::new(alloc);
    for occurrence in occurrences {
        if !is_known(&names, occurrence.name) {
            names.push(occurrence.name)?;
        }
    }
    Ok(names)
}

// The shapes are of one class, and of one kind or one default.
fn same_shape(v: &Shape, w: &Shape) -> bool
    ensures { result ≡ same_shape (wildcard v.now) (wildcard w.now) }
{
    wildcard_class(v) == wildcard_class(w) && compare_shapes(v, w).is_eq()
}

// The patterns are wildcards of one variable and of another shape.
fn clashes(p: &Pattern, q: &Pattern) -> bool
    ensures { result ≡ clashes (pattern_tree p.now) (pattern_tree q.now) }
{
    match (p, q) {
        (Pattern::Wild(v, Some(x)), Pattern::Wild(w, Some(y))) => *x == *y && !same_shape(v, w),
        _ => false,
    }
}

// One of the patterns before clashes with the pattern.
fn clashes_with_any(before: &[&Pattern], pattern: &Pattern) -> bool
    ensures { result ≡ list_any (λ q. clashes q (pattern_tree pattern.now)) (map (λ p. pattern_tree p.now) before.now) }
{
    for earlier in before {
        if clashes(earlier, pattern) {
            return true;
        }
    }
    false
}

// The place of the first pattern that clashes with one before it, from 0.
pub(crate) fn first_clash(patterns: &[&Pattern]) -> Option<usize>
    ensures index { result ≡ first_clash_after [] (map (λ p. pattern_tree p.now) patterns.now) }
    ensures within { IfSome result (λ i. i < length patterns.now) }
{
    for (i, pattern) in patterns.iter().enumerate() {
        if clashes_with_any(&patterns[..i], pattern) {
            return Some(i);
        }
    }
    None
}

// The outline of a pattern.
pub(crate) fn outline_of<'a>(alloc: Global, pattern: &'a Pattern) -> Result<Outline<'a>, AllocError>
    ensures occurrences { IfOk result (λ o. map occurrence o.occurrences.items ≡ uses None (pattern_tree pattern.now)) }
    ensures names { IfOk result (λ o. map (λ n. n.now) o.names.items ≡ variables (pattern_tree pattern.now)) }
    ensures patterns { IfOk result (λ o.
        map (λ p. pattern_tree p.now) o.patterns.items ≡ subpatterns (pattern_tree pattern.now)) }
{
    let mut occurrences = Vec::new(alloc);
    push_occurrences(&mut occurrences, pattern, None)?;
    let names = first_names(alloc, &occurrences)?;
    let patterns = subpatterns_of(alloc, pattern)?;
    Ok(Outline {
        occurrences,
        names,
        patterns,
    })
}
