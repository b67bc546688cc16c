//! Patterns and conditions: their order and their copies.

use crate::reading::{condition, file, parts, pattern};
use mp_pattern::{
    Amount, Cond, Operand, Pattern, Sense, copy_cond, copy_pattern, is_fully_named, is_syntactic,
    pattern_compare,
};
use mp_term::{OpId, Signature};
use std::alloc::Global;
use std::process::Abort;

/// An operation with all flags, one of three arguments and one of any number.
pub const DECLARED: &str = "op sum 1+ assoc comm one; op f 3; op g 0+; kind v: a b;";

// Ascending arguments of `g`, each with `n` where it is fully named and `s` where it is syntactic.
const ASCENDING: &str = "\
b|ns\n\
sum(a)|n\n\
f(a, b, c)|ns\n\
f(a, x_, c)|ns\n\
x_num|ns\n\
x_v|ns\n\
_num|s\n\
x_|ns\n\
y_|ns\n\
_|s\n\
x_:0|n\n\
x_:1|n\n\
x_{2}|n\n\
x_{2+}|n\n\
x_{3}|n\n\
y_{2}|n\n\
_{2}|\n\
x__|n\n\
___|";

// A copy of the first argument of the pattern, in a box.
fn first_argument(rt: &impl Abort, alloc: Global, applied: &Pattern) -> Box<Pattern> {
    match applied {
        Pattern::App(_, args) => {
            let first = args.get(0).expect(rt, "no argument");
            let copy = copy_pattern(alloc, first).expect(rt, "memory");
            Box::new(alloc, copy).expect(rt, "memory")
        }
        _ => panic!(rt; "no application"),
    }
}

// The text as the only argument of `g`.
fn argument(rt: &impl Abort, alloc: Global, sig: &Signature, text: &str) -> Box<Pattern> {
    let text = format!(in alloc; "g({text})").expect(rt, "memory");
    first_argument(rt, alloc, &pattern(rt, alloc, sig, text.as_str()))
}

// The patterns of the table.
fn ascending(rt: &impl Abort, alloc: Global, sig: &Signature) -> Vec<Box<Pattern>> {
    let mut patterns = Vec::new(alloc);
    for line in ASCENDING.split('\n') {
        let (text, _) = parts(rt, line, "|");
        let pattern = argument(rt, alloc, sig, text);
        patterns.push(pattern).expect(rt, "memory");
    }
    patterns
}

// Stops unless each pattern comes before the next.
fn check_ascending(rt: &impl Abort, patterns: &[Box<Pattern>]) {
    for i in 1..patterns.len() {
        let (first, second) = (&*patterns[i - 1], &*patterns[i]);
        assert!(rt;
            first < second && pattern_compare(second, first).is_gt(),
            "{i}"
        );
    }
}

#[test]
fn patterns_ascend(rt: HostRuntime) {
    let file = file(&rt, rt.alloc(), DECLARED);
    let patterns = ascending(&rt, rt.alloc(), &file.sig);
    assert!(rt; patterns.len() == 19);
    check_ascending(&rt, &patterns);
}

// Stops unless the pattern is fully named where the marks have `n`, and syntactic where they have `s`, and equal to its
// copy.
fn check_marks(rt: &impl Abort, alloc: Global, sig: &Signature, pattern: &Pattern, marks: &str) {
    assert!(rt; is_fully_named(pattern) == marks.contains('n'), "{marks}");
    assert!(rt;
        is_syntactic(sig, pattern) == marks.contains('s'),
        "{marks}"
    );
    let copy = copy_pattern(alloc, pattern).expect(rt, "memory");
    let copy = Box::new(alloc, copy).expect(rt, "memory");
    assert!(rt; pattern_compare(pattern, &copy).is_eq(), "{marks}");
}

#[test]
fn patterns_are_named_syntactic_and_copied(rt: HostRuntime) {
    let file = file(&rt, rt.alloc(), DECLARED);
    for line in ASCENDING.split('\n') {
        let (text, marks) = parts(&rt, line, "|");
        let pattern = argument(&rt, rt.alloc(), &file.sig, text);
        check_marks(&rt, rt.alloc(), &file.sig, &pattern, marks);
    }
}

// Whether the parts are `head($x, f)` and `count($x) >= 2`.
fn are_both(parts: &[Cond]) -> bool {
    matches!(
        parts,
        [
            Cond::Headed(Operand::Var(_), OpId(1)),
            Cond::Amounts(Amount::Count(_), Sense::Ge, Amount::Fixed(2)),
        ]
    )
}

// Whether the condition is `head($x, f) or count($x) >= 2`.
fn is_either(cond: &Cond) -> bool {
    match cond {
        Cond::Any(parts) => {
            parts.len() == 2
                && parts.get(1).is_some()
                && parts.get(2).is_none()
                && are_both(parts.as_slice())
        }
        _ => false,
    }
}

// Whether the condition is `not [head($x, f) or count($x) >= 2]`.
fn is_neither(cond: &Cond) -> bool {
    match cond {
        Cond::Not(part) => is_either(part.get()),
        _ => false,
    }
}

#[test]
fn conditions_are_copied(rt: HostRuntime) {
    let file = file(&rt, rt.alloc(), DECLARED);
    let cond = condition(
        &rt,
        rt.alloc(),
        &file.sig,
        "not [head($x, f) or count($x) >= 2]",
    );
    let copy = copy_cond(rt.alloc(), &cond).expect(&rt, "memory");
    let copy = Box::new(rt.alloc(), copy).expect(&rt, "memory");
    assert!(rt; is_neither(&copy));
}
