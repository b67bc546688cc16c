//! Merging, the order and the equality of substitutions on cases worked out by hand.

ghost use Rattle.std.specs.Prelude.{◌≡◌, [], ◌∷◌, map, codes};
ghost use Rattle.mp_subst.specs.View.{subst_of};

use crate::values::{is_value, name, value};
use mp_subst::{
    Binding, Bindings, Pair, Subst, Value, compare_subst, copy_subst, merge, same_subst,
};
use std::alloc::Global;
use std::cmp::Ordering;
use std::process::Abort;

// The variable of that name with the value of the text.
fn binding(rt: &impl Abort, alloc: Global, letters: &[u8], text: &[u8]) -> Binding
    ensures { result.name ≡ letters.now }
{
    Binding {
        name: name(rt, alloc, letters),
        value: value(rt, alloc, text),
    }
}

// The variables x and y with the values.
fn subst(rt: &impl Abort, alloc: Global, x: &[u8], y: &[u8]) -> Subst
    ensures { map (λ b. b.name) (subst_of result) ≡ codes "x" ∷ codes "y" ∷ [] }
{
    let mut bindings = Bindings::new(alloc);
    bindings
        .push(binding(rt, alloc, b"x", x))
        .expect(rt, "memory");
    bindings
        .push(binding(rt, alloc, b"y", y))
        .expect(rt, "memory");
    Subst { bindings }
}

// Whether the pair has the rule 3, and two bindings, the second of a multiset.
fn is_pair(pair: &Pair) -> bool {
    let bindings = &pair.subst.bindings;
    (pair.rule, bindings.len(), bindings.as_slice().len()) == (3, 2, 2)
        && matches!(
            bindings.get(1),
            Some(Binding {
                value: Value::Bag(_),
                ..
            })
        )
        && bindings.get(2).is_none()
}

#[test]
fn bindings_hold_what_was_pushed(rt: HostRuntime) {
    let subst = subst(&rt, rt.alloc(), b"a", b"{ab}");
    assert!(rt; is_pair(&Pair { rule: 3, subst }));
}

// What two values merge to, or both where they don't.
type Merged = Result<Value, (Value, Value)>;

// Whether the answer is the third value of the row, or the first two where that is no text.
fn is_answer(rt: &impl Abort, alloc: Global, answer: &Merged, row: &(&str, &str, &str)) -> bool {
    match answer {
        Ok(merged) => is_value(rt, alloc, merged, row.2.as_bytes()),
        Err(both) => {
            row.2.is_empty()
                && is_value(rt, alloc, &both.0, row.0.as_bytes())
                && is_value(rt, alloc, &both.1, row.1.as_bytes())
        }
    }
}

// Whether the first two values merge to the third one, or come back where that is no text.
fn merges(rt: &impl Abort, alloc: Global, row: &(&str, &str, &str)) -> bool {
    let old = value(rt, alloc, row.0.as_bytes());
    let answer = merge(old, value(rt, alloc, row.1.as_bytes()));
    is_answer(rt, alloc, &answer, row)
}

// Two values and, behind them, what they merge to; nothing where they don't.
const MERGED: &[(&str, &str, &str)] = &[
    ("a", "a", "a"),
    ("a", "b", ""),
    ("(ba)", "(ba)", "(ba)"),
    ("(ab)", "(ba)", ""),
    ("{ab}", "{ab}", "{ab}"),
    ("{aab}", "{abb}", ""),
    ("(ba)", "{ab}", "(ba)"),
    ("{ab}", "(ba)", "(ba)"),
    ("{}", "()", "()"),
    ("{aab}", "(bab)", ""),
    ("{ab}", "(a)", ""),
    ("(a)", "{ab}", ""),
    ("a", "(a)", ""),
    ("{a}", "a", ""),
];

#[test]
fn values_merge(rt: HostRuntime) {
    for row in MERGED {
        assert!(rt; merges(&rt, rt.alloc(), row), "{} {}", row.0, row.1);
    }
}

// The values of x and of y, in ascending order of their substitutions.
const ASCENDING: &[(&str, &str)] = &[
    ("a", "a"),
    ("a", "b"),
    ("b", "a"),
    ("()", "a"),
    ("(b)", "a"),
    ("(b)", "(a)"),
    ("(aa)", "a"),
    ("(ba)", "a"),
    ("{}", "a"),
    ("{c}", "a"),
    ("{ab}", "(a)"),
    ("{ab}", "{}"),
];

// Whether both substitutions compare so, and are the same just where they compare as equal.
fn compare_so(first: &Subst, second: &Subst, wanted: Ordering) -> bool
    requires { map (λ b. b.name) (subst_of first.now) ≡ map (λ b. b.name) (subst_of second.now) }
{
    compare_subst(first, second) == wanted && same_subst(first, second) == wanted.is_eq()
}

// The substitution of a row.
fn row_subst(rt: &impl Abort, alloc: Global, row: &(&str, &str)) -> Subst
    ensures { map (λ b. b.name) (subst_of result) ≡ codes "x" ∷ codes "y" ∷ [] }
{
    subst(rt, alloc, row.0.as_bytes(), row.1.as_bytes())
}

// Whether a copy of the substitution is the same.
fn is_copied(rt: &impl Abort, alloc: Global, subst: &Subst) -> bool {
    same_subst(subst, &copy_subst(alloc, subst).expect(rt, "memory"))
}

#[test]
fn substitutions_ascend(rt: HostRuntime) {
    for (i, row) in ASCENDING.iter().enumerate() {
        let first = row_subst(&rt, rt.alloc(), row);
        assert!(rt; is_copied(&rt, rt.alloc(), &first));
        for (j, other) in ASCENDING.iter().enumerate() {
            let second = row_subst(&rt, rt.alloc(), other);
            assert!(rt; compare_so(&first, &second, i.cmp(&j)), "{i} {j}");
        }
    }
}

// The variables of the letters, each with the value a.
fn variables(rt: &impl Abort, alloc: Global, letters: &[u8]) -> Subst {
    let mut bindings = Bindings::new(alloc);
    for letter in letters {
        bindings
            .push(binding(rt, alloc, &[*letter], b"a"))
            .expect(rt, "memory");
    }
    Subst { bindings }
}

// Whether the variables of the letters make another substitution than x and y.
fn make_another(rt: &impl Abort, alloc: Global, letters: &[u8]) -> bool {
    let both = variables(rt, alloc, b"xy");
    let other = variables(rt, alloc, letters);
    !same_subst(&both, &other) && !same_subst(&other, &both)
}

#[test]
fn other_variables_make_another_substitution(rt: HostRuntime) {
    assert!(rt; make_another(&rt, rt.alloc(), b"x") && make_another(&rt, rt.alloc(), b"xz"));
}
