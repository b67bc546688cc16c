//! The items of each generator on small cases worked out by hand, begun anew after the end and in the middle.

ghost use Rattle.std.specs.Prelude.{◌≡◌, ◌≤◌, length as list_length, sum};
ghost use Rattle.mp_choice.specs.Splits.{leasts};
ghost use Rattle.mp_choice.specs.declared.limits.TheConstants.{MAX_TOTAL};

use crate::values::check;
use mp_choice::{Equations, MAX_TOTAL, Part, Splits, SubBags};
use std::alloc::Global;
use std::process::Abort;

const NONE_OR_MORE: Part = Part {
    least: 0,
    most: None,
};

const ONE_OR_MORE: Part = Part {
    least: 1,
    most: None,
};

const NONE_OR_ONE: Part = Part {
    least: 0,
    most: Some(1),
};

const ONE_OR_TWO: Part = Part {
    least: 1,
    most: Some(2),
};

const NO_LENGTH: Part = Part {
    least: 2,
    most: Some(1),
};

// Appends the numbers, in square brackets.
fn push_numbers(rt: &impl Abort, text: &mut String, numbers: &[u32]) {
    write!(text, "{numbers:?}").expect(rt, "memory");
}

// Appends the next splits, at most so many, and a semicolon.
fn next_splits(rt: &impl Abort, text: &mut String, splits: &mut Splits, most: usize)
    ensures room { splits.new.room ≡ splits.old.room }
{
    for _ in 0..most {
        if splits.next() {
            push_numbers(rt, text, splits.lengths());
        }
    }
    text.push_str(";").expect(rt, "memory");
}

// Appends the splits of the length by the parts.
fn all_splits(rt: &impl Abort, text: &mut String, splits: &mut Splits, length: u32, parts: &[Part])
    requires length_bound { length ≤ MAX_TOTAL }
    requires least_bound { leasts parts.now ≤ MAX_TOTAL }
    requires within_room { list_length parts.now ≤ splits.old.room }
    ensures room { splits.new.room ≡ splits.old.room }
{
    splits.restart(length, parts);
    next_splits(rt, text, splits, 8);
}

const THREE: [Part; 3] = [ONE_OR_TWO, NONE_OR_MORE, NONE_OR_ONE];

// Appends two splits of three, and all splits of several lengths, begun anew in the middle and after the end.
fn several_splits(rt: &impl Abort, text: &mut String, splits: &mut Splits)
    requires { splits.old.room ≡ 3 }
{
    next_splits(rt, text, splits, 2);
    all_splits(rt, text, splits, 3, &[ONE_OR_MORE, NONE_OR_MORE]);
    all_splits(rt, text, splits, 3, &THREE);
    all_splits(rt, text, splits, 0, &[]);
    all_splits(rt, text, splits, 1, &[]);
    all_splits(rt, text, splits, 1, &[ONE_OR_MORE, ONE_OR_TWO]);
    all_splits(rt, text, splits, 4, &[ONE_OR_TWO, NONE_OR_ONE]);
    all_splits(rt, text, splits, 5, &[NONE_OR_MORE, NO_LENGTH]);
}

// The last four lengths can't be had by their parts.
const SPLITS: &str = "[1, 1, 1][1, 2, 0];\
[1, 2][2, 1][3, 0];\
[1, 1, 1][1, 2, 0][2, 0, 1][2, 1, 0];\
[];;;;;";

#[test]
fn splits_are_listed_in_order(rt: HostRuntime) {
    let mut text = String::new(rt.alloc());
    let mut splits = Splits::begin(rt.alloc(), 3, &THREE).expect(&rt, "memory");
    several_splits(&rt, &mut text, &mut splits);
    assert!(rt; text.as_str() == SPLITS, "{text}");
}

// Appends the next sub-multisets, at most so many, and a semicolon.
fn next_bags(rt: &impl Abort, text: &mut String, bags: &mut SubBags, most: usize)
    ensures room { bags.new.room ≡ bags.old.room }
{
    for _ in 0..most {
        if bags.next() {
            push_numbers(rt, text, bags.counts());
        }
    }
    text.push_str(";").expect(rt, "memory");
}

// Appends the sub-multisets of the counts.
fn all_bags(rt: &impl Abort, text: &mut String, bags: &mut SubBags, counts: &[u32])
    requires bound { sum counts.now ≤ MAX_TOTAL }
    requires within_room { list_length counts.now ≤ bags.old.room }
    ensures room { bags.new.room ≡ bags.old.room }
{
    bags.restart(counts);
    next_bags(rt, text, bags, 12);
}

// Appends five sub-multisets, and all of several counts, begun anew in the middle and after the end.
fn several_bags(rt: &impl Abort, text: &mut String, bags: &mut SubBags)
    requires { bags.old.room ≡ 3 }
{
    next_bags(rt, text, bags, 5);
    all_bags(rt, text, bags, &[2, 1]);
    all_bags(rt, text, bags, &[1, 1, 1]);
    all_bags(rt, text, bags, &[]);
    all_bags(rt, text, bags, &[0, 2]);
}

const BAGS: &str = "[0, 0, 0][1, 0, 0][0, 1, 0][0, 0, 1][1, 1, 0];\
[0, 0][1, 0][0, 1][2, 0][1, 1][2, 1];\
[0, 0, 0][1, 0, 0][0, 1, 0][0, 0, 1][1, 1, 0][1, 0, 1][0, 1, 1][1, 1, 1];\
[];\
[0, 0][0, 1][0, 2];";

#[test]
fn sub_multisets_are_listed_in_order(rt: HostRuntime) {
    let mut text = String::new(rt.alloc());
    let mut bags = SubBags::begin(rt.alloc(), &[1, 1, 1]).expect(&rt, "memory");
    several_bags(&rt, &mut text, &mut bags);
    assert!(rt; text.as_str() == BAGS, "{text}");
}

// Whether the next sub-multiset begins so.
fn begins(bags: &mut SubBags, counts: &[u32]) -> bool {
    bags.next() && bags.counts().starts_with(counts)
}

// Whether the first three sub-multisets of sixty items are listed.
fn are_few_listed(bags: &mut SubBags) -> bool {
    begins(bags, &[0; 60]) && begins(bags, &[1]) && begins(bags, &[0, 1])
}

#[test]
fn few_of_very_many_sub_multisets_are_listed(rt: HostRuntime) {
    let mut bags = SubBags::begin(rt.alloc(), &[1; 60]).expect(&rt, "memory");
    assert!(rt; are_few_listed(&mut bags));
}

// The coefficients, the total, and the solutions.
type Equation = (&'static [u32], u32, &'static [&'static [u32]]);

const EQUATIONS: &[Equation] = &[
    (&[2, 1], 3, &[&[0, 3], &[1, 1]]),
    (&[2], 3, &[]),
    (&[2], 4, &[&[2]]),
    (&[], 0, &[&[]]),
    (&[], 1, &[]),
    (&[1, 2], 0, &[&[0, 0]]),
    (&[1, 1], 2, &[&[0, 2], &[1, 1], &[2, 0]]),
    (
        &[1, 2, 3],
        4,
        &[&[0, 2, 0], &[1, 0, 1], &[2, 1, 0], &[4, 0, 0]],
    ),
    (&[3, 2, 2], 7, &[&[1, 0, 2], &[1, 1, 1], &[1, 2, 0]]),
    (&[4, 2], 7, &[]),
    (&[1000000, 1], 1000000, &[&[0, 1000000], &[1, 0]]),
    (&[4294967295, 1], 4294967295, &[&[0, 4294967295], &[1, 0]]),
];

// Whether the next solutions are these, and no more.
fn are_solutions(equations: &mut Equations, items: &[&[u32]]) -> bool {
    for item in items {
        if !equations.next() || equations.solution() != *item {
            return false;
        }
    }
    !equations.next() && !equations.next()
}

// Whether the solutions of the equation are those of the row.
fn is_solved(rt: &impl Abort, alloc: Global, row: &Equation) -> bool {
    assert!(rt; row.0.len() <= MAX_TOTAL as usize);
    match Equations::begin(alloc, row.0, row.1) {
        Ok(mut equations) => are_solutions(&mut equations, row.2),
        Err(_) => false,
    }
}

#[test]
fn solutions_are_listed_in_order(rt: HostRuntime) {
    for row in EQUATIONS {
        assert!(rt; is_solved(&rt, rt.alloc(), row), "{}", row.1);
    }
}

// Coefficients, a total, and why they have no list of solutions.
const REFUSED: &[(&[u32], u32, &str)] = &[
    (&[1, 0], 2, "coefficient 1 is 0"),
    (&[0], 0, "coefficient 0 is 0"),
    (&[2, 0, 0, 1], 3, "coefficient 1 is 0"),
];

// Whether the equation of the row is refused so.
fn is_refused(rt: &impl Abort, alloc: Global, row: &(&[u32], u32, &str)) -> bool {
    assert!(rt; row.0.len() <= MAX_TOTAL as usize);
    match Equations::begin(alloc, row.0, row.1) {
        Ok(_) => false,
        Err(fault) => format!(in alloc; "{fault}").expect(rt, "memory").as_str() == row.2,
    }
}

#[test]
fn coefficients_of_zero_are_refused(rt: HostRuntime) {
    for row in REFUSED {
        check(&rt, is_refused(&rt, rt.alloc(), row), row.2);
    }
}
