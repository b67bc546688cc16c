//! The items of a commutative matcher at the root of a pattern: what the nodes below the root take in each, in the
//! matcher's order, and the trail at each and behind the last.

ghost use Rattle.std.specs.Prelude.{◌≡◌, [], IfOk};
ghost use Rattle.mp_term.specs.View.{tree};
ghost use Rattle.mp_pattern.specs.Planned.{rule_plan};
ghost use Rattle.mp_ac.specs.Matcher.{IsMatcher};
ghost use Rattle.mp_tests.specs.Matched.{IsMatched};
ghost use Rattle.mp_tests.specs.Numbers.{AreNumbers};

use crate::first_rule::{Wanted, check_file};
use crate::matched::Matched;
use mp_ac::CommMatcher;
use mp_pattern::Pattern;
use mp_subst::Trail;
use mp_table::{Head, Rank};
use mp_term::Memory;
use std::alloc::Global;
use std::process::Abort;

// A file of a rule and a subject, and the ranks that each node below the rule's root takes, item after item.
const ROWS: &[(&str, &[&[u32]])] = &[
    (
        "op s 1+ comm; rule r: s(x_, y___); subject t: s(a, a, b);",
        &[&[0], &[0, 1], &[1], &[0, 0]],
    ),
    (
        "op plus 1+ assoc comm one infix +; rule r: plus(x_, y_); subject s: (a + b + c);",
        &[
            &[0],
            &[1, 2],
            &[1],
            &[0, 2],
            &[2],
            &[0, 1],
            &[0, 1],
            &[2],
            &[0, 2],
            &[1],
            &[1, 2],
            &[0],
        ],
    ),
    (
        "op k 2 comm; op s 0+ comm; rule r: s(k(x_, y_), z_); subject t: s(k(a, d), k(b, c));",
        &[
            &[4],
            &[0],
            &[3],
            &[5],
            &[4],
            &[3],
            &[0],
            &[5],
            &[5],
            &[1],
            &[2],
            &[4],
            &[5],
            &[2],
            &[1],
            &[4],
        ],
    ),
    (
        "op s 1+ comm; op f 1; rule r: s(f(x_), x_, y___); subject t: s(a, b, f(a), f(b));",
        &[&[3], &[0], &[0], &[1, 4], &[4], &[1], &[1], &[0, 3]],
    ),
    ("op s 1+ comm; rule r: s(x_, x_); subject t: s(a, b);", &[]),
    (
        "op s 1+ comm; rule r: s(x_, x_); subject t: s(a, a);",
        &[&[0], &[0]],
    ),
];

// Whether these are the ranks of the numbers.
fn are_ranks(ranks: &[Rank], numbers: &[u32]) -> bool {
    if ranks.len() != numbers.len() {
        return false;
    }
    for (rank, number) in ranks.iter().zip(numbers.iter()) {
        if rank.0 != *number {
            return false;
        }
    }
    true
}

// Whether the nodes of the matcher's item, so many with the root, take the ranks of the numbers from an index on, and
// no other node takes any.
fn is_item(matcher: &CommMatcher<'_>, nodes: u32, numbers: &[&[u32]], from: usize) -> bool
    requires { IsMatcher matcher.now }
{
    for node in 1..nodes {
        let Some(number) = numbers.get(from.saturating_add(node as usize - 1)) else {
            return false;
        };
        match matcher.entry(node) {
            Some((ranks, false)) if are_ranks(ranks, number) => {}
            _ => return false,
        }
    }
    matcher.entry(0).is_none() && matcher.entry(nodes).is_none()
}

// Whether the trail has a value for each of the variables.
fn are_bound(trail: &Trail, vars: &[u32]) -> bool {
    for var in vars {
        if trail.binding(*var).is_none() {
            return false;
        }
    }
    true
}

// The matcher at the root of the rule's pattern on the arguments of the subject, over a trail without entries.
fn matcher<'a>(
    rt: &impl Abort,
    alloc: Global,
    m: Matched<'a>,
    vars: &[u32],
    trail: &Trail,
) -> Result<CommMatcher<'a>, Memory>
    requires matched { IsMatched m.sig.now (rule_plan m.planned.now) (tree m.subject.now) m.table.now }
    requires trail { trail.now ≡ record { vars = 3; room = 1000; spare = 1000; stack = [] } }
    requires vars { AreNumbers vars.now }
    ensures { IfOk result (λ k. IsMatcher k × (k.trail ≡ trail.now)) }
{
    let plan = &m.planned.plan;
    let root = m.table.root();
    let Pattern::App(op, _) = &m.planned.rule.pattern else {
        panic!(rt; "the pattern is no application");
    };
    let Head::App(head) = m.table.head(root) else {
        panic!(rt; "the subject is no application");
    };
    if *op != head || !m.sig.is_comm(head) {
        panic!(rt; "the operation is another one, or isn't commutative");
    }
    if m.table.nodes(root) > 400 || plan.len() > 128 || plan.vars() as usize != vars.len() {
        panic!(rt; "the trail is too short");
    }
    let args = m.table.args(root);
    CommMatcher::begin(alloc, m.sig, plan, 0, vars, m.table, args, trail)
}

// Whether the matcher at the root of the rule's pattern has these items on the arguments of the subject, and leaves the
// trail as it was behind the last.
fn has_items(
    rt: &impl Abort,
    alloc: Global,
    m: Matched<'_>,
    vars: &[u32],
    numbers: &[&[u32]],
) -> Result<bool, Memory>
    requires matched { IsMatched m.sig.now (rule_plan m.planned.now) (tree m.subject.now) m.table.now }
    requires vars { AreNumbers vars.now }
{
    let mut trail = Trail::new(alloc, 3, 1000)?;
    let mut matcher = matcher(rt, alloc, m, vars, &trail)?;
    let nodes = m.planned.plan.len();
    let mut from = 0usize;
    while matcher.next(&mut trail)? {
        if !is_item(&matcher, nodes, numbers, from) || !are_bound(&trail, vars) {
            return Ok(false);
        }
        from = from.saturating_add(nodes as usize).saturating_sub(1);
    }
    Ok(from == numbers.len() && !matcher.next(&mut trail)? && trail.spare() == 1000)
}

// The numbers in the trail of so many variables.
fn numbers_of(rt: &impl Abort, vars: u32) -> &'static [u32]
    ensures { AreNumbers result.now }
{
    match vars {
        1 => &[2],
        2 => &[2, 0],
        3 => &[2, 0, 1],
        _ => panic!(rt; "too many variables"),
    }
}

// Stops unless the matcher at the root of the rule's pattern has these items on the arguments of the subject.
pub fn check_matcher(rt: &impl Abort, alloc: Global, m: Matched<'_>, numbers: &[&[u32]])
    requires { IsMatched m.sig.now (rule_plan m.planned.now) (tree m.subject.now) m.table.now }
{
    let vars = numbers_of(rt, m.planned.plan.vars());
    assert!(rt;
        has_items(rt, alloc, m, vars, numbers).expect(rt, "memory"),
        "{numbers:?}"
    );
}

#[test]
fn a_matcher_gives_each_item_once_over_its_trail(rt: HostRuntime) {
    for row in ROWS {
        check_file(&rt, rt.alloc(), row.0, Wanted::Ranks(row.1));
    }
}
