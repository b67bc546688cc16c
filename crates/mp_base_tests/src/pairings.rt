//! All pairings of small graphs worked out by hand, and graphs of more items than their classes have room for.

ghost use Rattle.std.specs.Prelude.{◌≡◌, IsTrue};
ghost use Rattle.std.specs.List.Sorted.{IsStrictlyIncreasing};

use mp_pair::{Graph, Pairings};
use std::alloc::Global;
use std::process::Abort;

// The capacities, the classes of each left item, and all pairings.
type Row = (
    &'static [u32],
    &'static [&'static [u32]],
    &'static [&'static [u32]],
);

const ROWS: &[Row] = &[
    (&[1, 1], &[&[0, 1], &[0]], &[&[1, 0]]),
    (&[2, 1], &[&[0, 1], &[0]], &[&[0, 0], &[1, 0]]),
    (&[1, 1, 1], &[&[0, 2]], &[&[0], &[2]]),
    (&[3, 0, 1], &[&[0, 1, 2], &[1, 2]], &[&[0, 2]]),
    (
        &[1, 1, 1],
        &[&[0, 1, 2], &[0, 1, 2], &[0, 1, 2]],
        &[
            &[0, 1, 2],
            &[0, 2, 1],
            &[1, 0, 2],
            &[1, 2, 0],
            &[2, 0, 1],
            &[2, 1, 0],
        ],
    ),
    (
        &[2, 1],
        &[&[0, 1], &[0, 1], &[0, 1]],
        &[&[0, 0, 1], &[0, 1, 0], &[1, 0, 0]],
    ),
    (
        &[1, 1, 1, 1],
        &[&[0, 1], &[0, 1], &[0, 1, 2, 3]],
        &[&[0, 1, 2], &[0, 1, 3], &[1, 0, 2], &[1, 0, 3]],
    ),
    (
        &[1, 1, 2],
        &[&[0, 1, 2], &[0, 2], &[2], &[1, 2]],
        &[&[0, 2, 2, 1], &[1, 0, 2, 2], &[2, 0, 2, 1]],
    ),
    (&[1, 1, 1], &[&[0, 1], &[1, 2], &[0]], &[&[1, 2, 0]]),
    (&[], &[], &[&[]]),
    (&[3], &[], &[&[]]),
    (&[1], &[&[0], &[0]], &[]),
    (&[1, 1], &[&[0, 1], &[0, 1], &[0, 1]], &[]),
    (&[0], &[&[0]], &[]),
    (&[1], &[&[0], &[]], &[]),
    (&[1], &[&[1]], &[]),
    (&[], &[&[0]], &[]),
];

// Whether each class is below the next.
fn ascend(classes: &[u32]) -> bool
    ensures { IsTrue result → IsStrictlyIncreasing classes.now }
{
    for i in 1..classes.len() {
        if classes[i - 1] >= classes[i] {
            return false;
        }
    }
    true
}

// Adds the left items.
fn add_all(rt: &impl Abort, graph: &mut Graph, left: &[&[u32]]) {
    for classes in left {
        assert!(rt; ascend(classes));
        graph.add_left(classes).expect(rt, "memory");
    }
}

// The pairings of these left items, the first ones and then the last.
fn pairings_of(
    rt: &impl Abort,
    alloc: Global,
    capacities: &[u32],
    first: &[&[u32]],
    last: &[&[u32]],
) -> Pairings {
    let mut graph = Graph::new(alloc, capacities).expect(rt, "memory");
    add_all(rt, &mut graph, first);
    add_all(rt, &mut graph, last);
    Pairings::begin(alloc, &graph).expect(rt, "memory")
}

// Whether the next pairings are these.
fn are_next(pairings: &mut Pairings, items: &[&[u32]]) -> bool {
    for item in items {
        if !pairings.next() || pairings.choice() != *item {
            return false;
        }
    }
    true
}

// Whether the pairings of these left items begin so, and where they are all there are no more.
fn are_pairings(
    rt: &impl Abort,
    alloc: Global,
    capacities: &[u32],
    first: &[&[u32]],
    last: &[&[u32]],
    items: &[&[u32]],
    all: bool,
) -> bool {
    let mut pairings = pairings_of(rt, alloc, capacities, first, last);
    are_next(&mut pairings, items) && !(all && (pairings.next() || pairings.next()))
}

// Whether the pairings of the row are listed.
fn is_row(rt: &impl Abort, alloc: Global, row: &Row) -> bool {
    are_pairings(rt, alloc, row.0, row.1, &[], row.2, true)
}

#[test]
fn pairings_are_listed_in_order(rt: HostRuntime) {
    for row in ROWS {
        assert!(rt; is_row(&rt, rt.alloc(), row), "{}", row.0.len());
    }
}

// Twenty-one classes with room for one item each, and an item that may take any of them.
const ONE_EACH: &[u32] = &[1; 21];

const ANY: &[u32] = &[
    0, 1, 2, 3, 4, 5, 6, 7, 8, 9, 10, 11, 12, 13, 14, 15, 16, 17, 18, 19, 20,
];

const THREE: &[&[u32]] = &[&[0], &[1], &[2]];

const FIRST: &[u32] = &[
    3, 4, 5, 6, 7, 8, 9, 10, 11, 12, 13, 14, 15, 16, 17, 18, 19, 20, 0, 1, 2,
];

#[test]
fn choices_that_leave_later_items_no_class_are_left_at_once(rt: HostRuntime) {
    let alloc = rt.alloc();
    assert!(rt; are_pairings(&rt, alloc, ONE_EACH, &[ANY; 20], &[&[0], &[0]], &[], true));
    assert!(rt; are_pairings(&rt, alloc, ONE_EACH, &[ANY; 18], THREE, &[FIRST], false));
}
