//! The states of the trees of rules.

use crate::texts::file;
use mp_many::{Many, State};
use std::process::Abort;

// What a state shows: where it leads down and over, and which rules it accepts.
type Shown = (Option<u32>, Option<u32>, &'static [u32]);

// Rules, and what each state of their tree shows.
const TREES: &[(&str, &[Shown])] = &[
    ("", &[]),
    (
        "op f 2; rule r: f(x_, y_); rule q: f(x_, a);",
        &[
            (Some(2), None, &[]),
            (Some(3), None, &[]),
            (Some(4), Some(5), &[]),
            (None, None, &[0]),
            (Some(6), None, &[]),
            (None, None, &[1]),
        ],
    ),
    (
        "op s 0+ comm; op p 1+ assoc; rule r: s(x_, y_); rule q: p(a); rule t: s(z_, w_); rule u: b;",
        &[
            (None, Some(2), &[0, 2]),
            (Some(3), Some(5), &[]),
            (Some(4), None, &[]),
            (None, None, &[1]),
            (None, None, &[3]),
        ],
    ),
];

// Whether the state shows this.
fn is_state(state: &State<'_>, shown: &Shown) -> bool {
    state.down == shown.0 && state.over == shown.1 && state.accepts == shown.2
}

// Stops unless the tree has exactly these states.
fn check_states(rt: &impl Abort, many: &Many<'_>, states: &[Shown]) {
    let mut number = 0u32;
    for shown in states {
        number = number.saturating_add(1);
        let state = many.state(number).expect(rt, "fewer states");
        assert!(rt; is_state(&state, shown), "{number}");
    }
    assert!(rt; many.states() == number && many.state(0).is_none());
    assert!(rt; many.state(number.saturating_add(1)).is_none());
}

#[test]
fn rules_that_begin_alike_share_their_states(rt: HostRuntime) {
    for row in TREES {
        let file = file(&rt, rt.alloc(), row.0);
        let many = Many::build(rt.alloc(), &file.sig, &file.rules).expect(&rt, "memory");
        check_states(&rt, &many, row.1);
        assert!(rt; many.rules().len() == file.rules.len(), "{}", row.0);
    }
}
