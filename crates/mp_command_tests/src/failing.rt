//! Runs over devices that fail, and over files of the greatest length.

use crate::ran::{Devices, SOUND, check_run, check_run_on};

// 64 blanks.
const BLANKS: &str = "                                                                ";

#[test]
fn a_file_may_have_so_many_bytes_and_no_more(rt: HostRuntime) {
    let longest = BLANKS.repeat(rt.alloc(), 16_384).expect(&rt, "memory");
    check_run(&rt, rt.alloc(), "match t", longest.as_str(), 1, "", "");
    let longer = format!(in rt.alloc(); "{longest} ").expect(&rt, "memory");
    let said = "matchpy: t: too long\n";
    check_run(&rt, rt.alloc(), "match t", longer.as_str(), 4, "", said);
}

// Two matches, and the lines of both.
const TWO: &str = "op f 2; rule r: f(x_, y_); subject s: f(a, b); subject t: f(c, d);";

const FIRST: &str = "s r {x -> a, y -> b}\n";

const BOTH: &str = "s r {x -> a, y -> b}\nt r {x -> c, y -> d}\n";

// Which calls of the shelf fail, and what is said.
const SHELVES: &[(&[u64], &str)] = &[
    (&[0], "matchpy: t: cannot open\n"),
    (&[1], "matchpy: t: cannot read\n"),
    (&[2], "matchpy: t: cannot read\n"),
];

#[test]
fn a_failing_call_of_the_shelf_gives_status_4(rt: HostRuntime) {
    for row in SHELVES {
        let devices = Devices {
            shelf: row.0,
            ..SOUND
        };
        check_run_on(&rt, rt.alloc(), &devices, "match t", TWO, 4, "", row.1);
    }
}

// Which writes fail, the room for lines, and what is printed.
const WRITES: &[(&[u64], usize, &str)] = &[
    (&[0], 2000, ""),
    (&[1], 2000, FIRST),
    (&[], 21, FIRST),
    (&[], 30, "s r {x -> a, y -> b}\nt r {x ->"),
];

#[test]
fn a_failing_write_gives_status_5(rt: HostRuntime) {
    for row in WRITES {
        let devices = Devices {
            out: row.0,
            room: row.1,
            ..SOUND
        };
        let said = "matchpy: cannot write\n";
        check_run_on(&rt, rt.alloc(), &devices, "match t", TWO, 5, row.2, said);
    }
}

// The words, which calls of the shelf and which writes fail beside the first word that is said, the status, and what is
// printed.
const UNSAID: &[(&str, &[u64], &[u64], u8, &str)] = &[
    ("match t", &[], &[], 0, BOTH),
    ("match none", &[], &[], 4, ""),
    ("match t", &[0], &[], 4, ""),
    ("match t", &[], &[1], 5, FIRST),
];

#[test]
fn what_cannot_be_said_changes_nothing_else(rt: HostRuntime) {
    for row in UNSAID {
        let devices = Devices {
            shelf: row.1,
            out: row.2,
            err: &[0],
            ..SOUND
        };
        check_run_on(&rt, rt.alloc(), &devices, row.0, TWO, row.3, row.4, "");
    }
}
