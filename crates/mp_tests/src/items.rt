//! The items of the one-list: each substitution with its least take table, as the terms that its ranks stand for.

ghost use Rattle.std.specs.Prelude.{IsSome};
ghost use Rattle.mp_term.specs.View.{tree};
ghost use Rattle.mp_pattern.specs.Planned.{rule_plan};
ghost use Rattle.mp_tests.specs.Matched.{IsMatched};

use crate::first_rule::{Wanted, check_file};
use crate::matched::Matched;
use crate::reading::{check, parts, sink};
use mp_io::{MemorySink, Writer};
use mp_one::{Cursor, room_for};
use mp_print::put_rank;
use mp_table::{Rank, Table};
use mp_term::Signature;
use std::alloc::Global;
use std::process::Abort;

// Files of a rule and a subject and, behind a line `----`, the items; a line `====` stands between each two. A `;`
// stands between the entries of a table, and a blank between the terms of an entry; the entry of a collapsed
// application ends with `!`.
const FILES: &str = "\
op f 2;
rule r: f(a, b);
subject s: f(a, b);
----
f(a, b);a;b {}
====
op p 1+ assoc;
rule r: p(x_, y_);
subject s: p(a, b, c);
----
p(a, b, c);a;b c {x -> a, y -> p(b, c)}
p(a, b, c);a b;c {x -> p(a, b), y -> c}
====
op s 0+ comm;
rule r: s(x__, y___);
subject t: s(a, a);
----
s(a, a);a;a {x -> {a}, y -> {a}}
s(a, a);a a; {x -> {a, a}, y -> {}}
====
op u 1+ assoc comm one infix +;
rule r: u(x_:0, y_:0);
subject s: 0;
----
0!;;0 {x -> 0, y -> 0}
====
op u 1+ assoc comm one infix +;
rule r: u(x_, y_);
subject s: (a + b);
----
(a + b);a;b {x -> a, y -> b}
(a + b);b;a {x -> b, y -> a}
====
op g 0+;
rule r: g(x_{2}, y___);
subject s: g(a, b, c);
----
g(a, b, c);a b;c {x -> (a, b), y -> (c)}
====
op s 0+ comm;
rule r: s(x_{2+}, y_);
subject t: s(a, a, b);
----
s(a, a, b);a;a b {y -> a, x -> {a, b}}
s(a, a, b);b;a a {y -> b, x -> {a, a}}
====
op f 3;
rule r: f(x_{2}, y_);
subject s: f(a, b, c);
----
f(a, b, c);a b;c {x -> (a, b), y -> c}
====
op g 0+;
rule r: g(x_{2+}, y_{2}, z___);
subject s: g(a, b, c, d, e);
----
g(a, b, c, d, e);a b;c d;e {x -> (a, b), y -> (c, d), z -> (e)}
g(a, b, c, d, e);a b c;d e; {x -> (a, b, c), y -> (d, e), z -> ()}
====
op g 0+;
rule r: g(x_{2}, x_{2});
subject s: g(a, b, a, b);
----
g(a, b, a, b);a b;a b {x -> (a, b)}
====
op h 2; op g 0+; op s 0+ comm;
rule r: h(s(x_{2}), g(x_{2}));
subject t: h(s(a, b), g(b, a));
----
h(s(a, b), g(b, a));s(a, b);a b;g(b, a);b a {x -> (b, a)}
====
op u 1+ assoc comm one infix +;
rule r: u(x_:0, y_{2});
subject s: (a + b + c);
----
(a + b + c);a;b c {x -> a, y -> {b, c}}
(a + b + c);b;a c {x -> b, y -> {a, c}}
(a + b + c);c;a b {x -> c, y -> {a, b}}
====
op u 1+ assoc comm one infix +;
rule r: u(x_:0, y_{2});
subject s: (a + b);
----
(a + b);;a b {x -> 0, y -> {a, b}}
====
op u 1+ assoc comm one infix +;
rule r: u(x_:0, y_, v_{2+});
subject s: a;
----
====
op g 0+;
rule r: g(x_{3+});
subject s: g(a, b);
----
";

// Puts the terms of an entry, and the mark of a collapsed application.
fn put_entry(
    sig: &Signature,
    table: &Table,
    ranks: &[Rank],
    collapsed: bool,
    out: &mut Writer<'_, MemorySink>,
) {
    for (i, rank) in ranks.iter().enumerate() {
        if i > 0 {
            out.put(b" ");
        }
        put_rank(sig, table, *rank, out);
    }
    if collapsed {
        out.put(b"!");
    }
}

// Puts the take table of the item at which the cursor stands, an entry for each of so many nodes.
fn put_takes(
    sig: &Signature,
    table: &Table,
    nodes: u32,
    cursor: &Cursor<'_>,
    out: &mut Writer<'_, MemorySink>,
)
    requires { IsSome cursor.now.item }
{
    for node in 0..nodes {
        if node > 0 {
            out.put(b";");
        }
        if let Some((ranks, collapsed)) = cursor.entry(node) {
            put_entry(sig, table, ranks, collapsed, out);
        }
    }
}

// Puts the line of the item at which the cursor stands.
fn put_item(
    sig: &Signature,
    table: &Table,
    nodes: u32,
    cursor: &Cursor<'_>,
    out: &mut Writer<'_, MemorySink>,
)
    requires { IsSome cursor.now.item }
{
    put_takes(sig, table, nodes, cursor, out);
    out.put(b" ");
    cursor.put_subst(out);
    out.put(b"\n");
}

// Writes the line of each item that is still to come.
fn write_items(
    sig: &Signature,
    table: &Table,
    nodes: u32,
    cursor: &mut Cursor<'_>,
    sink: &mut MemorySink,
) -> bool {
    let mut out = Writer::new(sink);
    while cursor.next() {
        put_item(sig, table, nodes, cursor, &mut out);
    }
    out.finish().is_ok()
}

// Stops unless the items of what is matched are those of the text.
pub fn check_items(rt: &impl Abort, alloc: Global, m: Matched<'_>, items: &str)
    requires { IsMatched m.sig.now (rule_plan m.planned.now) (tree m.subject.now) m.table.now }
{
    let room = room_for(alloc, &m.planned.plan, m.table).expect(rt, "memory");
    let mut cursor = Cursor::begin(room, m.sig, m.planned.rule, &m.planned.plan, m.table);
    let mut sink = sink(rt, alloc);
    let nodes = m.planned.plan.len();
    let is_written = write_items(m.sig, m.table, nodes, &mut cursor, &mut sink);
    check(rt, is_written, items);
    check(rt, sink.content() == items.as_bytes(), items);
}

#[test]
fn each_substitution_has_its_least_table(rt: HostRuntime) {
    for case in FILES.split("====\n") {
        let (file, items) = parts(&rt, case, "----\n");
        check_file(&rt, rt.alloc(), file, Wanted::LeastTables(items));
    }
}
