//! The items of a rule on a subject: in order, with their tokens, and from the token of each.

ghost use Rattle.std.specs.Prelude.{IsSome, IfOk};
ghost use Rattle.mp_pattern.specs.Planned.{rule_plan};
ghost use Rattle.mp_term.specs.View.{tree};
ghost use Rattle.mp_tests.specs.Matched.{IsMatched};

use crate::cursor_rows::{ROWS, Row};
use crate::first_rule::{Wanted, check_file};
use crate::matched::{Matched, Sizes, begin, is_fit, room};
use crate::reading::{check, parts, sink};
use mp_cursor::{Cursor, NotAnItem, first_subst};
use mp_io::{MemorySink, put};
use mp_subst::Subst;
use mp_term::Signature;
use mp_text::write_subst;
use mp_token::{Token, TokenEntries, read_token, write_token};
use std::alloc::Global;
use std::process::Abort;

// Writes the item's token and its substitution twice, as the cursor writes them and as they are kept: a bar between
// each two. Answers whether all were written.
fn write_item(
    rt: &impl Abort,
    alloc: Global,
    m: Matched<'_>,
    cursor: &Cursor<'_>,
    sink: &mut MemorySink,
) -> bool
    requires { IsSome cursor.now.item }
{
    let token = cursor.token(alloc, m.name).expect(rt, "memory");
    let subst = cursor.subst(alloc).expect(rt, "memory");
    cursor.write_token(m.name, sink).is_ok()
        && put(sink, b"|").is_ok()
        && cursor.write_subst(sink).is_ok()
        && put(sink, b"|").is_ok()
        && write_token(&token, sink).is_ok()
        && put(sink, b"|").is_ok()
        && write_subst(m.sig, &subst, sink).is_ok()
}

// Stops unless the item is that of the line.
fn check_item(rt: &impl Abort, alloc: Global, m: Matched<'_>, cursor: &Cursor<'_>, line: &str)
    requires { IsSome cursor.now.item }
{
    let mut sink = sink(rt, alloc);
    assert!(rt; write_item(rt, alloc, m, cursor, &mut sink), "{line}");
    let written = str::from_utf8(sink.content()).expect(rt, line);
    let behind = written.strip_prefix(line).expect(rt, line);
    assert!(rt; behind.strip_prefix('|').expect(rt, line) == line, "{line}");
}

// Whether the cursor has a value for each of so many variables, and for no more.
fn are_bound(cursor: &Cursor<'_>, vars: u32) -> bool
    requires { IsSome cursor.now.item }
{
    for var in 0..vars {
        if cursor.binding(var).is_none() {
            return false;
        }
    }
    cursor.binding(vars).is_none()
}

// Whether the entries are what the nodes take, so many nodes.
fn are_takes(cursor: &Cursor<'_>, entries: &TokenEntries, nodes: u32) -> bool
    requires { IsSome cursor.now.item }
{
    for node in 0..nodes {
        if cursor.entry(node) != entries.get(node as usize) {
            return false;
        }
    }
    cursor.entry(nodes).is_none() && entries.len() == nodes as usize
}

// Whether there are at least so many items more.
fn has_more(cursor: &mut Cursor<'_>, more: u32) -> bool {
    for _ in 0..more {
        if !cursor.next() {
            return false;
        }
    }
    true
}

// Stops unless the items to come are those of the lines and then none or, where the lines end with `...`, as many more.
fn check_rest(
    rt: &impl Abort,
    alloc: Global,
    m: Matched<'_>,
    cursor: &mut Cursor<'_>,
    lines: &str,
    more: u32,
) {
    for line in lines.split('\n') {
        if line == "..." {
            check(rt, has_more(cursor, more), lines);
            return;
        }
        if !line.is_empty() {
            assert!(rt; cursor.next(), "{line}");
            check_item(rt, alloc, m, cursor, line);
        }
    }
    check(rt, !cursor.next() && !cursor.next(), lines);
}

// The cursor at the item of the token.
fn resume<'a>(
    rt: &impl Abort,
    alloc: Global,
    m: Matched<'a>,
    sizes: Sizes,
    token: &Token,
) -> Result<Cursor<'a>, NotAnItem>
    requires { IsMatched m.sig.now (rule_plan m.planned.now) (tree m.subject.now) m.table.now }
    ensures { IfOk result (λ c. IsSome c.item) }
{
    let room = room(rt, alloc, sizes);
    assert!(rt; is_fit(m, sizes), "the room is another one");
    Cursor::resume(room, m.sig, m.planned.rule, &m.planned.plan, m.table, token)
}

// Stops unless the cursor at the item of the line is at that item, and the lines behind it come then.
fn check_resumed(
    rt: &impl Abort,
    alloc: Global,
    m: Matched<'_>,
    sizes: Sizes,
    line: &str,
    behind: &str,
)
    requires { IsMatched m.sig.now (rule_plan m.planned.now) (tree m.subject.now) m.table.now }
{
    let (text, _) = parts(rt, line, "|");
    let token = read_token(alloc, text.as_bytes()).expect(rt, line);
    match resume(rt, alloc, m, sizes, &token) {
        Ok(mut cursor) => {
            assert!(rt; are_takes(&cursor, &token.entries, sizes.nodes), "{line}");
            assert!(rt; are_bound(&cursor, sizes.vars), "{line}");
            check_item(rt, alloc, m, &cursor, line);
            check_rest(rt, alloc, m, &mut cursor, behind, 3);
        }
        Err(NotAnItem) => panic!(rt; "not an item: {line}"),
    }
}

// Stops unless a cursor goes on from each of the items.
fn check_each_resumed(rt: &impl Abort, alloc: Global, m: Matched<'_>, sizes: Sizes, lines: &str)
    requires { IsMatched m.sig.now (rule_plan m.planned.now) (tree m.subject.now) m.table.now }
{
    for line in lines.split('\n') {
        if line.contains('|') {
            let (_, behind) = parts(rt, lines, line);
            check_resumed(rt, alloc, m, sizes, line, behind);
        }
    }
}

// Tokens that differ little from that of the line: it is another rule's, has an entry fewer or more, ranks that are at
// none of the nodes, an entry that is collapsed, or a rank more.
fn near(rt: &impl Abort, alloc: Global, line: &str) -> String {
    let (token, _) = parts(rt, line, "|");
    let (subject, rest) = parts(rt, token, "/");
    let (rule, entries) = parts(rt, rest, "/");
    let (first, others) = parts(rt, entries, ";");
    let (front, _) = token.rsplit_once(';').expect(rt, line);
    format!(in alloc;
        "{subject}/q/{entries}\n{front}\n{token};\n{front};99\n{subject}/{rule}/{first}!;{others}\n{token},0"
    ).expect(rt, "memory")
}

// Stops unless each of the tokens is that of no item.
fn check_refused(rt: &impl Abort, alloc: Global, m: Matched<'_>, sizes: Sizes, tokens: &str)
    requires { IsMatched m.sig.now (rule_plan m.planned.now) (tree m.subject.now) m.table.now }
{
    for text in tokens.lines() {
        let token = read_token(alloc, text.as_bytes()).expect(rt, text);
        assert!(rt; resume(rt, alloc, m, sizes, &token).is_err(), "{text}");
    }
}

// Stops unless each of the tokens, and each that is near the first item's where a line `near` says so, is that of no
// item.
fn check_all_refused(
    rt: &impl Abort,
    alloc: Global,
    m: Matched<'_>,
    sizes: Sizes,
    lines: &str,
    tokens: &str,
)
    requires { IsMatched m.sig.now (rule_plan m.planned.now) (tree m.subject.now) m.table.now }
{
    match tokens.strip_prefix("near\n") {
        None => check_refused(rt, alloc, m, sizes, tokens),
        Some(others) => {
            let near = near(rt, alloc, parts(rt, lines, "\n").0);
            check_refused(rt, alloc, m, sizes, near.as_str());
            check_refused(rt, alloc, m, sizes, others);
        }
    }
}

// Stops unless the substitution is that of the first of the lines.
fn check_subst(rt: &impl Abort, alloc: Global, sig: &Signature, subst: &Subst, lines: &str) {
    let (line, _) = parts(rt, lines, "\n");
    let (_, text) = parts(rt, line, "|");
    let mut sink = sink(rt, alloc);
    check(rt, write_subst(sig, subst, &mut sink).is_ok(), line);
    check(rt, sink.content() == text.as_bytes(), line);
}

// Stops unless the first substitution is that of the first line, if there is one.
fn check_first(rt: &impl Abort, alloc: Global, m: Matched<'_>, lines: &str)
    requires { IsMatched m.sig.now (rule_plan m.planned.now) (tree m.subject.now) m.table.now }
{
    match first_subst(alloc, m.sig, m.planned, m.subject).expect(rt, "memory") {
        None => check(rt, lines.is_empty(), lines),
        Some(subst) => check_subst(rt, alloc, m.sig, &subst, lines),
    }
}

/// Stops unless what is matched has the items and the tokens of the row.
pub fn check_row(rt: &impl Abort, alloc: Global, m: Matched<'_>, row: &Row)
    requires { IsMatched m.sig.now (rule_plan m.planned.now) (tree m.subject.now) m.table.now }
{
    let (_, rest) = parts(rt, row.2, "----\n");
    let (lines, tokens) = parts(rt, rest, "----\n");
    let (nodes, vars, width) = row.0;
    let sizes = Sizes { nodes, vars, width };
    let room = room(rt, alloc, sizes);
    let mut cursor = begin(rt, m, room, sizes);
    check_rest(rt, alloc, m, &mut cursor, lines, row.1);
    check_each_resumed(rt, alloc, m, sizes, lines);
    check_all_refused(rt, alloc, m, sizes, lines, tokens);
    check_first(rt, alloc, m, lines);
}

#[test]
fn a_cursor_gives_each_item_once_and_goes_on_from_its_token(rt: HostRuntime) {
    for row in ROWS {
        let (file, _) = parts(&rt, row.2, "----\n");
        check_file(&rt, rt.alloc(), file, Wanted::Items(row));
    }
}
