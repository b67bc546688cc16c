//! What is printed straight from ranks in a table.

use crate::alone::DECLARED;
use crate::reading::{check, file, parts, plan, sink, term};
use mp_io::{MemorySink, Writer};
use mp_pattern::Form;
use mp_print::{RankTexts, put_bound, write_trail};
use mp_subst::{Bound, Trail};
use mp_table::{Rank, Table};
use mp_term::{MAX_TERM_NODES, OpId, Signature, Terms, is_normal, node_count};
use std::alloc::Global;
use std::process::Abort;

// The subject of the table.
const SUBJECT: &str = "g(f(a, b), b)";

// Its form, the operation that is applied, and terms of the subject behind a `;` each; and behind `|` what is printed.
type Value = (Form, Option<OpId>, &'static str);

const VALUES: &[Value] = &[
    (Form::One, None, ";g(f(a, b), b)|g(f(a, b), b)"),
    (Form::One, Some(OpId(3)), ";a;b;f(a, b)|(a + b + f(a, b))"),
    (Form::One, Some(OpId(3)), ";a|p(a)"),
    (Form::One, Some(OpId(1)), "|g()"),
    (Form::Seq, None, ";b;f(a, b);b|(b, f(a, b), b)"),
    (Form::Seq, None, "|()"),
    (Form::Bag, None, ";a;a|{a, a}"),
];

// A term of more nodes than a small one, and its printed text.
const LARGE: &str = "f(f(f(f(a, b), f(a, b)), f(a, b)), f(f(f(a, b), f(a, b)), b))";

const LARGE_VALUE: Value = (
    Form::Seq,
    None,
    ";f(f(f(f(a, b), f(a, b)), f(a, b)), f(f(f(a, b), f(a, b)), b));b\
    |(f(f(f(f(a, b), f(a, b)), f(a, b)), f(f(f(a, b), f(a, b)), b)), b)",
);

/// The table of the subject, in a box.
pub fn table(rt: &impl Abort, alloc: Global, sig: &Signature, subject: &str) -> Box<Table> {
    let subject = term(rt, alloc, sig, subject);
    assert!(rt; is_normal(sig, &subject) && node_count(&subject) <= MAX_TERM_NODES);
    let table = Table::build(alloc, sig, &subject, &Terms::new(alloc)).expect(rt, "memory");
    Box::new(alloc, table).expect(rt, "memory")
}

/// The ranks of terms that stand behind a `;` each.
pub fn ranks(
    rt: &impl Abort,
    alloc: Global,
    sig: &Signature,
    table: &Table,
    text: &str,
) -> Vec<Rank> {
    let mut ranks = Vec::new(alloc);
    for word in text.split(';') {
        if !word.is_empty() {
            let rank = table.find(&term(rt, alloc, sig, word)).expect(rt, word);
            ranks.push(rank).expect(rt, "memory");
        }
    }
    ranks
}

// Prints the value. Answers whether it was printed.
fn print(sig: &Signature, table: &Table, bound: &Bound<'_>, sink: &mut MemorySink) -> bool {
    let mut out = Writer::new(sink);
    put_bound(sig, table, bound, &mut out);
    out.finish().is_ok()
}

// Stops unless what is printed of the value is the text.
fn check_bound(
    rt: &impl Abort,
    alloc: Global,
    sig: &Signature,
    table: &Table,
    bound: &Bound<'_>,
    wanted: &str,
) {
    let mut printed = sink(rt, alloc);
    check(rt, print(sig, table, bound, &mut printed), wanted);
    check(rt, printed.content() == wanted.as_bytes(), wanted);
}

// Prints the value by the texts that are kept. Answers whether it was printed.
fn print_kept(texts: &RankTexts<'_>, bound: &Bound<'_>, sink: &mut MemorySink) -> bool {
    let mut out = Writer::new(sink);
    texts.put_bound(bound, &mut out);
    out.finish().is_ok()
}

// Stops unless what is printed of the value by the texts that are kept is the text.
fn check_kept(
    rt: &impl Abort,
    alloc: Global,
    texts: &RankTexts<'_>,
    bound: &Bound<'_>,
    wanted: &str,
) {
    let mut printed = sink(rt, alloc);
    check(rt, print_kept(texts, bound, &mut printed), wanted);
    check(rt, printed.content() == wanted.as_bytes(), wanted);
}

// Stops unless what is printed of the value, by the texts of small terms too, is what stands behind its bar.
fn check_value(rt: &impl Abort, alloc: Global, sig: &Signature, table: &Table, value: &Value) {
    let (words, wanted) = parts(rt, value.2, "|");
    let ranks = ranks(rt, alloc, sig, table, words);
    let bound = Bound {
        form: value.0,
        wrap: value.1,
        ranks: &ranks,
    };
    check_bound(rt, alloc, sig, table, &bound, wanted);
    check_kept(
        rt,
        alloc,
        &RankTexts::plain(alloc, sig, table),
        &bound,
        wanted,
    );
    let texts = RankTexts::build(alloc, sig, table).expect(rt, "memory");
    check_kept(rt, alloc, &texts, &bound, wanted);
}

#[test]
fn values_are_printed_by_ranks_as_by_terms(rt: HostRuntime) {
    let file = file(&rt, rt.alloc(), DECLARED);
    let table = table(&rt, rt.alloc(), &file.sig, SUBJECT);
    for value in VALUES {
        check_value(&rt, rt.alloc(), &file.sig, &table, value);
    }
}

#[test]
fn a_large_term_is_printed_by_its_parts(rt: HostRuntime) {
    let file = file(&rt, rt.alloc(), DECLARED);
    let table = table(&rt, rt.alloc(), &file.sig, LARGE);
    check_value(&rt, rt.alloc(), &file.sig, &table, &LARGE_VALUE);
}

// The trail of three variables of which the first is the term of rank 0, and the last the tuple of those of ranks 2 and
// 0.
fn trail(rt: &impl Abort, alloc: Global, table: &Table) -> Trail {
    let mut trail = Trail::new(alloc, 3, 10).expect(rt, "memory");
    assert!(rt; table.len() >= 3);
    assert!(rt; trail.bind(table, 2, Form::Seq, None, &[Rank(2), Rank(0)]));
    assert!(rt; trail.bind(table, 0, Form::One, None, &[Rank(0)]));
    trail
}

#[test]
fn a_trail_is_printed_as_its_substitution(rt: HostRuntime) {
    let file = file(&rt, rt.alloc(), DECLARED);
    let table = table(&rt, rt.alloc(), &file.sig, SUBJECT);
    let plan = plan(&rt, rt.alloc(), &file.sig, "g(x_, y_, z__)");
    let trail = trail(&rt, rt.alloc(), &table);
    let mut sink = sink(&rt, rt.alloc());
    assert!(rt; write_trail(&file.sig, &table, &plan, &trail, &mut sink).is_ok());
    assert!(rt; sink.content() == "{x -> a, z -> (f(a, b), a)}".as_bytes());
}
