//! Edits of a term, tested before they are made, and made at once.

use crate::reading::{bare_term, file, parts, term};
use mp_term::{
    Edit, Edits, MAX_EDITS, Position, Signature, Term, Terms, check_edits, compare, replace_at,
    replace_many,
};
use std::alloc::Global;
use std::process::Abort;

const DECLARED: &str = "op pair 2; op list 1+;";

// The subject that is edited.
const SUBJECT: &str = "pair(list(a, b), c)";

// Edits of the subject and, behind `|`, their first fault. An edit is its position, how many terms it gives and how
// deep each of them is: pair(d, pair(d, ..)).
const FAULTS: &str = "\
|None\n\
0.0 0 0, 1 1 0|None\n\
. 1 0|None\n\
0 0 0, 1 2 0|None\n\
0 1 0, 1.0 1 0, 2 1 0|Some(BadPosition { index: 1 })\n\
0 1 0, 0 1 0, 2 1 0|Some(BadPosition { index: 2 })\n\
1 1 0, 1 1 0|Some(Overlap { first: 0, second: 1 })\n\
0.0 1 0, 1 1 0, 1 1 0, 0 1 0|Some(Overlap { first: 1, second: 2 })\n\
0.0 1 0, 1 0 0, . 1 0|Some(Overlap { first: 0, second: 2 })\n\
0.1 0 0, 1 0 0|Some(Arity { index: 1 })\n\
0.1 0 0, 1 1 0, 0.0 0 0|Some(Arity { index: 0 })\n\
. 2 0|Some(Arity { index: 0 })\n\
0.1 99996 0|None\n\
0.1 99997 0|Some(TooLarge { nodes: 100001 })\n\
1 1 99|None\n\
1 1 100|Some(TooDeep { depth: 101 })";

// A term of that depth.
fn nested(rt: &impl Abort, alloc: Global, sig: &Signature, depth: usize) -> Term {
    let front = "pair(d, ".repeat(alloc, depth).expect(rt, "memory");
    let back = ")".repeat(alloc, depth).expect(rt, "memory");
    let text = format!(in alloc; "{front}d{back}").expect(rt, "memory");
    bare_term(rt, alloc, sig, text.as_str())
}

// The position of a text.
fn position(rt: &impl Abort, alloc: Global, text: &str) -> Position {
    let mut indexes = Vec::new(alloc);
    for word in text.split('.') {
        if !word.is_empty() {
            let index = word.parse::<u32>().expect(rt, text);
            indexes.push(index).expect(rt, "memory");
        }
    }
    Position::new(alloc, &indexes).expect(rt, "memory")
}

// The edit of a text.
fn edit(rt: &impl Abort, alloc: Global, sig: &Signature, text: &str) -> Edit {
    let (place, amount) = parts(rt, text, " ");
    let (count, depth) = parts(rt, amount, " ");
    let depth = depth.parse::<usize>().expect(rt, text);
    let mut terms = Terms::new(alloc);
    for _ in 0..count.parse::<u32>().expect(rt, text) {
        terms
            .push(nested(rt, alloc, sig, depth))
            .expect(rt, "memory");
    }
    let position = position(rt, alloc, place);
    Edit { position, terms }
}

// The edits of a text.
fn edits(rt: &impl Abort, alloc: Global, sig: &Signature, text: &str) -> Edits {
    let mut edits = Edits::new(alloc);
    for text in text.split(", ") {
        if !text.is_empty() {
            edits.push(edit(rt, alloc, sig, text)).expect(rt, "memory");
        }
    }
    edits
}

// Stops unless the edits of each line have the fault of the line.
fn check_faults(rt: &impl Abort, alloc: Global, sig: &Signature, subject: &Term, lines: &str) {
    for line in lines.split('\n') {
        let (text, wanted) = parts(rt, line, "|");
        let edits = edits(rt, alloc, sig, text);
        assert!(rt; edits.len() <= MAX_EDITS, "{line}");
        let fault = format!(in alloc; "{:?}", check_edits(sig, subject, &edits));
        assert!(rt; fault.expect(rt, "memory").as_str() == wanted, "{line}");
    }
}

// Stops unless the term is the one of the text.
fn check_term(rt: &impl Abort, alloc: Global, sig: &Signature, made: Term, text: &str) {
    let made = Box::new(alloc, made).expect(rt, "memory");
    assert!(rt;
        compare(&made, &term(rt, alloc, sig, text)).is_eq(),
        "{text}"
    );
}

#[test]
fn edits_are_tested_and_made_at_once(rt: HostRuntime) {
    let file = file(&rt, rt.alloc(), DECLARED);
    let subject = term(&rt, rt.alloc(), &file.sig, SUBJECT);
    check_faults(&rt, rt.alloc(), &file.sig, &subject, FAULTS);
    let edits = edits(&rt, rt.alloc(), &file.sig, "0.0 0 0, 1 1 0, 0.1 2 0");
    assert!(rt; edits.len() <= MAX_EDITS);
    let made = replace_many(rt.alloc(), &file.sig, &subject, &edits).expect(&rt, "a fault");
    check_term(&rt, rt.alloc(), &file.sig, made, "pair(list(d, d), d)");
}

#[test]
fn a_term_takes_the_place_of_another_where_there_is_one(rt: HostRuntime) {
    let file = file(&rt, rt.alloc(), DECLARED);
    let subject = term(&rt, rt.alloc(), &file.sig, SUBJECT);
    let put = term(&rt, rt.alloc(), &file.sig, "d");
    assert!(rt; replace_at(rt.alloc(), &file.sig, &subject, &[2], &put).is_err());
    let made = replace_at(rt.alloc(), &file.sig, &subject, &[0, 1], &put).expect(&rt, "a fault");
    check_term(&rt, rt.alloc(), &file.sig, made, "pair(list(a, d), c)");
}
