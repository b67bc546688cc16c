//! The constants of rules.

use crate::reading::{file, parts, sink};
use mp_io::{MemorySink, Writer};
use mp_pattern::{
    Rule, constants, push_cond_constants, push_pattern_constants, rule_constants, term_listing,
};
use mp_print::put_term;
use mp_term::{Signature, Terms};
use mp_text::File;
use std::alloc::Global;
use std::process::Abort;

// A file and, behind `|`, the constants of its rules, and behind a bar those of its first rule, each behind a blank.
const FILES: &[&str] = &[
    "op f 2; op p 1+ assoc comm one infix +; kind v: k; \
    rule r: f(b, f(x_:(b + a), a)) if same($x, f(a, a)) or not less(c, $x); \
    rule q: f(d, z_v) -> e if [head($z, f) and count(f(a, a)) < 2] or free(p(a), g);\
    | a b c d g f(a, a) (a + b)/ a b c f(a, a) (a + b)",
    "rule r: x_ -> a;|/",
];

// Prints terms, each behind a blank. Answers whether they were printed.
fn print_all(sig: &Signature, terms: &Terms, sink: &mut MemorySink) -> bool {
    let mut out = Writer::new(sink);
    for term in terms.as_slice() {
        out.put(b" ");
        put_term(sig, term, &mut out);
    }
    out.finish().is_ok()
}

// Stops unless the terms are printed as the text.
fn check_terms(rt: &impl Abort, alloc: Global, sig: &Signature, terms: &Terms, text: &str) {
    let mut sink = sink(rt, alloc);
    assert!(rt; print_all(sig, terms, &mut sink), "{text}");
    assert!(rt; sink.content() == text.as_bytes(), "{text}");
}

// The constants of a rule, of its pattern and its condition one behind the other.
fn gathered(rt: &impl Abort, alloc: Global, rule: &Rule) -> Terms {
    let mut found = Vec::new(alloc);
    push_pattern_constants(alloc, &mut found, &rule.pattern).expect(rt, "memory");
    if let Some(cond) = &rule.condition {
        push_cond_constants(alloc, &mut found, cond).expect(rt, "memory");
    }
    term_listing(alloc, found).expect(rt, "memory")
}

// Stops unless the constants of the file's rules, and those of its first rule, are printed as the texts.
fn check_constants(rt: &impl Abort, alloc: Global, file: &File, all: &str, first: &str) {
    let terms = constants(alloc, &file.rules).expect(rt, "memory");
    check_terms(rt, alloc, &file.sig, &terms, all);
    let rule = file.rules.get(0).expect(rt, "no rule");
    let terms = rule_constants(alloc, rule).expect(rt, "memory");
    check_terms(rt, alloc, &file.sig, &terms, first);
    check_terms(rt, alloc, &file.sig, &gathered(rt, alloc, rule), first);
}

#[test]
fn constants_ascend_and_stand_there_once(rt: HostRuntime) {
    for line in FILES {
        let (text, wanted) = parts(&rt, line, "|");
        let (all, first) = parts(&rt, wanted, "/");
        check_constants(&rt, rt.alloc(), &file(&rt, rt.alloc(), text), all, first);
    }
}
