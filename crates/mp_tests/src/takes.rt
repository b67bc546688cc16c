//! Take tables that fit, and others.

use crate::reading::{bare_term, file, parts, plan, plan_of, term};
use mp_one::check_takes;
use mp_pattern::{Entries, Entry, Pattern, Patterns, Plan, Shape};
use mp_term::{Name, OpId, Signature, Term, Terms, is_normal};
use std::alloc::Global;
use std::process::Abort;

const DECLARED: &str =
    "op f 2; op g 0+; op s 0+ comm; op p 0+ assoc; op u 0+ assoc comm one; kind v: a b;";

// In each table a line is a pattern, a subject and a take table. A `;` stands between the entries of the table, and a
// blank between the terms of an entry; the entry of a collapsed application ends with `!`.

const FITTING: &str = "\
u(x_,y_)|u(a,b,c)|u(a,b,c);a;b c\n\
f(x_,y_)|f(a,b)|f(a,b);a;b\n\
f(a,b)|f(a,b)|f(a,b);a;b\n\
u(x_,y_:0)|a|a!;a;\n\
u(x_,y_:0)|u(a,b)|u(a,b);a;b\n\
u(x_:0,x_:0)|0|0!;;0\n\
f(x_v,n_num)|f(b,7)|f(b,7);b;7\n\
f(s(x__),g(x__))|f(s(a,b),g(b,a))|f(s(a,b),g(b,a));s(a,b);a b;g(b,a);b a\n\
p(_,x_)|p(a,b,c)|p(a,b,c);a b;c\n\
g(x_{2},y___)|g(a,b,c)|g(a,b,c);a b;c\n\
g(x_{2+},y___)|g(a,b,c)|g(a,b,c);a b c;\n\
g(_{2},x_)|g(a,b,c)|g(a,b,c);a b;c\n\
f(s(x_{2}),g(x_{2}))|f(s(a,b),g(b,a))|f(s(a,b),g(b,a));s(a,b);a b;g(b,a);b a\n\
p(x_,y_{2+})|p(a,b,c,d)|p(a,b,c,d);a b;c d";

const OTHERS: &str = "\
u(x_,y_)|u(a,b,c)|u(a,b,c);a;b\n\
u(x_,y_)|u(a,b,c)|u(a,b,c);a;c b\n\
f(x_,y_)|f(a,b)|f(a,b);a\n\
f(x_,y_)|f(a,b)|f(a,b);a;b;b\n\
f(x_,y_)|f(a,b)|f(b,b);b;b\n\
f(x_,y_)|f(a,b)|f(a,b);b;b\n\
u(x_,y_)|u(a,b,c)|u(a,b,c);a;u(b,c)\n\
f(a,b)|f(a,b)|f(a,b);a!;b\n\
u(x_,y_:0)|a|a;a;\n\
u(x_,y_:0)|u(a,b)|u(a,b)!;a;b\n\
u(y_,x_:0,z___)|a|a!;a;;\n\
u(x_,y_)|a|a!;a;\n\
u(x_:0,x_:0)|a|a!;;a\n\
f(x_v,n_num)|f(c,7)|f(c,7);c;7\n\
f(x_,x_)|f(a,b)|f(a,b);a;b\n\
s(x__)|s(a,b)|s(a,b);b a\n\
f(s(x__),g(x__))|f(s(a,b),g(b,b))|f(s(a,b),g(b,b));s(a,b);a b;g(b,b);b b\n\
g(_,x_)|g(a,b,c)|g(a,b,c);a b;c\n\
g(__,x_)|g(a)|g(a);;a\n\
g(x_{2},y___)|g(a,b,c)|g(a,b,c);a;b c\n\
g(x_{2},y___)|g(a,b,c)|g(a,b,c);a b c;\n\
g(x_{2+},y___)|g(a,b,c)|g(a,b,c);a;b c\n\
g(_{2},x___)|g(a,b,c)|g(a,b,c);a b c;\n\
g(x_{2},x_{2})|g(a,b,a,c)|g(a,b,a,c);a b;a c\n\
s(x_{2})|s(a,b)|s(a,b);b a\n\
u(y_,x_:0,v_{2})|a|a!;a;;";

// The entry of a text.
fn entry(rt: &impl Abort, alloc: Global, sig: &Signature, text: &str) -> Entry {
    let mut terms = Terms::new(alloc);
    let collapsed = text.ends_with('!');
    for word in text.trim_end_matches('!').split(' ') {
        if !word.is_empty() {
            terms
                .push(bare_term(rt, alloc, sig, word))
                .expect(rt, "memory");
        }
    }
    Entry { terms, collapsed }
}

// The take table of a text.
fn entries(rt: &impl Abort, alloc: Global, sig: &Signature, text: &str) -> Entries {
    let mut entries = Entries::new(alloc);
    for word in text.split(';') {
        entries
            .push(entry(rt, alloc, sig, word))
            .expect(rt, "memory");
    }
    entries
}

// Whether the table fits the plan's pattern and the subject: a subject and, behind `|`, a table.
fn fits(rt: &impl Abort, alloc: Global, sig: &Signature, plan: &Plan, text: &str) -> bool {
    let (subject, takes) = parts(rt, text, "|");
    let subject = term(rt, alloc, sig, subject);
    let takes = entries(rt, alloc, sig, takes);
    assert!(rt; is_normal(sig, &subject), "{text}");
    check_takes(alloc, sig, plan, &subject, &takes).expect(rt, "memory")
}

// Stops unless the table of each line fits, or doesn't, as is wanted.
fn check_lines(rt: &impl Abort, alloc: Global, sig: &Signature, lines: &str, wanted: bool) {
    for line in lines.split('\n') {
        let (pattern, text) = parts(rt, line, "|");
        let plan = plan(rt, alloc, sig, pattern);
        assert!(rt; fits(rt, alloc, sig, &plan, text) == wanted, "{line}");
    }
}

#[test]
fn a_table_fits_where_each_node_obeys_its_line(rt: HostRuntime) {
    let file = file(&rt, rt.alloc(), DECLARED);
    check_lines(&rt, rt.alloc(), &file.sig, FITTING, true);
    check_lines(&rt, rt.alloc(), &file.sig, OTHERS, false);
}

// An application of the operation p to one term.
fn of_one(rt: &impl Abort, alloc: Global, term: Term) -> Term {
    let mut args = Terms::new(alloc);
    args.push(term).expect(rt, "memory");
    Term::App(OpId(3), args)
}

// `u(x_:p(p(a)), y_)`, whose default isn't normal, with this name of the first variable or without one.
fn with_default(
    rt: &impl Abort,
    alloc: Global,
    sig: &Signature,
    name: Option<Name>,
) -> Box<Pattern> {
    let inner = of_one(rt, alloc, bare_term(rt, alloc, sig, "a"));
    let default = of_one(rt, alloc, inner);
    let mut args = Patterns::new(alloc);
    args.push(Pattern::Wild(Shape::Opt(default), name))
        .expect(rt, "memory");
    args.push(Pattern::Wild(Shape::Dot, None))
        .expect(rt, "memory");
    Box::new(alloc, Pattern::App(OpId(4), args)).expect(rt, "memory")
}

// Whether the table that leaves out the first variable of that pattern fits.
fn left_out_fits(rt: &impl Abort, alloc: Global, sig: &Signature, name: Option<Name>) -> bool {
    let pattern = with_default(rt, alloc, sig, name);
    let plan = plan_of(rt, alloc, sig, &pattern);
    fits(rt, alloc, sig, &plan, "a|a!;;a")
}

#[test]
fn a_variable_is_left_out_where_its_default_is_normal(rt: HostRuntime) {
    let file = file(&rt, rt.alloc(), DECLARED);
    let name = Name::new(rt.alloc(), b"x").expect(&rt, "memory");
    assert!(rt; !left_out_fits(&rt, rt.alloc(), &file.sig, Some(name)));
    assert!(rt; left_out_fits(&rt, rt.alloc(), &file.sig, None));
}
