//! Patterns that may fit at the root of a term, and others.

use crate::reading::{file, parts, pattern, term};
use mp_cursor::may_fit;
use mp_term::Signature;
use std::alloc::Global;
use std::process::Abort;

const DECLARED: &str = "op f 1; op g 0+; op u 1+ assoc comm one; op w 1+ one; kind v: a b;";

// In each table a line is a pattern and a term.

const FITTING: &str = "\
x_|f(a)\n\
x_v|a\n\
a|a\n\
f(x_)|f(a)\n\
f(f(a))|f(f(a))\n\
f(x_v)|f(b)\n\
g(a, f(x_))|g(a, f(b))\n\
g(x___)|g()\n\
u(a, x_)|u(a, c)\n\
u(x_, f(y_))|u(a, f(b))\n\
u(x_, w(y_:0, z_))|u(a, b)\n\
u(x_, y_:0)|a\n\
u(x_, y_:0)|f(a)\n\
u(x_:0, y_:0)|0\n\
u(x_, y__)|u(a, b)";

const OTHERS: &str = "\
a|b\n\
a|f(a)\n\
x_v|c\n\
x_v|f(a)\n\
f(x_)|a\n\
f(x_)|g(a)\n\
f(a)|f(b)\n\
f(f(a))|f(f(b))\n\
f(x_v)|f(c)\n\
g(a, f(x_))|g(a, b)\n\
g(a, x_)|g(a)\n\
g(a, x___)|g(b)\n\
g(x_)|a\n\
u(x_, y_)|a\n\
u(x_, y__)|a\n\
u(x_, y___)|f(a)\n\
u(a, x_)|u(b, c)\n\
u(x_, f(y_))|u(a, b)\n\
u(x_, w(y_, z__))|u(a, b)\n\
w(a, x__)|w(b, c)";

// Stops unless the pattern of each line may fit at the root of its term, or may not, as is wanted.
fn check_lines(rt: &impl Abort, alloc: Global, sig: &Signature, lines: &str, wanted: bool) {
    for line in lines.split('\n') {
        let (pattern_text, term_text) = parts(rt, line, "|");
        let pattern = pattern(rt, alloc, sig, pattern_text);
        let term = term(rt, alloc, sig, term_text);
        assert!(rt; may_fit(sig, &pattern, &term) == wanted, "{line}");
    }
}

#[test]
fn other_heads_fit_where_an_application_collapses(rt: HostRuntime) {
    let file = file(&rt, rt.alloc(), DECLARED);
    check_lines(&rt, rt.alloc(), &file.sig, FITTING, true);
    check_lines(&rt, rt.alloc(), &file.sig, OTHERS, false);
}
