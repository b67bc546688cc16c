//! What is printed of terms, patterns, conditions, signatures and files.

use crate::alone::DECLARED;
use crate::reading::{condition, file, parts, pattern, sink, term};
use mp_io::MemorySink;
use mp_term::Signature;
use mp_text::{write_cond, write_file, write_pattern, write_signature, write_term};
use std::alloc::Global;
use std::process::Abort;

// In each table a line is a text and, behind `|`, what is printed of what it is read as.

// Terms are put into normal form.
const TERMS: &str = "\
(c + (p(b) + a))|(a + b + c)\n\
f(a,f( 0,b))|f(a, f(0, b))\n\
s(b,g(),a)|s(a, b, g())\n\
p(a)|a";

// Patterns alone are printed as they were written.
const PATTERNS: &str = "\
g((b+a),x_,y_v,z__ ,w___)|g((b + a), x_, y_v, z__, w___)\n\
s(__,_,_v,___)|s(__, _, _v, ___)\n\
f(_:p(b, a), x_:(p(a) + b))|f(_:(a + b), x_:(a + b))\n\
g(x_{2},_{3+},y_{007+})|g(x_{2}, _{3+}, y_{7+})\n\
g(x_{1},_{1+},y_{0+},__)|g(x_, __, y___, __)\n\
p(x_)|p(x_)";

// Each atom.
const ATOMS: &str = "\
count($x)>=02|count($x) >= 2\n\
1000000!=size((a + b))|1000000 != size((a + b))\n\
same($x,p(b,a))|same($x, (a + b))\n\
less((b + a),$y)|less((a + b), $y)\n\
free($x,$y)|free($x, $y)\n\
kind($z,v)|kind($z, v)\n\
head($x,p)|head($x, p)\n\
[count(p(b, (a + p(c)))) <= 0012]|count((a + b + c)) <= 12";

// Brackets stand where a part needs them, and nowhere else.
const BRACKETS: &str = "\
[kind($x,v) and kind($y,v)] or kind($z,v)|kind($x, v) and kind($y, v) or kind($z, v)\n\
kind($x,v) and [kind($y,v) or kind($z,v)]|kind($x, v) and [kind($y, v) or kind($z, v)]\n\
kind($x,v) and [[kind($y,v)] and kind($z,v)]|kind($x, v) and [kind($y, v) and kind($z, v)]\n\
[kind($x,v) or kind($y,v)] or kind($z,v)|[kind($x, v) or kind($y, v)] or kind($z, v)\n\
[not [kind($x,v)]] and kind($y,v)|not kind($x, v) and kind($y, v)\n\
not [kind($x,v) and kind($y,v)]|not [kind($x, v) and kind($y, v)]\n\
not [kind($x,v) or kind($y,v)]|not [kind($x, v) or kind($y, v)]\n\
not [not [[kind($x,v)]]]|not [not kind($x, v)]";

// Files and, behind a line `----`, what is printed of them; a line `====` stands between each two.
const FILES: &str = "\
op sum 1+ assoc comm one; rule r: sum(x___, a, sum(y_, b));
----
op sum 1+ assoc comm one;
rule r: sum(a, b, y_, x___);
====
subject s: f(a,0);rule r :f( x_,a ); op f 02;
----
op f 2;
rule r: f(x_, a);
subject s: f(a, 0);
====
op s 0+ comm; rule r: s(__, _, x_); subject t: s(a, b, c);
----
op s 0+ comm;
rule r: s(x_, _, __);
subject t: s(a, b, c);
====
op p 1+ assoc comm one infix +; rule r: p(x_, y_:0); subject s: a;
----
op p 1+ assoc comm one infix +;
rule r: (x_ + y_:0);
subject s: a;
====
op p 1+ assoc comm one infix +; rule r: p(x_:0, y_:0); subject s: 0;
----
op p 1+ assoc comm one infix +;
rule r: (x_:0 + y_:0);
subject s: 0;
====
op p 1+ assoc comm one infix +; rule r: p(x_:0, y_, z___); subject s: a;
----
op p 1+ assoc comm one infix +;
rule r: (y_ + x_:0 + z___);
subject s: a;
====
op f 3; op p 1+ comm one infix +; rule r: f(_:p(b, a), x_:(p(a) + b), ___);
----
op f 3;
op p 1+ comm one infix +;
rule r: f(_:(a + b), x_:(a + b), ___);
====
op p 1+ assoc comm one infix +; kind v: b a; subject s: (c + p(p(b)) + (a + b));
----
op p 1+ assoc comm one infix +;
kind v: a b;
subject s: (a + b + b + c);
====
rule r: x_ if [[count($x)==01]];
----
rule r: x_ if count($x) == 1;
====
kind v: a; op f 1; rule r: x_ if not [kind($x,v) or not head($x,f)] and 1<2;
----
op f 1;
kind v: a;
rule r: x_ if not [kind($x, v) or not head($x, f)] and 1 < 2;
====
rule r: x_ if [same($x, a) and less($x, b)] or not [not free($x, a)];
----
rule r: x_ if same($x, a) and less($x, b) or not [not free($x, a)];
====
op s 0+ comm; rule r: s(x__) if [size($x) >= 2 and [1 != 2 and 2 <= 3]];
----
op s 0+ comm;
rule r: s(x__) if size($x) >= 2 and [1 != 2 and 2 <= 3];
====
op g 0+; rule r: g(x_{1+}, y_{1}, z_{0+}, _{02}, w_{2+});
----
op g 0+;
rule r: g(x__, y_, z___, _{2}, w_{2+});
====
op s 0+ comm; rule r: s(x___, y__, v_{2}, w_{3+}, u_{3}, _{2}, t_:b, z_, a);
----
op s 0+ comm;
rule r: s(a, z_, t_:b, u_{3}, v_{2}, w_{3+}, _{2}, y__, x___);
====
op f 2; op p 1+ assoc comm one infix +; rule r: p(y_, x__)->p($x, f(b, (a+$y))) if count($x)>01;
----
op f 2;
op p 1+ assoc comm one infix +;
rule r: (y_ + x__) -> ($x + f(b, (a + $y))) if count($x) > 1;
====
op u 1; rule r: u(x_)->$ x; rule q: a -> b if 1 < 2; rule p: b -> u(u(a));
----
op u 1;
rule r: u(x_) -> $x;
rule q: a -> b if 1 < 2;
rule p: b -> u(u(a));
====
op p 1+ assoc comm one infix +; subject s: (c + a); edit s: 1->[ d ],0->[(b+a),e]; edit s: . -> p(a);
----
op p 1+ assoc comm one infix +;
subject s: (a + c);
edit s: 1 -> d, 0 -> [(a + b), e];
edit s: . -> a;
====
subject s: a; edit s: .->b; subject t: b;
----
subject s: a;
subject t: b;
edit s: . -> b;
====
op l 0+; op p 2 infix ~; subject s: l(l(a,b),p(c,d)); edit s: 0.1->[],0.00->l( ),1.0->(a ~ b);
----
op l 0+;
op p 2 infix ~;
subject s: l(l(a, b), (c ~ d));
edit s: 0.1 -> [], 0.0 -> l(), 1.0 -> (a ~ b);
";

// A file and, in the same way, what is printed of its signature, a declaration a line.
const SIGNATURES: &str = "\
op f 2; op g 0+; op s 0+ comm; op p 1+ assoc comm one infix +; kind v: a b;
----
op f 2;
op g 0+;
op s 0+ comm;
op p 1+ assoc comm one infix +;
kind v: a b;
";

// What a text is read as.
#[derive(Clone, Copy)]
enum Sort {
    Term,
    Pattern,
    Condition,
    File,
    // The signature of a file.
    Signature,
}

// What the texts of a table are read as; what stands between each two cases, and between a text and what is printed of
// what it is read as; and the cases.
struct Table {
    sort: Sort,
    between: &'static str,
    mark: &'static str,
    cases: &'static str,
}

// Reads the text and prints it. Answers whether it was printed.
fn print(
    rt: &impl Abort,
    alloc: Global,
    sig: &Signature,
    sort: Sort,
    text: &str,
    sink: &mut MemorySink,
) -> bool {
    match sort {
        Sort::Term => write_term(sig, &term(rt, alloc, sig, text), sink).is_ok(),
        Sort::Pattern => write_pattern(sig, &pattern(rt, alloc, sig, text), sink).is_ok(),
        Sort::Condition => write_cond(sig, &condition(rt, alloc, sig, text), sink).is_ok(),
        Sort::File => write_file(&file(rt, alloc, text), sink).is_ok(),
        Sort::Signature => write_signature(&file(rt, alloc, text).sig, sink).is_ok(),
    }
}

// Stops unless the wanted text is printed of the text.
fn check_printed(
    rt: &impl Abort,
    alloc: Global,
    sig: &Signature,
    sort: Sort,
    text: &str,
    wanted: &str,
) {
    let mut sink = sink(rt, alloc);
    assert!(rt; print(rt, alloc, sig, sort, text, &mut sink), "{text}");
    assert!(rt; sink.content() == wanted.as_bytes(), "{text}");
}

// Stops unless what is printed of each text stands behind its mark, and is printed of itself too.
fn check_table(rt: &impl Abort, alloc: Global, sig: &Signature, table: &Table) {
    for case in table.cases.split(table.between) {
        let (text, wanted) = parts(rt, case, table.mark);
        check_printed(rt, alloc, sig, table.sort, text, wanted);
        check_printed(rt, alloc, sig, table.sort, wanted, wanted);
    }
}

const TABLES: &[Table] = &[
    Table {
        sort: Sort::Term,
        between: "\n",
        mark: "|",
        cases: TERMS,
    },
    Table {
        sort: Sort::Pattern,
        between: "\n",
        mark: "|",
        cases: PATTERNS,
    },
    Table {
        sort: Sort::Condition,
        between: "\n",
        mark: "|",
        cases: ATOMS,
    },
    Table {
        sort: Sort::Condition,
        between: "\n",
        mark: "|",
        cases: BRACKETS,
    },
    Table {
        sort: Sort::File,
        between: "====\n",
        mark: "----\n",
        cases: FILES,
    },
    Table {
        sort: Sort::Signature,
        between: "====\n",
        mark: "----\n",
        cases: SIGNATURES,
    },
];

#[test]
fn what_is_printed_is_read_again_and_printed_so(rt: HostRuntime) {
    let file = file(&rt, rt.alloc(), DECLARED);
    for table in TABLES {
        check_table(&rt, rt.alloc(), &file.sig, table);
    }
}
