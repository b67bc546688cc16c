//! Rules and subjects with what nets find.

// How many nets there are of the rules of a file; the file; and for each of its subjects how many nodes are read and
// the pairs, in order: each the rule's number and, behind a bar, the substitution.
pub type Row = (u32, &'static str, &'static [(u64, &'static str)]);

pub const ROWS: &[Row] = &[
    (
        1,
        "op f 2; rule r: f(x_, y_); subject s: f(a, b); subject t: f(f(a, b), c); subject u: a;",
        &[
            (3, "0|{x -> a, y -> b}\n"),
            (3, "0|{x -> f(a, b), y -> c}\n"),
            (1, ""),
        ],
    ),
    // A variable that stands in a pattern twice takes one term.
    (
        1,
        "op f 2; op g 1; rule r: f(x_, x_); rule q: f(g(x_), x_); rule p: f(x_, g(x_));\
        subject s: f(g(a), g(a)); subject t: f(g(a), a); subject u: f(a, g(b));",
        &[(5, "0|{x -> g(a)}\n"), (4, "1|{x -> a}\n"), (4, "")],
    ),
    (
        1,
        "op f 2; kind v: a b; rule r: f(x_v, _); rule q: f(_v, x_v);\
        subject s: f(a, c); subject t: f(b, a); subject u: f(f(a, a), a);",
        &[
            (3, "0|{x -> a}\n"),
            (3, "0|{x -> b}\n1|{x -> a}\n"),
            (3, ""),
        ],
    ),
    (
        1,
        "op f 2; rule r: f(x_, y_) if same($x, $y); rule q: f(x_, y_) if less($x, $y) or head($x, f);\
        subject s: f(a, a); subject t: f(a, b); subject u: f(f(b, b), b);",
        &[
            (3, "0|{x -> a, y -> a}\n"),
            (3, "1|{x -> a, y -> b}\n"),
            (3, "1|{x -> f(b, b), y -> b}\n"),
        ],
    ),
    // Wildcards stand where other rules ask for symbols and operations.
    (
        1,
        "op f 3; rule r: f(a, _, c); rule q: f(a, b, _); rule p: f(_, b, c); rule o: f(x_, y_, z_);\
        rule n: f(f(_, _, a), x_, x_);\
        subject s: f(a, b, c); subject t: f(b, b, c); subject u: f(f(a, a, a), b, b); subject v: f(f(b, b, c), b, c);",
        &[
            (4, "0|{}\n1|{}\n2|{}\n3|{x -> a, y -> b, z -> c}\n"),
            (4, "2|{}\n3|{x -> b, y -> b, z -> c}\n"),
            (7, "3|{x -> f(a, a, a), y -> b, z -> b}\n4|{x -> b}\n"),
            (7, "2|{}\n3|{x -> f(b, b, c), y -> b, z -> c}\n"),
        ],
    ),
    (
        1,
        "op e 0; op f 2; rule r: a; rule q: x_; rule p: b; rule o: f(e(), x_);\
        subject s: a; subject t: c; subject u: f(e(), b); subject v: f(a, b);",
        &[
            (1, "0|{}\n1|{x -> a}\n"),
            (1, "1|{x -> c}\n"),
            (3, "1|{x -> f(e(), b)}\n3|{x -> b}\n"),
            (3, "1|{x -> f(a, b)}\n"),
        ],
    ),
    (0, "subject s: a;", &[(0, "")]),
    // Of eleven such rules the net has 4,095 states.
    (
        1,
        "op f 11; rule a: f(a,_,_,_,_,_,_,_,_,_,_); rule b: f(_,a,_,_,_,_,_,_,_,_,_);\
        rule c: f(_,_,a,_,_,_,_,_,_,_,_); rule d: f(_,_,_,a,_,_,_,_,_,_,_); rule e: f(_,_,_,_,a,_,_,_,_,_,_);\
        rule f: f(_,_,_,_,_,a,_,_,_,_,_); rule g: f(_,_,_,_,_,_,a,_,_,_,_); rule h: f(_,_,_,_,_,_,_,a,_,_,_);\
        rule i: f(_,_,_,_,_,_,_,_,a,_,_); rule j: f(_,_,_,_,_,_,_,_,_,a,_); rule k: f(_,_,_,_,_,_,_,_,_,_,a);\
        subject s: f(a,b,b,a,b,b,b,b,b,b,a);",
        &[(12, "0|{}\n3|{}\n10|{}\n")],
    ),
    // Of twelve such rules the first ten have a net together, and the last two.
    (
        2,
        "op f 12; rule a: f(a,_,_,_,_,_,_,_,_,_,_,_); rule b: f(_,a,_,_,_,_,_,_,_,_,_,_);\
        rule c: f(_,_,a,_,_,_,_,_,_,_,_,_); rule d: f(_,_,_,a,_,_,_,_,_,_,_,_); rule e: f(_,_,_,_,a,_,_,_,_,_,_,_);\
        rule f: f(_,_,_,_,_,a,_,_,_,_,_,_); rule g: f(_,_,_,_,_,_,a,_,_,_,_,_); rule h: f(_,_,_,_,_,_,_,a,_,_,_,_);\
        rule i: f(_,_,_,_,_,_,_,_,a,_,_,_); rule j: f(_,_,_,_,_,_,_,_,_,a,_,_); rule k: f(_,_,_,_,_,_,_,_,_,_,a,_);\
        rule l: f(_,_,_,_,_,_,_,_,_,_,_,a);\
        subject s: f(a,b,b,b,b,b,b,b,b,a,b,a);",
        &[(26, "0|{}\n9|{}\n11|{}\n")],
    ),
];

// The number of the first rule that isn't syntactic, and the file.
pub const REFUSED: &[(u32, &str)] = &[
    (0, "op g 0+; rule r: g(a); rule q: g(b);"),
    (0, "op k 2 comm; rule r: k(a, b);"),
    (0, "op p 2+ assoc; rule r: p(a, b);"),
    (0, "op u 1+ assoc comm one infix +; rule r: u(x_:0, y_);"),
    (
        1,
        "op f 2; op s 0+ comm; rule r: f(x_, y_); rule q: s(x_); rule p: s(a); rule o: a;",
    ),
    (
        2,
        "op f 3; rule r: f(x_, y_, z_); rule q: a; rule p: f(x_{2}, y_); rule o: f(x_, y_{2});",
    ),
    (
        3,
        "op f 2; op g 0+; rule r: a; rule q: b; rule p: f(x_, x_); rule o: f(a, g(x__));",
    ),
];
