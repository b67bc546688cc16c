//! Rules and subjects with what a walk gives and what the rules admit.

// A file, and for each of its subjects the items of a walk, in any order, and the pairs that the rules admit, in order:
// each the rule's number and, behind a bar, the substitution.
pub type Row = (&'static str, &'static [(&'static str, &'static str)]);

pub const ROWS: &[Row] = &[
    (
        "op f 2; rule r: f(x_, y_); rule q: f(x_, a); subject s: f(b, a); subject t: f(a, b); subject u: a;",
        &[
            (
                "0|{x -> b, y -> a}\n1|{x -> b}\n",
                "0|{x -> b, y -> a}\n1|{x -> b}\n",
            ),
            ("0|{x -> a, y -> b}\n", "0|{x -> a, y -> b}\n"),
            ("", ""),
        ],
    ),
    (
        "op p 1+ assoc; rule r: p(x_, y_); rule q: p(x_, y_, z_); subject s: p(a, p(b, c));",
        &[(
            "0|{x -> a, y -> p(b, c)}\n0|{x -> p(a, b), y -> c}\n1|{x -> a, y -> b, z -> c}\n",
            "0|{x -> a, y -> p(b, c)}\n0|{x -> p(a, b), y -> c}\n1|{x -> a, y -> b, z -> c}\n",
        )],
    ),
    // Two tables have one substitution, and a condition doesn't hold.
    (
        "op s 0+ comm; rule r: s(_, _); rule q: s(x_, y_) if less($x, $y); subject t: s(b, a);",
        &[(
            "0|{}\n0|{}\n1|{x -> a, y -> b}\n1|{x -> b, y -> a}\n",
            "0|{}\n1|{x -> a, y -> b}\n",
        )],
    ),
    // Two rules have one list of tokens.
    (
        "op f 1; rule r: f(x_); rule q: f(y_) if head($y, f); subject s: f(f(a)); subject t: f(a);",
        &[
            (
                "0|{x -> f(a)}\n1|{y -> f(a)}\n",
                "0|{x -> f(a)}\n1|{y -> f(a)}\n",
            ),
            ("0|{x -> a}\n1|{y -> a}\n", "0|{x -> a}\n"),
        ],
    ),
    // An optional wildcard, a collapsed node below another one, and the same at the root.
    (
        "op plus 1+ assoc comm one; op k 1; rule r: plus(x_:z, y_, w___); rule q: k(plus(x_:z, y_));\
        subject s: k(a); subject t: plus(a, b); subject u: k(plus(a, b));",
        &[
            ("1|{y -> a, x -> z}\n", "1|{y -> a, x -> z}\n"),
            (
                "0|{y -> a, x -> b, w -> {}}\n0|{y -> a, x -> z, w -> {b}}\n0|{y -> b, x -> a, w -> {}}\n\
                0|{y -> b, x -> z, w -> {a}}\n0|{y -> plus(a, b), x -> z, w -> {}}\n",
                "0|{y -> a, x -> b, w -> {}}\n0|{y -> a, x -> z, w -> {b}}\n0|{y -> b, x -> a, w -> {}}\n\
                0|{y -> b, x -> z, w -> {a}}\n0|{y -> plus(a, b), x -> z, w -> {}}\n",
            ),
            (
                "1|{y -> a, x -> b}\n1|{y -> b, x -> a}\n1|{y -> plus(a, b), x -> z}\n",
                "1|{y -> a, x -> b}\n1|{y -> b, x -> a}\n1|{y -> plus(a, b), x -> z}\n",
            ),
        ],
    ),
    // Sequences, and a variable below a commutative node and beside it.
    (
        "op g 0+; op s 0+ comm; rule r: g(x___, y___); rule q: g(s(x_, y_), y_);\
        subject s: g(a); subject t: g(s(a, b), b); subject u: s(a, b);",
        &[
            (
                "0|{x -> (), y -> (a)}\n0|{x -> (a), y -> ()}\n",
                "0|{x -> (), y -> (a)}\n0|{x -> (a), y -> ()}\n",
            ),
            (
                "0|{x -> (), y -> (s(a, b), b)}\n0|{x -> (s(a, b)), y -> (b)}\n\
                0|{x -> (s(a, b), b), y -> ()}\n1|{x -> a, y -> b}\n",
                "0|{x -> (), y -> (s(a, b), b)}\n0|{x -> (s(a, b)), y -> (b)}\n\
                0|{x -> (s(a, b), b), y -> ()}\n1|{x -> a, y -> b}\n",
            ),
            ("", ""),
        ],
    ),
];
