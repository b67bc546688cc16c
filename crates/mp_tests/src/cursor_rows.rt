//! Rules and subjects with their items and tokens.

// For how many nodes, variables and ranks at a node a room for the rule and the subject is; how many items more are
// looked for where the items end with `...`; and a text: a file of a rule and a subject and, behind a line `----`, the
// items, each with its token and, behind a bar, its substitution; and behind another such line, tokens that no item
// has. A line `near` there stands for six that differ little from the first item's.
pub type Row = ((u32, u32, u32), u32, &'static str);

pub const ROWS: &[Row] = &[
    (
        (5, 1, 7),
        0,
        "\
op h 2; op g 0+; op s 0+ comm;\n\
rule r: h(s(x__), g(x__));\n\
subject t: h(s(a, b), g(b, a));\n\
----\n\
t/r/2;4;0,1;3;1,0|{x -> (b, a)}\n\
----\n\
near\n",
    ),
    (
        (3, 2, 4),
        0,
        "\
op plus 1+ assoc comm one infix +;\n\
rule r: plus(x_, y_);\n\
subject s: (a + b + c);\n\
----\n\
s/r/3;0;1,2|{x -> a, y -> (b + c)}\n\
s/r/3;1;0,2|{x -> b, y -> (a + c)}\n\
s/r/3;2;0,1|{x -> c, y -> (a + b)}\n\
s/r/3;0,1;2|{x -> (a + b), y -> c}\n\
s/r/3;0,2;1|{x -> (a + c), y -> b}\n\
s/r/3;1,2;0|{x -> (b + c), y -> a}\n\
----\n\
near\n\
s/r/3;0;1\n",
    ),
    (
        (5, 3, 7),
        0,
        "\
op k 2 comm; op s 0+ comm;\n\
rule r: s(k(x_, y_), z_);\n\
subject t: s(k(a, d), k(b, c));\n\
----\n\
t/r/6;4;0;3;5|{x -> a, y -> d, z -> k(b, c)}\n\
t/r/6;4;3;0;5|{x -> d, y -> a, z -> k(b, c)}\n\
t/r/6;5;1;2;4|{x -> b, y -> c, z -> k(a, d)}\n\
t/r/6;5;2;1;4|{x -> c, y -> b, z -> k(a, d)}\n\
----\n\
near\n",
    ),
    (
        (3, 2, 61),
        20_000,
        "\
op plus 1+ assoc comm one infix +;\n\
rule r: plus(x__, y__);\n\
subject s: plus(a01, a02, a03, a04, a05, a06, a07, a08, a09, a10, a11, a12, a13, a14, a15, a16, a17, a18, a19, \
a20, a21, a22, a23, a24, a25, a26, a27, a28, a29, a30, a31, a32, a33, a34, a35, a36, a37, a38, a39, a40, a41, \
a42, a43, a44, a45, a46, a47, a48, a49, a50, a51, a52, a53, a54, a55, a56, a57, a58, a59, a60);\n\
----\n\
s/r/60;0;1,2,3,4,5,6,7,8,9,10,11,12,13,14,15,16,17,18,19,20,21,22,23,24,25,26,27,28,29,30,31,32,33,34,35,36,37,\
38,39,40,41,42,43,44,45,46,47,48,49,50,51,52,53,54,55,56,57,58,59|{x -> {a01}, y -> {a02, a03, a04, a05, a06, \
a07, a08, a09, a10, a11, a12, a13, a14, a15, a16, a17, a18, a19, a20, a21, a22, a23, a24, a25, a26, a27, a28, \
a29, a30, a31, a32, a33, a34, a35, a36, a37, a38, a39, a40, a41, a42, a43, a44, a45, a46, a47, a48, a49, a50, \
a51, a52, a53, a54, a55, a56, a57, a58, a59, a60}}\n\
s/r/60;1;0,2,3,4,5,6,7,8,9,10,11,12,13,14,15,16,17,18,19,20,21,22,23,24,25,26,27,28,29,30,31,32,33,34,35,36,37,\
38,39,40,41,42,43,44,45,46,47,48,49,50,51,52,53,54,55,56,57,58,59|{x -> {a02}, y -> {a01, a03, a04, a05, a06, \
a07, a08, a09, a10, a11, a12, a13, a14, a15, a16, a17, a18, a19, a20, a21, a22, a23, a24, a25, a26, a27, a28, \
a29, a30, a31, a32, a33, a34, a35, a36, a37, a38, a39, a40, a41, a42, a43, a44, a45, a46, a47, a48, a49, a50, \
a51, a52, a53, a54, a55, a56, a57, a58, a59, a60}}\n\
s/r/60;2;0,1,3,4,5,6,7,8,9,10,11,12,13,14,15,16,17,18,19,20,21,22,23,24,25,26,27,28,29,30,31,32,33,34,35,36,37,\
38,39,40,41,42,43,44,45,46,47,48,49,50,51,52,53,54,55,56,57,58,59|{x -> {a03}, y -> {a01, a02, a04, a05, a06, \
a07, a08, a09, a10, a11, a12, a13, a14, a15, a16, a17, a18, a19, a20, a21, a22, a23, a24, a25, a26, a27, a28, \
a29, a30, a31, a32, a33, a34, a35, a36, a37, a38, a39, a40, a41, a42, a43, a44, a45, a46, a47, a48, a49, a50, \
a51, a52, a53, a54, a55, a56, a57, a58, a59, a60}}\n\
...\n\
----\n",
    ),
    (
        (1, 0, 1),
        0,
        "\
rule r: a;\n\
subject s: a;\n\
----\n\
s/r/0|{}\n\
----\n\
s/q/0\n\
s/r/0;\n\
s/r/99\n\
s/r/0!\n",
    ),
    (
        (1, 1, 2),
        0,
        "\
op f 1;\n\
rule r: x_;\n\
subject s: f(a);\n\
----\n\
s/r/1|{x -> f(a)}\n\
----\n\
s/q/1\n\
s/r/1;\n\
s/r/99\n\
s/r/1!\n",
    ),
    (
        (1, 1, 1),
        0,
        "\
kind v: a b;\n\
rule r: x_v;\n\
subject s: c;\n\
----\n\
----\n\
s/r/0\n",
    ),
    (
        (3, 1, 3),
        0,
        "\
op f 2;\n\
rule r: f(x_, x_);\n\
subject s: f(a, b);\n\
----\n\
----\n\
s/r/0;0;0\n",
    ),
    (
        (4, 3, 4),
        0,
        "\
op g 0+;\n\
rule r: g(x___, y_, z___);\n\
subject s: g(a, b, a);\n\
----\n\
s/r/2;;0;1,0|{x -> (), y -> a, z -> (b, a)}\n\
s/r/2;0;1;0|{x -> (a), y -> b, z -> (a)}\n\
s/r/2;0,1;0;|{x -> (a, b), y -> a, z -> ()}\n\
----\n\
near\n",
    ),
    (
        (4, 2, 7),
        0,
        "\
op g 0+;\n\
rule r: g(x__, y___, x__);\n\
subject s: g(a, b, a, b, a, b);\n\
----\n\
s/r/2;0,1;0,1;0,1|{x -> (a, b), y -> (a, b)}\n\
----\n\
near\n",
    ),
    (
        (4, 1, 6),
        0,
        "\
op g 0+;\n\
rule r: g(_{2}, x___, _{2+});\n\
subject s: g(a, b, c, d, e);\n\
----\n\
s/r/5;0,1;;2,3,4|{x -> ()}\n\
s/r/5;0,1;2;3,4|{x -> (c)}\n\
----\n\
near\n",
    ),
    (
        (3, 2, 5),
        0,
        "\
op p 1+ assoc;\n\
rule r: p(x_, y_);\n\
subject s: p(a, b, c, d);\n\
----\n\
s/r/4;0;1,2,3|{x -> a, y -> p(b, c, d)}\n\
s/r/4;0,1;2,3|{x -> p(a, b), y -> p(c, d)}\n\
s/r/4;0,1,2;3|{x -> p(a, b, c), y -> d}\n\
----\n\
near\n",
    ),
    (
        (5, 2, 8),
        0,
        "\
op p 1+ assoc; op h 2;\n\
rule r: h(p(x_, y_), x_);\n\
subject s: h(p(a, b, c), p(a, b));\n\
----\n\
s/r/5;4;0,1;2;3|{x -> p(a, b), y -> c}\n\
----\n\
near\n",
    ),
    (
        (3, 2, 5),
        0,
        "\
op p 1+ assoc;\n\
rule r: p(x_{2}, y_);\n\
subject s: p(a, b, c, d);\n\
----\n\
s/r/4;0,1;2,3|{x -> (a, b), y -> p(c, d)}\n\
----\n\
near\n",
    ),
    (
        (4, 1, 4),
        0,
        "\
op p 1+ assoc;\n\
rule r: p(_, x_, ___);\n\
subject s: p(a, b, c);\n\
----\n\
s/r/3;0;1;2|{x -> b}\n\
s/r/3;0;1,2;|{x -> p(b, c)}\n\
s/r/3;0,1;2;|{x -> c}\n\
----\n\
near\n",
    ),
    (
        (3, 2, 4),
        0,
        "\
op s 0+ comm;\n\
rule r: s(x__, y___);\n\
subject t: s(a, a, b);\n\
----\n\
t/r/2;0;0,1|{x -> {a}, y -> {a, b}}\n\
t/r/2;1;0,0|{x -> {b}, y -> {a, a}}\n\
t/r/2;0,0;1|{x -> {a, a}, y -> {b}}\n\
t/r/2;0,1;0|{x -> {a, b}, y -> {a}}\n\
t/r/2;0,0,1;|{x -> {a, a, b}, y -> {}}\n\
----\n\
near\n",
    ),
    (
        (4, 2, 6),
        0,
        "\
op s 0+ comm;\n\
rule r: s(x_, x_, y___);\n\
subject t: s(a, a, b, b, c);\n\
----\n\
t/r/3;0;0;1,1,2|{x -> a, y -> {b, b, c}}\n\
t/r/3;1;1;0,0,2|{x -> b, y -> {a, a, c}}\n\
----\n\
near\n",
    ),
    (
        (4, 2, 6),
        0,
        "\
op s 0+ comm;\n\
rule r: s(_{2}, x_, y_{2+});\n\
subject t: s(a, a, a, b, b);\n\
----\n\
t/r/2;0;0,0;1,1|{x -> a, y -> {a, a}}\n\
t/r/2;0;0,1;0,1|{x -> a, y -> {a, b}}\n\
t/r/2;0;1,1;0,0|{x -> a, y -> {b, b}}\n\
t/r/2;1;0,0;0,1|{x -> b, y -> {a, a}}\n\
t/r/2;1;0,1;0,0|{x -> b, y -> {a, b}}\n\
----\n\
near\n",
    ),
    (
        (4, 1, 4),
        0,
        "\
op s 0+ comm;\n\
rule r: s(x_, _, __);\n\
subject t: s(a, b, c);\n\
----\n\
t/r/3;0;1;2|{x -> a}\n\
t/r/3;1;0;2|{x -> b}\n\
t/r/3;2;0;1|{x -> c}\n\
----\n\
near\n\
t/r/3;0;2;1\n\
t/r/3;1;2;0\n",
    ),
    (
        (6, 2, 9),
        0,
        "\
op s 0+ comm; op h 2; op g 0+;\n\
rule r: h(g(x__), s(x__, y___));\n\
subject t: h(g(b, a), s(a, a, b, c));\n\
----\n\
t/r/4;5;1,0;3;0,1;0,2|{x -> (b, a), y -> {a, c}}\n\
----\n\
near\n",
    ),
    (
        (7, 3, 7),
        0,
        "\
op k 2 comm;\n\
rule r: k(k(x_, y_), k(y_, z_));\n\
subject t: k(k(a, b), k(b, a));\n\
----\n\
t/r/3;2;0;1;2;1;0|{x -> a, y -> b, z -> a}\n\
t/r/3;2;1;0;2;0;1|{x -> b, y -> a, z -> b}\n\
----\n\
near\n",
    ),
    (
        (3, 2, 1),
        0,
        "\
op u 1+ assoc comm one infix +;\n\
rule r: u(x_, y_:0);\n\
subject s: a;\n\
----\n\
s/r/1!;1;|{x -> a, y -> 0}\n\
----\n\
s/q/1!;1;\n\
s/r/1!;1\n\
s/r/1!;1;;\n\
s/r/1!;1;99\n\
s/r/1;1;\n\
s/r/1!;1;0\n",
    ),
    (
        (3, 2, 3),
        0,
        "\
op u 1+ assoc comm one infix +;\n\
rule r: u(x_:0, y_:0);\n\
subject s: (a + b);\n\
----\n\
s/r/3;;1,2|{x -> 0, y -> (a + b)}\n\
s/r/3;1;2|{x -> a, y -> b}\n\
s/r/3;2;1|{x -> b, y -> a}\n\
s/r/3;1,2;|{x -> (a + b), y -> 0}\n\
----\n\
near\n",
    ),
    (
        (5, 3, 5),
        0,
        "\
op u 1+ assoc comm one infix +; op m 1+ assoc comm one infix *;\n\
rule r: u(m(x_:1, z_), y_:0);\n\
subject s: (a + (b * c));\n\
----\n\
s/r/5;2!;2;;6|{z -> a, x -> 1, y -> (b * c)}\n\
s/r/5;6;3;4;2|{z -> b, x -> c, y -> a}\n\
s/r/5;6;4;3;2|{z -> c, x -> b, y -> a}\n\
s/r/5;6;3,4;;2|{z -> (b * c), x -> 1, y -> a}\n\
s/r/5!;5!;5;;|{z -> (a + (b * c)), x -> 1, y -> 0}\n\
----\n\
near\n",
    ),
    (
        (5, 1, 5),
        0,
        "\
op u 1+ assoc one; op h 2;\n\
rule r: h(u(_:0, x_), _);\n\
subject s: h(u(a, b), b);\n\
----\n\
s/r/4;3;;1,2;2|{x -> u(a, b)}\n\
s/r/4;3;1;2;2|{x -> b}\n\
----\n\
near\n",
    ),
    (
        (3, 2, 4),
        0,
        "\
op u 1+ assoc comm one infix +; kind v: a b;\n\
rule r: u(x_, y_) if less($x, $y);\n\
subject s: (a + b + c);\n\
----\n\
s/r/3;0;1,2|{x -> a, y -> (b + c)}\n\
s/r/3;1;0,2|{x -> b, y -> (a + c)}\n\
s/r/3;2;0,1|{x -> c, y -> (a + b)}\n\
----\n\
near\n\
s/r/3;0,1;2\n\
s/r/3;0,2;1\n",
    ),
    (
        (3, 2, 5),
        0,
        "\
op s 0+ comm;\n\
rule r: s(x__, y__) if count($x) >= 2 and not [count($y) == 1];\n\
subject t: s(a, b, c, d);\n\
----\n\
t/r/4;0,1;2,3|{x -> {a, b}, y -> {c, d}}\n\
t/r/4;0,2;1,3|{x -> {a, c}, y -> {b, d}}\n\
t/r/4;0,3;1,2|{x -> {a, d}, y -> {b, c}}\n\
t/r/4;1,2;0,3|{x -> {b, c}, y -> {a, d}}\n\
t/r/4;1,3;0,2|{x -> {b, d}, y -> {a, c}}\n\
t/r/4;2,3;0,1|{x -> {c, d}, y -> {a, b}}\n\
----\n\
near\n\
t/r/4;0;1,2,3\n\
t/r/4;1;0,2,3\n",
    ),
    (
        (4, 1, 6),
        0,
        "\
op g 0+; op f 1;\n\
rule r: g(___, x_, ___) if head($x, f) or same($x, a);\n\
subject t: g(a, f(a), b, a);\n\
----\n\
t/r/2;;0;3,1,0|{x -> a}\n\
t/r/2;0;3;1,0|{x -> f(a)}\n\
----\n\
near\n\
t/r/2;0,3;1;0\n\
t/r/2;0,3,1;0;\n",
    ),
    (
        (5, 3, 8),
        0,
        "\
op s 0+ comm; op f 1;\n\
rule r: s(f(x_), y_, z___) if free(a, $x) and not [same($y, d)];\n\
subject t: s(f(a), f(f(b)), c, d);\n\
----\n\
t/r/4;7;6;2;3,5|{x -> f(b), y -> c, z -> {d, f(a)}}\n\
t/r/4;7;6;5;2,3|{x -> f(b), y -> f(a), z -> {c, d}}\n\
----\n\
near\n\
t/r/4;5;0;2;3,7\n\
t/r/4;5;0;3;2,7\n",
    ),
];
