//! Rules with the texts of their programs, and lines that are none of a program.

use mp_program::Format;

/// Rules, and the lines of their program.
pub struct Row {
    /// The rules, behind declarations.
    pub rules: &'static str,
    /// The lines of the declarations.
    pub declared: &'static str,
    /// The rule lines of format 1, where the program has a text in it.
    pub spelled: Option<&'static str>,
    /// The test lines and the rule lines of format 2.
    pub numbered: &'static str,
    /// The lines from `code` on.
    pub code: &'static str,
}

/// A rule and what begins as it, conditions that are one and conditions that aren't, every token, and no rules.
pub const PROGRAMS: &[Row] = &[
    Row {
        rules: "op f 2; rule r: f(x_, y_); rule q: f(x_, a);",
        declared: "op f 2;\n",
        spelled: Some(
            "\
rule r x y;
rule q x;
",
        ),
        numbered: "\
rule r x y;
rule q x;
",
        code: "\
code
0 begin down 1
1 enter f down 2 over -
2 dot v0 down 3 over -
3 dot v1 down 4 over 5
4 leave f accept 0 over -
5 sym a down 6 over -
6 leave f accept 1 over -
7 stop
",
    },
    Row {
        rules: "op f 2; rule r: f(x_, y_) if less($x, $y); rule q: f(x_, a);",
        declared: "op f 2;\n",
        spelled: Some(
            "\
rule r x y if less($x, $y);
rule q x;
",
        ),
        numbered: "\
test less($v0, $v1);
rule r x y if [0];
rule q x;
",
        code: "\
code
0 begin down 1
1 enter f down 2 over -
2 dot v0 down 3 over -
3 dot v1 down 4 over 5
4 leave f accept 0 over -
5 sym a down 6 over -
6 leave f accept 1 over -
7 stop
",
    },
    Row {
        rules: "op f 2; rule r: f(x_, y_) if less($x, $y); rule q: f(u_, w_) if less($u, $w); \
rule p: f(u_, w_) if less($w, $u);",
        declared: "op f 2;\n",
        spelled: Some(
            "\
rule r x y if less($x, $y);
rule q u w if less($u, $w);
rule p u w if less($w, $u);
",
        ),
        numbered: "\
test less($v0, $v1);
test less($v1, $v0);
rule r x y if [0];
rule q u w if [0];
rule p u w if [1];
",
        code: "\
code
0 begin down 1
1 enter f down 2 over -
2 dot v0 down 3 over -
3 dot v1 down 4 over -
4 leave f accept 0 1 2 over -
5 stop
",
    },
    Row {
        rules: "op f 0+; op l 0+ assoc; kind v: a b; rule r: f(a, _, x_v, y___, z_:f(b), w_, u__) \
if not [less($x, $w) and count($y) > 2 or kind($u, v)]; rule q: l(x_, y__) if size($y) == 3 or head($x, f);",
        declared: "\
op f 0+;
op l 0+ assoc;
kind v: a b;
",
        spelled: Some(
            "\
rule r x y z w u if not [less($x, $w) and count($y) > 2 or kind($u, v)];
rule q x y if size($y) == 3 or head($x, f);
",
        ),
        numbered: "\
test not [less($v0, $v3) and count($v1) > 2 or kind($v4, v)];
test size($v1) == 3 or head($v0, f);
rule r x y z w u if [0];
rule q x y if [1];
",
        code: "\
code
0 begin down 1
1 enter f down 2 over 10
2 sym a down 3 over -
3 dot _ down 4 over -
4 kind v v0 down 5 over -
5 star v1 down 6 over -
6 opt v2 f(b) down 7 over -
7 dot v3 down 8 over -
8 plus v4 down 9 over -
9 leave f accept 0 over -
10 enter l down 11 over -
11 dot v0 down 12 over -
12 plus v1 down 13 over -
13 leave l accept 1 over -
14 stop
",
    },
    Row {
        rules: "op f 1+; op s 0+ comm; rule r: f(s(x_, y_:a), z_) if same($x, $z); \
rule q: f(s(u_, w_:a), v_) if same($u, $v); rule p: f(x_, x_) if free($x, b); rule o: f(_);",
        declared: "\
op f 1+;
op s 0+ comm;
",
        spelled: Some(
            "\
rule r x y z if same($x, $z);
rule q u w v if same($u, $v);
rule p x if free($x, b);
rule o;
",
        ),
        numbered: "\
test same($v0, $v2);
test free($v0, b);
rule r x y z if [0];
rule q u w v if [0];
rule p x if [1];
rule o;
",
        code: "\
code
0 begin down 1
1 enter f down 2 over -
2 comm s(v0_, v1_:a) down 3 over 5
3 dot v2 down 4 over -
4 leave f accept 0 1 over -
5 dot v0 down 6 over 8
6 dot v0 down 7 over -
7 leave f accept 2 over -
8 dot _ down 9 over -
9 leave f accept 3 over -
10 stop
",
    },
    Row {
        rules: "op g 0+; op s 0+ comm; op k 1; kind v: a b; rule r: g(x_{2}, y__, s(k(x1_v), _:a)); \
rule q: g(x_{2+}); rule p: b;",
        declared: "\
op g 0+;
op s 0+ comm;
op k 1;
kind v: a b;
",
        spelled: None,
        numbered: "\
rule r x y x1;
rule q x;
rule p;
",
        code: "\
code
0 begin down 1
1 enter g down 2 over 8
2 counted v0 2 down 3 over 6
3 plus v1 down 4 over -
4 comm s(k(v2_v), _:a) down 5 over -
5 leave g accept 0 over -
6 counted v0 2+ down 7 over -
7 leave g accept 1 over -
8 sym b accept 2 over -
9 stop
",
    },
    Row {
        rules: "",
        declared: "",
        spelled: Some(""),
        numbered: "",
        code: "\
code
0 begin down -
1 stop
",
    },
];

/// The declarations over which lines are looked at.
pub const DECLARED: &str = "op f 2; op s 2+ comm; op l 1+ assoc; op o 1+ assoc one; kind v: a b;";

/// Texts that are no line of a program of the format over these declarations, where the next instruction is the third.
pub const BAD_LINES: &[(Format, &str)] = &[
    (Format::Two, ""),
    (Format::Two, "op f 2"),
    (Format::Two, "ops f 2;"),
    (Format::Two, "kind v: a b"),
    (Format::Two, "test less($v0, $v32);"),
    (Format::Two, "test less($v0, $x);"),
    (Format::Two, "test less($v0,$v1);"),
    (Format::Two, "test [less($v0, $v1)];"),
    (Format::Two, "test less($v0, $v1)"),
    (Format::Two, "test kind($v0, w);"),
    (Format::Two, " test less($v0, $v1);"),
    (Format::Two, "rule r x  y if [0];"),
    (Format::Two, "rule r x y if [00];"),
    (Format::Two, "rule r x y if [0] ;"),
    (Format::Two, "rule r x y if [4294967296];"),
    (Format::Two, "rule r x y if less($x, $y);"),
    (Format::Two, "rule r x_ y;"),
    (Format::Two, "rule ;"),
    (Format::Two, "rule r x y"),
    (Format::One, "rule r x y if [0];"),
    (Format::One, "rule r x y if less($x,$y);"),
    (Format::One, "rule r x y if kind($x, w);"),
    (Format::One, "rule r x y if ;"),
    (Format::One, "rule r x y if [less($x, $y)];"),
    (Format::Two, "code "),
    (Format::Two, "0 begin down"),
    (Format::Two, "0 begin down 01"),
    (Format::Two, "0 begin down 1 over -"),
    (Format::Two, "3 stop here"),
    (Format::Two, "4 stop"),
    (Format::Two, "3 dot v1 down 4 over - "),
    (Format::Two, "3 dot v1 down  4 over -"),
    (Format::Two, "3  dot v1 down 4 over -"),
    (Format::Two, "03 dot v1 down 4 over -"),
    (Format::Two, "4 dot v1 down 4 over -"),
    (Format::Two, "3 dot v1 down 4"),
    (Format::Two, "3 dot v1 over 4"),
    (Format::Two, "3 dot v1 down 4 over 05"),
    (Format::Two, "3 dot v1 down - over -"),
    (Format::Two, "3 dot v1 accept over -"),
    (Format::Two, "3 dot v1 accept 1 0 over -"),
    (Format::Two, "3 dot v1 accept 1 1 over -"),
    (Format::Two, "3 dot v1 accept 4294967296 over -"),
    (Format::Two, "3 wild v1 down 4 over -"),
    (Format::Two, "3 dot x down 4 over -"),
    (Format::Two, "3 dot v01 down 4 over -"),
    (Format::Two, "3 dot v4294967296 down 4 over -"),
    (Format::Two, "3 plus down 4 over -"),
    (Format::Two, "3 sym f down 4 over -"),
    (Format::Two, "3 sym a b down 4 over -"),
    (Format::Two, "3 enter a down 4 over -"),
    (Format::Two, "3 leave  f down 4 over -"),
    (Format::Two, "3 kind w v1 down 4 over -"),
    (Format::Two, "3 opt v1 down 4 over -"),
    (Format::Two, "3 opt v1 x_ down 4 over -"),
    (Format::Two, "3 opt v1 f(a,b) down 4 over -"),
    (Format::Two, "3 counted v1 1 down 4 over -"),
    (Format::Two, "3 counted v1 1001 down 4 over -"),
    (Format::Two, "3 counted v1 2++ down 4 over -"),
    (Format::One, "3 counted v1 2 down 4 over -"),
    (Format::Two, "3 comm f(v0_, v1_) down 4 over -"),
    (Format::Two, "3 comm s(x_, v1_) down 4 over -"),
    (Format::Two, "3 comm s(l(l(a)), v1_) down 4 over -"),
    (Format::Two, "3 comm s(o(a), v1_) down 4 over -"),
    (Format::Two, "3 comm s(v0_) down 4 over -"),
    (Format::Two, "3 comm s(v0_,v1_) down 4 over -"),
    (Format::One, "3 comm s(v0_, v1_{2}) down 4 over -"),
];
