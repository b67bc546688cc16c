//! Runs of the actions that rewrite and edit.

/// The status and the words of each run, the file `t`, what is printed and what is said.
pub const CHANGES: &str = "\
0 rewrite t
0 rewrite t --max 2
----
op neg 1; op plus 1+ assoc comm one infix +;
rule inv: plus(x_, neg(x_), r___) -> plus(0, $r);
rule zero: plus(0, r__) -> plus($r);
subject s: (a + b + neg(a));
----
s: b after 2
----
====
6 rewrite t --max 1
----
op neg 1; op plus 1+ assoc comm one infix +;
rule inv: plus(x_, neg(x_), r___) -> plus(0, $r);
rule zero: plus(0, r__) -> plus($r);
subject s: (a + b + neg(a)); subject t: b;
----
s: (0 + b) after 1
----
matchpy: s: turn limit 1
====
6 rewrite t --max 3
----
op u 1; rule g: u(x_) -> u(u($x)); subject s: u(a);
----
s: u(u(u(u(a)))) after 3
----
matchpy: s: turn limit 3
====
6 rewrite t --max 0000000000
----
op u 1; rule g: u(x_) -> u(u($x)); subject s: u(a);
----
s: u(a) after 0
----
matchpy: s: turn limit 0
====
7 rewrite t
----
op u 1; rule g: u(x_) -> u(u($x)); subject s: u(a);
----
----
matchpy: s: too deep: depth 101
====
7 rewrite t
----
op u 1; op d 2; rule g: u(x_) -> u(d($x, $x)); subject s: u(a);
----
----
matchpy: s: too large: 131072 nodes
====
0 rewrite t
----
op plus 1+ assoc comm one infix +; op times 1+ assoc comm one infix *; kind v: x y;
rule collect: plus(times(c_:1, x_v), times(d_:1, x_v), r___) -> plus(times(plus($c, $d), $x), $r);
subject t: (x + (3 * x) + y);
----
t: (y + (x * (1 + 3))) after 1
----
====
11 rewrite t
----
op f 2; rule r: f(x_, y_); subject s: f(a, b);
----
----
matchpy: r: no template
====
11 rewrite t
----
op f 2; rule a: f(x_, x_) -> $x; rule r: f(x_, y_); rule q: x_; subject s: f(a, a);
----
----
matchpy: r: no template
====
0 rewrite t
----
op u 1; rule g: u(x_) -> $x if not same($x, a); subject r: u(u(u(b))); subject s: a; subject t: u(u(a));
----
r: b after 3
s: a after 0
t: u(a) after 1
----
====
7 rewrite t
----
op u 1; rule g: u(x_) -> u(u($x)); rule h: a -> b; subject r: a; subject s: u(a); subject t: a;
----
r: b after 1
----
matchpy: s: too deep: depth 101
====
0 rewrite t
----
op g 0+; op h 2; rule a: h(x_, y_) -> c; rule b: g(x___) -> h(a, b) if count($x) == 1; subject s: g(h(a, g(b)), g(b));
----
s: g(c, c) after 3
----
====
3 rewrite t
----
op f 2; rule r: f(x_, y_) -> $z; subject s: f(a, b);
----
----
matchpy: t:1:30: UnboundVariable
====
0 rewrite t --max 1000000
----
op f 2; rule r: f(x_, y_) -> $x; subject s: f(a, b);
----
s: a after 1
----
====
4 rewrite none
----
op f 2; rule r: f(x_, y_) -> $x; subject s: f(a, b);
----
----
matchpy: none: cannot open
====
0 edit t
----
op g 0+; subject s: g(a, g(b, c), d);
edit s: 0 -> z, 1.1 -> [x, y], 2 -> [];
edit s: . -> q;
----
s: g(z, g(b, x, y))
s: q
----
====
3 edit t
----
op g 0+; subject s: g(g(a, b)); edit s: 0 -> a, 0.1 -> b;
----
----
matchpy: t:1:49: Overlap
====
0 edit t
----
op plus 1+ assoc comm one infix +; subject r: (a + b + c); subject s: f;
edit r: 0 -> [d, e], 2 -> (a + d); edit s: . -> (z + y); edit r: 0 -> [], 1 -> [];
----
r: (a + b + d + d + e)
s: (y + z)
r: c
----
====
0 edit t
----
op f 2; rule r: f(x_, y_); subject s: f(a, b);
----
----
====
7 edit t
----
op u 1; subject s: u(a); subject r: u(b);
edit r: 0 -> c;
edit s: 0 -> u(u(u(u(u(u(u(u(u(u(u(u(u(u(u(u(u(u(u(u(u(u(u(u(u(u(u(u(u(u(u(u(u(u(u(u(u(u(u(u(u(u(u(u(u(u(u(u(u(u(
u(u(u(u(u(u(u(u(u(u(u(u(u(u(u(u(u(u(u(u(u(u(u(u(u(u(u(u(u(u(u(u(u(u(u(u(u(u(u(u(u(u(u(u(u(u(u(u(u(u(
a)))))))))))))))))))))))))))))))))))))))))))))))))))))))))))))))))))))))))))))))))))))))))))))))))))
);
edit r: 0 -> d;
----
r: u(c)
----
matchpy: s: too deep: depth 101
";
