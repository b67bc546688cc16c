//! Runs with the engine `many`.

/// The status and the words of each run, the file `t`, what is printed and what is said.
pub const WALKED: &str = "\
0 match t --engine many
----
op p 1+ assoc; rule r: p(x_, y_); subject s: p(a, p(b, c));
----
s r {x -> a, y -> p(b, c)}
s r {x -> p(a, b), y -> c}
----
====
0 match t --engine many
0 match t --engine many --limit 2
----
op s 0+ comm; rule r: s(x_, y_); subject t: s(b, a);
----
t r {x -> a, y -> b}
t r {x -> b, y -> a}
----
====
0 match t --engine many
----
op h 2; op g 0+; op s 0+ comm;
rule r: h(s(x__), g(x__));
subject t: h(s(a, b), g(b, a));
----
t r {x -> (b, a)}
----
====
0 match t --engine many
----
op k 2 comm; op s 0+ comm;
rule r: s(k(x_, y_), z_);
subject t: s(k(a, d), k(b, c));
----
t r {x -> a, y -> d, z -> k(b, c)}
t r {x -> b, y -> c, z -> k(a, d)}
t r {x -> c, y -> b, z -> k(a, d)}
t r {x -> d, y -> a, z -> k(b, c)}
----
====
0 match t --engine many
----
op s 0+ comm; rule r: s(x_{2+}, y_{1}); subject t: s(a, a, b);
----
t r {y -> a, x -> {a, b}}
t r {y -> b, x -> {a, a}}
----
====
1 match t --engine many
----
op s 0+ comm; op k 1; op m 1;
rule r: s(k(x01_), k(x02_), k(x03_), k(x04_), k(x05_), k(x06_), k(x07_), k(x08_), k(x09_), k(x10_), k(x11_),
k(x12_), k(x13_), k(x14_), k(x15_), k(x16_), k(x17_), k(x18_), k(x19_), k(x20_),
m(y1_), m(y2_));
subject t: s(k(a01), k(a02), k(a03), k(a04), k(a05), k(a06), k(a07), k(a08), k(a09), k(a10), k(a11),
k(a12), k(a13), k(a14), k(a15), k(a16), k(a17), k(a18), k(a19), k(a20), k(a21),
m(b));
----
----
====
0 match t --engine many
----
op f 2; rule r: f(x_, y_); rule q: f(x_, a); subject s: f(b, a); subject t: f(a, b); subject u: a;
----
s r {x -> b, y -> a}
s q {x -> b}
t r {x -> a, y -> b}
----
====
0 match t --engine many
----
op g 0+;
rule fixed: g(a, y_); rule rest: g(a, y___); rule split: g(x__, y___); rule back: g(x___, y_);
subject s: g(a, b); subject t: g();
----
s fixed {y -> b}
s rest {y -> (b)}
s split {x -> (a), y -> (b)}
s split {x -> (a, b), y -> ()}
s back {x -> (a), y -> b}
----
====
0 match t --engine many
----
op plus 1+ assoc comm one infix +;
rule r: plus(x_, y_); rule q: plus(x_, a, z___); subject s: (a + b + c); subject t: a;
----
s r {x -> a, y -> (b + c)}
s r {x -> b, y -> (a + c)}
s r {x -> c, y -> (a + b)}
s r {x -> (a + b), y -> c}
s r {x -> (a + c), y -> b}
s r {x -> (b + c), y -> a}
s q {x -> b, z -> {c}}
s q {x -> c, z -> {b}}
s q {x -> (b + c), z -> {}}
----
====
0 match t --engine many
----
op plus 1+ assoc comm one infix +;
op times 1+ assoc comm one infix *;
rule r: plus(x_, times(y_:1, z_)); subject s: (a + b); subject t: (a + (b * c));
----
s r {z -> a, y -> 1, x -> b}
s r {z -> b, y -> 1, x -> a}
t r {z -> a, y -> 1, x -> (b * c)}
t r {z -> b, y -> c, x -> a}
t r {z -> c, y -> b, x -> a}
t r {z -> (b * c), y -> 1, x -> a}
----
====
0 match t --engine many
----
op plus 1+ assoc comm one infix +;
rule r: plus(x_, y_:0); rule q: plus(x_:0, y_:0); subject s: a; subject t: 0;
----
s r {x -> a, y -> 0}
s q {x -> 0, y -> a}
s q {x -> a, y -> 0}
t r {x -> 0, y -> 0}
t q {x -> 0, y -> 0}
----
====
0 match t --engine many
----
op s 0+ comm; op m 2;
rule up: s(m(x_, y_), z___) if less($x, $y);
rule down: s(m(x_, y_), z___) if less($y, $x) and not same($y, a);
subject t: s(m(a, b), m(c, b), m(b, a));
----
t up {x -> a, y -> b, z -> {m(b, a), m(c, b)}}
t down {x -> c, y -> b, z -> {m(a, b), m(b, a)}}
----
====
0 match t --engine many
----
op p 1+ assoc; op s 0+ comm;
rule r: s(p(x_, y_), p(z_, x_));
subject t: s(p(a, b, a), p(b, a)); subject u: s(p(a, b), p(b, c));
----
t r {x -> a, y -> p(b, a), z -> b}
u r {x -> b, y -> c, z -> a}
----
====
0 match t --engine many
----
op g 0+; op h 0+; op k 0+; op s 0+ comm;
rule last: g(x___, a); rule pair: h(x___, y_, z_); rule sum: k(x___, s(y_, z_), b);
subject t: g(a, b, a); subject u: h(a, b, c); subject v: k(a, s(b, c), b); subject n: h(a);
----
t last {x -> (a, b)}
u pair {x -> (a), y -> b, z -> c}
v sum {x -> (a), y -> b, z -> c}
v sum {x -> (a), y -> c, z -> b}
----
====
0 --limit=1 match --engine=many t
----
op s 0+ comm; rule r: s(x_, y_); subject t: s(b, a);
----
t r {x -> a, y -> b}
more
----
====
0 match t --engine many --limit 3
----
op f 2; rule r: f(x_, y_); rule q: f(a, y_);
subject s: f(a, b); subject n: a; subject t: f(c, c); subject u: f(c, d);
----
s r {x -> a, y -> b}
s q {y -> b}
t r {x -> c, y -> c}
more
----
====
1 match t --engine many --limit 1
----
op f 2; subject s: f(a, b);
----
----
";
