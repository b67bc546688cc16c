//! Runs with the engine `net`.

/// The status and the words of each run, the file `t`, what is printed and what is said.
pub const NETTED: &str = "\
0 match t --engine net
0 match t --engine many
----
op f 2; op g 1; kind small: a b;
rule any: f(x_, y_);
rule twice: f(x_, x_);
rule left: f(a, _);
rule kinds: f(x_small, g(y_)) if not same($y, c);
subject s: f(a, a); subject n: g(a); subject t: f(a, g(b)); subject u: f(b, g(c));
----
s any {x -> a, y -> a}
s twice {x -> a}
s left {}
t any {x -> a, y -> g(b)}
t left {}
t kinds {x -> a, y -> b}
u any {x -> b, y -> g(c)}
----
====
0 --limit=1 match --engine=net t
----
op f 2; rule r: f(x_, y_); rule q: f(a, y_); subject s: f(a, b);
----
s r {x -> a, y -> b}
more
----
====
0 match t --engine net --limit 2
0 match t --engine many --limit 2
----
op f 2; rule r: f(x_, y_); rule q: f(a, y_); subject s: f(a, b); subject n: a; subject t: f(c, c);
----
s r {x -> a, y -> b}
s q {y -> b}
more
----
====
0 match t --engine net --limit 3
0 match t --engine net --limit 4
----
op f 2; rule r: f(x_, y_); rule q: f(a, y_); subject s: f(a, b); subject n: a; subject t: f(c, c);
----
s r {x -> a, y -> b}
s q {y -> b}
t r {x -> c, y -> c}
----
====
0 match t --engine one --limit 1
----
op f 2; rule r: f(x_, y_); rule q: f(a, y_); subject s: f(a, b);
----
s r {x -> a, y -> b}
more s/r/2;0;1
----
====
1 match t --engine net
----
op plus 1+ assoc comm one infix +; subject s: (a + b);
----
----
====
10 match t --engine net
----
op f 2; op plus 1+ assoc comm one infix +;
rule fine: f(x_, y_); rule sum: f(x_, (y_ + z_)); rule rest: f(x_, plus(y___)); subject s: f(a, b);
----
----
matchpy: sum: not syntactic
====
10 match t --engine net --limit 1
----
op g 0+; rule open: g();
----
----
matchpy: open: not syntactic
====
0 match t --engine one
0 match t --engine many
----
op g 0+; rule open: g(); subject s: g();
----
s open {}
----
====
3 match t --engine net
3 match t --engine many
----
op g 0+; rule open: g(; subject s: g();
----
----
matchpy: t:1:23: Syntax
";
