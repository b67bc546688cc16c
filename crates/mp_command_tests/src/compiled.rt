//! Runs of the actions `compile` and `run`, and of the engine `program`.

/// The status and the words of each run, the file `t` and, behind `%%%%`, the file `p`, what is printed and what is
/// said. A line `%%%%` that goes on says what `p` has in place of a part of the program of the rule `r: f(x_, y_)`.
pub const COMPILED: &str = "\
0 compile t
----
op f 2; rule r: f(x_, y_); subject s: f(a, b);
----
matchpy program 2
op f 2;
rule r x y;
code
0 begin down 1
1 enter f down 2 over -
2 dot v0 down 3 over -
3 dot v1 down 4 over -
4 leave f accept 0 over -
5 stop
----
====
0 compile t
----
op f 2; rule r: f(x_, y_); rule q: f(x_, a); subject s: f(a, b);
----
matchpy program 2
op f 2;
rule r x y;
rule q x;
code
0 begin down 1
1 enter f down 2 over -
2 dot v0 down 3 over -
3 dot v1 down 4 over 5
4 leave f accept 0 over -
5 sym a down 6 over -
6 leave f accept 1 over -
7 stop
----
====
0 compile t
----
op f 2; rule r: f(x_, y_) if less($x, $y); rule q: f(u_, w_) if less($u, $w);
----
matchpy program 2
op f 2;
test less($v0, $v1);
rule r x y if [0];
rule q u w if [0];
code
0 begin down 1
1 enter f down 2 over -
2 dot v0 down 3 over -
3 dot v1 down 4 over -
4 leave f accept 0 1 over -
5 stop
----
====
0 compile t
----
op g 0+; op s 0+ comm; op k 1; kind v: a b; rule r: g(x_{2}, y__, s(k(x1_v), _:a)); rule q: b;
----
matchpy program 2
op g 0+;
op s 0+ comm;
op k 1;
kind v: a b;
rule r x y x1;
rule q;
code
0 begin down 1
1 enter g down 2 over 6
2 counted v0 2 down 3 over -
3 plus v1 down 4 over -
4 comm s(k(v2_v), _:a) down 5 over -
5 leave g accept 0 over -
6 sym b accept 1 over -
7 stop
----
====
0 compile t
----
----
matchpy program 2
code
0 begin down -
1 stop
----
====
3 compile t
----
op f 2; rule r: f(x_;
----
----
matchpy: t:1:21: Syntax
====
0 run t p
----
op f 2; subject t: f(c, c);
%%%% r
----
t r {x -> c, y -> c}
----
====
0 run t p
----
op f 2; subject t: f(c, c);
%%%% program 2 -> program 1
----
t r {x -> c, y -> c}
----
====
12 run t p
----
op f 2 comm; subject t: f(c, c);
%%%% r
----
----
matchpy: p:2: BadReference
====
0 run t p
----
op f 2; subject t: f(c, a); subject s: a;
%%%%
matchpy program 2
op f 2;
rule r x y;
rule q x;
code
0 begin down 1
1 enter f down 2 over -
2 dot v0 down 3 over -
3 dot v1 down 4 over 5
4 leave f accept 0 over -
5 sym a down 6 over -
6 leave f accept 1 over -
7 stop
----
t r {x -> c, y -> a}
t q {x -> c}
----
====
1 run t p
----
op f 2; rule r: f(x_, y_); subject t: a;
%%%% r
----
----
====
0 run t p
----
op f 2; subject t: f(a, b); subject s: f(b, a);
%%%%
matchpy program 2
op f 2;
test less($v0, $v1);
rule r x y if [0];
code
0 begin down 1
1 enter f down 2 over -
2 dot v0 down 3 over -
3 dot v1 down 4 over -
4 leave f accept 0 over -
5 stop
----
t r {x -> a, y -> b}
----
====
0 run t p
----
op s 0+ comm; subject t: s(a, a);
%%%%
matchpy program 2
op s 0+ comm;
rule r y z;
code
0 begin down 1
1 comm s(v0__, v1___) accept 0 over -
2 stop
----
t r {y -> {a}, z -> {a}}
t r {y -> {a, a}, z -> {}}
----
====
0 compile t --from p
----
op f 2; subject t: f(c, c);
%%%% program 2 -> program 1
----
matchpy program 2
op f 2;
rule r x y;
code
0 begin down 1
1 enter f down 2 over -
2 dot v0 down 3 over -
3 dot v1 down 4 over -
4 leave f accept 0 over -
5 stop
----
====
0 compile t --from p
----
op f 2; rule q: f(a, b);
%%%% r
----
matchpy program 2
op f 2;
rule r x y;
code
0 begin down 1
1 enter f down 2 over -
2 dot v0 down 3 over -
3 dot v1 down 4 over -
4 leave f accept 0 over -
5 stop
----
====
12 compile t --from p
----
op f 2; subject t: f(c, c);
%%%% program 2 -> program 3
----
----
matchpy: p:1: WrongVersion
====
12 compile t --from=p
----
op f 2;
%%%% program 2 -> program 02
----
----
matchpy: p:1: BadLine
====
12 compile t --from p
----
op f 2;
%%%%
matchpy program 2
op f 2;
rule r x y;
code
0 begin down 1
1 enter f down 2 over -
2 dot v0 down 3 over -
3 dot v1 down 4 over -
4 leave f accept 0 over -
----
----
matchpy: p:10: BadLine
====
12 compile t --from p
----
op f 2;
%%%% 2 dot v0 down 3 -> 2 dot v0 down 1
----
----
matchpy: p:7: BackwardTarget
====
12 compile t --from p
----
op f 2;
%%%% 4 leave f accept 0 -> 4 leave f accept 1
----
----
matchpy: p:9: BadReference
====
12 compile t --from p
----
op f 2; op g 2;
%%%%
matchpy program 2
op f 2;
op g 2;
rule r x y;
code
0 begin down 1
1 enter f down 2 over -
2 dot v0 down 3 over -
3 dot v1 down 4 over -
4 leave g accept 0 over -
5 stop
----
----
matchpy: p:10: Unbalanced
====
12 compile t --from p
----
op f 2;
%%%% rule r x y; -> rule r  x y;
----
----
matchpy: p:3: BadLine
====
12 compile t --from p
----
op f 2;
%%%%
----
----
matchpy: p:1: BadLine
====
4 run t none
----
op f 2; subject t: f(c, c;
----
----
matchpy: none: cannot open
====
4 run none p
----
op f 2;
%%%% r
----
----
matchpy: none: cannot open
====
3 run t p
----
op f 2; subject t: f(c, c;
%%%%
nothing
----
----
matchpy: t:1:26: Syntax
====
0 match t --engine program
----
op f 3; rule r: f(x_{2}, y_); subject s: f(a, b, c);
----
s r {x -> (a, b), y -> c}
----
====
0 match t --engine program --limit 2
----
op plus 1+ assoc comm one infix +; rule r: plus(x_, y_); subject s: (a + b + c);
----
s r {x -> a, y -> (b + c)}
s r {x -> b, y -> (a + c)}
more
----
";
