//! Runs with a limit of lines, and with the token behind whose match they begin.

/// The status and the words of each run, the file `t`, what is printed and what is said.
pub const LISTED: &str = "\
0 match t --limit 1
----
op plus 1+ assoc comm one infix +;
rule r: plus(x_, y_); subject s: (a + b + c);
----
s r {x -> a, y -> (b + c)}
more s/r/3;0;1,2
----
====
0 match t --resume s/r/3;0;1,2
----
op plus 1+ assoc comm one infix +;
rule r: plus(x_, y_); subject s: (a + b + c);
----
s r {x -> b, y -> (a + c)}
s r {x -> c, y -> (a + b)}
s r {x -> (a + b), y -> c}
s r {x -> (a + c), y -> b}
s r {x -> (b + c), y -> a}
----
====
0 --resume=s/r/3;0;1,2 --limit=2 --engine one match t
----
op plus 1+ assoc comm one infix +;
rule r: plus(x_, y_); subject s: (a + b + c);
----
s r {x -> b, y -> (a + c)}
s r {x -> c, y -> (a + b)}
more s/r/3;2;0,1
----
====
0 match --limit 5 t --engine=one
----
op plus 1+ assoc comm one infix +;
rule r: plus(x_, y_); subject s: (a + b + c);
----
s r {x -> a, y -> (b + c)}
s r {x -> b, y -> (a + c)}
s r {x -> c, y -> (a + b)}
s r {x -> (a + b), y -> c}
s r {x -> (a + c), y -> b}
more s/r/3;0,2;1
----
====
0 match t --limit 6
----
op plus 1+ assoc comm one infix +;
rule r: plus(x_, y_); subject s: (a + b + c);
----
s r {x -> a, y -> (b + c)}
s r {x -> b, y -> (a + c)}
s r {x -> c, y -> (a + b)}
s r {x -> (a + b), y -> c}
s r {x -> (a + c), y -> b}
s r {x -> (b + c), y -> a}
----
====
0 match t --resume s/r/3;0,1;2 --limit 2
----
op plus 1+ assoc comm one infix +;
rule r: plus(x_, y_); subject s: (a + b + c);
----
s r {x -> (a + c), y -> b}
s r {x -> (b + c), y -> a}
----
====
1 match t --resume s/r/3;1,2;0
----
op plus 1+ assoc comm one infix +;
rule r: plus(x_, y_); subject s: (a + b + c);
----
----
====
9 match t --resume s/r/3;0;1
9 match t --resume s/q/3;0;1,2
9 match t --resume s/r/3;0;1,2;
----
op plus 1+ assoc comm one infix +;
rule r: plus(x_, y_); subject s: (a + b + c);
----
----
matchpy: token: not an item
====
9 match t --resume s/r
----
op plus 1+ assoc comm one infix +;
rule r: plus(x_, y_); subject s: (a + b + c);
----
----
matchpy: token: spelling at 3
====
9 match t --resume=
----
op plus 1+ assoc comm one infix +;
rule r: plus(x_, y_); subject s: (a + b + c);
----
----
matchpy: token: spelling at 0
====
0 match t --resume t/r/6;4;3;0;5
----
op k 2 comm; op s 0+ comm;
rule r: s(k(x_, y_), z_); subject t: s(k(a, d), k(b, c));
----
t r {x -> b, y -> c, z -> k(a, d)}
t r {x -> c, y -> b, z -> k(a, d)}
----
====
0 match t --resume t/r/2;1;0 --limit 2
----
op s 0+ comm; rule r: s(x_, y___); rule q: s(x__, y_); subject t: s(a, b); subject u: s(c, c);
----
t q {y -> a, x -> {b}}
t q {y -> b, x -> {a}}
more t/q/2;1;0
----
====
0 match t --resume t/q/2;1;0 --limit 2
----
op s 0+ comm; rule r: s(x_, y___); rule q: s(x__, y_); subject t: s(a, b); subject u: s(c, c);
----
u r {x -> c, y -> {c}}
u q {y -> c, x -> {c}}
----
====
1 match t --limit 1
1 match t --engine net --limit 1
1 match t --engine many
----
op f 2; rule r: f(x_, x_); subject s: f(a, b);
----
----
====
4 match -- -t
----
op f 2; rule r: f(x_, y_); subject s: f(a, b);
----
----
matchpy: -t: cannot open
";
