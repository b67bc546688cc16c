//! Files and what the runs over them write.

/// Files and, behind a line `----`, the lines of their matches. A line `====` stands between each two.
pub const MATCHES: &str = "\
op f 2;
rule r: f(x_, x_);
subject s: f(a, b);
----
====
op f 2 comm;
rule r: f(x_, a);
subject s: f(a, b);
----
s r {x -> b}
====
op s 0+ comm;
rule r: s(x_, y_);
subject t: s(b, a);
----
t r {x -> a, y -> b}
t r {x -> b, y -> a}
====
op s 0+ comm;
rule r: s(x__, y___);
subject t: s(a, a);
----
t r {x -> {a}, y -> {a}}
t r {x -> {a, a}, y -> {}}
====
op h 2; op g 0+; op s 0+ comm;
rule r: h(s(x__), g(x__));
subject t: h(s(a, b), g(b, a));
----
t r {x -> (b, a)}
====
op plus 1+ assoc comm one infix +;
rule r: plus(x_, y_);
subject s: (a + b + c);
----
s r {x -> a, y -> (b + c)}
s r {x -> b, y -> (a + c)}
s r {x -> c, y -> (a + b)}
s r {x -> (a + b), y -> c}
s r {x -> (a + c), y -> b}
s r {x -> (b + c), y -> a}
====
op k 2 comm; op s 0+ comm;
rule r: s(k(x_, y_), z_);
subject t: s(k(a, d), k(b, c));
----
t r {x -> a, y -> d, z -> k(b, c)}
t r {x -> d, y -> a, z -> k(b, c)}
t r {x -> b, y -> c, z -> k(a, d)}
t r {x -> c, y -> b, z -> k(a, d)}
====
op p 1+ assoc;
rule r: p(x_, y_);
subject s: p(a, p(b, c));
----
s r {x -> a, y -> p(b, c)}
s r {x -> p(a, b), y -> c}
====
op p 1+ assoc;
rule r: p(x_);
subject s: p(a);
----
s r {x -> a}
====
op f 2; kind v: a b;
rule r: f(x_v, n_num);
subject s: f(b, 7); subject t: f(c, 7);
----
s r {x -> b, n -> 7}
====
op g 0+;
rule r: g(x__, y___);
subject s: g(a, b);
----
s r {x -> (a), y -> (b)}
s r {x -> (a, b), y -> ()}
====
op s 0+ comm;
rule r: s(__, _, x_);
subject t: s(a, b, c);
----
t r {x -> a}
t r {x -> b}
t r {x -> c}
====
op plus 1+ assoc comm one infix +;
rule r: plus(x_, y_:0);
subject s: a;
----
s r {x -> a, y -> 0}
====
op plus 1+ assoc comm one infix +;
rule r: plus(x_:0, y_:0);
subject s: 0;
----
s r {x -> 0, y -> 0}
====
op plus 1+ assoc comm one infix +;
rule r: plus(x_:0, y_, z___);
subject s: a;
----
====
op plus 1+ assoc comm one infix +;
rule r: plus(x_:0);
subject s: a; subject t: (a + b);
----
t r {x -> (a + b)}
====
op plus 1+ assoc comm one infix +; op times 1+ assoc comm one infix *; kind v: x y;
rule collect: plus(times(c_:1, x_v), times(d_:1, x_v), r___);
subject t: (x + (3 * x) + y);
----
t collect {x -> x, c -> 1, d -> 3, r -> {y}}
t collect {x -> x, c -> 3, d -> 1, r -> {y}}
====
op s 0+ comm;
rule r: s(x__, y___) if count($x) >= 2;
subject t: s(a, a);
----
t r {x -> {a, a}, y -> {}}
====
op g 0+;
rule r: g(x__, y__) if free($x, $y) and not size($x) > 1;
subject s: g(a, b, c);
----
s r {x -> (a), y -> (b, c)}
====
op h 2; op g 0+; op s 0+ comm;
rule r: h(s(x__), g(y__)) if same($x, $y);
subject t: h(s(a, b), g(b, a));
----
t r {x -> {a, b}, y -> (b, a)}
====
op h 2; op g 0+; op s 0+ comm;
rule r: h(s(x___), g(y___)) if not same($x, $y);
subject t: h(s(a, b), g(b)); subject u: h(s(), g()); subject v: h(s(b, a, b), g(b, b, a));
subject w: h(s(a, b, b), g(a, a, b));
----
t r {x -> {a, b}, y -> (b)}
w r {x -> {a, b, b}, y -> (a, a, b)}
====
op h 2; op g 0+;
rule r: h(g(x___), g(y___)) if same($x, $y);
subject t: h(g(a, b), g(b, a)); subject u: h(g(a, b), g(a, b));
----
u r {x -> (a, b), y -> (a, b)}
====
op s 0+ comm;
rule r: s(x___) if same($x, s(b, a));
subject t: s(s(a, b)); subject u: s(a, b);
----
t r {x -> {s(a, b)}}
====
op g 0+; kind v: a b;
rule r: g(x___, y___) if kind($x, v) and head($x, g) and free($x, $x) or count($x) == 2;
subject t: g(a, g(a), 7);
----
t r {x -> (), y -> (a, g(a), 7)}
t r {x -> (a, g(a)), y -> (7)}
====
op g 0+;
rule r: g(x___) if not head($x, g) or 1 != 1;
subject t: g(g(), g(a)); subject u: g(g(), a); subject v: g();
----
u r {x -> (g(), a)}
====
op g 0+;
rule r: g(x___) if kind($x, num) and size($x) <= count($x);
subject t: g(3, 07); subject u: g(3, a); subject v: g();
----
t r {x -> (3, 07)}
v r {x -> ()}
====
op g 0+;
rule r: g(x__) if free($x, g(a, g(b)));
subject t: g(a, g(b)); subject u: g(g(a, g(b))); subject v: g(g(g(a, g(b))));
subject w: g(g(a), c);
----
v r {x -> (g(g(a, g(b))))}
w r {x -> (g(a), c)}
====
op f 2; op g 1;
rule r: f(x_, y_) if less($x, $y) and not free(g(a), $y);
subject t: f(a, g(g(a))); subject u: f(g(g(a)), a); subject v: f(a, g(b));
----
t r {x -> a, y -> g(g(a))}
====
op f 2;
rule r: f(x_, y_) if less($x, $y) or same($x, $y) and less(b, $x);
subject s: f(c, c); subject t: f(a, a); subject u: f(a, b);
----
s r {x -> c, y -> c}
u r {x -> a, y -> b}
====
op f 2;
rule r: f(x_, x_) if not [not same($x, a) or size($x) > 1];
subject s: f(a, a); subject t: f(b, b);
----
s r {x -> a}
====
op plus 1+ assoc comm one infix +;
rule r: plus(x_, y_:0) if not same($y, 0) and less($x, $y);
subject s: a; subject t: (a + b + c);
----
t r {x -> a, y -> (b + c)}
t r {x -> b, y -> (a + c)}
t r {x -> c, y -> (a + b)}
====
op g 0+;
rule if: g(if__) if count($if) == 1;
subject if: g(if); subject or: g(if, if);
----
if if {if -> (if)}
====
op g 0+;
rule r: g(x_{2}, y___);
subject s: g(a, b, c);
----
s r {x -> (a, b), y -> (c)}
====
op s 0+ comm;
rule r: s(x_{2+}, y_{1});
subject t: s(a, a, b);
----
t r {y -> a, x -> {a, b}}
t r {y -> b, x -> {a, a}}
====
op f 3;
rule r: f(x_{2}, y_);
subject s: f(a, b, c);
----
s r {x -> (a, b), y -> c}
====
op g 0+;
rule r: g(x_{2+}, y___, z_{2});
subject s: g(a, b, c); subject t: g(a, b, c, d, e);
----
t r {x -> (a, b), y -> (c), z -> (d, e)}
t r {x -> (a, b, c), y -> (), z -> (d, e)}
====
op g 0+;
rule r: g(x_{2}, x_{2}); rule q: g(_{3}, x_);
subject s: g(a, b, a, b); subject t: g(a, b, b, a);
----
s r {x -> (a, b)}
s q {x -> b}
t q {x -> a}
====
op s 0+ comm;
rule r: s(x_{2}, x_{2}, y___); rule q: s(_{2}, x_);
subject t: s(a, a, b, b, c); subject u: s(a, b, c);
----
t r {x -> {a, b}, y -> {c}}
u q {x -> a}
u q {x -> b}
u q {x -> c}
====
op p 1+ assoc;
rule r: p(x_{2}, y_);
subject s: p(a, p(b, c), d); subject t: p(a, b);
----
s r {x -> (a, b), y -> p(c, d)}
====
op plus 1+ assoc comm one infix +;
rule r: plus(x_{2}, y_:0);
subject s: (a + b + c); subject t: (a + b); subject u: a;
----
s r {y -> a, x -> {b, c}}
s r {y -> b, x -> {a, c}}
s r {y -> c, x -> {a, b}}
t r {y -> 0, x -> {a, b}}
====
op plus 1+ assoc comm one infix +;
rule r: plus(x_{2+}); rule q: plus(x_{2}, y_{2});
subject s: (a + b + c + c); subject u: a;
----
s r {x -> {a, b, c, c}}
s q {x -> {a, b}, y -> {c, c}}
s q {x -> {a, c}, y -> {b, c}}
s q {x -> {b, c}, y -> {a, c}}
s q {x -> {c, c}, y -> {a, b}}
====
op h 2; op g 0+; op s 0+ comm;
rule r: h(s(x_{2}), g(x_{2}));
subject t: h(s(a, b), g(b, a)); subject u: h(s(a, b), g(b, b));
----
t r {x -> (b, a)}
====
op g 0+;
rule r: g(x_{2+}, y_{2+}) if count($x) < count($y) and same($x, $x);
subject s: g(a, b, c, d, e);
----
s r {x -> (a, b), y -> (c, d, e)}
====
op g 0+;
rule r: g(x_{1+}, y_{1}, z_{0+});
subject s: g(a, b);
----
s r {x -> (a), y -> b, z -> ()}
====
op f 2 comm; op u 1;
rule r: f(x_, u(y_)) -> f($y, u($x)) if less($y, $x);
subject s: f(u(a), u(b)); edit s: 0 -> u(c);
----
s r {y -> a, x -> u(b)}
s r {y -> b, x -> u(a)}
";

/// A rule on single terms, tuples and multisets, before its condition.
pub const BEFORE: &str = "\
op h 10; op l 0+; op s 0+ comm; op f 2; op g 1; kind v: a b; kind w: c;
rule r: h(x_, n_, t_, l(y__), l(p__), l(q__), l(e___), s(m__), s(z__), s(o___)) if ";

/// What stands behind the condition: the rule's subject.
pub const BEHIND: &str = ";
subject s: h(a, 7, f(g(a), b), l(a), l(b, a), l(f(a, b), g(b)), l(), s(a), s(a, b), s());
";

/// What is printed where the condition holds.
pub const HOLDS: &str = "\
s r {x -> a, n -> 7, t -> f(g(a), b), y -> (a), p -> (b, a), q -> (f(a, b), g(b)), e -> (), m -> {a}, z -> {a, b}, \
o -> {}}
";

/// Conditions of that rule and, behind `|`, the status: 0 where they hold, and 1 where they don't.
pub const CONDITIONS: &str = "\
same($x, a)|0
same($y, a)|0
same($m, a)|0
same($x, b)|1
same($p, a)|1
same($p, $z)|0
same($z, $p)|0
same($z, $m)|1
same($e, $o)|0
same($e, $y)|1
less($x, b)|0
less(b, $x)|1
less(a, $x)|1
less(b, $t)|0
free(a, $t)|1
free(b, $t)|1
free(g(a), $t)|1
free(g(b), $t)|0
free(f(g(a), b), $t)|1
free($t, g(a))|0
free($p, g(b))|1
free(a, $q)|1
free($y, g(b))|0
free($e, a)|0
free(a, $o)|0
kind($n, num)|0
kind($e, num)|0
kind($x, num)|1
kind($z, v)|0
kind(c, v)|1
kind(g(a), v)|1
kind($o, w)|0
kind(a, w)|1
head($t, f)|0
head($q, f)|1
head($x, f)|1
head(g(b), g)|0
head($e, g)|0
head($t, g)|1
count($x) == 1 and size($x) == 1|0
count($t) == 1 and size($t) == 4|0
count(g(g(a))) == 1 and size(g(g(a))) == 3|0
count($q) == 2 and size($q) == 5|0
count($z) == 2 and size($z) == 2|0
count($e) == 0 and size($e) == 0|0
1 < 2|0
2 < 2|1
3 < 2|1
1 <= 2|0
2 <= 2|0
3 <= 2|1
1 > 2|1
2 > 2|1
3 > 2|0
1 >= 2|1
2 >= 2|0
3 >= 2|0
1 == 2|1
2 == 2|0
3 == 2|1
1 != 2|0
2 != 2|1
3 != 2|0
0 == 1 and 0 == 1|1
0 == 1 or 0 == 1|1
0 == 1 and 1 == 1|1
0 == 1 or 1 == 1|0
1 == 1 and 0 == 1|1
1 == 1 or 0 == 1|0
1 == 1 and 1 == 1|0
1 == 1 or 1 == 1|0
not 0 == 1|0
not 1 == 1|1
not [0 == 1 or 1 == 1]|1
[0 == 1 or 1 == 1] and not [1 == 1 and 0 == 1]|0
1 == 1 or 1 == 1 and 0 == 1|0
[1 == 1 or 1 == 1] and 0 == 1|1";

/// Runs over one file `t`: the status and the words of each, the file's text, what is written, and what is said.
pub const RUNS: &str = "\
0 match t
0 match t --engine program
0 match t --engine net
0 match t --engine many
----
op f 2; rule r: f(x_, y_); subject s: f(a, b);
----
s r {x -> a, y -> b}
----
====
0 match t
----
op f 2; rule r: f(x_, x_); subject s: f(a, b); subject t: f(b, b);
----
t r {x -> b}
----
====
0 match t
0 match t --engine program
----
op g 1; op c 0; rule q: x_; rule r: g(g(x_)); rule p: g(y_); subject s: g(g(c()));
----
s q {x -> g(g(c()))}
s r {x -> c()}
s p {y -> g(c())}
----
====
1 match t
----
----
----
====
4 match none
----
op f 2; rule r: f(x_, y_); subject s: f(a, b);
----
----
matchpy: none: cannot open
====
2 match
2 show t u
----
op f 2; rule r: f(x_, y_); subject s: f(a, b);
----
----
usage: matchpy ACTION [FILE ..] [--engine E] [--limit N] [--resume TOKEN] [--max N] [--from PROGRAM]
====
0 show t
----
op plus 1+ assoc comm one infix +; subject s: plus(b, (c + a));
----
op plus 1+ assoc comm one infix +;
subject s: (a + b + c);
----
====
0 show t
0 rewrite t
----
----
----
====
3 show t
3 match t --resume s
----
op f 2; op f 3;
----
----
matchpy: t:1:12: DuplicateName
====
0 show t
----
op f 2; op s 0+ comm;
rule r: f(x_, y_) if [same($x, s(b, a)) or [less($x, $y)]] and not [007 >= count($x)];
----
op f 2;
op s 0+ comm;
rule r: f(x_, y_) if [same($x, s(a, b)) or less($x, $y)] and not 7 >= count($x);
----
====
0 show t
----
op g 0+; rule r: g(x_{1+}, y_{1}, z_{0+});
----
op g 0+;
rule r: g(x__, y_, z___);
----
====
0 show t
----
op g 0+; op s 0+ comm;
rule r: g(_{2}, x_{003+}, _{1000}, y_{2+}); rule q: s(x_{3}, y__, z_{3+}, _{2}, w_, v___, u_{2+}, t_:a);
----
op g 0+;
op s 0+ comm;
rule r: g(_{2}, x_{3+}, _{1000}, y_{2+});
rule q: s(w_, t_:a, u_{2+}, x_{3}, z_{3+}, _{2}, y__, v___);
----
====
0 show t
----
op f 2; op g 0+; op plus 1+ assoc comm one infix +;
rule a: f(y_, x_) -> f($x, plus(b, (a + $y)));
rule b: g(x__) -> plus($x) if count($x) > 1; rule c: plus(x_{2}) -> f($x);
subject s: f((b + a), g()); edit s: 0.1->[a, b], 1 -> [g(b , plus(c))];
subject t: a; edit t: . -> (c + a); edit s: 0 -> a, 1 -> b;
----
op f 2;
op g 0+;
op plus 1+ assoc comm one infix +;
rule a: f(y_, x_) -> f($x, (b + (a + $y)));
rule b: g(x__) -> plus($x) if count($x) > 1;
rule c: plus(x_{2}) -> f($x);
subject s: f((a + b), g());
subject t: a;
edit s: 0.1 -> [a, b], 1 -> g(b, c);
edit t: . -> (a + c);
edit s: 0 -> a, 1 -> b;
----
====
3 show t
----
op u 1; rule r: u(x_) -> u(u($x)); rule q: a -> b; rule p: b -> $ x;
----
----
matchpy: t:1:65: UnboundVariable
====
3 show t
----
op f 2; rule r: f(x_, y_) if not [same($x, y) or 1 < 2;
----
----
matchpy: t:1:55: Syntax
====
3 match t
----
op f 0; rule r: f() -> $x;
rule q: g(a); subject s: (b;
----
----
matchpy: t:2:28: Syntax
====
3 match t
----
op op 1;
  subject s: op(a) ; # a comment: é
 subject t: é;
----
----
matchpy: t:3:13: BadByte
";

/// Files and, behind `|`, the place and the kind of their first fault.
pub const FAULTS: &str = "\
op g 0+; rule r: g(x_{0});|1:23: BadCount\n\
subject s: é;|1:12: BadByte\n\
op f 2; op f 3;|1:12: DuplicateName\n\
op p 2 assoc;|1:4: BadFlags\n\
subject s: g(a);|1:12: UnknownOp\n\
op f 2; subject s: f;|1:20: BareOperation\n\
rule r: x_q;|1:9: UnknownKind\n\
op f 2; rule r: f(x_, x__);|1:23: KindClash\n\
rule r: x__;|1:9: LooseSequence\n\
subject s: x_;|1:12: WildcardInTerm\n\
op f 2; rule r: f(x_, y_) -> $z;|1:30: UnboundVariable\n\
op g 0+; rule r: g(x__) if less($x, a);|1:33: ConditionKind\n\
edit s: . -> a;|1:6: UnknownSubject\n\
subject s: a; edit s: 0 -> b;|1:23: BadPosition\n\
subject s: (a);|1:14: Syntax\n\
op u 1; subject s: \
u(u(u(u(u(u(u(u(u(u(u(u(u(u(u(u(u(u(u(u(u(u(u(u(u(u(u(u(u(u(u(u(u(u(u(u(u(u(u(u(u(u(u(u(u(u(u(u(u(u(\
u(u(u(u(u(u(u(u(u(u(u(u(u(u(u(u(u(u(u(u(u(u(u(u(u(u(u(u(u(u(u(u(u(u(u(u(u(u(u(u(u(u(u(u(u(u(u(u(u(u(u(|1:221: TooDeep\n\
op g 0+; subject s: g(g(a, b)); edit s: 0 -> a, 0.1 -> b;|1:49: Overlap\n\
op f 1; subject s: f(a); edit s: 0 -> [a, b];|1:34: Arity\n\
op f 1001;|1:6: TooMany\n\
op f 2; subject s: f(a);|1:20: Arity\n\
op p 3+ infix +; subject s: (a + b);|1:29: Arity\n\
op f 2; rule r: f(x_, y_) if less($x, $z);|1:39: UnboundVariable\n\
subject s: a; edit s: . -> x_;|1:28: WildcardInTerm";
