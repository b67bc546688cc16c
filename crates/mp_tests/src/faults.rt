//! The first faults of rule files.

use crate::case::{Sort, Table, check_table};
use crate::reading::{file, plan};

// Statements, names, operations and their arguments.
const STATEMENTS: &str = "\
|\n\
op f 2; rule r: f(x_, a); subject s: f(a, 0);|\n\
subject s: é;|BadByte 1 12\n\
subject s: (a);|Syntax 1 14\n\
op f 2; op f 3; rule r: ;|Syntax 1 25\n\
op f 2; op f 3;|DuplicateName 1 12\n\
rule r: a; subject r: a;|\n\
subject s: a; rule s: b; subject s: a;|DuplicateName 1 34\n\
subject s: g(a); op f 2; op f 2;|DuplicateName 1 29\n\
op f 1001;|TooMany 1 6\n\
op f 0001000;|\n\
op f 1; op f 1001;|DuplicateName 1 12\n\
subject s: g(a);|UnknownOp 1 12\n\
op f 2; subject s: f;|BareOperation 1 20\n\
subject s: f(a); op f 1;|\n\
op f 2; subject s: f(a, b, c);|Arity 1 20\n\
op f 0; subject s: f();|\n\
op f 2; rule r: f(x_);|Arity 1 17\n\
op f 2; rule r: f(x_, x_);|\n\
op f 2; subject s: f(a, x_);|WildcardInTerm 1 25\n\
op f 2; subject s: f(g(a));|Arity 1 20\n\
op f 2; subject s: f(g(a), f);|UnknownOp 1 22\n\
rule r: a; rule r: g(a);|DuplicateName 1 17\n\
op op 1; subject s: op(rule);|";

// Flags, kinds and signs.
const DECLARATIONS: &str = "\
op p 2 assoc;|BadFlags 1 4\n\
op p 2+ assoc comm; op q 1+ one;|\n\
op p 2+ comm assoc comm;|BadFlags 1 4\n\
op p 2 infix +++++;|BadFlags 1 4\n\
op p 1001+ one;|BadFlags 1 4\n\
op p 2 infix +; op q 2 infix +;|DuplicateName 1 30\n\
kind num: a;|DuplicateName 1 6\n\
kind v: a f; op f 2;|BareOperation 1 11\n\
op f 1; kind f: a a b; rule f: f(f_);|\n\
subject s: (g(a) + b);|UnknownOp 1 13\n\
op p 2 infix +; subject s: (a + p + c);|Arity 1 28\n\
op p 3+ infix +; rule r: (x_ + y_);|Arity 1 26\n\
op p 2 comm; subject s: p(b, a); rule r: p(x_, a);|\n\
op p 1+ comm one; rule r: p(x_);|\n\
op p 1+ assoc; rule r: p(x_, a);|";

// Wildcards.
const WILDCARDS: &str = "\
rule r: x_q;|UnknownKind 1 9\n\
op f 2; rule r: f(x_, x__);|KindClash 1 23\n\
rule r: x__;|LooseSequence 1 9\n\
rule r: x___;|LooseSequence 1 9\n\
rule r: x_num;|\n\
op f 2; kind v: a; rule r: f(x_v, x_num);|KindClash 1 35\n\
op f 2; rule r: f(x_num, x_num);|\n\
op f 3; rule r: f(x_, y__, x_num);|KindClash 1 28\n\
op f 2; rule r: f(x_q, x_r);|UnknownKind 1 19\n\
op g 0+; rule r: g(g(x__), x___);|KindClash 1 28\n\
op f 1; rule r: f(x___, y___, z_);|\n\
op f 1; rule r: f(x__, y_);|Arity 1 17\n\
op f 3; rule r: f(x_, y___);|\n\
op f 2+ assoc; rule r: f(x_);|\n\
op f 2+ assoc; kind v: a; rule r: f(x_v);|Arity 1 35\n\
op f 0+; rule r: f(g(x_, x__));|UnknownOp 1 20\n\
op p 2 infix +; rule r: (x_ + x__);|KindClash 1 31\n\
rule r: (x_ + (x__ + a));|UnknownOp 1 13\n\
op p 1+ comm; rule r: p(x_, x__);|KindClash 1 29\n\
op p 1+ comm; rule r: p(x_, y__);|\n\
op p 1+ comm one; rule r: p(x__);|\n\
op f 2; subject s: f(x_q, a);|UnknownKind 1 22\n\
rule r: x_num; subject s: x__;|WildcardInTerm 1 27\n\
rule r: _;|\n\
rule r: _K;|UnknownKind 1 9";

// Wildcards with a default.
const DEFAULTS: &str = "\
rule r: x_:f;|LooseSequence 1 9\n\
op f 2; rule r: f(x_:a, x_:a);|\n\
op f 2; rule r: f(x_:a, x_);|KindClash 1 25\n\
op f 2; rule r: f(x_:a, x_:b);|KindClash 1 25\n\
op f 2; rule r: f(x_:a, x_:g(b));|KindClash 1 25\n\
op f 2; rule r: f(x_:g(b), x_:g(b));|UnknownOp 1 22\n\
op f 2; op p 2+ assoc comm; rule r: f(x_:p(a, b), x_:p(b, a));|\n\
op f 2; op p 2+ assoc; rule r: f(x_:p(a, b), x_:p(p(a), b));|Arity 1 51\n\
op f 2; op p 2+ assoc; rule r: f(x_:p(a, b), x_:p(p(b), a));|KindClash 1 46\n\
op f 2; rule r: f(x_:y_:z_:a, b);|WildcardInTerm 1 22\n\
op f 2; rule r: f(x_:a, x_:y_:a);|KindClash 1 25\n\
op f 2; rule r: f(x_:f(y__, c), b);|WildcardInTerm 1 24\n\
op f 2; rule r: f(x_:y_q, b);|UnknownKind 1 22\n\
op f 2; rule r: f(y_, x_:y__);|WildcardInTerm 1 26\n\
op f 2; rule r: f(x_:f, b);|BareOperation 1 22\n\
op f 2; rule r: f(x_:(a + b), b);|UnknownOp 1 25\n\
op f 2; rule r: f(x_:a, y_:b, z_:c);|\n\
op f 2; rule r: f(x_:a);|Arity 1 17\n\
op f 1; rule r: f(x_:a, y_:b, z_);|\n\
op f 1; rule r: f(x_:a, y_, z_);|Arity 1 17\n\
op p 3+ comm; rule r: p(x_:a, y_);|Arity 1 23\n\
op p 2+ assoc; rule r: p(x_:a);|\n\
op f 2; rule r: f(x_:f(a), x_);|Arity 1 22\n\
op f 2 infix +; rule r: (x_:(a + b) + x_:f(a, b));|\n\
op f 2; subject s: f(x_:a, b);|WildcardInTerm 1 22\n\
op f 2; subject s: f(a, x_:y_q);|WildcardInTerm 1 25";

// Tokens and the grammar.
const GRAMMAR: &str = "\
subject s: (a); subject t: é;|BadByte 1 28\n\
rule r: f(a|Syntax 1 12\n\
op f 2; subject s: (a + b * c);|Syntax 1 27\n\
op f 2; subject s: f(a,|Syntax 1 24\n\
rule r|Syntax 1 7\n\
rule r: a -> ;|Syntax 1 14\n\
rule r: a -> b if ;|Syntax 1 19";

// Templates.
const TEMPLATES: &str = "\
op f 2; rule r: f(x_, y_) -> $z;|UnboundVariable 1 30\n\
op f 2; rule r: f(x_, y_) -> f($y, $x);|\n\
op f 2; rule r: f(x_, y_) -> f($y);|Arity 1 30\n\
op f 2; rule r: f(x_, y_) -> g($z, $y);|UnknownOp 1 30\n\
op f 2; rule r: f(x_, y_) -> f(f, $z);|BareOperation 1 32\n\
op f 2; rule r: f(x_, y_) -> f(z_, $y);|WildcardInTerm 1 32\n\
op f 2; rule r: f(x_, y_) -> f(z_q, $y);|UnknownKind 1 32\n\
op f 2; rule r: f(x_, y_) -> f(z_:$x, $y);|WildcardInTerm 1 32\n\
op f 2; rule r: f(x_, y_) -> f(z_{2}, $y);|WildcardInTerm 1 32\n\
op f 2; rule r: f(x_, y_) -> z_;|WildcardInTerm 1 30\n\
op f 2; rule r: f(x_, y_) -> f;|BareOperation 1 30\n\
op f 2; rule r: f(x_, y_) -> (f + $z);|BareOperation 1 31\n\
op f 2; rule r: f(x_, y_) -> ($x + f);|UnknownOp 1 34\n\
op p 2 infix +; rule r: p(x_, y_) -> ($x + $y + a);|Arity 1 38\n\
op p 2 infix +; rule r: p(x_, y_) -> ($y + $x);|\n\
op g 0+; rule r: g(x__) -> $x;|LooseSequence 1 28\n\
op g 0+; rule r: g(x___) -> $x;|LooseSequence 1 29\n\
op g 0+; rule r: g(x_:a) -> $x;|\n\
op g 0+; rule r: g(x_{2}) -> $x;|LooseSequence 1 30\n\
op g 0+; rule r: g(x_{1}) -> $x;|\n\
op g 0+; rule r: g(x_{1+}) -> $x;|LooseSequence 1 31\n\
op g 0+; op f 2; rule r: g(x__) -> f(a, $x);|Arity 1 36\n\
op g 0+; op f 2; rule r: g(x___) -> f(a, $x);|Arity 1 37\n\
op g 0+; op f 2; rule r: g(x_{2}) -> f($x);|\n\
op g 0+; op f 3; rule r: g(x_{2}) -> f(a, $x);|\n\
op g 0+; op f 2; rule r: g(x_{2+}) -> f($x);|Arity 1 39\n\
op g 0+; op f 3+; rule r: g(x_{2+}) -> f($x);|Arity 1 40\n\
op g 0+; op f 2+; rule r: g(x_{2+}) -> f($x);|\n\
op g 0+; op f 1+; rule r: g(x___, y__) -> f($x);|Arity 1 43\n\
op g 0+; op f 1+; rule r: g(x___, y__) -> f($y);|\n\
op g 0+; op f 3+; rule r: g(x_:a, y__) -> f($x, $y, $y);|\n\
op g 0+; op f 2; rule r: g(x__) -> f(a, $y);|UnboundVariable 1 41\n\
op g 0+; op f 2; rule r: g(x__) -> f($y, $x);|Arity 1 36\n\
op g 0+; rule r: g(x_) -> g($y) if less($x, $z);|UnboundVariable 1 29\n\
op g 0+; rule r: g(x_) -> g($x) if less($x, $z);|UnboundVariable 1 45\n\
op g 0+; rule r: g(x_, x__) -> g($y);|KindClash 1 24\n\
rule r: a -> b;|\n\
rule r: a -> a if 0 == 1;|\n\
op f 2; rule r: f(x_, f($x, a)) -> b;|WildcardInTerm 1 25";

// Edit statements.
const EDITS: &str = "\
subject s: a; edit s: . -> b;|\n\
edit s: . -> a; subject s: a;|UnknownSubject 1 6\n\
subject s: a; edit t: . -> b;|UnknownSubject 1 20\n\
rule s: a; edit s: . -> b;|UnknownSubject 1 17\n\
subject s: a; edit s: 0 -> b;|BadPosition 1 23\n\
op f 2; subject s: f(a, b); edit s: 0 -> c, 1 -> d;|\n\
op f 2; subject s: f(a, b); edit s: 2 -> c;|BadPosition 1 37\n\
op f 2; subject s: f(a, b); edit s: 1.0 -> c;|BadPosition 1 37\n\
op f 2; subject s: f(a, b); edit s: 0 -> c, 0 -> d;|Overlap 1 45\n\
op f 2; subject s: f(a, f(b, c)); edit s: 1.0 -> c, 1 -> d;|Overlap 1 53\n\
op f 2; subject s: f(a, f(b, c)); edit s: 1.0 -> c, 1.1 -> d;|\n\
op f 2; subject s: f(a, b); edit s: . -> c, 0 -> d;|Overlap 1 45\n\
op f 2; subject s: f(a, b); edit s: 0 -> c, . -> d, 7 -> e;|BadPosition 1 53\n\
op f 2; subject s: f(a, b); edit s: 0 -> [];|Arity 1 37\n\
op f 2; subject s: f(a, b); edit s: 0 -> [c, d];|Arity 1 37\n\
op f 2; subject s: f(a, b); edit s: 0 -> [], 1 -> [c, d];|\n\
op f 2; subject s: f(a, b); edit s: 0 -> [c];|\n\
op g 1+; subject s: g(a); edit s: 0 -> [b, c, d];|\n\
op g 1+; subject s: g(a); edit s: 0 -> [];|Arity 1 35\n\
subject s: a; edit s: . -> [];|Arity 1 23\n\
subject s: a; edit s: . -> [b, c];|Arity 1 23\n\
subject s: a; edit s: . -> [b];|\n\
subject s: a; edit s: 00 -> b;|BadPosition 1 23\n\
op f 1; subject s: f(a); edit s: 00 -> b;|\n\
op f 1; subject s: f(a); edit s: 1000001 -> b;|BadPosition 1 34\n\
op f 1; subject s: f(a); edit s: 0.99999999999999999999 -> b;|BadPosition 1 34\n\
op f 1; subject s: f(a); edit s: 0 -> f(b, c);|Arity 1 39\n\
op f 1; subject s: f(a); edit s: 0 -> x_;|WildcardInTerm 1 39\n\
op f 1; subject s: f(a); edit s: 0 -> $x;|WildcardInTerm 1 39\n\
op f 1; subject s: f(a); edit s: 0 -> x_q;|UnknownKind 1 39\n\
op f 1; subject s: f(a); edit s: 0 -> g(b);|UnknownOp 1 39\n\
op f 1; subject s: f(a); edit s: 0 -> f;|BareOperation 1 39\n\
op f 1; subject s: f(a); edit s: 5 -> [b, f], 6 -> c;|BareOperation 1 43\n\
op f 1; subject s: f(a); edit t: 5 -> [b, f], 6 -> c;|UnknownSubject 1 31\n\
op f 1; subject s: f(a); edit s: 0 -> x_{0};|WildcardInTerm 1 39\n\
op p 1+ assoc comm infix +; subject s: ((c + b) + a); edit s: 2 -> d, 0 -> (e + f);|\n\
op p 1+ assoc comm infix +; subject s: ((c + b) + a); edit s: 0.0 -> d;|BadPosition 1 63\n\
op p 1+ assoc comm one infix +; subject s: (b + p(a)); edit s: 0 -> [], 1 -> [];|Arity 1 64\n\
op p 1+ assoc comm one infix +; subject s: (b + p(a)); edit s: 0 -> [];|\n\
subject s: a; edit s: . -> b; edit s: . -> c; subject t: b; edit s: . -> d;|\n\
op f 2; subject s: f(a, b); edit s: 3 -> c, 0 -> d, 0 -> e;|BadPosition 1 37\n\
op f 2; op g 0+; subject s: f(g(a), b); edit s: 0.0 -> [], 1 -> [c, d], 1 -> e;|Overlap 1 73\n\
op f 2; op g 0+; subject s: f(g(a), b); edit s: 1 -> [c, d], 0.0 -> [];|Arity 1 49\n\
subject s: a; edit s: -> b;|Syntax 1 23\n\
subject s: a; edit s: 0. -> b;|Syntax 1 26\n\
subject s: a; edit s: .0 -> b;|Syntax 1 24\n\
subject s: a; edit s: a -> b;|Syntax 1 23\n\
subject s: a; edit s: . -> b, ;|Syntax 1 31\n\
subject s: a; edit s: . -> [b, ];|Syntax 1 32\n\
subject s: a; edit s: . -> [b;|Syntax 1 30\n\
subject s: a; edit s: . b;|Syntax 1 25\n\
subject s: a; edit s:;|Syntax 1 22\n\
subject s: a; edit s . -> b;|Syntax 1 22\n\
subject s: a; edit s: 0 .1->b;|BadPosition 1 23";

// Wildcards with a count.
const COUNTS: &str = "\
op g 0+; rule r: g(x_{0});|BadCount 1 23\n\
op g 0+; rule r: g(x_{1+}, y_{1}, z_{0+});|\n\
op g 0+; rule r: g(x_{1001});|TooMany 1 23\n\
op g 0+; rule r: g(x_{0001000+});|\n\
op g 0+; rule r: g(x_{99999999999999999999});|TooMany 1 23\n\
op g 0+; rule r: g(x_{0}, y_{1001});|BadCount 1 23\n\
rule r: x_{2};|LooseSequence 1 9\n\
rule r: x_{1};|\n\
rule r: x_{1+};|LooseSequence 1 9\n\
rule r: x_{0};|LooseSequence 1 9\n\
rule r: _{0};|LooseSequence 1 9\n\
op g 0+; rule r: g(x_{1}, x_);|\n\
op g 0+; rule r: g(x_{1+}, x__);|\n\
op g 0+; rule r: g(x_{0+}, x___);|\n\
op g 0+; rule r: g(x_{2}, x_{2});|\n\
op g 0+; rule r: g(x_{2}, x_{02});|\n\
op g 0+; rule r: g(x_{2}, x_{3});|KindClash 1 27\n\
op g 0+; rule r: g(x_{2}, x_{2+});|KindClash 1 27\n\
op g 0+; rule r: g(x_{2}, x__);|KindClash 1 27\n\
op g 0+; rule r: g(x__, x_{2+});|KindClash 1 25\n\
op g 0+; rule r: g(x_{2}, x_);|KindClash 1 27\n\
op g 0+; rule r: g(x_{1}, x_:a);|KindClash 1 27\n\
op g 0+; rule r: g(x_{1}, x_num);|KindClash 1 27\n\
op g 0+; rule r: g(_{2}, _{3});|\n\
op f 3; rule r: f(x_{2}, y_);|\n\
op f 3; rule r: f(x_{2}, y_{2});|Arity 1 17\n\
op f 3; rule r: f(x_{2+}, y_);|\n\
op f 3; rule r: f(x_{2});|Arity 1 17\n\
op f 3; rule r: f(x_{2+});|\n\
op f 3+; rule r: f(x_{2});|Arity 1 18\n\
op f 3+; rule r: f(x_{3});|\n\
op f 3+; rule r: f(x_{2}, y_);|\n\
op f 3+ assoc; rule r: f(x_{2});|BadFlags 1 4\n\
op f 2+ assoc; rule r: f(x_{1});|\n\
op f 2+ assoc; rule r: f(x_{2});|\n\
op f 1; rule r: f(x_{0});|Arity 1 17\n\
op f 1; rule r: f(x_{1001});|Arity 1 17\n\
op f 1000+; rule r: f(x_{1001});|TooMany 1 26\n\
op g 0+; subject s: g(x_{2});|WildcardInTerm 1 23\n\
op g 0+; subject s: g(x_{0});|WildcardInTerm 1 23\n\
op g 0+; rule r: g(x_:y_{2});|WildcardInTerm 1 23\n\
op g 0+; rule r: g(x_:y_:z_{0});|WildcardInTerm 1 23\n\
op g 0+; rule r: g(x_{2}) if less($x, a);|ConditionKind 1 35\n\
op g 0+; rule r: g(x_{1}) if less($x, a);|\n\
op g 0+; rule r: g(x_{2+}) if count($x) == 2;|\n\
op g 0+; rule r: g(x_{a});|Syntax 1 23\n\
op g 0+; rule r: g(x__{2});|Syntax 1 23\n\
op g 0+; rule r: g(x_num{2});|Syntax 1 25\n\
op g 0+; rule r: g(x_{2});|\n\
op g 0+; rule r: g(x_{2}:a);|Syntax 1 25\n\
op g 0+; rule r: g(x_{2 +});|\n\
op g 0+; rule r: g(x_{});|Syntax 1 23\n\
op g 0+; rule r: g(x_{+2});|Syntax 1 23";

// Conditions, behind the operations and kinds of `DECLARED`, which are a line.
const CONDITIONS: &str = "\
rule r: s(x__, y___) if count($x) >= 2;|\n\
rule r: g(x__) if less($x, a);|ConditionKind 2 24\n\
rule r: g(x_, y__) if less($x, $z);|UnboundVariable 2 32\n\
rule r: g(x_, y__) if same($y, $x) and free($q, a);|UnboundVariable 2 45\n\
rule r: g(x_v) if less($x, b) or less(a, $x);|\n\
rule r: g(x_, y__) if not [less($x, $y)];|ConditionKind 2 37\n\
rule r: a if size($x) == 1;|UnboundVariable 2 19\n\
rule r: g(x_) if same(g($x), a);|WildcardInTerm 2 25\n\
rule r: g(x_) if same($x, (b + x_));|WildcardInTerm 2 32\n\
rule r: g(x_) if same($x, f(a));|Arity 2 27\n\
rule r: g(x_) if count(h(a)) < 1;|UnknownOp 2 24\n\
rule r: g(x_) if free(f, $x);|BareOperation 2 23\n\
rule r: g($x) if 0 == 1;|WildcardInTerm 2 11\n\
subject t: $x;|WildcardInTerm 2 12\n\
rule r: g(x_) if kind($x, q);|UnknownKind 2 27\n\
rule r: g(x_) if kind($y, q);|UnboundVariable 2 23\n\
rule r: g(x_) if head($x, v);|UnknownOp 2 27\n\
rule r: g(x_) if head($x, p) and kind($x, num);|\n\
rule r: g(x_) if 1000000 <= size($x);|\n\
rule r: g(x_) if size($x) != 1000001;|TooMany 2 30\n\
rule r: g(x_) if 0001000000 > 99999999999999999999;|TooMany 2 31\n\
rule r: g(x_, x__) if same($y, a);|KindClash 2 15\n\
rule r: g(x_) if kind($x, q) and same($y, a);|UnknownKind 2 27\n\
rule if: if if count(if) == 1;|\n\
rule r: a if [a == 1];|Syntax 2 15";

// The operations and kinds of the rules with conditions.
const DECLARED: &str =
    "op f 2; op g 0+; op s 0+ comm; op p 1+ assoc comm one infix +; kind v: a b;\n";

// Behind the line of `RULE`: a place is a line and a byte of it.
const SECOND_LINE: &str = "\
subject s: a; rule r: b;|DuplicateName 2 20";

const RULE: &str = "rule r: a;\n";

// Templates of 128 nodes, which are as many as there may be, and defaults of 64.
const LIMITS: &str = "\
rule r: a -> p(%%a,a,a);|\n\
rule r: a -> p(%%a,a,a,a);|TooMany 1 15\n\
rule r: p(x_:p(%a));|\n\
rule r: p(x_:p(%a,a));|TooMany 1 15\n\
rule r: p(x_:p(y_:p(%a,a)));|TooMany 1 15\n\
subject s: x_:p(%a,a);|TooMany 1 18";

// The operation of the statements at the limits.
const ANY_NUMBER: &str = "op p 0+; ";

const TABLES: &[Table] = &[
    Table {
        sort: Sort::File,
        before: "",
        lines: STATEMENTS,
    },
    Table {
        sort: Sort::File,
        before: "",
        lines: DECLARATIONS,
    },
    Table {
        sort: Sort::File,
        before: "",
        lines: WILDCARDS,
    },
    Table {
        sort: Sort::File,
        before: "",
        lines: DEFAULTS,
    },
    Table {
        sort: Sort::File,
        before: "",
        lines: GRAMMAR,
    },
    Table {
        sort: Sort::File,
        before: "",
        lines: TEMPLATES,
    },
    Table {
        sort: Sort::File,
        before: "",
        lines: EDITS,
    },
    Table {
        sort: Sort::File,
        before: "",
        lines: COUNTS,
    },
    Table {
        sort: Sort::File,
        before: DECLARED,
        lines: CONDITIONS,
    },
    Table {
        sort: Sort::File,
        before: RULE,
        lines: SECOND_LINE,
    },
    Table {
        sort: Sort::File,
        before: ANY_NUMBER,
        lines: LIMITS,
    },
];

#[test]
fn the_first_fault_of_a_file_stands_at_its_token(rt: HostRuntime) {
    let file = file(&rt, rt.alloc(), "");
    let plan = plan(&rt, rt.alloc(), &file.sig, "x_");
    for table in TABLES {
        check_table(&rt, rt.alloc(), &file.sig, &plan, table);
    }
}
