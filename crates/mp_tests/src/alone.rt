//! Terms, patterns and conditions that stand alone: their first faults.

use crate::case::{Sort, Table, check_table};
use crate::reading::{file, plan};

/// The operations and kinds of the tests.
pub const DECLARED: &str =
    "op f 2; op g 0+; op s 0+ comm; op p 1+ assoc comm one infix +; kind v: a b;";

const TERMS: &str = "\
f(b, a)|\n\
(b + p(a))|\n\
a;|Syntax 1 2\n\
|Syntax 1 1\n\
f(é)|BadByte 1 3\n\
f(a|Syntax 1 4\n\
f((a + b), $x)|WildcardInTerm 1 12\n\
x_|WildcardInTerm 1 1\n\
f(a)|Arity 1 1\n\
q(f)|UnknownOp 1 1\n\
(f + a)|BareOperation 1 2\n\
(a * b)|UnknownOp 1 4";

// A pattern has at most 128 nodes.
const PATTERNS: &str = "\
x_|\n\
f(x_v, x_v)|\n\
f(x_v, x_num)|KindClash 1 8\n\
x__|LooseSequence 1 1\n\
x_q|UnknownKind 1 1\n\
f(x___)|\n\
g(y__, (x_ + x_))|\n\
g(x_|Syntax 1 5\n\
g(x_{2}, y_)|\n\
g(x_{0})|BadCount 1 6\n\
x_{2}|LooseSequence 1 1\n\
f(x_{2}, x_)|Arity 1 1\n\
g(x_{2},, a)|Syntax 1 9\n\
f(x_, g)|BareOperation 1 7\n\
g(%%a,a,a)|\n\
q(%%a,a,a,a)|TooMany 1 1";

// Conditions over the variables of the pattern `s(x__, y___)`.
const CONDITIONS: &str = "\
count($x) >= 2|\n\
less(a, $x)|ConditionKind 1 9\n\
same($z, a)|UnboundVariable 1 6\n\
same($x, (b + a)) or not kind($y, v)|\n\
count($x) >= 2;|Syntax 1 15\n\
|Syntax 1 1\n\
less(a, $x|Syntax 1 11\n\
count($x) > ü|BadByte 1 13\n\
same($x, f(a))|Arity 1 10\n\
[1 < size($x)] or not 1 < 2000000|TooMany 1 27";

// Conditions whose variables aren't checked.
const LOOSE_CONDITIONS: &str = "\
less($x, $z)|\n\
kind(a, q) and less($x, x_)|UnknownKind 1 9\n\
head($x, s) or free(y_, $x)|WildcardInTerm 1 21\n\
not [less($x, f)]|BareOperation 1 15";

const TABLES: &[Table] = &[
    Table {
        sort: Sort::Term,
        before: "",
        lines: TERMS,
    },
    Table {
        sort: Sort::Pattern,
        before: "",
        lines: PATTERNS,
    },
    Table {
        sort: Sort::Condition,
        before: "",
        lines: CONDITIONS,
    },
    Table {
        sort: Sort::LooseCondition,
        before: "",
        lines: LOOSE_CONDITIONS,
    },
];

#[test]
fn the_first_fault_of_a_text_stands_at_its_token(rt: HostRuntime) {
    let file = file(&rt, rt.alloc(), DECLARED);
    let plan = plan(&rt, rt.alloc(), &file.sig, "s(x__, y___)");
    for table in TABLES {
        check_table(&rt, rt.alloc(), &file.sig, &plan, table);
    }
}
