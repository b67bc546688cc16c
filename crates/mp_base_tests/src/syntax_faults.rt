//! The first faults of texts, by tokens and grammar.

use crate::syntax_texts::{Sort, error, expanded};
use crate::values::check;
use mp_syntax::{Fault, Place, SyntaxError, first_token_place};
use std::alloc::Global;
use std::process::Abort;

// In each table a line is a text and, behind `|`, its first fault: the kind, the line and the column. Nothing stands
// there where it has none. `&` stands for a line feed, and between two of "`" a number, `^` and a text stand for the
// text so often.

// Statements.
const STATEMENTS: &str = "\
|\n\
\x20\t\r&# a comment # and more, to the end|\n\
op f 2;|\n\
op op 00;rule rule:subject;subject subject:rule();|\n\
rule r: f(x_, g(x_, a), b());&subject s: f(f(a), 12);|\n\
# {&op f 2; # é&subject s: a;|\n\
subject s: é;|BadByte 1 12\n\
subject s: (a); subject t: é;|BadByte 1 28\n\
op f x; é|BadByte 1 9\n\
rule r: f(a b); # é&\\|BadByte 2 1\n\
op f 2|Syntax 1 7\n\
op f 2;&&op|Syntax 3 3\n\
op f x;|Syntax 1 6\n\
op f_ 2;|Syntax 1 4\n\
Op f 2;|Syntax 1 1\n\
rule r: ;|Syntax 1 9\n\
rule r f;|Syntax 1 8\n\
rule r: f(a,);|Syntax 1 13\n\
rule r: f(a b);|Syntax 1 13\n\
rule r: f(a;|Syntax 1 12\n\
rule r: x____;|Syntax 1 13\n\
rule r: x_ _;|Syntax 1 12\n\
rule r: x_K;subject s: 1_2;|\n\
rule r: f(x__, (x___ + x_K + y__));|\n\
rule r: x__K;|Syntax 1 12\n\
rule r: x_K_;|Syntax 1 12\n\
rule r: x_(a);|Syntax 1 11\n\
rule r: f(_, (_K * ___), __);|\n\
rule r: f(x_:a, _:(b * c), y_:g(z_:h(a)), _:x_:y_K);|\n\
subject s: x_:_:y_:z_:a;|\n\
rule r: f(x_K:a);|Syntax 1 14\n\
rule r: f(x__:a);|Syntax 1 14\n\
rule r: x_:y_K:a;|Syntax 1 15\n\
rule r: a:b;|Syntax 1 10\n\
rule r: f(a):b;|Syntax 1 13\n\
rule r: x_:;|Syntax 1 12\n\
rule r: x_::a;|Syntax 1 12\n\
rule r: x_:y_:|Syntax 1 15\n\
rule r: x_:(a);|Syntax 1 14\n\
rule r: f(x_)\r&\t[a];|Syntax 2 2\n\
op f 2+; op g 0 + assoc comm one infix *;|\n\
op assoc 1 comm; op infix 1 infix ++ infix -;|\n\
op op 1 comm; kind kind: kind;|\n\
op f 2 ++;|Syntax 1 8\n\
op f 2 assoc +;|Syntax 1 14\n\
op f 2 assoc 3;|Syntax 1 14\n\
op f 2 infix;|Syntax 1 13\n\
op f 2 infix ->;|Syntax 1 14\n\
kind k: a b 1;|\n\
kind k: ;|Syntax 1 9\n\
kind k: a, b;|Syntax 1 10\n\
kind k: a|Syntax 1 10\n\
subject s: (a + (b * c * f((d - e))) + g());|\n\
rule r: (x_ + (y_ - x_));|\n\
subject s: (a);|Syntax 1 14\n\
subject s: ();|Syntax 1 13\n\
subject s: (a +);|Syntax 1 16\n\
subject s: (a + b * c);|Syntax 1 19\n\
subject s: (a ++ b + c);|Syntax 1 20\n\
subject s: (a + b, c);|Syntax 1 18\n\
subject s: (a -> b);|Syntax 1 15\n\
subject s: (a + b|Syntax 1 18\n\
subject s: f(a + b);|Syntax 1 16\n\
subject s: a + b;|Syntax 1 14";

// Rules with conditions.
const RULES: &str = "\
rule if: if if count(if) == 1;|\n\
rule r: f(x_) if [not kind($x, v)];subject s: $x;|\n\
rule r: $x if 1 == 1;|\n\
subject s: f(a, $b);|\n\
rule r: x_ if;|Syntax 1 14\n\
rule r: x_ when 1 == 1;|Syntax 1 12\n\
rule r: x_ if 1 == 1|Syntax 1 21\n\
rule r: x_ if 1 == 1 if 1 == 1;|Syntax 1 22\n\
rule r: x_ if [1 == 1;|Syntax 1 22\n\
subject s: a if 1 == 1;|Syntax 1 14\n\
subject s: $;|Syntax 1 13\n\
rule r: $x(a);|Syntax 1 11";

// Templates and counted wildcards.
const TEMPLATES: &str = "\
rule r: f(x_) -> a;|\n\
rule r: x_ -> f($x, (a + $x)) if 1 == 1;|\n\
rule r: x_ -> $x if not [1 == 1] or same($x, a);|\n\
rule r: -> a;|Syntax 1 9\n\
rule r: x_ -> ;|Syntax 1 15\n\
rule r: x_ -> a -> b;|Syntax 1 17\n\
rule r: x_ if 1 == 1 -> a;|Syntax 1 22\n\
rule r: x_ -> if if 1 == 1;|\n\
rule r: x_ -> (a);|Syntax 1 17\n\
rule r: x_ -> a|Syntax 1 16\n\
rule r: x_ - > a;|Syntax 1 12\n\
subject s: a -> b;|Syntax 1 14\n\
rule r: x_ -> a b;|Syntax 1 17\n\
rule r: x_:a -> _;|\n\
rule r: f(x_{2}, _{0}, y_{10+}, (z_{3 + } * a));|\n\
rule r: x_:y_{2};|\n\
rule r: f(x_ { 2 } );|\n\
rule r: x_{2 3};|Syntax 1 14\n\
rule r: x_{+};|Syntax 1 12\n\
rule r: x_{};|Syntax 1 12\n\
rule r: x_{a};|Syntax 1 12\n\
rule r: x_{2++};|Syntax 1 13\n\
rule r: x_{2 + +};|Syntax 1 16\n\
rule r: x_{2;|Syntax 1 13\n\
rule r: x__{2};|Syntax 1 12\n\
rule r: x_K{2};|Syntax 1 12\n\
rule r: x{2};|Syntax 1 10\n\
rule r: x_{2}:a;|Syntax 1 14\n\
rule r: x_{2}{3};|Syntax 1 14\n\
rule r: f(a){2};|Syntax 1 13\n\
subject s: x_{001} ;|\n\
rule r: x_{2+|Syntax 1 14\n\
rule r: x_ -> y_{2+} if count($x) < 2;|";

// Edits.
const EDITS: &str = "\
edit s: . -> a;|\n\
edit s: 0 -> a;|\n\
edit edit: 0.1.22 -> f(a, b), . -> [], 0 . 1 -> [a], 7 -> [a, (b + c), f()];|\n\
edit s: 0 -> [a|Syntax 1 16\n\
edit s: 0 -> [a,];|Syntax 1 17\n\
edit s: 0 -> [,a];|Syntax 1 15\n\
edit s: 0 -> [a b];|Syntax 1 17\n\
edit s: 0 -> [[a]];|Syntax 1 15\n\
edit s: 0 -> f([a]);|Syntax 1 16\n\
edit s: 0 -> a];|Syntax 1 15\n\
edit s: 0 -> [a;|Syntax 1 16\n\
edit s: ;|Syntax 1 9\n\
edit s;|Syntax 1 7\n\
edit 1: 1 -> 1;|\n\
edit s_: . -> a;|Syntax 1 6\n\
edit s: a -> b;|Syntax 1 9\n\
edit s: 0. -> a;|Syntax 1 12\n\
edit s: .0 -> a;|Syntax 1 10\n\
edit s: .. -> a;|Syntax 1 10\n\
edit s: 0.a -> b;|Syntax 1 11\n\
edit s: 0..1 -> a;|Syntax 1 11\n\
edit s: 0 = a;|Syntax 1 11\n\
edit s: 0 a;|Syntax 1 11\n\
edit s: 0 -> ;|Syntax 1 14\n\
edit s: 0 -> a, ;|Syntax 1 17\n\
edit s: 0 -> a,, 1 -> b;|Syntax 1 16\n\
edit s: 0 -> a 1 -> b;|Syntax 1 16\n\
edit s: 0 -> a if 1 == 1;|Syntax 1 16\n\
edit s: 0 -> a -> b;|Syntax 1 16\n\
edit s: 0 -> x_, 1 -> $y, 2 -> [x_:a, _{3}];subject s: a;|\n\
edit|Syntax 1 5\n\
edit s: 0 -> [a, b|Syntax 1 19\n\
edit s: [0] -> a;|Syntax 1 9\n\
edit s: 0 -> [] [];|Syntax 1 17\n\
edit s: 01 -> 02;|";

// Statements within the limits and above them.
const LIMITS: &str = "\
op u 1; subject s: `100^u(`a`100^)`;|\n\
op u 1; subject s: `101^u(`a`101^)`;|TooDeep 1 221\n\
op u 1; subject s: `100^(`a`100^+b)`;|\n\
op u 1; subject s: `101^(`a`101^+b)`;|TooDeep 1 120\n\
edit s: 0 -> [`99^f(`a`99^)`];|\n\
edit s: 0 -> [`100^f(`a`100^)`];|TooDeep 1 214\n\
rule r: `100^f(`x_{2}`100^)` -> a;|\n\
op `64^f` 2;|\n\
op `65^f` 2;|TooMany 1 4\n\
rule r: ;`65^f`|TooMany 1 10\n\
`65^f` é|TooMany 1 1\n\
é `65^f`|BadByte 1 1\n\
subject s: `101^(`é|BadByte 1 113";

// Expressions alone.
const EXPRESSIONS: &str = "\
a|\n\
\x20f(x_, y_K, (a + z___))&# the end|\n\
x__|\n\
|Syntax 1 1\n\
# a&|Syntax 2 1\n\
a;|Syntax 1 2\n\
a b|Syntax 1 3\n\
f(a|Syntax 1 4\n\
f(a))|Syntax 1 5\n\
(a + b|Syntax 1 7\n\
x_:a|\n\
_|\n\
subject s: a;|Syntax 1 9\n\
a \\|BadByte 1 3\n\
a b é|BadByte 1 5\n\
f(a)) \\|BadByte 1 7";

// Conditions alone.
const CONDITIONS: &str = "\
1 == 2|\n\
count($x) >= 2 and not same($x, a) or kind($x,v)|\n\
not [ size(f($x, b)) < 10 or [less(a, $y)] ] and head($x, f)|\n\
count(a) <= count(b)|\n\
1 < 2 and 1 <= 2 and 2 > 1 and 2 >= 1 and 1 != 2|\n\
same(count, size) or free(not, $if)|\n\
same($ x, (a + $y))|\n\
|Syntax 1 1\n\
not|Syntax 1 4\n\
not é|BadByte 1 5\n\
1 == 1) \\|BadByte 1 9\n\
not not 1 == 1|Syntax 1 5\n\
[1 == 1|Syntax 1 8\n\
[]|Syntax 1 2\n\
1|Syntax 1 2\n\
1 = 2|Syntax 1 3\n\
1 -> 2|Syntax 1 3\n\
1 == x|Syntax 1 6\n\
1x == 1|Syntax 1 1\n\
1 == 2 == 3|Syntax 1 8\n\
1 == same(a, b)|Syntax 1 6\n\
1 == not 2|Syntax 1 6\n\
count == 1|Syntax 1 7\n\
count() == 1|Syntax 1 7\n\
count(a, b) == 1|Syntax 1 8\n\
same(a)|Syntax 1 7\n\
same(a, b, c)|Syntax 1 10\n\
same(a, b) == 1|Syntax 1 12\n\
kind(a, $b)|Syntax 1 9\n\
kind(a, b_)|Syntax 1 9\n\
head(a)|Syntax 1 7\n\
less $x, a)|Syntax 1 6\n\
same($, a)|Syntax 1 7\n\
same($x_, a)|Syntax 1 7\n\
kind(f(a, b), v|Syntax 1 16\n\
1 == 1 and|Syntax 1 11\n\
1 == 1 or or|Syntax 1 11\n\
1 == 1 not 2 == 2|Syntax 1 8\n\
1 == 1]|Syntax 1 7\n\
1 == 1;|Syntax 1 7\n\
(1 == 1)|Syntax 1 1\n\
if 1 == 1|Syntax 1 1";

// Conditions within the limit of brackets and above it.
const BRACKETS: &str = "\
`100^[`1 == 1`100^]`|\n\
`101^[`1 == 1`101^]`|TooDeep 1 101\n\
`100^[`same(a, b)`100^]`|TooDeep 1 105\n\
`100^[`1 == (a)`100^]`|Syntax 1 106\n\
`99^[`same(a, b)`99^]`|\n\
`99^[`same(a, f(b))`99^]`|TooDeep 1 109\n\
`98^[`1 < count((a + b))`98^]`|\n\
`98^[`1 < count(f((a + b)))`98^]`|TooDeep 1 111";

// Whether the fault is told so.
fn is_told(rt: &impl Abort, alloc: Global, fault: &Fault, wanted: &str) -> bool {
    let Fault { kind, place } = fault;
    let text = format!(in alloc; "{:?} {} {}", kind, place.line, place.column);
    text.expect(rt, "memory").as_str() == wanted
}

// Whether the text of the line has the fault of the line, or none.
fn is_first(rt: &impl Abort, alloc: Global, sort: Sort, line: &str) -> bool {
    let (text, wanted) = line.split_once('|').expect(rt, "a bar");
    match error(alloc, sort, &expanded(rt, alloc, text)) {
        None => wanted.is_empty(),
        Some(SyntaxError::Fault(fault)) => is_told(rt, alloc, &fault, wanted),
        Some(SyntaxError::Memory) => false,
    }
}

const TABLES: &[(Sort, &str)] = &[
    (Sort::Statements, STATEMENTS),
    (Sort::Statements, RULES),
    (Sort::Statements, TEMPLATES),
    (Sort::Statements, EDITS),
    (Sort::Statements, LIMITS),
    (Sort::Expression, EXPRESSIONS),
    (Sort::Condition, CONDITIONS),
    (Sort::Condition, BRACKETS),
];

// Sees that each text of the table has its fault.
fn are_first(rt: &impl Abort, alloc: Global, sort: Sort, table: &str) {
    for line in table.split('\n') {
        check(rt, is_first(rt, alloc, sort, line), line);
    }
}

#[test]
fn the_first_fault_of_a_text_stands_at_its_token(rt: HostRuntime) {
    for (sort, table) in TABLES {
        are_first(&rt, rt.alloc(), *sort, table);
    }
}

#[test]
fn a_text_begins_at_its_first_token(rt: HostRuntime) {
    assert!(rt; first_token_place(b"# a\n  not") == Place { line: 2, column: 3 });
    assert!(rt; first_token_place(b" ") == Place { line: 1, column: 2 });
}
