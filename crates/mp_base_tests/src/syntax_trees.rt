//! The syntax trees of texts.

use crate::syntax_texts::{Sort, expanded, told};
use crate::values::check;
use std::alloc::Global;
use std::process::Abort;

// A text, in which `&` is a line feed, and what is read of it: its tree with its words, as their bytes, and their
// places.
const TREES: &[(Sort, &str, &str)] = &[
    (
        Sort::Statements,
        "op f 2+ comm infix *;&kind k: b a;",
        "Ok([Op { name: Word { text: [102], place: Place { line: 1, column: 4 } }, least: Word { text: [50], \
place: Place { line: 1, column: 6 } }, open: true, flags: [Comm, Infix(InfixSign { text: [42], \
place: Place { line: 1, column: 20 } })] }, Kind { name: Word { text: [107], place: Place { line: 2, \
column: 6 } }, members: [Word { text: [98], place: Place { line: 2, column: 9 } }, Word { text: [97], \
place: Place { line: 2, column: 11 } }] }])",
    ),
    (
        Sort::Statements,
        "op f 2;&rule r:&  f(x_K, y___);",
        "Ok([Op { name: Word { text: [102], place: Place { line: 1, column: 4 } }, least: Word { text: [50], \
place: Place { line: 1, column: 6 } }, open: false, flags: [] }, Rule { name: Word { text: [114], \
place: Place { line: 2, column: 6 } }, pattern: Apply(Word { text: [102], place: Place { line: 3, column: 3 } }, \
[Wild(Wildcard { name: [120], marks: 1, kind: [75], place: Place { line: 3, column: 5 } }), \
Wild(Wildcard { name: [121], marks: 3, kind: [], place: Place { line: 3, column: 10 } })]), template: None, \
condition: None }])",
    ),
    (
        Sort::Statements,
        "rule r: f(x_) -> g($x) if 1 == 1;",
        "Ok([Rule { name: Word { text: [114], place: Place { line: 1, column: 6 } }, \
pattern: Apply(Word { text: [102], \
place: Place { line: 1, column: 9 } }, [Wild(Wildcard { name: [120], marks: 1, kind: [], place: Place { line: 1, \
column: 11 } })]), template: Some(Apply(Word { text: [103], place: Place { line: 1, column: 18 } }, \
[Variable(Word { text: [120], place: Place { line: 1, column: 20 } })])), \
condition: Some(Condition { alternatives: [Alternative { literals: [Atom { negated: false, \
atom: Compare(Number(Word { text: [49], place: Place { line: 1, column: 27 } }), Eq, Number(Word { text: [49], \
place: Place { line: 1, column: 32 } })) }] }] }) }])",
    ),
    (
        Sort::Statements,
        "edit s: 0.12 -> [b, c], . -> a;",
        "Ok([Edit { subject: Word { text: [115], place: Place { line: 1, column: 6 } }, \
changes: [Change { position: Path { first: Word { text: [48], place: Place { line: 1, column: 9 } }, \
others: [Word { text: [49, 50], place: Place { line: 1, column: 11 } }] }, \
terms: Listed([Symbol(Word { text: [98], place: Place { line: 1, column: 18 } }), Symbol(Word { text: [99], \
place: Place { line: 1, column: 21 } })]) }, Change { position: Root(Place { line: 1, column: 25 }), \
terms: Single(Symbol(Word { text: [97], place: Place { line: 1, column: 30 } })) }] }])",
    ),
    (
        Sort::Statements,
        "subject s: (a * b * c);",
        "Ok([Subject { name: Word { text: [115], place: Place { line: 1, column: 9 } }, \
term: Infix { open: Place { line: 1, \
column: 12 }, sign: InfixSign { text: [42], place: Place { line: 1, column: 15 } }, \
operands: [Symbol(Word { text: [97], place: Place { line: 1, column: 13 } }), Symbol(Word { text: [98], \
place: Place { line: 1, column: 17 } }), Symbol(Word { text: [99], place: Place { line: 1, column: 21 } })] } }])",
    ),
    (
        Sort::Expression,
        "\x20x_:_:y_:(a + b)",
        "Ok(Optional { wildcard: Wildcard { name: [120], marks: 1, kind: [], place: Place { line: 1, column: 2 } }, \
others: [Wildcard { name: [], marks: 1, kind: [], place: Place { line: 1, column: 5 } }, Wildcard { name: [121], \
marks: 1, kind: [], place: Place { line: 1, column: 7 } }], default: Infix { open: Place { line: 1, column: 10 }, \
sign: InfixSign { text: [43], place: Place { line: 1, column: 13 } }, operands: [Symbol(Word { text: [97], \
place: Place { line: 1, column: 11 } }), Symbol(Word { text: [98], place: Place { line: 1, column: 15 } })] } })",
    ),
    (
        Sort::Expression,
        "f(x_{2}, _{10+})",
        "Ok(Apply(Word { text: [102], place: Place { line: 1, column: 1 } }, \
[Counted { wildcard: Wildcard { name: [120], \
marks: 1, kind: [], place: Place { line: 1, column: 3 } }, count: Word { text: [50], place: Place { line: 1, \
column: 6 } }, open: false }, Counted { wildcard: Wildcard { name: [], marks: 1, kind: [], \
place: Place { line: 1, column: 10 } }, count: Word { text: [49, 48], place: Place { line: 1, column: 12 } }, \
open: true }]))",
    ),
    (
        Sort::Condition,
        "not kind($x, v) and 1 <= size($y) or [less($z, a)]",
        "Ok(Condition { alternatives: [Alternative { literals: [Atom { negated: true, atom: Test(Kind, \
Variable(Word { text: [120], place: Place { line: 1, column: 10 } }), Word { text: [118], place: Place { line: 1, \
column: 14 } }) }, Atom { negated: false, atom: Compare(Number(Word { text: [49], place: Place { line: 1, \
column: 21 } }), Le, Measured(Size, Variable(Word { text: [121], place: Place { line: 1, column: 31 } }))) }] }, \
Alternative { literals: [Bracketed { negated: false, \
condition: Condition { alternatives: [Alternative { literals: [Atom { negated: false, atom: Relate(Less, \
Variable(Word { text: [122], place: Place { line: 1, column: 44 } }), Symbol(Word { text: [97], \
place: Place { line: 1, column: 48 } })) }] }] } }] }] })",
    ),
];

// Whether the text of the row has the tree of the row.
fn is_tree(rt: &impl Abort, alloc: Global, row: &(Sort, &str, &str)) -> bool {
    told(rt, alloc, row.0, &expanded(rt, alloc, row.1)).as_str() == row.2
}

#[test]
fn trees_keep_words_and_places(rt: HostRuntime) {
    for row in TREES {
        check(&rt, is_tree(&rt, rt.alloc(), row), row.1);
    }
}

#[test]
fn chains_of_any_length_are_read(rt: HostRuntime) {
    let text = expanded(&rt, rt.alloc(), "subject s: `1000^x_:`a;");
    let tree = told(&rt, rt.alloc(), Sort::Statements, &text);
    assert!(rt; tree.as_str().split("Wildcard").count() == 1001);
}
