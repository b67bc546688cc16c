//! Plans, read node by node and variable by variable, and the refusals.

use crate::patterns::DECLARED;
use crate::reading::{file, parts, plan};
use mp_pattern::{Form, Pattern, Patterns, Plan, PlanNode, Shape};
use mp_term::{KindId, Name, OpId, Signature};
use std::alloc::Global;
use std::process::Abort;

// The class of a wildcard.
fn class(shape: &Shape) -> u8 {
    match shape {
        Shape::Dot => 3,
        Shape::Kind(_) => 4,
        Shape::Plus => 5,
        Shape::Star => 6,
        Shape::Opt(_) => 7,
        Shape::Counted { .. } => 8,
    }
}

// The first byte of a name.
fn first_byte(name: &Name) -> u32 {
    match name.bytes() {
        [] => 0,
        [first, ..] => u32::from(*first),
    }
}

// A node as its class and a number: the first letter of a symbol, the number of an operation, or that of a variable, 9
// for none.
fn described(node: Option<PlanNode<'_>>) -> (u8, u32) {
    match node {
        None => (0, 0),
        Some(PlanNode::Sym(name)) => (1, first_byte(name)),
        Some(PlanNode::App(op)) => (2, op.0),
        Some(PlanNode::Wild(shape, variable)) => (class(shape), variable.unwrap_or(9)),
    }
}

// The number of the variable at a node that is so described.
fn variable_of(node: (u8, u32)) -> Option<u32> {
    let (class, number) = node;
    if class < 3 || number == 9 {
        None
    } else {
        Some(number)
    }
}

const MIXED: &str = "f(sum(v_{2}, x__, w___), g(a, x__, v_{2}, _), z_num)";

// What stands at a node, the number of the node after it, and the number of its parent.
type Row = ((u8, u32), Option<u32>, Option<u32>);

// The nodes of `MIXED`, and behind the last one.
const NODES: [Row; 12] = [
    ((2, 1), Some(11), None),
    ((2, 0), Some(5), Some(0)),
    ((8, 0), Some(3), Some(1)),
    ((5, 1), Some(4), Some(1)),
    ((6, 2), Some(5), Some(1)),
    ((2, 2), Some(10), Some(0)),
    ((1, 97), Some(7), Some(5)),
    ((5, 1), Some(8), Some(5)),
    ((8, 0), Some(9), Some(5)),
    ((3, 9), Some(10), Some(5)),
    ((4, 3), Some(11), Some(0)),
    ((0, 0), None, None),
];

#[test]
fn nodes_have_the_numbers_of_the_preorder(rt: HostRuntime) {
    let file = file(&rt, rt.alloc(), DECLARED);
    let plan = plan(&rt, rt.alloc(), &file.sig, MIXED);
    assert!(rt; plan.len() == 11);
    for (number, row) in (0..12).zip(&NODES) {
        assert!(rt; described(plan.node(number)) == row.0, "{number}");
        assert!(rt;
            plan.end(number) == row.1 && plan.parent(number) == row.2,
            "{number}"
        );
        assert!(rt; plan.variable_at(number) == variable_of(row.0), "{number}");
    }
}

// The variables of `MIXED`.
const VARIABLES: [(&[u8], Form); 4] = [
    (b"v", Form::Seq),
    (b"x", Form::Seq),
    (b"w", Form::Bag),
    (b"z", Form::One),
];

fn is_variable(plan: &Plan, number: u32, name: &[u8], form: Form) -> bool {
    matches!(plan.var_name(number), Some(own) if own.bytes() == name)
        && plan.var_form(number) == Some(form)
        && plan.find_var(name) == Some(number)
}

#[test]
fn variables_have_their_forms(rt: HostRuntime) {
    let file = file(&rt, rt.alloc(), DECLARED);
    let plan = plan(&rt, rt.alloc(), &file.sig, MIXED);
    for (number, row) in (0..4).zip(&VARIABLES) {
        assert!(rt; is_variable(&plan, number, row.0, row.1), "{number}");
    }
    assert!(rt; plan.vars() == 4 && plan.var_name(4).is_none() && plan.find_var(b"a").is_none());
}

// The shape of the mark: `.` for one, `+` for one or more, `*` for none or more, `k` and the number of a kind, or how
// many, with a `+` where it may be more.
fn shape(rt: &impl Abort, mark: &str) -> Shape {
    match mark {
        "." => Shape::Dot,
        "+" => Shape::Plus,
        "*" => Shape::Star,
        "k0" => Shape::Kind(KindId(0)),
        "k1" => Shape::Kind(KindId(1)),
        "2" => TWO,
        "2+" => TWO_OR_MORE,
        "3" => THREE,
        _ => panic!(rt; "no shape: {mark}"),
    }
}

const TWO: Shape = Shape::Counted {
    least: 2,
    fixed: true,
};

const TWO_OR_MORE: Shape = Shape::Counted {
    least: 2,
    fixed: false,
};

const THREE: Shape = Shape::Counted {
    least: 3,
    fixed: true,
};

// A wildcard of a name, `:` and a mark.
fn wildcard(rt: &impl Abort, alloc: Global, word: &str) -> Pattern {
    let (name, mark) = parts(rt, word, ":");
    let name = Name::new(alloc, name.as_bytes()).expect(rt, "memory");
    Pattern::Wild(shape(rt, mark), Some(name))
}

// sum of wildcards with a blank between each two
fn sum(rt: &impl Abort, alloc: Global, words: &str) -> Pattern {
    let mut args = Patterns::new(alloc);
    for word in words.split(' ') {
        args.push(wildcard(rt, alloc, word)).expect(rt, "memory");
    }
    Pattern::App(OpId(0), args)
}

// A dot, and its name where it has one, which is that of the number.
fn dot(rt: &impl Abort, alloc: Global, number: u8, has_name: bool) -> Pattern {
    if !has_name {
        return Pattern::Wild(Shape::Dot, None);
    }
    let name = Name::new(alloc, &[b'a' + number % 16, b'a' + number / 16]).expect(rt, "memory");
    Pattern::Wild(Shape::Dot, Some(name))
}

// sum of that many dots, with different names or without.
fn dots(rt: &impl Abort, alloc: Global, count: u8, has_names: bool) -> Pattern {
    let mut args = Patterns::new(alloc);
    for number in 0..count {
        args.push(dot(rt, alloc, number, has_names))
            .expect(rt, "memory");
    }
    Pattern::App(OpId(0), args)
}

// Stops unless this is why the pattern has no plan; nothing where it has one.
fn check_fault(rt: &impl Abort, alloc: Global, sig: &Signature, pattern: Pattern, wanted: &str) {
    let pattern = Box::new(alloc, pattern).expect(rt, "memory");
    match Plan::compile(alloc, sig, &pattern) {
        Ok(_) => assert!(rt; wanted.is_empty(), "no fault"),
        Err(fault) => {
            let told = format!(in alloc; "{fault:?}").expect(rt, "memory");
            assert!(rt; told.as_str() == wanted, "{wanted}");
        }
    }
}

// A wildcard alone, or several under sum, and behind `|`, why there is no plan; nothing where there is one.
const REFUSALS: &str = "\
x:+|LooseSequence\n\
x:k0 y:. x:k0|\n\
x:k0 y:. x:k1|KindClash { node: 3 }\n\
x:k0 y:. x:*|KindClash { node: 3 }\n\
x:2|LooseSequence\n\
x:2 y:. x:2|\n\
x:2 y:. x:2+|KindClash { node: 3 }\n\
x:2 y:. x:3|KindClash { node: 3 }\n\
x:2+ y:. x:+|KindClash { node: 3 }";

// The pattern of a line.
fn refused(rt: &impl Abort, alloc: Global, text: &str) -> Pattern {
    if text.contains(' ') {
        sum(rt, alloc, text)
    } else {
        wildcard(rt, alloc, text)
    }
}

// How many dots, whether they have names, and why there is no plan.
const DOTS: &[(u8, bool, &str)] = &[
    (128, true, "TooManyNodes { count: 129 }"),
    (127, false, ""),
    (33, true, "TooManyVars { count: 33 }"),
    (32, true, ""),
];

#[test]
fn refusals_come_in_order(rt: HostRuntime) {
    let file = file(&rt, rt.alloc(), DECLARED);
    for line in REFUSALS.split('\n') {
        let (text, wanted) = parts(&rt, line, "|");
        check_fault(
            &rt,
            rt.alloc(),
            &file.sig,
            refused(&rt, rt.alloc(), text),
            wanted,
        );
    }
    for row in DOTS {
        check_fault(
            &rt,
            rt.alloc(),
            &file.sig,
            dots(&rt, rt.alloc(), row.0, row.1),
            row.2,
        );
    }
}
