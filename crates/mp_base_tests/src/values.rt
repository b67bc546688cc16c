//! Names, terms and values that short texts stand for, and what is made of them. Where memory runs out, or a text
//! stands for no value, the test fails at once. What is kept in a box is quick to prove where it is dropped.

ghost use Rattle.std.specs.Prelude.{◌≡◌};

use mp_pattern::{Pattern, Patterns, Plan, Shape};
use mp_subst::{Value, compare_value};
use mp_table::Table;
use mp_term::{
    MAX_TERM_NODES, Name, Names, OpDecl, OpId, Signature, Term, Terms, is_normal, node_count,
};
use std::alloc::Global;
use std::process::Abort;

/// Stops with the text unless that holds.
pub(crate) fn check(rt: &impl Abort, holds: bool, text: &str) {
    assert!(rt; holds, "{text}");
}

/// The name of that spelling.
pub(crate) fn name(rt: &impl Abort, alloc: Global, text: &[u8]) -> Name
    ensures { result ≡ text.now }
{
    Name::new(alloc, text).expect(rt, "a name")
}

/// The names of the letters.
pub(crate) fn names(rt: &impl Abort, alloc: Global, letters: &[u8]) -> Names {
    let mut names = Names::new(alloc);
    for letter in letters {
        names.push(name(rt, alloc, &[*letter])).expect(rt, "memory");
    }
    names
}

// An operation, and the terms before it on its level.
type Open = (OpId, Terms);

// The terms of the level after another byte.
fn read(rt: &impl Abort, alloc: Global, open: &mut Vec<Open>, mut terms: Terms, byte: u8) -> Terms {
    match byte {
        b'A'..=b'Z' => {
            open.push((OpId(u32::from(byte - b'A')), terms))
                .expect(rt, "memory");
            Terms::new(alloc)
        }
        b'(' => terms,
        b')' => {
            let (op, mut before) = open.pop().expect(rt, "an operation");
            before.push(Term::App(op, terms)).expect(rt, "memory");
            before
        }
        _ => {
            terms
                .push(Term::Sym(name(rt, alloc, &[byte])))
                .expect(rt, "memory");
            terms
        }
    }
}

/// The terms of a text. A small letter or a digit is a symbol; a capital letter is the operation whose number is its
/// place in the alphabet, from 0, and its arguments follow in brackets: `bA(ca)` is the symbol b and a term of three
/// nodes.
pub(crate) fn terms(rt: &impl Abort, alloc: Global, text: &[u8]) -> Terms {
    let mut open = Vec::new(alloc);
    let mut terms = Terms::new(alloc);
    for byte in text {
        terms = read(rt, alloc, &mut open, terms, *byte);
    }
    terms
}

/// The term of such a text.
pub(crate) fn term(rt: &impl Abort, alloc: Global, text: &[u8]) -> Term {
    let mut terms = terms(rt, alloc, text);
    assert!(rt; terms.len() == 1, "a term");
    terms.remove(0)
}

/// The value of a text: a term, a tuple of terms as `(ba)`, or a multiset of terms as `{ab}`.
pub(crate) fn value(rt: &impl Abort, alloc: Global, text: &[u8]) -> Value {
    match text {
        [b'(', inner @ .., _] => Value::Seq(terms(rt, alloc, inner)),
        [b'{', inner @ .., _] => Value::Bag(terms(rt, alloc, inner)),
        _ => Value::One(term(rt, alloc, text)),
    }
}

/// Whether the value is the one of the text.
pub(crate) fn is_value(rt: &impl Abort, alloc: Global, found: &Value, text: &[u8]) -> bool {
    let wanted = Box::new(alloc, value(rt, alloc, text)).expect(rt, "memory");
    compare_value(found, &wanted).is_eq()
}

/// A signature without operations.
pub(crate) fn no_operations(rt: &impl Abort, alloc: Global) -> Box<Signature> {
    Box::new(alloc, Signature::new(alloc).expect(rt, "memory")).expect(rt, "memory")
}

/// An operation of any number of arguments, which is commutative or has no law.
pub(crate) fn operation(rt: &impl Abort, alloc: Global, text: &[u8], comm: bool) -> OpDecl
    ensures { result.least ≡ 0 }
{
    OpDecl {
        name: name(rt, alloc, text),
        least: 0,
        fixed: false,
        assoc: false,
        comm,
        one: false,
        sign: None,
    }
}

/// Adds the variables of the letters, each at a dot or at a star.
pub(crate) fn push_wildcards(
    rt: &impl Abort,
    alloc: Global,
    patterns: &mut Patterns,
    letters: &[u8],
    star: bool,
) {
    for letter in letters {
        let shape = if star { Shape::Star } else { Shape::Dot };
        patterns
            .push(Pattern::Wild(shape, Some(name(rt, alloc, &[*letter]))))
            .expect(rt, "memory");
    }
}

/// The plan of a pattern.
pub(crate) fn plan_of(
    rt: &impl Abort,
    alloc: Global,
    sig: &Signature,
    pattern: Pattern,
) -> Box<Plan> {
    let pattern = Box::new(alloc, pattern).expect(rt, "memory");
    let plan = Plan::compile(alloc, sig, &pattern).expect(rt, "a plan");
    Box::new(alloc, plan).expect(rt, "memory")
}

/// The table of the term of a text.
pub(crate) fn table_of(rt: &impl Abort, alloc: Global, sig: &Signature, text: &[u8]) -> Box<Table> {
    let subject = Box::new(alloc, term(rt, alloc, text)).expect(rt, "memory");
    assert!(rt; is_normal(sig, &subject) && node_count(&subject) <= MAX_TERM_NODES);
    let table = Table::build(alloc, sig, &subject, &Terms::new(alloc)).expect(rt, "memory");
    Box::new(alloc, table).expect(rt, "memory")
}
