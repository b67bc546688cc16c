//! Names, signs, signatures, edits and lists of terms, with memory at hand.

ghost use Rattle.std.specs.Prelude.{◌≡◌};

use crate::values::{check, name, names, no_operations, operation, term, terms};
use mp_term::{
    Edit, Edits, KindId, Name, OpDecl, Position, Sign, Signature, Term, Terms, copy_term,
    node_count, normalise, same_bytes, well_formed,
};
use std::alloc::Global;
use std::process::Abort;

// An operation of one argument or more, associative, commutative and one-identity, with the sign +.
fn plus(rt: &impl Abort, alloc: Global) -> OpDecl
    ensures { result.least ≡ 1 }
{
    OpDecl {
        name: name(rt, alloc, b"plus"),
        least: 1,
        fixed: false,
        assoc: true,
        comm: true,
        one: true,
        sign: Some(Sign::new(alloc, b"+").expect(rt, "a sign")),
    }
}

fn plus_alone(rt: &impl Abort, alloc: Global) -> Box<Signature> {
    let mut sig = no_operations(rt, alloc);
    sig.add_op(plus(rt, alloc)).expect(rt, "an operation");
    sig
}

// A kind of one letter.
fn letters(rt: &impl Abort, alloc: Global) -> Box<Signature> {
    let mut sig = no_operations(rt, alloc);
    sig.add_kind(name(rt, alloc, b"letter"), names(rt, alloc, b"a"))
        .expect(rt, "a kind");
    sig
}

// Spellings, and whether they are names and signs.
const SPELLINGS: &[(&str, bool, bool)] = &[
    ("", false, false),
    ("Zz09", true, false),
    ("a_b", false, false),
    ("14bytesInPlace", true, false),
    ("15bytesInABoxxx", true, false),
    (
        "aaaaaaaaaaaaaaaaaaaaaaaaaaaaaaaaaaaaaaaaaaaaaaaaaaaaaaaaaaaaaaaa",
        true,
        false,
    ),
    (
        "aaaaaaaaaaaaaaaaaaaaaaaaaaaaaaaaaaaaaaaaaaaaaaaaaaaaaaaaaaaaaaaaa",
        false,
        false,
    ),
    ("@?!%", false, true),
    ("<<<<<", false, false),
    ("->", false, false),
    ("->>", false, true),
];

// Whether the text is a name, and that of its copy too.
fn is_copied(rt: &impl Abort, alloc: Global, text: &[u8]) -> bool {
    match Name::new(alloc, text) {
        Ok(name) => name.copy(alloc).expect(rt, "memory").bytes() == text,
        Err(_) => false,
    }
}

// Whether the text is a name where the row says so, and a sign where it says so.
fn is_spelt(rt: &impl Abort, alloc: Global, row: &(&str, bool, bool)) -> bool {
    let text = row.0.as_bytes();
    is_copied(rt, alloc, text) == row.1 && Sign::new(alloc, text).is_ok() == row.2
}

#[test]
fn names_and_signs_are_spelt(rt: HostRuntime) {
    for row in SPELLINGS {
        check(&rt, is_spelt(&rt, rt.alloc(), row), row.0);
    }
}

// Whether the kind 1 is named letter and has the symbol a.
fn has_letters(sig: &Signature) -> bool {
    sig.find_kind(b"letter").is_some()
        && sig.kind_members(KindId(1)).is_some()
        && sig.kind_has(KindId(1), b"a")
}

#[test]
fn kinds_hold_their_members(rt: HostRuntime) {
    assert!(rt; has_letters(&letters(&rt, rt.alloc())));
}

// Adds an operation of that name, which is found then, and wasn't before.
fn add_found(rt: &impl Abort, alloc: Global, sig: &mut Signature, name: &[u8], number: u32) {
    assert!(rt; sig.find_op(name).is_none());
    sig.add_op(operation(rt, alloc, name, false))
        .expect(rt, "an operation");
    assert!(rt; matches!(sig.find_op(name), Some(op) if op.0 == number));
}

// More names than are looked at one by one.
const MANY_NAMES: &[&[u8]] = &[
    b"a", b"b", b"c", b"d", b"e", b"f", b"g", b"h", b"i", b"j", b"ab",
];

#[test]
fn operations_are_found_among_few_and_many(rt: HostRuntime) {
    let mut sig = no_operations(&rt, rt.alloc());
    for (number, name) in MANY_NAMES.iter().enumerate() {
        add_found(&rt, rt.alloc(), &mut sig, name, number as u32);
        assert!(rt; matches!(sig.find_op(b"a"), Some(op) if op.0 == 0));
    }
}

#[test]
fn bytes_are_the_same_or_not(rt: HostRuntime) {
    assert!(rt; same_bytes(b"ab", b"ab") && !same_bytes(b"ab", b"bb") && !same_bytes(b"ab", b"b"));
}

// The nodes of the normal form of a copy.
fn normal_nodes(rt: &impl Abort, alloc: Global, sig: &Signature, term: &Term) -> u64 {
    let copy = copy_term(alloc, term).expect(rt, "memory");
    assert!(rt; well_formed(sig, &copy));
    node_count(&normalise(alloc, sig, copy).expect(rt, "memory"))
}

#[test]
fn sums_are_flattened(rt: HostRuntime) {
    let alloc = rt.alloc();
    let sig = plus_alone(&rt, alloc);
    assert!(rt; normal_nodes(&rt, alloc, &sig, &term(&rt, alloc, b"A(bA(ca))")) == 4);
}

// An edit of the second argument that gives no term.
fn edit(rt: &impl Abort, alloc: Global) -> Edit {
    Edit {
        position: Position::new(alloc, &[1]).expect(rt, "memory"),
        terms: Terms::new(alloc),
    }
}

#[test]
fn edits_are_listed(rt: HostRuntime) {
    let mut edits = Edits::new(rt.alloc());
    edits.push(edit(&rt, rt.alloc())).expect(&rt, "memory");
    assert!(rt; edits.len() == 1 && edits.get(0).is_some());
}

// Whether there is a term, the symbol.
fn is_symbol(term: Option<&Term>, text: &[u8]) -> bool {
    matches!(term, Some(Term::Sym(name)) if name.bytes() == text)
}

#[test]
fn a_term_is_replaced_at_its_index(rt: HostRuntime) {
    let mut terms = terms(&rt, rt.alloc(), b"abc");
    assert!(rt; terms.len() == 3, "terms");
    let before = terms.replace(1, term(&rt, rt.alloc(), b"d"));
    assert!(rt; is_symbol(Some(&before), b"b"));
    assert!(rt; is_symbol(terms.get(1), b"d"));
}
