//! The net tokens of a pattern on a case worked out by hand.

use crate::values::{name, no_operations, operation};
use mp_pattern::{
    NetToken, NetTokens, Pattern, Patterns, Shape, renamed, tokens_of, variable_names,
    variable_number, wild_token,
};
use mp_term::{Name, OpId, Signature};
use std::alloc::Global;
use std::process::Abort;

// The signature of h, s and g, of which s is commutative.
fn signature(rt: &impl Abort, alloc: Global) -> Box<Signature> {
    let mut sig = no_operations(rt, alloc);
    for (text, comm) in OPERATIONS {
        sig.add_op(operation(rt, alloc, *text, *comm))
            .expect(rt, "an operation");
    }
    sig
}

const OPERATIONS: &[(&[u8], bool)] = &[(b"h", false), (b"s", true), (b"g", false)];

// The operation applied to x__.
fn of_plus(rt: &impl Abort, alloc: Global, op: u32) -> Pattern {
    let mut args = Patterns::new(alloc);
    args.push(Pattern::Wild(Shape::Plus, Some(name(rt, alloc, b"x"))))
        .expect(rt, "memory");
    Pattern::App(OpId(op), args)
}

// The pattern h(s(x__), g(x__)).
fn pattern(rt: &impl Abort, alloc: Global) -> Box<Pattern> {
    let mut args = Patterns::new(alloc);
    args.push(of_plus(rt, alloc, 1)).expect(rt, "memory");
    args.push(of_plus(rt, alloc, 2)).expect(rt, "memory");
    Box::new(alloc, Pattern::App(OpId(0), args)).expect(rt, "memory")
}

// Its tokens.
fn tokens(rt: &impl Abort, alloc: Global) -> NetTokens {
    tokens_of(alloc, &signature(rt, alloc), &pattern(rt, alloc)).expect(rt, "memory")
}

// Whether the wildcard is v0__.
fn is_numbered(pattern: Option<&Pattern>) -> bool {
    match pattern {
        Some(Pattern::Wild(Shape::Plus, Some(name))) => name.bytes() == b"v0".as_slice(),
        _ => false,
    }
}

// Whether the token is s(v0__).
fn is_part(token: Option<&NetToken>) -> bool {
    match token {
        Some(NetToken::Comm(Pattern::App(OpId(1), args))) => {
            args.len() == 1 && is_numbered(args.get(0))
        }
        _ => false,
    }
}

// Whether s(x__) is one token, and x has the number 0.
fn are_read(tokens: &NetTokens) -> bool {
    matches!(tokens.get(0), Some(NetToken::Enter(OpId(0))))
        && is_part(tokens.get(1))
        && matches!(tokens.get(3), Some(NetToken::Plus(Some(0))))
        && tokens.as_slice().len() == 6
        && tokens.len() == 6
}

#[test]
fn a_commutative_part_is_one_token(rt: HostRuntime) {
    assert!(rt; are_read(&tokens(&rt, rt.alloc())));
}

// The number of the variable of that name in the pattern, where there is one.
fn number(rt: &impl Abort, alloc: Global, variable: Option<Name>) -> Option<u32> {
    let names = variable_names(alloc, &pattern(rt, alloc)).expect(rt, "memory");
    variable_number(&names, &variable).expect(rt, "a number")
}

// Whether s(x__) becomes s(v0__).
fn is_renamed(rt: &impl Abort, alloc: Global) -> bool {
    let names = variable_names(alloc, &pattern(rt, alloc)).expect(rt, "memory");
    match renamed(alloc, &names, &of_plus(rt, alloc, 1)).expect(rt, "memory") {
        Pattern::App(OpId(1), args) => args.len() == 1 && is_numbered(args.get(0)),
        _ => false,
    }
}

#[test]
fn variables_are_numbered_by_first_occurrence(rt: HostRuntime) {
    let alloc = rt.alloc();
    assert!(rt; number(&rt, alloc, Some(name(&rt, alloc, b"x"))) == Some(0));
    assert!(rt; number(&rt, alloc, Some(name(&rt, alloc, b"y"))) == Some(1));
    assert!(rt; number(&rt, alloc, None).is_none());
    assert!(rt; is_renamed(&rt, alloc));
    assert!(rt;
        matches!(
            wild_token(alloc, &Shape::Plus, Some(1)),
            Ok(NetToken::Plus(Some(1)))
        )
    );
}
