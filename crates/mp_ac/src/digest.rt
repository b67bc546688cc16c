//! Numbers of patterns, by which different ones are mostly told apart at once.
use mp_pattern::{Pattern, Shape};

// A number with another mixed in.
fn mixed(seed: u64, number: u64) -> u64 {
    seed.wrapping_mul(31).wrapping_add(number)
}

// A number with all bytes mixed in.
fn mixed_all(seed: u64, bytes: &[u8]) -> u64 {
    let mut digest = seed;
    for byte in bytes {
        digest = mixed(digest, u64::from(*byte));
    }
    digest
}

// A number with what the wildcard takes mixed in.
fn shape_digest(seed: u64, shape: &Shape) -> u64 {
    match shape {
        Shape::Kind(kind) => mixed(mixed(seed, 3), u64::from(kind.0)),
        _ => mixed(seed, 4),
    }
}

// A number with a pattern mixed in: its symbols, its operations, its wildcards and their names.
pub(crate) fn digest(seed: u64, pattern: &Pattern) -> u64 {
    match pattern {
        Pattern::Sym(name) => mixed_all(mixed(seed, 1), name.bytes()),
        Pattern::Wild(shape, None) => shape_digest(seed, shape),
        Pattern::Wild(shape, Some(name)) => mixed_all(shape_digest(seed, shape), name.bytes()),
        Pattern::App(op, children) => {
            let mut own = mixed(mixed(seed, 2), u64::from(op.0));
            for child in children.as_slice() {
                own = digest(own, child);
            }
            own
        }
    }
}
