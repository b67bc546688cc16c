//! Syntactic patterns.
ghost use Rattle.std.specs.Prelude.{◌≡◌};
ghost use Rattle.mp_pattern.specs.View.{pattern_tree};
ghost use Rattle.mp_pattern.specs.Syntactic.{is_plain, is_syntactic};

use crate::pattern::Pattern;
use mp_term::{OpId, Signature};

// The operation has a fixed count of arguments, and is neither associative nor commutative.
fn is_plain(sig: &Signature, op: OpId) -> bool
    ensures { result ≡ is_plain sig.now op.0 }
{
    match sig.op(op) {
        None => false,
        Some(decl) => decl.fixed && !decl.assoc && !decl.comm,
    }
}

/// The pattern is syntactic (`is_syntactic` of `specs/Syntactic.antt`): it holds no plus, star, counted or optional
/// wildcard, and each of its operations is held, has a fixed count of arguments, and is neither associative nor
/// commutative. It takes no memory.
pub fn is_syntactic(sig: &Signature, pattern: &Pattern) -> bool
    ensures { result ≡ is_syntactic sig.now (pattern_tree pattern.now) }
{
    match pattern {
        Pattern::Sym(_) => true,
        Pattern::App(op, args) => {
            if !is_plain(sig, *op) {
                return false;
            }
            for arg in &args.items {
                if !is_syntactic(sig, arg) {
                    return false;
                }
            }
            true
        }
        Pattern::Wild(shape, _) => !shape.is_loose(),
    }
}
