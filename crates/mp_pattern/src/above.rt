//! The operation above a node.
ghost use Rattle.std.specs.Prelude.{◌≡◌, option_map};
ghost use Rattle.mp_pattern.specs.Variables.{comm_above, assoc_above};

use mp_term::{OpId, Signature};

/// The operation above is commutative (`comm_above` of `specs/Variables.antt`); at the root there is none. It takes no
/// memory.
pub fn is_comm_above(sig: &Signature, under: Option<OpId>) -> bool
    ensures { result ≡ comm_above sig.now (option_map (λ f. f.0) under) }
{
    match under {
        None => false,
        Some(op) => sig.is_comm(op),
    }
}

/// The operation above is associative (`assoc_above` of `specs/Variables.antt`); at the root there is none. It takes no
/// memory.
pub fn is_assoc_above(sig: &Signature, under: Option<OpId>) -> bool
    ensures { result ≡ assoc_above sig.now (option_map (λ f. f.0) under) }
{
    match under {
        None => false,
        Some(op) => sig.is_assoc(op),
    }
}
