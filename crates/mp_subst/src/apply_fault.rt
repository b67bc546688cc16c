//! Why a template isn't applied.
ghost use Rattle.std.specs.Prelude.{◌≡◌};

use mp_term::{Excess, Memory};
use thiserror::Error;

/// Why a template isn't applied to a substitution.
#[derive(Debug, Drop, Error)]
pub enum ApplyFault {
    /// The instance has more than `MAX_TERM_NODES` nodes before it is normalised: so many, or the greatest `u64` where
    /// there are more.
    #[error("too many nodes: {nodes}")]
    TooLarge { nodes: u64 },
    /// The instance is deeper than `MAX_DEPTH` before it is normalised: so deep, or the greatest `u64` where it is
    /// deeper.
    #[error("too deep: {depth}")]
    TooDeep { depth: u64 },
    /// There was no memory.
    #[error("want of memory")]
    Memory,
}

impl From<Memory> for ApplyFault {
    ghost use Rattle.mp_subst.specs.declared.apply_fault.ApplyFault.TheVariants as fault;

    ghost from_gives = { λ _ e. e ≡ fault.Memory };

    fn from(_memory: Memory) -> ApplyFault {
        ApplyFault::Memory
    }
}

impl From<Excess> for ApplyFault {
    ghost use Rattle.mp_subst.specs.Applied.{fault_of};

    ghost from_gives = { λ x e. e ≡ fault_of x };

    fn from(excess: Excess) -> ApplyFault {
        match excess {
            Excess::TooLarge { nodes } => ApplyFault::TooLarge { nodes },
            Excess::TooDeep { depth } => ApplyFault::TooDeep { depth },
        }
    }
}
