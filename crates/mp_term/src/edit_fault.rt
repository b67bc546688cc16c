//! Why edits of a term can't be made.
ghost use Rattle.std.specs.Prelude.{◌≡◌};

use crate::memory::Memory;
use crate::size::Excess;
use thiserror::Error;

/// Why edits of a term can't be made. Edits are told by their indexes from 0.
#[derive(Debug, Drop, Error)]
pub enum EditFault {
    /// The position of this edit names no subterm.
    #[error("the position of edit {index} names no subterm")]
    BadPosition { index: u32 },
    /// The position of one of these two edits is a prefix of the other's, or they are equal.
    #[error("the edits {first} and {second} overlap")]
    Overlap { first: u32, second: u32 },
    /// By the edits the application above this edit has a number of arguments that its operation doesn't allow, or the
    /// edit is at the root and hasn't exactly one term.
    #[error("edit {index} breaks a number of arguments")]
    Arity { index: u32 },
    /// What comes out has more than `MAX_TERM_NODES` nodes before it is normalised: so many, or the greatest `u64`
    /// where there are more.
    #[error("too many nodes: {nodes}")]
    TooLarge { nodes: u64 },
    /// What comes out is deeper than `MAX_DEPTH` before it is normalised: so deep, or the greatest `u64` where it is
    /// deeper.
    #[error("too deep: {depth}")]
    TooDeep { depth: u64 },
    /// There was no memory.
    #[error("want of memory")]
    Memory,
}

impl From<Memory> for EditFault {
    ghost use Rattle.mp_term.specs.declared.edit_fault.EditFault.TheVariants as fault;

    ghost from_gives = { λ _ e. e ≡ fault.Memory };

    fn from(_memory: Memory) -> EditFault {
        EditFault::Memory
    }
}

impl From<Excess> for EditFault {
    ghost use Rattle.mp_term.specs.EditFault.{fault_of};

    ghost from_gives = { λ excess e. e ≡ fault_of excess };

    fn from(excess: Excess) -> EditFault {
        match excess {
            Excess::TooLarge { nodes } => EditFault::TooLarge { nodes },
            Excess::TooDeep { depth } => EditFault::TooDeep { depth },
        }
    }
}
