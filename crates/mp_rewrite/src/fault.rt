//! Why rewriting ends without a term.
ghost use Rattle.std.specs.Prelude.{◌≡◌};

use mp_term::Memory;
use thiserror::Error;

/// Why rewriting ends without a term. `turns` is the number of steps that were made before.
#[derive(Debug, Drop, Error)]
pub enum RewriteFault {
    /// A step would make a term of more than `MAX_TERM_NODES` nodes: so many, or the greatest `u64` where there are
    /// more.
    #[error("too many nodes: {nodes}")]
    TooLarge { nodes: u64, turns: u64 },
    /// A step would make a term that is deeper than `MAX_DEPTH`: so deep, or the greatest `u64` where it is deeper.
    #[error("too deep: {depth}")]
    TooDeep { depth: u64, turns: u64 },
    /// There was no memory.
    #[error("want of memory")]
    Memory,
}

impl From<Memory> for RewriteFault {
    ghost use Rattle.mp_rewrite.specs.declared.fault.RewriteFault.TheVariants as fault;

    ghost from_gives = { λ _ e. e ≡ fault.Memory };

    fn from(_memory: Memory) -> RewriteFault {
        RewriteFault::Memory
    }
}
