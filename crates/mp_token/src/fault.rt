//! Why bytes are not read as a token.

ghost use Rattle.std.specs.Prelude.{◌≡◌};

use mp_term::Memory;
use thiserror::Error;

/// Why bytes are not read as a token.
#[derive(Debug, Drop, Error)]
pub enum TokenFault {
    /// The bytes spell no token: some token begins with so many of them, and none with more of them.
    #[error("spelling at {at}")]
    Spelling { at: u64 },
    /// There was no memory.
    #[error("want of memory")]
    Memory,
}

impl From<Memory> for TokenFault {
    ghost use Rattle.mp_token.specs.declared.fault.TokenFault.TheVariants as fault;

    ghost from_gives = { λ _ e. e ≡ fault.Memory };

    fn from(_memory: Memory) -> TokenFault {
        TokenFault::Memory
    }
}
