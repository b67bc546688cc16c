//! Why there are no nets.
ghost use Rattle.std.specs.Prelude.{◌≡◌};

use mp_term::Memory;
use thiserror::Error;

/// Why there are no nets of rules.
#[derive(Debug, Drop, Error)]
pub enum NetFault {
    /// The rule of that number isn't syntactic, and each rule before it is.
    #[error("rule {rule} isn't syntactic")]
    NotSyntactic { rule: u32 },
    /// There was no memory.
    #[error("want of memory")]
    Memory,
}

impl From<Memory> for NetFault {
    ghost use Rattle.mp_net.specs.declared.fault.NetFault.TheVariants as fault;

    ghost from_gives = { λ _ e. e ≡ fault.Memory };

    fn from(_memory: Memory) -> NetFault {
        NetFault::Memory
    }
}
