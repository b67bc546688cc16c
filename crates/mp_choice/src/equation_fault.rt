//! Why an equation's solutions aren't listed.
ghost use Rattle.std.specs.Prelude.{◌≡◌};

use mp_term::Memory;
use thiserror::Error;

/// Why an equation's solutions aren't listed.
#[derive(Debug, Drop, Error)]
pub enum EquationFault {
    /// The coefficient with that index, counted from 0, is 0, and none before it is.
    #[error("coefficient {index} is 0")]
    ZeroCoefficient { index: u32 },
    /// There was no memory.
    #[error("want of memory")]
    Memory,
}

impl From<Memory> for EquationFault {
    ghost use Rattle.mp_choice.specs.declared.equation_fault.EquationFault.TheVariants as fault;

    ghost from_gives = { λ _ e. e ≡ fault.Memory };

    fn from(_memory: Memory) -> EquationFault {
        EquationFault::Memory
    }
}
