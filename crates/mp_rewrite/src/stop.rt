//! Why a step isn't made.
ghost use Rattle.std.specs.Prelude.{◌≡◌};
ghost use Rattle.mp_rewrite.specs.Faults.{fault_after};

use crate::fault::RewriteFault;
use mp_subst::ApplyFault;
use mp_term::{Excess, Memory};

// Why a step isn't made.
#[derive(Drop)]
pub(crate) enum Stop {
    // A term would be too large or too deep.
    Exceeded(Excess),
    // There was no memory.
    Memory,
}

impl Stop {
    // Why rewriting ends there, after so many steps.
    pub(crate) fn after(self, turns: u64) -> RewriteFault
        ensures { result ≡ fault_after self turns }
    {
        match self {
            Stop::Exceeded(Excess::TooLarge { nodes }) => RewriteFault::TooLarge { nodes, turns },
            Stop::Exceeded(Excess::TooDeep { depth }) => RewriteFault::TooDeep { depth, turns },
            Stop::Memory => RewriteFault::Memory,
        }
    }
}

impl From<Memory> for Stop {
    ghost use Rattle.mp_rewrite.specs.declared.stop.Stop.TheVariants as stop;

    ghost from_gives = { λ _ e. e ≡ stop.Memory };

    fn from(_memory: Memory) -> Stop {
        Stop::Memory
    }
}

impl From<Excess> for Stop {
    ghost use Rattle.mp_rewrite.specs.declared.stop.Stop.TheVariants as stop;

    ghost from_gives = { λ excess e. e ≡ stop.Exceeded excess };

    fn from(excess: Excess) -> Stop {
        Stop::Exceeded(excess)
    }
}

impl From<ApplyFault> for Stop {
    ghost use Rattle.mp_rewrite.specs.Faults.{stop_of};

    ghost from_gives = { λ fault e. e ≡ stop_of fault };

    fn from(fault: ApplyFault) -> Stop {
        match fault {
            ApplyFault::TooLarge { nodes } => Stop::Exceeded(Excess::TooLarge { nodes }),
            ApplyFault::TooDeep { depth } => Stop::Exceeded(Excess::TooDeep { depth }),
            ApplyFault::Memory => Stop::Memory,
        }
    }
}
