//! Why the printing of matches stops before the last of them.

use mp_io::Failed;
use mp_term::Memory;

// Why the printing of matches stops before the last of them.
#[derive(Clone, Copy)]
pub(crate) enum Stop {
    // As many as may be are printed, and it is told that others follow.
    More,
    // A write failed.
    CannotWrite,
    // There was no memory.
    Memory,
}

impl From<Memory> for Stop {
    ghost use Rattle.std.specs.Prelude.{◌≡◌};
    ghost use Rattle.mp_matches.specs.declared.stop.Stop.TheVariants as stop;

    ghost from_gives = { λ _ e. e ≡ stop.Memory };

    fn from(_memory: Memory) -> Stop {
        Stop::Memory
    }
}

impl From<Failed> for Stop {
    ghost use Rattle.std.specs.Prelude.{◌≡◌};
    ghost use Rattle.mp_matches.specs.declared.stop.Stop.TheVariants as stop;

    ghost from_gives = { λ _ e. e ≡ stop.CannotWrite };

    fn from(_failed: Failed) -> Stop {
        Stop::CannotWrite
    }
}
