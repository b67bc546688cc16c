//! Where a list of items that is searched one at a time stands.
ghost use Rattle.std.specs.Prelude.{◌≡◌};
ghost use Rattle.mp_search.specs.Stage.{mode_at};

use crate::mode::Mode;

/// Where one stands in a list of items: before its first item, at one of them, or behind the last one.
#[derive(Clone, Copy)]
pub enum Stage {
    /// Before the first item.
    Before,
    /// At an item.
    Standing,
    /// Behind the last item.
    Ended,
}

impl Stage {
    /// What is looked for next (`mode_at` of `specs/Stage.antt`). It is None behind the last item alone.
    pub fn mode(self) -> Option<Mode>
        ensures { result ≡ mode_at self }
    {
        match self {
            Stage::Before => Some(Mode::First),
            Stage::Standing => Some(Mode::After),
            Stage::Ended => None,
        }
    }
}
