//! The arguments of a node.
ghost use Rattle.std.specs.Prelude.{◌≡◌};
ghost use Rattle.mp_ac.specs.Args.{args_of};

use mp_table::Rank;
use std::slice;

// What the children of a node take together, by ranks: one term, as where the node is collapsed, or a list that
// somebody else owns (`args_of` of `specs/Args.antt`).
#[derive(Clone, Copy)]
pub(crate) enum Args<'a> {
    // One term alone.
    Alone(Rank),
    // These terms.
    These(&'a [Rank]),
}

impl<'a> Args<'a> {
    // The ranks.
    pub(crate) fn as_slice(&self) -> &[Rank]
        ensures { result.now ≡ args_of self.now }
    {
        match self {
            Args::Alone(rank) => slice::from_ref(rank),
            Args::These(ranks) => ranks,
        }
    }
}
