//! Which entries may stand next.
ghost use Rattle.std.specs.Prelude.{◌≡◌};
ghost use Rattle.mp_theory.specs.Trail as trails;
ghost use Rattle.mp_one.specs.Stack.{child_of, entry_of};

use crate::node::reads;
use crate::pieces::is_piece;
use crate::stack::{Place, Take};
use mp_pattern::is_comm_above;
use mp_term::Signature;

// Whether the entry may stand next.
pub(crate) fn allows(sig: &Signature, place: &Place<'_>, entry: &Take<'_>) -> bool
    ensures { result ≡ trails.allows sig.now (child_of place.now) (entry_of entry.now) }
{
    is_piece(is_comm_above(sig, place.under), &entry.terms, place.left)
        && reads(sig, place.child, place.under, &entry.terms, entry.collapsed)
}
