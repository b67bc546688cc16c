//! How many terms a node takes, by its shape alone.
ghost use Rattle.std.specs.Prelude.{◌≡◌};
ghost use Rattle.mp_pattern.specs.View.{pattern_tree};
ghost use Rattle.mp_theory.specs.Bounds as bounds;
ghost use Rattle.mp_search.specs.Frames.{above};

use mp_pattern::{Pattern, is_assoc_above};
use mp_term::{OpId, Signature};

// The least number of terms that the node takes.
pub(crate) fn least(child: &Pattern) -> usize
    ensures { result ≡ bounds.least (pattern_tree child.now) }
{
    match child {
        Pattern::Wild(shape, _) => shape.least(),
        _ => 1,
    }
}

// The greatest number of terms that the node takes, if there is a bound.
pub(crate) fn most(sig: &Signature, under: Option<OpId>, child: &Pattern) -> Option<usize>
    ensures { result ≡ bounds.most sig.now (above under) (pattern_tree child.now) }
{
    match child {
        Pattern::Wild(shape, _) => shape.most(is_assoc_above(sig, under)),
        _ => Some(1),
    }
}
