//! A position of a term at which a rule admits something.
ghost use Rattle.std.specs.Prelude.{◌≡◌, ◌<◌, ◌^◌, IfOk};
ghost use Rattle.mp_rewrite.specs.Computed as computed;
ghost use Rattle.mp_rewrite.specs.Made.{redex_of};

use crate::rules::Match;
use mp_term::Memory;

// A position, with the first match of rules on the subterm there.
#[derive(Drop)]
pub(crate) struct Redex<'a> {
    pub(crate) position: Vec<u32>,
    pub(crate) found: Match<'a>,
}

// The redex of an argument as one of the application around it.
pub(crate) fn at_argument(index: usize, redex: Redex<'_>) -> Result<Redex<'_>, Memory>
    requires { index < 2 ^ 32 }
    ensures { IfOk result (λ r. redex_of r ≡ computed.at_argument index (redex_of redex.entry)) }
{
    let Redex {
        mut position,
        found,
    } = redex;
    position.insert(0, index as u32)?;
    Ok(Redex { position, found })
}
