//! The net of one rule.
ghost use Rattle.std.specs.Prelude.{◌≡◌, ◌<◌, [], ◌∷◌, length, map, IfOk};
ghost use Rattle.mp_net.specs.Net.{nowhere};
ghost use Rattle.mp_net.specs.View.{mark_of, turn_of};
ghost use Rattle.mp_net.specs.NetOf.{IsNetOf, IsState, asking_turn, accepted};
ghost use Rattle.mp_net.specs.declared.limits.TheConstants.{MAX_STATES};

use crate::build::Net;
use crate::mark::Mark;
use crate::state::State;
use mp_term::Memory;
use std::alloc::Global;

// The state at a place of which that is asked, with the number of the state that follows.
fn asking<'a>(alloc: Global, mark: Mark<'a>, next: u32) -> Result<State<'a>, Memory>
    requires room { next < MAX_STATES }
    ensures turn { IfOk result (λ s. turn_of s ≡ asking_turn (mark_of mark.entry) next) }
    ensures accepted { IfOk result (λ s. accepted s ≡ []) }
    ensures state { IfOk result IsState }
{
    let mut heads = Vec::new(alloc);
    let other = if let Mark::Anything = mark {
        Some(next)
    } else {
        heads.push(mark)?;
        None
    };
    Ok(State {
        heads,
        first: next,
        other,
        accepted: Vec::new(alloc),
    })
}

// The state in which the rule is accepted.
fn accepting<'a>(alloc: Global, rule: u32) -> Result<State<'a>, Memory>
    ensures turn { IfOk result (λ s. turn_of s ≡ nowhere) }
    ensures accepted { IfOk result (λ s. accepted s ≡ rule ∷ []) }
    ensures state { IfOk result IsState }
{
    let mut accepted = Vec::new(alloc);
    accepted.push(rule)?;
    Ok(State {
        heads: Vec::new(alloc),
        first: 0,
        other: None,
        accepted,
    })
}

// The net of one rule: a state for each of its marks, and one behind them.
pub(crate) fn chain<'a>(alloc: Global, marks: &[Mark<'a>], rule: u32) -> Result<Net<'a>, Memory>
    requires few { length marks.now < MAX_STATES }
    ensures { IfOk result (IsNetOf (record { rule = rule; rest = map mark_of marks.now } ∷ [])) }
{
    let mut states = Vec::new(alloc);
    for (index, mark) in marks.iter().enumerate() {
        states.push(asking(alloc, *mark, index as u32 + 1)?)?;
    }
    states.push(accepting(alloc, rule)?)?;
    Ok(Net { states })
}
