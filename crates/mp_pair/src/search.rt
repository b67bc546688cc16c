//! The search for the first pairing from a place on.
ghost use Rattle.std.specs.Prelude.{◌≡◌, ◌+◌, ◌<◌, ◌≤◌, ◌==◌, ◌++◌, ◌∷◌, [], ◌↔◌, length, take, count_by};
ghost use Rattle.std.specs.Prelude.{All, IsTrue, MatchOption, MatchBool};
ghost use Rattle.std.specs.List.Sorted.{IsStrictlyIncreasing};
ghost use Rattle.mp_pair.specs.Bipartite.{lists};
ghost use Rattle.mp_pair.specs.PairingSteps.{HasRoom, IsDeadEnd, IsNextClass, HasNoClass, IsFront, IsFirstAt, NoneAt};

use crate::look_ahead::LookAhead;
use crate::tight::is_too_tight;

// How often the class was chosen.
fn uses(chosen: &[u32], class: u32) -> usize
    ensures { result ≡ count_by (λ c. c == class) chosen.now }
{
    chosen.iter().filter(|c| **c == class).count()
}

// Whether the class has room beside those chosen.
fn has_room(capacities: &[u32], chosen: &[u32], class: u32) -> bool
    ensures { IsTrue result ↔ HasRoom capacities.now chosen.now class }
{
    match capacities.get(class as usize) {
        Some(capacity) => uses(chosen, class) < *capacity as usize,
        None => false,
    }
}

// Whether the class has room, and nothing shows that no pairing begins with the chosen classes and it.
fn leads_on(
    left: &[Vec<u32>],
    capacities: &[u32],
    chosen: &[u32],
    class: u32,
    ahead: &mut LookAhead,
) -> bool
    requires within { length chosen.now < length left.now }
    ensures { MatchBool result (HasRoom capacities.now chosen.now class)
        (IsDeadEnd capacities.now (lists left.now) (chosen.now ++ class ∷ [])) }
{
    if !has_room(capacities, chosen, class) {
        return false;
    }
    if ahead.plans_after(left, capacities, chosen.len(), class) {
        return true;
    }
    !is_too_tight(left, capacities, chosen, class, ahead.reached())
}

// The least class of the item after those chosen that is at least the bound and leads on.
fn next_class(
    left: &[Vec<u32>],
    capacities: &[u32],
    chosen: &[u32],
    bound: u64,
    ahead: &mut LookAhead,
) -> Option<u32>
    requires within { length chosen.now < length left.now }
    requires ascending { All IsStrictlyIncreasing (lists left.now) }
    ensures { MatchOption result (HasNoClass capacities.now (lists left.now) chosen.now bound)
        (IsNextClass capacities.now (lists left.now) chosen.now bound) }
{
    let classes = left[chosen.len()].as_slice();
    for class in classes {
        if u64::from(*class) >= bound && leads_on(left, capacities, chosen, *class, ahead) {
            return Some(*class);
        }
    }
    None
}

// Makes the choices the first pairing from the place on, if there is one: the first `count` choices, and the next at
// least the bound.
pub(crate) fn settle(
    left: &[Vec<u32>],
    capacities: &[u32],
    choice: &mut [u32],
    mut count: usize,
    mut bound: u64,
    ahead: &mut LookAhead,
) -> bool
    requires one_each { length choice.old ≡ length left.now }
    requires within { count ≤ length choice.old }
    requires begun { count ≡ length choice.old → bound ≡ 0 }
    requires front { IsFront capacities.now (lists left.now) (take count choice.old) }
    requires ascending { All IsStrictlyIncreasing (lists left.now) }
    ensures { MatchBool result
        (IsFirstAt capacities.now (lists left.now) (take count choice.old) bound choice.new)
        (NoneAt capacities.now (lists left.now) (take count choice.old) bound) }
{
    while count < choice.len() {
        match next_class(left, capacities, &choice[..count], bound, ahead) {
            Some(class) => {
                choice[count] = class;
                count += 1;
                bound = 0;
            }
            None => {
                if count == 0 {
                    return false;
                }
                count -= 1;
                bound = u64::from(choice[count]) + 1;
            }
        }
    }
    true
}
