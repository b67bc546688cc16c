//! What shows that choices lead to no pairing: marked classes that more items are bound to take than these have room
//! for.
ghost use Rattle.std.specs.Prelude.{◌≡◌, ◌+◌, ◌<◌, ◌++◌, ◌∷◌, [], length, IsTrue, count_by, cond, false, slice_index};
ghost use Rattle.std.specs.Prelude.{slice_index_or};
ghost use Rattle.std.specs.List.{list_all};
ghost use Rattle.mp_choice.specs.Listed.{HasNone};
ghost use Rattle.mp_pair.specs.Bipartite.{lists};
ghost use Rattle.mp_pair.specs.Pairings.{IsPairing};
ghost use Rattle.mp_pair.specs.PairingSteps.{IsDeadEnd};
ghost use Rattle.mp_pair.specs.Tight.{is_marked, held_by, room_of};

// Whether the class is marked.
fn has_mark(marks: &[bool], class: u32) -> bool
    ensures { result ≡ is_marked marks.now class }
{
    match marks.get(class as usize) {
        Some(mark) => *mark,
        None => false,
    }
}

// One, if the class is marked.
fn one_if_marked(marks: &[bool], class: u32) -> usize
    ensures { result ≡ cond (is_marked marks.now class) 1 0 }
{
    if has_mark(marks, class) { 1 } else { 0 }
}

// How many of the choices are marked.
fn marked(marks: &[bool], choices: &[u32]) -> usize
    ensures { result ≡ count_by (is_marked marks.now) choices.now }
{
    choices
        .iter()
        .filter(|class| has_mark(marks, **class))
        .count()
}

// Whether the item's classes are all marked.
fn is_held(marks: &[bool], classes: &[u32]) -> bool
    ensures { result ≡ list_all (is_marked marks.now) classes.now }
{
    classes.iter().all(|class| has_mark(marks, *class))
}

// How many of the items have classes that are all marked.
fn held(marks: &[bool], left: &[Vec<u32>]) -> usize
    ensures { result ≡ held_by marks.now (lists left.now) }
{
    left.iter()
        .filter(|classes| is_held(marks, classes))
        .count()
}

// How many items the class has room for, if it is marked.
fn room_at(marks: &[bool], capacities: &[u32], class: usize) -> usize
    ensures { result ≡ cond (slice_index_or marks.now class false) (slice_index capacities.now class) 0 }
{
    match (marks.get(class), capacities.get(class)) {
        (Some(true), Some(capacity)) => *capacity as usize,
        _ => 0,
    }
}

// Whether the marked classes have room for fewer items than that.
fn has_less_room(marks: &[bool], capacities: &[u32], items: usize) -> bool
    ensures { IsTrue result → room_of marks.now capacities.now < items }
{
    let mut left = items;
    for i in 0..marks.len() {
        let room = room_at(marks, capacities, i);
        if room >= left {
            return false;
        }
        left -= room;
    }
    left > 0
}

// Whether the marks show that there is no pairing: more items may take only marked classes than these have room for.
pub(crate) fn is_hopeless(left: &[Vec<u32>], capacities: &[u32], marks: &[bool]) -> bool
    ensures { IsTrue result → HasNone (IsPairing capacities.now (lists left.now)) }
{
    has_less_room(marks, capacities, held(marks, left))
}

// Whether the marks show that no pairing begins with the chosen classes and this one: more items are bound to take
// marked classes than these have room for.
pub(crate) fn is_too_tight(
    left: &[Vec<u32>],
    capacities: &[u32],
    chosen: &[u32],
    class: u32,
    marks: &[bool],
) -> bool
    requires within { length chosen.now < length left.now }
    ensures { IsTrue result → IsDeadEnd capacities.now (lists left.now) (chosen.now ++ class ∷ []) }
{
    let before = marked(marks, chosen);
    let here = one_if_marked(marks, class);
    let later = held(marks, &left[chosen.len() + 1..]);
    has_less_room(marks, capacities, before + here + later)
}
