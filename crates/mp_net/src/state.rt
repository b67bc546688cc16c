//! States of nets.
ghost use Rattle.std.specs.Prelude.{◌≡◌, ◌≤◌, ◌+◌, true, length};
ghost use Rattle.mp_net.specs.Net.{edge_of, same_mark};
ghost use Rattle.mp_net.specs.View.{mark_of, turn_of};
ghost use Rattle.mp_net.specs.Turned.{AreAscending};
ghost use Rattle.mp_net.specs.declared.limits.TheConstants.{MAX_STATES};

use crate::mark::Mark;

// A state. Below a place with one of these heads, which ascend, a state follows that has its number from `first` on, in
// the order of the heads; behind a place with another head follows `other`, where there is such a state. Where nothing
// more is asked, the rules with these numbers are accepted.
#[derive(Drop)]
pub(crate) struct State<'a> {
    pub(crate) heads: Vec<Mark<'a>>,
    pub(crate) first: u32,
    pub(crate) other: Option<u32>,
    pub(crate) accepted: Vec<u32>,
}

impl<'a> State<'a> {
    // The state below a place with the head.
    pub(crate) fn below(&self, head: &Mark<'_>) -> Option<u32>
        requires ascending { AreAscending self.now.heads.items }
        requires few { self.now.first + length self.now.heads.items ≤ MAX_STATES }
        requires head { same_mark (mark_of head.now) (mark_of head.now) ≡ true }
        ensures { result ≡ edge_of (mark_of head.now) (turn_of self.now).edges }
    {
        match self.heads.binary_search(head) {
            Ok(index) => Some(self.first + index as u32),
            Err(_) => None,
        }
    }
}
