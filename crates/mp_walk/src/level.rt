//! What is kept of each token that a walk has read.
use mp_ac::CommSearch;
use mp_subst::Mark;

// A token that is read: the number of its instruction; whether it is known that nothing is left of it and nothing
// stands beside it; the place of the innermost operation that was open before it, and how many places there were; how
// long the trail was; the way that is to be tried next; and the search below a commutative application, in a box, since
// few tokens have one.
#[derive(Drop)]
pub(crate) struct Level<'a> {
    pub(crate) instr: u32,
    pub(crate) ended: bool,
    pub(crate) place: Option<usize>,
    pub(crate) frames: usize,
    pub(crate) mark: Mark,
    pub(crate) next: usize,
    pub(crate) search: Option<Box<CommSearch<'a>>>,
}
