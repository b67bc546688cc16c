//! Where a walk is in its list.
// Before the first item, at one of them, behind the last one, or out of memory.
#[derive(Clone, Copy)]
pub(crate) enum Stage {
    Before,
    Standing,
    Ended,
    Failed,
}
