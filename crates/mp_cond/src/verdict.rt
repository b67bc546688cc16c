//! The answer about a condition while variables are being bound.

/// What can be said of a condition (`verdict` of `specs/Verdict.antt`).
#[derive(Debug, Drop, Clone, Copy, PartialEq, Eq)]
pub enum Verdict {
    /// It holds.
    Yes,
    /// It doesn't hold.
    No,
    /// A variable isn't bound yet in the form that the plan has for it.
    Later,
}
