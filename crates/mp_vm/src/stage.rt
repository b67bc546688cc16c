//! The parts of a program text.

/// The part of a text of which a line is. The first line stands before all parts, and behind it the reading stands
/// where it does behind the declarations of operations.
#[derive(Clone, Copy, PartialEq, Eq)]
pub(crate) enum Stage {
    /// The declarations of operations.
    Ops,
    /// The declarations of kinds.
    Kinds,
    /// The tests.
    Tests,
    /// The rules.
    Rules,
    /// `code`.
    Code,
    /// The begin of the instructions.
    Begin,
    /// The instructions.
    Instrs,
    /// The end of the instructions.
    Stop,
}
