//! The formats of program texts.

/// A format that is read. Programs are printed in format 2 alone.
#[derive(Debug, Clone, Copy, PartialEq, Eq)]
pub enum Format {
    /// Format 1: a rule line spells its condition.
    One,
    /// Format 2: a condition stands in a test line, which rule lines name by its number.
    Two,
}
