//! Where a piece of a rule file stands.

/// A line and a column of a rule file, both from 1.
///
/// A column is the number of the byte in its line. Lines end at a line feed.
#[derive(Clone, Copy, Debug, PartialEq, Eq)]
pub struct Place {
    /// The number of the line, from 1.
    pub line: u32,
    /// The number of the byte in the line, from 1.
    pub column: u32,
}
