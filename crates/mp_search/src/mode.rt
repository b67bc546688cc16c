//! What a search looks for.

/// Which take table is looked for: the first, the first one after the one at hand, or that one alone
/// (`beyond` of `specs/Wanted.antt`).
#[derive(Clone, Copy)]
pub enum Mode {
    /// The first table that is found, whatever the nodes take at hand.
    First,
    /// The first one after the table at hand, which is that of an item.
    After,
    /// The table at hand, if it is that of an item.
    At,
}
