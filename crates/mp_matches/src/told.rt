//! What is told of the lines that were put.

/// What is told of the lines of pairs that were put.
#[derive(Clone, Copy)]
pub enum Told {
    /// All of them were put, and whether there are any.
    All(bool),
    /// As many as may be were put, and the last line says that others follow.
    More,
}
