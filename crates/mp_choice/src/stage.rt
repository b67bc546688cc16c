//! Where a generator stands.

/// The place of a generator in its list. Generators of other crates that list by `specs/Listed.antt` keep it too.
#[derive(Clone, Copy)]
pub enum Stage {
    /// Before the first item.
    Before,
    /// At an item.
    Standing,
    /// After the last item.
    Ended,
}
