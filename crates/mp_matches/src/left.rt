//! How many lines may still be printed.

ghost use Rattle.std.specs.Prelude.{◌≡◌};
ghost use Rattle.mp_matches.specs.Left.{IsWritable, left_at_first, left_of};

use mp_token::Token;

// How many lines of matches may still be printed.
#[derive(Drop)]
pub(crate) enum Left {
    // All that come.
    All,
    // One, and so many more.
    Lines(u32),
    // None. The last match has this token.
    Full(Token),
}

impl Left {
    // At the beginning, where at most so many may be printed. At least one may.
    pub(crate) fn new(limit: Option<u32>) -> Left
        ensures left { left_of result ≡ left_at_first limit }
        ensures writable { IsWritable result }
    {
        match limit {
            None | Some(0) => Left::All,
            Some(count) => Left::Lines(count - 1),
        }
    }
}
