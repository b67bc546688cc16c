//! Why the matches of a file aren't listed.

use thiserror::Error;

/// Why the matches of a file aren't listed to the end.
#[derive(Debug, Drop, Error)]
pub enum ListFault {
    /// The text of the token spells none: some token begins with so many of its bytes, and none with more of them.
    #[error("token: spelling at {at}")]
    Spelling { at: u64 },
    /// The text is a token, but that of no match of the file.
    #[error("token: not an item")]
    NotAnItem,
    /// A write failed; a front of the lines was written.
    #[error("cannot write")]
    CannotWrite,
    /// There was no memory; a front of the lines was written.
    #[error("want of memory")]
    Memory,
}
