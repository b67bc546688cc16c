//! Why a rule file could not be read.

ghost use Rattle.std.specs.Prelude.{◌≡◌};
ghost use Rattle.mp_parser.specs.declared.fault.SyntaxError.TheVariants.{Memory};

use crate::place::Place;
use std::alloc::{AllocError, AllocFailed};

/// What is wrong with a token.
#[derive(Clone, Copy, Debug, PartialEq, Eq)]
pub enum FaultKind {
    /// The grammar has another token there, or the file ends too early.
    Syntax,
    /// The token opens a bracket while 100 are open.
    TooDeep,
    /// The byte begins no token.
    BadByte,
    /// The token has a word of more than 64 bytes.
    TooMany,
}

/// What is wrong, and where.
#[derive(Clone, Copy, Debug, PartialEq, Eq)]
pub struct Fault {
    /// What is wrong with the token.
    pub kind: FaultKind,
    /// Where the token stands; the end of the file has the place just after the last byte.
    pub place: Place,
}

/// Why no statements are given.
#[derive(Debug, Drop)]
pub enum SyntaxError {
    /// Memory ran out.
    Memory,
    /// The bytes are no rule file.
    Fault(Fault),
}

impl From<AllocError> for SyntaxError {
    ghost from_gives = { λ _ e. e ≡ Memory };

    fn from(_error: AllocError) -> SyntaxError {
        SyntaxError::Memory
    }
}

impl<T: Drop> From<AllocFailed<T>> for SyntaxError {
    ghost from_gives = { λ _ e. e ≡ Memory };

    fn from(_error: AllocFailed<T>) -> SyntaxError {
        SyntaxError::Memory
    }
}
