//! Why bytes are not read as a program.

ghost use Rattle.std.specs.Prelude.{◌≡◌};
ghost use Rattle.mp_program.specs.declared.fault.ProgramError.TheVariants as errors;

use mp_term::Memory;
use std::alloc::{AllocError, AllocFailed};
use thiserror::Error;

/// Why bytes are not read as a program. Lines are numbered from 1.
#[derive(Debug, Drop, Error)]
pub enum ProgramError {
    /// The first line names another format than 1 and 2.
    #[error("another format")]
    WrongVersion,
    /// The line may not stand there, or has another spelling than the printed one, or is missing, or has no end.
    #[error("line {line}: not a line of a program")]
    BadLine { line: u32 },
    /// The instruction of the line leads to one that doesn't stand behind it.
    #[error("line {line}: a target that goes back")]
    BackwardTarget { line: u32 },
    /// The line isn't the declaration of the file, repeats something, or speaks of something that isn't there or that
    /// doesn't go with it.
    #[error("line {line}: a reference that doesn't hold")]
    BadReference { line: u32 },
    /// The instruction of the line ends another application than the innermost one, accepts within one, or leads down
    /// behind a whole pattern.
    #[error("line {line}: applications that don't nest")]
    Unbalanced { line: u32 },
    /// There was no memory.
    #[error("want of memory")]
    Memory,
}

impl From<Memory> for ProgramError {
    ghost from_gives = { λ _ e. e ≡ errors.Memory };

    fn from(_error: Memory) -> ProgramError {
        ProgramError::Memory
    }
}

impl From<AllocError> for ProgramError {
    ghost from_gives = { λ _ e. e ≡ errors.Memory };

    fn from(_error: AllocError) -> ProgramError {
        ProgramError::Memory
    }
}

impl<T: Drop> From<AllocFailed<T>> for ProgramError {
    ghost from_gives = { λ _ e. e ≡ errors.Memory };

    fn from(_error: AllocFailed<T>) -> ProgramError {
        ProgramError::Memory
    }
}
