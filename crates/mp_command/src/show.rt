//! The action `show`: a file, printed.

ghost use Rattle.mp_io.specs.Moments.{sunk};
ghost use Rattle.mp_text.specs.File.{file_tree};
ghost use Rattle.mp_command.specs.Answers.{Acts};
ghost use Rattle.mp_command.specs.Outcome.{shown};

use crate::ending::{Ending, Told};
use mp_io::{Failed, Sink};
use mp_text::{File, write_file};

/// Prints the file.
///
/// The ending is that of `shown` of `specs/Outcome.antt`, or a write that failed; a front of its text was written then.
pub fn show_file<'a, O: Sink>(file: &File, out: &mut O) -> Ending<'a>
    ensures { Acts (shown (file_tree file.now)) (sunk O.Sink out.old out.new) result }
{
    match write_file(file, out) {
        Ok(()) => Ending::Told(Told::Done),
        Err(Failed) => Ending::CannotWrite,
    }
}
