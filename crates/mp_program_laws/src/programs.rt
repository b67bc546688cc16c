//! The law of printed programs.

ghost use Rattle.std.specs.Prelude.{List, ℕ};
ghost use Rattle.mp_term.specs.Signature.{Sig};
ghost use Rattle.mp_round_trip.specs.Readable.{IsSpelledSignature};
ghost use Rattle.mp_program.specs.FormText.{program_text};
ghost use Rattle.mp_program.specs.Program.{Program};
ghost use Rattle.mp_program.specs.Reading.{IsProgramOf};

use mp_program::a_program_has_one_spelling;
use mp_round_trip::printed_condition_is_read;

/// Law: the text that a program is printed as, `program_text` of `mp_program`, is that program, for every program that
/// some bytes are, `IsProgramOf`, in format 1 or 2. So what is read is printed and read again without loss.
///
/// The signature is spelled, by `IsSpelledSignature` of mp_round_trip's `specs/Readable.antt`: its names are names and
/// its signs are signs, as in every file that is read. It does nothing when it runs.
pub fn a_printed_program_is_read()
    ensures { (sig : Sig) (bytes : List ℕ) (p : Program) → IsSpelledSignature sig → IsProgramOf sig bytes p
        → IsProgramOf sig (program_text sig p) p }
{
    printed_condition_is_read();
    a_program_has_one_spelling();
}
