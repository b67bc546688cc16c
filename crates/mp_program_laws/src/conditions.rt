//! The law of the conditions whose variables are numbered.

ghost use Rattle.std.specs.Prelude.{◌<◌, ◌^◌, ℕ, List, None, length};
ghost use Rattle.mp_term.specs.Signature.{Sig};
ghost use Rattle.mp_pattern.specs.CondTree.{Cond};
ghost use Rattle.mp_print.specs.PrintedCond.{cond_text};
ghost use Rattle.mp_build.specs.AloneCondition.{IsCondOf};
ghost use Rattle.mp_round_trip.specs.Readable.{IsSpelledSignature, IsReadableCondition};
ghost use Rattle.mp_program.specs.ProgramOf.{renamed_cond};

use mp_round_trip::printed_condition_is_read;

/// Law: a condition that is read over any variables is read of its printed text also where its variables are called by
/// their places among names, `renamed_cond` of `mp_program`.
///
/// The signature is spelled, by `IsSpelledSignature` of mp_round_trip's `specs/Readable.antt`: its names are names and
/// its signs are signs, as in every file that is read. It does nothing when it runs.
pub fn a_renamed_condition_is_read()
    // It passes the checks where the condition does.
    ensures passes { (sig : Sig) (names : List (List ℕ)) (c : Cond) → length names < 2 ^ 32
        → IsReadableCondition sig None c → IsReadableCondition sig None (renamed_cond names c) }
    // It is read where some bytes are the condition.
    ensures read { (sig : Sig) (names : List (List ℕ)) (bytes : List ℕ) (c : Cond) → length names < 2 ^ 32
        → IsSpelledSignature sig → IsCondOf sig None bytes c
        → IsCondOf sig None (cond_text sig (renamed_cond names c)) (renamed_cond names c) }
{
    printed_condition_is_read();
}
