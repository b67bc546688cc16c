//! What the definitions of the command promise: laws, each as the contract of a function that does nothing.

ghost use Rattle.std.specs.Prelude.{◌≡◌, List};
ghost use Rattle.mp_io.specs.Devices.{Files, Text};
ghost use Rattle.mp_command.specs.Outcome.{IsOutcome, Outcome};

use mp_vm::{a_text_is_a_program_or_has_a_fault, a_text_is_one_program_at_most};

/// Law: words over files have one outcome at most, by `IsOutcome` of `specs/Outcome.antt`. It does nothing when it
/// runs.
pub fn an_outcome_is_unique()
    ensures { (words : List Text) (files : Files) (o p : Outcome) → IsOutcome words files o → IsOutcome words files p
        → o ≡ p }
{
    a_text_is_one_program_at_most();
}

/// Law: words over files have an outcome, by `IsOutcome` of `specs/Outcome.antt`. It does nothing when it runs.
pub fn there_is_an_outcome()
    ensures { (words : List Text) (files : Files) → (o : Outcome) × IsOutcome words files o }
{
    a_text_is_a_program_or_has_a_fault();
}
