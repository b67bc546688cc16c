//! The declarations of a program text against those of a signature.

ghost use Rattle.std.specs.Prelude.{◌≡◌, ◌<◌, ◌-◌, ◌^◌, length, option_map, option_to_list};
ghost use Rattle.mp_print.specs.PrintedSignature.{signature_text};
ghost use Rattle.mp_program.specs.declared.fault.ProgramError.TheVariants as errors;
ghost use Rattle.mp_program.specs.FormFaults.{declaration_faults};
ghost use Rattle.mp_program.specs.FormText.{lines_of};
ghost use Rattle.mp_vm.specs.Checked.{Checks};

use crate::lines::Lines;
use mp_print::printed_signature;
use mp_program::ProgramError;
use mp_term::{Memory, Signature};
use std::alloc::Global;

// The number of the first line, of lines from 2 on, that isn't the expected one, is one too many or is missing.
fn first_difference(expected: &[u8], found: &[u8]) -> Option<u32>
    requires { length found.now < 2 ^ 32 - 2 }
    ensures { declaration_faults 2 (lines_of expected.now) (lines_of found.now)
        ≡ option_to_list (option_map (λ n. errors.BadReference n) result) }
{
    let mut wanted = Lines::new(expected);
    let mut lines = Lines::new(found);
    let mut line: u32 = 2;
    while let Some(text) = wanted.next() {
        let Some(other) = lines.next() else {
            return Some(line);
        };
        if text != other {
            return Some(line);
        }
        line += 1;
    }
    if lines.next().is_none() {
        None
    } else {
        Some(line)
    }
}

// The lines of declarations are those of the signature.
pub(crate) fn check_declarations(
    alloc: Global,
    sig: &Signature,
    declared: &[u8],
) -> Result<(), ProgramError>
    requires few { length declared.now < 2 ^ 32 - 2 }
    ensures { Checks (declaration_faults 2 (lines_of (signature_text sig.now)) (lines_of declared.now)) result }
{
    let printed = printed_signature(alloc, sig)?;
    match first_difference(printed.content(), declared) {
        Some(line) => Err(ProgramError::BadReference { line }),
        None => Ok(()),
    }
}
