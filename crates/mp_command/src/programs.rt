//! The program of an action: one that is read, or that of the rules of the file.

ghost use Rattle.std.specs.Prelude.{◌≡◌, ◌≤◌, suc, length, IfOk};
ghost use Rattle.mp_pattern.specs.SoundRule.{AreSoundRules};
ghost use Rattle.mp_program.specs.ProgramView.{program_view};
ghost use Rattle.mp_program.specs.RightForm.{IsShort};
ghost use Rattle.mp_program.specs.Reading.{IsValid};
ghost use Rattle.mp_gen.specs.Generated.{generated};
ghost use Rattle.mp_gen.specs.Printable.{ArePrintable};
ghost use Rattle.mp_command.specs.Outcome.{program_limit};
ghost use Rattle.mp_command.specs.Programs.{IsReadAs, named_text};

use crate::ending::{Ending, Told};
use mp_gen::generate;
use mp_many::Many;
use mp_pattern::Rules;
use mp_term::{Memory, Signature};
use mp_vm::{Program, ProgramError, read_program};
use std::alloc::Global;

/// The name of a program file and its bytes.
#[derive(Clone, Copy)]
pub struct ProgramText<'a, 'b> {
    pub name: &'a str,
    pub bytes: &'b [u8],
}

/// The match program of the rules, which must be sound over the signature. It is valid where it can be printed.
/// `Memory` comes where there is no room for it.
pub fn rules_program(alloc: Global, sig: &Signature, rules: &Rules) -> Result<Program, Memory>
    requires { AreSoundRules sig.now rules.now }
    ensures program { IfOk result (λ p. program_view p ≡ generated sig.now rules.now) }
    ensures short { IfOk result (λ p. IsShort (suc (length p.code))) }
    ensures valid { IfOk result (λ p. ArePrintable sig.now rules.now → IsValid sig.now (program_view p)) }
{
    let many = Many::build(alloc, sig, rules)?;
    generate(alloc, &many)
}

/// The program over the signature that the text is, or the ending where it has a fault.
pub fn read_program_text<'a>(
    alloc: Global,
    sig: &Signature,
    text: ProgramText<'a, '_>,
) -> Result<Program, Ending<'a>>
    requires { length (named_text text).bytes ≤ program_limit }
    ensures { IsReadAs sig.now (named_text text.entry) result }
{
    match read_program(alloc, sig, text.bytes) {
        Ok(program) => Ok(program),
        Err(fault) => match fault {
            ProgramError::Memory => Err(Ending::Memory),
            _ => Err(Ending::Told(Told::BadProgram(text.name, fault))),
        },
    }
}
