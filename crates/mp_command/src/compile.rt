//! The action `compile`: a match program, printed.

ghost use Rattle.std.specs.Prelude.{suc, length, IfSome};
ghost use Rattle.mp_io.specs.Moments.{sunk};
ghost use Rattle.mp_text.specs.File.{file_tree};
ghost use Rattle.mp_text.specs.Sound.{IsSoundFile};
ghost use Rattle.mp_program.specs.ProgramView.{program_view};
ghost use Rattle.mp_program.specs.Reading.{IsValid};
ghost use Rattle.mp_program.specs.RightForm.{IsShort};
ghost use Rattle.mp_gen.specs.Generated.{generated};
ghost use Rattle.mp_command.specs.Answers.{Acts};
ghost use Rattle.mp_command.specs.Outcome.{printed_program, program_or_rules};
ghost use Rattle.mp_command.specs.Programs.{given};

use crate::ending::{Ending, Told};
use crate::programs::rules_program;
use mp_io::{Failed, Sink};
use mp_term::{Memory, Signature};
use mp_text::File;
use mp_vm::{Program, write_program};
use std::alloc::Global;

// Prints a program over the signature.
fn print_program<'a, O: Sink>(sig: &Signature, program: &Program, out: &mut O) -> Ending<'a>
    requires { IsShort (suc (length program.now.code)) }
    ensures { Acts (printed_program sig.now (program_view program.now)) (sunk O.Sink out.old out.new) result }
{
    match write_program(sig, program, out) {
        Ok(()) => Ending::Told(Told::Done),
        Err(Failed) => Ending::CannotWrite,
    }
}

// Prints the program of the rules of the file.
fn print_rules_program<'a, O: Sink>(alloc: Global, file: &File, out: &mut O) -> Ending<'a>
    requires { IsSoundFile (file_tree file.now) }
    ensures { let f = file_tree file.now in
        Acts (printed_program f.sig (generated f.sig f.rules)) (sunk O.Sink out.old out.new) result }
{
    match rules_program(alloc, &file.sig, &file.rules) {
        Ok(program) => print_program(&file.sig, &program, out),
        Err(Memory) => Ending::Memory,
    }
}

/// Prints the program, which must be valid over the signature of the file, or that of the rules of the file where none
/// is given.
///
/// The ending is that of `printed_program` of `specs/Outcome.antt`, or want of memory, or a write that failed; a front
/// of the text was written then.
pub fn compile_file<'a, O: Sink>(
    alloc: Global,
    file: &File,
    program: Option<&Program>,
    out: &mut O,
) -> Ending<'a>
    requires file { IsSoundFile (file_tree file.now) }
    requires program { IfSome (given program) (IsValid (file_tree file.now).sig) }
    ensures { let f = file_tree file.now in
        Acts (printed_program f.sig (program_or_rules f (given program.entry))) (sunk O.Sink out.old out.new) result }
{
    match program {
        Some(program) => print_program(&file.sig, program, out),
        None => print_rules_program(alloc, file, out),
    }
}
