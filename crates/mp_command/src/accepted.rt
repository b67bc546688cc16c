//! The action `run`: what a match program accepts on the subjects of a file, a line each.

ghost use Rattle.std.specs.Prelude.{IfSome};
ghost use Rattle.mp_io.specs.Devices.{Text};
ghost use Rattle.mp_io.specs.Moments.{sunk};
ghost use Rattle.mp_text.specs.File.{file_tree};
ghost use Rattle.mp_text.specs.Sound.{IsSoundFile};
ghost use Rattle.mp_matches.specs.Listed.{lines};
ghost use Rattle.mp_matches.specs.PairsListed.{IsPairsListed, named};
ghost use Rattle.mp_program.specs.ProgramView.{program_view};
ghost use Rattle.mp_program.specs.Reading.{IsValid};
ghost use Rattle.mp_gen.specs.Generated.{generated};
ghost use Rattle.mp_gen.specs.Printable.{ArePrintable};
ghost use Rattle.mp_vm.specs.ProgramList.{IsProgramList};
ghost use Rattle.mp_command.specs.Answers.{Acts, ActsAs};
ghost use Rattle.mp_command.specs.Outcome.{IsRun, matched, program_names};
ghost use Rattle.mp_command.specs.Programs.{given};

use crate::ending::{Ending, Told};
use crate::matches::ending;
use crate::names::program_names;
use crate::program_matcher::ProgramMatcher;
use crate::programs::rules_program;
use mp_io::Sink;
use mp_matches::list_pairs;
use mp_term::{Memory, Name};
use mp_text::File;
use mp_vm::{Program, Runner};
use std::alloc::Global;

// Prints the lines of what the program accepts, where its rules have these names.
fn print_named<'a, O: Sink>(
    alloc: Global,
    file: &File,
    program: &Program,
    names: &[&Name],
    limit: Option<u32>,
    out: &mut O,
) -> Ending<'a>
    requires file { IsSoundFile (file_tree file.now) }
    requires program { IsValid (file_tree file.now).sig (program_view program.now) }
    ensures { let f = file_tree file.now in (text : Text) →
        IsPairsListed f (named names.now) (IsProgramList f.sig (program_view program.now)) limit text →
        Acts (matched (lines text)) (sunk O.Sink out.old out.new) result }
{
    match Runner::new(alloc, &file.sig, program) {
        Ok(runner) => {
            let matcher = ProgramMatcher { runner };
            ending(list_pairs(alloc, file, names, &matcher, limit, out))
        }
        Err(Memory) => Ending::Memory,
    }
}

/// Prints a line for each pair of a rule and a substitution that the program, which must be valid over the signature of
/// the file, accepts on a subject of the file, at most as many as the limit, where there is one.
pub fn print_accepted<'a, O: Sink>(
    alloc: Global,
    file: &File,
    program: &Program,
    limit: Option<u32>,
    out: &mut O,
) -> Ending<'a>
    requires file { IsSoundFile (file_tree file.now) }
    requires program { IsValid (file_tree file.now).sig (program_view program.now) }
    ensures { let p = program_view program.now in let f = file_tree file.now in (text : Text) →
        IsPairsListed f (program_names p) (IsProgramList f.sig p) limit text →
        Acts (matched (lines text)) (sunk O.Sink out.old out.new) result }
{
    match program_names(alloc, program.rules.as_slice()) {
        Ok(names) => print_named(alloc, file, program, &names, limit, out),
        Err(Memory) => Ending::Memory,
    }
}

/// Prints what the program of the rules of the file accepts, as `print_accepted` does. The program can be printed.
pub fn print_rules_accepted<'a, O: Sink>(
    alloc: Global,
    file: &File,
    limit: Option<u32>,
    out: &mut O,
) -> Ending<'a>
    requires file { IsSoundFile (file_tree file.now) }
    requires printable { ArePrintable (file_tree file.now).sig (file_tree file.now).rules }
    ensures { let f = file_tree file.now in let p = generated f.sig f.rules in (text : Text) →
        IsPairsListed f (program_names p) (IsProgramList f.sig p) limit text →
        Acts (matched (lines text)) (sunk O.Sink out.old out.new) result }
{
    match rules_program(alloc, &file.sig, &file.rules) {
        Ok(program) => print_accepted(alloc, file, &program, limit, out),
        Err(Memory) => Ending::Memory,
    }
}

/// Prints a line for each pair that the program accepts on a subject of the file, and nothing where none is given. The
/// program must be valid over the signature of the file.
///
/// The ending is that of `IsRun` of `specs/Outcome.antt`, or want of memory, or a write that failed; a front of the
/// lines was written then.
pub fn run_file<'a, O: Sink>(
    alloc: Global,
    file: &File,
    program: Option<&Program>,
    out: &mut O,
) -> Ending<'a>
    requires file { IsSoundFile (file_tree file.now) }
    requires program { IfSome (given program) (IsValid (file_tree file.now).sig) }
    ensures { ActsAs (IsRun (file_tree file.now) (given program.entry)) (sunk O.Sink out.old out.new) result }
{
    match program {
        Some(program) => print_accepted(alloc, file, program, None, out),
        None => Ending::Told(Told::Done),
    }
}
