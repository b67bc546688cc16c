//! The answer to a request, over a shelf.

ghost use Rattle.std.specs.Prelude.{◌≡◌, ◌≤◌, ◌∷◌, [], length, IfErr, IfSome, Some};
ghost use Rattle.mp_io.specs.Moments.{shelved, sunk};
ghost use Rattle.mp_text.specs.File.{file_tree};
ghost use Rattle.mp_text.specs.Sound.{IsSoundFile};
ghost use Rattle.mp_program.specs.Reading.{IsValid};
ghost use Rattle.mp_command.specs.Answers.{ActsAs, Answers, HasCauses, IsLater, Loads, items_in};
ghost use Rattle.mp_command.specs.Endings.{status_of};
ghost use Rattle.mp_command.specs.Outcome.{IsDone, IsDoneWith, IsOutcomeAt, IsOutcomeOver, IsOutcomeWith, file_limit};
ghost use Rattle.mp_command.specs.Outcome.{program_limit};
ghost use Rattle.mp_command.specs.Programs.{IsRead, given, named};
ghost use Rattle.mp_command.specs.Run.{IsReadOnce, wanted_by, wanted_program};
ghost use Rattle.mp_words.specs.Requests.{asked};

use crate::accepted::run_file;
use crate::compile::compile_file;
use crate::edit::edit_file;
use crate::ending::{Ending, Told};
use crate::matches::match_file;
use crate::programs::{ProgramText, read_program_text};
use crate::rewrite::rewrite_file;
use crate::show::show_file;
use mp_io::{ReadFault, Shelf, Sink, read_whole};
use mp_text::{File, TextError, read_file};
use mp_vm::Program;
use mp_words::{Action, Request};
use std::alloc::Global;
use std::mem;

// A file of rules has at most so many bytes.
const FILE_LIMIT: usize = 1_048_576;

// A file with a program has at most so many bytes.
const PROGRAM_LIMIT: usize = 33_554_432;

// Reads the named file, where it has at most `limit` bytes.
fn load<'a, S: Shelf>(
    alloc: Global,
    shelf: &mut S,
    name: &'a str,
    limit: usize,
) -> Result<Vec<u8>, Ending<'a>>
    ensures loads { Loads name.entry.now limit (shelved S.Shelf shelf.old shelf.new) (items_in result) }
    ensures files { S.files shelf.new ≡ S.files shelf.old }
    ensures later { IsLater (shelved S.Shelf shelf.old shelf.new) }
    ensures once { IsReadOnce (record { name = name.entry.now; limit = limit } ∷ [])
        (shelved S.Shelf shelf.old shelf.new) }
    ensures used { IfErr result (λ e. status_of e ≡ 2 → ⊥) }
{
    match read_whole(alloc, shelf, name, limit) {
        Ok(bytes) => Ok(bytes),
        Err(ReadFault::Start) => Err(Ending::CannotOpen(name)),
        Err(ReadFault::Read) => Err(Ending::CannotRead(name)),
        Err(ReadFault::TooLong) => Err(Ending::Told(Told::TooLong(name))),
        Err(ReadFault::Memory) => Err(Ending::Memory),
    }
}

// Does what the request asks for, over a file and perhaps a program, which were read.
fn act<'a, O: Sink>(
    alloc: Global,
    request: Request<'a>,
    file: &File,
    program: Option<&Program>,
    out: &mut O,
) -> Ending<'a>
    requires file { IsSoundFile (file_tree file.now) }
    requires read { IsRead (file_tree file.now) }
    requires program { IfSome (given program) (IsValid (file_tree file.now).sig) }
    ensures { let asked_for = asked request.entry in
        ActsAs (IsDone asked_for (file_tree file.now) (given program.entry) asked_for.action)
        (sunk O.Sink out.old out.new) result }
{
    match request.action {
        Action::Match => match_file(alloc, file, &request, out),
        Action::Show => show_file(file, out),
        Action::Rewrite => rewrite_file(alloc, file, u64::from(request.max), out),
        Action::Edit => edit_file(alloc, file, out),
        Action::Compile => compile_file(alloc, file, program, out),
        Action::Run => run_file(alloc, file, program, out),
    }
}

// Does what the request asks for, over a file that was read and a program file, where one is given.
fn act_with<'a, O: Sink>(
    alloc: Global,
    request: Request<'a>,
    file: &File,
    text: Option<ProgramText<'a, '_>>,
    out: &mut O,
) -> Ending<'a>
    requires file { IsSoundFile (file_tree file.now) }
    requires read { IsRead (file_tree file.now) }
    requires length { IfSome (named text) (λ n. length n.bytes ≤ program_limit) }
    ensures { ActsAs (IsDoneWith (asked request.entry) (file_tree file.now) (named text.entry))
        (sunk O.Sink out.old out.new) result }
{
    let Some(text) = text else {
        return act(alloc, request, file, None, out);
    };
    match read_program_text(alloc, &file.sig, text) {
        Ok(program) => act(alloc, request, file, Some(&program), out),
        Err(ending) => ending,
    }
}

// Does what the request asks for, over the bytes of its file and a program file, where one is given.
fn act_over<'a, O: Sink>(
    alloc: Global,
    request: Request<'a>,
    bytes: &[u8],
    text: Option<ProgramText<'a, '_>>,
    out: &mut O,
) -> Ending<'a>
    requires file { length bytes.now ≤ file_limit }
    requires program { IfSome (named text) (λ n. length n.bytes ≤ program_limit) }
    ensures acts { ActsAs (IsOutcomeOver (asked request.entry) (named text.entry) bytes.now)
        (sunk O.Sink out.old out.new) result }
    ensures used { status_of result ≡ 2 → ⊥ }
    ensures read { status_of result ≡ 4 → ⊥ }
{
    match read_file(alloc, bytes) {
        Ok(file) => {
            let ending = act_with(alloc, request, &file, text, out);
            // The command ends here: the memory of the file goes back to the system with the process, at once.
            mem::forget(file);
            ending
        }
        Err(TextError::Text(fault)) => Ending::Told(Told::BadText(request.file, fault)),
        Err(TextError::Memory) => Ending::Memory,
    }
}

// Reads the program file, where the request names one, and does its action over it and the bytes of its file.
fn answer_over<'a, S: Shelf, O: Sink>(
    alloc: Global,
    request: Request<'a>,
    bytes: &[u8],
    shelf: &mut S,
    out: &mut O,
) -> Ending<'a>
    requires { length bytes.now ≤ file_limit }
    ensures answers { let asked_for = asked request.entry in
        Answers (wanted_program asked_for.program)
        (λ files. IsOutcomeWith files asked_for asked_for.program bytes.now)
        (shelved S.Shelf shelf.old shelf.new) (sunk O.Sink out.old out.new) result }
    ensures causes { HasCauses (wanted_program (asked request.entry).program)
        (shelved S.Shelf shelf.old shelf.new) result }
    ensures later { IsLater (shelved S.Shelf shelf.old shelf.new) }
    ensures once { IsReadOnce (wanted_program (asked request.entry).program) (shelved S.Shelf shelf.old shelf.new) }
    ensures used { status_of result ≡ 2 → ⊥ }
{
    let Some(name) = request.program else {
        return act_over(alloc, request, bytes, None, out);
    };
    match load(alloc, shelf, name, PROGRAM_LIMIT) {
        Ok(program) => {
            let text = ProgramText {
                name,
                bytes: &program,
            };
            act_over(alloc, request, bytes, Some(text), out)
        }
        Err(ending) => ending,
    }
}

/// Reads the file that the request names, and then the program file, where it names one, and does its action over them.
///
/// The ending is that of `IsOutcomeAt` of `specs/Outcome.antt` over the files, or a file that isn't held, is too long,
/// or whose start or read failed, or want of memory, or a write that failed. No more files are started than the request
/// names.
pub fn answer_file<'a, S: Shelf, O: Sink>(
    alloc: Global,
    request: Request<'a>,
    shelf: &mut S,
    out: &mut O,
) -> Ending<'a>
    ensures answers { let asked_for = asked request.entry in
        Answers (wanted_by (Some asked_for)) (λ files. IsOutcomeAt files (Some asked_for))
        (shelved S.Shelf shelf.old shelf.new) (sunk O.Sink out.old out.new) result }
    ensures causes { HasCauses (wanted_by (Some (asked request.entry))) (shelved S.Shelf shelf.old shelf.new) result }
    ensures once { IsReadOnce (wanted_by (Some (asked request.entry))) (shelved S.Shelf shelf.old shelf.new) }
    ensures used { status_of result ≡ 2 → ⊥ }
{
    match load(alloc, shelf, request.file, FILE_LIMIT) {
        Ok(bytes) => answer_over(alloc, request, &bytes, shelf, out),
        Err(ending) => ending,
    }
}
