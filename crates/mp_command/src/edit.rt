//! The action `edit`: what the subjects of a file become by its edit statements, a line each.

ghost use Rattle.std.specs.Prelude.{◌≤◌, length, map, slice_get};
ghost use Rattle.std.specs.List.{AllByRecursion};
ghost use Rattle.mp_io.specs.Moments.{sunk};
ghost use Rattle.mp_io.specs.Printing.{Prints};
ghost use Rattle.mp_term.specs.View.{tree};
ghost use Rattle.mp_term.specs.Normal.{normal};
ghost use Rattle.mp_term.specs.Edited.{edited};
ghost use Rattle.mp_term.specs.EditFault.{edit_fault};
ghost use Rattle.mp_text.specs.File.{file_tree};
ghost use Rattle.mp_text.specs.Sound.{IsMakeable, IsSoundEditSet, IsSoundFile};
ghost use Rattle.mp_command.specs.Answers.{Acts, GoesOn};
ghost use Rattle.mp_command.specs.Outcome.{Outcome, edited_before, edited_line, edits_made, statement_before};

use crate::ending::{Ending, Told};
use mp_io::{Failed, Sink, Writer};
use mp_print::put_term;
use mp_term::{EditFault, Edits, MAX_EDITS, Name, Signature, Term, replace_many};
use mp_text::{EditSet, File, Subject, Subjects};
use std::alloc::Global;

// Writes the line of a subject after its edits.
fn write_edited<O: Sink>(
    sig: &Signature,
    name: &Name,
    term: &Term,
    out: &mut O,
) -> Result<(), Failed>
    ensures { Prints (sunk O.Sink out.old out.new) (edited_line sig.now name.now (tree term.now)) result }
{
    let mut out = Writer::new(out);
    out.put_all(&[name.bytes(), b": "]);
    put_term(sig, term, &mut out);
    out.put(b"\n");
    out.finish()
}

// Makes the edits of one subject and writes its line; it goes on, or ends so. What the statements behind it come to is
// `rest`.
fn edit_subject<'a, O: Sink>(
    alloc: Global,
    sig: &Signature,
    subject: &Subject,
    edits: &Edits,
    out: &mut O,
) -> Result<(), Ending<'a>>
    requires few { length edits.now ≤ MAX_EDITS }
    requires makeable { IsMakeable (edit_fault sig.now (tree subject.now.term) edits.now) }
    ensures { (rest : Outcome) → GoesOn (edited_before sig.now subject.now.name
        (edit_fault sig.now (tree subject.now.term) edits.now)
        (map (normal sig.now) (edited edits.now (tree subject.now.term))) rest)
        rest (sunk O.Sink out.old out.new) result }
{
    let name = &subject.name;
    let term = match replace_many(alloc, sig, &subject.term, edits) {
        Ok(term) => term,
        Err(EditFault::TooLarge { nodes }) => {
            return Err(Ending::Told(Told::TooLarge(name.copy(alloc)?, nodes)));
        }
        Err(EditFault::TooDeep { depth }) => {
            return Err(Ending::Told(Told::TooDeep(name.copy(alloc)?, depth)));
        }
        Err(EditFault::Memory) => return Err(Ending::Memory),
        Err(_) => unreachable!(),
    };
    write_edited(sig, name, &term, out)?;
    Ok(())
}

// Makes the edits of a statement, as `edit_subject` does.
fn edit_statement<'a, O: Sink>(
    alloc: Global,
    sig: &Signature,
    subjects: &Subjects,
    set: &EditSet,
    out: &mut O,
) -> Result<(), Ending<'a>>
    requires { IsSoundEditSet sig.now subjects.now set.now }
    ensures { (rest : Outcome) → GoesOn (statement_before sig.now set.now.edits
        (slice_get subjects.now set.now.subject) rest) rest (sunk O.Sink out.old out.new) result }
{
    let Some(subject) = subjects.get(set.subject as usize) else {
        unreachable!()
    };
    edit_subject(alloc, sig, subject, &set.edits, out)
}

// Makes the edits of the statements in order, each of which has its line, up to the first with which it ends.
fn edit_statements<'a, O: Sink>(
    alloc: Global,
    sig: &Signature,
    subjects: &Subjects,
    sets: &[EditSet],
    out: &mut O,
) -> Ending<'a>
    requires { AllByRecursion (IsSoundEditSet sig.now subjects.now) sets.now }
    ensures { Acts (edits_made sig.now subjects.now sets.now) (sunk O.Sink out.old out.new) result }
{
    for set in sets {
        match edit_statement(alloc, sig, subjects, set, out) {
            Ok(()) => (),
            Err(ending) => return ending,
        }
    }
    Ending::Told(Told::Done)
}

/// Makes the edits of each edit statement of the file, and prints a line for each, up to the first that would make a
/// term that is too large or too deep.
///
/// The ending is that of `edits_made` of `specs/Outcome.antt`, or want of memory, or a write that failed; a front of
/// the lines was written then.
pub fn edit_file<'a, O: Sink>(alloc: Global, file: &File, out: &mut O) -> Ending<'a>
    requires { IsSoundFile (file_tree file.now) }
    ensures { let f = file_tree file.now in
        Acts (edits_made f.sig f.subjects f.edits) (sunk O.Sink out.old out.new) result }
{
    edit_statements(alloc, &file.sig, &file.subjects, file.edits.as_slice(), out)
}
