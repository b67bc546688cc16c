//! The whole command, over a shelf and two sinks.

ghost use Rattle.std.specs.Prelude.{◌≡◌, ◌⊎◌, None, IfOk, IfSome};
ghost use Rattle.std.specs.List.{Contains};
ghost use Rattle.mp_io.specs.Moments.{shelved, sunk};
ghost use Rattle.mp_command.specs.Answers.{Answers, HasCauses};
ghost use Rattle.mp_command.specs.Endings.{line_of, status_of};
ghost use Rattle.mp_command.specs.Outcome.{IsOutcomeAt};
ghost use Rattle.mp_command.specs.Run.{HasOutcome, IsReadOnce, Says, Tells, statuses, wanted_by, words_behind};
ghost use Rattle.mp_command.specs.Run.{words_of};
ghost use Rattle.mp_words.specs.Words.{request_of};

use crate::answer::answer_file;
use crate::ending::{Ending, Told, say, status};
use crate::laws::there_is_an_outcome;
use mp_io::{Failed, Shelf, Sink};
use mp_term::Memory;
use mp_words::read_words;
use std::alloc::Global;

// The program's name, and the words behind it.
fn all_words<'a>(alloc: Global, words: &'a [String]) -> Result<Vec<&'a str>, Memory>
    ensures { IfOk result (λ all. words_behind all.items ≡ words_of words.entry.now) }
{
    let mut all = Vec::new(alloc);
    all.push("matchpy")?;
    for word in words {
        all.push(word.as_str())?;
    }
    Ok(all)
}

// Does what the words behind the first one ask for.
fn answer<'a, S: Shelf, O: Sink>(
    alloc: Global,
    all: &'a [&'a str],
    shelf: &mut S,
    out: &mut O,
) -> Ending<'a>
    ensures answers { let asked_for = request_of (words_behind all.entry.now) in
        Answers (wanted_by asked_for) (λ files. IsOutcomeAt files asked_for)
        (shelved S.Shelf shelf.old shelf.new) (sunk O.Sink out.old out.new) result }
    ensures causes { let wanted = wanted_by (request_of (words_behind all.entry.now)) in
        HasCauses wanted (shelved S.Shelf shelf.old shelf.new) result }
    ensures once { let wanted = wanted_by (request_of (words_behind all.entry.now)) in
        IsReadOnce wanted (shelved S.Shelf shelf.old shelf.new) }
    ensures usage { status_of result ≡ 2 → request_of (words_behind all.entry.now) ≡ None }
    ensures no_usage { request_of (words_behind all.entry.now) ≡ None
        → (status_of result ≡ 2) ⊎ (status_of result ≡ 8) }
{
    match read_words(alloc, all) {
        Ok(Some(request)) => answer_file(alloc, request, shelf, out),
        Ok(None) => Ending::Told(Told::Usage),
        Err(Memory) => Ending::Memory,
    }
}

// Says how it ended.
fn finish<E: Sink>(err: &mut E, ending: Ending<'_>) -> u8
    ensures status { result ≡ status_of ending.entry }
    ensures says { Says (sunk E.Sink err.old err.new) (line_of ending.entry) }
{
    match say(err, &ending) {
        Ok(()) => status(&ending),
        Err(Failed) => status(&ending),
    }
}

/// The whole command: does what the words ask for, over the files of a shelf, and answers the status.
///
/// What is asked for goes to `out`, and one line on what went wrong to `err`. The statuses are 0 (done, by `match` and
/// `run` with at least one line), 1 (`match` or `run` has no line), 2 (the words make no request), 3 (the file's text
/// has a fault), 4 (a file can't be opened or read, or is too long), 5 (`out` failed), 6 (rewriting a subject reached
/// the limit of steps, and more could be made), 7 (a step or an edit would make a term that is too large or too deep),
/// 8 (want of memory), 9 (the token of `--resume` is misspelt, or that of no match), 10 (the engine `net` was asked
/// for, and a rule isn't syntactic), 11 (`rewrite` was asked for, and a rule has no template) and 12 (the text of a
/// program file has a fault). The definition is `IsOutcome` of `specs/Outcome.antt`, and `specs/Run.antt` says how a
/// run meets it where memory or a device fails. The memory of the file that was read, and of the tree of rules that the
/// engine `many` builds, isn't freed here: it goes back to the system with the process.
pub fn run<S: Shelf, O: Sink, E: Sink>(
    alloc: Global,
    words: &[String],
    shelf: &mut S,
    out: &mut O,
    err: &mut E,
) -> u8
    // The status is one of those that are told.
    ensures statuses { Contains statuses result }

    // It is 2 exactly where the words make no request, but for want of memory, which is 8.
    ensures usage { result ≡ 2 → request_of (words_of words.now) ≡ None }
    ensures no_usage { request_of (words_of words.now) ≡ None → (result ≡ 2) ⊎ (result ≡ 8) }

    // Where the shelf tells its files, the words have an outcome over them, and all that is written and answered is as
    // it says, but for memory and faults.
    ensures outcome { IfSome (S.files shelf.old) (λ files. HasOutcome (words_of words.now) files
        (shelved S.Shelf shelf.old shelf.new) (sunk O.Sink out.old out.new) (sunk E.Sink err.old err.new) result) }

    // Where it doesn't tell them, statuses 4 and 5 still have their causes, 2, 4, 5 and 8 their lines, and 0 and 1
    // none.
    ensures tells { Tells (words_of words.now)
        (shelved S.Shelf shelf.old shelf.new) (sunk O.Sink out.old out.new) (sunk E.Sink err.old err.new) result }

    // No more files are started than the request names, and they are read in so many calls at most.
    ensures once { IsReadOnce (wanted_by (request_of (words_of words.now))) (shelved S.Shelf shelf.old shelf.new) }
{
    there_is_an_outcome();
    match all_words(alloc, words) {
        Ok(all) => finish(err, answer(alloc, &all, shelf, out)),
        Err(Memory) => finish(err, Ending::Memory),
    }
}
