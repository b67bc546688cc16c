//! Reads subjects without a tree of their expressions.

ghost use Rattle.std.specs.Prelude.{◌≡◌, ◌<◌, ◌++◌, ◌∷◌, ℕ, List, [], false, length, IfOk, IfSome, IfNone};
ghost use Rattle.std.specs.Prelude.{IsTrue, IsFalse};
ghost use Rattle.mp_term.specs.Signature.{Sig};
ghost use Rattle.mp_term.specs.View.{tree};
ghost use Rattle.mp_pattern.specs.declared.limits.TheConstants.{MAX_SUBJECTS};
ghost use Rattle.mp_parser.specs.Syntax as syntax;
ghost use Rattle.mp_parser.specs.Syntax.{SubjectOf};
ghost use Rattle.mp_parser.specs.Parsing.{ahead};
ghost use Rattle.mp_parser.specs.View.{spot_of};
ghost use Rattle.mp_build.specs.Answers.{Gives};
ghost use Rattle.mp_build.specs.Build.{term_of};
ghost use Rattle.mp_build.specs.Checks.{name_faults, term_faults};
ghost use Rattle.mp_build.specs.Names.{subject_names};
ghost use Rattle.mp_text.specs.Draft.{IsDraftOf};
ghost use Rattle.mp_text.specs.InOrder.{IsDraftRead};
ghost use Rattle.mp_text.specs.ReadTerm.{IsSubjectRead};

use crate::heading::named;
use crate::reader::{Draft, add_statement_name, push_subject};
use crate::term_reader::read_term;
use mp_build::{TextError, normal_built};
use mp_parser::parser::Parser;
use mp_parser::token::Punct;
use mp_pattern::MAX_SUBJECTS;
use mp_syntax::{MAX_OPEN, Word};
use mp_term::{MAX_TERM_NODES, Memory, Signature, Term};
use std::alloc::Global;

/// Adds the subject whose statement comes next, its term in normal form, or finds the fault of its name. False says
/// nothing of the tokens; then none is passed, and the draft is as it was.
pub(crate) fn add_next_subject<'a>(
    alloc: Global,
    draft: &mut Draft<'a>,
    parser: &mut Parser<'a>,
) -> Result<bool, TextError>
    ensures added { IfOk result (λ b. IsTrue b → (bytes : List ℕ) → IsDraftRead bytes parser.old draft.old
        → IsDraftRead bytes parser.new draft.new) }
    ensures shorter { IfOk result (λ b. IsTrue b → length (ahead parser.new) < length (ahead parser.old)) }
    ensures kept { IfOk result (λ b. IsFalse b → (parser.new ≡ parser.old) × (draft.new ≡ draft.old)) }
{
    let Some((name, term)) = read_subject(alloc, &draft.file.sig, parser)? else {
        return Ok(false);
    };
    add_term(alloc, draft, name, term)?;
    Ok(true)
}

// Reads the statement of a subject, and gives its name and its term as it is written. None says nothing of the tokens,
// of which none is passed then.
fn read_subject<'a>(
    alloc: Global,
    sig: &Signature,
    parser: &mut Parser<'a>,
) -> Result<Option<(Word<'a>, Term)>, Memory>
    ensures read { IfOk result (λ o. IfSome o (λ s.
        IsSubjectRead sig.now (spot_of s.0) (tree s.1) (ahead parser.old) (ahead parser.new))) }
    ensures shorter { IfOk result (λ o. IfSome o (λ s. length (ahead parser.new) < length (ahead parser.old))) }
    ensures kept { IfOk result (λ o. IfNone o (parser.new ≡ parser.old)) }
{
    let mut reader = *parser;
    let Some(subject) = subject_at(alloc, sig, &mut reader)? else {
        return Ok(None);
    };
    *parser = reader;
    Ok(Some(subject))
}

// The same, but where the answer is None tokens may be passed.
fn subject_at<'a>(
    alloc: Global,
    sig: &Signature,
    parser: &mut Parser<'a>,
) -> Result<Option<(Word<'a>, Term)>, Memory>
    ensures read { IfOk result (λ o. IfSome o (λ s.
        IsSubjectRead sig.now (spot_of s.0) (tree s.1) (ahead parser.old) (ahead parser.new))) }
    ensures shorter { IfOk result (λ o. IfSome o (λ s. length (ahead parser.new) < length (ahead parser.old))) }
{
    let Some(name) = named(parser, b"subject") else {
        return Ok(None);
    };
    let mut left = MAX_TERM_NODES as usize;
    let Some(term) = read_term(alloc, sig, parser, MAX_OPEN, &mut left)? else {
        return Ok(None);
    };
    let Ok(()) = parser.expect(Punct::Semicolon) else {
        return Ok(None);
    };
    Ok(Some((name, term)))
}

// Adds a subject of this term, which is put in normal form, or finds the fault of its name.
fn add_term<'a>(
    alloc: Global,
    draft: &mut Draft<'a>,
    name: Word<'a>,
    term: Term,
) -> Result<(), TextError>
    requires { (e : syntax.Tree) × (term_faults draft.old.file.sig e ≡ [])
        × (tree term ≡ term_of draft.old.file.sig e) }
    ensures { (sig : Sig) (earlier : List syntax.Statement) (e : syntax.Tree) → IsDraftOf sig earlier draft.old
        → tree term ≡ term_of sig e
        → Gives result (name_faults MAX_SUBJECTS (subject_names earlier) false (spot_of name.entry))
        (λ _. IsDraftOf sig (earlier ++ SubjectOf (spot_of name.entry) e ∷ []) draft.new) }
{
    add_statement_name(&mut draft.subject_names, name, MAX_SUBJECTS, false)?;
    let term = normal_built(alloc, &draft.file.sig, term)?;
    push_subject(alloc, &mut draft.file.subjects, name, term)?;
    Ok(())
}
