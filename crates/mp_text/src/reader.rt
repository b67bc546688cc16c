//! Reads rule files.

ghost use Rattle.std.specs.Prelude.{◌≡◌, ◌≤◌, ◌<◌, ◌-◌, ◌^◌, ◌↔◌, ℕ, List, ◌++◌, ◌∷◌, [], length, map, Some, IfOk};
ghost use Rattle.std.specs.Prelude.{option_map};
ghost use Rattle.mp_term.specs.Signature.{Sig};
ghost use Rattle.mp_term.specs.View.{tree};
ghost use Rattle.mp_parser.specs.Syntax as syntax;
ghost use Rattle.mp_parser.specs.Syntax.{RuleOf, SubjectOf, EditOf};
ghost use Rattle.mp_parser.specs.View.{spot_of, expr_tree, arrow_tree, if_tree, change_tree, statement_tree};
ghost use Rattle.mp_build.specs.declared.fault.TextFault as plain;
ghost use Rattle.mp_build.specs.Answers.{Gives};
ghost use Rattle.mp_text.specs.FileBuild.{file_tree_of};
ghost use Rattle.mp_text.specs.Draft.{IsDraftOf};
ghost use Rattle.mp_build.specs.Build.{sig_of};
ghost use Rattle.mp_build.specs.Checks.{faults_by, name_faults};
ghost use Rattle.mp_build.specs.Edits.{edit_of};
ghost use Rattle.mp_text.specs.FileChecks.{statement_faults, faults};
ghost use Rattle.mp_text.specs.EditStatements.{edit_faults_on, edit_statement_faults};
ghost use Rattle.mp_text.specs.File.{FileTree, file_tree, subject_tree};
ghost use Rattle.mp_text.specs.Sound.{IsSoundFile};
ghost use Rattle.mp_text.specs.Reading.{IsFileOf, IsFaultOf, IsFileOrMemory};
ghost use Rattle.mp_build.specs.Answers.{IfText, IsFaultOrMemory};
ghost use Rattle.mp_text.specs.Computed.{file_of, fault_of, ReadGives, IsComputed};

use crate::file::{EditSet, EditSets, File, Subject, Subjects};
use crate::in_order::read_in_order;
use crate::names::TextNames;
use crate::rule::{build_rule, is_large_rule};
use bumpalo::Bump;
use mp_build::{
    TextError, TextKind, build_edits, check_edits_of, check_name, declare, error_at, is_large_edit,
    is_large_term, new_name, normal_term,
};
use mp_pattern::{MAX_EDIT_STATEMENTS, MAX_RULES, MAX_SUBJECTS, Rules};
use mp_syntax::{Change, Condition, Expr, Statement, Word, read_statements};
use mp_term::{Edits, MAX_EDITS, Signature, Term};
use std::alloc::Global;

/// Reads a rule file: the operations, kinds, rules, subjects and edits that its statements stand for.
///
/// The text is a file exactly where its tokens spell statements (`IsSyntaxOf` of mp_parser's `specs/Syntax.antt`) in
/// which no check finds a fault (`faults` of `specs/FileChecks.antt`); the file is then `file_tree_of` of
/// `specs/FileBuild.antt`, its terms and patterns in normal form. It has fewer than 4,294,967,295 bytes.
///
/// A file that is read is sound, by `IsSoundFile` of `specs/Sound.antt`: its signature, its rules, its subjects, whose
/// names are distinct, and its edit statements, which can be made but for the size of what they give.
///
/// - `Text`: the text has this fault, by `IsFaultOf` of `specs/Reading.antt`, with its line and column, from 1: the
///   first that its tokens or the grammar have (`IsFirstFault` of mp_syntax's `specs/FirstFault.antt`), and where it is
///   statements, the first that the checks find.
/// - `Memory`: memory ran out.
///
/// After an error nothing is kept.
pub fn read_file(alloc: Global, bytes: &[u8]) -> Result<File, TextError>
    requires { length bytes.now < 2 ^ 32 - 1 }

    // What is answered is the file of the bytes.
    ensures found { IfOk result (λ f. IsFileOf bytes.now (file_tree f)) }
    // The file of the bytes is answered, unless memory runs out.
    ensures only { (f : FileTree) → IsFileOf bytes.now f → IsFileOrMemory result (λ g. g ≡ f) }
    // The fault that is answered is the fault of the bytes.
    ensures fault { IfText result (λ t. IsFaultOf bytes.now t) }
    // The fault of the bytes is answered, unless memory runs out.
    ensures only_fault { (t : plain.TextFault) → IsFaultOf bytes.now t → IsFaultOrMemory result (λ u. u ≡ t) }
    // The answer is the one that is computed from the bytes.
    ensures computed { IsComputed result (file_of bytes.now) (fault_of bytes.now) }
    // What holds of every file that is read.
    ensures sound { IfOk result (λ f. IsSoundFile (file_tree f)) }
{
    read(alloc, bytes)
}

/// Law: the bytes are a file exactly where the file is computed from them, so they are at most one.
///
/// It does nothing when it runs.
pub fn file_is_computed()
    ensures { (bytes : List ℕ) (f : FileTree) → IsFileOf bytes f ↔ (file_of bytes ≡ Some f) }
{}

/// Law: the bytes have a fault exactly where it is computed from them, so they have at most one.
///
/// It does nothing when it runs.
pub fn fault_is_computed()
    ensures { (bytes : List ℕ) (t : plain.TextFault) → IsFaultOf bytes t ↔ (fault_of bytes ≡ Some t) }
{}

/// Reads a rule file, or finds its fault.
fn read(alloc: Global, bytes: &[u8]) -> Result<File, TextError>
    requires { length bytes.now < 2 ^ 32 - 1 }
    ensures { ReadGives bytes.now result }
{
    if let Some(file) = read_in_order(alloc, bytes)? {
        return Ok(file);
    }
    let bump = Bump::new(alloc);
    let statements = read_statements(alloc, &bump, bytes)?;
    build_file(alloc, &statements)
}

/// A file while it is built, with the names of its rules and those of its subjects: `IsDraftOf` of `specs/Draft.antt`.
#[derive(Drop)]
pub(crate) struct Draft<'a> {
    pub(crate) file: File,
    pub(crate) rule_names: TextNames<'a>,
    pub(crate) subject_names: TextNames<'a>,
}

/// Adds the name of a statement behind these, or finds its fault: it is one of them, there are as many as there may be,
/// or the statement is too large.
pub(crate) fn add_statement_name<'a>(
    names: &mut TextNames<'a>,
    name: Word<'a>,
    most: usize,
    is_large: bool,
) -> Result<(), TextError>
    ensures { Gives result (name_faults most names.old is_large (spot_of name.entry))
        (λ _. names.new ≡ names.old ++ name.entry.text.now ∷ []) }
{
    let count = names.len();
    let is_new = names.insert(name.text)?;
    check_name(name, !is_new, count, most, is_large)?;
    Ok(())
}

/// Adds a rule, with its pattern in normal form.
fn add_rule<'a>(
    alloc: Global,
    draft: &mut Draft<'a>,
    name: Word<'a>,
    pattern: &Expr<'a>,
    template: &Option<&Expr<'a>>,
    condition: &Option<Condition<'_>>,
) -> Result<(), TextError>
    ensures { (sig : Sig) (earlier : List syntax.Statement) → IsDraftOf sig earlier draft.old
        → Gives result
        (statement_faults sig earlier (RuleOf (spot_of name.entry) (expr_tree pattern.now) (arrow_tree template.now)
        (if_tree condition.now)))
        (λ _. IsDraftOf sig
        (earlier ++ RuleOf (spot_of name.entry) (expr_tree pattern.now) (arrow_tree template.now)
        (if_tree condition.now) ∷ []) draft.new) }
{
    let is_large = is_large_rule(alloc, pattern, template, condition)?;
    add_statement_name(&mut draft.rule_names, name, MAX_RULES, is_large)?;
    let rule = build_rule(alloc, &draft.file.sig, name, pattern, template, condition)?;
    draft.file.rules.push(rule)?;
    Ok(())
}

/// Adds a subject of this name and this term behind the others.
pub(crate) fn push_subject(
    alloc: Global,
    subjects: &mut Subjects,
    name: Word<'_>,
    term: Term,
) -> Result<(), TextError>
    ensures { Gives result []
        (λ _. subjects.new ≡ subjects.old ++ record { name = name.entry.text.now; term = tree term } ∷ []) }
{
    let name = new_name(alloc, name)?;
    subjects.push(Subject { name, term })?;
    Ok(())
}

/// Adds a subject, with its term in normal form.
fn add_subject<'a>(
    alloc: Global,
    draft: &mut Draft<'a>,
    name: Word<'a>,
    term: &Expr<'_>,
) -> Result<(), TextError>
    ensures { (sig : Sig) (earlier : List syntax.Statement) → IsDraftOf sig earlier draft.old
        → Gives result (statement_faults sig earlier (SubjectOf (spot_of name.entry) (expr_tree term.now)))
        (λ _. IsDraftOf sig (earlier ++ SubjectOf (spot_of name.entry) (expr_tree term.now) ∷ []) draft.new) }
{
    let is_large = is_large_term(term);
    add_statement_name(&mut draft.subject_names, name, MAX_SUBJECTS, is_large)?;
    let term = normal_term(alloc, &draft.file.sig, term)?;
    push_subject(alloc, &mut draft.file.subjects, name, term)?;
    Ok(())
}

/// Checks that the edits, which are those of the changes, can be made on a subject, where there is one.
fn check_edits_on(
    sig: &Signature,
    subject: Option<&Subject>,
    changes: &[Change<'_>],
    edits: &Edits,
) -> Result<(), TextError>
    requires { length edits.now ≤ MAX_EDITS }
    ensures { edits.now ≡ map (edit_of sig.now) (map change_tree changes.now)
        → Gives result
        (edit_faults_on sig.now (map change_tree changes.now) (option_map (λ s. subject_tree s.now) subject.entry))
        (λ _. Unit {0}) }
{
    match subject {
        None => Ok(()),
        Some(subject) => check_edits_of(sig, &subject.term, changes, edits),
    }
}

/// Adds the edits of a subject, with their new terms in normal form.
fn add_edit(
    alloc: Global,
    draft: &mut Draft<'_>,
    name: Word<'_>,
    changes: &[Change<'_>],
) -> Result<(), TextError>
    requires { length draft.old.subject_names ≤ MAX_SUBJECTS }
    ensures { (sig : Sig) (earlier : List syntax.Statement) → IsDraftOf sig earlier draft.old
        → Gives result (edit_statement_faults sig earlier (spot_of name.entry) (map change_tree changes.now))
        (λ _. IsDraftOf sig (earlier ++ EditOf (spot_of name.entry) (map change_tree changes.now) ∷ []) draft.new) }
{
    if draft.file.edits.len() >= MAX_EDIT_STATEMENTS || is_large_edit(changes) {
        return Err(error_at(TextKind::TooMany, name.place));
    }
    let Some(number) = draft.subject_names.index_of(name.text) else {
        return Err(error_at(TextKind::UnknownSubject, name.place));
    };
    let edits = build_edits(alloc, &draft.file.sig, changes)?;
    check_edits_on(
        &draft.file.sig,
        draft.file.subjects.get(number),
        changes,
        &edits,
    )?;
    draft.file.edits.push(EditSet {
        subject: number as u32,
        edits,
    })?;
    Ok(())
}

/// Adds what a statement gives to the file.
pub(crate) fn add_statement<'a>(
    alloc: Global,
    draft: &mut Draft<'a>,
    statement: &Statement<'a>,
) -> Result<(), TextError>
    requires { length draft.old.subject_names ≤ MAX_SUBJECTS }
    ensures { (sig : Sig) (earlier : List syntax.Statement) → IsDraftOf sig earlier draft.old
        → Gives result (statement_faults sig earlier (statement_tree statement.now))
        (λ _. IsDraftOf sig (earlier ++ statement_tree statement.now ∷ []) draft.new) }
{
    match statement {
        Statement::Op { .. } => Ok(()),
        Statement::Kind { .. } => Ok(()),
        Statement::Rule {
            name,
            pattern,
            template,
            condition,
        } => add_rule(alloc, draft, *name, *pattern, template, condition),
        Statement::Subject { name, term } => add_subject(alloc, draft, *name, term),
        Statement::Edit { subject, changes } => add_edit(alloc, draft, *subject, changes),
    }
}

// The empty list of rules, with room for so many at once where memory has it.
fn rules_with_room(alloc: Global, room: usize) -> Rules
    ensures { result ≡ [] }
{
    match Rules::with_room(alloc, room) {
        Ok(rules) => rules,
        Err(_) => Rules::new(alloc),
    }
}

/// The draft of no statement over the signature. It has room at once for so many rules and subjects, but for no more
/// than there may be, and only where memory has it.
fn empty_draft<'a>(alloc: Global, sig: Signature, room: usize) -> Draft<'a>
    ensures { IsDraftOf sig [] result }
{
    let rules = room.min(MAX_RULES);
    let subjects = room.min(MAX_SUBJECTS);
    let file = File {
        sig,
        rules: rules_with_room(alloc, rules),
        subjects: Subjects::with_room(alloc, subjects),
        edits: EditSets::new(alloc),
    };
    Draft {
        file,
        rule_names: TextNames::with_room(alloc, rules),
        subject_names: TextNames::with_room(alloc, subjects),
    }
}

/// Adds what the statements give to the draft of none, or finds the first fault that is no declaration's.
fn add_statements<'a>(
    alloc: Global,
    draft: &mut Draft<'a>,
    statements: &[Statement<'a>],
) -> Result<(), TextError>
    requires { IsDraftOf draft.old.file.sig [] draft.old }
    ensures { Gives result (faults_by (statement_faults draft.old.file.sig) [] (map statement_tree statements.now))
        (λ _. IsDraftOf draft.old.file.sig (map statement_tree statements.now) draft.new) }
{
    for statement in statements {
        add_statement(alloc, draft, statement)?;
    }
    Ok(())
}

/// The draft of the statements over the signature that they declare, or their first fault. It has room at once for so
/// many rules and subjects, but for no more than there may be, and only where memory has it.
pub(crate) fn draft_of<'a>(
    alloc: Global,
    statements: &[Statement<'a>],
    room: usize,
) -> Result<Draft<'a>, TextError>
    ensures { Gives result (faults (map statement_tree statements.now))
        (λ d. IsDraftOf (sig_of (map statement_tree statements.now)) (map statement_tree statements.now) d) }
{
    let sig = declare(alloc, statements)?;
    let mut draft = empty_draft(alloc, sig, room);
    add_statements(alloc, &mut draft, statements).and(Ok(draft))
}

/// The file of a draft, whose names are let go.
pub(crate) fn finished(draft: Draft<'_>) -> File
    ensures { result ≡ draft.entry.file }
{
    draft.file
}

/// The file that the statements stand for, or their first fault.
fn build_file(alloc: Global, statements: &[Statement<'_>]) -> Result<File, TextError>
    ensures { Gives result (faults (map statement_tree statements.now))
        (λ f. file_tree f ≡ file_tree_of (map statement_tree statements.now)) }
{
    let draft = draft_of(alloc, statements, statements.len())?;
    Ok(finished(draft))
}
