//! The action `rewrite`: the subjects of a file, rewritten by its rules, a line each.

ghost use Rattle.std.specs.Prelude.{◌≡◌, map, option_map};
ghost use Rattle.std.specs.List.{AllByRecursion};
ghost use Rattle.mp_io.specs.Moments.{sunk};
ghost use Rattle.mp_io.specs.Printing.{Prints};
ghost use Rattle.mp_term.specs.View.{tree};
ghost use Rattle.mp_pattern.specs.RuleView.{rule_tree};
ghost use Rattle.mp_rewrite.specs.Rewritable.{AreRewriteRules, IsRewritable};
ghost use Rattle.mp_text.specs.File.{file_tree, subject_tree};
ghost use Rattle.mp_text.specs.Sound.{IsSoundFile};
ghost use Rattle.mp_rewrite.specs.Answers.{rewriting_of};
ghost use Rattle.mp_rewrite.specs.Computed.{rewriting};
ghost use Rattle.mp_command.specs.Answers.{Acts, GoesOn};
ghost use Rattle.mp_command.specs.Computed.{over_templates, rewritten};
ghost use Rattle.mp_command.specs.Outcome.{Outcome, first_without_template, rewritten_before, rewritten_line};

use crate::ending::{Ending, Told};
use itoa::Buffer;
use mp_io::{Failed, Sink, Writer};
use mp_pattern::{Rule, Rules};
use mp_print::put_term;
use mp_rewrite::{RewriteFault, Rewritten, replace_all};
use mp_term::{Memory, Name, Signature};
use mp_text::{File, Subject};
use std::alloc::Global;

// The first rule that has no template.
fn first_without_template(rules: &[Rule]) -> Option<&Rule>
    ensures { option_map (λ r. rule_tree r.now) result ≡ first_without_template (map rule_tree rules.now) }
{
    for rule in rules {
        if rule.template.is_none() {
            return Some(rule);
        }
    }
    None
}

// Writes the line of a subject after rewriting.
fn write_rewritten<O: Sink>(
    sig: &Signature,
    name: &Name,
    rewritten: &Rewritten,
    out: &mut O,
) -> Result<(), Failed>
    ensures { Prints (sunk O.Sink out.old out.new)
        (rewritten_line sig.now name.now (tree rewritten.now.term) rewritten.now.turns) result }
{
    let mut turns = Buffer::new();
    let turns = turns.format(rewritten.turns);
    let mut out = Writer::new(out);
    out.put_all(&[name.bytes(), b": "]);
    put_term(sig, &rewritten.term, &mut out);
    out.put_all(&[b" after ", turns.as_bytes(), b"\n"]);
    out.finish()
}

// Writes the line of a subject after rewriting; it goes on, or ends so. What the subjects behind it come to is `rest`.
fn finish_subject<'a, O: Sink>(
    alloc: Global,
    sig: &Signature,
    name: &Name,
    rewritten: &Rewritten,
    max: u64,
    out: &mut O,
) -> Result<(), Ending<'a>>
    ensures { (rest : Outcome) → GoesOn
        (rewritten_before sig.now max name.now (rewriting_of rewritten.now) rest) rest
        (sunk O.Sink out.old out.new) result }
{
    write_rewritten(sig, name, rewritten, out)?;
    if rewritten.more {
        return Err(Ending::Told(Told::TurnLimit(name.copy(alloc)?, max)));
    }
    Ok(())
}

// Rewrites one subject and writes its line; it goes on, or ends so. What the subjects behind it come to is `rest`.
fn rewrite_subject<'a, O: Sink>(
    alloc: Global,
    sig: &Signature,
    rules: &Rules,
    subject: &Subject,
    max: u64,
    out: &mut O,
) -> Result<(), Ending<'a>>
    requires rules { AreRewriteRules sig.now rules.now }
    requires term { IsRewritable sig.now (tree subject.now.term) }
    ensures { (rest : Outcome) → GoesOn (rewritten_before sig.now max subject.now.name
        (rewriting sig.now rules.now max (tree subject.now.term)) rest) rest (sunk O.Sink out.old out.new) result }
{
    let name = &subject.name;
    let rewritten = match replace_all(alloc, sig, rules, &subject.term, max) {
        Ok(rewritten) => rewritten,
        Err(RewriteFault::TooLarge { nodes, .. }) => {
            return Err(Ending::Told(Told::TooLarge(name.copy(alloc)?, nodes)));
        }
        Err(RewriteFault::TooDeep { depth, .. }) => {
            return Err(Ending::Told(Told::TooDeep(name.copy(alloc)?, depth)));
        }
        Err(RewriteFault::Memory) => return Err(Ending::Memory),
    };
    finish_subject(alloc, sig, name, &rewritten, max, out)
}

// Rewrites the subjects in order, each of which has its line, up to the first with which it ends.
fn rewrite_subjects<'a, O: Sink>(
    alloc: Global,
    sig: &Signature,
    rules: &Rules,
    subjects: &[Subject],
    max: u64,
    out: &mut O,
) -> Ending<'a>
    requires rules { AreRewriteRules sig.now rules.now }
    requires subjects { AllByRecursion (λ s. IsRewritable sig.now s.term) (map subject_tree subjects.now) }
    ensures { Acts (rewritten sig.now max rules.now (map subject_tree subjects.now))
        (sunk O.Sink out.old out.new) result }
{
    for subject in subjects {
        match rewrite_subject(alloc, sig, rules, subject, max, out) {
            Ok(()) => (),
            Err(ending) => return ending,
        }
    }
    Ending::Told(Told::Done)
}

/// Rewrites each subject of the file by its rules, in at most `max` steps, and prints a line for each, up to the first
/// that has reached the limit and could be rewritten further, or of which a step would make a term that is too large or
/// too deep. Where a rule has no template nothing is printed.
///
/// The ending is that of `rewritten` of `specs/Computed.antt` behind `over_templates`, or want of memory, or a write
/// that failed; a front of the lines was written then.
pub fn rewrite_file<'a, O: Sink>(alloc: Global, file: &File, max: u64, out: &mut O) -> Ending<'a>
    requires { IsSoundFile (file_tree file.now) }
    ensures { let f = file_tree file.now in
        Acts (over_templates (rewritten f.sig max f.rules f.subjects) (first_without_template f.rules))
        (sunk O.Sink out.old out.new) result }
{
    if let Some(rule) = first_without_template(file.rules.as_slice()) {
        return match rule.name.copy(alloc) {
            Ok(name) => Ending::Told(Told::NoTemplate(name)),
            Err(Memory) => Ending::Memory,
        };
    }
    rewrite_subjects(
        alloc,
        &file.sig,
        &file.rules,
        file.subjects.as_slice(),
        max,
        out,
    )
}
