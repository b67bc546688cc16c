//! Prints whole files.

ghost use Rattle.std.specs.Prelude.{◌≡◌, [], map, option_map, slice_get};
ghost use Rattle.std.specs.List.{flat_map};
ghost use Rattle.std.specs.Option.{option_map_or};
ghost use Rattle.mp_io.specs.Moments.{sunk};
ghost use Rattle.mp_io.specs.Printing.{Prints};
ghost use Rattle.mp_io.specs.Writing.{Puts};
ghost use Rattle.mp_pattern.specs.CondView.{cond_tree};
ghost use Rattle.mp_pattern.specs.RuleView.{rule_tree};
ghost use Rattle.mp_pattern.specs.TemplateView.{template_tree};
ghost use Rattle.mp_text.specs.File.{subject_tree, file_tree};
ghost use Rattle.mp_text.specs.PrintedFile.{result_text, ending_text, rule_text, subject_text, edit_set_text};
ghost use Rattle.mp_text.specs.PrintedFile.{file_text};

use crate::file::{EditSet, File, Subject, Subjects};
use mp_io::{Failed, Sink, Writer};
use mp_pattern::{Cond, Rule, Template};
use mp_print::{put_cond, put_edits, put_head, put_pattern, put_signature, put_template, put_term};
use mp_term::Signature;

/// Appends the text of a file to the sink, one statement a line: the operations, the declared kinds, the rules, the
/// subjects and the edit statements, each in their order. It is `file_text` of `specs/PrintedFile.antt`. It takes no
/// memory.
///
/// An operation that the signature doesn't hold has no text; a kind that it doesn't hold and a subject that the file
/// doesn't have, to which an edit statement belongs, have no name.
///
/// `Failed`: the sink's count of faults rose, and a front of the text was appended.
pub fn write_file<K: Sink>(file: &File, sink: &mut K) -> Result<(), Failed>
    ensures { Prints (sunk K.Sink sink.old sink.new) (file_text (file_tree file.now)) result }
{
    let mut out = Writer::new(sink);
    put_signature(&file.sig, &mut out);
    put_rules(&file.sig, file.rules.as_slice(), &mut out);
    put_subjects(&file.sig, file.subjects.as_slice(), &mut out);
    put_edit_sets(&file.sig, &file.subjects, file.edits.as_slice(), &mut out);
    out.finish()
}

/// Puts the rules.
fn put_rules<K: Sink>(sig: &Signature, rules: &[Rule], out: &mut Writer<'_, K>)
    ensures { Puts K.Sink out.old out.new (flat_map (rule_text sig.now) (map rule_tree rules.now)) }
{
    for rule in rules {
        put_rule(sig, rule, out);
    }
}

/// Puts a rule, a line.
fn put_rule<K: Sink>(sig: &Signature, rule: &Rule, out: &mut Writer<'_, K>)
    ensures { Puts K.Sink out.old out.new (rule_text sig.now (rule_tree rule.now)) }
{
    put_head(b"rule", rule.name.bytes(), out);
    put_pattern(sig, &rule.pattern, out);
    put_result(sig, &rule.template, out);
    put_ending(sig, &rule.condition, out);
    out.flush();
}

/// Puts what stands behind the pattern of a rule: an arrow and its template, where there is one.
fn put_result<K: Sink>(sig: &Signature, template: &Option<Template>, out: &mut Writer<'_, K>)
    ensures { Puts K.Sink out.old out.new (result_text sig.now (option_map template_tree template.now)) }
{
    if let Some(template) = template {
        out.put(b" -> ");
        put_template(sig, template, out);
    }
}

/// Puts how the statement of a rule ends: with its condition, where there is one.
fn put_ending<K: Sink>(sig: &Signature, condition: &Option<Cond>, out: &mut Writer<'_, K>)
    ensures { Puts K.Sink out.old out.new (ending_text sig.now (option_map cond_tree condition.now)) }
{
    if let Some(condition) = condition {
        out.put(b" if ");
        put_cond(sig, condition, out);
    }
    out.put(b";\n");
}

/// Puts the subjects.
fn put_subjects<K: Sink>(sig: &Signature, subjects: &[Subject], out: &mut Writer<'_, K>)
    ensures { Puts K.Sink out.old out.new (flat_map (subject_text sig.now) (map subject_tree subjects.now)) }
{
    for subject in subjects {
        put_subject(sig, subject, out);
    }
}

/// Puts a subject, a line.
fn put_subject<K: Sink>(sig: &Signature, subject: &Subject, out: &mut Writer<'_, K>)
    ensures { Puts K.Sink out.old out.new (subject_text sig.now (subject_tree subject.now)) }
{
    put_head(b"subject", subject.name.bytes(), out);
    put_term(sig, &subject.term, out);
    out.put(b";\n");
    out.flush();
}

/// Puts the edit statements of a file with these subjects.
fn put_edit_sets<K: Sink>(
    sig: &Signature,
    subjects: &Subjects,
    sets: &[EditSet],
    out: &mut Writer<'_, K>,
)
    ensures { Puts K.Sink out.old out.new (flat_map (edit_set_text sig.now subjects.now) sets.now) }
{
    for set in sets {
        put_edit_set(sig, subjects, set, out);
    }
}

/// Puts an edit statement, a line.
fn put_edit_set<K: Sink>(
    sig: &Signature,
    subjects: &Subjects,
    set: &EditSet,
    out: &mut Writer<'_, K>,
)
    ensures { Puts K.Sink out.old out.new (edit_set_text sig.now subjects.now set.now) }
{
    put_head(b"edit", subject_name(subjects, set.subject), out);
    put_edits(sig, &set.edits, out);
    out.put(b";\n");
    out.flush();
}

/// The name of the subject of a number, and nothing where there is none.
fn subject_name(subjects: &Subjects, number: u32) -> &[u8]
    ensures { result.now ≡ option_map_or (λ s. s.name) (slice_get subjects.now number) [] }
{
    match subjects.get(number as usize) {
        Some(subject) => subject.name.bytes(),
        None => b"",
    }
}
