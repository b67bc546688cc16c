//! The first rule of a file on its first subject.

ghost use Rattle.mp_pattern.specs.Planned.{IsPlanned, rule_plan};
ghost use Rattle.mp_term.specs.View.{tree};
ghost use Rattle.mp_text.specs.File.{subject_tree};
ghost use Rattle.mp_text.specs.Sound.{IsSoundSubject};
ghost use Rattle.mp_tests.specs.Matched.{IsMatched};

use crate::cursor_rows::Row;
use crate::cursors::check_row;
use crate::items::check_items;
use crate::matched::Matched;
use crate::matchers::check_matcher;
use crate::reading::file;
use mp_pattern::{PlannedRule, plan_rules};
use mp_table::Table;
use mp_term::{Memory, Signature};
use mp_text::Subject;
use std::alloc::Global;
use std::process::Abort;

/// What is wanted of the rule on the subject.
#[derive(Clone, Copy)]
pub enum Wanted<'a> {
    /// The items and the tokens of a row.
    Items(&'a Row),
    /// The items of the one-list with their least take tables, as they are written.
    LeastTables(&'a str),
    /// The ranks that each node below the root takes, item after item of a commutative matcher.
    Ranks(&'a [&'a [u32]]),
}

// Stops unless what is matched has what is wanted.
fn check_matched(rt: &impl Abort, alloc: Global, m: Matched<'_>, wanted: Wanted<'_>)
    requires { IsMatched m.sig.now (rule_plan m.planned.now) (tree m.subject.now) m.table.now }
{
    match wanted {
        Wanted::Items(row) => check_row(rt, alloc, m, row),
        Wanted::LeastTables(items) => check_items(rt, alloc, m, items),
        Wanted::Ranks(numbers) => check_matcher(rt, alloc, m, numbers),
    }
}

// Stops unless the rule has what is wanted on the subject.
fn check_subject(
    rt: &impl Abort,
    alloc: Global,
    sig: &Signature,
    planned: &PlannedRule<'_>,
    subject: &Subject,
    wanted: Wanted<'_>,
) -> Result<(), Memory>
    requires planned { IsPlanned sig.now (rule_plan planned.now) }
    requires subject { IsSoundSubject sig.now (subject_tree subject.now) }
{
    let table = Table::build(alloc, sig, &subject.term, &planned.constants)?;
    let m = Matched {
        sig,
        planned,
        name: &subject.name,
        subject: &subject.term,
        table: &table,
    };
    check_matched(rt, alloc, m, wanted);
    Ok(())
}

/// Stops unless the file's first rule has what is wanted on the first subject.
pub fn check_file(rt: &impl Abort, alloc: Global, text: &str, wanted: Wanted<'_>) {
    let file = file(rt, alloc, text);
    let rules = plan_rules(alloc, &file.sig, file.rules.as_slice()).expect(rt, "memory");
    match (rules.get(0), file.subjects.get(0)) {
        (Some(planned), Some(subject)) => {
            check_subject(rt, alloc, &file.sig, planned, subject, wanted).expect(rt, "memory");
        }
        _ => panic!(rt; "no rule or no subject: {text}"),
    }
}
