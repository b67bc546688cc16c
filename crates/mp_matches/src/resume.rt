//! The matches behind the one of a token.

ghost use Rattle.std.specs.Prelude.{◌≡◌, map, position, true};
ghost use Rattle.std.specs.List.{AllByRecursion};
ghost use Rattle.std.specs.Str.{bytes_eq};
ghost use Rattle.mp_io.specs.Moments.{sunk};
ghost use Rattle.mp_pattern.specs.Planned.{IsPlanned, planned_rule, rule_plan};
ghost use Rattle.mp_term.specs.Names.{are_distinct};
ghost use Rattle.mp_text.specs.File.{subject_tree};
ghost use Rattle.mp_text.specs.Sound.{IsSoundSubject};
ghost use Rattle.mp_token.specs.Spelling.{IsToken};
ghost use Rattle.mp_token.specs.TokenText.{token_text};
ghost use Rattle.mp_matches.specs.Computed.{all_matches, behind_token, rule_matches, subject_matches};
ghost use Rattle.mp_matches.specs.Left.{IsWritable, left_of};
ghost use Rattle.mp_matches.specs.Printed.{PrintsBehind};

use crate::left::Left;
use crate::matches::{print_rules, print_subjects, print_to_come};
use crate::stop::Stop;
use mp_cursor::{Cursor, NotAnItem, room_for};
use mp_io::Sink;
use mp_pattern::PlannedRule;
use mp_table::Table;
use mp_term::{Name, Signature};
use mp_text::Subject;
use mp_token::Token;
use std::alloc::Global;

// Both names are the same.
fn is_same(own: &Name, name: &Name) -> bool
    ensures { result ≡ bytes_eq own.now name.now }
{
    own == name
}

// The index of the first subject of that name.
fn find_subject(subjects: &[Subject], name: &Name) -> Option<usize>
    ensures { result ≡ position (λ s. bytes_eq s.name name.now) subjects.now }
{
    subjects
        .iter()
        .position(|subject| is_same(&subject.name, name))
}

// The index of the first rule of that name.
fn find_rule(rules: &[PlannedRule<'_>], name: &Name) -> Option<usize>
    ensures { result ≡ position (λ p. bytes_eq p.rule.now.name name.now) rules.now }
{
    rules
        .iter()
        .position(|planned| is_same(&planned.rule.name, name))
}

// Prints the matches of a rule on a subject that are behind the one of the token, and says whether there are any. It is
// None where the token is that of none of them.
fn resume_rule<O: Sink>(
    alloc: Global,
    sig: &Signature,
    planned: &PlannedRule<'_>,
    subject: &Subject,
    token: &Token,
    left: &mut Left,
    out: &mut O,
) -> Result<Option<bool>, Stop>
    requires planned { IsPlanned sig.now (rule_plan planned.now) }
    requires subject { IsSoundSubject sig.now (subject_tree subject.now) }
    requires token { IsToken token.now }
    requires named { token.now.subject ≡ subject.now.name }
    requires writable { IsWritable left.old }
    ensures prints { PrintsBehind sig.now (left_of left.old) (behind_token (token_text token.now)
        (rule_matches sig.now (subject_tree subject.now) (planned_rule planned.now)))
        (sunk O.Sink out.old out.new) (left_of left.new) result }
    ensures writable { IsWritable left.new }
{
    let PlannedRule {
        rule,
        plan,
        constants,
    } = planned;
    let table = Table::build(alloc, sig, &subject.term, constants)?;
    let room = room_for(alloc, plan, &table)?;
    let mut cursor = match Cursor::resume(room, sig, *rule, plan, &table, token) {
        Ok(cursor) => cursor,
        Err(NotAnItem) => return Ok(None),
    };
    let any = print_to_come(alloc, subject, *rule, &mut cursor, left, out)?;
    Ok(Some(any))
}

// The same of all rules on a subject.
fn resume_rules<O: Sink>(
    alloc: Global,
    sig: &Signature,
    rules: &[PlannedRule<'_>],
    subject: &Subject,
    token: &Token,
    left: &mut Left,
    out: &mut O,
) -> Result<Option<bool>, Stop>
    requires planned { AllByRecursion (IsPlanned sig.now) (map rule_plan rules.now) }
    requires distinct { are_distinct (map (λ r. r.name) (map planned_rule rules.now)) ≡ true }
    requires subject { IsSoundSubject sig.now (subject_tree subject.now) }
    requires token { IsToken token.now }
    requires named { token.now.subject ≡ subject.now.name }
    requires writable { IsWritable left.old }
    ensures prints { PrintsBehind sig.now (left_of left.old) (behind_token (token_text token.now)
        (subject_matches sig.now (map planned_rule rules.now) (subject_tree subject.now)))
        (sunk O.Sink out.old out.new) (left_of left.new) result }
    ensures writable { IsWritable left.new }
{
    let Some(index) = find_rule(rules, &token.rule) else {
        return Ok(None);
    };
    let Some(any) = resume_rule(alloc, sig, &rules[index], subject, token, left, out)? else {
        return Ok(None);
    };
    let more = print_rules(alloc, sig, &rules[index + 1..], subject, left, out)?;
    Ok(Some(any | more))
}

// The same of all rules on all subjects.
pub(crate) fn resume_subjects<O: Sink>(
    alloc: Global,
    sig: &Signature,
    rules: &[PlannedRule<'_>],
    subjects: &[Subject],
    token: &Token,
    left: &mut Left,
    out: &mut O,
) -> Result<Option<bool>, Stop>
    requires planned { AllByRecursion (IsPlanned sig.now) (map rule_plan rules.now) }
    requires distinct { are_distinct (map (λ r. r.name) (map planned_rule rules.now)) ≡ true }
    requires subjects { AllByRecursion (IsSoundSubject sig.now) (map subject_tree subjects.now) }
    requires apart { are_distinct (map (λ s. s.name) (map subject_tree subjects.now)) ≡ true }
    requires token { IsToken token.now }
    requires writable { IsWritable left.old }
    ensures prints { PrintsBehind sig.now (left_of left.old) (behind_token (token_text token.now)
        (all_matches sig.now (map planned_rule rules.now) (map subject_tree subjects.now)))
        (sunk O.Sink out.old out.new) (left_of left.new) result }
    ensures writable { IsWritable left.new }
{
    let Some(index) = find_subject(subjects, &token.subject) else {
        return Ok(None);
    };
    let subject = &subjects[index];
    let Some(any) = resume_rules(alloc, sig, rules, subject, token, left, out)? else {
        return Ok(None);
    };
    let more = print_subjects(alloc, sig, rules, &subjects[index + 1..], left, out)?;
    Ok(Some(any | more))
}
