//! The matches of rules on subjects, one after the other.

ghost use Rattle.std.specs.Prelude.{◌≡◌, ◌∷◌, IsSome, List, Some, map};
ghost use Rattle.std.specs.List.{AllByRecursion};
ghost use Rattle.mp_io.specs.Moments.{sunk};
ghost use Rattle.mp_pattern.specs.RuleView.{rule_tree};
ghost use Rattle.mp_pattern.specs.Planned.{IsPlanned, planned_rule, rule_plan};
ghost use Rattle.mp_text.specs.File.{subject_tree};
ghost use Rattle.mp_text.specs.Sound.{IsSoundSubject};
ghost use Rattle.mp_matches.specs.Computed.{all_matches, match_of, matches_of, rule_matches, subject_matches};
ghost use Rattle.mp_theory.specs.OneList.{Item};
ghost use Rattle.mp_matches.specs.Match.{GoesOver, Match};
ghost use Rattle.mp_matches.specs.Left.{IsWritable, left_of, printed};
ghost use Rattle.mp_matches.specs.Printed.{PrintsMatches};
ghost use Rattle.mp_matches.specs.Put.{PutsMatches, PutsOne};

use crate::left::Left;
use crate::line::{put_match, put_more};
use crate::stop::Stop;
use mp_cursor::{Cursor, may_fit, room_for};
use mp_io::{Sink, Writer};
use mp_pattern::{PlannedRule, Rule};
use mp_table::Table;
use mp_term::Signature;
use mp_text::Subject;
use std::alloc::Global;

// Puts the line of the match at which the cursor stands, or the one that more follow where no more may be printed.
fn put_next<O: Sink>(
    alloc: Global,
    subject: &Subject,
    rule: &Rule,
    cursor: &Cursor<'_>,
    left: &mut Left,
    out: &mut Writer<'_, O>,
) -> Result<(), Stop>
    requires item { IsSome cursor.now.item }
    requires over { GoesOver (subject_tree subject.now) (rule_tree rule.now) cursor.now }
    requires writable { IsWritable left.old }
    ensures puts { (i : Item) (ms : List Match) → cursor.now.item ≡ Some i → PutsOne O.Sink
        (printed cursor.now.sig (left_of left.old) (match_of (subject_tree subject.now) (rule_tree rule.now) i ∷ ms))
        (printed cursor.now.sig (left_of left.new) ms) out.old out.new (left_of left.new) result }
    ensures writable { IsWritable left.new }
{
    match left {
        Left::All => put_match(subject, rule, cursor, out),
        Left::Lines(0) => {
            let token = cursor.token(alloc, &subject.name)?;
            put_match(subject, rule, cursor, out);
            *left = Left::Full(token);
        }
        Left::Lines(count) => {
            let count = *count - 1;
            put_match(subject, rule, cursor, out);
            *left = Left::Lines(count);
        }
        Left::Full(token) => {
            put_more(token, out);
            return Err(Stop::More);
        }
    }
    Ok(())
}

// Puts the lines of the matches that are still to come, and says whether there are any. It ends as soon as a write has
// failed.
fn put_to_come<O: Sink>(
    alloc: Global,
    subject: &Subject,
    rule: &Rule,
    cursor: &mut Cursor<'_>,
    left: &mut Left,
    out: &mut Writer<'_, O>,
) -> Result<bool, Stop>
    requires over { GoesOver (subject_tree subject.now) (rule_tree rule.now) cursor.old }
    requires writable { IsWritable left.old }
    ensures puts { PutsMatches O.Sink (printed cursor.old.sig (left_of left.old)
        (matches_of (subject_tree subject.now) (rule_tree rule.now) cursor.old.to_come))
        out.old out.new (left_of left.new) result }
    ensures writable { IsWritable left.new }
{
    let mut any = false;
    while cursor.next() {
        any = true;
        put_next(alloc, subject, rule, cursor, left, out)?;
        if out.has_failed() {
            return Err(Stop::CannotWrite);
        }
    }
    Ok(any)
}

// Prints the matches that are still to come, and says whether there are any.
pub(crate) fn print_to_come<O: Sink>(
    alloc: Global,
    subject: &Subject,
    rule: &Rule,
    cursor: &mut Cursor<'_>,
    left: &mut Left,
    out: &mut O,
) -> Result<bool, Stop>
    requires over { GoesOver (subject_tree subject.now) (rule_tree rule.now) cursor.old }
    requires writable { IsWritable left.old }
    ensures prints { PrintsMatches (printed cursor.old.sig (left_of left.old)
        (matches_of (subject_tree subject.now) (rule_tree rule.now) cursor.old.to_come))
        (sunk O.Sink out.old out.new) (left_of left.new) result }
    ensures writable { IsWritable left.new }
{
    let mut out = Writer::new(out);
    let told = put_to_come(alloc, subject, rule, cursor, left, &mut out);
    out.finish()?;
    told
}

// Prints the matches of one rule on one subject, and says whether there are any. It is called where the rule may fit:
// most rules don't, and the place that a cursor takes on the stack is made ready at each call.
#[inline(never)]
fn print_found<O: Sink>(
    alloc: Global,
    sig: &Signature,
    subject: &Subject,
    planned: &PlannedRule<'_>,
    left: &mut Left,
    out: &mut O,
) -> Result<bool, Stop>
    requires planned { IsPlanned sig.now (rule_plan planned.now) }
    requires subject { IsSoundSubject sig.now (subject_tree subject.now) }
    requires writable { IsWritable left.old }
    ensures prints { PrintsMatches (printed sig.now (left_of left.old)
        (rule_matches sig.now (subject_tree subject.now) (planned_rule planned.now)))
        (sunk O.Sink out.old out.new) (left_of left.new) result }
    ensures writable { IsWritable left.new }
{
    let PlannedRule {
        rule,
        plan,
        constants,
    } = planned;
    let table = Table::build(alloc, sig, &subject.term, constants)?;
    let room = room_for(alloc, plan, &table)?;
    let mut cursor = Cursor::begin(room, sig, *rule, plan, &table);
    print_to_come(alloc, subject, *rule, &mut cursor, left, out)
}

// Prints the matches of one rule on one subject, and says whether there are any.
pub(crate) fn print_rule<O: Sink>(
    alloc: Global,
    sig: &Signature,
    subject: &Subject,
    planned: &PlannedRule<'_>,
    left: &mut Left,
    out: &mut O,
) -> Result<bool, Stop>
    requires planned { IsPlanned sig.now (rule_plan planned.now) }
    requires subject { IsSoundSubject sig.now (subject_tree subject.now) }
    requires writable { IsWritable left.old }
    ensures prints { PrintsMatches (printed sig.now (left_of left.old)
        (rule_matches sig.now (subject_tree subject.now) (planned_rule planned.now)))
        (sunk O.Sink out.old out.new) (left_of left.new) result }
    ensures writable { IsWritable left.new }
{
    if !may_fit(sig, planned.plan.pattern(), &subject.term) {
        return Ok(false);
    }
    print_found(alloc, sig, subject, planned, left, out)
}

// Prints the matches of the rules on one subject, and says whether there are any.
pub(crate) fn print_rules<O: Sink>(
    alloc: Global,
    sig: &Signature,
    rules: &[PlannedRule<'_>],
    subject: &Subject,
    left: &mut Left,
    out: &mut O,
) -> Result<bool, Stop>
    requires planned { AllByRecursion (IsPlanned sig.now) (map rule_plan rules.now) }
    requires subject { IsSoundSubject sig.now (subject_tree subject.now) }
    requires writable { IsWritable left.old }
    ensures prints { PrintsMatches (printed sig.now (left_of left.old)
        (subject_matches sig.now (map planned_rule rules.now) (subject_tree subject.now)))
        (sunk O.Sink out.old out.new) (left_of left.new) result }
    ensures writable { IsWritable left.new }
{
    let mut any = false;
    for rule in rules {
        any |= print_rule(alloc, sig, subject, rule, left, out)?;
    }
    Ok(any)
}

// Prints the matches of the rules on the subjects, and says whether there are any.
pub(crate) fn print_subjects<O: Sink>(
    alloc: Global,
    sig: &Signature,
    rules: &[PlannedRule<'_>],
    subjects: &[Subject],
    left: &mut Left,
    out: &mut O,
) -> Result<bool, Stop>
    requires planned { AllByRecursion (IsPlanned sig.now) (map rule_plan rules.now) }
    requires subjects { AllByRecursion (IsSoundSubject sig.now) (map subject_tree subjects.now) }
    requires writable { IsWritable left.old }
    ensures prints { PrintsMatches (printed sig.now (left_of left.old)
        (all_matches sig.now (map planned_rule rules.now) (map subject_tree subjects.now)))
        (sunk O.Sink out.old out.new) (left_of left.new) result }
    ensures writable { IsWritable left.new }
{
    let mut any = false;
    for subject in subjects {
        any |= print_rules(alloc, sig, rules, subject, left, out)?;
    }
    Ok(any)
}
