//! The matches of a file, listed.

ghost use Rattle.std.specs.Prelude.{◌≡◌, ℕ, List, Option, map, option_map, Some, Err};
ghost use Rattle.std.specs.List.{AllByRecursion};
ghost use Rattle.mp_io.specs.Moments.{Sunk, sunk};
ghost use Rattle.mp_term.specs.Signature.{Sig};
ghost use Rattle.mp_pattern.specs.Planned.{IsPlanned, planned_rule, rule_plan};
ghost use Rattle.mp_text.specs.File.{file_tree};
ghost use Rattle.mp_text.specs.Sound.{IsSoundFile};
ghost use Rattle.mp_matches.specs.Computed.{listed};
ghost use Rattle.mp_matches.specs.Left as lines_left;
ghost use Rattle.mp_matches.specs.Left.{IsWritable, left_at_first, left_of, printed};
ghost use Rattle.mp_matches.specs.Listed.{lines};
ghost use Rattle.mp_matches.specs.Match.{Match};
ghost use Rattle.mp_matches.specs.Printed.{Lists, PrintsMatches};
ghost use Rattle.mp_matches.specs.declared.fault.ListFault.TheVariants as fault;
ghost use Rattle.mp_matches.specs.declared.stop.Stop.TheVariants as stop;

use crate::fault::ListFault;
use crate::left::Left;
use crate::matches::print_subjects;
use crate::resume::resume_subjects;
use crate::stop::Stop;
use mp_io::Sink;
use mp_pattern::{PlannedRule, plan_rules};
use mp_term::Memory;
use mp_text::File;
use mp_token::{TokenFault, read_token};
use std::alloc::Global;

// What is answered where all matches are printed that may be, or printing stopped.
fn answer(told: Result<bool, Stop>) -> Result<bool, ListFault>
    ensures lists { (sig : Sig) (before after : lines_left.Left) (ms : List Match) (out : Sunk) →
        PrintsMatches (printed sig before ms) out after told →
        Lists (lines (printed sig before ms).0) out result }
    ensures memory { told ≡ Err stop.Memory → result ≡ Err fault.Memory }
{
    match told {
        Ok(any) => Ok(any),
        Err(Stop::More) => Ok(true),
        Err(Stop::CannotWrite) => Err(ListFault::CannotWrite),
        Err(Stop::Memory) => Err(ListFault::Memory),
    }
}

// Prints the matches behind the one of the token.
fn list_behind<O: Sink>(
    alloc: Global,
    file: &File,
    rules: &[PlannedRule<'_>],
    text: &str,
    left: &mut Left,
    out: &mut O,
) -> Result<bool, ListFault>
    requires file { IsSoundFile (file_tree file.now) }
    requires rules { map planned_rule rules.now ≡ (file_tree file.now).rules }
    requires planned { AllByRecursion (IsPlanned (file_tree file.now).sig) (map rule_plan rules.now) }
    requires writable { IsWritable left.old }
    ensures { (limit : Option ℕ) → left_of left.old ≡ left_at_first limit →
        Lists (listed (file_tree file.now) (Some text.now) limit) (sunk O.Sink out.old out.new) result }
{
    let token = match read_token(alloc, text.as_bytes()) {
        Ok(token) => token,
        Err(TokenFault::Spelling { at }) => return Err(ListFault::Spelling { at }),
        Err(TokenFault::Memory) => return Err(ListFault::Memory),
    };
    let subjects = file.subjects.as_slice();
    match resume_subjects(alloc, &file.sig, rules, subjects, &token, left, out) {
        Ok(Some(any)) => Ok(any),
        Ok(None) => Err(ListFault::NotAnItem),
        Err(stop) => answer(Err(stop)),
    }
}

/// Prints a line for each match of the file, in order, and says whether there are any: `IsListed` of
/// `specs/Listed.antt`. The file must be sound (`IsSoundFile` of mp_text's `specs/Sound.antt`), as every file that
/// `read_file` gives.
///
/// Subjects come in file order, for each of them the rules in file order, and for each rule the substitutions in the
/// order of their take tables, the least of each (`IsOneList` of mp_pattern's `specs/Lists.antt`). At most `limit`
/// lines are printed, where there is a limit and it isn't 0; where more matches follow, a last line `more TOKEN` has
/// the token of the last one. Where a token is given, the matches behind the one of the token are listed.
///
/// `Spelling`: the text spells no token. `NotAnItem`: it is a token, but that of no match. Nothing is written then.
/// `Memory`: memory ran out. `CannotWrite`: a write failed. A front of the lines is written then.
// Lines are written in blocks of up to 4,096 bytes, each as soon as it is full, and at the end of each rule's matches
// on a subject. The matches before that of a token aren't looked for.
pub fn list_matches<O: Sink>(
    alloc: Global,
    file: &File,
    limit: Option<u32>,
    resume: Option<&str>,
    out: &mut O,
) -> Result<bool, ListFault>
    requires { IsSoundFile (file_tree file.now) }
    ensures { Lists (listed (file_tree file.now) (option_map (λ t. t.now) resume.entry) limit)
        (sunk O.Sink out.old out.new) result }
{
    let rules = match plan_rules(alloc, &file.sig, file.rules.as_slice()) {
        Ok(rules) => rules,
        Err(Memory) => return Err(ListFault::Memory),
    };
    let mut left = Left::new(limit);
    match resume {
        Some(text) => list_behind(alloc, file, &rules, text, &mut left, out),
        None => {
            let subjects = file.subjects.as_slice();
            answer(print_subjects(alloc, &file.sig, &rules, subjects, &mut left, out))
        }
    }
}
