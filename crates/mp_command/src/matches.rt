//! The action `match`: the matches of a file's rules on its subjects, a line each.

ghost use Rattle.std.specs.Prelude.{◌≡◌, ◌<◌, ℕ, List, Option, Some, length, slice_get};
ghost use Rattle.mp_io.specs.Devices.{Text};
ghost use Rattle.mp_io.specs.Moments.{Sunk, sunk};
ghost use Rattle.mp_term.specs.Tree.{Tree};
ghost use Rattle.mp_pattern.specs.Admission.{Rule};
ghost use Rattle.mp_pattern.specs.Lists.{IsAllList, Pair};
ghost use Rattle.mp_text.specs.File.{file_tree};
ghost use Rattle.mp_text.specs.Sound.{IsSoundFile};
ghost use Rattle.mp_matches.specs.Listed.{Listed};
ghost use Rattle.mp_matches.specs.Printed.{Lists};
ghost use Rattle.mp_words.specs.Requests.{asked};
ghost use Rattle.mp_command.specs.Answers.{Acts};
ghost use Rattle.mp_command.specs.Computed.{matched_whole, matches_by, over_syntactic};
ghost use Rattle.mp_command.specs.Messages.{not_syntactic_line};
ghost use Rattle.mp_command.specs.Outcome.{first_not_syntactic, matched, refused};
ghost use Rattle.mp_command.specs.Programs.{IsRead};

use crate::accepted::print_rules_accepted;
use crate::ending::{Ending, Told};
use crate::many_matcher::ManyMatcher;
use crate::names::rule_names;
use crate::net_matcher::NetMatcher;
use mp_gen::{a_generated_program_has_the_items_of_the_rules, a_generated_program_is_valid};
use mp_io::Sink;
use mp_matches::{ListFault, Matcher, list_matches, list_pairs};
use mp_net::{NetFault, Nets};
use mp_pattern::Rules;
use mp_round_trip::{members_and_conditions_of_files_are_spelled, signatures_of_files_are_spelled};
use mp_term::Memory;
use mp_text::File;
use mp_words::{Engine, Request};
use std::alloc::Global;
use std::mem;

/// How it ends where matches were listed so.
pub fn ending<'a>(listed: Result<bool, ListFault>) -> Ending<'a>
    ensures { (l : Listed) (out : Sunk) → Lists l out listed → Acts (matched l) out result }
{
    match listed {
        Ok(true) => Ending::Told(Told::Done),
        Ok(false) => Ending::Told(Told::Empty),
        Err(ListFault::Spelling { at }) => Ending::Told(Told::Misspelt(at)),
        Err(ListFault::NotAnItem) => Ending::Told(Told::NoItem),
        Err(ListFault::CannotWrite) => Ending::CannotWrite,
        Err(ListFault::Memory) => Ending::Memory,
    }
}

// That the rule of the number isn't syntactic; nothing is written.
fn not_syntactic<'a>(alloc: Global, rules: &Rules, number: u32) -> Ending<'a>
    requires within { number < length rules.now }
    ensures { (rule : Rule) (text : Option Text) (faults : ℕ) → slice_get rules.now number ≡ Some rule →
        Acts (refused 10 (not_syntactic_line rule.name))
        (record { old = text; new = text; faults = faults; faults_after = faults }) result }
{
    let Some(rule) = rules.get(number as usize) else {
        unreachable!()
    };
    match rule.name.copy(alloc) {
        Ok(name) => Ending::Told(Told::NotSyntactic(name)),
        Err(Memory) => Ending::Memory,
    }
}

// Prints the pairs that the matcher finds by the file's rules.
fn print_matches<'a, M: Matcher, O: Sink>(
    alloc: Global,
    file: &File,
    matcher: &M,
    limit: Option<u32>,
    out: &mut O,
) -> Ending<'a>
    requires file { IsSoundFile (file_tree file.now) }
    requires over { M.signature matcher.now ≡ (file_tree file.now).sig }
    requires finds { (t : Tree) (ps : List Pair) → IsAllList (file_tree file.now).sig (file_tree file.now).rules t ps
        → M.finds matcher.now t ps }
    ensures { Acts (matched_whole (file_tree file.now) limit) (sunk O.Sink out.old out.new) result }
{
    match rule_names(alloc, file.rules.as_slice()) {
        Ok(names) => ending(list_pairs(alloc, file, &names, matcher, limit, out)),
        Err(Memory) => Ending::Memory,
    }
}

// Prints the pairs that a walk over all rules at once finds.
fn match_by_walk<'a, O: Sink>(
    alloc: Global,
    file: &File,
    limit: Option<u32>,
    out: &mut O,
) -> Ending<'a>
    requires { IsSoundFile (file_tree file.now) }
    ensures { Acts (matched_whole (file_tree file.now) limit) (sunk O.Sink out.old out.new) result }
{
    match ManyMatcher::build(alloc, &file.sig, &file.rules) {
        Ok(matcher) => {
            let ending = print_matches(alloc, file, &matcher, limit, out);
            // The memory of the tree of rules goes back to the system with the process too, at once.
            mem::forget(matcher);
            ending
        }
        Err(Memory) => Ending::Memory,
    }
}

// Prints the pairs that nets find; where a rule isn't syntactic nothing is printed.
fn match_by_nets<'a, O: Sink>(
    alloc: Global,
    file: &File,
    limit: Option<u32>,
    out: &mut O,
) -> Ending<'a>
    requires { IsSoundFile (file_tree file.now) }
    ensures { let f = file_tree file.now in
        Acts (over_syntactic (matched_whole f limit) (first_not_syntactic f.sig f.rules))
        (sunk O.Sink out.old out.new) result }
{
    match Nets::build(alloc, &file.sig, &file.rules) {
        Ok(nets) => print_matches(alloc, file, &NetMatcher { nets }, limit, out),
        Err(NetFault::NotSyntactic { rule }) => not_syntactic(alloc, &file.rules, rule),
        Err(NetFault::Memory) => Ending::Memory,
    }
}

// Prints the pairs that the match program of the rules accepts.
fn match_by_program<'a, O: Sink>(
    alloc: Global,
    file: &File,
    limit: Option<u32>,
    out: &mut O,
) -> Ending<'a>
    requires file { IsSoundFile (file_tree file.now) }
    requires read { IsRead (file_tree file.now) }
    ensures { Acts (matched_whole (file_tree file.now) limit) (sunk O.Sink out.old out.new) result }
{
    signatures_of_files_are_spelled();
    members_and_conditions_of_files_are_spelled();
    a_generated_program_is_valid();
    a_generated_program_has_the_items_of_the_rules();
    print_rules_accepted(alloc, file, limit, out)
}

/// Prints a line for each subject, rule and admitted substitution of the file, as the engine finds them: at most as
/// many as the request's limit, where there is one, and those behind the one of its token, where there is a token.
/// Where the engine can't match by a rule nothing is printed.
///
/// The ending is that of `matches_by` of `specs/Computed.antt`, or want of memory, or a write that failed; a front of
/// the lines was written then.
pub fn match_file<'a, O: Sink>(
    alloc: Global,
    file: &File,
    request: &Request<'_>,
    out: &mut O,
) -> Ending<'a>
    requires file { IsSoundFile (file_tree file.now) }
    requires read { IsRead (file_tree file.now) }
    ensures { Acts (matches_by request.now.engine (asked request.now) (file_tree file.now))
        (sunk O.Sink out.old out.new) result }
{
    match request.engine {
        Engine::One => ending(list_matches(alloc, file, request.limit, request.resume, out)),
        Engine::Many => match_by_walk(alloc, file, request.limit, out),
        Engine::Net => match_by_nets(alloc, file, request.limit, out),
        Engine::Program => match_by_program(alloc, file, request.limit, out),
    }
}
