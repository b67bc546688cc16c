//! Runs of the whole command over files in memory.

use crate::cases::{BEFORE, BEHIND, CONDITIONS, FAULTS, HOLDS, MATCHES, RUNS};
use crate::changes::CHANGES;
use crate::compiled::COMPILED;
use crate::listed::LISTED;
use crate::netted::NETTED;
use crate::ran::{SOUND, check_run, ran};
use crate::texts::{check_lines, parts};
use crate::walked::WALKED;
use std::alloc::Global;
use std::process::Abort;

// What the cases of a table say.
#[derive(Clone, Copy)]
enum Sort {
    // A file and, behind a line of bars, the lines of its matches.
    Matched,
    // The same, for a walk over all rules at once, which finds the lines in whatever order.
    Walked,
    // The same, for the program of the rules.
    Programmed,
    // The same, for lists that are cut behind each match and resumed there.
    Resumed,
    // A condition and, behind `|`, the status of a run over the rule with that condition.
    Condition,
    // A file and, behind `|`, the place and the kind of its first fault.
    Fault,
    // The status and the words of each run, the file, what is written, and what is said.
    Run,
}

fn check_engine(rt: &impl Abort, alloc: Global, words: &str, file: &str, lines: &str) {
    let ran = ran(rt, alloc, &SOUND, words, file);
    let printed = ran.printed(rt);
    assert!(rt; ran.is(u8::from(lines.is_empty()), printed, ""), "{file}");
    check_lines(rt, printed, lines);
}

// Whether the printed lines are cut. Where they are, what is listed from their token on are the other lines; where they
// aren't, they are all lines.
fn is_cut(rt: &impl Abort, alloc: Global, file: &str, lines: &str, printed: &str) -> bool {
    let Some((front, token)) = printed.split_once("more ") else {
        assert!(rt; printed == lines, "{file}");
        return false;
    };
    let behind = lines.strip_prefix(front).expect(rt, "other lines");
    let words = format!(in alloc; "match t --resume {}", token.trim()).expect(rt, "memory");
    check_run(rt, alloc, words.as_str(), file, 0, behind, "");
    true
}

fn check_resumed(rt: &impl Abort, alloc: Global, file: &str, lines: &str) {
    for limit in 1..30_u32 {
        let words = format!(in alloc; "match t --limit {limit}").expect(rt, "memory");
        let ran = ran(rt, alloc, &SOUND, words.as_str(), file);
        if !is_cut(rt, alloc, file, lines, ran.printed(rt)) {
            return;
        }
    }
    panic!(rt; "more lines: {file}");
}

fn check_condition(rt: &impl Abort, alloc: Global, condition: &str, status: &str) {
    let file = format!(in alloc; "{BEFORE}{condition}{BEHIND}").expect(rt, "memory");
    let (status, out) = match status {
        "0" => (0, HOLDS),
        "1" => (1, ""),
        _ => panic!(rt; "no status"),
    };
    check_run(rt, alloc, "match t", file.as_str(), status, out, "");
}

fn check_fault(rt: &impl Abort, alloc: Global, file: &str, fault: &str) {
    let said = format!(in alloc; "matchpy: t:{fault}\n").expect(rt, "memory");
    check_run(rt, alloc, "match t", file, 3, "", said.as_str());
}

fn check_words(rt: &impl Abort, alloc: Global, lines: &str, rest: &str) {
    let (file, rest) = parts(rt, rest, "----\n");
    let (out, err) = parts(rt, rest, "----\n");
    for line in lines.lines() {
        let (status, words) = parts(rt, line, " ");
        let status = status.parse::<u8>().expect(rt, "no status");
        check_run(rt, alloc, words, file, status, out, err);
    }
}

fn check_matched(rt: &impl Abort, alloc: Global, file: &str, lines: &str) {
    let status = u8::from(lines.is_empty());
    check_run(rt, alloc, "match t", file, status, lines, "");
}

// Tries a case, of which these are the parts before and behind the first mark.
fn check(rt: &impl Abort, alloc: Global, sort: Sort, front: &str, back: &str) {
    match sort {
        Sort::Matched => check_matched(rt, alloc, front, back),
        Sort::Walked => check_engine(rt, alloc, "match t --engine many", front, back),
        Sort::Programmed => check_engine(rt, alloc, "match t --engine program", front, back),
        Sort::Resumed => check_resumed(rt, alloc, front, back),
        Sort::Condition => check_condition(rt, alloc, front, back),
        Sort::Fault => check_fault(rt, alloc, front, back),
        Sort::Run => check_words(rt, alloc, front, back),
    }
}

// Tries each case of the table, whose cases are lines or files.
fn check_all(rt: &impl Abort, alloc: Global, sort: Sort, table: &str) {
    let (between, mark) = match sort {
        Sort::Condition | Sort::Fault => ("\n", "|"),
        _ => ("====\n", "----\n"),
    };
    for case in table.split(between) {
        let (front, back) = parts(rt, case, mark);
        check(rt, alloc, sort, front, back);
    }
}

#[test]
fn each_match_is_printed_once_in_order(rt: HostRuntime) {
    check_all(&rt, rt.alloc(), Sort::Matched, MATCHES);
}

#[test]
fn a_walk_over_all_rules_finds_the_same_matches(rt: HostRuntime) {
    check_all(&rt, rt.alloc(), Sort::Walked, MATCHES);
}

#[test]
fn the_program_of_the_rules_accepts_the_same_matches(rt: HostRuntime) {
    check_all(&rt, rt.alloc(), Sort::Programmed, MATCHES);
}

#[test]
fn a_list_that_is_cut_goes_on_behind_its_token(rt: HostRuntime) {
    check_all(&rt, rt.alloc(), Sort::Resumed, MATCHES);
}

#[test]
fn rules_match_where_their_conditions_hold(rt: HostRuntime) {
    check_all(&rt, rt.alloc(), Sort::Condition, CONDITIONS);
}

const TABLES: &[&str] = &[RUNS, CHANGES, LISTED, NETTED, WALKED, COMPILED];

#[test]
fn words_and_files_decide_what_is_printed(rt: HostRuntime) {
    for table in TABLES {
        check_all(&rt, rt.alloc(), Sort::Run, table);
    }
}

#[test]
fn the_first_fault_is_told_with_its_place(rt: HostRuntime) {
    check_all(&rt, rt.alloc(), Sort::Fault, FAULTS);
}
