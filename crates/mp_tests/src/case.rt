//! Tables of texts and their first faults.

use crate::reading::{check, parts};
use mp_pattern::Plan;
use mp_term::Signature;
use mp_text::{TextError, read_cond, read_file, read_loose_cond, read_pattern, read_term};
use std::alloc::Global;
use std::process::Abort;

/// What a text is read as.
#[derive(Clone, Copy)]
pub enum Sort {
    File,
    Term,
    Pattern,
    Condition,
    LooseCondition,
}

/// What the texts of a table are read as, what stands before each, and the lines: each a text and, behind `|`, its
/// first fault: the kind, the line and the column. Nothing stands there where it has none. `%` stands for 62 arguments.
pub struct Table {
    pub sort: Sort,
    pub before: &'static str,
    pub lines: &'static str,
}

const ARGUMENTS: &str = "\
a,a,a,a,a,a,a,a,a,a,a,a,a,a,a,a,a,a,a,a,a,a,a,a,a,a,a,a,a,a,a,\
a,a,a,a,a,a,a,a,a,a,a,a,a,a,a,a,a,a,a,a,a,a,a,a,a,a,a,a,a,a,a,";

// The text that one of a table stands for.
fn expanded(rt: &impl Abort, alloc: Global, before: &str, text: &str) -> String {
    let text = text.replace(alloc, "%", ARGUMENTS).expect(rt, "memory");
    format!(in alloc; "{before}{text}").expect(rt, "memory")
}

// Why the text isn't read.
fn error(
    rt: &impl Abort,
    alloc: Global,
    sig: &Signature,
    plan: &Plan,
    sort: Sort,
    text: &[u8],
) -> Option<TextError> {
    assert!(rt; text.len() <= 1000);
    match sort {
        Sort::File => read_file(alloc, text).err(),
        Sort::Term => read_term(alloc, sig, text).err(),
        Sort::Pattern => read_pattern(alloc, sig, text).err(),
        Sort::Condition => read_cond(alloc, sig, plan, text).err(),
        Sort::LooseCondition => read_loose_cond(alloc, sig, text).err(),
    }
}

// What is told of the error: nothing where there is none.
fn told(rt: &impl Abort, alloc: Global, error: Option<TextError>) -> String {
    match error {
        None => String::new(alloc),
        Some(TextError::Memory) => panic!(rt; "memory"),
        Some(TextError::Text(fault)) => {
            let told = format!(in alloc; "{:?} {} {}", fault.kind, fault.line, fault.column);
            told.expect(rt, "memory")
        }
    }
}

/// Stops unless the text of each line of the table has the fault of the line.
pub fn check_table(rt: &impl Abort, alloc: Global, sig: &Signature, plan: &Plan, table: &Table) {
    for line in table.lines.split('\n') {
        let (text, wanted) = parts(rt, line, "|");
        let text = expanded(rt, alloc, table.before, text);
        let error = error(rt, alloc, sig, plan, table.sort, text.as_bytes());
        let told = told(rt, alloc, error);
        check(rt, told.as_str() == wanted, text.as_str());
    }
}
