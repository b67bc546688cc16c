//! What the texts of tests are read as. A text that isn't read stops its test. What lives long is in a box: one is
//! quick to prove where it is dropped.

ghost use Rattle.std.specs.Prelude.{◌≤◌, length};
ghost use Rattle.mp_text.specs.File.{file_tree};
ghost use Rattle.mp_text.specs.Sound.{IsSoundFile};

use mp_io::MemorySink;
use mp_pattern::{Cond, Pattern, Plan};
use mp_term::{Signature, Term};
use mp_text::{File, read_file, read_loose_cond, read_pattern, read_term};
use std::alloc::Global;
use std::process::Abort;

/// Stops with the text unless that holds.
pub fn check(rt: &impl Abort, holds: bool, text: &str) {
    assert!(rt; holds, "{text}");
}

/// What stands before and behind the first mark of a text.
pub fn parts<'a>(rt: &impl Abort, text: &'a str, mark: &str) -> (&'a str, &'a str) {
    text.split_once(mark).expect(rt, "a text without its mark")
}

/// The bytes of a text, at most 1,000.
pub fn bytes<'a>(rt: &impl Abort, text: &'a str) -> &'a [u8]
    ensures { length result.now ≤ 1000 }
{
    assert!(rt; text.len() <= 1000, "{text}");
    text.as_bytes()
}

/// The file of a text.
pub fn file(rt: &impl Abort, alloc: Global, text: &str) -> Box<File>
    ensures { IsSoundFile (file_tree result.value) }
{
    let file = read_file(alloc, bytes(rt, text)).expect(rt, text);
    Box::new(alloc, file).expect(rt, "memory")
}

/// The term of a text, in normal form, on its own.
pub fn bare_term(rt: &impl Abort, alloc: Global, sig: &Signature, text: &str) -> Term {
    read_term(alloc, sig, bytes(rt, text)).expect(rt, text)
}

/// The same in a box.
pub fn term(rt: &impl Abort, alloc: Global, sig: &Signature, text: &str) -> Box<Term> {
    Box::new(alloc, bare_term(rt, alloc, sig, text)).expect(rt, "memory")
}

/// The pattern of a text, as it is written.
pub fn pattern(rt: &impl Abort, alloc: Global, sig: &Signature, text: &str) -> Box<Pattern> {
    let pattern = read_pattern(alloc, sig, bytes(rt, text)).expect(rt, text);
    Box::new(alloc, pattern).expect(rt, "memory")
}

/// The condition of a text, whose variables aren't checked.
pub fn condition(rt: &impl Abort, alloc: Global, sig: &Signature, text: &str) -> Box<Cond> {
    let condition = read_loose_cond(alloc, sig, bytes(rt, text)).expect(rt, text);
    Box::new(alloc, condition).expect(rt, "memory")
}

/// The plan of a pattern.
pub fn plan_of(rt: &impl Abort, alloc: Global, sig: &Signature, pattern: &Pattern) -> Box<Plan> {
    let plan = Plan::compile(alloc, sig, pattern).expect(rt, "no plan");
    Box::new(alloc, plan).expect(rt, "memory")
}

/// The plan of the pattern of a text.
pub fn plan(rt: &impl Abort, alloc: Global, sig: &Signature, text: &str) -> Box<Plan> {
    plan_of(rt, alloc, sig, &pattern(rt, alloc, sig, text))
}

/// A sink of 2,000 bytes.
pub fn sink(rt: &impl Abort, alloc: Global) -> MemorySink {
    MemorySink::new(alloc, 2000, Vec::new(alloc)).expect(rt, "memory")
}
