//! Files and substitutions as texts. A text that isn't read stops its test.

ghost use Rattle.mp_text.specs.File.{file_tree};
ghost use Rattle.mp_text.specs.Sound.{IsSoundFile};

use mp_io::{MemorySink, put};
use mp_subst::{Pairs, Subst};
use mp_term::Signature;
use mp_text::{File, read_file, write_subst};
use std::alloc::Global;
use std::process::Abort;

/// What stands before and behind the first mark of a text.
pub fn parts<'a>(rt: &impl Abort, text: &'a str, mark: &str) -> (&'a str, &'a str) {
    text.split_once(mark).expect(rt, "a text without its mark")
}

/// The file of the text, in a box.
pub fn file(rt: &impl Abort, alloc: Global, text: &str) -> Box<File>
    ensures { IsSoundFile (file_tree result.value) }
{
    assert!(rt; text.len() <= 1000, "{text}");
    let file = read_file(alloc, text.as_bytes()).expect(rt, text);
    Box::new(alloc, file).expect(rt, "memory")
}

/// A sink of 1,000 bytes.
pub fn sink(rt: &impl Abort, alloc: Global) -> MemorySink {
    MemorySink::new(alloc, 1000, Vec::new(alloc)).expect(rt, "memory")
}

/// Writes the line of the rule and the substitution: the rule's number and, behind a bar, the substitution.
pub fn write_line(
    rt: &impl Abort,
    alloc: Global,
    sig: &Signature,
    rule: u32,
    subst: &Subst,
    sink: &mut MemorySink,
) {
    let front = format!(in alloc; "{rule}|").expect(rt, "memory");
    assert!(rt; put(sink, front.as_bytes()).is_ok());
    assert!(rt; write_subst(sig, subst, sink).is_ok());
    assert!(rt; put(sink, b"\n").is_ok());
}

// How often the line stands in the text.
fn times(text: &str, line: &str) -> usize {
    text.lines().filter(|other| *other == line).count()
}

/// Stops unless the lines of the text are these, in whatever order.
pub fn check_lines(rt: &impl Abort, text: &str, lines: &str) {
    assert!(rt; text.len() == lines.len(), "{lines}");
    for line in lines.lines() {
        assert!(rt; times(text, line) == times(lines, line), "{line}");
    }
}

/// Stops unless the pairs are those of the lines.
pub fn check_pairs(rt: &impl Abort, alloc: Global, sig: &Signature, pairs: &Pairs, lines: &str) {
    let mut sink = sink(rt, alloc);
    for pair in pairs.as_slice() {
        write_line(rt, alloc, sig, pair.rule, &pair.subst, &mut sink);
    }
    assert!(rt; sink.content() == lines.as_bytes(), "{lines}");
}
