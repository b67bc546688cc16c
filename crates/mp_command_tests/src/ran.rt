//! A run of the command over one file or two in memory, and over devices that may fail.

use crate::texts::parts;
use mp_command::run;
use mp_io::{MemoryShelf, MemorySink};
use std::alloc::Global;
use std::process::Abort;

/// Which calls fail, by their numbers from 0: of the shelf, of the sink for lines, and of the sink for what is said.
/// Lines have so many bytes of room.
#[derive(Clone, Copy)]
pub struct Devices<'a> {
    pub shelf: &'a [u64],
    pub out: &'a [u64],
    pub err: &'a [u64],
    pub room: usize,
}

/// Devices of which no call fails.
pub const SOUND: Devices<'static> = Devices {
    shelf: &[],
    out: &[],
    err: &[],
    room: 2000,
};

/// What a run answered, and what it wrote and said.
#[derive(Drop)]
pub struct Outcome {
    status: u8,
    out: MemorySink,
    err: MemorySink,
}

impl Outcome {
    /// Whether the run answered, wrote and said this.
    pub fn is(&self, status: u8, out: &str, err: &str) -> bool {
        self.status == status && self.out.content() == out.as_bytes() && self.said(err)
    }

    /// Whether the run said this.
    fn said(&self, err: &str) -> bool {
        self.err.content() == err.as_bytes()
    }

    /// The lines that the run wrote.
    pub fn printed(&self, rt: &impl Abort) -> &str {
        str::from_utf8(self.out.content()).expect(rt, "no text")
    }
}

// The words between blanks.
fn owned(rt: &impl Abort, alloc: Global, words: &str) -> Vec<String> {
    let mut all = Vec::new(alloc);
    for word in words.split(' ') {
        if !word.is_empty() {
            let word = String::from_str(alloc, word).expect(rt, "memory");
            all.push(word).expect(rt, "memory");
        }
    }
    all
}

// The program of the rule `r: f(x_, y_)`.
const PROGRAM: &str = "\
matchpy program 2
op f 2;
rule r x y;
code
0 begin down 1
1 enter f down 2 over -
2 dot v0 down 3 over -
3 dot v1 down 4 over -
4 leave f accept 0 over -
5 stop
";

// The file `p`, of which this stands behind `%%%%`: all that stands behind the line; or, where the line goes on, that
// program, with what stands behind ` -> ` in place of what stands before it.
fn program(rt: &impl Abort, alloc: Global, text: &str) -> String {
    let (line, rest) = parts(rt, text, "\n");
    if line.is_empty() {
        return String::from_str(alloc, rest).expect(rt, "memory");
    }
    match line.split_once(" -> ") {
        None => String::from_str(alloc, PROGRAM).expect(rt, "memory"),
        Some((old, new)) => {
            let (front, back) = parts(rt, PROGRAM, old.trim_start());
            format!(in alloc; "{front}{new}{back}").expect(rt, "memory")
        }
    }
}

// A shelf of one file `t`, or of `t` and `p` where `%%%%` stands between them.
fn shelf(rt: &impl Abort, alloc: Global, fails: &[u64], files: &str) -> MemoryShelf {
    let fails = fails.to_vec(alloc).expect(rt, "memory");
    let mut shelf = MemoryShelf::new(alloc, fails);
    let (file, text) = match files.split_once("%%%%") {
        None => (files, None),
        Some((file, text)) => (file, Some(text)),
    };
    shelf.add("t", file.as_bytes()).expect(rt, "memory");
    if let Some(text) = text {
        let program = program(rt, alloc, text);
        shelf.add("p", program.as_bytes()).expect(rt, "memory");
    }
    shelf
}

// A sink of so many bytes.
fn sink(rt: &impl Abort, alloc: Global, fails: &[u64], room: usize) -> MemorySink {
    let fails = fails.to_vec(alloc).expect(rt, "memory");
    MemorySink::new(alloc, room, fails).expect(rt, "memory")
}

/// The run that the words between blanks ask for, over one file `t`, or over `t` and `p` with `%%%%` between them:
/// behind a line `%%%%` stands the program `p`; a longer line says what `p` has in place of a part of the program of
/// the rule `r: f(x_, y_)`.
pub fn ran(
    rt: &impl Abort,
    alloc: Global,
    devices: &Devices<'_>,
    words: &str,
    file: &str,
) -> Outcome {
    let words = owned(rt, alloc, words);
    let mut shelf = shelf(rt, alloc, devices.shelf, file);
    let mut out = sink(rt, alloc, devices.out, devices.room);
    let mut err = sink(rt, alloc, devices.err, 2000);
    let status = run(alloc, &words, &mut shelf, &mut out, &mut err);
    Outcome { status, out, err }
}

/// Stops unless the run that the words ask for, over one file `t`, answers, writes and says this.
pub fn check_run_on(
    rt: &impl Abort,
    alloc: Global,
    devices: &Devices<'_>,
    words: &str,
    file: &str,
    status: u8,
    out: &str,
    err: &str,
) {
    let ran = ran(rt, alloc, devices, words, file);
    assert!(rt; ran.is(status, out, err), "{words}: {status}: {out}{err}");
}

/// The same on devices of which no call fails.
pub fn check_run(
    rt: &impl Abort,
    alloc: Global,
    words: &str,
    file: &str,
    status: u8,
    out: &str,
    err: &str,
) {
    check_run_on(rt, alloc, &SOUND, words, file, status, out, err);
}
