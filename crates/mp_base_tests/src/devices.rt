//! The devices, real and in memory.

use crate::values::check;
use mp_io::{
    Failed, MemoryShelf, MemorySink, ReadFault, RealShelf, RealSink, Writer, put, put_all, put_gap,
    put_number, read_whole,
};
use std::alloc::Global;
use std::fs;
use std::fs::File;
use std::io::Write;
use std::process::Abort;

const TEXT: &[u8] = b"op f 2;\nsubject s: a;\n";

// Writes the text to a real file. Answers whether all was taken.
fn is_written(rt: &HostRuntime) -> bool {
    let Ok(file) = File::create(rt, "t.txt") else {
        return false;
    };
    let mut sink = RealSink::new(file);
    put(&mut sink, b"op f 2;\n").is_ok()
        && put_all(&mut sink, &[b"subject ", b"", b"s: a;\n"]).is_ok()
}

// Whether a file was refused with the fault, or has the content where there is none.
fn is_answer(found: &Result<Vec<u8>, ReadFault>, fault: Option<ReadFault>, content: &[u8]) -> bool {
    match found {
        Ok(bytes) => fault.is_none() && bytes.as_slice() == content,
        Err(refused) => fault == Some(*refused),
    }
}

// The name of a real file, how long it may be, and why it isn't read.
const REAL: &[(&str, usize, Option<ReadFault>)] = &[
    ("t.txt", 22, None),
    ("t.txt", 21, Some(ReadFault::TooLong)),
    ("none", 21, Some(ReadFault::Start)),
];

// Whether the real file is refused with the fault, or has the text where there is none.
fn is_read(rt: &HostRuntime, name: &str, limit: usize, fault: Option<ReadFault>) -> bool {
    let mut shelf = RealShelf::new(rt);
    let found = read_whole(rt.alloc(), &mut shelf, name, limit);
    is_answer(&found, fault, TEXT)
}

#[test]
fn real_files_are_read_and_written(rt: HostRuntime) {
    assert!(rt; is_written(&rt));
    assert!(rt; fs::read(&rt, "t.txt").expect(&rt, "the file").as_slice() == TEXT);
    for (name, limit, fault) in REAL {
        assert!(rt; is_read(&rt, name, *limit, *fault), "{name} {limit}");
    }
}

// Takes at most so many bytes at a call, and is flushed or not.
#[derive(Drop)]
struct Narrow {
    most: usize,
    flushes: bool,
}

impl Write for Narrow {
    fn write(&mut self, buf: &[u8]) -> std::io::Result<usize> {
        Ok(buf.len().min(self.most))
    }

    fn flush(&mut self) -> std::io::Result<()> {
        if self.flushes {
            Ok(())
        } else {
            Err(std::io::Error::from(std::io::ErrorKind::Other))
        }
    }
}

// Whether a writer takes three bytes.
fn are_taken(most: usize, flushes: bool) -> bool {
    put(&mut RealSink::new(Narrow { most, flushes }), b"abc").is_ok()
}

#[test]
fn a_writer_that_takes_nothing_or_is_not_flushed_fails(rt: HostRuntime) {
    assert!(rt; are_taken(1, true) && !are_taken(0, true) && !are_taken(9, false));
}

// Adds the files `t` of three bytes, which takes the place of an older one, `none` of none, and `long`.
fn add_files(shelf: &mut MemoryShelf, long: &[u8]) -> bool {
    shelf.add("t", b"older").is_ok()
        && shelf.add("none", b"").is_ok()
        && shelf.add("t", b"abc").is_ok()
        && shelf.add("long", long).is_ok()
}

// A shelf with these files, whose calls of these numbers fail.
fn make_shelf(rt: &impl Abort, alloc: Global, fails: &[u64], long: &[u8]) -> MemoryShelf {
    let mut shelf = MemoryShelf::new(alloc, fails.to_vec(alloc).expect(rt, "memory"));
    assert!(rt; add_files(&mut shelf, long));
    shelf
}

// The content of the file of the name.
fn content<'a>(name: &str, long: &'a [u8]) -> &'a [u8] {
    match name {
        "t" => b"abc",
        "long" => long,
        _ => b"",
    }
}

// The calls of the shelf that fail, by their numbers; the name of a file and how long it may be; why it isn't read; and
// how many starts and reads failed.
type Reading = (
    &'static [u64],
    &'static str,
    usize,
    Option<ReadFault>,
    (u64, u64),
);

const READINGS: &[Reading] = &[
    (&[], "t", 3, None, (0, 0)),
    (&[], "t", usize::MAX, None, (0, 0)),
    (&[], "t", 2, Some(ReadFault::TooLong), (0, 0)),
    (&[], "none", 0, None, (0, 0)),
    (&[], "long", 5000, None, (0, 0)),
    (&[], "long", 4999, Some(ReadFault::TooLong), (0, 0)),
    (&[], "u", 3, Some(ReadFault::Start), (0, 0)),
    (&[0], "t", 3, Some(ReadFault::Start), (1, 0)),
    (&[0], "u", 3, Some(ReadFault::Start), (1, 0)),
    (&[1], "t", 3, Some(ReadFault::Read), (0, 1)),
    (&[4, 2], "t", 3, Some(ReadFault::Read), (0, 1)),
    (&[3], "t", 3, None, (0, 0)),
];

// Whether the file in memory is read as the row says.
fn is_held(rt: &impl Abort, alloc: Global, row: &Reading, long: &[u8]) -> bool {
    let mut shelf = make_shelf(rt, alloc, row.0, long);
    let found = read_whole(alloc, &mut shelf, row.1, row.2);
    is_answer(&found, row.3, content(row.1, long)) && shelf.faults() == row.4
}

#[test]
fn files_in_memory_are_read_whole(rt: HostRuntime) {
    for row in READINGS {
        assert!(rt;
            is_held(&rt, rt.alloc(), row, &[b'x'; 5000]),
            "{} {}",
            row.1,
            row.2
        );
    }
}

// A sink with that room, whose writes of these numbers fail.
fn make_sink(rt: &impl Abort, alloc: Global, room: usize, fails: &[u64]) -> MemorySink {
    MemorySink::new(alloc, room, fails.to_vec(alloc).expect(rt, "memory")).expect(rt, "memory")
}

// Appends `ab`, nothing and `cd`, a write each.
fn put_pieces(sink: &mut MemorySink) -> Result<(), Failed> {
    put(sink, b"ab")?;
    put(sink, b"")?;
    put(sink, b"cd")
}

// The room of a sink; its writes that fail, by their numbers; whether all was taken; its content; and how many writes
// failed.
type Writing = (usize, &'static [u64], bool, &'static str, u64);

const WRITINGS: &[Writing] = &[
    (4, &[], true, "abcd", 0),
    (9, &[2], true, "abcd", 0),
    (3, &[], false, "abc", 1),
    (0, &[], false, "", 1),
    (9, &[0], false, "", 1),
    (9, &[5, 1], false, "ab", 1),
];

// Whether the pieces are taken as the row says.
fn is_taken(rt: &impl Abort, alloc: Global, row: &Writing) -> bool {
    let mut sink = make_sink(rt, alloc, row.0, row.1);
    put_pieces(&mut sink).is_ok() == row.2
        && sink.content() == row.3.as_bytes()
        && sink.faults() == row.4
}

#[test]
fn a_sink_in_memory_takes_what_fits(rt: HostRuntime) {
    for row in WRITINGS {
        assert!(rt; is_taken(&rt, rt.alloc(), row), "{} {}", row.0, row.3);
    }
}

// Puts the numbers, with a comma and a blank between each two. Answers whether they were put.
fn put_numbers(numbers: &[u32], sink: &mut MemorySink) -> bool {
    let mut out = Writer::new(sink);
    for (index, number) in numbers.iter().enumerate() {
        put_gap(index, b", ", &mut out);
        put_number(*number, &mut out);
    }
    out.finish().is_ok()
}

const LISTS: &[(&[u32], &str)] = &[
    (&[], ""),
    (&[0], "0"),
    (&[10, 9, 4294967295], "10, 9, 4294967295"),
];

// Whether the numbers are put as the text.
fn are_put(rt: &impl Abort, alloc: Global, numbers: &[u32], text: &str) -> bool {
    let mut sink = make_sink(rt, alloc, 20, &[]);
    put_numbers(numbers, &mut sink) && sink.content() == text.as_bytes()
}

#[test]
fn numbers_are_put_with_a_separator_between_each_two(rt: HostRuntime) {
    for (numbers, text) in LISTS {
        check(&rt, are_put(&rt, rt.alloc(), numbers, text), text);
    }
}

// Whether a text of 4000 bytes and more bytes are taken, or not, and so many bytes are written where the second write
// fails.
fn is_one_write(rt: &impl Abort, alloc: Global, more: &[u8], taken: bool, written: usize) -> bool {
    let mut sink = make_sink(rt, alloc, 5000, &[1]);
    put_all(&mut sink, &[&[b'a'; 4000], more]).is_ok() == taken && sink.content().len() == written
}

#[test]
fn parts_of_at_most_4096_bytes_are_one_write(rt: HostRuntime) {
    assert!(rt; is_one_write(&rt, rt.alloc(), &[b'a'; 96], true, 4096));
    assert!(rt; is_one_write(&rt, rt.alloc(), &[b'a'; 97], false, 4000));
}
