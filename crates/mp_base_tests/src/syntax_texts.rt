//! What texts are read as by tokens and grammar, told by text.

ghost use Rattle.std.specs.Prelude.{◌≤◌, length};

use bumpalo::Bump;
use mp_syntax::{SyntaxError, read_condition, read_expression, read_statements};
use std::alloc::Global;
use std::process::Abort;

/// What a text is read as.
#[derive(Clone, Copy)]
pub enum Sort {
    /// A file.
    Statements,
    /// An expression alone.
    Expression,
    /// A condition alone.
    Condition,
}

// Appends a text so many times, with a line feed for each `&`.
fn push_times(rt: &impl Abort, bytes: &mut Vec<u8>, times: usize, text: &[u8]) {
    for _ in 0..times {
        for byte in text {
            bytes
                .push(if *byte == b'&' { b'\n' } else { *byte })
                .expect(rt, "memory");
        }
    }
}

// Appends a piece: a text alone, or a number, `^` and a text to repeat so often.
fn push_piece(rt: &impl Abort, bytes: &mut Vec<u8>, piece: &str) {
    let (times, text) = piece.split_once('^').unwrap_or(("1", piece));
    push_times(
        rt,
        bytes,
        times.parse::<usize>().expect(rt, "a number"),
        text.as_bytes(),
    );
}

/// The bytes that a text of a table stands for, at most 5,000: `&` is a line feed, and between two of "`" a number, `^`
/// and a text stand for the text so often.
pub fn expanded(rt: &impl Abort, alloc: Global, text: &str) -> Vec<u8>
    ensures { length result.items ≤ 5000 }
{
    let mut bytes = Vec::new(alloc);
    for piece in text.split('`') {
        push_piece(rt, &mut bytes, piece);
    }
    assert!(rt; bytes.len() <= 5000);
    bytes
}

/// Why the text isn't read, where it isn't.
pub fn error(alloc: Global, sort: Sort, text: &[u8]) -> Option<SyntaxError>
    requires { length text.now ≤ 5000 }
{
    let bump = Bump::new(alloc);
    match sort {
        Sort::Statements => read_statements(alloc, &bump, text).err(),
        Sort::Expression => read_expression(alloc, &bump, text).err(),
        Sort::Condition => read_condition(alloc, &bump, text).err(),
    }
}

/// What is read of the text, as `Debug` shows it: each word by its bytes.
pub fn told(rt: &impl Abort, alloc: Global, sort: Sort, text: &[u8]) -> String
    requires { length text.now ≤ 5000 }
{
    let bump = Bump::new(alloc);
    let told = match sort {
        Sort::Statements => format!(in alloc; "{:?}", read_statements(alloc, &bump, text)),
        Sort::Expression => format!(in alloc; "{:?}", read_expression(alloc, &bump, text)),
        Sort::Condition => format!(in alloc; "{:?}", read_condition(alloc, &bump, text)),
    };
    told.expect(rt, "memory")
}
