//! Resume tokens that are read and printed again, and texts that are none.

use crate::syntax_texts::expanded;
use crate::values::{check, name};
use mp_io::MemorySink;
use mp_table::Rank;
use mp_token::{Token, TokenEntries, TokenFault, read_token, write_token};
use std::alloc::Global;
use std::process::Abort;

// An entry: its ranks, and whether it is collapsed.
type Entry = (&'static [Rank], bool);

const TOKENS: &[(&str, &[Entry])] = &[
    (
        "s/r/3;0;1,2",
        &[
            (&[Rank(3)], false),
            (&[Rank(0)], false),
            (&[Rank(1), Rank(2)], false),
        ],
    ),
    (
        "s/r/1!;1;",
        &[(&[Rank(1)], true), (&[Rank(1)], false), (&[], false)],
    ),
    ("s/r/", &[(&[], false)]),
    ("s/r/!", &[(&[], true)]),
    ("s/r/0,0", &[(&[Rank(0), Rank(0)], false)]),
    ("s/r/4294967295", &[(&[Rank(4294967295)], false)]),
];

// Whether the entry of that index is this.
fn is_entry(entries: &TokenEntries, index: usize, wanted: &Entry) -> bool {
    match entries.get(index) {
        Some(found) => found.0 == wanted.0 && found.1 == wanted.1,
        None => false,
    }
}

// Whether the entries are these.
fn has_entries(entries: &TokenEntries, wanted: &[Entry]) -> bool {
    for (index, entry) in wanted.iter().enumerate() {
        if !is_entry(entries, index, entry) {
            return false;
        }
    }
    entries.len() == wanted.len()
}

// The token of the subject s and the rule r with these entries.
fn token(rt: &impl Abort, alloc: Global, wanted: &[Entry]) -> Token {
    let mut entries = TokenEntries::new(alloc);
    for (ranks, collapsed) in wanted {
        entries.push(ranks, *collapsed).expect(rt, "memory");
    }
    Token {
        subject: name(rt, alloc, b"s"),
        rule: name(rt, alloc, b"r"),
        entries,
    }
}

// Whether the token has an entry, and its text is this.
fn is_printed(rt: &impl Abort, alloc: Global, token: &Token, text: &[u8]) -> bool {
    if token.entries.len() == 0 {
        return false;
    }
    let mut sink = MemorySink::new(alloc, 200, Vec::new(alloc)).expect(rt, "memory");
    write_token(token, &mut sink).is_ok() && sink.content() == text
}

// Whether the token of the entries is printed as the text, which is read as a token with these entries, which is
// printed so again.
fn is_token(rt: &impl Abort, alloc: Global, text: &[u8], entries: &[Entry]) -> bool {
    let found = read_token(alloc, text).expect(rt, "a token");
    is_printed(rt, alloc, &token(rt, alloc, entries), text)
        && has_entries(&found.entries, entries)
        && is_printed(rt, alloc, &found, text)
}

#[test]
fn tokens_are_read_and_printed(rt: HostRuntime) {
    for (text, entries) in TOKENS {
        check(
            &rt,
            is_token(&rt, rt.alloc(), text.as_bytes(), entries),
            text,
        );
    }
}

// Texts, and how many of their bytes a token begins with; none is refused for a token itself.
const TEXTS: &[(&str, Option<u64>)] = &[
    ("", Some(0)),
    ("/", Some(0)),
    ("s", Some(1)),
    ("s/", Some(2)),
    ("s//", Some(2)),
    ("s/r", Some(3)),
    ("s_/r/1", Some(1)),
    ("`64^a`/r/1", None),
    ("`65^a`/r/1", Some(64)),
    ("s/`64^b`/1", None),
    ("s/`65^b`/1", Some(66)),
    ("s/r/-1", Some(4)),
    ("s/r/00", Some(5)),
    ("s/r/01", Some(5)),
    ("s/r/4294967296", Some(13)),
    ("s/r/42949672950", Some(14)),
    ("s/r/,", Some(4)),
    ("s/r/1,", Some(6)),
    ("s/r/1,,", Some(6)),
    ("s/r/1,!", Some(6)),
    ("s/r/1!!", Some(6)),
    ("s/r/1!2", Some(6)),
    ("s/r/!,", Some(5)),
    ("s/r/1;2,;", Some(8)),
    ("s/r/1;2/3", Some(7)),
    ("s/r/1 ", Some(5)),
    ("s/r/1&", Some(5)),
];

// Whether the bytes are refused there, or not at all.
fn is_refused(alloc: Global, bytes: &[u8], wanted: Option<u64>) -> bool {
    match read_token(alloc, bytes) {
        Ok(_) => wanted.is_none(),
        Err(TokenFault::Spelling { at }) => wanted == Some(at),
        Err(TokenFault::Memory) => false,
    }
}

#[test]
fn texts_that_are_no_tokens_are_refused(rt: HostRuntime) {
    for (text, at) in TEXTS {
        let bytes = expanded(&rt, rt.alloc(), text);
        check(&rt, is_refused(rt.alloc(), &bytes, *at), text);
    }
}
