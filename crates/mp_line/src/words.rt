//! Words of a line.

ghost use Rattle.std.specs.Prelude.{◌≡◌, ◌↔◌, ◌++◌, position, nat_eq, MatchOption, IsTrue};
ghost use Rattle.mp_line.specs.Finds.{Finds, FindsPair};
ghost use Rattle.mp_line.specs.Words.{IsWithout, IsLastPlace, IsSplitAtFirst, IsSplitAtLast, IsSplitBehind};
ghost use Rattle.mp_line.specs.Words.{IsFirstWord, IsBlankWord};

use mp_term::same_bytes;

// The place of the first such byte.
fn first_place(byte: u8, text: &[u8]) -> Option<usize>
    ensures { result ≡ position (λ c. nat_eq c byte) text.now }
{
    text.iter().position(|other| *other == byte)
}

// The place of the last such byte.
fn last_place(byte: u8, text: &[u8]) -> Option<usize>
    ensures { MatchOption result (IsWithout byte text.now) (λ i. IsLastPlace byte text.now i) }
{
    let mut end = text.len();
    while end > 0 {
        end -= 1;
        if text[end] == byte {
            return Some(end);
        }
    }
    None
}

// What stands before the first such byte, and behind it.
pub(crate) fn split_first(byte: u8, text: &[u8]) -> Option<(&[u8], &[u8])>
    ensures { MatchOption result (IsWithout byte text.now)
        (λ parts. IsSplitAtFirst byte text.now parts.0.now parts.1.now) }
{
    match first_place(byte, text) {
        Some(at) => Some((&text[..at], &text[at + 1..])),
        None => None,
    }
}

// What stands before the last such byte, and behind it.
pub(crate) fn split_last(byte: u8, text: &[u8]) -> Option<(&[u8], &[u8])>
    ensures { MatchOption result (IsWithout byte text.now)
        (λ parts. IsSplitAtLast byte text.now parts.0.now parts.1.now) }
{
    match last_place(byte, text) {
        Some(at) => Some((&text[..at], &text[at + 1..])),
        None => None,
    }
}

// The texts are the same.
pub(crate) fn is_same(a: &[u8], b: &[u8]) -> bool
    ensures { IsTrue result ↔ (a.now ≡ b.now) }
{
    same_bytes(a, b)
}

// What stands behind a front.
pub(crate) fn behind<'a>(front: &[u8], text: &'a [u8]) -> Option<&'a [u8]>
    ensures { Finds (λ rest. rest.now) (λ rest. text.now ≡ front.now ++ rest) result }
{
    if front.len() > text.len() {
        return None;
    }
    if is_same(&text[..front.len()], front) {
        Some(&text[front.len()..])
    } else {
        None
    }
}

// What stands before an end.
pub(crate) fn before<'a>(text: &'a [u8], end: &[u8]) -> Option<&'a [u8]>
    ensures { Finds (λ rest. rest.now) (λ rest. text.now ≡ rest ++ end.now) result }
{
    if end.len() > text.len() {
        return None;
    }
    let at = text.len() - end.len();
    if is_same(&text[at..], end) {
        Some(&text[..at])
    } else {
        None
    }
}

// What stands before an end, such a byte and a last word without one, and the word.
pub(crate) fn split_behind<'a>(end: &[u8], byte: u8, text: &'a [u8]) -> Option<(&'a [u8], &'a [u8])>
    ensures { FindsPair (λ p. p.0.now) (λ p. p.1.now) (IsSplitBehind end.now byte text.now) result }
{
    let Some((front, word)) = split_last(byte, text) else {
        return None;
    };
    match before(front, end) {
        Some(rest) => Some((rest, word)),
        None => None,
    }
}

// What stands between a front and an end.
pub(crate) fn between<'a>(front: &[u8], text: &'a [u8], end: &[u8]) -> Option<&'a [u8]>
    ensures { Finds (λ middle. middle.now) (λ middle. text.now ≡ front.now ++ (middle ++ end.now)) result }
{
    match behind(front, text) {
        Some(rest) => before(rest, end),
        None => None,
    }
}

// The first word of a text, which has no blank, and what stands behind it: nothing, or a blank and more.
pub(crate) fn first_word(text: &[u8]) -> (&[u8], &[u8])
    ensures { IsFirstWord text.now result.0.now result.1.now }
{
    match first_place(b' ', text) {
        Some(at) => (&text[..at], &text[at..]),
        None => (text, b"".as_slice()),
    }
}

// The word behind the blank with which the text begins, and what stands behind it.
pub(crate) fn blank_and_word(text: &[u8]) -> Option<(&[u8], &[u8])>
    ensures { FindsPair (λ p. p.0.now) (λ p. p.1.now) (IsBlankWord text.now) result }
{
    match behind(b" ", text) {
        Some(rest) => Some(first_word(rest)),
        None => None,
    }
}
