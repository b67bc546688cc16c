//! The lines of bytes.

ghost use Rattle.std.specs.Prelude.{◌≡◌, [], MatchOption};
ghost use Rattle.mp_program.specs.FormText.{lines_of};
ghost use Rattle.mp_vm.specs.FirstLine.{IsFirstLine};

use memchr::memchr;
use std::marker::Model;

// The first line, without the line feed with which it ends, and what stands behind that.
fn split_line(bytes: &[u8]) -> Option<(&[u8], &[u8])>
    ensures { MatchOption result (lines_of bytes.now ≡ [])
        (λ parts. IsFirstLine bytes.now parts.0.now parts.1.now) }
{
    match memchr(b'\n', bytes) {
        Some(end) => Some((&bytes[..end], &bytes[end + 1..])),
        None => None,
    }
}

// Bytes of which the first lines are read, seen as those that are left.
#[derive(Drop)]
pub(crate) struct Lines<'a> {
    rest: &'a [u8],
}

impl<'a> Model for Lines<'a> {
    ghost use Rattle.std.specs.Prelude.{List, ℕ};

    ghost Value = { List ℕ };

    ghost view = { λ l. l.rest.now };
}

impl<'a> Lines<'a> {
    // No line is read yet.
    pub(crate) fn new(bytes: &'a [u8]) -> Lines<'a>
        ensures { result ≡ bytes.now }
    {
        Lines { rest: bytes }
    }

    // The next line that ends with a line feed, without it. None: there is none, and the rest stays.
    pub(crate) fn next(&mut self) -> Option<&'a [u8]>
        ensures none { result ≡ None → self.new ≡ self.old }
        ensures first { MatchOption result (lines_of self.old ≡ []) (λ line. IsFirstLine self.old line.now self.new) }
    {
        match split_line(self.rest) {
            None => None,
            Some((line, rest)) => {
                self.rest = rest;
                Some(line)
            }
        }
    }

    // What stands behind the last line.
    pub(crate) fn rest(&self) -> &'a [u8]
        ensures { result.now ≡ self.now }
    {
        self.rest
    }
}
