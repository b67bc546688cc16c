//! A room of fixed size for bytes that are held back.

ghost use Rattle.std.specs.Prelude.{◌≡◌, ◌≤◌, ◌++◌, ◌∷◌, [], MatchBool, drop, length};

use std::marker::Model;

// How many bytes there may be.
const ROOM: usize = 4096;

/// Bytes in a room of fixed size. It takes no memory. A contract sees it as the list of the bytes.
#[derive(Drop)]
pub struct Room {
    bytes: [u8; ROOM],
    count: usize,
}

impl Model for Room {
    ghost use Rattle.std.specs.Prelude.{◌≤◌, ℕ, List, take};

    ghost Value = { List ℕ };

    ghost view = { λ r. take r.count r.bytes };

    ghost use Rattle.mp_io.specs.declared.room.TheConstants.{ROOM};

    ghost invariant = { λ r. r.count ≤ ROOM };
}

impl Room {
    /// A room with no bytes.
    pub(crate) fn new() -> Room
        ensures { result ≡ [] }
    {
        Room {
            bytes: [0; ROOM],
            count: 0,
        }
    }

    /// The bytes.
    pub(crate) fn bytes(&self) -> &[u8]
        ensures { result.now ≡ self.now }
    {
        &self.bytes[..self.count]
    }

    /// Takes the text behind the bytes, where there is room for it, and says whether there is.
    pub(crate) fn take(&mut self, text: &[u8]) -> bool
        ensures { MatchBool result (self.new ≡ self.old ++ text.now) (self.new ≡ self.old) }
    {
        if text.len() > ROOM - self.count {
            return false;
        }
        let end = self.count + text.len();
        self.bytes[self.count..end].copy_from_slice(text);
        self.count = end;
        true
    }

    /// Takes the byte behind the bytes, where there is room for it, and says whether there is.
    pub(crate) fn take_byte(&mut self, byte: u8) -> bool
        ensures { MatchBool result (self.new ≡ self.old ++ byte ∷ []) (self.new ≡ self.old) }
    {
        if self.count == ROOM {
            return false;
        }
        self.bytes[self.count] = byte;
        self.count += 1;
        true
    }

    // Up to where the bytes are written when the room is full: to the end of the last line, if there is one.
    pub(crate) fn lines_len(&self) -> usize
        ensures { result ≤ length self.now }
    {
        match self.bytes().iter().rposition(|byte| *byte == b'\n') {
            None => 0,
            Some(last) => last + 1,
        }
    }

    /// Leaves the bytes behind so many.
    pub(crate) fn drop_front(&mut self, count: usize)
        requires { count ≤ length self.old }
        ensures { self.new ≡ drop count self.old }
    {
        self.bytes.copy_within(count..self.count, 0);
        self.count -= count;
    }

    /// Leaves no bytes.
    pub(crate) fn clear(&mut self)
        ensures { self.new ≡ [] }
    {
        self.count = 0;
    }
}
