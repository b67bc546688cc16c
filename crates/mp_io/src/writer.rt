//! A writer that keeps its failure, so that what prints to it needn't look at each write.

ghost use Rattle.std.specs.Prelude.{◌≡◌, ◌∷◌, IsErr, false, true, []};
ghost use Rattle.mp_io.specs.Moments.{sunk};
ghost use Rattle.mp_io.specs.Printing.{Prints, joined};
ghost use Rattle.mp_io.specs.Writing.{HasPut, Puts};

use crate::room::Room;
use crate::{Failed, Sink, put};

/// Text on its way to a sink: it is gathered in a room of fixed size, and written when the room is full, at a `flush`
/// and at the end. In how many writes no contract says.
///
/// No call but `finish` fails: that a write failed is what `finish` says, which has to be called. No call takes memory.
/// The words of the contracts stand in `specs/Writing.antt`.
// The room has 4,096 bytes. A full one is written to the end of its last line, so that a write ends with a line where a
// line is put in pieces of which only the last has a newline. After a write that failed nothing more is written.
pub struct Writer<'a, K> {
    sink: &'a mut K,
    room: Room,
    failed: bool,
}

impl<'a, K: Sink> Writer<'a, K> {
    /// A writer to the sink, to which no text was put.
    pub fn new(sink: &'a mut K) -> Writer<'a, K>
        ensures same { result.sink.ghost_name ≡ sink.entry.ghost_name }
        ensures none { HasPut K.Sink sink.old [] result }
    {
        Writer {
            sink,
            room: Room::new(),
            failed: false,
        }
    }

    /// Puts the text behind the text so far.
    pub fn put(&mut self, text: &[u8])
        ensures { Puts K.Sink self.old self.new text.now }
    {
        if !self.room.take(text) {
            self.put_over(text);
        }
    }

    /// Puts the byte behind the text so far.
    pub fn put_byte(&mut self, byte: u8)
        ensures { Puts K.Sink self.old self.new (byte ∷ []) }
    {
        if !self.room.take_byte(byte) {
            self.put_over(&[byte]);
        }
    }

    // Puts the text behind the text so far, of which it leaves no whole line in the room.
    #[cold]
    #[inline(never)]
    fn put_over(&mut self, text: &[u8])
        ensures { Puts K.Sink self.old self.new text.now }
    {
        self.flush_lines();
        self.put_at_once(text);
    }

    // Puts the text behind the text so far, of which it leaves nothing in the room where there isn't enough for both.
    fn put_at_once(&mut self, text: &[u8])
        ensures { Puts K.Sink self.old self.new text.now }
    {
        if self.room.take(text) {
            return;
        }
        self.flush();
        if !self.room.take(text) {
            self.pass(text);
        }
    }

    /// Puts the parts behind the text so far, one after another.
    pub fn put_all(&mut self, parts: &[&[u8]])
        ensures { Puts K.Sink self.old self.new (joined parts.now) }
    {
        for part in parts {
            self.put(part);
        }
    }

    /// Writes the bytes that are held back, unless a write has failed: what is put next begins a write of its own.
    pub fn flush(&mut self)
        ensures puts { Puts K.Sink self.old self.new [] }
        ensures none { self.new.failed ≡ false → self.new.room ≡ [] }
    {
        if self.failed {
            return;
        }
        self.failed = put(self.sink, self.room.bytes()).is_err();
        self.room.clear();
    }

    // Writes the whole lines that are held back, unless a write has failed.
    fn flush_lines(&mut self)
        ensures { Puts K.Sink self.old self.new [] }
    {
        if self.failed {
            return;
        }
        let count = self.room.lines_len();
        self.failed = put(self.sink, &self.room.bytes()[..count]).is_err();
        self.room.drop_front(count);
    }

    /// Whether a write has failed: nothing more is written then.
    pub fn has_failed(&self) -> bool
        ensures { result ≡ self.now.failed }
    {
        self.failed
    }

    // Writes the text, unless a write has failed.
    fn pass(&mut self, text: &[u8])
        requires { self.old.failed ≡ false → self.old.room ≡ [] }
        ensures { Puts K.Sink self.old self.new text.now }
    {
        if self.failed {
            return;
        }
        self.failed = put(self.sink, text).is_err();
    }

    /// Writes the bytes that are held back.
    ///
    /// `Failed`: a write failed, now or before. The sink's count of faults rose then, and a front of the text was
    /// appended.
    pub fn finish(self) -> Result<(), Failed>
        ensures prints { (start : _) (text : _) → HasPut K.Sink start text self.entry
            → Prints (sunk K.Sink start self.exit.0.now) text result }
        ensures failed { self.entry.failed ≡ true → IsErr result }
    {
        let Writer { sink, room, failed } = self;
        if failed {
            return Err(Failed);
        }
        put(sink, room.bytes())
    }
}
