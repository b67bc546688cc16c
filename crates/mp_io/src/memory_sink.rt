//! A sink in memory, whose writes fail at the numbers that it was made with and where its room ends.

ghost use Rattle.std.specs.Prelude.{◌≡◌, ◌<◌, not, [], Some, length, Ok, IfOk, is_ok};
ghost use Rattle.std.specs.Io.{WritesAtMost};
ghost use Rattle.std.specs.Io.KnownBytes.{WriteAppends};
ghost use Rattle.mp_io.specs.Devices.{HasCause};
ghost use Rattle.mp_io.specs.MemorySink.{after_write, count_taken, is_write_fault};

use crate::{Failed, Memory, Sink};
use std::alloc::{AllocError, Global};
use std::marker::Model;

/// Bytes that are kept in memory, and told, in a room that is reserved beforehand.
///
/// Writes are numbered from 0, and those whose number the sink was made with are faults. A contract
/// sees it as a `SinkState` of `specs/MemorySink.antt`.
#[derive(Drop)]
pub struct MemorySink {
    bytes: Vec<u8>,
    room: usize,
    writes: u64,
    fails: Vec<u64>,
    faults: u64,
}

impl Model for MemorySink {
    ghost use Rattle.mp_io.specs.MemorySink.{SinkState};

    ghost Value = { SinkState };

    ghost use Rattle.mp_io.specs.MemorySinkView.{sink_state, IsSink};

    ghost view = { sink_state };

    ghost invariant = { IsSink };
}

impl MemorySink {
    /// An empty sink with room for `room` bytes, which are reserved here and for good. Of its
    /// writes, numbered from 0, those with the numbers in `fails` are faults.
    ///
    /// `Memory`: there was no memory for the room.
    pub fn new(alloc: Global, room: usize, fails: Vec<u64>) -> Result<MemorySink, Memory>
        ensures { IfOk result (λ sink. sink ≡ record {
          content = [];
          room = room;
          writes = 0;
          fails = fails.items;
          faults = 0;
        }) }
    {
        match Vec::with_capacity(alloc, room) {
            Ok(bytes) => Ok(MemorySink {
                bytes,
                room,
                writes: 0,
                fails,
                faults: 0,
            }),
            Err(AllocError) => Err(Memory),
        }
    }

    /// The bytes written so far.
    pub fn content(&self) -> &[u8]
        ensures { result.now ≡ self.now.content }
    {
        self.bytes.as_slice()
    }

    /// How often a write was a fault, a number that stops at its greatest.
    pub fn faults(&self) -> u64
        ensures { result ≡ self.now.faults }
    {
        self.faults
    }
}

impl Sink for MemorySink {
    ghost contents = { λ s. Some s.content };

    ghost faults = { λ s. s.faults };

    /// Takes as many bytes of the piece as there is room for. It takes no memory.
    ///
    /// `Failed`: exactly where the piece has a byte, and the write's number is one of those that fail
    /// or no room is left. Each is a fault, and appends nothing.
    fn write(&mut self, piece: &[u8]) -> Result<usize, Failed>
        ensures bound { WritesAtMost result piece.now }
        ensures some { IfOk result (λ count. 0 < length piece.now → 0 < count) }
        ensures empty { length piece.now ≡ 0 → result ≡ Ok 0 }
        ensures bytes { WriteAppends (Some self.old.content) (Some self.new.content) result piece.now }
        ensures cause { HasCause self.old.faults self.new.faults result }

        // exactly
        ensures after { self.new ≡ after_write self.old piece.now }
        ensures answer { is_ok result ≡ not (is_write_fault self.old piece.now) }
        ensures count { IfOk result (λ count. count ≡ count_taken self.old piece.now) }
    {
        let fault = self.fails.contains(&self.writes);
        self.writes = self.writes.saturating_add(1);
        if piece.is_empty() {
            return Ok(0);
        }
        let left = self.room - self.bytes.len();
        if fault || left == 0 {
            self.faults = self.faults.saturating_add(1);
            return Err(Failed);
        }
        let count = left.min(piece.len());
        match self.bytes.extend_from_slice(&piece[..count]) {
            Ok(()) => Ok(count),
            Err(AllocError) => unreachable!(),
        }
    }
}
