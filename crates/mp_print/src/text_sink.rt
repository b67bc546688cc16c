//! A sink in memory.

ghost use Rattle.std.specs.Prelude.{◌≡◌, [], Some};

use mp_io::{Failed, Sink};
use std::alloc::Global;

/// Bytes that are kept in memory, as many as there is memory for.
#[derive(Drop)]
pub struct TextSink {
    pub(crate) bytes: Vec<u8>,
    faults: u64,
}

impl TextSink {
    /// No bytes. It takes no memory.
    pub fn new(alloc: Global) -> TextSink
        ensures { result.bytes.items ≡ [] }
    {
        TextSink {
            bytes: Vec::new(alloc),
            faults: 0,
        }
    }

    /// The bytes written so far.
    pub fn content(&self) -> &[u8]
        ensures { result.now ≡ self.now.bytes.items }
    {
        &self.bytes
    }
}

impl Sink for TextSink {
    ghost contents = { λ s. Some s.bytes.items };

    ghost faults = { λ s. s.faults };

    /// `Failed`: there was no memory for the piece, and nothing was appended.
    fn write(&mut self, piece: &[u8]) -> Result<usize, Failed> {
        if self.bytes.extend_from_slice(piece).is_err() {
            self.faults = self.faults.saturating_add(1);
            return Err(Failed);
        }
        Ok(piece.len())
    }
}
