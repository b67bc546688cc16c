//! What the text of a list is put together from: numbers, and what stands between two items.

ghost use Rattle.std.specs.Prelude.{decimal};
ghost use Rattle.mp_io.specs.Printing.{gap_text};
ghost use Rattle.mp_io.specs.Writing.{Puts};

use crate::{Sink, Writer};
use itoa::Buffer;

/// Puts a number in decimal. It takes no memory. The contract is `Puts` of `specs/Writing.antt`.
pub fn put_number<K: Sink>(number: u32, out: &mut Writer<'_, K>)
    ensures { Puts K.Sink out.old out.new (decimal number) }
{
    out.put(Buffer::new().format(number).as_bytes());
}

/// Puts what stands before the item of an index, from 0: the separator, but nothing before the first: `gap_text` of
/// `specs/Printing.antt`. It takes no memory.
pub fn put_gap<K: Sink>(index: usize, separator: &[u8], out: &mut Writer<'_, K>)
    ensures { Puts K.Sink out.old out.new (gap_text separator.now index) }
{
    if index > 0 {
        out.put(separator);
    }
}
