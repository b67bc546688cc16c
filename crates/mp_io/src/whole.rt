//! A file read whole, and a text written whole.

ghost use Rattle.std.specs.Prelude.{◌≡◌, ◌⊎◌, ◌<◌, ◌≤◌, ◌+◌, ◌↔◌, length, IfOk, IfSome, IsErr, IsErrOf};
ghost use Rattle.mp_io.specs.Devices.{HoldsBytes, IsLonger, IsMissing, Rose, held, saturating_add};
ghost use Rattle.mp_io.specs.Moments.{sunk};
ghost use Rattle.mp_io.specs.Printing.{Prints, joined};

use crate::{Failed, Shelf, Sink, Writer};
use std::alloc::Global;
use thiserror::Error;

/// Why a file wasn't read whole.
#[derive(Clone, Copy, Debug, PartialEq, Eq, Error)]
pub enum ReadFault {
    /// It wasn't started: the shelf's count of faults of `start` rose, or its files are told and none has the name.
    #[error("cannot open")]
    Start,
    /// A read failed: the shelf's count of faults of `read` rose.
    #[error("cannot read")]
    Read,
    /// The file gave more bytes than the limit.
    #[error("too long")]
    TooLong,
    /// There was no memory for the bytes.
    #[error("want of memory")]
    Memory,
}

/// The bytes of the named file to its end, where it has at most `limit` of them.
///
/// It starts the file once, and makes at most `limit + 2` reads. No answer changes the shelf's files; which file is
/// started after it isn't said.
///
/// - `Start`: only where the count of faults of `start` rose, or the files are told and none has the name, which
///   always gets this answer.
/// - `Read`: only where the count of faults of `read` rose.
/// - `TooLong`: exactly where the file gave more than `limit` bytes; where the files are told, only
///   where the name has more than `limit`, and then the answer is no `Ok`.
/// - `Memory`: there was no memory for the bytes.
///
/// The words stand in `specs/Devices.antt`.
pub fn read_whole<S: Shelf>(
    alloc: Global,
    shelf: &mut S,
    name: &str,
    limit: usize,
) -> Result<Vec<u8>, ReadFault>
    // the bytes
    ensures whole { IfOk result (λ bytes. HoldsBytes (S.files shelf.old) name.now bytes.items) }
    ensures count { IfOk result (λ bytes. length bytes.items ≡ S.given shelf.new) }
    ensures limit { IfOk result (λ bytes. length bytes.items ≤ limit) }

    // each refusal
    ensures start { IsErrOf result ReadFault.Start
        → Rose (S.start_faults shelf.old) (S.start_faults shelf.new) ⊎ IsMissing (S.files shelf.old) name.now }
    ensures missing { IsMissing (S.files shelf.old) name.now → IsErrOf result ReadFault.Start }
    ensures read { IsErrOf result ReadFault.Read
        → Rose (S.read_faults shelf.old) (S.read_faults shelf.new) }
    ensures too_long { IsErrOf result ReadFault.TooLong ↔ (limit < S.given shelf.new) }
    ensures only_longer { IsErrOf result ReadFault.TooLong → IsLonger (S.files shelf.old) name.now limit }
    ensures longer { IfSome (S.files shelf.old) (λ files.
        IfSome (held files name.now) (λ bytes. limit < length bytes → IsErr result)) }

    // the shelf after it
    ensures files { S.files shelf.new ≡ S.files shelf.old }
    ensures start_faults { S.start_faults shelf.old ≤ S.start_faults shelf.new }
    ensures read_faults { S.read_faults shelf.old ≤ S.read_faults shelf.new }
    ensures starts { S.starts shelf.new ≡ saturating_add (S.starts shelf.old) 1 }
    ensures reads { S.reads shelf.new ≤ S.reads shelf.old + limit + 2 }
{
    if shelf.start(name).is_err() {
        return Err(ReadFault::Start);
    }
    let mut bytes = Vec::new(alloc);
    let mut room = [0u8; 4096];
    loop {
        let count = match shelf.read(&mut room) {
            Ok(count) => count,
            Err(Failed) => return Err(ReadFault::Read),
        };
        if count == 0 {
            return Ok(bytes);
        }
        if bytes.len() + count > limit {
            return Err(ReadFault::TooLong);
        }
        if bytes.extend_from_slice(&room[..count]).is_err() {
            return Err(ReadFault::Memory);
        }
    }
}

/// Appends the whole piece to the sink, in as many writes as it takes. It takes no memory.
///
/// `Failed`: the sink's count of faults rose, and a front of the piece was appended. The contract is
/// `Prints` of `specs/Printing.antt`.
pub fn put<K: Sink>(sink: &mut K, piece: &[u8]) -> Result<(), Failed>
    ensures { Prints (sunk K.Sink sink.old sink.new) piece.now result }
{
    let mut rest = piece;
    while !rest.is_empty() {
        match sink.write(rest) {
            Ok(count) => rest = &rest[count..],
            Err(Failed) => return Err(Failed),
        }
    }
    Ok(())
}

/// Appends the parts to the sink, one after another. It takes no memory.
///
/// `Failed`: the sink's count of faults rose, and a front of the joined parts was appended. The
/// contract is `Prints` of `specs/Printing.antt`, over the text `joined`.
pub fn put_all<K: Sink>(sink: &mut K, parts: &[&[u8]]) -> Result<(), Failed>
    ensures { Prints (sunk K.Sink sink.old sink.new) (joined parts.now) result }
{
    let mut out = Writer::new(sink);
    out.put_all(parts);
    out.finish()
}
