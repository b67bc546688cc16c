//! The two devices that everything above is generic over, and how their calls fail.

ghost use Rattle.std.specs.Prelude.{◌≡◌, ◌⊎◌, ◌<◌, ◌≤◌, ℕ, Bool, true, List, [], Option, length, Ok, OnErr, OnOk, IfOk};
ghost use Rattle.std.specs.Prelude.{IsErr, is_ok, MatchResult};
ghost use Rattle.std.specs.Io.{ReadsAtMost, WritesAtMost};
ghost use Rattle.std.specs.Io.KnownBytes.{ReadConsumes, WriteAppends};
ghost use Rattle.mp_io.specs.Devices.{Files, HasCause, HasRead, IsMissing, Rose, saturating_add};

/// A call of a device failed. The device's count for that call says whether the device is at fault.
#[derive(Clone, Copy, Debug, PartialEq, Eq)]
pub struct Failed;

/// Memory ran out.
#[derive(Clone, Copy, Debug, PartialEq, Eq)]
pub struct Memory;

/// Files by name, of which one at a time is read from its first byte to its end.
///
/// The words of its contracts stand in `specs/Devices.antt`. The counts of calls and of faults are numbers of 64 bits
/// that never fall, and one that stands at its greatest number when a call ends counts as risen.
pub trait Shelf {
    /// The files, where the shelf tells them.
    ghost files: { Self → Option Files };

    /// A file is started.
    ghost is_started: { Self → Bool };

    /// What is left of the started file, where the shelf tells it.
    ghost rest: { Self → Option (List ℕ) };

    /// How many bytes were given since the last start, a number that stops at its greatest.
    ghost given: { Self → ℕ };

    /// How many calls of `start` were made, a number that stops at its greatest.
    ghost starts: { Self → ℕ };

    /// How many calls of `read` were made, a number that stops at its greatest.
    ghost reads: { Self → ℕ };

    /// How often `start` was at fault.
    ghost start_faults: { Self → ℕ };

    /// How often `read` was at fault.
    ghost read_faults: { Self → ℕ };

    /// Makes the named file the started one, with all its bytes left.
    ///
    /// `Failed`: the count of the faults of starts rose, or the files are told and none has the name, which alone
    /// is no fault and always fails. Nothing is started then. No answer changes the files.
    fn start(&mut self, name: &str) -> Result<(), Failed>
        ensures files { files self.new ≡ files self.old }

        // what is started, and what is left of it
        ensures started { is_started self.new ≡ is_ok result }
        ensures rest { OnOk result (HasRead (files self.old) name.now [] (rest self.new)) }
        ensures given { given self.new ≡ 0 }

        // when it fails
        ensures missing { IsMissing (files self.old) name.now → IsErr result }
        ensures cause { OnErr result
            (Rose (start_faults self.old) (start_faults self.new) ⊎ IsMissing (files self.old) name.now) }

        // the counts
        ensures starts { starts self.new ≡ saturating_add (starts self.old) 1 }
        ensures reads { reads self.new ≡ reads self.old }
        ensures start_faults { start_faults self.old ≤ start_faults self.new }
        ensures read_faults { read_faults self.old ≤ read_faults self.new };

    /// Fills a front of the room with the next bytes of the started file, which loses them, and
    /// answers how many they are. None into room that isn't empty means that none is left.
    ///
    /// `Failed`: the count of the faults of reads rose, and no byte was given; at `Ok` it stays. Every
    /// answer leaves the file started and the files as they were.
    fn read(&mut self, room: &mut [u8]) -> Result<usize, Failed>
        requires { is_started self.old ≡ true }
        ensures files { files self.new ≡ files self.old }
        ensures started { is_started self.new ≡ true }

        // what was given: the next bytes, and none into room only at the end
        ensures bound { ReadsAtMost result room.new }
        ensures bytes { ReadConsumes (rest self.old) (rest self.new) result room.new }
        ensures given { MatchResult result
            (λ count. given self.new ≡ saturating_add (given self.old) count)
            (λ _. given self.new ≡ given self.old) }

        // when it fails, and the counts
        ensures cause { HasCause (read_faults self.old) (read_faults self.new) result }
        ensures starts { starts self.new ≡ starts self.old }
        ensures reads { reads self.new ≡ saturating_add (reads self.old) 1 }
        ensures start_faults { start_faults self.old ≤ start_faults self.new };
}

/// A place where bytes go.
///
/// The words of its contract stand in `specs/Devices.antt`.
pub trait Sink {
    /// The bytes written so far, where the sink tells them.
    ghost contents: { Self → Option (List ℕ) };

    /// How often `write` was at fault.
    ghost faults: { Self → ℕ };

    /// Appends a front of the piece, of at least one byte where the piece has one, and answers how
    /// many bytes that is.
    ///
    /// `Failed`: the count of faults rose, and nothing was appended; at `Ok` it stays. An empty piece
    /// never fails.
    fn write(&mut self, piece: &[u8]) -> Result<usize, Failed>
        ensures bound { WritesAtMost result piece.now }
        ensures some { IfOk result (λ count. 0 < length piece.now → 0 < count) }
        ensures empty { length piece.now ≡ 0 → result ≡ Ok 0 }
        ensures bytes { WriteAppends (contents self.old) (contents self.new) result piece.now }
        ensures cause { HasCause (faults self.old) (faults self.new) result };
}
