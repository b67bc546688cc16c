//! The system's files and streams as devices. They tell no bytes: what they pass on is trusted.

ghost use Rattle.std.specs.Prelude.{◌≡◌, ◌⊎◌, ◌<◌, ◌≤◌, ℕ, true, false, not, None, Ok, length, OnErr, OnOk, IfOk};
ghost use Rattle.std.specs.Prelude.{IsErr, IsOk, [], codes, is_ok, MatchResult};
ghost use Rattle.std.specs.Io.{ReadsAtMost, WritesAtMost};
ghost use Rattle.std.specs.Io.KnownBytes.{ReadConsumes, WriteAppends};
ghost use Rattle.mp_io.specs.Devices.{Files, HasCause, HasRead, IsMissing, Rose, count_faults, saturating_add};

use crate::{Failed, Shelf, Sink};
use std::fs::File;
use std::io;
use std::io::{Read, Write};
use std::marker::Model;
use std::rt::Files;

#[derive(Drop)]
enum Started<F, I> {
    Nothing,
    Named(F),
    Standard(I),
}

/// The system's files by their paths, and standard input under the name `-`.
///
/// It tells no bytes. A contract sees it as a `RealShelfState` of `specs/RealShelf.antt`.
#[derive(Drop)]
pub struct RealShelf<'a, R: Files + Input> {
    rt: &'a R,
    started: Started<R::File, R::Reader>,
    given: u64,
    starts: u64,
    reads: u64,
    start_faults: u64,
    read_faults: u64,
}

impl<'a, R: Files + Input> Model for RealShelf<'a, R> {
    ghost use Rattle.mp_io.specs.RealShelf.{RealShelfState};

    ghost Value = { RealShelfState };

    ghost use Rattle.mp_io.specs.RealShelfView.{is_open};

    ghost view = { λ s. record {
      is_started = is_open s.started;
      given = s.given;
      starts = s.starts;
      reads = s.reads;
      start_faults = s.start_faults;
      read_faults = s.read_faults;
    } };
}

impl<'a, R: Files + Input> RealShelf<'a, R> {
    /// The shelf of the runtime's files, of which none is started and none was at fault.
    pub fn new(rt: &'a R) -> RealShelf<'a, R>
        ensures { result ≡ record {
          is_started = false;
          given = 0;
          starts = 0;
          reads = 0;
          start_faults = 0;
          read_faults = 0;
        } }
    {
        RealShelf {
            rt,
            started: Started::Nothing,
            given: 0,
            starts: 0,
            reads: 0,
            start_faults: 0,
            read_faults: 0,
        }
    }
}

impl<'a, R: Files + Input> Shelf for RealShelf<'a, R> {
    ghost files = { λ _. None };

    ghost is_started = { λ s. s.is_started };

    ghost rest = { λ _. None };

    ghost given = { λ s. s.given };

    ghost starts = { λ s. s.starts };

    ghost reads = { λ s. s.reads };

    ghost start_faults = { λ s. s.start_faults };

    ghost read_faults = { λ s. s.read_faults };

    /// Opens the file of this path, or standard input for `-`.
    ///
    /// `Failed` comes only with a fault, which is counted.
    // It is a fault where the system doesn't open the file. Standard input never fails to start.
    fn start(&mut self, name: &str) -> Result<(), Failed>
        ensures started { self.new.is_started ≡ is_ok result }
        ensures rest { OnOk result (HasRead None name.now [] None) }
        ensures given { self.new.given ≡ 0 }
        ensures missing { IsMissing None name.now → IsErr result }
        ensures cause { OnErr result
            (Rose self.old.start_faults self.new.start_faults ⊎ IsMissing None name.now) }
        ensures starts { self.new.starts ≡ saturating_add self.old.starts 1 }
        ensures reads { self.new.reads ≡ self.old.reads }
        ensures start_faults { self.old.start_faults ≤ self.new.start_faults }
        ensures read_faults { self.old.read_faults ≤ self.new.read_faults }

        // exactly
        ensures standard { name.now ≡ codes "-" → IsOk result }
        ensures after { self.new ≡ record self.old {
          is_started = is_ok result;
          given = 0;
          starts = self.new.starts;
          start_faults = count_faults (not (is_ok result)) self.old.start_faults;
        } }
    {
        self.starts = self.starts.saturating_add(1);
        self.started = Started::Nothing;
        self.given = 0;
        if name == "-" {
            self.started = Started::Standard(self.rt.reader());
            return Ok(());
        }
        match File::open(self.rt, name) {
            Ok(file) => {
                self.started = Started::Named(file);
                Ok(())
            }
            Err(_) => {
                self.start_faults = self.start_faults.saturating_add(1);
                Err(Failed)
            }
        }
    }

    /// Reads once from the file that is open.
    ///
    /// `Failed` comes only with a fault, which is counted.
    // It is a fault where the system doesn't read.
    fn read(&mut self, room: &mut [u8]) -> Result<usize, Failed>
        requires { self.old.is_started ≡ true }
        ensures started { self.new.is_started ≡ true }
        ensures bound { ReadsAtMost result room.new }
        ensures bytes { ReadConsumes None None result room.new }
        ensures given { MatchResult result
            (λ count. self.new.given ≡ saturating_add self.old.given count)
            (λ _. self.new.given ≡ self.old.given) }
        ensures cause { HasCause self.old.read_faults self.new.read_faults result }
        ensures starts { self.new.starts ≡ self.old.starts }
        ensures reads { self.new.reads ≡ saturating_add self.old.reads 1 }
        ensures start_faults { self.old.start_faults ≤ self.new.start_faults }

        // exactly
        ensures after { self.new ≡ record self.old {
          given = self.new.given;
          reads = self.new.reads;
          read_faults = count_faults (not (is_ok result)) self.old.read_faults;
        } }
    {
        self.reads = self.reads.saturating_add(1);
        let answer = match &mut self.started {
            Started::Named(file) => file.read(room),
            Started::Standard(input) => input.read(room),
            Started::Nothing => unreachable!(),
        };
        match answer {
            Ok(count) => {
                self.given = self.given.saturating_add(count as u64);
                Ok(count)
            }
            Err(_) => {
                self.read_faults = self.read_faults.saturating_add(1);
                Err(Failed)
            }
        }
    }
}

/// A sink over one writer, which is flushed after each write.
///
/// It tells no bytes. A contract sees it as its count of faults.
#[derive(Drop)]
pub struct RealSink<W: Write + Drop> {
    writer: W,
    faults: u64,
}

impl<W: Write + Drop> Model for RealSink<W> {
    ghost Value = { ℕ };

    ghost view = { λ s. s.faults };
}

impl<W: Write + Drop> RealSink<W> {
    /// The sink over this writer, of which no write was at fault.
    pub fn new(writer: W) -> RealSink<W>
        ensures { result ≡ 0 }
    {
        RealSink { writer, faults: 0 }
    }
}

// What a write answers: the bytes that the writer took, where it took one and was flushed after it.
fn write_answer(taken: io::Result<usize>, flushed: io::Result<()>) -> Result<usize, Failed>
    ensures taken { IfOk result (λ count. (taken ≡ Ok count) × (0 < count)) }
    ensures flushed { IsOk result → IsOk flushed }
    ensures succeeds { IsOk flushed → IfOk taken (λ count. 0 < count → result ≡ Ok count) }
{
    match taken {
        Ok(count) if count > 0 && flushed.is_ok() => Ok(count),
        _ => Err(Failed),
    }
}

impl<W: Write + Drop> Sink for RealSink<W> {
    ghost contents = { λ _. None };

    ghost faults = { λ s. s };

    /// Writes a front of the piece and flushes the writer.
    ///
    /// `Failed` comes only with a fault, which is counted, and never of a piece without bytes.
    // It is a fault where the piece has a byte, and the writer takes none of it or isn't flushed.
    fn write(&mut self, piece: &[u8]) -> Result<usize, Failed>
        ensures bound { WritesAtMost result piece.now }
        ensures some { IfOk result (λ count. 0 < length piece.now → 0 < count) }
        ensures empty { length piece.now ≡ 0 → result ≡ Ok 0 }
        ensures bytes { WriteAppends None None result piece.now }
        ensures cause { HasCause self.old self.new result }

        // exactly
        ensures after { self.new ≡ count_faults (not (is_ok result)) self.old }
    {
        if piece.is_empty() {
            return Ok(0);
        }
        let taken = self.writer.write(piece);
        let flushed = self.writer.flush();
        let answer = write_answer(taken, flushed);
        if answer.is_err() {
            self.faults = self.faults.saturating_add(1);
        }
        answer
    }
}
