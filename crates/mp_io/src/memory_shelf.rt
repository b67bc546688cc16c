//! A shelf of files in memory, whose calls fail at the numbers that it was made with.

ghost use Rattle.std.specs.Prelude.{◌≡◌, ◌⊎◌, ◌<◌, ◌≤◌, ◌+◌, ◌++◌, ◌∷◌, not, min, true, false, [], Option, Some};
ghost use Rattle.std.specs.Prelude.{length, take, OnOk, OnErr, IfOk, IfSome, IsErr, is_ok, is_some, MatchResult};
ghost use Rattle.std.specs.Prelude.{option_and_then, if◌then◌else◌, string_bytes};
ghost use Rattle.std.specs.Io.{ReadsAtMost};
ghost use Rattle.std.specs.Io.KnownBytes.{ReadConsumes};
ghost use Rattle.std.specs.Str.{bytes_eq};
ghost use Rattle.mp_io.specs.Devices.{HasCause, HasRead, IsMissing, Rose, Text, held, saturating_add};
ghost use Rattle.mp_io.specs.MemoryShelf.{after_read, after_start, bytes_found, count_given, is_fault};
ghost use Rattle.mp_io.specs.MemoryShelfView.{IsInPlace, bytes_at, entries_of, rest_at};

use crate::{Failed, Memory, Shelf};
use std::alloc::{AllocError, Global};
use std::marker::Model;

#[derive(Drop)]
struct HeldFile {
    name: String,
    bytes: Vec<u8>,
}

// The index of a file, and how many of its bytes were given.
#[derive(Clone, Copy)]
struct Place {
    index: usize,
    at: usize,
}

/// Files that are held in memory, and told.
///
/// Calls of `start` and `read` are numbered together from 0, and those whose number the shelf was
/// made with are faults. A contract sees it as a `ShelfState` of `specs/MemoryShelf.antt`.
#[derive(Drop)]
pub struct MemoryShelf {
    alloc: Global,
    files: Vec<HeldFile>,
    started: Option<Place>,
    calls: u64,
    fails: Vec<u64>,
    starts: u64,
    reads: u64,
    start_faults: u64,
    read_faults: u64,
}

impl Model for MemoryShelf {
    ghost use Rattle.mp_io.specs.MemoryShelf.{ShelfState};

    ghost Value = { ShelfState };

    ghost use Rattle.mp_io.specs.MemoryShelfView.{shelf_state, IsShelf};

    ghost view = { shelf_state };

    ghost invariant = { IsShelf };
}

// The index of the file that counts for a name: the last one of that name.
fn find_last(files: &[HeldFile], name: &str) -> Option<usize>
    ensures bytes { held (entries_of files.now) name.now ≡ option_and_then (bytes_at files.now) result }
    ensures within { IfSome result (λ i. i < length files.now) }
{
    let mut found = None;
    for (i, file) in files.iter().enumerate() {
        if file.name.as_str() == name {
            found = Some(i);
        }
    }
    found
}

// A file of this name with these bytes, copied.
fn make_file(alloc: Global, name: &str, bytes: &[u8]) -> Result<HeldFile, AllocError>
    ensures { IfOk result (λ file.
        (string_bytes file.name ≡ name.now) × (file.bytes.items ≡ bytes.now)) }
{
    Ok(HeldFile {
        name: String::from_str(alloc, name)?,
        bytes: bytes.to_vec(alloc)?,
    })
}

// Fills a front of the room with what is left at a place, and says how many bytes that are.
fn give(files: &[HeldFile], place: Place, room: &mut [u8]) -> usize
    requires { IsInPlace files.now (Some place) }
    ensures count { result ≡ min (length (rest_at files.now (Some place))) (length room.old) }
    ensures bytes { take result room.new ≡ take result (rest_at files.now (Some place)) }
    ensures after { IsInPlace files.now (Some (record place { at = place.at + result })) }
{
    match files.get(place.index) {
        Some(file) => {
            let left = &file.bytes[place.at..];
            let count = left.len().min(room.len());
            room[..count].copy_from_slice(&left[..count]);
            count
        }
        None => unreachable!(),
    }
}

impl MemoryShelf {
    /// A shelf with no file, of whose calls of `start` and `read`, numbered together from 0, those
    /// with the numbers in `fails` are faults. It takes no memory.
    pub fn new(alloc: Global, fails: Vec<u64>) -> MemoryShelf
        ensures { result ≡ record {
          files = [];
          is_started = false;
          rest = [];
          given = 0;
          calls = 0;
          fails = fails.items;
          starts = 0;
          reads = 0;
          start_faults = 0;
          read_faults = 0;
        } }
    {
        MemoryShelf {
            alloc,
            files: Vec::new(alloc),
            started: None,
            calls: 0,
            fails,
            starts: 0,
            reads: 0,
            start_faults: 0,
            read_faults: 0,
        }
    }

    /// Holds a file of this name with a copy of these bytes, in place of an older one of that name.
    /// A file that is started stays started, with the same bytes left.
    ///
    /// `Memory`: there was no memory for the copy, and the shelf is as it was.
    pub fn add(&mut self, name: &str, bytes: &[u8]) -> Result<(), Memory>
        ensures ok { OnOk result
            (self.new ≡ record self.old { files = self.old.files ++ (name.now, bytes.now) ∷ [] }) }
        ensures held { OnOk result ((other : Text) → held self.new.files other
            ≡ (if bytes_eq name.now other then Some bytes.now else held self.old.files other)) }
        ensures err { OnErr result (self.new ≡ self.old) }
    {
        let alloc = self.alloc;
        let file = match make_file(alloc, name, bytes) {
            Ok(file) => file,
            Err(AllocError) => return Err(Memory),
        };
        if self.files.push(file).is_err() {
            return Err(Memory);
        }
        Ok(())
    }

    /// How often a start and how often a read was a fault, each a number that stops at its greatest.
    pub fn faults(&self) -> (u64, u64)
        ensures starts { result.0 ≡ self.now.start_faults }
        ensures reads { result.1 ≡ self.now.read_faults }
    {
        (self.start_faults, self.read_faults)
    }
}

impl Shelf for MemoryShelf {
    ghost files = { λ s. Some s.files };

    ghost is_started = { λ s. s.is_started };

    ghost rest = { λ s. Some s.rest };

    ghost given = { λ s. s.given };

    ghost starts = { λ s. s.starts };

    ghost reads = { λ s. s.reads };

    ghost start_faults = { λ s. s.start_faults };

    ghost read_faults = { λ s. s.read_faults };

    /// Starts the file that counts for the name.
    ///
    /// `Failed`: exactly where the call's number is one of those that fail, which alone is a fault,
    /// or no file has the name. Nothing is started then.
    fn start(&mut self, name: &str) -> Result<(), Failed>
        ensures files { self.new.files ≡ self.old.files }
        ensures started { self.new.is_started ≡ is_ok result }
        ensures rest { OnOk result (HasRead (Some self.old.files) name.now [] (Some self.new.rest)) }
        ensures given { self.new.given ≡ 0 }
        ensures missing { IsMissing (Some self.old.files) name.now → IsErr result }
        ensures cause { OnErr result
            (Rose self.old.start_faults self.new.start_faults ⊎ IsMissing (Some self.old.files) name.now) }
        ensures starts { self.new.starts ≡ saturating_add self.old.starts 1 }
        ensures reads { self.new.reads ≡ self.old.reads }
        ensures start_faults { self.old.start_faults ≤ self.new.start_faults }
        ensures read_faults { self.old.read_faults ≤ self.new.read_faults }

        // exactly
        ensures after { self.new ≡ after_start self.old name.now }
        ensures answer { is_ok result ≡ is_some (bytes_found self.old name.now) }
    {
        let fault = self.fails.contains(&self.calls);
        self.calls = self.calls.saturating_add(1);
        self.starts = self.starts.saturating_add(1);
        self.started = None;
        if fault {
            self.start_faults = self.start_faults.saturating_add(1);
            return Err(Failed);
        }
        match find_last(&self.files, name) {
            Some(index) => {
                self.started = Some(Place { index, at: 0 });
                Ok(())
            }
            None => Err(Failed),
        }
    }

    /// Gives as many of the bytes that are left as fit into the room.
    ///
    /// `Failed`: exactly where the call's number is one of those that fail, which is a fault.
    fn read(&mut self, room: &mut [u8]) -> Result<usize, Failed>
        requires { self.old.is_started ≡ true }
        ensures files { self.new.files ≡ self.old.files }
        ensures started { self.new.is_started ≡ true }
        ensures bound { ReadsAtMost result room.new }
        ensures bytes { ReadConsumes (Some self.old.rest) (Some self.new.rest) result room.new }
        ensures given { MatchResult result
            (λ count. self.new.given ≡ saturating_add self.old.given count)
            (λ _. self.new.given ≡ self.old.given) }
        ensures cause { HasCause self.old.read_faults self.new.read_faults result }
        ensures starts { self.new.starts ≡ self.old.starts }
        ensures reads { self.new.reads ≡ saturating_add self.old.reads 1 }
        ensures start_faults { self.old.start_faults ≤ self.new.start_faults }

        // exactly
        ensures after { self.new ≡ after_read self.old (length room.old) }
        ensures answer { is_ok result ≡ not (is_fault self.old) }
        ensures count { IfOk result (λ count. count ≡ count_given self.old (length room.old)) }
    {
        let fault = self.fails.contains(&self.calls);
        self.calls = self.calls.saturating_add(1);
        self.reads = self.reads.saturating_add(1);
        if fault {
            self.read_faults = self.read_faults.saturating_add(1);
            return Err(Failed);
        }
        match self.started {
            Some(place) => {
                let count = give(&self.files, place, room);
                self.started = Some(Place {
                    index: place.index,
                    at: place.at + count,
                });
                Ok(count)
            }
            None => unreachable!(),
        }
    }
}
