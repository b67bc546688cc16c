//! Names of symbols, operations, kinds and variables, and lists of them.
ghost use Rattle.std.specs.Prelude.{◌≡◌, [], ◌∷◌, ◌++◌, length, slice_get, option_map, bytes_eq, OnOk, OnErr, IfOk};
ghost use Rattle.std.specs.Prelude.{Err, Some, true, false, refl, ◌↔◌};
ghost use Rattle.std.specs.Ordering.{is_eq, nat_cmp, eq_by_cmp};
ghost use Rattle.std.specs.Cmp.{partial_equiv_from_equiv, po, eq_by_cmp_equiv};
ghost use Rattle.std.specs.Cmp.Lexicographic.{slice_cmp};
ghost use Rattle.std.proofs.lemmas.Cmp.{nat_list_cmp_total};
ghost use Rattle.std.specs.List.{list_any, list_all};
ghost use Rattle.mp_term.specs.NameView.{name_bytes, IsWithin};
ghost use Rattle.mp_term.specs.Names.{is_name, is_name_byte, name_set, names_ascend};

use crate::limits::MAX_NAME_BYTES;
use crate::memory::Memory;
use std::alloc::{AllocError, Global};
use std::cmp::Ordering;
use std::marker::Model;

// A name of so many bytes, or fewer, takes no allocation.
const INLINE_BYTES: usize = 14;

// The bytes of a name: few stand in the value itself, with their count, and more in an allocation.
#[derive(Drop)]
enum Bytes {
    Short([u8; INLINE_BYTES], u8),
    Long(Box<Vec<u8>>),
}

impl Bytes {
    // A copy of the bytes.
    fn new(alloc: Global, bytes: &[u8]) -> Result<Bytes, AllocError>
        ensures bytes { IfOk result (λ b. name_bytes b ≡ bytes.now) }
        ensures within { IfOk result IsWithin }
    {
        if bytes.len() <= INLINE_BYTES {
            let mut short = [0; INLINE_BYTES];
            short[..bytes.len()].copy_from_slice(bytes);
            return Ok(Bytes::Short(short, bytes.len() as u8));
        }
        let long = Vec::from_slice(alloc, bytes)?;
        Ok(Bytes::Long(Box::new(alloc, long)?))
    }

    // The bytes as a slice.
    fn as_slice(&self) -> &[u8]
        requires { IsWithin self.now }
        ensures { result.now ≡ name_bytes self.now }
    {
        match self {
            Bytes::Short(short, count) => &short[..*count as usize],
            Bytes::Long(long) => long.as_slice(),
        }
    }

    // The same bytes once more.
    fn copy(&self, alloc: Global) -> Result<Bytes, AllocError>
        requires { IsWithin self.now }
        ensures bytes { IfOk result (λ b. name_bytes b ≡ name_bytes self.now) }
        ensures within { IfOk result IsWithin }
    {
        match self {
            Bytes::Short(short, count) => Ok(Bytes::Short(*short, *count)),
            Bytes::Long(long) => Bytes::new(alloc, long.as_slice()),
        }
    }
}

/// A name: 1 to 64 ASCII letters and digits. Contracts see its bytes. Names compare by their bytes.
#[derive(Drop)]
pub struct Name {
    bytes: Bytes,
}

// Each node of a term or a pattern may hold a name.
const _: () = prove!(size_of::<Name>() == 16);

impl Model for Name {
    ghost use Rattle.std.specs.Prelude.{ℕ, List};
    ghost use Rattle.std.specs.Prelude.{◌≡◌, true};
    ghost use Rattle.mp_term.specs.Names.{is_name};
    ghost use Rattle.mp_term.specs.NameView.{name_bytes, IsWithin};

    ghost Value = { List ℕ };

    ghost view = { λ n. name_bytes n.bytes };

    ghost invariant = { λ n. IsWithin n.bytes × (is_name (name_bytes n.bytes) ≡ true) };
}

/// Why bytes make no name, or no sign.
#[derive(Debug, Drop)]
pub enum NameFault {
    /// The bytes aren't so spelt.
    Spelling,
    /// There was no memory for a copy of them.
    Memory,
}

impl From<AllocError> for NameFault {
    ghost use Rattle.mp_term.specs.declared.name.NameFault.TheVariants as fault;

    ghost from_gives = { λ _ e. e ≡ fault.Memory };

    fn from(_error: AllocError) -> NameFault {
        NameFault::Memory
    }
}

// The order of two lists of bytes, which is told by the first place where they differ: names are short.
fn compare_bytes(a: &[u8], b: &[u8]) -> Ordering
    ensures { result ≡ slice_cmp nat_cmp a.now b.now }
{
    let mut place = 0;
    while place < a.len() && place < b.len() {
        if a[place] != b[place] {
            return a[place].cmp(&b[place]);
        }
        place += 1;
    }
    a.len().cmp(&b.len())
}

// The byte is an ASCII letter or digit.
fn is_name_byte(byte: u8) -> bool
    ensures { result ≡ is_name_byte byte }
{
    byte.is_ascii_alphanumeric()
}

// The bytes are ASCII letters and digits.
fn are_name_bytes(bytes: &[u8]) -> bool
    ensures { result ≡ list_all is_name_byte bytes.now }
{
    bytes.iter().all(|byte| is_name_byte(*byte))
}

// The bytes are the spelling of a name.
fn is_name(bytes: &[u8]) -> bool
    ensures { result ≡ is_name bytes.now }
{
    if bytes.is_empty() || MAX_NAME_BYTES < bytes.len() {
        return false;
    }
    are_name_bytes(bytes)
}

impl Name {
    /// The name that is spelt by the bytes, which are copied (`is_name` of `specs/Names.antt`).
    /// `Spelling` comes exactly where they are no name, `Memory` where there is no room for the copy.
    pub fn new(alloc: Global, bytes: &[u8]) -> Result<Name, NameFault>
        ensures ok { IfOk result (λ n. n ≡ bytes.now) }
        ensures spelling { (result ≡ Err NameFault.Spelling) ↔ (is_name bytes.now ≡ false) }
    {
        if !is_name(bytes) {
            return Err(NameFault::Spelling);
        }
        let bytes = Bytes::new(alloc, bytes)?;
        Ok(Name { bytes })
    }

    /// The bytes of the name, which are the spelling of one.
    pub fn bytes(&self) -> &[u8]
        ensures bytes { result.now ≡ self.now }
        ensures name { is_name result.now ≡ true }
    {
        self.bytes.as_slice()
    }

    /// An equal name. `Memory` comes where there is no room for it.
    pub fn copy(&self, alloc: Global) -> Result<Name, Memory>
        ensures { IfOk result (λ n. n ≡ self.now) }
    {
        let bytes = self.bytes.copy(alloc)?;
        Ok(Name { bytes })
    }
}

impl PartialEq for Name {
    ghost eq = { λ a b. is_eq (slice_cmp nat_cmp a b) };

    ghost laws = { partial_equiv_from_equiv (eq_by_cmp_equiv nat_list_cmp_total) };

    fn eq(&self, other: &Name) -> bool {
        self.cmp(other).is_eq()
    }
}

impl Eq for Name {
    ghost laws = { eq_by_cmp_equiv nat_list_cmp_total };
}

impl PartialOrd for Name {
    ghost partial_cmp = { λ a b. Some (slice_cmp nat_cmp a b) };

    ghost laws = { po nat_list_cmp_total (λ _ _. refl) };

    fn partial_cmp(&self, other: &Name) -> Option<Ordering> {
        Some(self.cmp(other))
    }
}

impl Ord for Name {
    ghost cmp = { slice_cmp nat_cmp };

    ghost total = { nat_list_cmp_total };

    ghost matches_partial_cmp = { λ _ _. refl };

    ghost matches_eq = { λ _ _. refl };

    fn cmp(&self, other: &Name) -> Ordering {
        compare_bytes(self.bytes.as_slice(), other.bytes.as_slice())
    }
}

/// A list of names. Contracts see the list of their bytes.
#[derive(Drop)]
pub struct Names {
    pub(crate) items: Vec<Name>,
}

impl Model for Names {
    ghost use Rattle.std.specs.Prelude.{ℕ, List};

    ghost Value = { List (List ℕ) };

    ghost view = { λ ns. ns.items.items };
}

impl Names {
    /// The empty list, which takes no memory.
    pub fn new(alloc: Global) -> Self
        ensures { result ≡ [] }
    {
        Names {
            items: Vec::new(alloc),
        }
    }

    /// Adds a name at the end. At `Memory` the list is as before, and the name is dropped.
    pub fn push(&mut self, item: Name) -> Result<(), Memory>
        ensures ok { OnOk result (self.new ≡ self.old ++ item ∷ []) }
        ensures err { OnErr result (self.new ≡ self.old) }
    {
        self.items.push(item)?;
        Ok(())
    }

    /// The number of names.
    pub fn len(&self) -> usize
        ensures { result ≡ length self.now }
    {
        self.items.len()
    }

    /// The name at an index from 0, and None exactly where the index isn't below the length.
    pub fn get(&self, index: usize) -> Option<&Name>
        ensures { slice_get self.now index ≡ option_map (λ n. n.now) result }
    {
        self.items.get(index)
    }

    // The name of these bytes is in the list, whose names ascend.
    pub(crate) fn contains(&self, bytes: &[u8]) -> bool
        requires { names_ascend self.now ≡ true }
        ensures { result ≡ list_any (bytes_eq bytes.now) self.now }
    {
        let found = self.items.binary_search_by(|name| name.bytes().cmp(bytes));
        found.is_ok()
    }

    // Sorts the names and leaves each once.
    pub(crate) fn make_set(&mut self)
        ensures { self.new ≡ name_set self.old }
    {
        self.items.sort_unstable();
        self.items.dedup();
    }
}
