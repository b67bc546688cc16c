//! Signatures: the declared operations and kinds.
ghost use Rattle.std.specs.Prelude.{◌≡◌, ◌<◌, ◌≤◌, ◌+◌, Some, ◌++◌, ◌∷◌, [], ◌⊎◌, length, slice_get, option_map};
ghost use Rattle.std.specs.Prelude.{position, bytes_eq, codes, OnOk, OnErr, IfOk, IfErr, IfSome, Err, true};
ghost use Rattle.std.specs.List.{list_any, list_all};
ghost use Rattle.mp_term.specs.Tree.{symbol as symbol_of};
ghost use Rattle.mp_term.specs.View.{tree};
ghost use Rattle.mp_term.specs.Names.{name_set, names_ascend};
ghost use Rattle.mp_term.specs.Signature.{holds_of, allows, has_name, has_sign, clashes, in_order, op_fault};
ghost use Rattle.mp_term.specs.Signature.{kind_fault, kind_names, kind_members, in_kind, is_number, is_digit};
ghost use Rattle.mp_term.specs.Signature.{well_formed, is_assoc, is_comm, is_one, IsSignature};

use crate::limits::{MAX_ARITY, MAX_KINDS, MAX_OPS};
use crate::memory::Memory;
use crate::name::{Name, Names};
use crate::name_table::NameTable;
use crate::sign::Sign;
use crate::term::{OpId, Term};
use std::alloc::{AllocError, Global};
use std::marker::Model;
use thiserror::Error;

/// The number of a kind in its signature. The built-in kind `num` has the number 0, and the declared kinds follow in
/// order of declaration.
#[derive(Debug, Drop, Clone, Copy, PartialEq, Eq, PartialOrd, Ord)]
pub struct KindId(pub u32);

/// An operation, as declared.
#[derive(Drop)]
pub struct OpDecl {
    /// Its name.
    pub name: Name,
    /// The least number of arguments.
    pub least: u32,
    /// The least number of arguments is the only one.
    pub fixed: bool,
    /// The operation is associative.
    pub assoc: bool,
    /// The operation is commutative.
    pub comm: bool,
    /// The operation is one-identity: applied to one argument it is that argument.
    pub one: bool,
    /// Its infix sign.
    pub sign: Option<Sign>,
}

impl OpDecl {
    /// The operation may have that many arguments: `allows` of `specs/Signature.antt`. It takes no memory.
    pub fn allows(&self, count: usize) -> bool
        ensures { result ≡ allows count self.now }
    {
        let least = self.least as usize;
        if self.fixed {
            count == least
        } else {
            least <= count
        }
    }
}

/// Why a declaration isn't added to a signature, which stays as it was.
#[derive(Debug, Drop, Error)]
pub enum SigFault {
    /// The name, or an operation's sign, is held already.
    #[error("the name is held already")]
    DuplicateName,
    /// There are `MAX_OPS` operations.
    #[error("too many operations")]
    TooManyOps,
    /// There are `MAX_KINDS` kinds.
    #[error("too many kinds")]
    TooManyKinds,
    /// The flags and the number of arguments don't go together.
    #[error("the flags are not in order")]
    BadFlags,
    /// There was no memory.
    #[error("want of memory")]
    Memory,
}

impl From<Memory> for SigFault {
    ghost use Rattle.mp_term.specs.declared.signature.SigFault.TheVariants as fault;

    ghost from_gives = { λ _ e. e ≡ fault.Memory };

    fn from(_memory: Memory) -> SigFault {
        SigFault::Memory
    }
}

impl From<AllocError> for SigFault {
    ghost use Rattle.mp_term.specs.declared.signature.SigFault.TheVariants as fault;

    ghost from_gives = { λ _ e. e ≡ fault.Memory };

    fn from(_error: AllocError) -> SigFault {
        SigFault::Memory
    }
}

// A kind: its name, and its members, which ascend.
#[derive(Drop)]
struct Kind {
    name: Name,
    members: Names,
}

/// The declared operations, and the kinds, the built-in kind `num` among them, each by its number. Contracts see the
/// record `Sig` of `specs/Signature.antt`, which holds the operations and the declared kinds, and `IsSignature` says
/// what holds of each.
#[derive(Drop)]
pub struct Signature {
    pub(crate) ops: Vec<OpDecl>,
    op_table: NameTable,
    kinds: Vec<Kind>,
    kind_table: NameTable,
    num: Kind,
}

impl Model for Signature {
    ghost use Rattle.std.specs.Prelude.{◌≡◌, map, codes, []};
    ghost use Rattle.mp_term.specs.Signature.{Sig, IsSignature, kind_names};

    ghost Value = { Sig };

    ghost view = { λ s. record {
      ops = s.ops.items;
      kinds = map (λ k. record { name = k.name; members = k.members }) s.kinds.items;
    } };

    ghost invariant = { λ s.
        let sig : Sig =
        record {
          ops = s.ops.items;
          kinds = map (λ k. record { name = k.name; members = k.members }) s.kinds.items;
        } in
        IsSignature sig
        × (s.op_table ≡ map (λ d. d.name) sig.ops)
        × (s.kind_table ≡ kind_names sig)
        × (s.num.name ≡ codes "num")
        × (s.num.members ≡ []) };
}

// The declaration has the sign, where it has one at all.
fn has_sign(decl: &OpDecl, sign: &[u8]) -> bool
    ensures { result ≡ has_sign sign.now decl.now }
{
    match &decl.sign {
        None => false,
        Some(held) => sign == held.bytes(),
    }
}

// The two declarations have one name or one sign.
fn clashes(decl: &OpDecl, held: &OpDecl) -> bool
    ensures { result ≡ clashes decl.now held.now }
{
    if decl.name.bytes() == held.name.bytes() {
        return true;
    }
    match &decl.sign {
        None => false,
        Some(sign) => has_sign(held, sign.bytes()),
    }
}

// The declaration has a name or a sign that one of the operations has.
fn is_held(ops: &[OpDecl], decl: &OpDecl) -> bool
    ensures { result ≡ list_any (clashes decl.now) ops.now }
{
    ops.iter().any(|held| clashes(decl, held))
}

// The index of the operation of that sign.
fn index_of_sign(ops: &[OpDecl], sign: &[u8]) -> Option<usize>
    ensures index { result ≡ position (has_sign sign.now) ops.now }
    ensures within { IfSome result (λ i. i < length ops.now) }
{
    ops.iter().position(|held| has_sign(held, sign))
}

// The flags, the sign and the number of arguments go together.
fn in_order(decl: &OpDecl) -> bool
    ensures { result ≡ in_order decl.now }
{
    let assoc = !decl.assoc || (!decl.fixed && decl.least <= 2);
    let one = !decl.one || (!decl.fixed && decl.least <= 1);
    let infix = decl.sign.is_none() || !decl.fixed || 2 <= decl.least;
    assoc && one && infix
}

// The bytes are digits.
fn all_digits(bytes: &[u8]) -> bool
    ensures { result ≡ list_all is_digit bytes.now }
{
    bytes.iter().all(|byte| byte.is_ascii_digit())
}

// The bytes are the spelling of a number: digits, and at least one.
fn is_number(bytes: &[u8]) -> bool
    ensures { result ≡ is_number bytes.now }
{
    !bytes.is_empty() && all_digits(bytes)
}

// The kind at an index.
fn kind_at(kinds: &[Kind], index: usize) -> Option<&Kind>
    ensures { slice_get kinds.now index ≡ option_map (λ k. k.now) result }
{
    kinds.get(index)
}

impl Signature {
    /// The signature with no operation, and with the kind `num` alone. `Memory` comes where there is no room for its
    /// name.
    pub fn new(alloc: Global) -> Result<Signature, Memory>
        ensures { IfOk result (λ s. s ≡ record { ops = []; kinds = [] }) }
    {
        let Ok(name) = Name::new(alloc, b"num") else {
            return Err(Memory);
        };
        let mut kind_table = NameTable::new(alloc);
        kind_table.push(name.bytes())?;
        let num = Kind {
            name,
            members: Names::new(alloc),
        };
        Ok(Signature {
            ops: Vec::new(alloc),
            op_table: NameTable::new(alloc),
            kinds: Vec::new(alloc),
            kind_table,
            num,
        })
    }

    // Why the operation isn't added.
    fn op_fault(&self, decl: &OpDecl) -> Option<SigFault>
        ensures { result ≡ op_fault self.now decl.now }
    {
        if is_held(&self.ops, decl) {
            Some(SigFault::DuplicateName)
        } else if MAX_OPS <= self.op_count() {
            Some(SigFault::TooManyOps)
        } else if in_order(decl) {
            None
        } else {
            Some(SigFault::BadFlags)
        }
    }

    /// Adds an operation, and gives its number: the count of operations before. The least count of arguments must be at
    /// most `MAX_ARITY`.
    ///
    /// The refusals come in this order (`op_fault` of `specs/Signature.antt`), and leave the signature as it was; the
    /// declaration is dropped. `DuplicateName` comes exactly where an operation has the name or the sign, `TooManyOps`
    /// exactly where `MAX_OPS` are held, `BadFlags` exactly where the declaration isn't in order, and `Memory` where
    /// there is no room for it.
    pub fn add_op(&mut self, decl: OpDecl) -> Result<OpId, SigFault>
        requires { decl.least ≤ MAX_ARITY }
        ensures number { IfOk result (λ id. id.0 ≡ length self.old.ops) }
        ensures ok { OnOk result (self.new ≡ record self.old { ops = self.old.ops ++ decl ∷ [] }) }
        ensures err { OnErr result (self.new ≡ self.old) }
        ensures refused { IfSome (op_fault self.old decl) (λ fault. result ≡ Err fault) }
        ensures only_refused { IfErr result (λ e. (op_fault self.old decl ≡ Some e) ⊎ (e ≡ SigFault.Memory)) }
    {
        if let Some(fault) = self.op_fault(&decl) {
            return Err(fault);
        }
        let number = self.ops.len() as u32;
        self.ops.reserve(1)?;
        self.op_table.push(decl.name.bytes())?;
        // There is room for it.
        let _ = self.ops.push(decl);
        Ok(OpId(number))
    }

    /// The declaration of an operation, and None exactly where the signature has no operation of that number.
    pub fn op(&self, id: OpId) -> Option<&OpDecl>
        ensures { slice_get self.now.ops id.0 ≡ option_map (λ d. d.now) result }
    {
        self.ops.get(id.0 as usize)
    }

    /// The number of operations, at most `MAX_OPS`. The clause `valid` says what holds of every signature.
    pub fn op_count(&self) -> u32
        ensures count { result ≡ length self.now.ops }
        ensures valid { IsSignature self.now }
    {
        self.ops.len() as u32
    }

    /// The operation of that name, and None exactly where no operation has it. It takes no memory.
    pub fn find_op(&self, name: &[u8]) -> Option<OpId>
        ensures { option_map (λ id. id.0) result ≡ position (has_name name.now) self.now.ops }
    {
        match self.op_table.index_of(name) {
            None => None,
            Some(index) => Some(OpId(index as u32)),
        }
    }

    /// The operation of that infix sign, and None exactly where no operation has it. It takes no memory.
    pub fn find_sign(&self, sign: &[u8]) -> Option<OpId>
        ensures { option_map (λ id. id.0) result ≡ position (has_sign sign.now) self.now.ops }
    {
        match index_of_sign(&self.ops, sign) {
            None => None,
            Some(index) => Some(OpId(index as u32)),
        }
    }

    // The kind of that number.
    fn kind(&self, id: KindId) -> Option<&Kind>
        ensures name { slice_get (kind_names self.now) id.0 ≡ option_map (λ k. k.now.name) result }
        ensures members { slice_get (kind_members self.now) id.0 ≡ option_map (λ k. k.now.members) result }
        ensures ascend { IfSome result (λ k. names_ascend k.now.members ≡ true) }
    {
        if id.0 == 0 {
            return Some(&self.num);
        }
        kind_at(&self.kinds, id.0 as usize - 1)
    }

    // Why a kind of that name isn't added.
    fn kind_fault(&self, name: &Name) -> Option<SigFault>
        ensures { result ≡ kind_fault self.now name.now }
    {
        if self.find_kind(name.bytes()).is_some() {
            Some(SigFault::DuplicateName)
        } else if MAX_KINDS <= self.kind_count() {
            Some(SigFault::TooManyKinds)
        } else {
            None
        }
    }

    /// Adds a kind of these members, kept as a set, and gives its number: the count of kinds before.
    ///
    /// The refusals come in this order (`kind_fault` of `specs/Signature.antt`), and leave the signature as it was; the
    /// name and the members are dropped. `DuplicateName` comes exactly where a kind has the name, `num` among them,
    /// `TooManyKinds` exactly where `MAX_KINDS` are held, and `Memory` where there is no room for it.
    pub fn add_kind(&mut self, name: Name, members: Names) -> Result<KindId, SigFault>
        ensures number { IfOk result (λ id. id.0 ≡ length self.old.kinds + 1) }
        ensures ok { OnOk result
            (self.new
            ≡ record self.old { kinds = self.old.kinds ++ record { name = name; members = name_set members } ∷ [] }) }
        ensures err { OnErr result (self.new ≡ self.old) }
        ensures refused { IfSome (kind_fault self.old name) (λ fault. result ≡ Err fault) }
        ensures only_refused { IfErr result (λ e. (kind_fault self.old name ≡ Some e) ⊎ (e ≡ SigFault.Memory)) }
    {
        if let Some(fault) = self.kind_fault(&name) {
            return Err(fault);
        }
        let mut members = members;
        members.make_set();
        let number = self.kinds.len() as u32 + 1;
        self.kinds.reserve(1)?;
        self.kind_table.push(name.bytes())?;
        // There is room for it.
        let _ = self.kinds.push(Kind { name, members });
        Ok(KindId(number))
    }

    /// The name of a kind, and None exactly where the signature has no kind of that number.
    pub fn kind_name(&self, id: KindId) -> Option<&Name>
        ensures { slice_get (kind_names self.now) id.0 ≡ option_map (λ n. n.now) result }
    {
        match self.kind(id) {
            None => None,
            Some(kind) => Some(&kind.name),
        }
    }

    /// The members of a declared kind, ascending by their bytes and each once, the empty list for `num`, and None
    /// exactly where the signature has no kind of that number.
    pub fn kind_members(&self, id: KindId) -> Option<&Names>
        ensures { slice_get (kind_members self.now) id.0 ≡ option_map (λ ns. ns.now) result }
    {
        match self.kind(id) {
            None => None,
            Some(kind) => Some(&kind.members),
        }
    }

    /// The kind of that name, and None exactly where no kind has it. It takes no memory.
    pub fn find_kind(&self, name: &[u8]) -> Option<KindId>
        ensures { option_map (λ id. id.0) result ≡ position (bytes_eq name.now) (kind_names self.now) }
    {
        match self.kind_table.index_of(name) {
            None => None,
            Some(index) => Some(KindId(index as u32)),
        }
    }

    /// The symbol of that name is of the kind: of `num` where it is a number, and of a declared kind where it is a
    /// member. No symbol is of a kind that isn't held (`in_kind` of `specs/Signature.antt`). It takes no memory.
    pub fn kind_has(&self, id: KindId, symbol: &[u8]) -> bool
        ensures { result ≡ in_kind self.now id.0 (symbol_of symbol.now) }
    {
        if id.0 == 0 {
            return is_number(symbol);
        }
        match self.kind(id) {
            None => false,
            Some(kind) => kind.members.contains(symbol),
        }
    }

    /// The number of kinds, with `num`: at most `MAX_KINDS`.
    pub fn kind_count(&self) -> u32
        ensures count { result ≡ length (kind_names self.now) }
    {
        self.kinds.len() as u32 + 1
    }

    // The operation is held, and may have that many arguments.
    pub(crate) fn allows(&self, id: OpId, count: usize) -> bool
        ensures { result ≡ holds_of (allows count) (slice_get self.now.ops id.0) }
    {
        match self.op(id) {
            None => false,
            Some(decl) => decl.allows(count),
        }
    }

    /// The operation is associative (`is_assoc` of `specs/Signature.antt`). One that isn't held has no flag. It takes
    /// no memory.
    pub fn is_assoc(&self, id: OpId) -> bool
        ensures { result ≡ is_assoc self.now id.0 }
    {
        match self.op(id) {
            None => false,
            Some(decl) => decl.assoc,
        }
    }

    /// The operation is commutative (`is_comm` of `specs/Signature.antt`). One that isn't held has no flag. It takes no
    /// memory.
    pub fn is_comm(&self, id: OpId) -> bool
        ensures { result ≡ is_comm self.now id.0 }
    {
        match self.op(id) {
            None => false,
            Some(decl) => decl.comm,
        }
    }

    /// The operation is one-identity (`is_one` of `specs/Signature.antt`). One that isn't held has no flag. It takes no
    /// memory.
    pub fn is_one(&self, id: OpId) -> bool
        ensures { result ≡ is_one self.now id.0 }
    {
        match self.op(id) {
            None => false,
            Some(decl) => decl.one,
        }
    }
}

/// The term is a symbol of the kind (`in_kind` of `specs/Signature.antt`). No symbol is of a kind that isn't held. It
/// takes no memory.
pub fn in_kind(sig: &Signature, kind: KindId, term: &Term) -> bool
    ensures { result ≡ in_kind sig.now kind.0 (tree term.now) }
{
    match term {
        Term::Sym(name) => sig.kind_has(kind, name.bytes()),
        Term::App(_, _) => false,
    }
}

/// Each operation is held, and each count of arguments is allowed (`well_formed` of `specs/Signature.antt`). It takes
/// no memory.
pub fn well_formed(sig: &Signature, term: &Term) -> bool
    ensures { result ≡ well_formed sig.now (tree term.now) }
{
    match term {
        Term::Sym(_) => true,
        Term::App(op, args) => {
            if !sig.allows(*op, args.len()) {
                return false;
            }
            for arg in &args.items {
                if !well_formed(sig, arg) {
                    return false;
                }
            }
            true
        }
    }
}
