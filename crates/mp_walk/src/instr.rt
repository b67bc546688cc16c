//! Tables of instructions.
ghost use Rattle.std.specs.Prelude.{◌≡◌, ◌<◌, ℕ, List, [], ◌∷◌, ◌++◌, length, map, slice_get, slice_set, OnOk, OnErr};
ghost use Rattle.std.specs.Prelude.{IfOk, Some, option_map};
ghost use Rattle.mp_walk.specs.Instrs as plain;
ghost use Rattle.mp_walk.specs.InstrView.{plain_instr};
ghost use Rattle.mp_walk.specs.FewNumbers.{few_numbers};

use crate::copy::copy_token;
use mp_pattern::NetToken;
use mp_term::Memory;
use std::alloc::Global;
use std::marker::Model;
use std::slice;

// A table has many lists of numbers, which hold mostly none or one.
const _: () = prove!(size_of::<Numbers>() == 16);

// A list of numbers: none or one take no allocation.
#[derive(Drop)]
enum Few {
    Empty,
    One(u32),
    Many(Box<Vec<u32>>),
}

impl Few {
    // The numbers in order.
    fn as_slice(&self) -> &[u32]
        ensures { result.now ≡ few_numbers self.now }
    {
        match self {
            Few::Empty => &[],
            Few::One(only) => slice::from_ref(only),
            Few::Many(items) => items.as_slice(),
        }
    }

    // The list of the numbers.
    fn of(alloc: Global, items: &[u32]) -> Result<Few, Memory>
        ensures { IfOk result (λ f. few_numbers f ≡ items.now) }
    {
        match items {
            [] => Ok(Few::Empty),
            [only] => Ok(Few::One(*only)),
            _ => {
                let many = Vec::from_slice(alloc, items)?;
                Ok(Few::Many(Box::new(alloc, many)?))
            }
        }
    }
}

/// A list of numbers, seen by contracts as the list of them.
#[derive(Drop)]
pub struct Numbers {
    alloc: Global,
    few: Few,
}

impl Model for Numbers {
    ghost use Rattle.std.specs.Prelude.{ℕ, List};
    ghost use Rattle.std.specs.Coded.{coded_list, coded_ℕ};
    ghost use Rattle.mp_walk.specs.FewNumbers.{few_numbers};

    ghost Value = { List ℕ };

    ghost coded = { coded_list coded_ℕ };

    ghost view = { λ ns. few_numbers ns.few };
}

impl Numbers {
    /// The empty list. It takes no memory.
    pub fn new(alloc: Global) -> Self
        ensures { result ≡ [] }
    {
        Numbers {
            alloc,
            few: Few::Empty,
        }
    }

    /// Adds a number at the end. For want of memory it answers `Memory` and leaves the list as it was.
    pub fn push(&mut self, item: u32) -> Result<(), Memory>
        ensures ok { OnOk result (self.new ≡ self.old ++ item ∷ []) }
        ensures err { OnErr result (self.new ≡ self.old) }
    {
        match &mut self.few {
            Few::Empty => self.few = Few::One(item),
            Few::One(first) => self.few = Few::of(self.alloc, &[*first, item])?,
            Few::Many(items) => items.push(item)?,
        }
        Ok(())
    }

    /// How many numbers there are.
    pub fn len(&self) -> usize
        ensures { result ≡ length self.now }
    {
        self.as_slice().len()
    }

    /// The number at the index, from 0. It is None exactly where the index isn't below the length.
    pub fn get(&self, index: usize) -> Option<&u32>
        ensures { slice_get self.now index ≡ option_map (λ n. n.now) result }
    {
        self.as_slice().get(index)
    }

    /// The numbers in order.
    pub fn as_slice(&self) -> &[u32]
        ensures { result.now ≡ self.now }
    {
        self.few.as_slice()
    }

    /// An equal list. `Memory` comes where there is no room for it.
    pub fn copy(&self, alloc: Global) -> Result<Numbers, Memory>
        ensures { IfOk result (λ ns. ns ≡ self.now) }
    {
        let few = Few::of(alloc, self.as_slice())?;
        Ok(Numbers { alloc, few })
    }
}

/// An instruction: it reads one token. A table's instructions are numbered from 1, and so are targets.
/// Contracts see it as the record `plain_instr` of `specs/InstrView.antt`.
#[derive(Drop)]
pub struct Instr {
    /// What it reads.
    pub token: NetToken,
    /// The instruction that reads what comes after the token, where one does.
    pub down: Option<u32>,
    /// The instruction that reads another token in its place, where one does.
    pub over: Option<u32>,
    /// What is accepted after the token.
    pub accepts: Numbers,
}

/// A list of instructions, seen by contracts as the list of their records. `specs/Walkable.antt` says when it can be
/// walked.
#[derive(Drop)]
pub struct Instrs {
    items: Vec<Instr>,
}

impl Model for Instrs {
    ghost use Rattle.std.specs.Prelude.{List, map};
    ghost use Rattle.std.specs.Coded.{coded_list};
    ghost use Rattle.mp_walk.specs.Instrs as plain;
    ghost use Rattle.mp_walk.specs.InstrCode.{coded_instr};

    ghost Value = { List plain.Instr };

    ghost coded = { coded_list coded_instr };

    ghost use Rattle.mp_walk.specs.InstrView.{plain_instr};

    ghost view = { λ is. map plain_instr is.items.items };
}

impl Instrs {
    /// The empty list. It takes no memory.
    pub fn new(alloc: Global) -> Self
        ensures { result ≡ [] }
    {
        Instrs {
            items: Vec::new(alloc),
        }
    }

    /// The empty list, with room for so many instructions at once. `Memory` comes where there is no such room.
    pub fn with_room(alloc: Global, room: usize) -> Result<Self, Memory>
        ensures { IfOk result (λ is. is ≡ []) }
    {
        let items = Vec::with_capacity(alloc, room)?;
        Ok(Instrs { items })
    }

    /// Adds an instruction at the end. For want of memory it answers `Memory`, drops the instruction and leaves the
    /// list as it was.
    pub fn push(&mut self, item: Instr) -> Result<(), Memory>
        ensures ok { OnOk result (self.new ≡ self.old ++ plain_instr item ∷ []) }
        ensures err { OnErr result (self.new ≡ self.old) }
    {
        self.items.push(item)?;
        Ok(())
    }

    /// Tells the instruction at the index, from 0, where it leads. The index must be below the length.
    pub fn link(&mut self, index: usize, down: Option<u32>, over: Option<u32>)
        requires { index < length self.old }
        ensures { (i : plain.Instr) → slice_get self.old index ≡ Some i
            → self.new ≡ slice_set self.old index (record i { down = down; over = over }) }
    {
        let instr = &mut self.items[index];
        instr.down = down;
        instr.over = over;
    }

    /// How many instructions there are.
    pub fn len(&self) -> usize
        ensures { result ≡ length self.now }
    {
        self.items.len()
    }

    /// The instruction at the index, from 0. It is None exactly where the index isn't below the length.
    pub fn get(&self, index: usize) -> Option<&Instr>
        ensures { slice_get self.now index ≡ option_map (λ i. plain_instr i.now) result }
    {
        self.items.get(index)
    }

    /// The instructions in order.
    pub fn as_slice(&self) -> &[Instr]
        ensures { map plain_instr result.now ≡ self.now }
    {
        &self.items
    }

    /// An equal list. `Memory` comes where there is no room for it.
    pub fn copy(&self, alloc: Global) -> Result<Instrs, Memory>
        ensures { IfOk result (λ is. is ≡ self.now) }
    {
        let mut copy = Instrs::with_room(alloc, self.len())?;
        for instr in self.as_slice() {
            copy.push(Instr {
                token: copy_token(alloc, &instr.token)?,
                down: instr.down,
                over: instr.over,
                accepts: instr.accepts.copy(alloc)?,
            })?;
        }
        Ok(copy)
    }
}
