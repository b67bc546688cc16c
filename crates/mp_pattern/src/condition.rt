//! Conditions: what a substitution must meet beside the pattern.
ghost use Rattle.std.specs.Prelude.{◌≡◌, [], ◌∷◌, ◌++◌, length, map, slice_get, OnOk, OnErr, IfOk, option_map};
ghost use Rattle.mp_pattern.specs.CondView.{cond_tree};

use mp_term::{KindId, Memory, Name, OpId, Term};
use std::alloc::Global;
use std::marker::Model;

/// What an atom speaks of. Its list is `list_of` of `specs/Holds.antt`.
#[derive(Drop)]
pub enum Operand {
    /// The terms of the value of a variable.
    Var(Name),
    /// A term without variables, as a list of one.
    Ground(Term),
}

/// A number that an atom compares: `amount_of` of `specs/Holds.antt`.
#[derive(Drop)]
pub enum Amount {
    /// The number as written.
    Fixed(u32),
    /// How many terms the operand has.
    Count(Operand),
    /// How many nodes they have together.
    Size(Operand),
}

/// How two numbers are compared: `<`, `<=`, `>`, `>=`, `==` or `!=`, in this order.
#[derive(Debug, Drop, Clone, Copy, PartialEq, Eq)]
pub enum Sense {
    /// `<`.
    Lt,
    /// `<=`.
    Le,
    /// `>`.
    Gt,
    /// `>=`.
    Ge,
    /// `==`.
    Eq,
    /// `!=`.
    Ne,
}

/// A condition on a substitution. Contracts see it as the tree `cond_tree` of `specs/CondView.antt`; `holds` of
/// `specs/Holds.antt` says when it holds.
#[cycle(condition)]
#[derive(Drop)]
pub enum Cond {
    /// The two numbers compare so.
    Amounts(Amount, Sense, Amount),
    /// The lists are equal; where an operand is a multiset, equal as multisets.
    Same(Operand, Operand),
    /// Both are single terms, and the first comes before the second.
    Less(Operand, Operand),
    /// No term of the first list is equal to, or a subterm of, a term of the second.
    Free(Operand, Operand),
    /// Each term of the list is a symbol of the kind.
    OfKind(Operand, KindId),
    /// Each term of the list is an application of the operation.
    Headed(Operand, OpId),
    /// The condition in the box doesn't hold.
    Not(BoxedCond),
    /// Each condition holds.
    All(Conds),
    /// Some condition holds.
    Any(Conds),
}

/// A condition in a box, seen by contracts as its tree.
#[cycle(condition)]
#[derive(Drop)]
pub struct BoxedCond {
    pub(crate) cond: Box<Cond>,
}

impl Model for BoxedCond {
    ghost use Rattle.mp_pattern.specs.CondTree as plain;
    ghost use Rattle.mp_pattern.specs.CondCode.{coded_cond};

    ghost Value = { plain.Cond };

    ghost coded = { coded_cond };

    ghost use Rattle.mp_pattern.specs.CondView.{cond_tree};

    ghost view = { λ b. cond_tree b.cond.value };

    ghost use Rattle.mp_pattern.specs.CondSize.{cond_nodes};

    ghost size = { cond_nodes };

    ghost use Rattle.mp_pattern.specs.CondFalls.{falls_in_box};

    ghost size_decreases = { λ b h. falls_in_box b.cond.value };
}

impl BoxedCond {
    /// Puts a condition into a box. For want of memory it answers `Memory` and drops the condition.
    pub fn new(alloc: Global, cond: Cond) -> Result<Self, Memory>
        ensures { IfOk result (λ b. b ≡ cond_tree cond) }
    {
        let cond = Box::new(alloc, cond)?;
        Ok(BoxedCond { cond })
    }

    /// The condition in the box.
    pub fn get(&self) -> &Cond
        ensures { cond_tree result.now ≡ self.now }
    {
        &self.cond
    }
}

/// A list of conditions, seen by contracts as the list of their trees.
#[cycle(condition)]
#[derive(Drop)]
pub struct Conds {
    pub(crate) items: Vec<Cond>,
}

impl Model for Conds {
    ghost use Rattle.std.specs.Prelude.{List, map};
    ghost use Rattle.std.specs.Coded.{coded_list};
    ghost use Rattle.mp_pattern.specs.CondTree as plain;
    ghost use Rattle.mp_pattern.specs.CondCode.{coded_cond};

    ghost Value = { List plain.Cond };

    ghost coded = { coded_list coded_cond };

    ghost use Rattle.mp_pattern.specs.CondView.{cond_tree};

    ghost view = { λ cs. map cond_tree cs.items.items };

    ghost use Rattle.mp_pattern.specs.CondSize.{cond_list_nodes};

    ghost size = { cond_list_nodes };

    ghost use Rattle.mp_pattern.specs.CondFalls.{falls};

    ghost size_decreases = { λ a h. falls a.items.items };
}

impl Conds {
    /// The empty list. It takes no memory.
    pub fn new(alloc: Global) -> Self
        ensures { result ≡ [] }
    {
        Conds {
            items: Vec::new(alloc),
        }
    }

    /// Adds a condition at the end. For want of memory it answers `Memory`, drops the condition and leaves the list as
    /// it was.
    pub fn push(&mut self, item: Cond) -> Result<(), Memory>
        ensures ok { OnOk result (self.new ≡ self.old ++ cond_tree item ∷ []) }
        ensures err { OnErr result (self.new ≡ self.old) }
    {
        self.items.push(item)?;
        Ok(())
    }

    /// How many conditions there are.
    pub fn len(&self) -> usize
        ensures { result ≡ length self.now }
    {
        self.items.len()
    }

    /// The condition at the index, from 0. It is None exactly where the index isn't below the length.
    pub fn get(&self, index: usize) -> Option<&Cond>
        ensures { slice_get self.now index ≡ option_map (λ c. cond_tree c.now) result }
    {
        self.items.get(index)
    }

    /// The conditions in order.
    pub fn as_slice(&self) -> &[Cond]
        ensures { map cond_tree result.now ≡ self.now }
    {
        &self.items
    }
}
