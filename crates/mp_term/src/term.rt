//! Terms, and lists of them.
ghost use Rattle.std.specs.Prelude.{◌≡◌, ◌<◌, ◌≤◌, ◌-◌, ◌^◌, [], ◌∷◌, ◌++◌, length, map, slice_get, slice_set, OnOk};
ghost use Rattle.std.specs.Prelude.{OnErr, IfOk, min, Some, option_map};
ghost use Rattle.std.specs.List.{insert, remove};
ghost use Rattle.mp_term.specs.View.{tree};
ghost use Rattle.mp_term.specs.Size.{node_count, depth};
ghost use Rattle.mp_term.specs.Positions.{subterm};

use crate::memory::Memory;
use crate::name::Name;
use std::alloc::Global;
use std::marker::Model;
use std::mem;

/// The number of an operation in its signature, from 0 in order of declaration.
#[derive(Debug, Drop, Clone, Copy, PartialEq, Eq, PartialOrd, Ord)]
pub struct OpId(pub u32);

/// A term. Contracts see it as a plain tree (`tree` of `specs/View.antt`). Terms compare by the term order.
#[cycle(term)]
#[derive(Drop)]
pub enum Term {
    /// A symbol.
    Sym(Name),
    /// An operation, applied to its arguments.
    App(OpId, Terms),
}

/// A list of terms. Contracts see a list of plain trees.
#[cycle(term)]
#[derive(Drop)]
pub struct Terms {
    pub(crate) items: Vec<Term>,
}

impl Model for Terms {
    ghost use Rattle.std.specs.Prelude.{List, map};
    ghost use Rattle.std.specs.Coded.{coded_list};
    ghost use Rattle.mp_term.specs.Tree.{Tree};
    ghost use Rattle.mp_term.specs.Code.{coded_tree};

    ghost Value = { List Tree };

    ghost coded = { coded_list coded_tree };

    ghost use Rattle.mp_term.specs.View.{tree};

    ghost view = { λ ts. map tree ts.items.items };

    ghost use Rattle.mp_term.specs.Size.{all_nodes};

    ghost size = { all_nodes };

    ghost use Rattle.mp_term.specs.Falls.{falls};

    ghost size_decreases = { λ a h. falls a.items.items };
}

impl Terms {
    /// The empty list, which takes no memory.
    pub fn new(alloc: Global) -> Self
        ensures { result ≡ [] }
    {
        Terms {
            items: Vec::new(alloc),
        }
    }

    /// The empty list, with room for so many terms at once. `Memory` comes where there is no such room.
    pub fn with_room(alloc: Global, room: usize) -> Result<Self, Memory>
        ensures { IfOk result (λ ts. ts ≡ []) }
    {
        let items = Vec::with_capacity(alloc, room)?;
        Ok(Terms { items })
    }

    /// Adds a term at the end. At `Memory` the list is as before, and the term is dropped.
    pub fn push(&mut self, item: Term) -> Result<(), Memory>
        ensures ok { OnOk result (self.new ≡ self.old ++ tree item ∷ []) }
        ensures err { OnErr result (self.new ≡ self.old) }
    {
        self.items.push(item)?;
        Ok(())
    }

    /// Puts a term in at an index from 0, in front of the one that stood there, or at the end where the index is the
    /// length. At `Memory` the list is as before, and the term is dropped.
    pub fn insert(&mut self, index: usize, term: Term) -> Result<(), Memory>
        requires { index ≤ length self.old }
        ensures ok { OnOk result (self.new ≡ insert self.old index (tree term)) }
        ensures err { OnErr result (self.new ≡ self.old) }
    {
        self.items.insert(index, term)?;
        Ok(())
    }

    /// Takes the term at an index from 0 out; those behind it move one place to the front.
    pub fn remove(&mut self, index: usize) -> Term
        requires { index < length self.old }
        ensures term { slice_get self.old index ≡ Some (tree result) }
        ensures rest { self.new ≡ remove self.old index }
    {
        self.items.remove(index)
    }

    /// Puts a term in the place of the one at an index from 0, which comes out.
    pub fn replace(&mut self, index: usize, term: Term) -> Term
        requires { index < length self.old }
        ensures term { slice_get self.old index ≡ Some (tree result) }
        ensures left { self.new ≡ slice_set self.old index (tree term) }
    {
        mem::replace(&mut self.items[index], term)
    }

    /// The number of terms.
    pub fn len(&self) -> usize
        ensures { result ≡ length self.now }
    {
        self.items.len()
    }

    /// The term at an index from 0, and None exactly where the index isn't below the length.
    pub fn get(&self, index: usize) -> Option<&Term>
        ensures { slice_get self.now index ≡ option_map (λ t. tree t.now) result }
    {
        self.items.get(index)
    }

    /// The terms as a slice.
    pub fn as_slice(&self) -> &[Term]
        ensures { map tree result.now ≡ self.now }
    {
        &self.items
    }
}

/// The number of nodes, symbols and applications together (`node_count` of `specs/Size.antt`), or the greatest `u64`
/// where the number passes it.
pub fn node_count(term: &Term) -> u64
    ensures { result ≡ min (node_count (tree term.now)) (2 ^ 64 - 1) }
{
    match term {
        Term::Sym(_) => 1,
        Term::App(_, args) => {
            let mut count: u64 = 1;
            for arg in &args.items {
                count = count.saturating_add(node_count(arg));
            }
            count
        }
    }
}

/// The depth: 0 for a symbol, and one more than the greatest depth of the arguments for an application (`depth` of
/// `specs/Size.antt`), or the greatest `u64` where the number passes it.
pub fn depth(term: &Term) -> u64
    ensures { result ≡ min (depth (tree term.now)) (2 ^ 64 - 1) }
{
    match term {
        Term::Sym(_) => 0,
        Term::App(_, args) => {
            let mut deepest: u64 = 0;
            for arg in &args.items {
                deepest = deepest.max(depth(arg));
            }
            deepest.saturating_add(1)
        }
    }
}

/// The subterm at a position, given by its argument indexes from 0, and None exactly where the position names no
/// subterm (`subterm` of `specs/Positions.antt`).
pub fn at<'a>(term: &'a Term, position: &[u32]) -> Option<&'a Term>
    ensures { option_map (λ t. tree t.now) result ≡ subterm (tree term.now) position.now }
{
    let mut here = term;
    for index in position {
        match here {
            Term::Sym(_) => return None,
            Term::App(_, args) => match args.get(*index as usize) {
                None => return None,
                Some(arg) => here = arg,
            },
        }
    }
    Some(here)
}

/// An equal term. `Memory` comes where there is no room for it.
#[cycle(copy_term)]
pub fn copy_term(alloc: Global, term: &Term) -> Result<Term, Memory>
    ensures { IfOk result (λ t. tree t ≡ tree term.now) }
{
    match term {
        Term::Sym(name) => Ok(Term::Sym(name.copy(alloc)?)),
        Term::App(op, args) => Ok(Term::App(*op, copy_terms(alloc, args)?)),
    }
}

/// An equal list of terms. `Memory` comes where there is no room for it.
#[cycle(copy_term)]
pub fn copy_terms(alloc: Global, terms: &Terms) -> Result<Terms, Memory>
    ensures { IfOk result (λ ts. ts ≡ terms.now) }
{
    let mut copies = Terms::with_room(alloc, terms.len())?;
    for term in &terms.items {
        copies.push(copy_term(alloc, term)?)?;
    }
    Ok(copies)
}
