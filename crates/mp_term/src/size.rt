//! How large terms are, and whether that is more than a term may be.
ghost use Rattle.std.specs.Prelude.{◌≡◌, ◌++◌, ◌∷◌, ℕ, List, []};
ghost use Rattle.mp_term.specs.Tree.{Tree, app, trees};
ghost use Rattle.mp_term.specs.View.{tree};
ghost use Rattle.mp_term.specs.Excess.{IsSizeOf, excess};

use crate::limits::{MAX_DEPTH, MAX_TERM_NODES};
use crate::term::{Term, depth, node_count};

/// How many nodes the terms of a list have together, and the greatest depth of them. Each number stops at the greatest
/// `u64` (`IsSizeOf` of `specs/Excess.antt`).
#[derive(Clone, Copy, Drop)]
pub struct Size {
    /// The symbols and applications of all terms.
    pub nodes: u64,
    /// The greatest depth, that of a symbol being 0.
    pub depth: u64,
}

/// What is larger or deeper than a term may be.
#[derive(Clone, Copy, Debug, Drop, PartialEq, Eq)]
pub enum Excess {
    /// More than `MAX_TERM_NODES` nodes: so many, or the greatest `u64` where there are more.
    TooLarge { nodes: u64 },
    /// Deeper than `MAX_DEPTH`: so deep, or the greatest `u64` where it is deeper.
    TooDeep { depth: u64 },
}

impl Size {
    /// The size of no term.
    pub fn none() -> Size
        ensures { IsSizeOf result [] }
    {
        Size { nodes: 0, depth: 0 }
    }

    /// The size of one term.
    pub fn of_term(term: &Term) -> Size
        ensures { IsSizeOf result (tree term.now ∷ []) }
    {
        Size {
            nodes: node_count(term),
            depth: depth(term),
        }
    }

    /// The size of the terms of both lists together.
    pub fn beside(self, other: Size) -> Size
        ensures { (ts us : List Tree) → IsSizeOf self ts → IsSizeOf other us → IsSizeOf result (ts ++ us) }
    {
        Size {
            nodes: self.nodes.saturating_add(other.nodes),
            depth: self.depth.max(other.depth),
        }
    }

    /// The size of an application with these arguments.
    pub fn applied(self) -> Size
        ensures { (f : ℕ) (ts : List Tree) → IsSizeOf self ts → IsSizeOf result (app f (trees ts) ∷ []) }
    {
        Size {
            nodes: self.nodes.saturating_add(1),
            depth: self.depth.saturating_add(1),
        }
    }

    /// Whether the terms have more nodes together than a term may have, or else whether one of them is deeper
    /// (`excess` of `specs/Excess.antt`).
    pub fn excess(self) -> Option<Excess>
        ensures { (ts : List Tree) → IsSizeOf self ts → result ≡ excess ts }
    {
        if MAX_TERM_NODES < self.nodes {
            Some(Excess::TooLarge { nodes: self.nodes })
        } else if MAX_DEPTH < self.depth {
            Some(Excess::TooDeep { depth: self.depth })
        } else {
            None
        }
    }
}
