//! Where the lists of expressions are put while a text is read.

ghost use Rattle.std.specs.Prelude.{◌≡◌, ◌≤◌, [], ◌∷◌, ◌++◌, length, take, drop, OnOk, IfOk};

use crate::tree::Expr;
use bumpalo::Bump;
use std::alloc::{AllocError, Global};

/// The arena in which the lists of expressions lie, and the expressions of the lists that are still read.
///
/// A list that is read is put on the expressions that are pending, and is copied into the arena as a whole, so that it
/// takes no more room there than it has expressions.
#[derive(Drop)]
pub struct Arena<'a> {
    /// The allocator of the other lists.
    pub alloc: Global,
    /// The arena.
    pub bump: &'a Bump,
    /// The expressions of the lists that are still read, those of an outer list before those of a list in it.
    pending: Vec<Expr<'a>>,
}

impl<'a> Arena<'a> {
    /// No list is read yet.
    pub fn new(alloc: Global, bump: &'a Bump) -> Arena<'a> {
        let pending = Vec::new(alloc);
        Arena {
            alloc,
            bump,
            pending,
        }
    }

    /// The number of expressions that are pending, where a list begins.
    pub fn start(&self) -> usize
        ensures { result ≡ length self.now.pending.items }
    {
        self.pending.len()
    }

    /// Puts an expression at the end of the innermost list.
    pub fn push(&mut self, expr: Expr<'a>) -> Result<(), AllocError>
        ensures { OnOk result (self.new.pending.items ≡ self.old.pending.items ++ expr.entry ∷ []) }
    {
        self.pending.push(expr)?;
        Ok(())
    }

    /// The list that begins at `start` is read: it is copied into the arena, and no longer pending.
    pub fn finish(&mut self, start: usize) -> Result<&'a [Expr<'a>], AllocError>
        requires { start ≤ length self.old.pending.items }
        ensures list { IfOk result (λ list. list.now ≡ drop start self.old.pending.items) }
        ensures kept { OnOk result (self.new.pending.items ≡ take start self.old.pending.items) }
    {
        let list = self.bump.try_alloc_slice_copy(&self.pending[start..])?;
        self.pending.truncate(start);
        Ok(list)
    }
}
