//! What a variable stands for.
ghost use Rattle.std.specs.Prelude.{◌≡◌, map};
ghost use Rattle.mp_term.specs.View.{tree};
ghost use Rattle.mp_pattern.specs.Value.{terms_of};
ghost use Rattle.mp_subst.specs.View.{value_of};

use mp_term::{Term, Terms};
use std::slice;

/// What a variable stands for. Contracts see it as the plain value `value_of` of `specs/View.antt`.
#[derive(Drop)]
pub enum Value {
    /// One term.
    One(Term),
    /// A tuple of terms.
    Seq(Terms),
    /// A multiset of terms. The list of a final one is sorted by the term order (`IsFinal` of mp_pattern's
    /// `specs/Value.antt`).
    Bag(Terms),
}

impl Value {
    /// The terms of the value in order (`terms_of` of mp_pattern's `specs/Value.antt`): of one term that term alone.
    pub fn terms(&self) -> &[Term]
        ensures { map tree result.now ≡ terms_of (value_of self.now) }
    {
        match self {
            Value::One(term) => slice::from_ref(term),
            Value::Seq(terms) | Value::Bag(terms) => terms.as_slice(),
        }
    }
}
