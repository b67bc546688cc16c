//! Substitutions, and lists of bindings.
ghost use Rattle.std.specs.Prelude.{◌≡◌, [], ◌∷◌, ◌++◌, length, map, slice_get, OnOk, OnErr, option_map};
ghost use Rattle.mp_pattern.specs.Value as plain;
ghost use Rattle.mp_subst.specs.View.{binding_of, value_of, subst_of};

use crate::value::Value;
use mp_term::{Memory, Name};
use std::alloc::Global;
use std::marker::Model;

/// A variable and its value. Contracts see it as the record `binding_of` of `specs/View.antt`.
#[derive(Drop)]
pub struct Binding {
    /// The variable's name.
    pub name: Name,
    /// What it stands for.
    pub value: Value,
}

/// A list of bindings, seen by contracts as the list of their records.
#[derive(Drop)]
pub struct Bindings {
    items: Vec<Binding>,
}

impl Model for Bindings {
    ghost use Rattle.std.specs.Prelude.{List, map};
    ghost use Rattle.std.specs.Coded.{coded_list};
    ghost use Rattle.mp_pattern.specs.Value as plain;
    ghost use Rattle.mp_subst.specs.Code.{coded_binding};

    ghost Value = { List plain.Binding };

    ghost coded = { coded_list coded_binding };

    ghost use Rattle.mp_pattern.specs.Value as plain;
    ghost use Rattle.mp_subst.specs.View.{binding_of, value_of, subst_of};

    ghost view = { λ bs. map binding_of bs.items.items };
}

impl Bindings {
    /// The empty list. It takes no memory.
    pub fn new(alloc: Global) -> Self
        ensures { result ≡ [] }
    {
        Bindings {
            items: Vec::new(alloc),
        }
    }

    /// Adds a binding at the end. For want of memory it answers `Memory`, drops the binding and leaves the list as it
    /// was.
    pub fn push(&mut self, item: Binding) -> Result<(), Memory>
        ensures ok { OnOk result (self.new ≡ self.old ++ binding_of item ∷ []) }
        ensures err { OnErr result (self.new ≡ self.old) }
    {
        self.items.push(item)?;
        Ok(())
    }

    /// How many bindings there are.
    pub fn len(&self) -> usize
        ensures { result ≡ length self.now }
    {
        self.items.len()
    }

    /// The binding at the index, from 0. It is None exactly where the index isn't below the length.
    pub fn get(&self, index: usize) -> Option<&Binding>
        ensures { slice_get self.now index ≡ option_map (λ b. binding_of b.now) result }
    {
        self.items.get(index)
    }

    /// The bindings in order.
    pub fn as_slice(&self) -> &[Binding]
        ensures { map binding_of result.now ≡ self.now }
    {
        &self.items
    }
}

/// The variables of a pattern in order of first occurrence, each with its value. Contracts see it as the plain
/// substitution `subst_of` of `specs/View.antt`.
#[derive(Drop)]
pub struct Subst {
    /// The variables with their values, in order.
    pub bindings: Bindings,
}

impl Subst {
    /// The value of a variable (`value_of` of mp_pattern's `specs/Value.antt`). It is None exactly where the
    /// substitution doesn't bind the variable. It takes no memory.
    pub fn value_of(&self, name: &Name) -> Option<&Value>
        ensures { option_map (λ v. value_of v.now) result ≡ plain.value_of (subst_of self.now) name.now }
    {
        for binding in self.bindings.as_slice() {
            if binding.name == *name {
                return Some(&binding.value);
            }
        }
        None
    }
}
