//! What is known of the positions of a term, kept beside it.
ghost use Rattle.std.specs.Prelude.{◌≡◌, ◌<◌, ◌≤◌, ◌++◌, ◌∷◌, [], ℕ, List, length, replicate};
ghost use Rattle.std.specs.Prelude.{slice_get, slice_set, Some, OnOk, IfOk, IfSome, IsTrue};
ghost use Rattle.std.specs.List.{insert, remove};
ghost use Rattle.mp_term.specs.Tree.{app, trees, Tree};
ghost use Rattle.mp_term.specs.Signature.{Sig};
ghost use Rattle.mp_pattern.specs.Admission.{Rule};
ghost use Rattle.mp_rewrite.specs.Marks.{Mark, unknown, dead, marks};
ghost use Rattle.mp_rewrite.specs.MarkView.{mark_of};
ghost use Rattle.mp_rewrite.specs.Known.{IsKnown, AreKnown};

use mp_term::Memory;
use std::alloc::Global;
use std::marker::Model;
use std::mem;

// What is known of the positions of a term. Contracts see it as a plain mark (`mark_of` of `specs/MarkView.antt`).
#[cycle(known)]
#[derive(Drop)]
pub(crate) enum Known {
    // Nothing.
    Nothing,
    // No position is live.
    Dead,
    // What is known of each argument.
    Inner(KnownArgs),
}

// What is known of each argument of a term. Contracts see a list of plain marks.
#[cycle(known)]
#[derive(Drop)]
pub(crate) struct KnownArgs {
    items: Vec<Known>,
}

impl Model for KnownArgs {
    ghost use Rattle.std.specs.Prelude.{List, map};
    ghost use Rattle.std.specs.Coded.{coded_list};
    ghost use Rattle.mp_rewrite.specs.Marks.{Mark, coded_mark};

    ghost Value = { List Mark };

    ghost coded = { coded_list coded_mark };

    ghost use Rattle.mp_rewrite.specs.MarkView.{mark_of};

    ghost view = { λ ms. map mark_of ms.items.items };

    ghost use Rattle.mp_rewrite.specs.MarkSize.{all_marks};

    ghost size = { all_marks };

    ghost use Rattle.mp_rewrite.specs.MarkFalls.{falls};

    ghost size_decreases = { λ a h. falls a.items.items };
}

impl KnownArgs {
    // No argument.
    pub(crate) fn none(alloc: Global) -> KnownArgs
        ensures { result ≡ [] }
    {
        KnownArgs {
            items: Vec::new(alloc),
        }
    }

    // So many arguments of which nothing is known.
    pub(crate) fn nothing(alloc: Global, count: usize) -> Result<KnownArgs, Memory>
        ensures { IfOk result (λ ms. ms ≡ replicate count unknown) }
    {
        let mut all = KnownArgs::none(alloc);
        for _ in 0..count {
            all.push(Known::Nothing)?;
        }
        Ok(all)
    }

    // Adds what is known of one more argument.
    pub(crate) fn push(&mut self, known: Known) -> Result<(), Memory>
        ensures { OnOk result (self.new ≡ self.old ++ mark_of known ∷ []) }
    {
        self.items.push(known)?;
        Ok(())
    }

    // The number of arguments.
    pub(crate) fn len(&self) -> usize
        ensures { result ≡ length self.now }
    {
        self.items.len()
    }

    // Whether the argument is known to be dead.
    pub(crate) fn is_dead(&self, index: usize) -> bool
        ensures { IsTrue result → slice_get self.now index ≡ Some dead }
    {
        match self.items.get(index) {
            Some(Known::Dead) => true,
            _ => false,
        }
    }

    // The index of the first argument that isn't known to be dead.
    pub(crate) fn first_live(&self) -> Option<usize>
        ensures within { IfSome result (λ i. i < length self.now) }
        ensures dead { IfSome result (λ i. (k : ℕ) → k < i → slice_get self.now k ≡ Some dead) }
    {
        let mut index = 0;
        while index < self.len() {
            if !self.is_dead(index) {
                return Some(index);
            }
            index += 1;
        }
        None
    }

    // What is known of the argument, which is taken to be dead from now on.
    pub(crate) fn take(&mut self, index: usize) -> Known
        requires { index < length self.old }
        ensures taken { slice_get self.old index ≡ Some (mark_of result) }
        ensures left { self.new ≡ slice_set self.old index dead }
    {
        mem::replace(&mut self.items[index], Known::Dead)
    }

    // Puts down what is known of the argument.
    pub(crate) fn set(&mut self, index: usize, known: Known)
        requires { index < length self.old }
        ensures { self.new ≡ slice_set self.old index (mark_of known) }
    {
        self.items[index] = known;
    }

    // Takes the argument out.
    pub(crate) fn remove(&mut self, index: usize) -> Known
        requires { index < length self.old }
        ensures known { slice_get self.old index ≡ Some (mark_of result) }
        ensures rest { self.new ≡ remove self.old index }
    {
        self.items.remove(index)
    }

    // Puts an argument in.
    pub(crate) fn insert(&mut self, index: usize, known: Known) -> Result<(), Memory>
        requires { index ≤ length self.old }
        ensures { OnOk result (self.new ≡ insert self.old index (mark_of known)) }
    {
        self.items.insert(index, known)?;
        Ok(())
    }
}

// What is known of each of the arguments of a term of which this is known.
pub(crate) fn known_args(alloc: Global, known: Known, count: usize) -> Result<KnownArgs, Memory>
    ensures count { IfOk result (λ ms. length ms ≡ count) }
    ensures known { IfOk result (λ ms. (sig : Sig) (rules : List Rule) (f : ℕ) (ts : List Tree) → length ts ≡ count
        → IsKnown sig rules (mark_of known) (app f (trees ts)) → AreKnown sig rules (marks ms) (trees ts)) }
{
    match known {
        Known::Inner(args) => {
            if args.len() == count {
                return Ok(args);
            }
            let fresh = KnownArgs::nothing(alloc, count)?;
            Ok(fresh)
        }
        _ => {
            let fresh = KnownArgs::nothing(alloc, count)?;
            Ok(fresh)
        }
    }
}
