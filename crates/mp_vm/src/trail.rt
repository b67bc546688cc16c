//! The path to an instruction, step by step.

ghost use Rattle.std.specs.Prelude.{◌≡◌, ◌∷◌, [], ℕ, List, reverse, OnOk};
ghost use Rattle.mp_term.specs.Signature.{Sig};
ghost use Rattle.mp_vm.specs.Known.{Knows, opened};
ghost use Rattle.mp_vm.specs.TrailView.{HasTrail};
ghost use Rattle.mp_vm.specs.declared.code.Setting.{Setting};
ghost use Rattle.mp_vm.specs.declared.ways.Way.{Way};

use crate::above::{Above, Before};
use mp_term::Memory;
use std::alloc::Global;

// A token of a path: what is known before it, and the number of the instruction with the token before it, which is 0
// at the top.
#[derive(Clone, Copy)]
pub(crate) struct Step<'a> {
    above: u32,
    before: Before<'a>,
}

// The number of an instruction, what is known of its token and of those above it, and the last ones of these, each as
// a step that can be taken back.
#[derive(Drop)]
pub(crate) struct Trail<'a> {
    pub(crate) at: u32,
    pub(crate) known: Above<'a>,
    steps: Vec<Step<'a>>,
}

impl<'a> Trail<'a> {
    // No token, at the top.
    pub(crate) fn new(alloc: Global) -> Trail<'a>
        ensures at { result.at ≡ 0 }
        ensures known { (sig : Sig) → (most : ℕ) → Knows sig most result.known [] }
        ensures open { opened result.known ≡ [] }
        ensures steps { result.steps.items ≡ [] }
    {
        Trail {
            at: 0,
            known: Above::new(alloc),
            steps: Vec::new(alloc),
        }
    }

    // Takes steps back to the instruction of the number, as far as they lead there.
    pub(crate) fn go_back(&mut self, number: u32) -> Result<(), Memory>
        ensures { (s : Setting) → (ws : List Way) → HasTrail s ws self.old → OnOk result (HasTrail s ws self.new) }
    {
        while self.at > number {
            let Some(step) = self.steps.pop() else {
                return Ok(());
            };
            self.known.go_back(&step.before)?;
            self.at = step.above;
        }
        Ok(())
    }

    // What is known is that of the instruction of the number, and no step can be taken back.
    pub(crate) fn start(&mut self, number: u32)
        ensures at { self.new.at ≡ number }
        ensures known { self.new.known ≡ self.old.known }
        ensures steps { self.new.steps.items ≡ [] }
    {
        self.at = number;
        self.steps.clear();
    }

    // What is known is that of the instruction of the number, with the token before which this was known.
    pub(crate) fn step(&mut self, number: u32, before: Before<'a>) -> Result<(), Memory>
        ensures at { OnOk result (self.new.at ≡ number) }
        ensures known { self.new.known ≡ self.old.known }
        ensures steps { OnOk result (reverse self.new.steps.items
            ≡ (record { above = self.old.at; before = before.entry }) ∷ reverse self.old.steps.items) }
    {
        self.steps.push(Step {
            above: self.at,
            before,
        })?;
        self.at = number;
        Ok(())
    }
}
