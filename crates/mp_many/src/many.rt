//! Many rules, prepared to be matched at once.
ghost use Rattle.std.specs.Prelude.{◌≡◌, ◌<◌, ◌≤◌, ◌↔◌, length, slice_get, IfOk, IfSome, IsSome};
ghost use Rattle.mp_pattern.specs.SoundRule.{AreSoundRules};
ghost use Rattle.mp_pattern.specs.Variables.{variables};
ghost use Rattle.mp_walk.specs.Code.{IsCode};
ghost use Rattle.mp_many.specs.Laid.{tree_of};
ghost use Rattle.mp_many.specs.ManyView.{state_view};
ghost use Rattle.mp_many.specs.Prefixes.{prefixes, IsState};
ghost use Rattle.mp_many.specs.WalkConstants.{AreWalkConstants};

use crate::names::{RuleNames, names_of};
use crate::tree::tree_of;
use mp_pattern::{NetToken, Rules};
use mp_term::{Memory, Names, Signature, Terms};
use mp_walk::Code;
use std::alloc::Global;
use std::marker::Model;

/// Rules with the tree of the prefixes of their token lists. Contracts see them as the record `Many` of
/// `specs/Many.antt`: the signature and the rules.
#[derive(Drop)]
pub struct Many<'a> {
    sig: &'a Signature,
    rules: &'a Rules,
    names: RuleNames,
    code: Code,
}

impl<'a> Model for Many<'a> {
    ghost use Rattle.mp_many.specs.Many as plain;
    ghost use Rattle.mp_many.specs.ManyCode.{coded_many};

    ghost Value = { plain.Many };

    ghost coded = { coded_many };

    ghost use Rattle.mp_many.specs.ManyView.{many_view, IsMany};

    ghost view = { many_view };

    ghost invariant = { IsMany };
}

/// A state of the tree, which stands for a prefix.
#[derive(Clone, Copy)]
pub struct State<'a> {
    /// The prefix's last token.
    pub token: &'a NetToken,
    /// The number of its first child, where it has one.
    pub down: Option<u32>,
    /// The number of its next sibling, where it has one.
    pub over: Option<u32>,
    /// The numbers of the rules whose token list it is, ascending.
    pub accepts: &'a [u32],
}

impl<'a> Many<'a> {
    /// The tree of the rules, which must be sound over the signature (`AreSoundRules` of mp_pattern's
    /// `specs/SoundRule.antt`). `Memory` comes where there is no room for it.
    pub fn build(alloc: Global, sig: &'a Signature, rules: &'a Rules) -> Result<Many<'a>, Memory>
        requires sound { AreSoundRules sig.now rules.now }
        ensures sig { IfOk result (λ m. m.sig ≡ sig.now) }
        ensures rules { IfOk result (λ m. m.rules ≡ rules.now) }
    {
        let names = names_of(alloc, rules.as_slice())?;
        let instrs = tree_of(alloc, sig, rules.as_slice(), &names)?;
        if instrs.len() > u32::MAX as usize {
            return Err(Memory);
        }
        let code = Code::new(alloc, sig, instrs)?;
        Ok(Many {
            sig,
            rules,
            names,
            code,
        })
    }

    /// How many states the tree has: as many as the rules' token lists have prefixes (`prefixes` of
    /// `specs/Prefixes.antt`).
    pub fn states(&self) -> u32
        ensures { result ≡ length (prefixes self.now.sig self.now.rules) }
    {
        self.code.len() as u32
    }

    /// The state of the number, from 1 (`IsState` of `specs/Prefixes.antt`). It is None exactly where the tree has no
    /// state of that number.
    pub fn state(&self, number: u32) -> Option<State<'_>>
        ensures state { IfSome result (λ s. IsState self.now.sig self.now.rules number (state_view s)) }
        ensures held { IsSome result
            ↔ ((1 ≤ number) × (number ≤ length (prefixes self.now.sig self.now.rules))) }
    {
        let instr = self.code.instr(number)?;
        Some(State {
            token: &instr.token,
            down: instr.down,
            over: instr.over,
            accepts: instr.accepts.as_slice(),
        })
    }

    /// The instructions of the tree, which may be walked: one for each state, in the order of their numbers.
    pub fn code(&self) -> &Code
        ensures tree { result.now.instrs ≡ tree_of self.now.sig self.now.rules }
        ensures planned { IsCode self.now.sig result.now }
        ensures sound { AreSoundRules self.now.sig self.now.rules }
    {
        &self.code
    }

    // The variables of the pattern of the rule, in order.
    pub(crate) fn names(&self, rule: u32) -> &Names
        requires { rule < length self.now.rules }
        ensures names { IfSome (slice_get self.now.rules rule) (λ r. result.now ≡ variables r.pattern) }
        ensures sound { AreSoundRules self.now.sig self.now.rules }
    {
        self.names.get(rule as usize)
    }

    /// Terms with which the table of any subject may be walked (`AreWalkConstants` of `specs/WalkConstants.antt`).
    /// `Memory` comes where there is no room for them.
    pub fn constants(&self, alloc: Global) -> Result<Terms, Memory>
        ensures { IfOk result (AreWalkConstants self.now) }
    {
        self.code.constants(alloc)
    }

    /// The signature that `build` was given.
    pub fn sig(&self) -> &'a Signature
        ensures { result.now ≡ self.now.sig }
    {
        self.sig
    }

    /// The rules that `build` was given, which are sound.
    pub fn rules(&self) -> &'a Rules
        ensures rules { result.now ≡ self.now.rules }
        ensures sound { AreSoundRules self.now.sig self.now.rules }
    {
        self.rules
    }
}
