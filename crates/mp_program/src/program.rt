//! Programs as data.
ghost use Rattle.std.specs.Prelude.{◌≡◌, [], ◌∷◌, ◌++◌, length, map, slice_get, OnOk, OnErr, option_map};
ghost use Rattle.mp_program.specs.ProgramView.{rule_view};

use mp_pattern::Conds;
use mp_term::{Memory, Name, Names};
use mp_walk::Instrs;
use std::alloc::Global;
use std::marker::Model;

/// A rule of a program. Contracts see it as the record `rule_view` of `specs/ProgramView.antt`.
#[derive(Drop)]
pub struct ProgramRule {
    /// Its name.
    pub name: Name,
    /// The names of its variables, in order.
    pub vars: Names,
    /// The number of its test, from 0, where it has one.
    pub test: Option<u32>,
}

/// A list of rules of a program, seen by contracts as the list of their records.
#[derive(Drop)]
pub struct ProgramRules {
    items: Vec<ProgramRule>,
}

impl Model for ProgramRules {
    ghost use Rattle.std.specs.Prelude.{List, map};
    ghost use Rattle.std.specs.Coded.{coded_list};
    ghost use Rattle.mp_program.specs.Program as plain;
    ghost use Rattle.mp_program.specs.ProgramCode.{coded_program_rule};

    ghost Value = { List plain.ProgramRule };

    ghost coded = { coded_list coded_program_rule };

    ghost use Rattle.mp_program.specs.ProgramView.{rule_view};

    ghost view = { λ rs. map rule_view rs.items.items };
}

impl ProgramRules {
    /// The empty list. It takes no memory.
    pub fn new(alloc: Global) -> Self
        ensures { result ≡ [] }
    {
        ProgramRules {
            items: Vec::new(alloc),
        }
    }

    /// Adds a rule at the end. For want of memory it answers `Memory`, drops the rule and leaves the list as it was.
    pub fn push(&mut self, item: ProgramRule) -> Result<(), Memory>
        ensures ok { OnOk result (self.new ≡ self.old ++ rule_view item ∷ []) }
        ensures err { OnErr result (self.new ≡ self.old) }
    {
        self.items.push(item)?;
        Ok(())
    }

    /// How many rules there are.
    pub fn len(&self) -> usize
        ensures { result ≡ length self.now }
    {
        self.items.len()
    }

    /// The rule of the number, from 0. It is None exactly where the number isn't below the length.
    pub fn get(&self, index: usize) -> Option<&ProgramRule>
        ensures { slice_get self.now index ≡ option_map (λ r. rule_view r.now) result }
    {
        self.items.get(index)
    }

    /// The rules in order.
    pub fn as_slice(&self) -> &[ProgramRule]
        ensures { map rule_view result.now ≡ self.now }
    {
        &self.items
    }
}

/// A match program: rules as instructions of a walk over a subject. Contracts see it as the record `program_view` of
/// `specs/ProgramView.antt`.
#[derive(Drop)]
pub struct Program {
    /// The rules, numbered from 0.
    pub rules: ProgramRules,
    /// The tests of the rules, numbered from 0: conditions whose variables are called `v0`, `v1` and so on by their
    /// places in a rule.
    pub tests: Conds,
    /// The instructions, numbered from 1.
    pub code: Instrs,
}
