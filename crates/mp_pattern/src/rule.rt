//! Rules: what is matched, under which condition, and what is made of it.
ghost use Rattle.std.specs.Prelude.{◌≡◌, [], ◌∷◌, ◌++◌, length, map, slice_get, IfOk, OnOk, OnErr, option_map};
ghost use Rattle.mp_pattern.specs.RuleView.{rule_tree};

use crate::{Cond, Pattern, Template};
use mp_term::{Memory, Name};
use std::alloc::Global;
use std::marker::Model;

/// A named pattern with perhaps a template and a condition.
/// Contracts see it as the record `rule_tree` of `specs/RuleView.antt`; `specs/Admission.antt` says what it admits on a
/// subject.
#[derive(Drop)]
pub struct Rule {
    /// Its name.
    pub name: Name,
    /// What it matches.
    pub pattern: Pattern,
    /// What it makes of a match, where it makes anything.
    pub template: Option<Template>,
    /// What a match must meet, where it must meet anything.
    pub condition: Option<Cond>,
}

/// A list of rules, seen by contracts as the list of their records. A rule's number is its index, from 0.
#[derive(Drop)]
pub struct Rules {
    items: Vec<Rule>,
}

impl Model for Rules {
    ghost use Rattle.std.specs.Prelude.{List, map};
    ghost use Rattle.std.specs.Coded.{coded_list};
    ghost use Rattle.mp_pattern.specs.Admission as plain;
    ghost use Rattle.mp_pattern.specs.RuleCode.{coded_rule};

    ghost Value = { List plain.Rule };

    ghost coded = { coded_list coded_rule };

    ghost use Rattle.mp_pattern.specs.RuleView.{rule_tree};

    ghost view = { λ rs. map rule_tree rs.items.items };
}

impl Rules {
    /// The empty list. It takes no memory.
    pub fn new(alloc: Global) -> Self
        ensures { result ≡ [] }
    {
        Rules {
            items: Vec::new(alloc),
        }
    }

    /// The empty list, with room for so many rules at once. `Memory` comes where there is no such room.
    pub fn with_room(alloc: Global, room: usize) -> Result<Self, Memory>
        ensures { IfOk result (λ rs. rs ≡ []) }
    {
        let items = Vec::with_capacity(alloc, room)?;
        Ok(Rules { items })
    }

    /// Adds a rule at the end. For want of memory it answers `Memory`, drops the rule and leaves the list as it was.
    pub fn push(&mut self, item: Rule) -> Result<(), Memory>
        ensures ok { OnOk result (self.new ≡ self.old ++ rule_tree item ∷ []) }
        ensures err { OnErr result (self.new ≡ self.old) }
    {
        self.items.push(item)?;
        Ok(())
    }

    /// How many rules there are.
    pub fn len(&self) -> usize
        ensures { result ≡ length self.now }
    {
        self.items.len()
    }

    /// The rule of the number. It is None exactly where the number isn't below the length.
    pub fn get(&self, index: usize) -> Option<&Rule>
        ensures { slice_get self.now index ≡ option_map (λ r. rule_tree r.now) result }
    {
        self.items.get(index)
    }

    /// The rules in order.
    pub fn as_slice(&self) -> &[Rule]
        ensures { map rule_tree result.now ≡ self.now }
    {
        &self.items
    }
}
