//! The variables of the patterns of rules.
ghost use Rattle.std.specs.Prelude.{◌≡◌, ◌<◌, ◌≤◌, ◌++◌, List, ℕ, length, map, slice_get, take, Some, IfOk};
ghost use Rattle.std.specs.Prelude.{IfSome, IsTrue, OnOk};
ghost use Rattle.mp_pattern.specs.Firsts.{firsts_after};
ghost use Rattle.mp_pattern.specs.PatternTree.{dot, wild_pattern};
ghost use Rattle.mp_pattern.specs.RuleView.{rule_tree};
ghost use Rattle.mp_pattern.specs.UsedNames.{used_names};
ghost use Rattle.mp_pattern.specs.Value.{same_name};
ghost use Rattle.mp_pattern.specs.Variables.{variables};
ghost use Rattle.mp_pattern.specs.View.{pattern_tree};

use mp_pattern::{Pattern, Rule, variable_names, variable_number};
use mp_term::{Memory, Name, Names};
use std::alloc::Global;
use std::marker::Model;

// The variables of the pattern of each rule, in order. Rules that follow one another mostly have the same ones: one
// list of them is kept then. Contracts see a list for each rule.
#[derive(Drop)]
pub(crate) struct RuleNames {
    lists: Vec<Names>,
    // The place of each rule's list.
    places: Vec<usize>,
}

impl Model for RuleNames {
    ghost use Rattle.std.specs.Prelude.{ℕ, List};

    ghost Value = { List (List (List ℕ)) };

    ghost use Rattle.mp_many.specs.RuleNames.{names_view, AreHeld};

    ghost view = { names_view };

    ghost invariant = { AreHeld };
}

impl RuleNames {
    // The variables of the pattern of the rule of the number.
    pub(crate) fn get(&self, rule: usize) -> &Names
        requires { rule < length self.now }
        ensures { slice_get self.now rule ≡ Some result.now }
    {
        &self.lists[self.places[rule]]
    }
}

// How many of the names are read behind a wildcard's variable, where so many are before it: the variable is one of
// those, or the next name. It is None where it is neither, or where a `u32` can't hold its number.
fn read_variable(names: &Names, before: usize, variable: &Option<Name>) -> Option<usize>
    requires { before ≤ length names.now }
    ensures within { IfSome result (λ n. n ≤ length names.now) }
    ensures read { IfSome result (λ n.
        firsts_after same_name (take before names.now) (used_names (wild_pattern dot variable.now))
        ≡ take n names.now) }
{
    let Ok(found) = variable_number(names, variable) else {
        return None;
    };
    let Some(number) = found else {
        return Some(before);
    };
    let place = number as usize;
    if place < before {
        return Some(before);
    }
    if place == before && place < names.len() {
        return Some(before + 1);
    }
    None
}

// So it is behind a pattern, whose variables first occur in the order of the names.
fn read_names(names: &Names, before: usize, pattern: &Pattern) -> Option<usize>
    requires { before ≤ length names.now }
    ensures within { IfSome result (λ n. n ≤ length names.now) }
    ensures read { IfSome result (λ n.
        firsts_after same_name (take before names.now) (used_names (pattern_tree pattern.now)) ≡ take n names.now) }
{
    match pattern {
        Pattern::Sym(_) => Some(before),
        Pattern::App(_, args) => {
            let mut read = before;
            for arg in args.as_slice() {
                read = read_names(names, read, arg)?;
            }
            Some(read)
        }
        Pattern::Wild(_, variable) => read_variable(names, before, variable),
    }
}

// The names are the variables of the pattern, in order.
fn are_names(names: &Names, pattern: &Pattern) -> bool
    ensures { IsTrue result → names.now ≡ variables (pattern_tree pattern.now) }
{
    match read_names(names, 0, pattern) {
        None => false,
        Some(count) => count == names.len(),
    }
}

// The place of the list of the variables of the pattern, which is added where it isn't the last one.
fn place_of(alloc: Global, lists: &mut Vec<Names>, pattern: &Pattern) -> Result<usize, Memory>
    ensures kept { OnOk result ((more : List (List (List ℕ))) × lists.new.items ≡ lists.old.items ++ more) }
    ensures place { IfOk result (λ n. slice_get lists.new.items n ≡ Some (variables (pattern_tree pattern.now))) }
{
    let count = lists.len();
    if count > 0 && are_names(&lists[count - 1], pattern) {
        return Ok(count - 1);
    }
    lists.push(variable_names(alloc, pattern)?)?;
    Ok(count)
}

// The variables of the pattern of each rule.
pub(crate) fn names_of(alloc: Global, rules: &[Rule]) -> Result<RuleNames, Memory>
    ensures { IfOk result (λ ns. ns ≡ map (λ r. variables r.pattern) (map rule_tree rules.now)) }
{
    let mut lists = Vec::new(alloc);
    let mut places = Vec::with_capacity(alloc, rules.len())?;
    for rule in rules {
        places.push(place_of(alloc, &mut lists, &rule.pattern)?)?;
    }
    Ok(RuleNames { lists, places })
}
