//! What the rules ask of a path that accepts them.

ghost use Rattle.std.specs.Prelude.{◌≡◌, false, map, nat_eq, IfOk, OnOk, option_map, slice_get};
ghost use Rattle.std.specs.List.{list_any};
ghost use Rattle.std.specs.Option.{option_map_or};
ghost use Rattle.mp_pattern.specs.CondTree.{conds};
ghost use Rattle.mp_pattern.specs.CondView.{cond_tree};
ghost use Rattle.mp_pattern.specs.Firsts.{add_new};
ghost use Rattle.mp_program.specs.TokenPaths.{less_names, all_less_names, test_of};
ghost use Rattle.mp_line.specs.Named.{names_in};
ghost use Rattle.mp_vm.specs.Looks.{look_wildcard};
ghost use Rattle.mp_vm.specs.RuleNeeds.{needs_view, count_named, with_places, needs_with, needs_of, is_sequence_at};
ghost use Rattle.mp_vm.specs.RuleNeeds.{meets_needs, meets_all};

use crate::look::{Look, is_sequence, place_of_name};
use mp_line::condition_names;
use mp_pattern::{Cond, Conds};
use mp_program::{ProgramRule, ProgramRules};
use mp_term::{Memory, Name};
use std::alloc::Global;

// How many variables a rule has, how many of `v0`, `v1` and so on its test names, and the places of those that this
// compares by `less`.
#[derive(Drop)]
pub(crate) struct Needs {
    vars: usize,
    named: usize,
    compared: Vec<usize>,
}

// Adds a place, unless it is there.
fn add_place(place: usize, places: &mut Vec<usize>) -> Result<(), Memory>
    ensures { OnOk result (places.new.items ≡ add_new nat_eq places.old.items place) }
{
    if !places.contains(&place) {
        places.push(place)?;
    }
    Ok(())
}

// Adds the places of the names, each once.
fn add_places(names: &[&Name], places: &mut Vec<usize>) -> Result<(), Memory>
    ensures { OnOk result (places.new.items ≡ with_places places.old.items (names_in names.now)) }
{
    for name in names {
        add_place(place_of_name(name.bytes()), places)?;
    }
    Ok(())
}

// Adds the places of the variables of a condition that are operands of `less`.
#[cycle(add_compared)]
fn add_compared(alloc: Global, cond: &Cond, places: &mut Vec<usize>) -> Result<(), Memory>
    ensures { OnOk result (places.new.items ≡ with_places places.old.items (less_names (cond_tree cond.now))) }
{
    match cond {
        Cond::Less(_, _) => {
            let mut names: Vec<&Name> = Vec::new(alloc);
            condition_names(cond, &mut names)?;
            add_places(&names, places)
        }
        Cond::Not(part) => add_compared(alloc, part.get(), places),
        Cond::All(parts) | Cond::Any(parts) => add_all_compared(alloc, parts.as_slice(), places),
        _ => Ok(()),
    }
}

// Adds those of all conditions.
#[cycle(add_compared)]
fn add_all_compared(alloc: Global, parts: &[Cond], places: &mut Vec<usize>) -> Result<(), Memory>
    ensures { OnOk result (places.new.items
        ≡ with_places places.old.items (all_less_names (conds (map cond_tree parts.now)))) }
{
    for part in parts {
        add_compared(alloc, part, places)?;
    }
    Ok(())
}

// One more than the greatest place of a name.
fn count_named(names: &[&Name]) -> usize
    ensures { result ≡ count_named (names_in names.now) }
{
    let mut count: usize = 0;
    for name in names {
        count = count.max(place_of_name(name.bytes()) + 1);
    }
    count
}

// What a rule with so many variables and this test needs.
fn needs_with(alloc: Global, vars: usize, test: Option<&Cond>) -> Result<Needs, Memory>
    ensures { IfOk result (λ d. needs_view d ≡ needs_with vars (option_map (λ c. cond_tree c.now) test.entry)) }
{
    let mut compared = Vec::new(alloc);
    let Some(test) = test else {
        return Ok(Needs {
            vars,
            named: 0,
            compared,
        });
    };
    let mut names: Vec<&Name> = Vec::new(alloc);
    condition_names(test, &mut names)?;
    let named = count_named(&names);
    add_compared(alloc, test, &mut compared)?;
    Ok(Needs {
        vars,
        named,
        compared,
    })
}

// The test of a rule, where it has one.
pub(crate) fn test_of<'a>(tests: &'a Conds, rule: &ProgramRule) -> Option<&'a Cond>
    ensures { option_map (λ c. cond_tree c.now) result ≡ test_of tests.now rule.now.test }
{
    match rule.test {
        None => None,
        Some(number) => tests.get(number as usize),
    }
}

// What each rule needs.
pub(crate) fn all_needs(
    alloc: Global,
    rules: &ProgramRules,
    tests: &Conds,
) -> Result<Vec<Needs>, Memory>
    ensures { IfOk result (λ ds. map needs_view ds.items ≡ map (needs_of tests.now) rules.now) }
{
    let mut all = Vec::new(alloc);
    for rule in rules.as_slice() {
        let needs = needs_with(alloc, rule.vars.len(), test_of(tests, rule))?;
        all.push(needs)?;
    }
    Ok(all)
}

// The place has a plus, star or counted wildcard.
fn is_sequence_at(looks: &[Look<'_>], place: usize) -> bool
    ensures { result ≡ is_sequence_at (map look_wildcard looks.now) place }
{
    match looks.get(place) {
        Some(look) => is_sequence(*look),
        None => false,
    }
}

// One of the places has such a wildcard.
fn has_sequence(looks: &[Look<'_>], places: &[usize]) -> bool
    ensures { result ≡ list_any (is_sequence_at (map look_wildcard looks.now)) places.now }
{
    for place in places {
        if is_sequence_at(looks, *place) {
            return true;
        }
    }
    false
}

// A path with these wildcards may accept the rule.
fn is_met(needs: &Needs, looks: &[Look<'_>]) -> bool
    ensures { result ≡ meets_needs (map look_wildcard looks.now) (needs_view needs.now) }
{
    needs.vars == looks.len() && needs.named <= looks.len() && !has_sequence(looks, &needs.compared)
}

// A path with these wildcards may accept the rule of the number.
fn is_rule_met(needs: &[Needs], looks: &[Look<'_>], rule: u32) -> bool
    ensures { result ≡ option_map_or (meets_needs (map look_wildcard looks.now))
        (slice_get (map needs_view needs.now) rule) false }
{
    match needs.get(rule as usize) {
        Some(own) => is_met(own, looks),
        None => false,
    }
}

// A path with these wildcards may accept each of the rules.
pub(crate) fn are_met(needs: &[Needs], looks: &[Look<'_>], rules: &[u32]) -> bool
    ensures { result ≡ meets_all (map needs_view needs.now) (map look_wildcard looks.now) rules.now }
{
    for rule in rules {
        if !is_rule_met(needs, looks, *rule) {
            return false;
        }
    }
    true
}
