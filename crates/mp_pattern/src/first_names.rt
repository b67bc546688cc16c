//! The names of the variables of a pattern.
ghost use Rattle.std.specs.Prelude.{◌≡◌, map, OnOk, IfOk};
ghost use Rattle.mp_pattern.specs.Firsts.{is_known, firsts_after};
ghost use Rattle.mp_pattern.specs.PatternTree.{patterns as patterns_of};
ghost use Rattle.mp_pattern.specs.Value.{same_name};
ghost use Rattle.mp_pattern.specs.Variables.{variables};
ghost use Rattle.mp_pattern.specs.View.{pattern_tree};
ghost use Rattle.mp_pattern.specs.UsedNames.{all_used_names, used_names};

use crate::pattern::Pattern;
use mp_term::{Memory, Name, Names};
use std::alloc::Global;

// The name is one of these.
fn is_known(known: &Names, name: &Name) -> bool
    ensures { result ≡ is_known same_name known.now name.now }
{
    for index in 0..known.len() {
        let Some(other) = known.get(index) else {
            return false;
        };
        if *other == *name {
            return true;
        }
    }
    false
}

// Adds the names of the variables of the pattern that aren't known yet, in preorder.
#[cycle(add_names)]
fn add_names(alloc: Global, pattern: &Pattern, names: &mut Names) -> Result<(), Memory>
    ensures { OnOk result (names.new ≡ firsts_after same_name names.old (used_names (pattern_tree pattern.now))) }
{
    match pattern {
        Pattern::Sym(_) => Ok(()),
        Pattern::App(_, args) => {
            add_all_names(alloc, args.as_slice(), names)?;
            Ok(())
        }
        Pattern::Wild(_, None) => Ok(()),
        Pattern::Wild(_, Some(name)) => {
            if is_known(names, name) {
                return Ok(());
            }
            names.push(name.copy(alloc)?)
        }
    }
}

// Adds those of the patterns, one after the other.
#[cycle(add_names)]
fn add_all_names(alloc: Global, patterns: &[Pattern], names: &mut Names) -> Result<(), Memory>
    ensures { OnOk result (names.new
        ≡ firsts_after same_name names.old (all_used_names (patterns_of (map pattern_tree patterns.now)))) }
{
    match patterns {
        [] => Ok(()),
        [first, rest @ ..] => {
            add_names(alloc, first, names)?;
            add_all_names(alloc, rest, names)?;
            Ok(())
        }
    }
}

/// The names of the variables of a pattern, each once, in the order in which they first occur in it (`variables` of
/// `specs/Variables.antt`): the place of a name, from 0, is the number of its variable. `Memory` comes where there is
/// no room for them.
pub fn variable_names(alloc: Global, pattern: &Pattern) -> Result<Names, Memory>
    ensures { IfOk result (λ ns. ns ≡ variables (pattern_tree pattern.now)) }
{
    let mut names = Names::new(alloc);
    add_names(alloc, pattern, &mut names)?;
    Ok(names)
}
