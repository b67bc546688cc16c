//! The tree of token lists as instructions.
ghost use Rattle.std.specs.Prelude.{◌≡◌, ◌<◌, ◌^◌, length, map, IfOk};
ghost use Rattle.mp_pattern.specs.RuleView.{rule_tree};
ghost use Rattle.mp_pattern.specs.Variables.{variables};
ghost use Rattle.mp_many.specs.Groups.{count_from};
ghost use Rattle.mp_many.specs.Laid.{laid, numbered_from, tree_of};
ghost use Rattle.mp_many.specs.Prefixes.{token_count};

use crate::lists::{TokenLists, rule_tokens};
use crate::names::RuleNames;
use crate::states::push_states;
use mp_pattern::Rule;
use mp_term::{Memory, Signature};
use mp_walk::Instrs;
use std::alloc::Global;

// The numbers from 0 on, so many.
fn first_numbers(alloc: Global, count: usize) -> Result<Vec<u32>, Memory>
    requires { count < 2 ^ 32 }
    ensures { IfOk result (λ ns. ns.items ≡ count_from 0 count) }
{
    let mut numbers = Vec::with_capacity(alloc, count)?;
    for number in 0..count {
        numbers.push(number as u32)?;
    }
    Ok(numbers)
}

// The states of all lists.
fn states_of(alloc: Global, lists: &TokenLists<'_>) -> Result<Instrs, Memory>
    requires { length lists.now < 2 ^ 32 }
    ensures { IfOk result (λ is. is ≡ laid (token_count lists.now) (numbered_from 0 lists.now) 1) }
{
    let numbers = first_numbers(alloc, lists.len())?;
    let most = lists.count();
    // Rules share their beginnings: there is room for half of the tokens at first.
    let mut states = Instrs::with_room(alloc, most / 2)?;
    push_states(alloc, lists, &numbers, 0, most, &mut states)?;
    Ok(states)
}

// The table of the tree of the rules, whose variables have these names.
pub(crate) fn tree_of<'a>(
    alloc: Global,
    sig: &Signature,
    rules: &'a [Rule],
    names: &'a RuleNames,
) -> Result<Instrs, Memory>
    requires few { length rules.now < 2 ^ 32 }
    requires names { names.now ≡ map (λ r. variables r.pattern) (map rule_tree rules.now) }
    ensures { IfOk result (λ is. is ≡ tree_of sig.now (map rule_tree rules.now)) }
{
    let lists = rule_tokens(alloc, sig, rules, names)?;
    states_of(alloc, &lists)
}
