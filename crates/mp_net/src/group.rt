//! Groups of rules that have a net together.
ghost use Rattle.std.specs.Prelude.{◌≡◌, ◌<◌, ◌≤◌, ◌+◌, ◌^◌, length, drop, IfOk, IfSome};
ghost use Rattle.std.specs.List.{AllByRecursion};
ghost use Rattle.mp_net.specs.Items.{tables, items_from};
ghost use Rattle.mp_net.specs.Short.{IsShort};
ghost use Rattle.mp_net.specs.NetOf.{IsGroup};
ghost use Rattle.mp_net.specs.declared.limits.TheConstants.{MAX_STATES};

use crate::build::{Net, build_net};
use crate::chain::chain;
use crate::item::Item;
use crate::mark::Mark;
use mp_term::Memory;
use std::alloc::Global;

// Rules one after the other, so many, with their net.
#[derive(Drop)]
pub(crate) struct Group<'a> {
    pub(crate) count: usize,
    pub(crate) net: Net<'a>,
}

// The rules of those numbers, each of which asks for its whole pattern.
fn starts(alloc: Global, first: usize, count: usize) -> Result<Vec<Item>, Memory>
    requires few { first + count < 2 ^ 32 }
    ensures { IfOk result (λ v. v.items ≡ items_from first count) }
{
    let mut items = Vec::new(alloc);
    for index in 0..count {
        items.push(Item {
            rule: (first + index) as u32,
            free: 0,
            at: 0,
        })?;
    }
    Ok(items)
}

// How many rules are tried next, where so many have a net, and so many, if any, have none: twice as many, or else in
// the middle.
fn next_count(fits: usize, fails: Option<usize>, most: usize) -> usize
    requires some { 1 ≤ fits }
    requires more { IfSome fails (λ n. (fits + 1 < n) × (n ≤ most)) }
    requires less { fits < most }
    ensures above { fits < result }
    ensures below { IfSome fails (λ n. result < n) }
    ensures most { result ≤ most }
{
    match fails {
        Some(fails) => fits + (fails - fits) / 2,
        None if fits <= most - fits => fits * 2,
        None => most,
    }
}

// The largest group of the rules from one on. It has one rule at least.
pub(crate) fn largest_group<'a>(
    alloc: Global,
    marks: &[Vec<Mark<'a>>],
    first: usize,
) -> Result<Group<'a>, Memory>
    requires within { first < length marks.now }
    requires many { length marks.now < 2 ^ 32 }
    requires short { AllByRecursion (IsShort MAX_STATES) (tables marks.now) }
    ensures { IfOk result (λ g. IsGroup first (drop first (tables marks.now)) g.count g.net) }
{
    let most = marks.len() - first;
    let mut group = Group {
        count: 1,
        net: chain(alloc, &marks[first], first as u32)?,
    };
    let mut fails = None;
    while group.count < fails.unwrap_or(most + 1) - 1 {
        let count = next_count(group.count, fails, most);
        match build_net(alloc, marks, starts(alloc, first, count)?)? {
            None => fails = Some(count),
            Some(net) => group = Group { count, net },
        }
    }
    Ok(group)
}
