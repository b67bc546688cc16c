//! What the rules of a state lead to.
ghost use Rattle.std.specs.Prelude.{◌≡◌, ◌<◌, ◌+◌, ◌^◌, [], ◌∷◌, ◌++◌, length, map, replicate, option_map, IfOk, OnOk};
ghost use Rattle.std.specs.List.{AllByRecursion};
ghost use Rattle.mp_net.specs.Net.{arity, going, behind};
ghost use Rattle.mp_net.specs.View.{mark_of, open_of};
ghost use Rattle.mp_net.specs.Items.{tables, opens, states, listed, joined, item_below};
ghost use Rattle.mp_net.specs.Short.{IsShort, AreShort};
ghost use Rattle.mp_net.specs.Turned.{asked, below_each, AreAscending, HaveHeads, AreAsked, IsTurn};
ghost use Rattle.mp_net.specs.declared.limits.TheConstants.{MAX_STATES};

use crate::item::{Item, first, inside};
use crate::mark::Mark;
use mp_term::Memory;
use std::alloc::Global;

// What the rules of a state ask next and what they lead to: heads, ascending, with the rules that go on below each, and
// the rules that go on behind a place of which they ask nothing.
#[derive(Drop)]
pub(crate) struct Turn<'a> {
    pub(crate) heads: Vec<Mark<'a>>,
    pub(crate) below: Vec<Vec<Item>>,
    pub(crate) behind: Vec<Item>,
}

// The head that the rule asks for next, if any.
fn asked<'a>(marks: &[Vec<Mark<'a>>], item: Item) -> Option<Mark<'a>>
    ensures { option_map mark_of result ≡ asked (open_of (tables marks.now) item).rest }
{
    match first(marks, item) {
        None => None,
        Some((Mark::Anything, _)) => None,
        Some((head, _)) => Some(head),
    }
}

// The heads that the rules ask for next, ascending.
fn heads_asked<'a>(
    alloc: Global,
    marks: &[Vec<Mark<'a>>],
    items: &[Item],
) -> Result<Vec<Mark<'a>>, Memory>
    ensures ascending { IfOk result (λ hs. AreAscending hs.items) }
    ensures all { IfOk result (λ hs. HaveHeads (opens (tables marks.now) items.now) hs.items) }
    ensures asked { IfOk result (λ hs. AreAsked (opens (tables marks.now) items.now) hs.items) }
{
    let mut heads = Vec::new(alloc);
    for item in items {
        if let Some(head) = asked(marks, *item) {
            heads.push(head)?;
        }
    }
    heads.sort_unstable();
    heads.dedup();
    Ok(heads)
}

// So many empty lists.
fn empty_lists(alloc: Global, count: usize) -> Result<Vec<Vec<Item>>, Memory>
    ensures { IfOk result (λ ls. listed ls.items ≡ replicate count []) }
{
    let mut lists = Vec::new(alloc);
    for _ in 0..count {
        lists.push(Vec::new(alloc))?;
    }
    Ok(lists)
}

// Adds a rule, which asks nothing of a place, to the lists of the heads.
fn enter_each(heads: &[Mark<'_>], behind: Item, lists: &mut Vec<Vec<Item>>) -> Result<(), Memory>
    requires lists { length lists.old.items ≡ length heads.now }
    requires fits { AllByRecursion (λ h. behind.free + arity (mark_of h) < 2 ^ 64) heads.now }
    ensures { OnOk result (listed lists.new.items
        ≡ joined (listed lists.old.items) (map (λ h. item_below (mark_of h) behind ∷ []) heads.now)) }
{
    for (index, head) in heads.iter().enumerate() {
        lists[index].push(inside(head, behind))?;
    }
    Ok(())
}

// Adds a rule to the lists where it goes on.
fn go_on<'a>(marks: &[Vec<Mark<'a>>], turn: &mut Turn<'a>, item: Item) -> Result<(), Memory>
    requires ascending { AreAscending turn.old.heads.items }
    requires heads { HaveHeads (open_of (tables marks.now) item ∷ []) turn.old.heads.items }
    requires lists { length turn.old.below.items ≡ length turn.old.heads.items }
    requires narrow { AllByRecursion (λ h. arity (mark_of h) < MAX_STATES) turn.old.heads.items }
    requires short { IsShort (2 ^ 32) (open_of (tables marks.now) item).rest }
    ensures heads { OnOk result (turn.new.heads.items ≡ turn.old.heads.items) }
    ensures below { OnOk result (states (tables marks.now) turn.new.below.items
        ≡ joined (states (tables marks.now) turn.old.below.items)
        (below_each (open_of (tables marks.now) item ∷ []) (map mark_of turn.old.heads.items))) }
    ensures behind { OnOk result (opens (tables marks.now) turn.new.behind.items
        ≡ opens (tables marks.now) turn.old.behind.items
        ++ going behind (open_of (tables marks.now) item ∷ [])) }
{
    let Some((head, rest)) = first(marks, item) else {
        return Ok(());
    };
    match head {
        Mark::Anything => {
            enter_each(&turn.heads, rest, &mut turn.below)?;
            turn.behind.push(rest)?;
        }
        _ => {
            if let Ok(index) = turn.heads.binary_search(&head) {
                turn.below[index].push(rest)?;
            }
        }
    }
    Ok(())
}

// What the rules of a state lead to.
pub(crate) fn turned<'a>(
    alloc: Global,
    marks: &[Vec<Mark<'a>>],
    items: &[Item],
) -> Result<Turn<'a>, Memory>
    requires { AreShort (2 ^ 32) (opens (tables marks.now) items.now) }
    ensures { IfOk result (IsTurn (tables marks.now) (opens (tables marks.now) items.now)) }
{
    let heads = heads_asked(alloc, marks, items)?;
    let below = empty_lists(alloc, heads.len())?;
    let mut turn = Turn {
        heads,
        below,
        behind: Vec::new(alloc),
    };
    for item in items {
        go_on(marks, &mut turn, *item)?;
    }
    Ok(turn)
}
