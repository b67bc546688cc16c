//! A rule with what it still asks.
ghost use Rattle.std.specs.Prelude.{◌≡◌, ◌<◌, ◌≤◌, ◌+◌, ◌-◌, ◌^◌, [], slice_get, option_map, IfSome};
ghost use Rattle.mp_net.specs.Net.{arity, held_or};
ghost use Rattle.mp_net.specs.View.{mark_of, open_of};
ghost use Rattle.mp_net.specs.Items.{tables, split, first_of, item_below};

use crate::mark::{Mark, arity};

// A rule with what it still asks: so many places of which nothing is asked, and then the marks of its pattern from one
// on.
#[derive(Drop, Clone, Copy)]
pub(crate) struct Item {
    pub(crate) rule: u32,
    pub(crate) free: usize,
    pub(crate) at: usize,
}

// The mark of the rule at that place of its pattern.
fn mark_at<'a>(marks: &[Vec<Mark<'a>>], rule: u32, at: usize) -> Option<Mark<'a>>
    ensures is { option_map mark_of result ≡ slice_get (held_or [] (slice_get (tables marks.now) rule)) at }
    ensures within { IfSome result (λ m. at + 1 ≤ 2 ^ 64 - 1) }
{
    match marks.get(rule as usize) {
        None => None,
        Some(list) => match list.get(at) {
            None => None,
            Some(mark) => Some(*mark),
        },
    }
}

// What the rule asks next, and the rule behind that.
pub(crate) fn first<'a>(marks: &[Vec<Mark<'a>>], item: Item) -> Option<(Mark<'a>, Item)>
    ensures { option_map (split (tables marks.now)) result
        ≡ first_of item.rule (open_of (tables marks.now) item).rest }
{
    if item.free != 0 {
        let rest = Item {
            rule: item.rule,
            free: item.free - 1,
            at: item.at,
        };
        return Some((Mark::Anything, rest));
    }
    match mark_at(marks, item.rule, item.at) {
        None => None,
        Some(mark) => {
            let rest = Item {
                rule: item.rule,
                free: 0,
                at: item.at + 1,
            };
            Some((mark, rest))
        }
    }
}

// The rule below a place with the head, of which it asks nothing.
pub(crate) fn inside(head: &Mark<'_>, behind: Item) -> Item
    requires { behind.free + arity (mark_of head.now) < 2 ^ 64 }
    ensures { result ≡ item_below (mark_of head.now) behind }
{
    Item {
        rule: behind.rule,
        free: behind.free + arity(head),
        at: behind.at,
    }
}
