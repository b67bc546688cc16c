//! What the nodes took, kept while another table is looked for in their levels.
ghost use Rattle.std.specs.Prelude.{◌≡◌, ◌≤◌, ◌↔◌, ℕ, IsTrue, [], IfOk, length, map};
ghost use Rattle.std.specs.List.{AllByRecursion};
ghost use Rattle.mp_table.specs.Table.{Table as plain_table};
ghost use Rattle.mp_search.specs.Levels.{take_of, AreLevels};
ghost use Rattle.mp_cursor.specs.Kept.{kept_of, HasRoom, HaveRoom, AreHeldTakes};

use mp_search::{Level, Room};
use mp_table::Rank;
use mp_term::Memory;
use std::alloc::Global;

// What a node took.
#[derive(Drop)]
pub(crate) struct Kept {
    pub(crate) take: Room<Rank>,
    pub(crate) collapsed: bool,
}

// Room for what so many nodes take, of at most `width` ranks each.
pub(crate) fn kept_takes(alloc: Global, nodes: usize, width: usize) -> Result<Vec<Kept>, Memory>
    ensures count { IfOk result (λ ks. length ks.items ≡ nodes) }
    ensures roomy { IfOk result (λ ks. AllByRecursion (HasRoom width) ks.items) }
{
    let mut kept = Vec::new(alloc);
    for _ in 0..nodes {
        kept.push(Kept {
            take: Room::new(alloc, width)?,
            collapsed: false,
        })?;
    }
    Ok(kept)
}

// Whether the lists of ranks are equal.
fn same_ranks(ranks: &[Rank], others: &[Rank]) -> bool
    ensures { IsTrue result ↔ (ranks.now ≡ others.now) }
{
    ranks == others
}

impl Kept {
    // Keeps what the node takes, for which there must be room.
    fn keep(&mut self, level: &Level)
        requires { length level.now.take.items.items ≤ self.old.take.room }
        ensures take { kept_of self.new ≡ take_of level.now }
        ensures room { self.new.take.room ≡ self.old.take.room }
    {
        self.take.refill(level.take.as_slice());
        self.collapsed = level.collapsed;
    }

    // Whether the node takes what was kept.
    fn is_take_of(&self, level: &Level) -> bool
        ensures { IsTrue result ↔ (take_of level.now ≡ kept_of self.now) }
    {
        level.collapsed == self.collapsed && same_ranks(level.take.as_slice(), self.take.as_slice())
    }
}

// Keeps what the nodes take, for which there must be room.
pub(crate) fn keep(kept: &mut [Kept], levels: &[Level])
    requires room { HaveRoom (map (λ k. k.take.room) kept.old) (map take_of levels.now) }
    ensures takes { map kept_of kept.new ≡ map take_of levels.now }
    ensures rooms { map (λ k. k.take.room) kept.new ≡ map (λ k. k.take.room) kept.old }
{
    for index in 0..levels.len() {
        kept[index].keep(&levels[index]);
    }
}

// Whether the nodes take what was kept of them.
pub(crate) fn are_kept(kept: &[Kept], levels: &[Level]) -> bool
    requires { length kept.now ≡ length levels.now }
    ensures { IsTrue result ↔ (map take_of levels.now ≡ map kept_of kept.now) }
{
    match (kept, levels) {
        ([first, rest @ ..], [level, later @ ..]) => first.is_take_of(level)
            && are_kept(rest, later),
        _ => true,
    }
}

// Gives the nodes back what was kept of them, for which there must be room.
pub(crate) fn put_back(levels: &mut [Level], kept: &[Kept])
    requires room { HaveRoom (map (λ l. l.take.room) levels.old) (map kept_of kept.now) }
    ensures takes { map take_of levels.new ≡ map kept_of kept.now }
    ensures levels { (table : plain_table) (width : ℕ) → AreLevels table width levels.old
        → AreHeldTakes table (map kept_of kept.now) → AreLevels table width levels.new }
{
    for index in 0..kept.len() {
        levels[index].set(kept[index].take.as_slice(), kept[index].collapsed);
    }
}
