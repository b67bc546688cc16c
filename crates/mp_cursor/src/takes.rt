//! The entries of a token as takes of the nodes.
ghost use Rattle.std.specs.Prelude.{◌≡◌, ◌<◌, ◌≤◌, ◌+◌, ◌^◌, ◌↔◌, ℕ, IsTrue, [], false, drop, length, map};
ghost use Rattle.std.specs.Prelude.{slice_index_or};
ghost use Rattle.mp_table.specs.Table.{Table as plain_table, HasRanks};
ghost use Rattle.mp_search.specs.Levels.{take_of, draws_of, rooms_of, AreLevels};
ghost use Rattle.mp_cursor.specs.Kept.{HaveRoom, AreHeldTakes};

use mp_search::Level;
use mp_table::{Rank, Table};
use mp_token::TokenEntries;

// Whether the table has each of the ranks.
fn has_ranks(table: &Table, ranks: &[Rank]) -> bool
    ensures { IsTrue result ↔ HasRanks table.now ranks.now }
{
    ranks.iter().all(|rank| rank.0 < table.len())
}

// Whether the nodes may take the entries from that index on: there are as many, each node has room for the ranks of
// its entry, and the table has them.
fn may_take(levels: &[Level], table: &Table, entries: &TokenEntries, index: usize) -> bool
    requires { index + length levels.now < 2 ^ 64 }
    ensures { IsTrue result ↔ (HaveRoom (map (λ l. l.take.room) levels.now) (drop index entries.now)
        × AreHeldTakes table.now (drop index entries.now)) }
{
    match (levels, entries.get(index)) {
        ([], None) => true,
        ([level, rest @ ..], Some((ranks, _))) => {
            if ranks.len() > level.take.room {
                return false;
            }
            if !has_ranks(table, ranks) {
                return false;
            }
            may_take(rest, table, entries, index + 1)
        }
        _ => false,
    }
}

// Gives a node the entry of that index, for which there must be room.
fn put_take(level: &mut Level, entries: &TokenEntries, index: usize)
    requires within { index < length entries.now }
    requires room { length (slice_index_or entries.now index ([], false)).0 ≤ level.old.take.room }
    ensures take { take_of level.new ≡ slice_index_or entries.now index ([], false) }
    ensures draws { draws_of level.new ≡ draws_of level.old }
    ensures rest { level.new.rest.items.items ≡ level.old.rest.items.items }
    ensures rooms { rooms_of level.new ≡ rooms_of level.old }
{
    if let Some((ranks, collapsed)) = entries.get(index) {
        level.set(ranks, collapsed);
    }
}

// Gives the nodes the entries, for which there must be room.
fn put_takes(levels: &mut [Level], entries: &TokenEntries)
    requires { HaveRoom (map (λ l. l.take.room) levels.old) entries.now }
    ensures takes { map take_of levels.new ≡ entries.now }
    ensures levels { (table : plain_table) (width : ℕ) → AreLevels table width levels.old
        → AreHeldTakes table entries.now → AreLevels table width levels.new }
{
    for index in 0..levels.len() {
        put_take(&mut levels[index], entries, index);
    }
}

// Gives the nodes the entries of a token, where they may take them.
pub(crate) fn set_takes(levels: &mut [Level], table: &Table, entries: &TokenEntries) -> bool
    ensures fit { IsTrue result ↔ (HaveRoom (map (λ l. l.take.room) levels.old) entries.now
        × AreHeldTakes table.now entries.now) }
    ensures takes { IsTrue result → map take_of levels.new ≡ entries.now }
    ensures levels { (width : ℕ) → AreLevels table.now width levels.old → AreLevels table.now width levels.new }
    ensures count { length levels.new ≡ length levels.old }
{
    if !may_take(levels, table, entries, 0) {
        return false;
    }
    put_takes(levels, entries);
    true
}
