//! What the tokens that a walk has read take.
ghost use Rattle.std.specs.Prelude.{◌≡◌, ◌≤◌, ◌+◌, ℕ, [], ◌∷◌, length, map, take, MatchOption, MatchResult};
ghost use Rattle.mp_term.specs.Signature.{Sig};
ghost use Rattle.mp_pattern.specs.NetTokenView.{net_token};
ghost use Rattle.mp_subst.specs.Trail.{Trail as plain_trail};
ghost use Rattle.mp_table.specs.Table.{HasRanks};
ghost use Rattle.mp_ac.specs.Search.{IsOver, item_table, table_of};
ghost use Rattle.mp_walk.specs.Course.{entries_by, entries_in, table_read};
ghost use Rattle.mp_walk.specs.Entries.{entry_read, IsEntryAt};
ghost use Rattle.mp_walk.specs.Levels.{AreLevels, HasSearch, read_of, search_of, trail_before};
ghost use Rattle.mp_walk.specs.OpenOnes.{IsFrame, IsPlaceBelow, AreFrames, open_of, opens};

use crate::frame::Frame;
use crate::level::Level;
use crate::setting::Setting;
use mp_ac::CommSearch;
use mp_pattern::NetToken;
use mp_table::{Rank, Table};

// So many of the first ranks, or all where there are no more.
fn front(ranks: &[Rank], count: usize) -> &[Rank]
    ensures { result.now ≡ take count ranks.now }
{
    &ranks[..count.min(ranks.len())]
}

// What a token itself takes by a way of the open operation, and whether it is collapsed, where it takes something.
fn own_entry<'t>(
    table: &'t Table,
    frame: &'t Frame<'_>,
    token: &NetToken,
    way: usize,
) -> Option<(&'t [Rank], bool)>
    requires { IsFrame table.now frame.now }
    ensures { let own = entries_by (net_token token.now) (open_of table.now frame.now) way [] in
        MatchOption result (own ≡ [])
        (λ e. HasRanks table.now e.0.now × (own ≡ entry_read table.now (e.0.now, e.1) ∷ [])) }
{
    match token {
        NetToken::Leave(_) => None,
        NetToken::Sym(_) => Some((front(frame.left, 1), false)),
        NetToken::Enter(_) | NetToken::Comm(_) => Some((front(frame.left, 1), way == 1)),
        _ => Some((front(frame.left, way), false)),
    }
}

// What the node of the number takes in the item of a search; or how far it stands behind the nodes of the item.
fn below_entry<'t>(search: &'t CommSearch<'_>, node: u32) -> Result<(&'t [Rank], bool), u32>
    requires { (u : plain_trail) × IsOver search.now u }
    ensures { MatchResult result
        (λ e. IsEntryAt (table_of search.now) (item_table search.now) node (e.0.now, e.1))
        (λ left. left + length (item_table search.now) ≡ node) }
{
    if let Some(entry) = search.entry(node) {
        return Ok(entry);
    }
    let mut count = 0;
    while search.entry(count).is_some() {
        count += 1;
    }
    Err(node - count)
}

// What the node of the number takes among those of a token that is read; or how far it stands behind them.
fn entry_in<'t>(
    table: &'t Table,
    frames: &'t [Frame<'_>],
    token: &NetToken,
    level: &'t Level<'_>,
    node: u32,
) -> Result<(&'t [Rank], bool), u32>
    requires frames { (sig : Sig) × AreFrames sig table.now frames.now }
    requires place { IsPlaceBelow (length frames.now) level.now.place }
    requires search { (u : plain_trail) × HasSearch table.now (net_token token.now)
        (opens table.now frames.now level.now.place) (trail_before u level.now) (search_of level.now) }
    ensures { (u : plain_trail) →
        let entries = entries_in (net_token token.now) (read_of table.now frames.now u level.now) in
        MatchResult result (λ e. IsEntryAt table.now entries node (e.0.now, e.1))
        (λ left. left + length entries ≡ node) }
{
    let Some(place) = level.place else {
        return Err(node);
    };
    let way = level.next.saturating_sub(1);
    let Some(own) = own_entry(table, &frames[place], token, way) else {
        return Err(node);
    };
    if node == 0 {
        return Ok(own);
    }
    match &level.search {
        None => Err(node - 1),
        Some(search) => below_entry(search, node - 1),
    }
}

// What the node of the number takes among those of the tokens that are read.
pub(crate) fn entry_among<'t>(
    set: Setting<'t>,
    frames: &'t [Frame<'_>],
    levels: &'t [Level<'_>],
    node: u32,
) -> Option<(&'t [Rank], bool)>
    requires frames { AreFrames set.sig.now set.table.now frames.now }
    requires levels { (u : plain_trail) × (marks : ℕ)
        × AreLevels set frames.now u levels.now (length frames.now) marks }
    ensures { (u : plain_trail) →
        let table = set.entry.table.now in
        let entries = table_read set.entry.code.now.instrs (map (read_of table frames.now u) levels.now) in
        MatchOption result (length entries ≤ node) (λ e. IsEntryAt table entries node (e.0.now, e.1)) }
{
    let Setting { code, table, .. } = set;
    let mut rest = node;
    for level in levels {
        let Some(instr) = code.instr(level.instr) else {
            unreachable!()
        };
        match entry_in(table, frames, &instr.token, level, rest) {
            Ok(entry) => return Some(entry),
            Err(left) => rest = left,
        }
    }
    None
}
