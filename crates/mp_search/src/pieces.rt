//! Whether ranks are a piece of others.
ghost use Rattle.std.specs.Prelude.{◌≡◌, ◌∷◌, [], false, true, MatchOption};
ghost use Rattle.std.specs.List.Sorted.{IsSorted};
ghost use Rattle.mp_term.specs.Pieces as pieces;
ghost use Rattle.mp_table.specs.Table.{rank_cmp};
ghost use Rattle.mp_search.specs.Sublists.{IsFirstAt};

use mp_table::Rank;

/// The first place of the rank in an ascending list, from 0 (`IsFirstAt` of `specs/Sublists.antt`), if it stands there.
pub fn place_of(list: &[Rank], rank: Rank) -> Option<usize>
    requires { IsSorted rank_cmp list.now }
    ensures { MatchOption result (pieces.is_sublist rank_cmp (rank ∷ []) list.now ≡ false)
        (IsFirstAt rank_cmp rank list.now) }
{
    let place = list.partition_point(|other| other.0 < rank.0);
    if place < list.len() && list[place].0 == rank.0 {
        return Some(place);
    }
    None
}

// Whether the ranks stand in the list, which ascends, each at some place behind the one before.
fn is_sublist(ranks: &[Rank], list: &[Rank]) -> bool
    requires { IsSorted rank_cmp list.now }
    ensures { result ≡ pieces.is_sublist rank_cmp ranks.now list.now }
{
    if let [only] = ranks {
        return place_of(list, *only).is_some();
    }
    let mut found: usize = 0;
    for item in list {
        if found < ranks.len() && item.0 == ranks[found].0 {
            found += 1;
        }
    }
    found == ranks.len()
}

// Whether the list begins with the ranks.
pub(crate) fn is_prefix(ranks: &[Rank], list: &[Rank]) -> bool
    ensures { result ≡ pieces.is_prefix rank_cmp ranks.now list.now }
{
    for (i, rank) in ranks.iter().enumerate() {
        if i >= list.len() {
            return false;
        }
        if list[i].0 != rank.0 {
            return false;
        }
    }
    true
}

// Whether the ranks are a piece of the list: a sublist, where it ascends, or a prefix.
pub(crate) fn is_piece(anywhere: bool, ranks: &[Rank], list: &[Rank]) -> bool
    requires { anywhere ≡ true → IsSorted rank_cmp list.now }
    ensures { result ≡ pieces.is_piece rank_cmp anywhere ranks.now list.now }
{
    if anywhere {
        is_sublist(ranks, list)
    } else {
        is_prefix(ranks, list)
    }
}
