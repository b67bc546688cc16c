//! Subterms by ranks.
ghost use Rattle.std.specs.Prelude.{◌≡◌, not};
ghost use Rattle.std.specs.List.{list_all};
ghost use Rattle.mp_pattern.specs.Holds.{occurs};
ghost use Rattle.mp_table.specs.Table.{term_at, terms_at, HasRank, HasRanks, IsTable};

use mp_table::{Rank, Table};

// Whether the term of the rank is that of the other rank or a subterm of it. Of a term with no more nodes it can only
// be the whole.
fn occurs(table: &Table, rank: Rank, within: Rank) -> bool
    requires table { IsTable table.now }
    requires rank { HasRank table.now rank }
    requires within { HasRank table.now within }
    ensures { result ≡ occurs (term_at table.now rank) (term_at table.now within) }
{
    if rank == within {
        return true;
    }
    if table.nodes(within) <= table.nodes(rank) {
        return false;
    }
    for arg in table.args(within) {
        if occurs(table, rank, *arg) {
            return true;
        }
    }
    false
}

// Whether the term of the rank is neither equal to, nor a subterm of, a term of the list.
fn is_free(table: &Table, rank: Rank, others: &[Rank]) -> bool
    requires table { IsTable table.now }
    requires rank { HasRank table.now rank }
    requires others { HasRanks table.now others.now }
    ensures { result ≡ list_all (λ u. not (occurs (term_at table.now rank) u)) (terms_at table.now others.now) }
{
    for other in others {
        if occurs(table, rank, *other) {
            return false;
        }
    }
    true
}

// Whether no term of the first list is equal to, or a subterm of, a term of the second.
pub(crate) fn are_free(table: &Table, ranks: &[Rank], others: &[Rank]) -> bool
    requires table { IsTable table.now }
    requires ranks { HasRanks table.now ranks.now }
    requires others { HasRanks table.now others.now }
    ensures { result ≡ list_all (λ t. list_all (λ u. not (occurs t u)) (terms_at table.now others.now))
        (terms_at table.now ranks.now) }
{
    for rank in ranks {
        if !is_free(table, *rank, others) {
            return false;
        }
    }
    true
}
