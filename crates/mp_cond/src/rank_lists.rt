//! Tests of each term of a list of ranks, and its size.
ghost use Rattle.std.specs.Prelude.{◌≡◌, ◌<◌, ◌^◌};
ghost use Rattle.std.specs.List.{list_all};
ghost use Rattle.mp_term.specs.Size.{all_nodes};
ghost use Rattle.mp_term.specs.Signature.{in_kind};
ghost use Rattle.mp_term.specs.NormalTest.{has_head};
ghost use Rattle.mp_table.specs.Table.{term_at, terms_at, HasRank, HasRanks};

use mp_table::{Head, Rank, Table};
use mp_term::{KindId, OpId, Signature};

// Whether the term of the rank is a symbol of the kind.
fn is_in_kind(sig: &Signature, kind: KindId, table: &Table, rank: Rank) -> bool
    requires { HasRank table.now rank }
    ensures { result ≡ in_kind sig.now kind.0 (term_at table.now rank) }
{
    match table.head(rank) {
        Head::Sym(name) => sig.kind_has(kind, name.bytes()),
        Head::App(_) => false,
    }
}

// Whether each term is a symbol of the kind.
pub(crate) fn are_in_kind(sig: &Signature, kind: KindId, table: &Table, ranks: &[Rank]) -> bool
    requires { HasRanks table.now ranks.now }
    ensures { result ≡ list_all (in_kind sig.now kind.0) (terms_at table.now ranks.now) }
{
    for rank in ranks {
        if !is_in_kind(sig, kind, table, *rank) {
            return false;
        }
    }
    true
}

// Whether the term of the rank is an application of the operation.
fn is_headed(table: &Table, op: OpId, rank: Rank) -> bool
    requires { HasRank table.now rank }
    ensures { result ≡ has_head op.0 (term_at table.now rank) }
{
    match table.head(rank) {
        Head::Sym(_) => false,
        Head::App(own) => op.0 == own.0,
    }
}

// Whether each term is an application of the operation.
pub(crate) fn have_head(table: &Table, op: OpId, ranks: &[Rank]) -> bool
    requires { HasRanks table.now ranks.now }
    ensures { result ≡ list_all (has_head op.0) (terms_at table.now ranks.now) }
{
    for rank in ranks {
        if !is_headed(table, op, *rank) {
            return false;
        }
    }
    true
}

// The nodes of all terms together: the number of ranks is below 2 ^ 63, and that of the nodes of each below 2 ^ 64.
pub(crate) fn total_nodes(table: &Table, ranks: &[Rank]) -> u128
    requires { HasRanks table.now ranks.now }
    ensures total { result ≡ all_nodes (terms_at table.now ranks.now) }
    ensures few { result < 2 ^ 127 }
{
    let mut total: u128 = 0;
    for rank in ranks {
        total += u128::from(table.nodes(*rank));
    }
    total
}
