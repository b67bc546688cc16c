//! Atoms over values by ranks in a table.
ghost use Rattle.std.specs.Prelude.{◌≡◌, ◌||◌, not, length, sum_by, Some, if◌then◌else◌};
ghost use Rattle.std.specs.List.{list_all};
ghost use Rattle.mp_term.specs.Order.{tree_cmp};
ghost use Rattle.mp_term.specs.Size.{node_count};
ghost use Rattle.mp_term.specs.Sorting.{sorted};
ghost use Rattle.mp_term.specs.Signature.{in_kind};
ghost use Rattle.mp_term.specs.NormalTest.{has_head};
ghost use Rattle.mp_pattern.specs.Value.{terms_of, same_terms};
ghost use Rattle.mp_pattern.specs.Holds.{is_bag, comes_before, occurs};
ghost use Rattle.mp_table.specs.Table as plain_table;
ghost use Rattle.mp_table.specs.Table.{terms_at, HasRanks, IsTable};
ghost use Rattle.mp_cond.specs.Ranked.{value_at, IsIn};

use crate::ranked::Ranked;
use crate::{rank_lists, rank_subterm};
use mp_subst::same_rank_multiset;
use mp_table::{Rank, Table, compare_apps};
use mp_term::{KindId, OpId, Signature};

// How many terms the value has.
pub(crate) fn count(a: &Ranked<'_>) -> u128
    ensures { (t : plain_table.Table) → result ≡ length (terms_of (value_at t a.now)) }
{
    match a.wrap() {
        None => a.ranks().len() as u128,
        Some(_) => 1,
    }
}

// How many nodes they have together.
pub(crate) fn size(table: &Table, a: &Ranked<'_>) -> u128
    requires { IsIn table.now a.now }
    ensures { result ≡ sum_by node_count (terms_of (value_at table.now a.now)) }
{
    let total = rank_lists::total_nodes(table, a.ranks());
    match a.wrap() {
        None => total,
        Some(_) => total + 1,
    }
}

// Whether the lists of terms are equal, as multisets or as tuples.
fn same_ranks(table: &Table, as_multisets: bool, ranks: &[Rank], others: &[Rank]) -> bool
    requires table { IsTable table.now }
    requires ranks { HasRanks table.now ranks.now }
    requires others { HasRanks table.now others.now }
    ensures { result ≡ (
        let ts = terms_at table.now ranks.now in
        let us = terms_at table.now others.now in
        if as_multisets then same_terms (sorted tree_cmp ts) (sorted tree_cmp us) else same_terms ts us) }
{
    if as_multisets {
        same_rank_multiset(table, ranks, others)
    } else {
        ranks == others
    }
}

// Whether the lists of terms are equal, and as multisets where a value is one.
pub(crate) fn are_same(table: &Table, a: &Ranked<'_>, b: &Ranked<'_>) -> bool
    requires table { IsTable table.now }
    requires first { IsIn table.now a.now }
    requires second { IsIn table.now b.now }
    ensures { result ≡ (
        let v = value_at table.now a.now in
        let w = value_at table.now b.now in
        if is_bag (Some v) || is_bag (Some w)
        then same_terms (sorted tree_cmp (terms_of v)) (sorted tree_cmp (terms_of w))
        else same_terms (terms_of v) (terms_of w)) }
{
    match (a.wrap(), b.wrap()) {
        (None, None) => same_ranks(table, a.is_bag() || b.is_bag(), a.ranks(), b.ranks()),
        (Some(f), Some(g)) => compare_apps(f, a.ranks(), g, b.ranks()).is_eq(),
        (Some(_), None) => false,
        (None, Some(_)) => false,
    }
}

// Whether both are single terms, and the first comes before the second.
pub(crate) fn comes_before(table: &Table, a: &Ranked<'_>, b: &Ranked<'_>) -> bool
    requires table { IsTable table.now }
    requires first { IsIn table.now a.now }
    requires second { IsIn table.now b.now }
    ensures { result ≡ comes_before (Some (value_at table.now a.now)) (Some (value_at table.now b.now)) }
{
    match (a, b) {
        (Ranked::One(rank), Ranked::One(other)) => rank < other,
        (Ranked::One(rank), Ranked::Wrap(op, ranks)) => {
            table.compare_app(*rank, *op, ranks).is_lt()
        }
        (Ranked::Wrap(op, ranks), Ranked::One(rank)) => {
            table.compare_app(*rank, *op, ranks).is_gt()
        }
        (Ranked::Wrap(f, ranks), Ranked::Wrap(g, others)) => {
            compare_apps(*f, ranks, *g, others).is_lt()
        }
        _ => false,
    }
}

// Whether no term of the first value is equal to, or a subterm of, a term of the second. The application that the table
// doesn't hold is no subterm of a term of the table.
pub(crate) fn are_free(table: &Table, a: &Ranked<'_>, b: &Ranked<'_>) -> bool
    requires table { IsTable table.now }
    requires first { IsIn table.now a.now }
    requires second { IsIn table.now b.now }
    ensures { result ≡ list_all (λ t. list_all (λ u. not (occurs t u)) (terms_of (value_at table.now b.now)))
        (terms_of (value_at table.now a.now)) }
{
    match (a.wrap(), b.wrap()) {
        (None, _) => rank_subterm::are_free(table, a.ranks(), b.ranks()),
        (Some(f), Some(g)) => compare_apps(f, a.ranks(), g, b.ranks()).is_ne(),
        (Some(_), None) => true,
    }
}

// Whether each term is a symbol of the kind.
pub(crate) fn are_in_kind(sig: &Signature, kind: KindId, table: &Table, a: &Ranked<'_>) -> bool
    requires { IsIn table.now a.now }
    ensures { result ≡ list_all (in_kind sig.now kind.0) (terms_of (value_at table.now a.now)) }
{
    match a.wrap() {
        None => rank_lists::are_in_kind(sig, kind, table, a.ranks()),
        Some(_) => false,
    }
}

// Whether each term is an application of the operation.
pub(crate) fn have_head(table: &Table, op: OpId, a: &Ranked<'_>) -> bool
    requires { IsIn table.now a.now }
    ensures { result ≡ list_all (has_head op.0) (terms_of (value_at table.now a.now)) }
{
    match a.wrap() {
        None => rank_lists::have_head(table, op, a.ranks()),
        Some(own) => op.0 == own.0,
    }
}
