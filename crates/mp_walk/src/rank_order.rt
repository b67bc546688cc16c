//! The order of values by ranks, each over a table of its own.
ghost use Rattle.std.specs.Prelude.{◌≡◌};
ghost use Rattle.mp_term.specs.Order.{tree_cmp, shortlex};
ghost use Rattle.mp_pattern.specs.Lists.{value_cmp};
ghost use Rattle.mp_pattern.specs.Value.{one_form};
ghost use Rattle.mp_table.specs.Table.{term_at, terms_at, HasRank, HasRanks};
ghost use Rattle.mp_subst.specs.Bound.{bound_of, value_from, value_in, AreRanksOf};
ghost use Rattle.mp_cond.specs.Ranked.{app_at};

use mp_pattern::Form;
use mp_subst::Bound;
use mp_table::{Head, Rank, Table};
use mp_term::OpId;
use std::cmp::Ordering;

// The term order of the terms of two ranks.
#[cycle(compare_ranks)]
fn compare_ranks(table: &Table, rank: Rank, beside: &Table, other: Rank) -> Ordering
    requires rank { HasRank table.now rank }
    requires other { HasRank beside.now other }
    ensures { result ≡ tree_cmp (term_at table.now rank) (term_at beside.now other) }
{
    match (table.head(rank), beside.head(other)) {
        (Head::Sym(m), Head::Sym(n)) => m.cmp(n),
        (Head::Sym(_), Head::App(_)) => Ordering::Less,
        (Head::App(_), Head::Sym(_)) => Ordering::Greater,
        (Head::App(f), Head::App(g)) => {
            if f.0 != g.0 {
                return f.0.cmp(&g.0);
            }
            compare_lists(table, table.args(rank), beside, beside.args(other))
        }
    }
}

// Shortlex of the terms of ranks.
#[cycle(compare_ranks)]
fn compare_lists(table: &Table, ranks: &[Rank], beside: &Table, others: &[Rank]) -> Ordering
    requires ranks { HasRanks table.now ranks.now }
    requires others { HasRanks beside.now others.now }
    ensures { result ≡ shortlex tree_cmp (terms_at table.now ranks.now) (terms_at beside.now others.now) }
{
    if ranks.len() != others.len() {
        return ranks.len().cmp(&others.len());
    }
    for (i, rank) in ranks.iter().enumerate() {
        let order = compare_ranks(table, *rank, beside, others[i]);
        if order.is_ne() {
            return order;
        }
    }
    Ordering::Equal
}

// The term order of two applications to the terms of ranks.
fn compare_apps(
    table: &Table,
    f: OpId,
    ranks: &[Rank],
    beside: &Table,
    g: OpId,
    others: &[Rank],
) -> Ordering
    requires ranks { HasRanks table.now ranks.now }
    requires others { HasRanks beside.now others.now }
    ensures { result ≡ tree_cmp (app_at table.now f ranks.now) (app_at beside.now g others.now) }
{
    if f.0 != g.0 {
        return f.0.cmp(&g.0);
    }
    compare_lists(table, ranks, beside, others)
}

// The term order of the term of a rank and an application.
fn compare_with_app(table: &Table, rank: Rank, beside: &Table, g: OpId, others: &[Rank]) -> Ordering
    requires rank { HasRank table.now rank }
    requires others { HasRanks beside.now others.now }
    ensures { result ≡ tree_cmp (term_at table.now rank) (app_at beside.now g others.now) }
{
    match table.head(rank) {
        Head::Sym(_) => Ordering::Less,
        Head::App(f) => compare_apps(table, f, table.args(rank), beside, g, others),
    }
}

// The term order of an application and the term of a rank.
fn compare_app_with(table: &Table, f: OpId, ranks: &[Rank], beside: &Table, other: Rank) -> Ordering
    requires ranks { HasRanks table.now ranks.now }
    requires other { HasRank beside.now other }
    ensures { result ≡ tree_cmp (app_at table.now f ranks.now) (term_at beside.now other) }
{
    match beside.head(other) {
        Head::Sym(_) => Ordering::Greater,
        Head::App(g) => compare_apps(table, f, ranks, beside, g, beside.args(other)),
    }
}

// The order of two bounds of one term.
fn compare_ones(table: &Table, bound: &Bound<'_>, beside: &Table, other: &Bound<'_>) -> Ordering
    requires ranks { HasRanks table.now bound.now.ranks.now }
    requires formed { AreRanksOf one_form (bound_of bound.now).wrap bound.now.ranks.now }
    requires other_ranks { HasRanks beside.now other.now.ranks.now }
    requires other_formed { AreRanksOf one_form (bound_of other.now).wrap other.now.ranks.now }
    ensures { result ≡ value_cmp (value_from table.now one_form (bound_of bound.now).wrap bound.now.ranks.now)
        (value_from beside.now one_form (bound_of other.now).wrap other.now.ranks.now) }
{
    match (bound.wrap, other.wrap) {
        (None, None) => compare_ranks(table, bound.ranks[0], beside, other.ranks[0]),
        (None, Some(g)) => compare_with_app(table, bound.ranks[0], beside, g, other.ranks),
        (Some(f), None) => compare_app_with(table, f, bound.ranks, beside, other.ranks[0]),
        (Some(f), Some(g)) => compare_apps(table, f, bound.ranks, beside, g, other.ranks),
    }
}

// The order of the values that two bounds stand for (`value_cmp` of mp_pattern's `specs/Lists.antt`), each over its own
// table.
pub(crate) fn compare_bounds(
    table: &Table,
    bound: &Bound<'_>,
    beside: &Table,
    other: &Bound<'_>,
) -> Ordering
    requires ranks { HasRanks table.now bound.now.ranks.now }
    requires formed { AreRanksOf (bound_of bound.now).form (bound_of bound.now).wrap bound.now.ranks.now }
    requires other_ranks { HasRanks beside.now other.now.ranks.now }
    requires other_formed { AreRanksOf (bound_of other.now).form (bound_of other.now).wrap other.now.ranks.now }
    ensures { result ≡ value_cmp (value_in table.now (bound_of bound.now)) (value_in beside.now (bound_of other.now)) }
{
    match (bound.form, other.form) {
        (Form::One, Form::One) => compare_ones(table, bound, beside, other),
        (Form::Seq, Form::Seq) => compare_lists(table, bound.ranks, beside, other.ranks),
        (Form::Bag, Form::Bag) => compare_lists(table, bound.ranks, beside, other.ranks),
        (Form::One, _) => Ordering::Less,
        (_, Form::One) => Ordering::Greater,
        (Form::Seq, _) => Ordering::Less,
        _ => Ordering::Greater,
    }
}
