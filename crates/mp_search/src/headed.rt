//! The applications of one operation among terms that ascend.
ghost use Rattle.std.specs.Prelude.{◌≡◌, ◌≤◌, true, false, length, IfSome, option_map};
ghost use Rattle.std.specs.List.{AllWithin};
ghost use Rattle.std.specs.List.Sorted.{IsSorted};
ghost use Rattle.mp_table.specs.Table.{IsTable, HasRank, HasRanks, term_at, terms_at, rank_cmp};
ghost use Rattle.mp_search.specs.Portion.{args_before, precedes};

use mp_table::{Head, Rank, Table};
use mp_term::OpId;
use std::cmp::Ordering;

// The applications of an operation, or where a rank is given, those to so many arguments of which the first is its
// term. They stand together among terms that ascend.
#[derive(Clone, Copy)]
pub(crate) struct Group {
    pub(crate) op: OpId,
    pub(crate) count: usize,
    pub(crate) first: Option<Rank>,
}

// Whether the arguments come before those of the group, or are such where that is asked for.
fn are_before(table: &Table, group: &Group, past: bool, args: &[Rank]) -> bool
    requires table { IsTable table.now }
    requires first { IfSome group.now.first (HasRank table.now) }
    requires args { HasRanks table.now args.now }
    ensures { result ≡ args_before past group.now.count (option_map (term_at table.now) group.now.first)
        (terms_at table.now args.now) }
{
    let _ = table;
    let Some(first) = group.first else {
        return past;
    };
    if args.len() != group.count {
        return args.len() < group.count;
    }
    match args {
        [] => past,
        [own, ..] => match own.0.cmp(&first.0) {
            Ordering::Less => true,
            Ordering::Equal => past,
            Ordering::Greater => false,
        },
    }
}

// Whether the term comes before the group, or is one of it where that is asked for.
fn is_before(table: &Table, group: &Group, past: bool, rank: Rank) -> bool
    requires table { IsTable table.now }
    requires first { IfSome group.now.first (HasRank table.now) }
    requires rank { HasRank table.now rank }
    ensures { result ≡ precedes table.now group.now past (term_at table.now rank) }
{
    match table.head(rank) {
        Head::Sym(_) => true,
        Head::App(op) => {
            if op.0 == group.op.0 {
                are_before(table, group, past, table.args(rank))
            } else {
                op.0 < group.op.0
            }
        }
    }
}

// The first place in an ascending list, which is neither before the first given one nor behind the second, at which the
// term doesn't come before the group, and isn't one of it where that is asked for.
fn place_between(
    table: &Table,
    group: &Group,
    past: bool,
    list: &[Rank],
    from: usize,
    to: usize,
) -> usize
    requires table { IsTable table.now }
    requires first { IfSome group.now.first (HasRank table.now) }
    requires ranks { HasRanks table.now list.now }
    requires ascending { IsSorted rank_cmp list.now }
    requires order { from ≤ to }
    requires within { to ≤ length list.now }
    requires before { AllWithin (λ r. precedes table.now group.now past (term_at table.now r) ≡ true) list.now 0 from }
    requires behind { AllWithin (λ r. precedes table.now group.now past (term_at table.now r) ≡ false) list.now to
        (length list.now) }
    ensures from { from ≤ result }
    ensures within { result ≤ length list.now }
    ensures before { AllWithin (λ r. precedes table.now group.now past (term_at table.now r) ≡ true) list.now 0 result }
    ensures behind { AllWithin (λ r. precedes table.now group.now past (term_at table.now r) ≡ false) list.now result
        (length list.now) }
{
    let mut low = from;
    let mut high = to;
    while low < high {
        let middle = low + (high - low) / 2;
        if is_before(table, group, past, list[middle]) {
            low = middle + 1;
        } else {
            high = middle;
        }
    }
    low
}

// The first place in an ascending list at which the term doesn't come before the group.
pub(crate) fn first_place(table: &Table, group: &Group, list: &[Rank]) -> usize
    requires table { IsTable table.now }
    requires first { IfSome group.now.first (HasRank table.now) }
    requires ranks { HasRanks table.now list.now }
    requires ascending { IsSorted rank_cmp list.now }
    ensures within { result ≤ length list.now }
    ensures before { AllWithin (λ r. precedes table.now group.now false (term_at table.now r) ≡ true) list.now 0
        result }
    ensures behind { AllWithin (λ r. precedes table.now group.now false (term_at table.now r) ≡ false) list.now result
        (length list.now) }
{
    place_between(table, group, false, list, 0, list.len())
}

// How many terms of a group are looked at, one after the other, before all that come behind.
const NEAR: usize = 4;

// The first place in an ascending list at which the term comes behind the group, which begins at the given one.
pub(crate) fn place_behind(table: &Table, group: &Group, list: &[Rank], first: usize) -> usize
    requires table { IsTable table.now }
    requires first { IfSome group.now.first (HasRank table.now) }
    requires ranks { HasRanks table.now list.now }
    requires ascending { IsSorted rank_cmp list.now }
    requires within { first ≤ length list.now }
    requires before { AllWithin (λ r. precedes table.now group.now false (term_at table.now r) ≡ true) list.now 0
        first }
    ensures from { first ≤ result }
    ensures within { result ≤ length list.now }
    ensures before { AllWithin (λ r. precedes table.now group.now true (term_at table.now r) ≡ true) list.now 0 result }
    ensures behind { AllWithin (λ r. precedes table.now group.now true (term_at table.now r) ≡ false) list.now result
        (length list.now) }
{
    let mut end = first;
    while end < list.len() && end - first < NEAR {
        if !is_before(table, group, true, list[end]) {
            return end;
        }
        end += 1;
    }
    place_between(table, group, true, list, end, list.len())
}
