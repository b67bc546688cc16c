//! What one wildcard may take of the terms of a table.

ghost use Rattle.std.specs.Prelude.{IsTrue};
ghost use Rattle.mp_table.specs.Table.{HasRanks};

use crate::ranks::{ranks, table};
use crate::reading::file;
use mp_search::{has_head, is_contribution, is_of_kind};
use mp_table::{Rank, Table};
use mp_term::{KindId, OpId, Signature};
use std::alloc::Global;
use std::process::Abort;

const DECLARED: &str = "op f 2; op p 1+ assoc; op g 0+; kind v: a c;";

// The subject of the table.
const SUBJECT: &str = "g(a, b, f(a, b), p(a))";

// Terms of the subject behind a `;` each; whether they are one symbol of the kind; whether some term contributes them
// at the root, under `f` and under `p`; and whether they are one application of `p`.
type Row = (&'static str, bool, [bool; 3], bool);

const ROWS: &[Row] = &[
    ("", false, [false, false, false], false),
    (";a", true, [true, true, true], false),
    (";b", false, [true, true, true], false),
    (";f(a, b)", false, [true, true, true], false),
    (";p(a)", false, [true, true, false], true),
    (";a;b", false, [false, false, true], false),
    (";a;a", false, [false, false, true], false),
];

// Whether the table holds the ranks.
fn are_held(table: &Table, ranks: &[Rank]) -> bool
    ensures { IsTrue result → HasRanks table.now ranks.now }
{
    ranks.iter().all(|rank| rank.0 < table.len())
}

// Whether the terms of the ranks are one application of the operation.
fn is_application(table: &Table, ranks: &[Rank], op: OpId) -> bool
    requires { HasRanks table.now ranks.now }
{
    match ranks {
        [rank] => has_head(table, *rank, op),
        _ => false,
    }
}

// Whether a wildcard may take the terms of the ranks as the row says.
fn is_as_told(sig: &Signature, table: &Table, ranks: &[Rank], row: &Row) -> bool
    requires { HasRanks table.now ranks.now }
{
    is_of_kind(sig, table, KindId(1), ranks) == row.1
        && is_contribution(sig, table, None, ranks) == row.2[0]
        && is_contribution(sig, table, Some(OpId(0)), ranks) == row.2[1]
        && is_contribution(sig, table, Some(OpId(1)), ranks) == row.2[2]
        && is_application(table, ranks, OpId(1)) == row.3
}

// Stops unless a wildcard may take the terms of the row as it says.
fn check_row(rt: &impl Abort, alloc: Global, sig: &Signature, table: &Table, row: &Row) {
    let ranks = ranks(rt, alloc, sig, table, row.0);
    assert!(rt; are_held(table, &ranks));
    assert!(rt; is_as_told(sig, table, &ranks, row), "{}", row.0);
}

#[test]
fn a_wildcard_takes_a_symbol_of_its_kind_or_what_a_term_contributes(rt: HostRuntime) {
    let file = file(&rt, rt.alloc(), DECLARED);
    let table = table(&rt, rt.alloc(), &file.sig, SUBJECT);
    for row in ROWS {
        check_row(&rt, rt.alloc(), &file.sig, &table, row);
    }
}
