//! A table of terms: their ranks, their readers, and the search for them.

ghost use Rattle.std.specs.Prelude.{◌≤◌, IsTrue};
ghost use Rattle.mp_term.specs.Normal.{IsNormal};
ghost use Rattle.mp_term.specs.Size.{node_count};
ghost use Rattle.mp_term.specs.View.{tree};
ghost use Rattle.mp_term.specs.declared.limits.TheConstants.{MAX_TERM_NODES};
ghost use Rattle.mp_table.specs.Table.{HasRank};

use crate::values::{name, no_operations, term};
use mp_table::{Head, Rank, Table, compare_apps};
use mp_term::{MAX_TERM_NODES, OpId, Signature, Term, Terms, is_normal, node_count};
use std::alloc::Global;
use std::process::Abort;

// Whether a table may be built of the term.
fn is_fit(sig: &Signature, term: &Term) -> bool
    ensures normal { IsTrue result → IsNormal sig.now (tree term.now) }
    ensures small { IsTrue result → node_count (tree term.now) ≤ MAX_TERM_NODES }
{
    is_normal(sig, term) && node_count(term) <= MAX_TERM_NODES
}

// The table of f(b, g(a), f(b, g(a)), a) and of the constant g(b), where f and g are the operations 0 and 1. It is in
// a box, which is quick to prove where it is dropped.
fn table(rt: &impl Abort, alloc: Global) -> Box<Table> {
    let sig = no_operations(rt, alloc);
    let subject = term(rt, alloc, b"A(bB(a)A(bB(a))a)");
    let subject = Box::new(alloc, subject).expect(rt, "memory");
    let constant = term(rt, alloc, b"B(b)");
    assert!(rt; is_fit(&sig, &subject) && is_fit(&sig, &constant));
    let mut constants = Terms::new(alloc);
    constants.push(constant).expect(rt, "memory");
    let table = Table::build(alloc, &sig, &subject, &constants).expect(rt, "memory");
    Box::new(alloc, table).expect(rt, "memory")
}

// A term: its rank; its operation, or else the name of its symbol; the ranks of its arguments; how many nodes it has.
type Row = (u32, Option<u32>, &'static [u8], &'static [Rank], u64);

const ROWS: &[Row] = &[
    (0, None, b"a", &[], 1),
    (1, None, b"b", &[], 1),
    (2, Some(0), b"", &[Rank(1), Rank(4)], 4),
    (3, Some(0), b"", &[Rank(1), Rank(4), Rank(2), Rank(0)], 9),
    (4, Some(1), b"", &[Rank(0)], 2),
    (5, Some(1), b"", &[Rank(1)], 2),
];

// Whether the term of the rank has that head, and is found and compared by it.
fn has_head(table: &Table, rank: Rank, op: Option<u32>, text: &[u8]) -> bool
    requires { HasRank table.now rank }
{
    match table.head(rank) {
        Head::Sym(name) => {
            op.is_none() && name.bytes() == text && table.find_symbol(name) == Some(rank)
        }
        Head::App(own) => {
            let args = table.args(rank);
            op == Some(own.0)
                && table.find_app(own, args) == Some(rank)
                && table.compare_app(rank, own, args).is_eq()
                && compare_apps(own, args, OpId(2), args).is_lt()
        }
    }
}

// Whether a copy of the term of the rank is found.
fn is_found(rt: &impl Abort, alloc: Global, table: &Table, rank: Rank) -> bool
    requires { HasRank table.now rank }
{
    table.find(&table.term_of(alloc, rank).expect(rt, "memory")) == Some(rank)
}

// Whether the row stands at its rank.
fn is_ranked(rt: &impl Abort, alloc: Global, table: &Table, row: &Row) -> bool {
    let rank = Rank(row.0);
    rank.0 < table.len()
        && has_head(table, rank, row.1, row.2)
        && table.args(rank) == row.3
        && table.nodes(rank) == row.4
        && is_found(rt, alloc, table, rank)
}

// Whether the table lacks c, g(c), and g of the subject.
fn lacks(rt: &impl Abort, alloc: Global, table: &Table) -> bool {
    table.find_symbol(&name(rt, alloc, b"c")).is_none()
        && table.find(&term(rt, alloc, b"B(c)")).is_none()
        && table.find_app(OpId(1), &[table.root()]).is_none()
}

#[test]
fn terms_are_ranked_read_and_found(rt: HostRuntime) {
    let table = table(&rt, rt.alloc());
    assert!(rt; table.len() == 6 && table.root() == Rank(3) && lacks(&rt, rt.alloc(), &table));
    for row in ROWS {
        assert!(rt; is_ranked(&rt, rt.alloc(), &table, row), "{}", row.0);
    }
}
