//! What conditions are decided over: a signature, a plan, a table, and a trail that binds the plan's variables.
ghost use Rattle.mp_table.specs.Table.{HasRank, HasRanks};
ghost use Rattle.mp_subst.specs.Trail.{GoesWith};

use crate::trails::fit;
use crate::values::{
    name, names, no_operations, operation, plan_of, push_wildcards, table_of, terms,
};
use mp_pattern::{Form, Pattern, Patterns, Plan};
use mp_subst::Trail;
use mp_table::{Rank, Table};
use mp_term::{OpId, Signature, Term};
use std::alloc::Global;
use std::process::Abort;

// The variables of the plan: single terms and tuples under h, and multisets under the commutative k.
const ONES: &[u8] = b"xntwuj";

const TUPLES: &[u8] = b"ypqeil";

const MULTISETS: &[u8] = b"mzo";

// A variable, the form of its value, whether f is applied to the terms, and the terms.
const VALUES: &[(&str, Form, bool, &str)] = &[
    ("x", Form::One, false, "a"),
    ("n", Form::One, false, "7"),
    ("t", Form::One, false, "B(C(a)b)"),
    ("w", Form::One, true, "ba"),
    ("u", Form::One, true, "bC(a)"),
    ("y", Form::Seq, false, "a"),
    ("p", Form::Seq, false, "ba"),
    ("q", Form::Seq, false, "B(ab)C(b)"),
    ("e", Form::Seq, false, ""),
    ("i", Form::Bag, false, "ab"),
    ("m", Form::Bag, false, "a"),
    ("z", Form::Bag, false, "ab"),
    ("o", Form::Bag, false, ""),
];

/// The kind v of the symbols a and b, and the commutative operation k, of any number of arguments, with the number 0;
/// f, g and h have the numbers 1 to 3, and need no declaration.
pub(crate) fn signature(rt: &impl Abort, alloc: Global) -> Box<Signature> {
    let mut sig = no_operations(rt, alloc);
    sig.add_op(operation(rt, alloc, b"k", true))
        .expect(rt, "an operation");
    sig.add_kind(name(rt, alloc, b"v"), names(rt, alloc, b"ab"))
        .expect(rt, "a kind");
    sig
}

// h of the single terms, the tuples, and k of the multisets.
fn pattern(rt: &impl Abort, alloc: Global) -> Pattern {
    let mut multisets = Patterns::new(alloc);
    push_wildcards(rt, alloc, &mut multisets, MULTISETS, true);
    let mut children = Patterns::new(alloc);
    push_wildcards(rt, alloc, &mut children, ONES, false);
    push_wildcards(rt, alloc, &mut children, TUPLES, true);
    children
        .push(Pattern::App(OpId(0), multisets))
        .expect(rt, "memory");
    Pattern::App(OpId(3), children)
}

/// Its plan.
pub(crate) fn plan(rt: &impl Abort, alloc: Global, sig: &Signature) -> Box<Plan> {
    plan_of(rt, alloc, sig, pattern(rt, alloc))
}

/// The table of h of some terms.
pub(crate) fn table(rt: &impl Abort, alloc: Global, sig: &Signature) -> Box<Table> {
    table_of(rt, alloc, sig, b"D(B(C(a)b)B(ab)C(b)C(C(a))7c)")
}

// The rank of the term.
fn rank(rt: &impl Abort, table: &Table, term: &Term) -> Rank
    ensures { HasRank table.now result }
{
    let rank = table.find(term).expect(rt, "a term of the table");
    assert!(rt; rank.0 < table.len());
    rank
}

// The ranks of the terms.
fn ranks(rt: &impl Abort, alloc: Global, table: &Table, text: &[u8]) -> Vec<Rank>
    ensures { HasRanks table.now result.items }
{
    let mut ranks = Vec::new(alloc);
    for term in terms(rt, alloc, text).as_slice() {
        ranks.push(rank(rt, table, term)).expect(rt, "memory");
    }
    ranks
}

// Binds the variable of the row to its value.
fn bind(
    rt: &impl Abort,
    alloc: Global,
    plan: &Plan,
    table: &Table,
    trail: &mut Trail,
    row: &(&str, Form, bool, &str),
)
    requires { GoesWith table.now trail.old }
    ensures { GoesWith table.now trail.new }
{
    let wrap = if row.2 { Some(OpId(1)) } else { None };
    let ranks = ranks(rt, alloc, table, row.3.as_bytes());
    let var = plan.find_var(row.0.as_bytes()).expect(rt, "a variable");
    assert!(rt;
        var < trail.vars()
            && ranks.len() + 2 <= trail.spare() as usize
            && fit(row.1, wrap, &ranks)
            && trail.bind(table, var, row.1, wrap, &ranks)
    );
}

/// The trail with the values.
pub(crate) fn trail(rt: &impl Abort, alloc: Global, plan: &Plan, table: &Table) -> Trail
    ensures { GoesWith table.now result }
{
    let mut trail = Trail::new(alloc, plan.vars(), 100).expect(rt, "memory");
    for row in VALUES {
        bind(rt, alloc, plan, table, &mut trail, row);
    }
    trail
}
