//! Values that variables are bound to by ranks, taken back, copied, and read as a substitution.

ghost use Rattle.std.specs.Prelude.{◌≡◌, length, option_map, IsTrue, []};
ghost use Rattle.mp_term.specs.Sorting.{sorted};
ghost use Rattle.mp_pattern.specs.PlanView.{form as form_of};
ghost use Rattle.mp_table.specs.Table.{HasRanks, rank_cmp};
ghost use Rattle.mp_subst.specs.Bound.{AreRanksOf};
ghost use Rattle.mp_subst.specs.Trail.{GoesWith, cut};

use crate::values::{check, is_value, name, no_operations, plan_of, push_wildcards, table_of};
use mp_pattern::{Form, Pattern, Patterns, Plan};
use mp_subst::{Subst, Trail, same_rank_multiset};
use mp_table::{Rank, Table};
use mp_term::OpId;
use std::alloc::Global;
use std::process::Abort;

// The table of f(a, b, c, g(a)), where f and g are the operations 0 and 1: a, b and c have the ranks 0 to 2, the whole
// has the rank 3, and g(a) has the rank 4.
fn table(rt: &impl Abort, alloc: Global) -> Box<Table> {
    table_of(rt, alloc, &no_operations(rt, alloc), b"A(abcB(a))")
}

// Whether there is no more than one rank, or there are two that ascend.
fn ascend(ranks: &[Rank]) -> bool
    ensures { IsTrue result → sorted rank_cmp ranks.now ≡ ranks.now }
{
    match ranks {
        [] | [_] => true,
        [first, second] => first.0 <= second.0,
        _ => false,
    }
}

// Whether the ranks fit the form and the operation.
pub(crate) fn fit(form: Form, wrap: Option<OpId>, ranks: &[Rank]) -> bool
    ensures { IsTrue result → AreRanksOf (form_of form) (option_map (λ op. op.0) wrap) ranks.now }
{
    match (form, wrap) {
        (Form::One, None) => ranks.len() == 1,
        (Form::One, Some(_)) | (Form::Seq, None) => true,
        (Form::Bag, None) => ascend(ranks),
        _ => false,
    }
}

// Whether the table has the ranks.
fn has_ranks(table: &Table, ranks: &[Rank]) -> bool
    ensures { IsTrue result → HasRanks table.now ranks.now }
{
    for rank in ranks {
        if rank.0 >= table.len() {
            return false;
        }
    }
    true
}

// The ranks of letters: that of a is 0.
fn ranks_of(rt: &impl Abort, alloc: Global, letters: &[u8]) -> Vec<Rank> {
    let mut ranks = Vec::new(alloc);
    for letter in letters {
        ranks
            .push(Rank(u32::from(*letter).wrapping_sub(97)))
            .expect(rt, "memory");
    }
    ranks
}

// Binds the variable 0, where that may be asked.
fn bind(
    rt: &impl Abort,
    table: &Table,
    trail: &mut Trail,
    form: Form,
    wrap: Option<OpId>,
    ranks: &[Rank],
) -> bool
    requires { GoesWith table.now trail.old }
    ensures goes_with { GoesWith table.now trail.new }
    ensures room { trail.new.room ≡ trail.old.room }
    ensures undone { cut (length trail.old.stack) trail.new ≡ trail.old }
{
    let has_room = trail.vars() > 0 && ranks.len() < 8 && trail.spare() >= 10;
    assert!(rt; has_room && has_ranks(table, ranks) && fit(form, wrap, ranks));
    trail.bind(table, 0, form, wrap, ranks)
}

// Binds the variable 0 to the value of a text: a symbol, a tuple of them as (ba), a multiset of them as {ab}, or g
// applied to symbols as B(ab). The letter e stands for g(a).
fn bind_text(rt: &impl Abort, alloc: Global, table: &Table, trail: &mut Trail, text: &[u8]) -> bool
    requires { GoesWith table.now trail.old }
    ensures goes_with { GoesWith table.now trail.new }
    ensures room { trail.new.room ≡ trail.old.room }
    ensures undone { cut (length trail.old.stack) trail.new ≡ trail.old }
{
    let (form, wrap, letters) = match text {
        [b'(', letters @ .., _] => (Form::Seq, None, letters),
        [b'{', letters @ .., _] => (Form::Bag, None, letters),
        [b'B', _, letters @ .., _] => (Form::One, Some(OpId(1)), letters),
        _ => (Form::One, None, text),
    };
    bind(rt, table, trail, form, wrap, &ranks_of(rt, alloc, letters))
}

// Whether the variable 0 has the value of the text.
fn has_value(rt: &impl Abort, alloc: Global, table: &Table, trail: &Trail, text: &[u8]) -> bool
    requires { GoesWith table.now trail.now }
{
    let Some(bound) = trail.binding(0) else {
        return false;
    };
    let found = bound.to_value(alloc, table).expect(rt, "memory");
    let found = Box::new(alloc, found).expect(rt, "memory");
    is_value(rt, alloc, &found, text)
}

// A trail that binds nothing.
fn trail(rt: &impl Abort, alloc: Global, vars: u32) -> Trail
    ensures { result ≡ record { vars = vars; room = 20; spare = 20; stack = [] } }
{
    Trail::new(alloc, vars, 20).expect(rt, "memory")
}

// Whether a copy of the trail, and another trail that is made equal to the copy, have the value of the text.
fn is_copied(rt: &impl Abort, alloc: Global, table: &Table, own: &Trail, text: &[u8]) -> bool
    requires goes_with { GoesWith table.now own.now }
    requires room { own.now.room ≡ 20 }
{
    let copy = own.copy(alloc).expect(rt, "memory");
    let mut other = trail(rt, alloc, 0);
    other.refill(&copy);
    has_value(rt, alloc, table, &copy, text)
        && has_value(rt, alloc, table, &other, text)
        && other.vars() == own.vars()
        && other.spare() == own.spare()
}

// Whether the second value may be bound too, and gives the common value in the trail and in its copies: where that is
// no text it may not, and the first value stays. What it did is taken back.
fn joins(
    rt: &impl Abort,
    alloc: Global,
    table: &Table,
    trail: &mut Trail,
    second: &[u8],
    common: &[u8],
) -> bool
    requires goes_with { GoesWith table.now trail.old }
    requires room { trail.old.room ≡ 20 }
    ensures goes_with { GoesWith table.now trail.new }
{
    let mark = trail.mark();
    let is_joined = bind_text(rt, alloc, table, trail, second);
    let is_common = is_joined
        && has_value(rt, alloc, table, trail, common)
        && is_copied(rt, alloc, table, trail, common);
    trail.undo(mark);
    is_joined != common.is_empty() && is_common == is_joined
}

// The text of the value that a text is bound to.
fn bound_text(text: &[u8]) -> &[u8] {
    if let [b'e'] = text { b"B(a)" } else { text }
}

// Whether the values of a row join so.
fn row_holds(rt: &impl Abort, alloc: Global, table: &Table, row: &(&str, &str, &str)) -> bool {
    let mut trail = trail(rt, alloc, 2);
    let first = row.0.as_bytes();
    let empty = trail.mark();
    let is_bound = bind_text(rt, alloc, table, &mut trail, first);
    let is_joined = joins(
        rt,
        alloc,
        table,
        &mut trail,
        row.1.as_bytes(),
        row.2.as_bytes(),
    );
    let is_back = has_value(rt, alloc, table, &trail, bound_text(first));
    trail.undo(empty);
    is_bound && is_joined && is_back && trail.binding(0).is_none() && trail.spare() == 20
}

// Two values and, behind them, what they merge to; nothing where they don't.
const ROWS: &[(&str, &str, &str)] = &[
    ("a", "a", "a"),
    ("a", "b", ""),
    ("B(a)", "B(a)", "B(a)"),
    ("B(a)", "e", "B(a)"),
    ("e", "B(a)", "B(a)"),
    ("B(a)", "a", ""),
    ("B(b)", "B(b)", "B(b)"),
    ("B(b)", "B(a)", ""),
    ("B(b)", "b", ""),
    ("b", "B(b)", ""),
    ("B(ab)", "B(ab)", "B(ab)"),
    ("B(ab)", "B(ba)", ""),
    ("B()", "B()", "B()"),
    ("(ba)", "(ba)", "(ba)"),
    ("(ba)", "(ab)", ""),
    ("{ab}", "{ab}", "{ab}"),
    ("{ab}", "{bb}", ""),
    ("(ba)", "{ab}", "(ba)"),
    ("{ab}", "(ba)", "(ba)"),
    ("{ab}", "(bb)", ""),
    ("{}", "()", "()"),
    ("{aa}", "(a)", ""),
    ("(a)", "a", ""),
    ("a", "{a}", ""),
];

#[test]
fn bindings_by_ranks_join_as_their_values(rt: HostRuntime) {
    let table = table(&rt, rt.alloc());
    for row in ROWS {
        assert!(rt;
            row_holds(&rt, rt.alloc(), &table, row),
            "{} {}",
            row.0,
            row.1
        );
    }
}

// The plan of f(x_, y_).
fn plan(rt: &impl Abort, alloc: Global) -> Box<Plan> {
    let mut patterns = Patterns::new(alloc);
    push_wildcards(rt, alloc, &mut patterns, b"xy", false);
    plan_of(
        rt,
        alloc,
        &no_operations(rt, alloc),
        Pattern::App(OpId(0), patterns),
    )
}

// Whether the substitution has one variable, x, with the value of the text.
fn is_subst(rt: &impl Abort, alloc: Global, subst: &Subst, text: &[u8]) -> bool {
    match subst.value_of(&name(rt, alloc, b"x")) {
        Some(found) => subst.bindings.len() == 1 && is_value(rt, alloc, found, text),
        None => false,
    }
}

// Whether the substitution of a trail that binds x alone is that.
fn is_read(rt: &impl Abort, alloc: Global, table: &Table, plan: &Plan, text: &[u8]) -> bool {
    let mut trail = trail(rt, alloc, 2);
    bind_text(rt, alloc, table, &mut trail, text)
        && is_subst(
            rt,
            alloc,
            &trail.to_subst(alloc, table, plan).expect(rt, "memory"),
            text,
        )
}

#[test]
fn a_trail_is_read_as_a_substitution(rt: HostRuntime) {
    let table = table(&rt, rt.alloc());
    let plan = plan(&rt, rt.alloc());
    for text in VALUES {
        check(
            &rt,
            is_read(&rt, rt.alloc(), &table, &plan, text.as_bytes()),
            text,
        );
    }
}

const VALUES: &[&str] = &["a", "B(b)", "(cab)", "{ab}"];

// Letters, other letters, and whether they stand for the same ranks, each as often.
const LETTERS: &[(&str, &str, bool)] = &[
    ("abca", "caab", true),
    ("aab", "abb", false),
    ("", "a", false),
];

// Whether the letters of the row are alike just where it says so.
fn are_alike(rt: &impl Abort, alloc: Global, table: &Table, row: &(&str, &str, bool)) -> bool {
    let ranks = ranks_of(rt, alloc, row.0.as_bytes());
    let others = ranks_of(rt, alloc, row.1.as_bytes());
    assert!(rt; has_ranks(table, &ranks) && has_ranks(table, &others));
    same_rank_multiset(table, &ranks, &others) == row.2
}

#[test]
fn ranks_are_alike_in_any_order(rt: HostRuntime) {
    let table = table(&rt, rt.alloc());
    for row in LETTERS {
        check(&rt, are_alike(&rt, rt.alloc(), &table, row), row.0);
    }
}
