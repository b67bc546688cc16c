//! Conditions from texts, over a substitution that gives their variables values that can be counted, and over a table
//! that has their terms.
ghost use Rattle.std.specs.Prelude.{◌≡◌, [], ◌∷◌, IsTrue};
ghost use Rattle.std.specs.List.{AllByRecursion};
ghost use Rattle.mp_pattern.specs.CondTree.{amounts, fixed};
ghost use Rattle.mp_pattern.specs.CondView.{operand, amount, cond_tree};
ghost use Rattle.mp_pattern.specs.Operands.{amount_operands, operands};
ghost use Rattle.mp_pattern.specs.declared.condition.Sense.TheVariants.{Eq};
ghost use Rattle.mp_subst.specs.View.{subst_of, value_of};
ghost use Rattle.mp_cond.specs.Ready.{IsCountable, IsOperandReady, IsReady};
ghost use Rattle.mp_cond.specs.Verdict.{IsHeld, AreHeld};

use crate::values::{name, term};
use mp_pattern::{Amount, BoxedCond, Cond, Conds, Operand, Sense};
use mp_subst::{Subst, Value, copy_value};
use mp_table::Table;
use mp_term::{KindId, OpId, Term, node_count};
use std::alloc::Global;
use std::process::Abort;

// Whether the terms of the value have fewer than 2 ^ 64 - 1 nodes together.
fn is_countable(rt: &impl Abort, alloc: Global, value: &Value) -> bool
    ensures { IsTrue result → IsCountable (value_of value.now) }
{
    match copy_value(alloc, value).expect(rt, "memory") {
        Value::One(term) => node_count(&term) < u64::MAX,
        Value::Seq(terms) | Value::Bag(terms) => {
            node_count(&Term::App(OpId(0), terms)) < u64::MAX
        }
    }
}

// A variable behind a $, or a term.
fn operand(rt: &impl Abort, alloc: Global, text: &[u8], table: &Table, subst: &Subst) -> Operand
    ensures ready { IsOperandReady (subst_of subst.now) (operand result) }
    ensures held { IsHeld table.now (operand result) }
{
    if let [b'$', letters @ ..] = text {
        let name = name(rt, alloc, letters);
        let value = subst.value_of(&name).expect(rt, "a value");
        assert!(rt; is_countable(rt, alloc, value));
        return Operand::Var(name);
    }
    let term = term(rt, alloc, text);
    assert!(rt; node_count(&term) < u64::MAX && table.find(&term).is_some());
    Operand::Ground(term)
}

// A digit, a count behind a #, or a size behind a @.
fn amount(rt: &impl Abort, alloc: Global, text: &[u8], table: &Table, subst: &Subst) -> Amount
    ensures ready { AllByRecursion (IsOperandReady (subst_of subst.now)) (amount_operands (amount result)) }
    ensures held { AllByRecursion (IsHeld table.now) (amount_operands (amount result)) }
{
    match text {
        [b'#', rest @ ..] => Amount::Count(operand(rt, alloc, rest, table, subst)),
        [b'@', rest @ ..] => Amount::Size(operand(rt, alloc, rest, table, subst)),
        [digit] => Amount::Fixed(u32::from(digit.saturating_sub(b'0'))),
        _ => panic!(rt; "no amount"),
    }
}

// The comparison of that spelling.
fn sense(text: &[u8]) -> Option<Sense> {
    match text {
        [b'<'] => Some(Sense::Lt),
        [b'<', _] => Some(Sense::Le),
        [b'>'] => Some(Sense::Gt),
        [b'>', _] => Some(Sense::Ge),
        [b'=', _] => Some(Sense::Eq),
        [b'!', _] => Some(Sense::Ne),
        _ => None,
    }
}

// An atom over two operands.
fn over_two(rt: &impl Abort, sort: u8, a: Operand, b: Operand, table: &Table, subst: &Subst) -> Cond
    requires ready { IsOperandReady (subst_of subst.now) (operand a) }
    requires held { IsHeld table.now (operand a) }
    requires second_ready { IsOperandReady (subst_of subst.now) (operand b) }
    requires second_held { IsHeld table.now (operand b) }
    ensures ready { IsReady (subst_of subst.now) (cond_tree result) }
    ensures held { AreHeld table.now (cond_tree result) }
{
    let _ = table;
    let _ = subst;
    match sort {
        b's' => Cond::Same(a, b),
        b'l' => Cond::Less(a, b),
        b'f' => Cond::Free(a, b),
        _ => panic!(rt; "no atom over two operands"),
    }
}

// An atom over one operand.
fn over_one(rt: &impl Abort, sort: u8, a: Operand, table: &Table, subst: &Subst) -> Cond
    requires ready { IsOperandReady (subst_of subst.now) (operand a) }
    requires held { IsHeld table.now (operand a) }
    ensures ready { IsReady (subst_of subst.now) (cond_tree result) }
    ensures held { AreHeld table.now (cond_tree result) }
{
    let _ = table;
    let _ = subst;
    match sort {
        b'n' => Cond::OfKind(a, KindId(0)),
        b'v' => Cond::OfKind(a, KindId(1)),
        b'w' => Cond::OfKind(a, KindId(2)),
        b'F' => Cond::Headed(a, OpId(1)),
        b'G' => Cond::Headed(a, OpId(2)),
        _ => panic!(rt; "no atom over one operand"),
    }
}

// The comparison of a number with 1.
fn is_one(number: u32) -> Cond
    ensures { cond_tree result ≡ amounts (fixed number) Eq (fixed 1) }
{
    Cond::Amounts(Amount::Fixed(number), Sense::Eq, Amount::Fixed(1))
}

// Two conditions.
fn both(rt: &impl Abort, alloc: Global, first: Cond, second: Cond) -> Conds
    ensures { result ≡ cond_tree first ∷ cond_tree second ∷ [] }
{
    let mut parts = Conds::new(alloc);
    parts.push(first).expect(rt, "memory");
    parts.push(second).expect(rt, "memory");
    parts
}

// The comparisons of both numbers with 1, joined: all hold, some holds, or none does.
fn joined(rt: &impl Abort, alloc: Global, join: u8, p: u32, q: u32) -> Cond
    ensures { operands (cond_tree result) ≡ [] }
{
    let parts = both(rt, alloc, is_one(p), is_one(q));
    match join {
        b'&' => Cond::All(parts),
        b'|' => Cond::Any(parts),
        _ => Cond::Not(BoxedCond::new(alloc, Cond::Any(parts)).expect(rt, "memory")),
    }
}

// An atom over two operands, or over the first one where the second text is empty.
fn atom(
    rt: &impl Abort,
    alloc: Global,
    sort: u8,
    a: &[u8],
    b: &[u8],
    table: &Table,
    subst: &Subst,
) -> Cond
    ensures ready { IsReady (subst_of subst.now) (cond_tree result) }
    ensures held { AreHeld table.now (cond_tree result) }
{
    let first = operand(rt, alloc, a, table, subst);
    if b.is_empty() {
        return over_one(rt, sort, first, table, subst);
    }
    over_two(
        rt,
        sort,
        first,
        operand(rt, alloc, b, table, subst),
        table,
        subst,
    )
}

// The condition of three words: a comparison of amounts, comparisons of two numbers with 1, joined, or an atom.
fn worded(
    rt: &impl Abort,
    alloc: Global,
    sort: &[u8],
    a: &[u8],
    b: &[u8],
    table: &Table,
    subst: &Subst,
) -> Cond
    ensures ready { IsReady (subst_of subst.now) (cond_tree result) }
    ensures held { AreHeld table.now (cond_tree result) }
{
    if let Some(by) = sense(sort) {
        let first = amount(rt, alloc, a, table, subst);
        return Cond::Amounts(first, by, amount(rt, alloc, b, table, subst));
    }
    match (sort, a, b) {
        ([join @ (b'&' | b'|' | b'!')], [p], [q]) => {
            joined(
                rt,
                alloc,
                *join,
                u32::from(*p == b'1'),
                u32::from(*q == b'1'),
            )
        }
        ([first, ..], _, _) => atom(rt, alloc, *first, a, b, table, subst),
        _ => panic!(rt; "no condition"),
    }
}

/// The condition of a line of two words or three.
pub(crate) fn condition(
    rt: &impl Abort,
    alloc: Global,
    line: &str,
    table: &Table,
    subst: &Subst,
) -> Cond
    ensures ready { IsReady (subst_of subst.now) (cond_tree result) }
    ensures held { AreHeld table.now (cond_tree result) }
{
    let (sort, operands) = line.split_once(' ').expect(rt, "two words");
    let (a, b) = operands.split_once(' ').unwrap_or((operands, ""));
    worded(
        rt,
        alloc,
        sort.as_bytes(),
        a.as_bytes(),
        b.as_bytes(),
        table,
        subst,
    )
}

/// Whether the variable is headed by f, alone, or beside a comparison that fails. Each table holds what it speaks of.
pub(crate) fn headed(
    rt: &impl Abort,
    alloc: Global,
    letter: u8,
    beside: bool,
    table: &Table,
) -> Cond
    ensures { AreHeld table.now (cond_tree result) }
{
    let _ = table;
    let head = Cond::Headed(Operand::Var(name(rt, alloc, &[letter])), OpId(1));
    if beside {
        Cond::All(both(rt, alloc, is_one(2), head))
    } else {
        head
    }
}
