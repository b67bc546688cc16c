//! What the variables of a rule take.
ghost use Rattle.std.specs.Prelude.{◌≡◌, List, None, map, option_map, MatchBool, IfOk, IfSome, IfNone};
ghost use Rattle.std.specs.List.{AllByRecursion};
ghost use Rattle.mp_term.specs.Tree.{Tree, Trees};
ghost use Rattle.mp_pattern.specs.PatternTree.{patterns as plain_patterns};
ghost use Rattle.mp_pattern.specs.Value.{one, value_of};
ghost use Rattle.mp_pattern.specs.View.{pattern_tree, wildcard};
ghost use Rattle.mp_subst.specs.View.{subst_of};
ghost use Rattle.mp_table.specs.Reading.{IsHeadOf};
ghost use Rattle.mp_table.specs.Table.{IsTable, term_at, HasRank};
ghost use Rattle.mp_table.specs.Table as plain_table;
ghost use Rattle.mp_cond.specs.Ready.{AreCountable};
ghost use Rattle.mp_net.specs.Net.{Visit};
ghost use Rattle.mp_theory.specs.Shape as plain_shape;
ghost use Rattle.mp_theory.specs.Filled.{bound, filled, all_filled};
ghost use Rattle.mp_net.specs.Walk.{visits, IsSeen, IsRead, AreRead, AreHeld, taken_subst};

use crate::visit::Seen;
use mp_pattern::{Pattern, Shape};
use mp_subst::{Binding, Bindings, Subst, Value};
use mp_table::{Head, Rank, Table};
use mp_term::{Memory, Name, Signature};
use std::alloc::Global;

// A variable with the rank of the term that it takes.
#[derive(Drop)]
pub(crate) struct Taken<'a> {
    pub(crate) name: &'a Name,
    pub(crate) rank: Rank,
}

// The rank of what the variable takes already.
fn taken_by(taken: &[Taken<'_>], name: &Name) -> Option<Rank>
    ensures value { (t : plain_table.Table)
        → option_map (λ r. one (term_at t r)) result ≡ value_of (taken_subst t taken.now) name.now }
    ensures held { (t : plain_table.Table) → AreHeld t taken.now → IfSome result (HasRank t) }
{
    for other in taken {
        if *other.name == *name {
            return Some(other.rank);
        }
    }
    None
}

// Binds the variable, if there is one, to the term of a rank too. It is false where the variable takes another one.
fn bind<'a>(
    table: &Table,
    name: &'a Option<Name>,
    rank: Rank,
    taken: &mut Vec<Taken<'a>>,
) -> Result<bool, Memory>
    requires table { IsTable table.now }
    requires rank { HasRank table.now rank }
    requires taken { AreHeld table.now taken.old.items }
    ensures bound { IfOk result (λ b. MatchBool b
        (bound name.now (term_at table.now rank) (taken_subst table.now taken.old.items)
        ≡ Some (taken_subst table.now taken.new.items))
        (bound name.now (term_at table.now rank) (taken_subst table.now taken.old.items) ≡ None)) }
    ensures taken { IfOk result (λ b. AreHeld table.now taken.new.items) }
{
    let Some(name) = name else {
        return Ok(true);
    };
    match taken_by(taken, name) {
        Some(other) => Ok(other == rank),
        None => {
            taken.push(Taken { name, rank })?;
            Ok(true)
        }
    }
}

// What stands below a kind is of the kind.
fn suits(sig: &Signature, shape: &Shape, head: &Head<'_>) -> bool
    ensures { (t : Tree) → IsHeadOf head.now t → result ≡ plain_shape.suits sig.now (wildcard shape.now) t }
{
    match (shape, head) {
        (Shape::Kind(kind), Head::Sym(name)) => sig.kind_has(*kind, name.bytes()),
        (Shape::Kind(_), Head::App(_)) => false,
        _ => true,
    }
}

// Follows a pattern along what was read: what was read behind it, or None where a kind isn't met or where a variable
// takes different terms.
#[cycle(follow)]
pub(crate) fn follow<'a, 's, 't>(
    sig: &Signature,
    table: &Table,
    pattern: &'a Pattern,
    trace: &'s [Seen<'t>],
    taken: &mut Vec<Taken<'a>>,
) -> Result<Option<&'s [Seen<'t>]>, Memory>
    requires table { IsTable table.now }
    requires seen { AllByRecursion (IsSeen table.now) trace.now }
    requires taken { AreHeld table.now taken.old.items }
    requires read { (t : Tree) × (rest : List Visit)
        × IsRead (pattern_tree pattern.now) t (visits table.now trace.now) rest }
    ensures found { IfOk result (λ o. IfSome o (λ r. (t : Tree) (rest : List Visit)
        → IsRead (pattern_tree pattern.now) t (visits table.now trace.now) rest
        → (filled sig.now (pattern_tree pattern.now) t (taken_subst table.now taken.old.items)
        ≡ Some (taken_subst table.now taken.new.items)) × (visits table.now r.now ≡ rest))) }
    ensures missed { IfOk result (λ o. IfNone o ((t : Tree) (rest : List Visit)
        → IsRead (pattern_tree pattern.now) t (visits table.now trace.now) rest
        → filled sig.now (pattern_tree pattern.now) t (taken_subst table.now taken.old.items) ≡ None)) }
    ensures taken { IfOk result (λ o. AreHeld table.now taken.new.items) }
    ensures seen { IfOk result (λ o. IfSome o (λ r. AllByRecursion (IsSeen table.now) r.now)) }
{
    let [seen, rest @ ..] = trace else {
        unreachable!()
    };
    match pattern {
        Pattern::Sym(_) => Ok(Some(rest)),
        Pattern::App(_, args) => follow_all(sig, table, args.as_slice(), rest, taken),
        Pattern::Wild(shape, name) => {
            if !suits(sig, shape, &seen.head) {
                return Ok(None);
            }
            if !bind(table, name, seen.rank, taken)? {
                return Ok(None);
            }
            Ok(Some(&rest[seen.inside..]))
        }
    }
}

// Follows patterns, one after the other.
#[cycle(follow)]
fn follow_all<'a, 's, 't>(
    sig: &Signature,
    table: &Table,
    patterns: &'a [Pattern],
    trace: &'s [Seen<'t>],
    taken: &mut Vec<Taken<'a>>,
) -> Result<Option<&'s [Seen<'t>]>, Memory>
    requires table { IsTable table.now }
    requires seen { AllByRecursion (IsSeen table.now) trace.now }
    requires taken { AreHeld table.now taken.old.items }
    requires read { (ts : Trees) × (rest : List Visit)
        × AreRead (plain_patterns (map pattern_tree patterns.now)) ts (visits table.now trace.now) rest }
    ensures found { IfOk result (λ o. IfSome o (λ r. (ts : Trees) (rest : List Visit)
        → AreRead (plain_patterns (map pattern_tree patterns.now)) ts (visits table.now trace.now) rest
        → (all_filled sig.now (plain_patterns (map pattern_tree patterns.now)) ts
        (taken_subst table.now taken.old.items)
        ≡ Some (taken_subst table.now taken.new.items)) × (visits table.now r.now ≡ rest))) }
    ensures missed { IfOk result (λ o. IfNone o ((ts : Trees) (rest : List Visit)
        → AreRead (plain_patterns (map pattern_tree patterns.now)) ts (visits table.now trace.now) rest
        → all_filled sig.now (plain_patterns (map pattern_tree patterns.now)) ts (taken_subst table.now taken.old.items)
        ≡ None)) }
    ensures taken { IfOk result (λ o. AreHeld table.now taken.new.items) }
    ensures seen { IfOk result (λ o. IfSome o (λ r. AllByRecursion (IsSeen table.now) r.now)) }
{
    match patterns {
        [] => Ok(Some(trace)),
        [first, rest @ ..] => match follow(sig, table, first, trace, taken)? {
            None => Ok(None),
            Some(behind) => follow_all(sig, table, rest, behind, taken),
        },
    }
}

// The substitution of what the variables take.
pub(crate) fn to_subst(alloc: Global, table: &Table, taken: &[Taken<'_>]) -> Result<Subst, Memory>
    requires { AreHeld table.now taken.now }
    ensures subst { IfOk result (λ s. subst_of s ≡ taken_subst table.now taken.now) }
    ensures countable { IfOk result (λ s. AreCountable (subst_of s)) }
{
    let mut bindings = Bindings::new(alloc);
    for one in taken {
        // The number of nodes is asked for what holds of it.
        let _ = table.nodes(one.rank);
        let name = one.name.copy(alloc)?;
        let value = Value::One(table.term_of(alloc, one.rank)?);
        bindings.push(Binding { name, value })?;
    }
    Ok(Subst { bindings })
}
