//! Values of variables, held by reference while a take table is gone over.
ghost use Rattle.std.specs.Prelude.{◌≡◌, option_map, IfOk, if◌then◌else◌};
ghost use Rattle.mp_term.specs.Tree.{app, trees};
ghost use Rattle.mp_term.specs.View.{tree};
ghost use Rattle.mp_term.specs.Order.{tree_cmp};
ghost use Rattle.mp_term.specs.Pieces.{same};
ghost use Rattle.mp_pattern.specs.View.{wildcard};
ghost use Rattle.mp_pattern.specs.Value as values;
ghost use Rattle.mp_theory.specs.Solve as solve;
ghost use Rattle.mp_search.specs.Frames.{above};
ghost use Rattle.mp_one.specs.Lists.{trees_of};
ghost use Rattle.mp_one.specs.TrailValue.{trail_value, merged, is_same_one};

use crate::node::{is_alone, is_of_kind};
use crate::terms::{copied, references, same_multiset, same_references};
use mp_pattern::{Shape, is_comm_above, meets_count};
use mp_term::{Memory, OpId, Signature, Term, compare};
use std::alloc::Global;

/// A term of the subject, an operation on terms of the subject, a tuple of terms, or a multiset of terms.
#[derive(Drop)]
pub enum TrailValue<'a> {
    Whole(&'a Term),
    Joined(OpId, Vec<&'a Term>),
    Seq(Vec<&'a Term>),
    Bag(Vec<&'a Term>),
}

/// Which of two values of one variable is the value of both uses.
#[derive(Drop)]
pub enum Merged {
    First,
    Second,
    Clash,
}

/// The same value.
pub fn copy_value<'a>(alloc: Global, held: &TrailValue<'a>) -> Result<TrailValue<'a>, Memory>
    ensures { IfOk result (λ h. trail_value h ≡ trail_value held.now) }
{
    match held {
        TrailValue::Whole(term) => Ok(TrailValue::Whole(term)),
        TrailValue::Joined(op, terms) => Ok(TrailValue::Joined(*op, copied(alloc, terms)?)),
        TrailValue::Seq(terms) => Ok(TrailValue::Seq(copied(alloc, terms)?)),
        TrailValue::Bag(terms) => Ok(TrailValue::Bag(copied(alloc, terms)?)),
    }
}

/// Whether the term is that operation on those terms.
pub fn is_joined(alloc: Global, term: &Term, op: OpId, terms: &[&Term]) -> Result<bool, Memory>
    ensures { IfOk result (λ b. b ≡ same tree_cmp (tree term.now) (app op.0 (trees (trees_of terms.now)))) }
{
    match term {
        Term::Sym(_) => Ok(false),
        Term::App(head, args) => {
            if head.0 != op.0 {
                return Ok(false);
            }
            let args = references(alloc, args.as_slice())?;
            Ok(same_references(&args, terms))
        }
    }
}

// Whether the two are one term.
fn same_term(alloc: Global, first: &TrailValue<'_>, second: &TrailValue<'_>) -> Result<bool, Memory>
    ensures { IfOk result (λ b. b ≡ is_same_one (trail_value first.now) (trail_value second.now)) }
{
    match (first, second) {
        (TrailValue::Whole(term), TrailValue::Whole(other)) => Ok(compare(term, other).is_eq()),
        (TrailValue::Whole(term), TrailValue::Joined(op, terms)) => is_joined(
            alloc, term, *op, terms,
        ),
        (TrailValue::Joined(op, terms), TrailValue::Whole(term)) => {
            let same = is_joined(alloc, term, *op, terms)?;
            Ok(same)
        }
        (TrailValue::Joined(op, terms), TrailValue::Joined(other, others)) => {
            if op.0 != other.0 {
                return Ok(false);
            }
            Ok(same_references(terms, others))
        }
        _ => Ok(false),
    }
}

// One value or none.
fn first_if(same: bool) -> Merged
    ensures { result ≡ (if same then Merged.First else Merged.Clash) }
{
    if same { Merged::First } else { Merged::Clash }
}

/// The common value of two uses of a variable, if there is one.
pub fn merge(
    alloc: Global,
    first: &TrailValue<'_>,
    second: &TrailValue<'_>,
) -> Result<Merged, Memory>
    ensures { IfOk result (λ m. merged (trail_value first.now) (trail_value second.now) m
        ≡ values.merge (trail_value first.now) (trail_value second.now)) }
{
    match (first, second) {
        (TrailValue::Seq(terms), TrailValue::Seq(others)) => Ok(first_if(same_references(
            terms, others,
        ))),
        (TrailValue::Bag(terms), TrailValue::Bag(others)) => Ok(first_if(same_references(
            terms, others,
        ))),
        (TrailValue::Seq(terms), TrailValue::Bag(others)) => Ok(first_if(same_multiset(
            alloc, terms, others,
        )?)),
        (TrailValue::Bag(terms), TrailValue::Seq(others)) => {
            if same_multiset(alloc, terms, others)? {
                Ok(Merged::Second)
            } else {
                Ok(Merged::Clash)
            }
        }
        _ => Ok(first_if(same_term(alloc, first, second)?)),
    }
}

// The value that contributes the list.
fn contributor<'a>(
    alloc: Global,
    sig: &Signature,
    under: Option<OpId>,
    terms: &[&'a Term],
) -> Result<Option<TrailValue<'a>>, Memory>
    ensures { IfOk result (λ o. option_map trail_value o
        ≡ solve.contributor sig.now (above under) (trees_of terms.now)) }
{
    match (terms, under) {
        ([], _) => Ok(None),
        ([only], _) => {
            if is_alone(sig, under, only) {
                Ok(Some(TrailValue::Whole(only)))
            } else {
                Ok(None)
            }
        }
        (_, None) => Ok(None),
        (_, Some(op)) => {
            if sig.is_assoc(op) {
                Ok(Some(TrailValue::Joined(op, copied(alloc, terms)?)))
            } else {
                Ok(None)
            }
        }
    }
}

// A tuple, or under a commutative operation a multiset.
fn sequence<'a>(
    alloc: Global,
    sig: &Signature,
    under: Option<OpId>,
    terms: &[&'a Term],
) -> Result<TrailValue<'a>, Memory>
    ensures { IfOk result (λ h. trail_value h ≡ solve.sequence sig.now (above under) (trees_of terms.now)) }
{
    let copy = copied(alloc, terms)?;
    if is_comm_above(sig, under) {
        Ok(TrailValue::Bag(copy))
    } else {
        Ok(TrailValue::Seq(copy))
    }
}

/// The value that the wildcard gives its variable by taking the list, if it may take it.
pub fn value_by_take<'a>(
    alloc: Global,
    sig: &Signature,
    under: Option<OpId>,
    shape: &'a Shape,
    terms: &[&'a Term],
) -> Result<Option<TrailValue<'a>>, Memory>
    ensures { IfOk result (λ o. option_map trail_value o
        ≡ solve.given sig.now (above under) (wildcard shape.now) (trees_of terms.now)) }
{
    match (shape, terms) {
        (Shape::Dot, _) => contributor(alloc, sig, under, terms),
        (Shape::Kind(kind), [only]) if is_of_kind(sig, *kind, terms) => Ok(Some(TrailValue::Whole(
            only,
        ))),
        (Shape::Kind(_), _) => Ok(None),
        (Shape::Plus, []) => Ok(None),
        (Shape::Counted { least, fixed }, _) if !meets_count(*least, *fixed, terms.len()) => {
            Ok(None)
        }
        (Shape::Plus | Shape::Star | Shape::Counted { .. }, _) => Ok(Some(sequence(
            alloc, sig, under, terms,
        )?)),
        (Shape::Opt(default), []) => Ok(Some(TrailValue::Whole(default))),
        (Shape::Opt(_), _) => contributor(alloc, sig, under, terms),
    }
}
