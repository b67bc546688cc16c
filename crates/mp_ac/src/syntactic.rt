//! Children that take one term, in one way at most.
ghost use Rattle.std.specs.Prelude.{◌≡◌, ◌≤◌, ◌+◌, ◌*◌, ℕ, List, Some, None, true, map, take, length, slice_get};
ghost use Rattle.std.specs.Prelude.{false, MatchBool, MatchResult, IfOk, IfSome};
ghost use Rattle.std.specs.List.{AllByRecursion};
ghost use Rattle.mp_term.specs.Listing.{In};
ghost use Rattle.mp_term.specs.Tree.{trees};
ghost use Rattle.mp_pattern.specs.PatternTree.{symbol_pattern, patterns};
ghost use Rattle.mp_pattern.specs.Size.{pattern_nodes, list_nodes};
ghost use Rattle.mp_pattern.specs.Variables.{variables, all_uses};
ghost use Rattle.mp_pattern.specs.View.{pattern_tree, wildcard};
ghost use Rattle.mp_table.specs.Table.{HasRank, HasRanks, term_at, terms_at};
ghost use Rattle.mp_theory.specs.Filled.{bound, filled, all_filled};
ghost use Rattle.mp_theory.specs.Shape.{shape, shapes, suits, table_of, tables_of};
ghost use Rattle.mp_pattern.specs.Fits.{joined};
ghost use Rattle.mp_ac.specs.CommPlan.{IsNumbered};
ghost use Rattle.mp_ac.specs.Numbered.{numbered_subst, IsTrailOf, LiesOver};
ghost use Rattle.mp_ac.specs.TakesOne.{takes_one};

use crate::comm_plan::number_of;
use mp_pattern::{Form, Pattern, Shape, is_syntactic};
use mp_subst::Trail;
use mp_table::{Head, Rank, Table};
use mp_term::{Name, Signature};
use std::slice;

// The child takes one term, in one way at most.
pub(crate) fn takes_one(sig: &Signature, child: &Pattern) -> bool
    ensures { result ≡ takes_one sig.now (pattern_tree child.now) }
{
    match child {
        Pattern::Wild(_, _) => false,
        _ => is_syntactic(sig, child),
    }
}

// How many of the children, from the first one on, take one term each.
pub(crate) fn leading(sig: &Signature, children: &[Pattern]) -> usize
    ensures within { result ≤ length children.now }
    ensures each { AllByRecursion (λ p. takes_one sig.now p ≡ true)
        (take result (map pattern_tree children.now)) }
{
    let mut count = 0;
    while count < children.len() && takes_one(sig, &children[count]) {
        count += 1;
    }
    count
}

// The term of the rank is the symbol.
fn is_symbol(table: &Table, name: &Name, rank: Rank) -> bool
    requires { HasRank table.now rank }
    ensures { result ≡ shape (symbol_pattern name.now) (term_at table.now rank) }
{
    match table.head(rank) {
        Head::Sym(own) => *name == *own,
        Head::App(_) => false,
    }
}

// The term of the rank has the shape of the pattern.
#[cycle(has_shape)]
pub(crate) fn has_shape(table: &Table, pattern: &Pattern, rank: Rank) -> bool
    requires { HasRank table.now rank }
    ensures { result ≡ shape (pattern_tree pattern.now) (term_at table.now rank) }
{
    match pattern {
        Pattern::Sym(name) => is_symbol(table, name, rank),
        Pattern::Wild(_, _) => true,
        Pattern::App(op, args) => match table.head(rank) {
            Head::Sym(_) => false,
            Head::App(own) => op.0 == own.0
                && have_shapes(table, args.as_slice(), table.args(rank)),
        },
    }
}

// So it is with each pattern and the term of the rank at its place.
#[cycle(has_shape)]
fn have_shapes(table: &Table, list: &[Pattern], ranks: &[Rank]) -> bool
    requires { HasRanks table.now ranks.now }
    ensures { result
        ≡ shapes (patterns (map pattern_tree list.now)) (trees (terms_at table.now ranks.now)) }
{
    match (list, ranks) {
        ([], []) => true,
        ([first, later @ ..], [rank, rest @ ..]) => {
            has_shape(table, first, *rank) && have_shapes(table, later, rest)
        }
        _ => false,
    }
}

// The term of the rank is one that the wildcard takes.
fn suits(sig: &Signature, table: &Table, shape: &Shape, rank: Rank) -> bool
    requires { HasRank table.now rank }
    ensures { result ≡ suits sig.now (wildcard shape.now) (term_at table.now rank) }
{
    match shape {
        Shape::Kind(kind) => match table.head(rank) {
            Head::Sym(name) => sig.kind_has(*kind, name.bytes()),
            Head::App(_) => false,
        },
        _ => true,
    }
}

// Binds the variable, if there is one, to the term of the rank too; false comes where it has another value.
fn bind(table: &Table, name: &Option<Name>, rank: Rank, trail: &mut Trail) -> bool
    requires rank { HasRank table.now rank }
    requires name { IfSome name.now IsNumbered }
    requires spare { 3 ≤ trail.old.spare }
    requires trail { IsTrailOf table.now trail.old }
    ensures bound { let o = bound name.now (term_at table.now rank) (numbered_subst table.now trail.old.stack) in
        MatchBool result (o ≡ Some (numbered_subst table.now trail.new.stack)) (o ≡ None) }
    ensures kept { LiesOver table.now 3 trail.old trail.new }
{
    match name {
        None => true,
        Some(name) => {
            let var = number_of(name);
            trail.bind(table, var, Form::One, None, slice::from_ref(&rank))
        }
    }
}

// Binds what the pattern's variables take of the term of the rank, which has its shape. False comes where a variable
// takes different terms, or a kind isn't met; some of the variables may be bound then.
#[cycle(fill)]
pub(crate) fn fill(
    sig: &Signature,
    table: &Table,
    pattern: &Pattern,
    rank: Rank,
    trail: &mut Trail,
) -> bool
    requires rank { HasRank table.now rank }
    requires shape { shape (pattern_tree pattern.now) (term_at table.now rank) ≡ true }
    requires names { (x : List ℕ) → In x (variables (pattern_tree pattern.now)) → IsNumbered x }
    requires spare { 3 * pattern_nodes (pattern_tree pattern.now) ≤ trail.old.spare }
    requires trail { IsTrailOf table.now trail.old }
    ensures filled { let o = filled sig.now (pattern_tree pattern.now) (term_at table.now rank)
        (numbered_subst table.now trail.old.stack) in
        MatchBool result (o ≡ Some (numbered_subst table.now trail.new.stack)) (o ≡ None) }
    ensures kept { LiesOver table.now (3 * pattern_nodes (pattern_tree pattern.now)) trail.old trail.new }
{
    match pattern {
        Pattern::Sym(_) => true,
        Pattern::Wild(shape, name) => {
            suits(sig, table, shape, rank) && bind(table, name, rank, trail)
        }
        Pattern::App(_, args) => { fill_all(sig, table, args.as_slice(), table.args(rank), trail) }
    }
}

// So it is with each pattern and the term of the rank at its place.
#[cycle(fill)]
fn fill_all(
    sig: &Signature,
    table: &Table,
    list: &[Pattern],
    ranks: &[Rank],
    trail: &mut Trail,
) -> bool
    requires ranks { HasRanks table.now ranks.now }
    requires shapes { shapes (patterns (map pattern_tree list.now)) (trees (terms_at table.now ranks.now)) ≡ true }
    requires names { (x : List ℕ) → In x (map (λ u. u.name) (all_uses None (patterns (map pattern_tree list.now))))
        → IsNumbered x }
    requires spare { 3 * list_nodes (map pattern_tree list.now) ≤ trail.old.spare }
    requires trail { IsTrailOf table.now trail.old }
    ensures filled { let o = all_filled sig.now (patterns (map pattern_tree list.now))
        (trees (terms_at table.now ranks.now)) (numbered_subst table.now trail.old.stack) in
        MatchBool result (o ≡ Some (numbered_subst table.now trail.new.stack)) (o ≡ None) }
    ensures kept { LiesOver table.now (3 * list_nodes (map pattern_tree list.now)) trail.old trail.new }
{
    match (list, ranks) {
        ([first, later @ ..], [rank, rest @ ..]) => {
            fill(sig, table, first, *rank, trail) && fill_all(sig, table, later, rest, trail)
        }
        _ => true,
    }
}

// What the pattern's node of the number takes, in preorder from 0, where the pattern takes the term of the rank, which
// has its shape; or how far the number is behind the pattern's nodes.
#[cycle(entry_in)]
pub(crate) fn entry_in<'t>(
    table: &'t Table,
    pattern: &Pattern,
    rank: &'t Rank,
    node: u32,
) -> Result<&'t [Rank], u32>
    requires rank { HasRank table.now rank.now }
    requires shape { shape (pattern_tree pattern.now) (term_at table.now rank.now) ≡ true }
    ensures entry { MatchResult result
        (λ rs. slice_get (table_of (pattern_tree pattern.now) (term_at table.now rank.now)) node
        ≡ Some (record { terms = terms_at table.now rs.now; collapsed = false }))
        (λ left. left + length (table_of (pattern_tree pattern.now) (term_at table.now rank.now)) ≡ node) }
    ensures within { IfOk result (λ rs. HasRanks table.now rs.now) }
{
    if node == 0 {
        return Ok(slice::from_ref(rank));
    }
    match pattern {
        Pattern::App(_, args) => entry_among(table, args.as_slice(), table.args(*rank), node - 1),
        _ => Err(node - 1),
    }
}

// So it is with the nodes of patterns, each of which takes the term of the rank at its place.
#[cycle(entry_in)]
fn entry_among<'t>(
    table: &'t Table,
    list: &[Pattern],
    ranks: &'t [Rank],
    node: u32,
) -> Result<&'t [Rank], u32>
    requires ranks { HasRanks table.now ranks.now }
    requires shapes { shapes (patterns (map pattern_tree list.now)) (trees (terms_at table.now ranks.now)) ≡ true }
    ensures entry { MatchResult result
        (λ rs. slice_get (joined (tables_of (patterns (map pattern_tree list.now))
        (trees (terms_at table.now ranks.now)))) node
        ≡ Some (record { terms = terms_at table.now rs.now; collapsed = false }))
        (λ left. left + length (joined (tables_of (patterns (map pattern_tree list.now))
        (trees (terms_at table.now ranks.now)))) ≡ node) }
    ensures within { IfOk result (λ rs. HasRanks table.now rs.now) }
{
    match (list, ranks) {
        ([first, later @ ..], [rank, rest @ ..]) => match entry_in(table, first, rank, node) {
            Ok(entry) => Ok(entry),
            Err(behind) => entry_among(table, later, rest, behind),
        },
        _ => Err(node),
    }
}
