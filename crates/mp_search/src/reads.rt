//! Whether a node may take a list, whatever was taken before.
ghost use Rattle.std.specs.Prelude.{◌≡◌, ◌∷◌, [], is_some, IfSome};
ghost use Rattle.mp_term.specs.NormalTest.{has_head};
ghost use Rattle.mp_term.specs.Signature.{in_kind};
ghost use Rattle.mp_pattern.specs.View.{pattern_tree, wildcard};
ghost use Rattle.mp_pattern.specs.Value as values;
ghost use Rattle.mp_table.specs.Table.{HasRank, HasRanks, IsTable, term_at, terms_at};
ghost use Rattle.mp_theory.specs.Solve as solve;
ghost use Rattle.mp_theory.specs.Machine as machine;
ghost use Rattle.mp_search.specs.Frames.{above};
ghost use Rattle.mp_search.specs.Grounds.{ground_of};
ghost use Rattle.mp_search.specs.Query.{IsQuery};
ghost use Rattle.mp_search.specs.Site.{IsSite};

use crate::ground::ground_rank;
use crate::query::Query;
use crate::site::Site;
use mp_pattern::{Pattern, Shape, is_assoc_above, meets_count, no_sequence};
use mp_table::{Head, Rank, Table};
use mp_term::{KindId, OpId, Signature};

/// Whether the term of the rank is an application of the operation: `has_head` of mp_term's `specs/NormalTest.antt`.
///
/// The table holds the rank.
pub fn has_head(table: &Table, rank: Rank, op: OpId) -> bool
    requires { HasRank table.now rank }
    ensures { result ≡ has_head op.0 (term_at table.now rank) }
{
    match table.head(rank) {
        Head::Sym(_) => false,
        Head::App(own) => own.0 == op.0,
    }
}

// Whether the term is a symbol of the kind.
pub(crate) fn in_kind(sig: &Signature, table: &Table, kind: KindId, rank: Rank) -> bool
    requires { HasRank table.now rank }
    ensures { result ≡ in_kind sig.now kind.0 (term_at table.now rank) }
{
    match table.head(rank) {
        Head::Sym(name) => sig.kind_has(kind, name.bytes()),
        Head::App(_) => false,
    }
}

// Whether the term alone is a contribution under the operation.
pub(crate) fn is_alone(sig: &Signature, table: &Table, under: Option<OpId>, rank: Rank) -> bool
    requires { HasRank table.now rank }
    ensures { result ≡ solve.is_alone sig.now (above under) (term_at table.now rank) }
{
    match under {
        None => true,
        Some(op) => !(sig.is_assoc(op) && has_head(table, rank, op)),
    }
}

/// Whether under the operation, or as a root where there is none, some term contributes the list of the terms of the
/// ranks: `contributor` of mp_theory's `specs/Solve.antt`.
///
/// The table holds the ranks.
pub fn is_contribution(sig: &Signature, table: &Table, under: Option<OpId>, ranks: &[Rank]) -> bool
    requires { HasRanks table.now ranks.now }
    ensures { result ≡ is_some (solve.contributor sig.now (above under) (terms_at table.now ranks.now)) }
{
    match ranks {
        [] => false,
        [only] => is_alone(sig, table, under, *only),
        _ => is_assoc_above(sig, under),
    }
}

/// Whether the list of the terms of the ranks is one symbol of the kind: `of_kind` of mp_theory's `specs/Solve.antt`.
///
/// The table holds the ranks.
pub fn is_of_kind(sig: &Signature, table: &Table, kind: KindId, ranks: &[Rank]) -> bool
    requires { HasRanks table.now ranks.now }
    ensures { result ≡ is_some (solve.of_kind sig.now kind.0 (terms_at table.now ranks.now)) }
{
    match ranks {
        [only] => in_kind(sig, table, kind, *only),
        _ => false,
    }
}

// Whether the wildcard may take the list.
fn is_given(
    sig: &Signature,
    table: &Table,
    under: Option<OpId>,
    shape: &Shape,
    ranks: &[Rank],
) -> bool
    requires { HasRanks table.now ranks.now }
    ensures { result ≡ is_some (solve.given sig.now (above under) (wildcard shape.now) (terms_at table.now ranks.now)) }
{
    match shape {
        Shape::Dot => is_contribution(sig, table, under, ranks),
        Shape::Kind(kind) => is_of_kind(sig, table, *kind, ranks),
        Shape::Plus => !ranks.is_empty(),
        Shape::Star => true,
        Shape::Counted { least, fixed } => meets_count(*least, *fixed, ranks.len()),
        Shape::Opt(_) => ranks.is_empty() || is_contribution(sig, table, under, ranks),
    }
}

// Whether the list is one application of the operation.
fn is_application(table: &Table, op: OpId, ranks: &[Rank]) -> bool
    requires { HasRanks table.now ranks.now }
    ensures { result ≡ machine.is_headed op.0 (terms_at table.now ranks.now) }
{
    match ranks {
        [only] => has_head(table, *only, op),
        _ => false,
    }
}

// Whether the list is the term of the rank.
pub(crate) fn is_one_rank(table: &Table, rank: Rank, ranks: &[Rank]) -> bool
    requires table { IsTable table.now }
    requires rank { HasRank table.now rank }
    requires ranks { HasRanks table.now ranks.now }
    ensures { result ≡ values.same_terms (terms_at table.now ranks.now) (term_at table.now rank ∷ []) }
{
    let _ = table;
    match ranks {
        [only] => only.0 == rank.0,
        _ => false,
    }
}

// Whether the list is the term of the child, where that is known.
fn is_ground(query: &Query<'_>, site: &Site<'_>, ranks: &[Rank]) -> bool
    requires query { IsQuery query.now }
    requires site { IsSite query.now site.now }
    requires ranks { HasRanks query.now.table.now ranks.now }
    ensures { IfSome (ground_of (pattern_tree site.now.child.now))
        (λ u. result ≡ values.same_terms (terms_at query.now.table.now ranks.now) (u ∷ [])) }
{
    match ground_rank(query, site.child, site.node) {
        None => false,
        Some(rank) => is_one_rank(query.table, rank, ranks),
    }
}

// Whether the child may have the entry.
pub(crate) fn reads(query: &Query<'_>, site: &Site<'_>, ranks: &[Rank], collapsed: bool) -> bool
    requires query { IsQuery query.now }
    requires site { IsSite query.now site.now }
    requires ranks { HasRanks query.now.table.now ranks.now }
    ensures { result ≡ machine.reads query.now.sig.now (pattern_tree site.now.child.now) (above site.now.under)
        (record { terms = terms_at query.now.table.now ranks.now; collapsed = collapsed }) }
{
    match site.child {
        Pattern::Sym(_) => !collapsed && is_ground(query, site, ranks),
        Pattern::Wild(shape, _) => {
            !collapsed && is_given(query.sig, query.table, site.under, shape, ranks)
        }
        Pattern::App(op, children) => {
            if collapsed {
                ranks.len() == 1 && query.sig.is_one(*op) && no_sequence(children.as_slice())
            } else {
                is_application(query.table, *op, ranks)
            }
        }
    }
}
