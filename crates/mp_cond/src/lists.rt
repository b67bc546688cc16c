//! Tests of each term of a list.
ghost use Rattle.std.specs.Prelude.{◌≡◌, ◌-◌, ◌^◌, map, min, not};
ghost use Rattle.std.specs.List.{list_all};
ghost use Rattle.mp_term.specs.View.{tree};
ghost use Rattle.mp_term.specs.Size.{all_nodes};
ghost use Rattle.mp_term.specs.Signature.{in_kind};
ghost use Rattle.mp_term.specs.NormalTest.{has_head};
ghost use Rattle.mp_pattern.specs.Holds.{occurs};

use crate::subterm::occurs;
use mp_term::{KindId, OpId, Signature, Term, has_head, in_kind, node_count};

// Whether the term is neither equal to, nor a subterm of, a term of the list.
fn is_free(term: &Term, others: &[Term]) -> bool
    ensures { result ≡ list_all (λ u. not (occurs (tree term.now) u)) (map tree others.now) }
{
    others.iter().all(|other| !occurs(term, other))
}

// Whether no term of the first list is equal to, or a subterm of, a term of the second.
pub(crate) fn are_free(terms: &[Term], others: &[Term]) -> bool
    ensures { result ≡ list_all (λ t. list_all (λ u. not (occurs t u)) (map tree others.now)) (map tree terms.now) }
{
    terms.iter().all(|term| is_free(term, others))
}

// Whether each term is a symbol of the kind.
pub(crate) fn are_in_kind(sig: &Signature, kind: KindId, terms: &[Term]) -> bool
    ensures { result ≡ list_all (in_kind sig.now kind.0) (map tree terms.now) }
{
    terms.iter().all(|term| in_kind(sig, kind, term))
}

// Whether each term is an application of the operation.
pub(crate) fn have_head(op: OpId, terms: &[Term]) -> bool
    ensures { result ≡ list_all (has_head op.0) (map tree terms.now) }
{
    terms.iter().all(|term| has_head(term, op))
}

// The nodes of all terms of a list, or the greatest `u64` where their number passes it.
pub(crate) fn total_nodes(terms: &[Term]) -> u64
    ensures { result ≡ min (all_nodes (map tree terms.now)) (2 ^ 64 - 1) }
{
    let mut total: u64 = 0;
    for term in terms {
        total = total.saturating_add(node_count(term));
    }
    total
}
