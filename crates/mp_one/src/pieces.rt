//! What a child may take out of the terms that are left.
ghost use Rattle.std.specs.Prelude.{◌≡◌, IfOk};
ghost use Rattle.mp_term.specs.Order.{tree_cmp};
ghost use Rattle.mp_term.specs.Pieces as pieces;
ghost use Rattle.mp_one.specs.Lists.{trees_of};

use mp_term::{Memory, Term, compare};
use std::alloc::Global;

/// The list without the terms, each taken out at its first place behind the one before.
pub fn without<'a>(
    alloc: Global,
    terms: &[&Term],
    list: &[&'a Term],
) -> Result<Vec<&'a Term>, Memory>
    ensures { IfOk result (λ v. trees_of v.items ≡ pieces.without tree_cmp (trees_of terms.now) (trees_of list.now)) }
{
    let mut rest = Vec::new(alloc);
    let mut taken: usize = 0;
    for term in list {
        if taken < terms.len() && compare(term, terms[taken]).is_eq() {
            taken += 1;
        } else {
            rest.push(*term)?;
        }
    }
    Ok(rest)
}

// Whether the terms stand in the list, each at some place behind the one before.
fn is_sublist(terms: &[&Term], list: &[&Term]) -> bool
    ensures { result ≡ pieces.is_sublist tree_cmp (trees_of terms.now) (trees_of list.now) }
{
    let mut found: usize = 0;
    for term in list {
        if found < terms.len() && compare(term, terms[found]).is_eq() {
            found += 1;
        }
    }
    found == terms.len()
}

// Whether the list begins with the terms.
fn is_prefix(terms: &[&Term], list: &[&Term]) -> bool
    ensures { result ≡ pieces.is_prefix tree_cmp (trees_of terms.now) (trees_of list.now) }
{
    for (i, term) in terms.iter().enumerate() {
        if i >= list.len() || !compare(list[i], term).is_eq() {
            return false;
        }
    }
    true
}

/// Whether the terms are a piece of the list: a sublist, or a prefix.
pub fn is_piece(anywhere: bool, terms: &[&Term], list: &[&Term]) -> bool
    ensures { result ≡ pieces.is_piece tree_cmp anywhere (trees_of terms.now) (trees_of list.now) }
{
    if anywhere {
        is_sublist(terms, list)
    } else {
        is_prefix(terms, list)
    }
}
