//! Lists of terms, held by reference.
ghost use Rattle.std.specs.Prelude.{◌≡◌, ◌∷◌, [], ◌++◌, map, OnOk, IfOk};
ghost use Rattle.mp_term.specs.View.{tree};
ghost use Rattle.mp_term.specs.Order.{tree_cmp};
ghost use Rattle.mp_term.specs.Sorting.{sorted};
ghost use Rattle.mp_pattern.specs.Value as values;
ghost use Rattle.mp_one.specs.Lists.{trees_of};

use mp_term::{Memory, Term};
use std::alloc::Global;

/// Adds the item at the end.
pub fn push<T: Drop>(list: &mut Vec<T>, item: T) -> Result<(), Memory>
    ensures { OnOk result (list.new.items ≡ list.old.items ++ item ∷ []) }
{
    list.push(item)?;
    Ok(())
}

/// The same references.
pub fn copied<'a>(alloc: Global, terms: &[&'a Term]) -> Result<Vec<&'a Term>, Memory>
    ensures { IfOk result (λ v. v.items ≡ terms.now) }
{
    Ok(Vec::from_slice(alloc, terms)?)
}

/// References to the terms.
pub fn references<'a>(alloc: Global, terms: &'a [Term]) -> Result<Vec<&'a Term>, Memory>
    ensures { IfOk result (λ v. trees_of v.items ≡ map tree terms.now) }
{
    let mut all = Vec::new(alloc);
    for term in terms {
        all.push(term)?;
    }
    Ok(all)
}

/// Whether the lists are equal.
pub fn same_references(terms: &[&Term], others: &[&Term]) -> bool
    ensures { result ≡ values.same_terms (trees_of terms.now) (trees_of others.now) }
{
    terms.cmp(&others).is_eq()
}

// The terms, ascending.
fn in_order<'a>(alloc: Global, terms: &[&'a Term]) -> Result<Vec<&'a Term>, Memory>
    ensures { IfOk result (λ v. trees_of v.items ≡ sorted tree_cmp (trees_of terms.now)) }
{
    let mut copy = copied(alloc, terms)?;
    copy.sort_unstable();
    Ok(copy)
}

/// Whether the lists have the same terms, each as often.
pub fn same_multiset(alloc: Global, terms: &[&Term], others: &[&Term]) -> Result<bool, Memory>
    ensures { IfOk result
        (λ b. b ≡ values.same_terms (sorted tree_cmp (trees_of terms.now)) (sorted tree_cmp (trees_of others.now))) }
{
    let first = in_order(alloc, terms)?;
    let second = in_order(alloc, others)?;
    Ok(same_references(&first, &second))
}
