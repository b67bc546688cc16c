//! Lists as multisets.
ghost use Rattle.std.specs.Prelude.{◌≡◌, map, count_by};
ghost use Rattle.std.specs.Ordering.{eq_by_cmp};
ghost use Rattle.std.specs.Cmp.Lexicographic.{slice_cmp};
ghost use Rattle.mp_term.specs.View.{tree};
ghost use Rattle.mp_term.specs.Order.{tree_cmp};
ghost use Rattle.mp_term.specs.Sorting.{sorted};
ghost use Rattle.mp_pattern.specs.Value.{same_terms};

use mp_term::Term;

// How often the item stands in the list.
fn occurrences<T: Ord>(item: &T, items: &[T]) -> usize
    ensures { result ≡ count_by (eq_by_cmp T.cmp item.now) items.now }
{
    let mut count: usize = 0;
    for other in items {
        if item.cmp(other).is_eq() {
            count += 1;
        }
    }
    count
}

// Whether the lists have the same items, each as often: whether their sorted lists are equal.
pub(crate) fn same_items<T: Ord>(items: &[T], others: &[T]) -> bool
    ensures { result ≡ eq_by_cmp (slice_cmp T.cmp) (sorted T.cmp items.now) (sorted T.cmp others.now) }
{
    if items.len() != others.len() {
        return false;
    }
    for item in items {
        if occurrences(item, items) != occurrences(item, others) {
            return false;
        }
    }
    true
}

/// Whether the lists have the same terms, each as often: whether their sorted lists are equal (`same_terms` of
/// mp_pattern's `specs/Value.antt`). It takes no memory.
pub fn same_multiset(terms: &[Term], others: &[Term]) -> bool
    ensures { result ≡ same_terms (sorted tree_cmp (map tree terms.now)) (sorted tree_cmp (map tree others.now)) }
{
    same_items(terms, others)
}
