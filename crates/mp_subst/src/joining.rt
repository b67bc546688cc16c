//! Which of two values by ranks in a table is the value of both uses of a variable.
ghost use Rattle.std.specs.Prelude.{◌≡◌, ◌↔◌, IsTrue};
ghost use Rattle.std.specs.Ordering.{eq_by_cmp};
ghost use Rattle.std.specs.Cmp.Lexicographic.{slice_cmp};
ghost use Rattle.mp_term.specs.Order.{tree_cmp};
ghost use Rattle.mp_term.specs.Sorting.{sorted};
ghost use Rattle.mp_pattern.specs.Value.{merge, same_terms};
ghost use Rattle.mp_pattern.specs.PlanView.{form};
ghost use Rattle.mp_table.specs.Table.{Table as plain_table, terms_at, HasRanks, IsTable, rank_cmp};
ghost use Rattle.mp_subst.specs.Bound.{bound_of, value_in, IsBoundIn};
ghost use Rattle.mp_subst.specs.Choice.{chosen};

use crate::bound::Bound;
use crate::merging::{Choice, new_if, old_if};
use crate::multiset::same_items;
use mp_pattern::Form;
use mp_table::{Rank, Table};
use mp_term::OpId;

/// Whether ranks stand for the same terms, each as often: whether the sorted lists of these terms are equal
/// (`same_terms` of mp_pattern's `specs/Value.antt`). The table has the ranks. It takes no memory.
pub fn same_rank_multiset(table: &Table, ranks: &[Rank], others: &[Rank]) -> bool
    requires ranks { HasRanks table.now ranks.now }
    requires others { HasRanks table.now others.now }
    ensures { result ≡ same_terms (sorted tree_cmp (terms_at table.now ranks.now))
        (sorted tree_cmp (terms_at table.now others.now)) }
{
    // The length is asked for what holds of every table.
    let _ = table.len();
    same_items(ranks, others)
}

// Whether the forms are equal.
fn is_same_form(old: Form, new: Form) -> bool
    ensures { IsTrue result ↔ (form old ≡ form new) }
{
    old == new
}

// Whether the operations are equal, or there is none.
fn is_same_wrap(old: Option<OpId>, new: Option<OpId>) -> bool
    ensures { IsTrue result ↔ (old ≡ new) }
{
    old == new
}

// Whether the ranks are equal.
fn are_same(ranks: &[Rank], others: &[Rank]) -> bool
    ensures { result ≡ eq_by_cmp (slice_cmp rank_cmp) ranks.now others.now }
{
    ranks.cmp(others).is_eq()
}

// Whether the forms, the operations and the ranks are equal.
fn is_same(old: &Bound<'_>, new: &Bound<'_>) -> bool
    ensures { IsTrue result ↔ (bound_of old.now ≡ bound_of new.now) }
{
    if !is_same_form(old.form, new.form) || !is_same_wrap(old.wrap, new.wrap) {
        return false;
    }
    are_same(old.ranks, new.ranks)
}

// Which of the values is the value of both uses, in each table that they are of.
pub(crate) fn join(old: &Bound<'_>, new: &Bound<'_>) -> Choice
    ensures { (t : plain_table) → IsTable t → IsBoundIn t (bound_of old.now) → IsBoundIn t (bound_of new.now)
        → chosen (value_in t (bound_of old.now)) (value_in t (bound_of new.now)) result
        ≡ merge (value_in t (bound_of old.now)) (value_in t (bound_of new.now)) }
{
    match (old.form, new.form) {
        (Form::Seq, Form::Bag) => old_if(same_items(old.ranks, new.ranks)),
        (Form::Bag, Form::Seq) => new_if(same_items(old.ranks, new.ranks)),
        _ => old_if(is_same(old, new)),
    }
}
