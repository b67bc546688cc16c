//! Subterms by the term order.
ghost use Rattle.std.specs.Prelude.{◌≡◌, Some, refl};
ghost use Rattle.std.specs.Ordering.{is_eq};
ghost use Rattle.std.specs.Cmp.{on_equiv, on_per, on_po, on_total, partial_equiv_from_equiv, po, eq_by_cmp_equiv};
ghost use Rattle.mp_term.specs.View.{tree};
ghost use Rattle.mp_term.specs.Order.{tree_cmp};
ghost use Rattle.mp_term.specs.OrderLaws.{tree_cmp_total};

use mp_term::{Term, compare};
use std::cmp::Ordering;

// A subterm, and the place where it begins. Pieces compare by their terms alone.
#[derive(Clone, Copy)]
pub(crate) struct Piece<'a> {
    pub(crate) term: &'a Term,
    pub(crate) start: usize,
}

impl<'a> PartialEq for Piece<'a> {
    ghost eq = { λ a b. is_eq (tree_cmp (tree a.term.now) (tree b.term.now)) };

    ghost laws = { on_per (λ a. tree a.term.now) (partial_equiv_from_equiv (eq_by_cmp_equiv tree_cmp_total)) };

    fn eq(&self, other: &Piece<'a>) -> bool {
        self.cmp(other).is_eq()
    }
}

impl<'a> Eq for Piece<'a> {
    ghost laws = { on_equiv (λ a. tree a.term.now) (eq_by_cmp_equiv tree_cmp_total) };
}

impl<'a> PartialOrd for Piece<'a> {
    ghost partial_cmp = { λ a b. Some (tree_cmp (tree a.term.now) (tree b.term.now)) };

    ghost laws = { on_po (λ a. tree a.term.now) (po tree_cmp_total (λ _ _. refl)) };

    fn partial_cmp(&self, other: &Piece<'a>) -> Option<Ordering> {
        Some(self.cmp(other))
    }
}

impl<'a> Ord for Piece<'a> {
    ghost cmp = { λ a b. tree_cmp (tree a.term.now) (tree b.term.now) };

    ghost total = { on_total (λ a. tree a.term.now) tree_cmp_total };

    ghost matches_partial_cmp = { λ _ _. refl };

    ghost matches_eq = { λ _ _. refl };

    fn cmp(&self, other: &Piece<'a>) -> Ordering {
        compare(self.term, other.term)
    }
}
