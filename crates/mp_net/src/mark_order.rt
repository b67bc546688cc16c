//! The order of marks.
ghost use Rattle.std.specs.Prelude.{◌≡◌, Some, refl};
ghost use Rattle.std.specs.Ordering.{is_eq, nat_cmp};
ghost use Rattle.std.specs.Cmp.{on_equiv, on_per, on_po, on_total, partial_equiv_from_equiv, po, eq_by_cmp_equiv};
ghost use Rattle.std.specs.Cmp.Lexicographic.{slice_cmp};
ghost use Rattle.std.proofs.lemmas.Cmp.{nat_list_cmp_total};
ghost use Rattle.mp_net.specs.Keys.{mark_key};
ghost use Rattle.mp_net.specs.View.{mark_of};

use crate::mark::Mark;
use std::cmp::Ordering;

// The order of two marks: symbols by their names, then operations by their numbers and counts.
fn compare_marks(a: &Mark<'_>, b: &Mark<'_>) -> Ordering
    ensures { result ≡ slice_cmp nat_cmp (mark_key (mark_of a.now)) (mark_key (mark_of b.now)) }
{
    match (a, b) {
        (Mark::Named(m), Mark::Named(n)) => (**m).cmp(*n),
        (Mark::Named(_), _) => Ordering::Less,
        (_, Mark::Named(_)) => Ordering::Greater,
        (Mark::Entered(f, m), Mark::Entered(g, n)) => {
            if f.0 != g.0 {
                return f.0.cmp(&g.0);
            }
            m.cmp(n)
        }
        (Mark::Entered(_, _), Mark::Anything) => Ordering::Less,
        (Mark::Anything, Mark::Entered(_, _)) => Ordering::Greater,
        (Mark::Anything, Mark::Anything) => Ordering::Equal,
    }
}

impl<'a> PartialEq for Mark<'a> {
    ghost eq = { λ a b. is_eq (slice_cmp nat_cmp (mark_key (mark_of a)) (mark_key (mark_of b))) };

    ghost laws = { on_per (λ a. mark_key (mark_of a))
        (partial_equiv_from_equiv (eq_by_cmp_equiv nat_list_cmp_total)) };

    fn eq(&self, other: &Mark<'a>) -> bool {
        self.cmp(other).is_eq()
    }
}

impl<'a> Eq for Mark<'a> {
    ghost laws = { on_equiv (λ a. mark_key (mark_of a)) (eq_by_cmp_equiv nat_list_cmp_total) };
}

impl<'a> PartialOrd for Mark<'a> {
    ghost partial_cmp = { λ a b. Some (slice_cmp nat_cmp (mark_key (mark_of a)) (mark_key (mark_of b))) };

    ghost laws = { on_po (λ a. mark_key (mark_of a)) (po nat_list_cmp_total (λ _ _. refl)) };

    fn partial_cmp(&self, other: &Mark<'a>) -> Option<Ordering> {
        Some(self.cmp(other))
    }
}

impl<'a> Ord for Mark<'a> {
    ghost cmp = { λ a b. slice_cmp nat_cmp (mark_key (mark_of a)) (mark_key (mark_of b)) };

    ghost total = { on_total (λ a. mark_key (mark_of a)) nat_list_cmp_total };

    ghost matches_partial_cmp = { λ _ _. refl };

    ghost matches_eq = { λ _ _. refl };

    fn cmp(&self, other: &Mark<'a>) -> Ordering {
        compare_marks(self, other)
    }
}
