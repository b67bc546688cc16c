//! The term order.
ghost use Rattle.std.specs.Prelude.{◌≡◌, map, Some, refl};
ghost use Rattle.std.specs.Ordering.{is_eq};
ghost use Rattle.std.specs.Cmp.{on_equiv, on_per, on_po, on_total, partial_equiv_from_equiv, po, eq_by_cmp_equiv};
ghost use Rattle.mp_term.specs.View.{tree};
ghost use Rattle.mp_term.specs.Order.{tree_cmp, shortlex};
ghost use Rattle.mp_term.specs.OrderLaws.{tree_cmp_total};

use crate::term::Term;
use std::cmp::Ordering;

/// The term order (`tree_cmp` of `specs/Order.antt`): symbols come before applications, and compare by the bytes of
/// their names. Applications compare by the numbers of their operations, then by how many arguments they have, then
/// argument by argument from the left. Equal terms alone are `Equal`. It takes no memory.
#[cycle(compare)]
pub fn compare(a: &Term, b: &Term) -> Ordering
    ensures { result ≡ tree_cmp (tree a.now) (tree b.now) }
{
    match (a, b) {
        (Term::Sym(m), Term::Sym(n)) => m.cmp(n),
        (Term::Sym(_), Term::App(_, _)) => Ordering::Less,
        (Term::App(_, _), Term::Sym(_)) => Ordering::Greater,
        (Term::App(f, ts), Term::App(g, us)) => {
            if f.0 != g.0 {
                return f.0.cmp(&g.0);
            }
            compare_all(&ts.items, &us.items)
        }
    }
}

/// Shortlex by the term order (`shortlex` of `specs/Order.antt`): a list of fewer terms comes first, and lists of one
/// length compare term by term from the left. Equal lists alone are `Equal`. It takes no memory.
#[cycle(compare)]
pub fn compare_all(ts: &[Term], us: &[Term]) -> Ordering
    ensures { result ≡ shortlex tree_cmp (map tree ts.now) (map tree us.now) }
{
    if ts.len() != us.len() {
        return ts.len().cmp(&us.len());
    }
    for (i, t) in ts.iter().enumerate() {
        let order = compare(t, &us[i]);
        if order.is_ne() {
            return order;
        }
    }
    Ordering::Equal
}

impl PartialEq for Term {
    ghost eq = { λ a b. is_eq (tree_cmp (tree a) (tree b)) };

    ghost laws = { on_per tree (partial_equiv_from_equiv (eq_by_cmp_equiv tree_cmp_total)) };

    fn eq(&self, other: &Term) -> bool {
        compare(self, other).is_eq()
    }
}

impl Eq for Term {
    ghost laws = { on_equiv tree (eq_by_cmp_equiv tree_cmp_total) };
}

impl PartialOrd for Term {
    ghost partial_cmp = { λ a b. Some (tree_cmp (tree a) (tree b)) };

    ghost laws = { on_po tree (po tree_cmp_total (λ _ _. refl)) };

    fn partial_cmp(&self, other: &Term) -> Option<Ordering> {
        Some(compare(self, other))
    }
}

impl Ord for Term {
    ghost cmp = { λ a b. tree_cmp (tree a) (tree b) };

    ghost total = { on_total tree tree_cmp_total };

    ghost matches_partial_cmp = { λ _ _. refl };

    ghost matches_eq = { λ _ _. refl };

    fn cmp(&self, other: &Term) -> Ordering {
        compare(self, other)
    }
}
