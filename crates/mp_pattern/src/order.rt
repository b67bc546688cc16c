//! The pattern order.
ghost use Rattle.std.specs.Prelude.{◌≡◌, map, Some, refl};
ghost use Rattle.std.specs.Ordering.{is_eq, nat_cmp, ordering_then};
ghost use Rattle.std.specs.Cmp.{on_equiv, on_per, on_po, on_total, partial_equiv_from_equiv, po, eq_by_cmp_equiv};
ghost use Rattle.mp_term.specs.Order.{shortlex};
ghost use Rattle.mp_pattern.specs.PatternTree.{patterns};
ghost use Rattle.mp_pattern.specs.View.{wildcard, pattern_tree};
ghost use Rattle.mp_pattern.specs.Order.{is_ground, all_ground, class, wildcard_class, name_cmp, wildcard_cmp};
ghost use Rattle.mp_pattern.specs.Order.{pattern_cmp};
ghost use Rattle.mp_pattern.specs.PatternOrderLaws.{pattern_cmp_total};

use crate::pattern::{Pattern, Shape};
use mp_term::{Name, compare};
use std::cmp::Ordering;

// The pattern holds no wildcard.
#[cycle(ground)]
fn is_ground(pattern: &Pattern) -> bool
    ensures { result ≡ is_ground (pattern_tree pattern.now) }
{
    match pattern {
        Pattern::Sym(_) => true,
        Pattern::App(_, args) => all_ground(&args.items),
        Pattern::Wild(_, _) => false,
    }
}

// No pattern of the list holds one.
#[cycle(ground)]
fn all_ground(items: &[Pattern]) -> bool
    ensures { result ≡ all_ground (patterns (map pattern_tree items.now)) }
{
    for item in items {
        if !is_ground(item) {
            return false;
        }
    }
    true
}

// The class of a wildcard.
pub(crate) fn wildcard_class(shape: &Shape) -> u8
    ensures { result ≡ wildcard_class (wildcard shape.now) }
{
    match shape {
        Shape::Kind(_) => 2,
        Shape::Dot => 3,
        Shape::Opt(_) => 4,
        Shape::Counted { .. } => 5,
        Shape::Plus => 6,
        Shape::Star => 7,
    }
}

// The class of a pattern.
fn class(pattern: &Pattern) -> u8
    ensures { result ≡ class (pattern_tree pattern.now) }
{
    match pattern {
        Pattern::Sym(_) => 0,
        Pattern::App(_, _) => { if is_ground(pattern) { 0 } else { 1 } }
        Pattern::Wild(shape, _) => wildcard_class(shape),
    }
}

// Named variables by their bytes, before unnamed ones.
fn compare_names(x: &Option<Name>, y: &Option<Name>) -> Ordering
    ensures { result ≡ name_cmp x.now y.now }
{
    match (x, y) {
        (Some(x), Some(y)) => x.cmp(y),
        (Some(_), None) => Ordering::Less,
        (None, Some(_)) => Ordering::Greater,
        (None, None) => Ordering::Equal,
    }
}

// Wildcards of one class by their kinds, by their defaults, or by their counts, a fixed one before an open one.
pub(crate) fn compare_shapes(v: &Shape, w: &Shape) -> Ordering
    ensures { result ≡ wildcard_cmp (wildcard v.now) (wildcard w.now) }
{
    match (v, w) {
        (Shape::Kind(k), Shape::Kind(l)) => k.0.cmp(&l.0),
        (Shape::Opt(t), Shape::Opt(u)) => compare(t, u),
        (
            Shape::Counted { least: m, fixed },
            Shape::Counted {
                least: n,
                fixed: other,
            },
        ) => m.cmp(n).then(other.cmp(fixed)),
        _ => Ordering::Equal,
    }
}

/// The pattern order (`pattern_cmp` of `specs/Order.antt`): patterns without a wildcard come first, as their terms do
/// in the term order, then applications that hold a wildcard, then kind, dot, optional, counted, plus and star
/// wildcards. Those applications compare by the numbers of their operations, then by how many arguments they have, then
/// argument by argument from the left; wildcards of one class by the bytes of their names, unnamed ones last, then by
/// the number of the kind, by the default, or by the count and then fixed before open. Equal patterns alone are
/// `Equal`. It takes no memory.
#[cycle(pattern_compare)]
pub fn pattern_compare(a: &Pattern, b: &Pattern) -> Ordering
    ensures { result ≡ pattern_cmp (pattern_tree a.now) (pattern_tree b.now) }
{
    match (a, b) {
        (Pattern::Sym(m), Pattern::Sym(n)) => m.cmp(n),
        (Pattern::Sym(_), Pattern::App(_, _)) => Ordering::Less,
        (Pattern::Sym(_), Pattern::Wild(_, _)) => Ordering::Less,
        (Pattern::App(_, _), Pattern::Sym(_)) => Ordering::Greater,
        (Pattern::App(f, ps), Pattern::App(g, qs)) => {
            let heads = class(a).cmp(&class(b)).then(f.0.cmp(&g.0));
            if heads.is_ne() {
                return heads;
            }
            compare_all(&ps.items, &qs.items)
        }
        (Pattern::App(_, _), Pattern::Wild(_, _)) => Ordering::Less,
        (Pattern::Wild(_, _), Pattern::Sym(_)) => Ordering::Greater,
        (Pattern::Wild(_, _), Pattern::App(_, _)) => Ordering::Greater,
        (Pattern::Wild(v, x), Pattern::Wild(w, y)) => wildcard_class(v)
            .cmp(&wildcard_class(w))
            .then(compare_names(x, y))
            .then(compare_shapes(v, w)),
    }
}

// Shortlex by the pattern order.
#[cycle(pattern_compare)]
fn compare_all(ps: &[Pattern], qs: &[Pattern]) -> Ordering
    ensures { result ≡ shortlex pattern_cmp (map pattern_tree ps.now) (map pattern_tree qs.now) }
{
    if ps.len() != qs.len() {
        return ps.len().cmp(&qs.len());
    }
    for (i, p) in ps.iter().enumerate() {
        let order = pattern_compare(p, &qs[i]);
        if order.is_ne() {
            return order;
        }
    }
    Ordering::Equal
}

impl PartialEq for Pattern {
    ghost eq = { λ a b. is_eq (pattern_cmp (pattern_tree a) (pattern_tree b)) };

    ghost laws = { on_per pattern_tree (partial_equiv_from_equiv (eq_by_cmp_equiv pattern_cmp_total)) };

    fn eq(&self, other: &Pattern) -> bool {
        pattern_compare(self, other).is_eq()
    }
}

impl Eq for Pattern {
    ghost laws = { on_equiv pattern_tree (eq_by_cmp_equiv pattern_cmp_total) };
}

impl PartialOrd for Pattern {
    ghost partial_cmp = { λ a b. Some (pattern_cmp (pattern_tree a) (pattern_tree b)) };

    ghost laws = { on_po pattern_tree (po pattern_cmp_total (λ _ _. refl)) };

    fn partial_cmp(&self, other: &Pattern) -> Option<Ordering> {
        Some(pattern_compare(self, other))
    }
}

impl Ord for Pattern {
    ghost cmp = { λ a b. pattern_cmp (pattern_tree a) (pattern_tree b) };

    ghost total = { on_total pattern_tree pattern_cmp_total };

    ghost matches_partial_cmp = { λ _ _. refl };

    ghost matches_eq = { λ _ _. refl };

    fn cmp(&self, other: &Pattern) -> Ordering {
        pattern_compare(self, other)
    }
}
