//! Which entries a node may have, whatever was taken before.
ghost use Rattle.std.specs.Prelude.{◌≡◌, ◌∷◌, [], is_some};
ghost use Rattle.mp_term.specs.View.{tree};
ghost use Rattle.mp_term.specs.Tree.{symbol};
ghost use Rattle.mp_pattern.specs.View.{pattern_tree, wildcard};
ghost use Rattle.mp_pattern.specs.Value as values;
ghost use Rattle.mp_term.specs.Order.{tree_cmp};
ghost use Rattle.mp_term.specs.Pieces.{same};
ghost use Rattle.mp_theory.specs.Solve as solve;
ghost use Rattle.mp_theory.specs.Machine as machine;
ghost use Rattle.mp_one.specs.Lists.{trees_of};
ghost use Rattle.mp_search.specs.Frames.{above};

use mp_pattern::{Pattern, Shape, is_assoc_above, meets_count, no_sequence};
use mp_term::{KindId, Name, OpId, Signature, Term, has_head, in_kind, is_normal};

/// Whether the term alone is a contribution under the operation.
pub fn is_alone(sig: &Signature, under: Option<OpId>, term: &Term) -> bool
    ensures { result ≡ solve.is_alone sig.now (above under) (tree term.now) }
{
    match under {
        None => true,
        Some(op) => !(sig.is_assoc(op) && has_head(term, op)),
    }
}

/// Whether the list is one symbol of the kind.
pub fn is_of_kind(sig: &Signature, kind: KindId, terms: &[&Term]) -> bool
    ensures { result ≡ is_some (solve.of_kind sig.now kind.0 (trees_of terms.now)) }
{
    match terms {
        [only] => in_kind(sig, kind, only),
        _ => false,
    }
}

/// Whether some term contributes the list.
fn is_contribution(sig: &Signature, under: Option<OpId>, terms: &[&Term]) -> bool
    ensures { result ≡ is_some (solve.contributor sig.now (above under) (trees_of terms.now)) }
{
    match terms {
        [] => false,
        [only] => is_alone(sig, under, only),
        _ => is_assoc_above(sig, under),
    }
}

// Whether the wildcard may take the list.
fn is_given(sig: &Signature, under: Option<OpId>, shape: &Shape, terms: &[&Term]) -> bool
    ensures { result ≡ is_some (solve.given sig.now (above under) (wildcard shape.now) (trees_of terms.now)) }
{
    match shape {
        Shape::Dot => is_contribution(sig, under, terms),
        Shape::Kind(kind) => is_of_kind(sig, *kind, terms),
        Shape::Plus => !terms.is_empty(),
        Shape::Star => true,
        Shape::Counted { least, fixed } => meets_count(*least, *fixed, terms.len()),
        Shape::Opt(_) => terms.is_empty() || is_contribution(sig, under, terms),
    }
}

// Whether the default may be the value of the variable, where the wildcard takes nothing: it is normal.
fn default_passes(sig: &Signature, variable: &Option<Name>, shape: &Shape, terms: &[&Term]) -> bool
    ensures { result ≡ machine.default_passes sig.now variable.now (wildcard shape.now) (trees_of terms.now) }
{
    match (variable, shape, terms) {
        (Some(_), Shape::Opt(default), []) => is_normal(sig, default),
        _ => true,
    }
}

// Whether the term is the symbol.
fn is_symbol(name: &[u8], term: &Term) -> bool
    ensures { result ≡ same tree_cmp (tree term.now) (symbol name.now) }
{
    match term {
        Term::Sym(other) => other.bytes().cmp(&name).is_eq(),
        Term::App(_, _) => false,
    }
}

// Whether the list is the symbol.
fn is_one_symbol(name: &[u8], terms: &[&Term]) -> bool
    ensures { result ≡ values.same_terms (trees_of terms.now) (symbol name.now ∷ []) }
{
    match terms {
        [only] => is_symbol(name, only),
        _ => false,
    }
}

// Whether the list is one application of the operation.
fn is_application(op: OpId, terms: &[&Term]) -> bool
    ensures { result ≡ machine.is_headed op.0 (trees_of terms.now) }
{
    match terms {
        [only] => has_head(only, op),
        _ => false,
    }
}

/// Whether the node may have the entry under the operation.
pub fn reads(
    sig: &Signature,
    child: &Pattern,
    under: Option<OpId>,
    terms: &[&Term],
    collapsed: bool,
) -> bool
    ensures { result ≡ machine.reads sig.now (pattern_tree child.now) (above under)
        (record { terms = trees_of terms.now; collapsed = collapsed }) }
{
    match child {
        Pattern::Sym(name) => !collapsed && is_one_symbol(name.bytes(), terms),
        Pattern::Wild(shape, variable) => {
            !collapsed
                && is_given(sig, under, shape, terms)
                && default_passes(sig, variable, shape, terms)
        }
        Pattern::App(op, children) => {
            if collapsed {
                terms.len() == 1 && sig.is_one(*op) && no_sequence(children.as_slice())
            } else {
                is_application(*op, terms)
            }
        }
    }
}
