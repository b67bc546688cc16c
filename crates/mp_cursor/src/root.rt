//! Whether a pattern can fit at the root of a term.
ghost use Rattle.std.specs.Prelude.{◌≡◌, ◌∷◌, [], ℕ, List, Option, Some, None, false, IsFalse, map};
ghost use Rattle.std.specs.List.{list_any};
ghost use Rattle.mp_term.specs.Listing.{In};
ghost use Rattle.mp_term.specs.Normal.{IsNormal};
ghost use Rattle.mp_term.specs.NormalTest.{has_head};
ghost use Rattle.mp_term.specs.Order.{tree_cmp};
ghost use Rattle.mp_term.specs.Pieces.{same};
ghost use Rattle.mp_term.specs.Tree.{Tree, symbol, app, trees};
ghost use Rattle.mp_term.specs.View.{tree};
ghost use Rattle.mp_pattern.specs.Admission as plain;
ghost use Rattle.mp_pattern.specs.Fits as fits;
ghost use Rattle.mp_pattern.specs.PatternTree.{app_pattern, patterns};
ghost use Rattle.mp_pattern.specs.Value.{Subst};
ghost use Rattle.mp_pattern.specs.View.{pattern_tree};
ghost use Rattle.mp_theory.specs.MayMatch as look;
ghost use Rattle.mp_theory.specs.OneList.{item_list};

use mp_pattern::{Pattern, Shape, no_sequence};
use mp_term::{Name, OpId, Signature, Term, has_head, in_kind};

// Whether the child of the operation takes exactly one term (`takes_one` of mp_theory's `specs/MayMatch.antt`).
fn takes_one(sig: &Signature, op: OpId, child: &Pattern) -> bool
    ensures { result ≡ look.takes_one sig.now (Some op.0) (pattern_tree child.now) }
{
    match child {
        Pattern::Wild(Shape::Dot, _) => !sig.is_assoc(op),
        Pattern::Wild(Shape::Kind(_), _) => true,
        Pattern::Wild(_, _) => false,
        _ => true,
    }
}

// Whether a child is optional.
fn has_optional(children: &[Pattern]) -> bool
    ensures { result ≡ look.has_optional (patterns (map pattern_tree children.now)) }
{
    match children {
        [] => false,
        [Pattern::Wild(Shape::Opt(_), _), ..] => true,
        [_, later @ ..] => has_optional(later),
    }
}

// Whether the operation on the children may stand for the one term that they take together.
#[inline(always)]
fn may_collapse(sig: &Signature, op: OpId, children: &[Pattern]) -> bool
    ensures { result ≡ look.may_collapse sig.now op.0 (patterns (map pattern_tree children.now)) }
{
    sig.is_one(op) && no_sequence(children) && has_optional(children)
}

// Whether the term is the symbol.
fn is_symbol(term: &Term, name: &Name) -> bool
    ensures { result ≡ same tree_cmp (symbol name.now) (tree term.now) }
{
    match term {
        Term::Sym(own) => name == own,
        Term::App(_, _) => false,
    }
}

// Whether one of the arguments is the symbol.
fn has_symbol(args: &[Term], name: &Name) -> bool
    ensures { result ≡ list_any (λ t. same tree_cmp (symbol name.now) (tree t)) args.now }
{
    args.iter().any(|arg| is_symbol(arg, name))
}

// Whether one of the arguments is an application of the operation. The arguments of a commutative operation have the
// symbols first: the search begins at the end.
fn has_one_of(args: &[Term], op: OpId) -> bool
    ensures { result ≡ list_any (λ t. has_head op.0 (tree t)) args.now }
{
    args.iter().rev().any(|arg| has_head(arg, op))
}

// Whether what the child takes may stand among the arguments: not where the child is a symbol that isn't one of them,
// or an application that can't collapse and none of them has its head.
fn has_term_for(sig: &Signature, child: &Pattern, args: &[Term]) -> bool
    ensures { IsFalse result → (s : Subst) (f : Option ℕ) (l : List Tree) (W : fits.Table) →
        fits.Takes sig.now s f (pattern_tree child.now) l W → ((t : Tree) → In t l → In t (map tree args.now)) → ⊥ }
{
    match child {
        Pattern::Sym(name) => has_symbol(args, name),
        Pattern::App(op, children) => {
            may_collapse(sig, *op, children.as_slice()) || has_one_of(args, *op)
        }
        Pattern::Wild(_, _) => true,
    }
}

// Whether what each child takes may stand among the arguments.
fn has_terms_for(sig: &Signature, children: &[Pattern], args: &[Term]) -> bool
    ensures { IsFalse result → (s : Subst) (g : ℕ) (ls : List (List Tree)) (Ws : List fits.Table) →
        fits.AllTakeBy sig.now (fits.ByValue sig.now s) g (patterns (map pattern_tree children.now)) ls Ws →
        ((t : Tree) → In t (fits.joined ls) → In t (map tree args.now)) → ⊥ }
{
    for child in children {
        if !has_term_for(sig, child, args) {
            return false;
        }
    }
    true
}

// Whether the children of an application that can't collapse may take the arguments. Under a commutative operation
// what each takes stands among them. Else they take them in turn, and each of the first children, which take one each,
// takes its own.
#[cycle(may_take)]
fn may_take_arguments(sig: &Signature, op: OpId, children: &[Pattern], args: &[Term]) -> bool
    requires { look.may_collapse sig.now op.0 (patterns (map pattern_tree children.now)) ≡ false }
    ensures { IsFalse result → (s : Subst) (W : fits.Table) → fits.Takes sig.now s None
        (app_pattern op.0 (patterns (map pattern_tree children.now))) (app op.0 (trees (map tree args.now)) ∷ []) W
        → ⊥ }
{
    if sig.is_comm(op) {
        has_terms_for(sig, children, args)
    } else {
        each_may_take(sig, op, children, args)
    }
}

// Whether each child up to the first that doesn't take one term may take the one at its place.
#[cycle(may_take)]
fn each_may_take(sig: &Signature, op: OpId, children: &[Pattern], args: &[Term]) -> bool
    ensures { IsFalse result → (s : Subst) (ls : List (List Tree)) (Ws : List fits.Table) →
        fits.AllTakeBy sig.now (fits.ByValue sig.now s) op.0 (patterns (map pattern_tree children.now)) ls Ws →
        fits.joined ls ≡ map tree args.now → ⊥ }
{
    match children {
        [] => args.is_empty(),
        [child, later @ ..] => {
            if !takes_one(sig, op, child) {
                return true;
            }
            match args {
                [] => false,
                [arg, rest @ ..] => {
                    may_take(sig, child, arg) && each_may_take(sig, op, later, rest)
                }
            }
        }
    }
}

// Whether the pattern may take the term, under any operation.
#[cycle(may_take)]
fn may_take(sig: &Signature, pattern: &Pattern, subject: &Term) -> bool
    ensures { IsFalse result → (s : Subst) (f : Option ℕ) (W : fits.Table) →
        fits.Takes sig.now s f (pattern_tree pattern.now) (tree subject.now ∷ []) W → ⊥ }
{
    match pattern {
        Pattern::Sym(name) => is_symbol(subject, name),
        Pattern::App(op, children) => {
            let children = children.as_slice();
            if may_collapse(sig, *op, children) {
                return true;
            }
            match subject {
                Term::Sym(_) => false,
                Term::App(own, args) => {
                    op.0 == own.0 && may_take_arguments(sig, *op, children, args.as_slice())
                }
            }
        }
        Pattern::Wild(Shape::Kind(kind), _) => in_kind(sig, *kind, subject),
        Pattern::Wild(_, _) => true,
    }
}

/// Whether the pattern may fit at the root of the term: false comes only where no rule with that pattern admits
/// anything on the term, as where both have other heads and the pattern can't collapse. It takes no memory. Below two
/// roots of one operation it looks at children that take one argument each, in turn, or where the operation is
/// commutative whether the arguments have the children's symbols and heads.
pub fn may_fit(sig: &Signature, pattern: &Pattern, subject: &Term) -> bool
    ensures admits { IsFalse result → (r : plain.Rule) (s : Subst) → r.pattern ≡ pattern_tree pattern.now →
        plain.Admits sig.now r (tree subject.now) s → ⊥ }
    ensures items { IsFalse result → IsNormal sig.now (tree subject.now) → (r : plain.Rule) →
        r.pattern ≡ pattern_tree pattern.now → item_list sig.now r (tree subject.now) ≡ [] }
{
    may_take(sig, pattern, subject)
}
