//! Arguments at which a term may change without a rule that fits around it.
ghost use Rattle.std.specs.Prelude.{◌≡◌, ◌<◌, ◌∷◌, [], ℕ, List, Option, None, false, map, length, IsTrue, IfSome};
ghost use Rattle.std.specs.Prelude.{slice_get, slice_set, Some};
ghost use Rattle.mp_term.specs.Tree.{Tree, app, trees};
ghost use Rattle.mp_term.specs.View.{tree};
ghost use Rattle.mp_term.specs.Normal.{IsNormal};
ghost use Rattle.mp_term.specs.Signature.{Sig, is_assoc};
ghost use Rattle.mp_pattern.specs.Admission as plain;
ghost use Rattle.mp_pattern.specs.Fits as fits;
ghost use Rattle.mp_pattern.specs.PatternTree.{patterns};
ghost use Rattle.mp_pattern.specs.Planned.{planned_rule};
ghost use Rattle.mp_pattern.specs.Value.{Subst};
ghost use Rattle.mp_pattern.specs.View.{pattern_tree};
ghost use Rattle.mp_theory.specs.MayMatch as look;
ghost use Rattle.mp_theory.specs.OneList.{item_list};
ghost use Rattle.mp_rewrite.specs.Computed as computed;
ghost use Rattle.mp_rewrite.specs.MarkView.{mark_of};
ghost use Rattle.mp_rewrite.specs.Known.{IsKnown};
ghost use Rattle.mp_rewrite.specs.Within.{IsFree, IsQuietAt, with_one};

use crate::in_place::Marked;
use crate::known::Known;
use crate::run::is_apart;
use mp_pattern::{Pattern, PlannedRule, Shape};
use mp_term::{OpId, Signature, Term};

// Whether the child of an operation that isn't associative takes exactly one term.
fn takes_one(child: &Pattern) -> bool
    ensures { IsTrue result → (sig : Sig) (f : ℕ) → is_assoc sig f ≡ false
        → IsTrue (look.takes_one sig (Some f) (pattern_tree child.now)) }
{
    match child {
        Pattern::Wild(Shape::Dot, _) => true,
        Pattern::Wild(Shape::Kind(_), _) => true,
        Pattern::Wild(_, _) => false,
        _ => true,
    }
}

// Whether the child can't take the term, by their heads.
fn has_other_head(sig: &Signature, child: &Pattern, term: &Term) -> bool
    ensures { IsTrue result → (s : Subst) (f : Option ℕ) (W : fits.Table)
        → fits.Takes sig.now s f (pattern_tree child.now) (tree term.now ∷ []) W → ⊥ }
{
    match (child, term) {
        (Pattern::Sym(name), Term::Sym(other)) => name != other,
        (Pattern::Sym(_), Term::App(_, _)) => true,
        (Pattern::App(op, _), Term::Sym(_)) => !sig.is_one(*op),
        (Pattern::App(op, _), Term::App(own, _)) => op.0 != own.0 && !sig.is_one(*op),
        (Pattern::Wild(_, _), _) => false,
    }
}

// Whether the children can't take the arguments, whatever stands at the index: they take one each in turn, and one of
// them can't take its own.
fn are_apart(sig: &Signature, children: &[Pattern], args: &[Term], index: Option<usize>) -> bool
    ensures { IsTrue result → (s : Subst) (f : ℕ) (ls : List (List Tree)) (Ws : List fits.Table) (u : Tree)
        → is_assoc sig.now f ≡ false
        → fits.AllTakeBy sig.now (fits.ByValue sig.now s) f (patterns (map pattern_tree children.now)) ls Ws
        → fits.joined ls ≡ with_one index (map tree args.now) u → ⊥ }
{
    let [child, later @ ..] = children else {
        return false;
    };
    let [arg, rest @ ..] = args else {
        return false;
    };
    if !takes_one(child) {
        return false;
    }
    match index {
        Some(0) => are_apart(sig, later, rest, None),
        Some(place) => {
            has_other_head(sig, child, arg) || are_apart(sig, later, rest, Some(place - 1))
        }
        None => has_other_head(sig, child, arg) || are_apart(sig, later, rest, None),
    }
}

// Whether the pattern fits no application of the operation to the arguments, whatever stands at the index.
fn never_fits(sig: &Signature, pattern: &Pattern, op: OpId, args: &[Term], index: usize) -> bool
    ensures { IsTrue result → IsFree sig.now op.0 → (u : Tree) (r : plain.Rule)
        → IsNormal sig.now (app op.0 (trees (slice_set (map tree args.now) index u)))
        → r.pattern ≡ pattern_tree pattern.now
        → item_list sig.now r (app op.0 (trees (slice_set (map tree args.now) index u))) ≡ [] }
{
    match pattern {
        Pattern::App(own, children) if own.0 == op.0 => {
            are_apart(sig, children.as_slice(), args, Some(index))
        }
        _ => is_apart(sig, op, pattern),
    }
}

// Whether no rule does.
fn none_fits(
    sig: &Signature,
    rules: &[PlannedRule<'_>],
    op: OpId,
    args: &[Term],
    index: usize,
) -> bool
    ensures { IsTrue result → IsFree sig.now op.0 → (u : Tree)
        → IsNormal sig.now (app op.0 (trees (slice_set (map tree args.now) index u)))
        → computed.first_match sig.now (map planned_rule rules.now)
        (app op.0 (trees (slice_set (map tree args.now) index u))) ≡ None }
{
    for rule in rules {
        if !never_fits(sig, &rule.rule.pattern, op, args, index) {
            return false;
        }
    }
    true
}

// The index of the first of so many arguments that isn't known to be dead.
fn first_live(known: &Known, count: usize) -> Option<usize>
    ensures within { (sig : Sig) (rules : List plain.Rule) (f : ℕ) (ts : List Tree) → length ts ≡ count
        → IsKnown sig rules (mark_of known.now) (app f (trees ts)) → IfSome result (λ i. i < count) }
    ensures dead { IfSome result (λ i. (sig : Sig) (rules : List plain.Rule) (f : ℕ) (ts : List Tree) (k : ℕ) (u : Tree)
        → IsKnown sig rules (mark_of known.now) (app f (trees ts)) → k < i → slice_get ts k ≡ Some u
        → computed.first_redex sig rules u ≡ None) }
{
    match known {
        Known::Dead => None,
        Known::Nothing => {
            if count == 0 {
                return None;
            }
            Some(0)
        }
        Known::Inner(all) => all.first_live(),
    }
}

// The first argument that isn't known to be dead, where no rule fits the term whatever stands there.
pub(crate) fn quiet_index(
    sig: &Signature,
    rules: &[PlannedRule<'_>],
    here: &Marked,
) -> Option<usize>
    requires { IsKnown sig.now (map planned_rule rules.now) (mark_of here.now.known) (tree here.now.term) }
    ensures { IfSome result (IsQuietAt sig.now (map planned_rule rules.now) (tree here.now.term)) }
{
    let Term::App(op, args) = &here.term else {
        return None;
    };
    if sig.is_assoc(*op) || sig.is_comm(*op) || sig.is_one(*op) {
        return None;
    }
    let index = first_live(&here.known, args.len())?;
    if none_fits(sig, rules, *op, args.as_slice(), index) {
        Some(index)
    } else {
        None
    }
}
