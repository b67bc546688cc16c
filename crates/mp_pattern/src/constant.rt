//! The constants of rules: the terms that their patterns and conditions bring to a match beside the subject.
ghost use Rattle.std.specs.Prelude.{◌≡◌, ◌∷◌, ◌++◌, [], map, flat_map, OnOk, IfOk, Contains, option_map};
ghost use Rattle.mp_term.specs.Tree.{symbol};
ghost use Rattle.mp_term.specs.View.{tree};
ghost use Rattle.mp_term.specs.Order.{tree_cmp};
ghost use Rattle.mp_term.specs.Listing.{IsListing};
ghost use Rattle.mp_pattern.specs.View.{wildcard, pattern_tree};
ghost use Rattle.mp_pattern.specs.CondView.{operand, amount, cond_tree};
ghost use Rattle.mp_pattern.specs.RuleView.{rule_tree};
ghost use Rattle.mp_pattern.specs.Operands.{amount_operands, operands};
ghost use Rattle.mp_pattern.specs.Constants.{pattern_constants, ground_term, rule_constants, IsConstantOf};

use crate::condition::{Amount, Cond, Operand};
use crate::pattern::{Pattern, Shape};
use crate::rule::{Rule, Rules};
use mp_term::{Memory, Name, Term, Terms, copy_term};
use std::alloc::Global;

// Adds the symbol of the name.
fn push_symbol(alloc: Global, found: &mut Vec<Term>, name: &Name) -> Result<(), Memory>
    ensures { OnOk result (map tree found.new.items ≡ map tree found.old.items ++ symbol name.now ∷ []) }
{
    let symbol = Term::Sym(name.copy(alloc)?);
    Ok(found.push(symbol)?)
}

// Adds a copy of the term.
fn push_copy(alloc: Global, found: &mut Vec<Term>, term: &Term) -> Result<(), Memory>
    ensures { OnOk result (map tree found.new.items ≡ map tree found.old.items ++ tree term.now ∷ []) }
{
    let copy = copy_term(alloc, term)?;
    Ok(found.push(copy)?)
}

/// Adds the symbols and the defaults of a pattern, in preorder, each as often as it stands there: `pattern_constants`
/// of `specs/Constants.antt`. `Memory` comes where there is no room for them.
pub fn push_pattern_constants(
    alloc: Global,
    found: &mut Vec<Term>,
    pattern: &Pattern,
) -> Result<(), Memory>
    ensures { OnOk result (map tree found.new.items
        ≡ map tree found.old.items ++ pattern_constants (pattern_tree pattern.now)) }
{
    match pattern {
        Pattern::Sym(name) => push_symbol(alloc, found, name),
        Pattern::App(_, args) => {
            for arg in &args.items {
                push_pattern_constants(alloc, found, arg)?;
            }
            Ok(())
        }
        Pattern::Wild(Shape::Opt(default), _) => push_copy(alloc, found, default),
        Pattern::Wild(_, _) => Ok(()),
    }
}

// Adds the term of a ground operand.
fn push_operand(alloc: Global, found: &mut Vec<Term>, source: &Operand) -> Result<(), Memory>
    ensures { OnOk result (map tree found.new.items
        ≡ map tree found.old.items ++ ground_term (operand source.now)) }
{
    match source {
        Operand::Var(_) => Ok(()),
        Operand::Ground(term) => push_copy(alloc, found, term),
    }
}

// Adds the terms of two ground operands.
fn push_both(alloc: Global, found: &mut Vec<Term>, a: &Operand, b: &Operand) -> Result<(), Memory>
    ensures { OnOk result (map tree found.new.items
        ≡ map tree found.old.items ++ flat_map ground_term (operand a.now ∷ operand b.now ∷ [])) }
{
    push_operand(alloc, found, a)?;
    push_operand(alloc, found, b)
}

// Adds the term of the ground operand of an amount.
fn push_amount(alloc: Global, found: &mut Vec<Term>, source: &Amount) -> Result<(), Memory>
    ensures { OnOk result (map tree found.new.items
        ≡ map tree found.old.items ++ flat_map ground_term (amount_operands (amount source.now))) }
{
    match source {
        Amount::Fixed(_) => Ok(()),
        Amount::Count(of) | Amount::Size(of) => push_operand(alloc, found, of),
    }
}

/// Adds the ground operands of a condition, in order, each as often as it stands there (`operands` of
/// `specs/Operands.antt`, `ground_term` of `specs/Constants.antt`). `Memory` comes where there is no room for them.
pub fn push_cond_constants(alloc: Global, found: &mut Vec<Term>, cond: &Cond) -> Result<(), Memory>
    ensures { OnOk result (map tree found.new.items
        ≡ map tree found.old.items ++ flat_map ground_term (operands (cond_tree cond.now))) }
{
    match cond {
        Cond::Amounts(m, _, n) => {
            push_amount(alloc, found, m)?;
            push_amount(alloc, found, n)
        }
        Cond::Same(a, b) | Cond::Less(a, b) | Cond::Free(a, b) => push_both(alloc, found, a, b),
        Cond::OfKind(a, _) | Cond::Headed(a, _) => push_operand(alloc, found, a),
        Cond::Not(boxed) => push_cond_constants(alloc, found, &boxed.cond),
        Cond::All(parts) | Cond::Any(parts) => {
            for part in &parts.items {
                push_cond_constants(alloc, found, part)?;
            }
            Ok(())
        }
    }
}

// Adds the constants of a rule, each as often as it stands there.
fn push_rule(alloc: Global, found: &mut Vec<Term>, rule: &Rule) -> Result<(), Memory>
    ensures { OnOk result (map tree found.new.items
        ≡ map tree found.old.items ++ rule_constants (rule_tree rule.now)) }
{
    push_pattern_constants(alloc, found, &rule.pattern)?;
    if let Some(cond) = &rule.condition {
        push_cond_constants(alloc, found, cond)?;
    }
    Ok(())
}

/// The terms ascending in the term order, each once. `Memory` comes where there is no room for the list.
pub fn term_listing(alloc: Global, mut terms: Vec<Term>) -> Result<Terms, Memory>
    ensures { IfOk result (IsListing tree_cmp (Contains (map tree terms.items))) }
{
    terms.sort_unstable();
    terms.dedup();
    let mut listed = Terms::new(alloc);
    for term in terms {
        listed.push(term)?;
    }
    Ok(listed)
}

/// The constants of the rules: every symbol and every default of their patterns, and every ground operand of their
/// conditions (`IsConstantOf` of `specs/Constants.antt`), ascending and without repeats. `Memory` comes where there is
/// no room for them. `constants_of_sound_rules_are_normal_and_few` says what holds of them where the rules are sound.
pub fn constants(alloc: Global, rules: &Rules) -> Result<Terms, Memory>
    ensures { IfOk result (IsListing tree_cmp (IsConstantOf rules.now)) }
{
    let mut found = Vec::new(alloc);
    for rule in rules.as_slice() {
        push_rule(alloc, &mut found, rule)?;
    }
    term_listing(alloc, found)
}

/// The constants of one rule, as `constants` gives them.
pub fn rule_constants(alloc: Global, rule: &Rule) -> Result<Terms, Memory>
    ensures { IfOk result (IsListing tree_cmp (IsConstantOf (rule_tree rule.now ∷ []))) }
{
    let mut found = Vec::new(alloc);
    push_rule(alloc, &mut found, rule)?;
    term_listing(alloc, found)
}
