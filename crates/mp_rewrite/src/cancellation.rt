//! Rules that cancel: each takes one or two arguments out of a commutative application, puts a symbol in for them, or
//! none, and leaves all others.
ghost use Rattle.std.specs.Prelude.{◌≡◌, ℕ, List, [], ◌∷◌, ◌++◌, Some, false, map, IfSome, IsTrue};
ghost use Rattle.mp_pattern.specs.PatternTree.{wild_pattern};
ghost use Rattle.mp_pattern.specs.RuleView.{rule_tree};
ghost use Rattle.mp_pattern.specs.TemplateTree.{variable_template};
ghost use Rattle.mp_pattern.specs.TemplateView.{template_tree};
ghost use Rattle.mp_pattern.specs.Value.{same_name};
ghost use Rattle.mp_pattern.specs.View.{pattern_tree};
ghost use Rattle.mp_rewrite.specs.Cancellation.{a_dot, taking, taking_rest, putting, AreApart, Cancels};

use mp_pattern::{Pattern, Rule, Shape, Template};
use mp_term::{Name, OpId};

// What a cancellation takes.
#[derive(Drop)]
pub(crate) enum Taken<'a> {
    // A symbol.
    Symbol(&'a Name),
    // Two equal arguments.
    Pair,
    // An application of the operation to one argument, and that argument.
    Under(OpId),
}

// A cancellation: the commutative operation, what is taken of its arguments, whether others must be left, and what is
// put in.
#[derive(Drop)]
pub(crate) struct Cancellation<'a> {
    pub(crate) op: OpId,
    pub(crate) taken: Taken<'a>,
    pub(crate) leaves: bool,
    pub(crate) put: Option<&'a Name>,
}

// The variable of a dot.
fn dot_variable(pattern: &Pattern) -> Option<&Name>
    ensures { IfSome result (λ n. pattern_tree pattern.now ≡ a_dot n.now) }
{
    match pattern {
        Pattern::Wild(Shape::Dot, Some(name)) => Some(name),
        _ => None,
    }
}

// Whether both are a dot of one variable, which isn't the one for the rest.
fn is_twice(one: &Pattern, second: &Pattern, rest: &Name) -> bool
    ensures { IsTrue result → (x : List ℕ) × (pattern_tree one.now ≡ a_dot x) × (pattern_tree second.now ≡ a_dot x)
        × (same_name x rest.now ≡ false) }
{
    let Some(name) = dot_variable(one) else {
        return false;
    };
    let Some(other) = dot_variable(second) else {
        return false;
    };
    if name == rest {
        return false;
    }
    name == other
}

// The symbol that the child takes.
fn taken_symbol(one: &Pattern) -> Option<Taken<'_>>
    ensures { IfSome result (λ k. (x y : List ℕ) → AreApart k x y × (taking k x ≡ pattern_tree one.now ∷ [])) }
{
    match one {
        Pattern::Sym(name) => Some(Taken::Symbol(name)),
        _ => None,
    }
}

// What two children take.
fn taken_pair<'a>(one: &'a Pattern, second: &'a Pattern, rest: &Name) -> Option<Taken<'a>>
    ensures { IfSome result (λ k. (x : List ℕ) × AreApart k x rest.now
        × (taking k x ≡ pattern_tree one.now ∷ pattern_tree second.now ∷ [])) }
{
    match one {
        Pattern::App(op, inner) => {
            let [only] = inner.as_slice() else {
                return None;
            };
            if !is_twice(only, second, rest) {
                return None;
            }
            Some(Taken::Under(*op))
        }
        _ => {
            if !is_twice(one, second, rest) {
                return None;
            }
            Some(Taken::Pair)
        }
    }
}

// What the children in front of the last one take.
fn taken_by<'a>(first: &'a [Pattern], rest: &Name) -> Option<Taken<'a>>
    ensures { IfSome result (λ k. (x : List ℕ) × AreApart k x rest.now × (taking k x ≡ map pattern_tree first.now)) }
{
    match first {
        [one] => taken_symbol(one),
        [one, second] => taken_pair(one, second, rest),
        _ => None,
    }
}

// The variable for the rest, and whether something must be left for it.
fn rest_of(last: &Pattern) -> Option<(&Name, bool)>
    ensures { IfSome result (λ r. pattern_tree last.now ≡ wild_pattern (taking_rest r.1) (Some r.0.now)) }
{
    match last {
        Pattern::Wild(Shape::Star, Some(name)) => Some((name, false)),
        Pattern::Wild(Shape::Plus, Some(name)) => Some((name, true)),
        _ => None,
    }
}

// Whether the template is the variable.
fn is_variable(template: &Template, name: &Name) -> bool
    ensures { IsTrue result → template_tree template.now ≡ variable_template name.now }
{
    match template {
        Template::Var(own) => own == name,
        _ => false,
    }
}

// The symbol that the template is.
fn symbol_of(template: &Template) -> Option<&Name>
    ensures { IfSome result (λ n. putting (Some n) ≡ template_tree template.now ∷ []) }
{
    match template {
        Template::Sym(name) => Some(name),
        _ => None,
    }
}

// What the templates put in beside the rest.
fn put_by<'a>(templates: &'a [Template], rest: &Name) -> Option<Option<&'a Name>>
    ensures { IfSome result (λ p. map template_tree templates.now ≡ putting p ++ variable_template rest.now ∷ []) }
{
    match templates {
        [last] => {
            if !is_variable(last, rest) {
                return None;
            }
            Some(None)
        }
        [one, last] => {
            if !is_variable(last, rest) {
                return None;
            }
            Some(Some(symbol_of(one)?))
        }
        _ => None,
    }
}

// The cancellation that the rule makes.
pub(crate) fn cancellation_of(rule: &Rule) -> Option<Cancellation<'_>>
    ensures { IfSome result (Cancels (rule_tree rule.now)) }
{
    if rule.condition.is_some() {
        return None;
    }
    let Some(Template::App(made, templates)) = &rule.template else {
        return None;
    };
    let Pattern::App(op, children) = &rule.pattern else {
        return None;
    };
    if op.0 != made.0 {
        return None;
    }
    let (last, first) = children.as_slice().split_last()?;
    let (rest, leaves) = rest_of(last)?;
    let taken = taken_by(first, rest)?;
    let put = put_by(templates.as_slice(), rest)?;
    Some(Cancellation {
        op: *op,
        taken,
        leaves,
        put,
    })
}
