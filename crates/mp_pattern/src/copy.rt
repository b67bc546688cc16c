//! Copies of patterns and conditions.
ghost use Rattle.std.specs.Prelude.{◌≡◌, IfOk};
ghost use Rattle.mp_pattern.specs.PatternTree.{wild_pattern};
ghost use Rattle.mp_pattern.specs.View.{wildcard, pattern_tree};
ghost use Rattle.mp_pattern.specs.CondView.{operand, amount, cond_tree};

use crate::condition::{Amount, BoxedCond, Cond, Conds, Operand};
use crate::pattern::{Pattern, Patterns, Shape};
use mp_term::{Memory, Name, copy_term};
use std::alloc::Global;

/// An equal wildcard: one that takes the same. `Memory` comes where there is no room for its default.
pub fn copy_shape(alloc: Global, shape: &Shape) -> Result<Shape, Memory>
    ensures { IfOk result (λ s. wildcard s ≡ wildcard shape.now) }
{
    match shape {
        Shape::Dot => Ok(Shape::Dot),
        Shape::Kind(kind) => Ok(Shape::Kind(*kind)),
        Shape::Plus => Ok(Shape::Plus),
        Shape::Star => Ok(Shape::Star),
        Shape::Opt(term) => Ok(Shape::Opt(copy_term(alloc, term)?)),
        Shape::Counted { least, fixed } => Ok(Shape::Counted {
            least: *least,
            fixed: *fixed,
        }),
    }
}

// An equal name of a variable, where there is one.
fn copy_variable(alloc: Global, variable: &Option<Name>) -> Result<Option<Name>, Memory>
    ensures { IfOk result (λ x. x ≡ variable.now) }
{
    match variable {
        None => Ok(None),
        Some(name) => Ok(Some(name.copy(alloc)?)),
    }
}

// An equal wildcard with an equal name of its variable, as a pattern.
fn copy_wildcard(alloc: Global, shape: &Shape, variable: &Option<Name>) -> Result<Pattern, Memory>
    ensures { IfOk result (λ p. pattern_tree p ≡ wild_pattern (wildcard shape.now) variable.now) }
{
    let shape = copy_shape(alloc, shape)?;
    Ok(Pattern::Wild(shape, copy_variable(alloc, variable)?))
}

/// An equal pattern: one of the same tree. `Memory` comes where there is no room for it.
#[cycle(copy_pattern)]
pub fn copy_pattern(alloc: Global, pattern: &Pattern) -> Result<Pattern, Memory>
    ensures { IfOk result (λ p. pattern_tree p ≡ pattern_tree pattern.now) }
{
    match pattern {
        Pattern::Sym(name) => Ok(Pattern::Sym(name.copy(alloc)?)),
        Pattern::App(op, args) => Ok(Pattern::App(*op, copy_patterns(alloc, args)?)),
        Pattern::Wild(shape, variable) => copy_wildcard(alloc, shape, variable),
    }
}

// An equal list of patterns.
#[cycle(copy_pattern)]
fn copy_patterns(alloc: Global, parts: &Patterns) -> Result<Patterns, Memory>
    ensures { IfOk result (λ ps. ps ≡ parts.now) }
{
    let mut copies = Patterns::with_room(alloc, parts.len())?;
    for part in &parts.items {
        copies.push(copy_pattern(alloc, part)?)?;
    }
    Ok(copies)
}

// An equal operand.
fn copy_operand(alloc: Global, source: &Operand) -> Result<Operand, Memory>
    ensures { IfOk result (λ a. operand a ≡ operand source.now) }
{
    match source {
        Operand::Var(name) => Ok(Operand::Var(name.copy(alloc)?)),
        Operand::Ground(term) => Ok(Operand::Ground(copy_term(alloc, term)?)),
    }
}

// Equal operands, two of them.
fn copy_operands(
    alloc: Global,
    first: &Operand,
    second: &Operand,
) -> Result<(Operand, Operand), Memory>
    ensures first { IfOk result (λ r. operand r.0 ≡ operand first.now) }
    ensures second { IfOk result (λ r. operand r.1 ≡ operand second.now) }
{
    let first = copy_operand(alloc, first)?;
    Ok((first, copy_operand(alloc, second)?))
}

// An equal amount.
fn copy_amount(alloc: Global, source: &Amount) -> Result<Amount, Memory>
    ensures { IfOk result (λ m. amount m ≡ amount source.now) }
{
    match source {
        Amount::Fixed(number) => Ok(Amount::Fixed(*number)),
        Amount::Count(of) => Ok(Amount::Count(copy_operand(alloc, of)?)),
        Amount::Size(of) => Ok(Amount::Size(copy_operand(alloc, of)?)),
    }
}

// Equal amounts, two of them.
fn copy_amounts(alloc: Global, first: &Amount, second: &Amount) -> Result<(Amount, Amount), Memory>
    ensures first { IfOk result (λ r. amount r.0 ≡ amount first.now) }
    ensures second { IfOk result (λ r. amount r.1 ≡ amount second.now) }
{
    let first = copy_amount(alloc, first)?;
    Ok((first, copy_amount(alloc, second)?))
}

/// An equal condition: one of the same tree. `Memory` comes where there is no room for it.
#[cycle(copy_cond)]
pub fn copy_cond(alloc: Global, cond: &Cond) -> Result<Cond, Memory>
    ensures { IfOk result (λ c. cond_tree c ≡ cond_tree cond.now) }
{
    Ok(match cond {
        Cond::Amounts(m, sense, n) => {
            let (m, n) = copy_amounts(alloc, m, n)?;
            Cond::Amounts(m, *sense, n)
        }
        Cond::Same(a, b) => {
            let (a, b) = copy_operands(alloc, a, b)?;
            Cond::Same(a, b)
        }
        Cond::Less(a, b) => {
            let (a, b) = copy_operands(alloc, a, b)?;
            Cond::Less(a, b)
        }
        Cond::Free(a, b) => {
            let (a, b) = copy_operands(alloc, a, b)?;
            Cond::Free(a, b)
        }
        Cond::OfKind(a, kind) => Cond::OfKind(copy_operand(alloc, a)?, *kind),
        Cond::Headed(a, op) => Cond::Headed(copy_operand(alloc, a)?, *op),
        Cond::Not(boxed) => {
            let inner = copy_cond(alloc, &boxed.cond)?;
            Cond::Not(BoxedCond::new(alloc, inner)?)
        }
        Cond::All(parts) => Cond::All(copy_conds(alloc, parts)?),
        Cond::Any(parts) => Cond::Any(copy_conds(alloc, parts)?),
    })
}

// An equal list of conditions.
#[cycle(copy_cond)]
fn copy_conds(alloc: Global, parts: &Conds) -> Result<Conds, Memory>
    ensures { IfOk result (λ cs. cs ≡ parts.now) }
{
    let mut copies = Conds::new(alloc);
    for part in &parts.items {
        copies.push(copy_cond(alloc, part)?)?;
    }
    Ok(copies)
}
