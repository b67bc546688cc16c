//! Limits and counts of expressions.

ghost use Rattle.std.specs.Prelude.{◌≡◌, ◌+◌, ◌-◌, ◌^◌, ◌≤◌, [], length, map, flat_map, min};
ghost use Rattle.std.specs.Prelude.{if◌then◌else◌};
ghost use Rattle.std.specs.Prelude.{IfOk, OnOk};
ghost use Rattle.std.specs.Str.{bytes_eq};
ghost use Rattle.mp_pattern.specs.Firsts.{firsts_after};
ghost use Rattle.mp_parser.specs.Syntax.{trees};
ghost use Rattle.mp_parser.specs.View.{expr_tree};
ghost use Rattle.mp_term.specs.Signature.{Sig};
ghost use Rattle.mp_pattern.specs.SoundRule.{pattern_least, pattern_most, allows_patterns};
ghost use Rattle.mp_build.specs.Build.{pattern_of};
ghost use Rattle.mp_build.specs.Checks.{nodes, all_nodes, is_large_pattern, is_large_operand, is_large_term};
ghost use Rattle.mp_build.specs.Checks.{has_large_default, some_large_default};
ghost use Rattle.mp_build.specs.Names.{number_of, is_among, named};
ghost use Rattle.mp_build.specs.Scope.{variable_names};
ghost use Rattle.mp_build.specs.ScopeView.{variable_of};
ghost use Rattle.mp_build.specs.TemplateChecks.{is_large_template};

use crate::extent::{count_of, counted_shape, marked_shape};
use crate::scope::{Variable, pattern_variables};
use mp_pattern::{
    MAX_DEFAULT_NODES, MAX_NUMBER, MAX_OPERAND_NODES, MAX_PATTERN_NODES, MAX_TERM_NODES,
    MAX_VARIABLES,
};
use mp_syntax::Expr;
use mp_term::OpDecl;
use std::alloc::{AllocError, Global};

/// The number that decimal digits write (`number_of` of `specs/Names.antt`), or one more than the limit where it is
/// greater than that. The limit is at most `MAX_NUMBER`. It takes no memory.
pub fn number_of(digits: &[u8], limit: u32) -> u32
    requires { limit ≤ MAX_NUMBER }
    ensures { result ≡ min (number_of digits.now) (limit + 1) }
{
    let mut number = 0;
    for digit in digits {
        number = (10 * number + u32::from(digit.saturating_sub(48))).min(limit + 1);
    }
    number
}

/// The number of symbols, applications and wildcards, of which one with its default is one; the greatest `u64` where
/// there are more, or where a default has more nodes than one may have.
#[cycle(node_count)]
fn node_count(expr: &Expr<'_>) -> u64
    ensures { result ≡ (if has_large_default (expr_tree expr.now) then 2 ^ 64 - 1
        else min (nodes (expr_tree expr.now)) (2 ^ 64 - 1)) }
{
    match *expr {
        Expr::Symbol(_) => 1,
        Expr::Apply(_, args) => 1_u64.saturating_add(node_counts(args)),
        Expr::Infix { operands, .. } => 1_u64.saturating_add(node_counts(operands)),
        Expr::Wild(_) => 1,
        Expr::Optional { default, .. } => {
            if node_count(default) > MAX_DEFAULT_NODES {
                u64::MAX
            } else {
                1
            }
        }
        Expr::Counted { .. } => 1,
        Expr::Variable(_) => 1,
    }
}

/// The nodes of all expressions; the greatest `u64` where there are more, or where a default is too large.
#[cycle(node_count)]
fn node_counts(exprs: &[Expr<'_>]) -> u64
    ensures { result ≡ (if some_large_default (trees (map expr_tree exprs.now)) then 2 ^ 64 - 1
        else min (all_nodes (trees (map expr_tree exprs.now))) (2 ^ 64 - 1)) }
{
    let mut count: u64 = 0;
    for expr in exprs {
        count = count.saturating_add(node_count(expr));
    }
    count
}

/// How many names the variables have; a wildcard without a name has none.
fn name_count(alloc: Global, variables: &[Variable<'_>]) -> Result<usize, AllocError>
    ensures { IfOk result
        (λ n. n ≡ length (firsts_after bytes_eq [] (flat_map (λ v. named v.name) (map variable_of variables.now)))) }
{
    let mut names = Vec::new(alloc);
    for variable in variables {
        add_name(variable.name, &mut names)?;
    }
    Ok(names.len())
}

/// How many variables a pattern has.
fn variable_count(alloc: Global, expr: &Expr<'_>) -> Result<usize, AllocError>
    ensures { IfOk result (λ n. n ≡ length (variable_names (expr_tree expr.now))) }
{
    let variables = pattern_variables(alloc, expr)?;
    name_count(alloc, &variables)
}

/// Adds the name where it isn't empty and not among the names yet.
fn add_name<'a>(name: &'a [u8], names: &mut Vec<&'a [u8]>) -> Result<(), AllocError>
    ensures { OnOk result (map (λ n. n.now) names.new.items
        ≡ firsts_after bytes_eq (map (λ n. n.now) names.old.items) (named name.now)) }
{
    if name.is_empty() || is_among(name, names) {
        return Ok(());
    }
    names.push(name)?;
    Ok(())
}

/// The name is one of these.
fn is_among(name: &[u8], names: &[&[u8]]) -> bool
    ensures { result ≡ is_among name.now (map (λ n. n.now) names.now) }
{
    for known in names {
        if *known == name {
            return true;
        }
    }
    false
}

/// The pattern has more nodes or more variables than a pattern may have, or a default in it has more nodes than a
/// default may have: `is_large_pattern` of `specs/Checks.antt`. The error comes where memory ran out.
pub fn is_large_pattern(alloc: Global, expr: &Expr<'_>) -> Result<bool, AllocError>
    ensures { IfOk result (λ large. large ≡ is_large_pattern (expr_tree expr.now)) }
{
    let nodes = node_count(expr);
    if nodes > u64::from(MAX_PATTERN_NODES) {
        return Ok(true);
    }
    // There are no more variables than nodes.
    if nodes <= MAX_VARIABLES as u64 {
        return Ok(false);
    }
    let variables = variable_count(alloc, expr)?;
    Ok(variables > MAX_VARIABLES)
}

/// The template has more nodes than a template may have, or a default in it has more than a default may have:
/// `is_large_template` of `specs/TemplateChecks.antt`. It takes no memory.
pub fn is_large_template(expr: &Expr<'_>) -> bool
    ensures { result ≡ is_large_template (expr_tree expr.now) }
{
    node_count(expr) > u64::from(MAX_PATTERN_NODES)
}

/// The term has more nodes than a term may have, or a default in it has more than a default may have: `is_large_term`
/// of `specs/Checks.antt`. It takes no memory.
pub fn is_large_term(expr: &Expr<'_>) -> bool
    ensures { result ≡ is_large_term (expr_tree expr.now) }
{
    node_count(expr) > MAX_TERM_NODES
}

/// The operand of a condition has more nodes than one may have.
pub fn is_large_operand(expr: &Expr<'_>) -> bool
    ensures { result ≡ is_large_operand (expr_tree expr.now) }
{
    node_count(expr) > MAX_OPERAND_NODES
}

/// The least number of arguments that an expression of a pattern takes, and the greatest, of an operation that may be
/// associative. None: there is no bound.
fn taken(assoc: bool, expr: &Expr<'_>) -> (usize, Option<usize>)
    ensures { (sig : Sig) → (result.0 ≡ pattern_least (pattern_of sig (expr_tree expr.now)))
        × (result.1 ≡ pattern_most assoc (pattern_of sig (expr_tree expr.now))) }
{
    match *expr {
        Expr::Wild(wild) if wild.kind.is_empty() => {
            let shape = marked_shape(wild.marks);
            (shape.least(), shape.most(assoc))
        }
        Expr::Optional { .. } => (0, if assoc { None } else { Some(1) }),
        Expr::Counted {
            wildcard,
            count,
            open: is_open,
        } if wildcard.kind.is_empty() => {
            let shape = counted_shape(count_of(*count), is_open);
            (shape.least(), shape.most(assoc))
        }
        _ => (1, Some(1)),
    }
}

/// The operation allows a number of arguments that the patterns may take.
pub fn allows_patterns(decl: &OpDecl, args: &[Expr<'_>]) -> bool
    ensures { (sig : Sig) → result ≡ allows_patterns (map (pattern_of sig) (map expr_tree args.now)) decl.now }
{
    // What is missing where each argument so far takes the most, and the room behind them where each takes the least.
    let mut missing = decl.least as usize;
    let mut room = missing;
    for arg in args {
        let (least, most) = taken(decl.assoc, arg);
        if decl.fixed && room < least {
            return false;
        }
        room = room.saturating_sub(least);
        missing = match most {
            None => 0,
            Some(most) => missing.saturating_sub(most),
        };
    }
    missing == 0
}
