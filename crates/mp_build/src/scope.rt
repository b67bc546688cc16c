//! The variables of a pattern, which a condition and a template may name.

ghost use Rattle.std.specs.Prelude.{◌≡◌, [], ◌∷◌, ◌++◌, map, OnOk, IfOk, option_map, slice_get};
ghost use Rattle.mp_pattern.specs.PlanView.{form};
ghost use Rattle.mp_parser.specs.Syntax.{trees};
ghost use Rattle.mp_parser.specs.View.{expr_tree};
ghost use Rattle.mp_build.specs.Scope.{pattern_variables, all_pattern_variables, plan_variables, form_extent, is_bound};
ghost use Rattle.mp_build.specs.Scope.{is_bound_sequence};
ghost use Rattle.mp_build.specs.ScopeView.{extent_view, variable_of};

use crate::extent::{Extent, count_of, counted_extent, marked_extent};
use mp_pattern::{Form, Plan};
use mp_syntax::Expr;
use std::alloc::{AllocError, Global};

/// A variable of a pattern.
///
/// As plain data it is a `Variable` of `specs/Scope.antt`, by `variable_of` of `specs/ScopeView.antt`.
#[derive(Clone, Copy)]
pub struct Variable<'a> {
    /// The name; empty for a wildcard without one, which nothing names.
    pub name: &'a [u8],
    /// How many terms it stands for.
    pub extent: Extent,
}

/// The variables that a condition may name.
///
/// As plain data it is a `Scope` of `specs/Scope.antt`, by `scope_of` of `specs/ScopeView.antt`.
#[derive(Drop)]
pub enum Scope<'a> {
    /// Any variables: it isn't checked.
    Any,
    /// These.
    Among(Vec<Variable<'a>>),
}

/// Adds the variables of the wildcards of an expression, in order.
#[cycle(add_variables)]
fn add_variables<'a>(expr: &Expr<'a>, variables: &mut Vec<Variable<'a>>) -> Result<(), AllocError>
    ensures { OnOk result (map variable_of variables.new.items
        ≡ map variable_of variables.old.items ++ pattern_variables (expr_tree expr.now)) }
{
    match *expr {
        Expr::Symbol(_) => Ok(()),
        Expr::Apply(_, args) => add_all_variables(args, variables),
        Expr::Infix { operands, .. } => add_all_variables(operands, variables),
        Expr::Wild(wild) => add_variable(wild.name, marked_extent(wild.marks), variables),
        Expr::Optional { wildcard, .. } => add_variable(wildcard.name, Extent::one(), variables),
        Expr::Counted {
            wildcard,
            count,
            open: is_open,
        } => {
            let extent = counted_extent(count_of(*count), is_open);
            add_variable(wildcard.name, extent, variables)
        }
        Expr::Variable(_) => Ok(()),
    }
}

/// Adds the variables of the wildcards of all expressions, in order.
#[cycle(add_variables)]
fn add_all_variables<'a>(
    exprs: &[Expr<'a>],
    variables: &mut Vec<Variable<'a>>,
) -> Result<(), AllocError>
    ensures { OnOk result (map variable_of variables.new.items
        ≡ map variable_of variables.old.items ++ all_pattern_variables (trees (map expr_tree exprs.now))) }
{
    for expr in exprs {
        add_variables(expr, variables)?;
    }
    Ok(())
}

/// Adds the variable of a wildcard.
fn add_variable<'a>(
    name: &'a [u8],
    extent: Extent,
    variables: &mut Vec<Variable<'a>>,
) -> Result<(), AllocError>
    ensures { OnOk result (map variable_of variables.new.items
        ≡ map variable_of variables.old.items ++ record { name = name.now; extent = extent_view extent } ∷ []) }
{
    variables.push(Variable { name, extent })?;
    Ok(())
}

/// The variables of a pattern, one for each wildcard, in order: `pattern_variables` of `specs/Scope.antt`. The error
/// comes where memory ran out.
pub fn pattern_variables<'a>(
    alloc: Global,
    pattern: &Expr<'a>,
) -> Result<Vec<Variable<'a>>, AllocError>
    ensures { IfOk result (λ vs. map variable_of vs.items ≡ pattern_variables (expr_tree pattern.now)) }
{
    let mut variables = Vec::new(alloc);
    add_variables(pattern, &mut variables)?;
    Ok(variables)
}

/// The variables of a plan, in order.
pub fn plan_variables(alloc: Global, plan: &Plan) -> Result<Vec<Variable<'_>>, AllocError>
    ensures { IfOk result (λ vs. map variable_of vs.items ≡ plan_variables plan.now) }
{
    let mut variables = Vec::new(alloc);
    for number in 0..plan.vars() {
        if let Some(variable) = plan_variable(plan, number) {
            variables.push(variable)?;
        }
    }
    Ok(variables)
}

/// The variable of a plan of that number, where there is one.
fn plan_variable(plan: &Plan, number: u32) -> Option<Variable<'_>>
    ensures { option_map variable_of result ≡ slice_get (plan_variables plan.now) number }
{
    let name = plan.var_name(number)?;
    let form = plan.var_form(number)?;
    Some(Variable {
        name: name.bytes(),
        extent: form_extent(form),
    })
}

/// How many terms a value of the form has.
fn form_extent(kind: Form) -> Extent
    ensures { extent_view result ≡ form_extent (form kind) }
{
    match kind {
        Form::One => Extent::one(),
        Form::Seq => Extent::any(),
        Form::Bag => Extent::any(),
    }
}

/// One of the variables has the name: `is_bound` of `specs/Scope.antt`. It takes no memory.
pub fn is_bound(variables: &[Variable<'_>], name: &[u8]) -> bool
    ensures { result ≡ is_bound (map variable_of variables.now) name.now }
{
    for variable in variables {
        if name == variable.name {
            return true;
        }
    }
    false
}

/// One of the variables has the name, and may stand for another number of terms than one: `is_bound_sequence` of
/// `specs/Scope.antt`. It takes no memory.
pub fn is_bound_sequence(variables: &[Variable<'_>], name: &[u8]) -> bool
    ensures { result ≡ is_bound_sequence (map variable_of variables.now) name.now }
{
    for variable in variables {
        if name == variable.name && variable.extent.is_many() {
            return true;
        }
    }
    false
}
