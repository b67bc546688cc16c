//! Makes templates of expressions, and checks them on the way.

ghost use Rattle.std.specs.Prelude.{◌≡◌, map, option_map};
ghost use Rattle.mp_pattern.specs.TemplateView.{template_tree};
ghost use Rattle.mp_parser.specs.Syntax.{trees, InfixOf};
ghost use Rattle.mp_parser.specs.View.{spot_of, expr_tree, spot_of_sign, arrow_tree};
ghost use Rattle.mp_build.specs.Answers.{Gives};
ghost use Rattle.mp_build.specs.Build.{template_of};
ghost use Rattle.mp_build.specs.ConditionChecks.{unbound_faults};
ghost use Rattle.mp_build.specs.ScopeView.{variable_of};
ghost use Rattle.mp_build.specs.TemplateChecks.{has_large_template, loose_template_faults};
ghost use Rattle.mp_build.specs.TemplateChecks.{template_faults, all_template_faults};
ghost use Rattle.mp_build.specs.TemplateChecks.{whole_template_faults, arrow_faults};

use mp_build::{
    Arguments, TextError, TextKind, Variable, error_at, head_op, is_bound, is_bound_sequence,
    is_large_template, new_name, sign_op, symbol, wildcard_in_term,
};
use mp_pattern::{Template, Templates};
use mp_syntax::{Expr, InfixSign, Place, Word};
use mp_term::{Name, Signature};
use std::alloc::Global;

/// The variable of a template, which is one of the pattern's.
fn variable(alloc: Global, variables: &[Variable<'_>], name: Word<'_>) -> Result<Name, TextError>
    ensures { Gives result (unbound_faults (Some (map variable_of variables.now)) (spot_of name.entry))
        (λ n. n ≡ name.entry.text.now) }
{
    if !is_bound(variables, name.text) {
        return Err(error_at(TextKind::UnboundVariable, name.place));
    }
    new_name(alloc, name)
}

/// The template of an expression over the variables of a pattern, or its first fault.
#[cycle(build_template)]
fn build_template<'a>(
    alloc: Global,
    sig: &Signature,
    variables: &[Variable<'a>],
    expr: &Expr<'a>,
) -> Result<Template, TextError>
    ensures { Gives result (template_faults (map variable_of variables.now) sig.now (expr_tree expr.now))
        (λ x. template_tree x ≡ template_of sig.now (expr_tree expr.now)) }
{
    match *expr {
        Expr::Symbol(word) => {
            let name = symbol(alloc, sig, word)?;
            Ok(Template::Sym(name))
        }
        Expr::Apply(name, args) => {
            let op = head_op(sig, name, Arguments::Templates(variables, args))?;
            let templates = build_templates(alloc, sig, variables, args)?;
            Ok(Template::App(op, templates))
        }
        Expr::Infix {
            open: place,
            sign,
            operands,
        } => infix_template(alloc, sig, variables, place, sign, operands),
        Expr::Wild(wild) => Err(wildcard_in_term(sig, wild)),
        Expr::Optional { wildcard, .. } => Err(wildcard_in_term(sig, *wildcard)),
        Expr::Counted { wildcard, .. } => Err(wildcard_in_term(sig, *wildcard)),
        Expr::Variable(name) => {
            let name = variable(alloc, variables, name)?;
            Ok(Template::Var(name))
        }
    }
}

/// The template of a sign between operands, or its first fault.
#[cycle(build_template)]
fn infix_template<'a>(
    alloc: Global,
    sig: &Signature,
    variables: &[Variable<'a>],
    place: Place,
    sign: InfixSign<'a>,
    operands: &[Expr<'a>],
) -> Result<Template, TextError>
    ensures { Gives result
        (template_faults (map variable_of variables.now) sig.now
        (InfixOf place (spot_of_sign sign.entry) (trees (map expr_tree operands.now))))
        (λ x. template_tree x
        ≡ template_of sig.now (InfixOf place (spot_of_sign sign.entry) (trees (map expr_tree operands.now)))) }
{
    match sign_op(sig, place, sign, Arguments::Templates(variables, operands))? {
        None => {
            if let [first, ..] = operands {
                build_template(alloc, sig, variables, first)?;
            }
            Err(error_at(TextKind::UnknownOp, sign.place))
        }
        Some(op) => {
            let templates = build_templates(alloc, sig, variables, operands)?;
            Ok(Template::App(op, templates))
        }
    }
}

/// The templates of expressions, or their first fault.
#[cycle(build_template)]
fn build_templates<'a>(
    alloc: Global,
    sig: &Signature,
    variables: &[Variable<'a>],
    exprs: &[Expr<'a>],
) -> Result<Templates, TextError>
    ensures { Gives result
        (all_template_faults (map variable_of variables.now) sig.now (trees (map expr_tree exprs.now)))
        (λ xs. xs ≡ map (template_of sig.now) (map expr_tree exprs.now)) }
{
    let mut templates = Templates::new(alloc);
    for expr in exprs {
        let template = build_template(alloc, sig, variables, expr)?;
        templates.push(template)?;
    }
    Ok(templates)
}

/// A variable that is a whole template stands for one term.
fn check_root(variables: &[Variable<'_>], expr: &Expr<'_>) -> Result<(), TextError>
    ensures { Gives result (loose_template_faults (map variable_of variables.now) (expr_tree expr.now))
        (λ _. Unit {0}) }
{
    match *expr {
        Expr::Variable(name) => {
            if is_bound_sequence(variables, name.text) {
                return Err(error_at(TextKind::LooseSequence, name.place));
            }
            Ok(())
        }
        _ => Ok(()),
    }
}

/// The template of a whole expression over the variables of a pattern, or its first fault.
fn whole_template<'a>(
    alloc: Global,
    sig: &Signature,
    variables: &[Variable<'a>],
    expr: &Expr<'a>,
) -> Result<Template, TextError>
    ensures { Gives result (whole_template_faults (map variable_of variables.now) sig.now (expr_tree expr.now))
        (λ x. template_tree x ≡ template_of sig.now (expr_tree expr.now)) }
{
    check_root(variables, expr)?;
    build_template(alloc, sig, variables, expr)
}

/// The template of a rule over the variables of its pattern, where it has one, or its first fault.
pub fn rule_template<'a>(
    alloc: Global,
    sig: &Signature,
    variables: &[Variable<'a>],
    template: &Option<&Expr<'a>>,
) -> Result<Option<Template>, TextError>
    ensures { Gives result (arrow_faults (map variable_of variables.now) sig.now (arrow_tree template.now))
        (λ x. option_map template_tree x ≡ option_map (template_of sig.now) (arrow_tree template.now)) }
{
    match *template {
        None => Ok(None),
        Some(expr) => {
            let template = whole_template(alloc, sig, variables, expr)?;
            Ok(Some(template))
        }
    }
}

/// The template of a rule, where it has one, is larger than it may be.
pub fn has_large_template(template: &Option<&Expr<'_>>) -> bool
    ensures { result ≡ has_large_template (arrow_tree template.now) }
{
    match *template {
        None => false,
        Some(expr) => is_large_template(expr),
    }
}
