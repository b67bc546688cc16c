//! How many arguments the expressions of a template give.

ghost use Rattle.std.specs.Prelude.{◌≡◌, map, option_map};
ghost use Rattle.mp_term.specs.Signature.{Sig};
ghost use Rattle.mp_pattern.specs.Extent.{template_extent};
ghost use Rattle.mp_parser.specs.Syntax.{trees};
ghost use Rattle.mp_parser.specs.View.{expr_tree};
ghost use Rattle.mp_build.specs.Build.{template_of};
ghost use Rattle.mp_build.specs.Scope.{extent_in};
ghost use Rattle.mp_build.specs.ScopeView.{extent_view, variable_of};
ghost use Rattle.mp_build.specs.TemplateChecks.{allows_given};

use crate::extent::Extent;
use crate::scope::Variable;
use mp_syntax::Expr;
use mp_term::OpDecl;

/// How many terms the first variable of the name stands for, where there is one.
fn extent_in(variables: &[Variable<'_>], name: &[u8]) -> Option<Extent>
    ensures { option_map extent_view result ≡ extent_in (map variable_of variables.now) name.now }
{
    for variable in variables {
        if name == variable.name {
            return Some(variable.extent);
        }
    }
    None
}

/// How many arguments an expression of a template gives: a variable as many as it stands for, and any other one.
fn given(variables: &[Variable<'_>], expr: &Expr<'_>) -> Extent
    ensures { (sig : Sig) → extent_view result
        ≡ template_extent (extent_in (map variable_of variables.now)) (template_of sig (expr_tree expr.now)) }
{
    match *expr {
        Expr::Variable(name) => extent_in(variables, name.text).unwrap_or(Extent::one()),
        _ => Extent::one(),
    }
}

/// The operation allows the number of arguments that the expressions of a template give.
pub fn allows_given(decl: &OpDecl, variables: &[Variable<'_>], args: &[Expr<'_>]) -> bool
    ensures { (sig : Sig) → result
        ≡ allows_given (map variable_of variables.now) sig (trees (map expr_tree args.now)) decl.now }
{
    // What is missing so far, whether there are too many, and whether each so far gives a number that is known.
    let mut missing = decl.least;
    let mut are_few = true;
    let mut fixed = true;
    for arg in args {
        let extent = given(variables, arg);
        are_few = are_few && extent.least <= missing;
        missing = missing.saturating_sub(extent.least);
        fixed = fixed && extent.fixed;
    }
    missing == 0 && (!decl.fixed || (fixed && are_few))
}
