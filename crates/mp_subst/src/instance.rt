//! What a template becomes under a substitution, before it is normalised.
ghost use Rattle.std.specs.Prelude.{◌≡◌, ◌++◌, map, OnOk, IfOk};
ghost use Rattle.mp_term.specs.Tree.{Tree};
ghost use Rattle.mp_term.specs.View.{tree};
ghost use Rattle.mp_pattern.specs.TemplateTree.{templates};
ghost use Rattle.mp_pattern.specs.TemplateView.{template_tree};
ghost use Rattle.mp_pattern.specs.Instance.{instances, all_instances, IsInstance};
ghost use Rattle.mp_subst.specs.View.{subst_of};

use crate::subst::Subst;
use crate::value::Value;
use mp_pattern::{Template, Templates};
use mp_term::{Memory, Term, Terms, copy_term};
use std::alloc::Global;

// Adds copies of the terms.
fn push_copies(alloc: Global, terms: &[Term], out: &mut Terms) -> Result<(), Memory>
    ensures { OnOk result (out.new ≡ out.old ++ map tree terms.now) }
{
    for term in terms {
        out.push(copy_term(alloc, term)?)?;
    }
    Ok(())
}

// Adds the terms that the template gives to the argument list around it.
#[cycle(push_instances)]
fn push_instances(
    alloc: Global,
    template: &Template,
    subst: &Subst,
    out: &mut Terms,
) -> Result<(), Memory>
    ensures { OnOk result (out.new ≡ out.old ++ instances (subst_of subst.now) (template_tree template.now)) }
{
    match template {
        Template::Sym(name) => out.push(Term::Sym(name.copy(alloc)?)),
        Template::Var(name) => match subst.value_of(name) {
            None => Ok(()),
            Some(value) => push_copies(alloc, value.terms(), out),
        },
        Template::App(op, args) => {
            let terms = argument_instances(alloc, args, subst)?;
            out.push(Term::App(*op, terms))
        }
    }
}

// The arguments that the templates give.
#[cycle(push_instances)]
fn argument_instances(alloc: Global, args: &Templates, subst: &Subst) -> Result<Terms, Memory>
    ensures { IfOk result (λ ts. ts ≡ all_instances (subst_of subst.now) (templates args.now)) }
{
    let mut terms = Terms::new(alloc);
    for arg in args.as_slice() {
        push_instances(alloc, arg, subst, &mut terms)?;
    }
    Ok(terms)
}

// The instance of the template, which has one at the substitution.
pub(crate) fn instance(alloc: Global, template: &Template, subst: &Subst) -> Result<Term, Memory>
    requires { (t : Tree) × IsInstance (template_tree template.now) (subst_of subst.now) t }
    ensures { IfOk result (λ t. IsInstance (template_tree template.now) (subst_of subst.now) (tree t)) }
{
    match template {
        Template::Sym(name) => Ok(Term::Sym(name.copy(alloc)?)),
        Template::Var(name) => match subst.value_of(name) {
            Some(Value::One(term)) => copy_term(alloc, term),
            _ => unreachable!(),
        },
        Template::App(op, args) => Ok(Term::App(*op, argument_instances(alloc, args, subst)?)),
    }
}
