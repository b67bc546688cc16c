//! The size of what a template becomes under a substitution, which is found without building it.
ghost use Rattle.std.specs.Prelude.{◌≡◌, map};
ghost use Rattle.mp_term.specs.View.{tree};
ghost use Rattle.mp_term.specs.Excess.{IsSizeOf, excess};
ghost use Rattle.mp_pattern.specs.TemplateTree.{templates};
ghost use Rattle.mp_pattern.specs.TemplateView.{template_tree};
ghost use Rattle.mp_pattern.specs.Instance.{instances, all_instances};
ghost use Rattle.mp_subst.specs.View.{subst_of};

use crate::subst::Subst;
use mp_pattern::{Template, Templates};
use mp_term::{Excess, Size, Term};

// The size of the terms together.
fn size_of_all(terms: &[Term]) -> Size
    ensures { IsSizeOf result (map tree terms.now) }
{
    let mut all = Size::none();
    for term in terms {
        all = all.beside(Size::of_term(term));
    }
    all
}

// The size of the terms that the template gives to the argument list around it.
#[cycle(instances_size)]
fn instances_size(template: &Template, subst: &Subst) -> Size
    ensures { IsSizeOf result (instances (subst_of subst.now) (template_tree template.now)) }
{
    match template {
        Template::Sym(_) => Size { nodes: 1, depth: 0 },
        Template::Var(name) => match subst.value_of(name) {
            None => Size::none(),
            Some(value) => size_of_all(value.terms()),
        },
        Template::App(_, args) => arguments_size(args, subst).applied(),
    }
}

// The size of the arguments that the templates give together.
#[cycle(instances_size)]
fn arguments_size(args: &Templates, subst: &Subst) -> Size
    ensures { IsSizeOf result (all_instances (subst_of subst.now) (templates args.now)) }
{
    let mut all = Size::none();
    for arg in args.as_slice() {
        all = all.beside(instances_size(arg, subst));
    }
    all
}

// How the terms that the template gives to the argument list around it exceed a size, where they do.
pub(crate) fn instances_excess(template: &Template, subst: &Subst) -> Option<Excess>
    ensures { result ≡ excess (instances (subst_of subst.now) (template_tree template.now)) }
{
    instances_size(template, subst).excess()
}
