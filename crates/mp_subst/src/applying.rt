//! What a template becomes under a substitution.
ghost use Rattle.std.specs.Prelude.{◌≡◌, ◌∷◌, [], None, Err, IfSome, IfOk, IfErr};
ghost use Rattle.mp_term.specs.Tree.{Tree};
ghost use Rattle.mp_term.specs.View.{tree};
ghost use Rattle.mp_term.specs.Excess.{excess};
ghost use Rattle.mp_pattern.specs.TemplateView.{template_tree};
ghost use Rattle.mp_pattern.specs.Instance.{IsInstance, IsApplied};
ghost use Rattle.mp_subst.specs.View.{subst_of};
ghost use Rattle.mp_subst.specs.Applied.{fault_of, IsExceeded};

use crate::apply_fault::ApplyFault;
use crate::instance::instance;
use crate::instance_size::instances_excess;
use crate::subst::Subst;
use mp_pattern::Template;
use mp_term::{Signature, Term, normal_form};
use std::alloc::Global;

/// The normal form of the template's instance, that is of the template with each variable replaced by its term, or by
/// the terms of its list (`IsApplied` of mp_pattern's `specs/Instance.antt`). The template has an instance at the
/// substitution, which may have whatever operations with however many arguments.
///
/// `TooLarge` comes where the instance has more nodes before it is normalised than a term may have, and else `TooDeep`
/// where it is deeper (`excess` of mp_term's `specs/Excess.antt`): that is found before anything is built, so `Memory`
/// never comes of such an instance. It comes where there is no room for the term.
pub fn apply(
    alloc: Global,
    sig: &Signature,
    template: &Template,
    subst: &Subst,
) -> Result<Term, ApplyFault>
    requires { (t : Tree) × IsInstance (template_tree template.now) (subst_of subst.now) t }
    ensures term { IfOk result
        (λ t. IsApplied sig.now (template_tree template.now) (subst_of subst.now) (tree t)) }
    ensures fits { IfOk result (λ _. (t : Tree) →
        IsInstance (template_tree template.now) (subst_of subst.now) t → excess (t ∷ []) ≡ None) }
    ensures exceeded { (t : Tree) → IsInstance (template_tree template.now) (subst_of subst.now) t
        → IfSome (excess (t ∷ [])) (λ e. result ≡ Err (fault_of e)) }
    ensures fault { IfErr result (IsExceeded (template_tree template.now) (subst_of subst.now)) }
{
    if let Some(excess) = instances_excess(template, subst) {
        return Err(excess.into());
    }
    let spliced = instance(alloc, template, subst)?;
    let normal = normal_form(alloc, sig, spliced)?;
    Ok(normal)
}
