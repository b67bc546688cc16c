//! Prints templates.

ghost use Rattle.std.specs.Prelude.{◌≡◌, ⊤};
ghost use Rattle.mp_io.specs.Writing.{Puts};
ghost use Rattle.mp_pattern.specs.TemplateSize.{template_nodes};
ghost use Rattle.mp_pattern.specs.TemplateView.{template_tree};
ghost use Rattle.mp_print.specs.PrintedTemplate.{template_text};

use crate::tree_printer::{PrintedTree, put_tree};
use mp_io::{Sink, Writer};
use mp_pattern::Template;
use mp_term::{OpId, Signature};

/// Puts the text of a template: `template_text` of `specs/PrintedTemplate.antt`. It takes no memory.
///
/// An operation that the signature doesn't hold has no text.
pub fn put_template<K: Sink>(sig: &Signature, template: &Template, out: &mut Writer<'_, K>)
    ensures { Puts K.Sink out.old out.new (template_text sig.now (template_tree template.now)) }
{
    put_tree(sig, &(), template, out);
}

impl PrintedTree<()> for Template {
    ghost text = { λ sig _ x. template_text sig (template_tree x) };

    ghost size = { λ _ x. template_nodes (template_tree x) };

    ghost may_print = { λ _ _. ⊤ };

    fn put_leaf<'t, K: Sink>(
        &'t self,
        sig: &Signature,
        base: &'t (),
        out: &mut Writer<'_, K>,
    ) -> Option<(OpId, &'t [Template])> {
        match self {
            Template::Sym(name) => {
                out.put(name.bytes());
                None
            }
            Template::App(op, args) => Some((*op, args.as_slice())),
            Template::Var(name) => {
                out.put_all(&[b"$".as_slice(), name.bytes()]);
                None
            }
        }
    }
}
