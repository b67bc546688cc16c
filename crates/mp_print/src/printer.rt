//! Prints terms.

ghost use Rattle.std.specs.Prelude.{◌≡◌, ⊤};
ghost use Rattle.mp_io.specs.Moments.{sunk};
ghost use Rattle.mp_io.specs.Printing.{Prints};
ghost use Rattle.mp_io.specs.Writing.{Puts};
ghost use Rattle.mp_term.specs.Size.{node_count};
ghost use Rattle.mp_term.specs.View.{tree};
ghost use Rattle.mp_print.specs.Printing.{term_text};

use crate::tree_printer::{PrintedTree, put_tree};
use mp_io::{Failed, Sink, Writer};
use mp_term::{OpId, Signature, Term};

/// Appends the text of a term to the sink: `term_text` of `specs/Printing.antt`. It takes no memory.
///
/// An operation that the signature doesn't hold has no text.
///
/// `Failed`: the sink's count of faults rose, and a front of the text was appended.
pub fn write_term<K: Sink>(sig: &Signature, term: &Term, sink: &mut K) -> Result<(), Failed>
    ensures { Prints (sunk K.Sink sink.old sink.new) (term_text sig.now (tree term.now)) result }
{
    let mut out = Writer::new(sink);
    put_term(sig, term, &mut out);
    out.finish()
}

/// Puts the text of a term, as `write_term` writes it.
pub fn put_term<K: Sink>(sig: &Signature, term: &Term, out: &mut Writer<'_, K>)
    ensures { Puts K.Sink out.old out.new (term_text sig.now (tree term.now)) }
{
    put_tree(sig, &(), term, out);
}

impl PrintedTree<()> for Term {
    ghost text = { λ sig _ t. term_text sig (tree t) };

    ghost size = { λ _ t. node_count (tree t) };

    ghost may_print = { λ _ _. ⊤ };

    fn put_leaf<'t, K: Sink>(
        &'t self,
        sig: &Signature,
        base: &'t (),
        out: &mut Writer<'_, K>,
    ) -> Option<(OpId, &'t [Term])> {
        match self {
            Term::Sym(name) => {
                out.put(name.bytes());
                None
            }
            Term::App(op, args) => Some((*op, args.as_slice())),
        }
    }
}
