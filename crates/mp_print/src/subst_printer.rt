//! Prints substitutions.

ghost use Rattle.std.specs.Prelude.{◌≡◌, ◌++◌, map, codes};
ghost use Rattle.mp_io.specs.Moments.{sunk};
ghost use Rattle.mp_io.specs.Printing.{Prints};
ghost use Rattle.mp_io.specs.Writing.{Puts};
ghost use Rattle.mp_term.specs.View.{tree};
ghost use Rattle.mp_subst.specs.View.{value_of, binding_of, subst_of};
ghost use Rattle.mp_print.specs.Printing.{binding_text, separated, subst_text, term_text, value_text};

use crate::printer::put_term;
use crate::tree_printer::put_enclosed;
use mp_io::{Failed, Sink, Writer, put_gap};
use mp_subst::{Binding, Subst, Value};
use mp_term::{Signature, Term};

/// Appends the text of a substitution to the sink: `subst_text` of `specs/Printing.antt`. It takes no memory.
///
/// `Failed`: the sink's count of faults rose, and a front of the text was appended.
pub fn write_subst<K: Sink>(sig: &Signature, subst: &Subst, sink: &mut K) -> Result<(), Failed>
    ensures { Prints (sunk K.Sink sink.old sink.new) (subst_text sig.now (subst_of subst.now)) result }
{
    let mut out = Writer::new(sink);
    put_subst(sig, subst, &mut out);
    out.finish()
}

/// Puts the text of a substitution, as `write_subst` writes it.
pub fn put_subst<K: Sink>(sig: &Signature, subst: &Subst, out: &mut Writer<'_, K>)
    ensures { Puts K.Sink out.old out.new (subst_text sig.now (subst_of subst.now)) }
{
    out.put(b"{");
    put_bindings(sig, subst.bindings.as_slice(), out);
    out.put(b"}");
}

/// Puts the bindings, with a comma between each two.
fn put_bindings<K: Sink>(sig: &Signature, bindings: &[Binding], out: &mut Writer<'_, K>)
    ensures { Puts K.Sink out.old out.new (separated (codes ", ")
        (map (binding_text sig.now) (map binding_of bindings.now))) }
{
    for (index, binding) in bindings.iter().enumerate() {
        put_gap(index, b", ", out);
        put_binding(sig, binding, out);
    }
}

/// Puts a variable and its value.
fn put_binding<K: Sink>(sig: &Signature, binding: &Binding, out: &mut Writer<'_, K>)
    ensures { Puts K.Sink out.old out.new (binding_text sig.now (binding_of binding.now)) }
{
    out.put(binding.name.bytes());
    out.put(b" -> ");
    put_value(sig, &binding.value, out);
}

/// Puts a value: one term, a tuple in round brackets, or a multiset in curly ones.
fn put_value<K: Sink>(sig: &Signature, value: &Value, out: &mut Writer<'_, K>)
    ensures { Puts K.Sink out.old out.new (value_text sig.now (value_of value.now)) }
{
    match value {
        Value::One(term) => put_term(sig, term, out),
        Value::Seq(terms) => put_terms(sig, b"(", terms.as_slice(), b")", out),
        Value::Bag(terms) => put_terms(sig, b"{", terms.as_slice(), b"}", out),
    }
}

/// Puts the terms between an opening and a closing, with a comma between each two.
pub(crate) fn put_terms<K: Sink>(
    sig: &Signature,
    opening: &[u8],
    terms: &[Term],
    closing: &[u8],
    out: &mut Writer<'_, K>,
)
    ensures { Puts K.Sink out.old out.new
        (opening.now ++ (separated (codes ", ") (map (term_text sig.now) (map tree terms.now)) ++ closing.now)) }
{
    put_enclosed(sig, &(), opening, terms, closing, out);
}
