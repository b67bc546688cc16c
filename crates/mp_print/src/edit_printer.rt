//! Prints edits of terms.

ghost use Rattle.std.specs.Prelude.{◌≡◌, [], map, decimal, codes, slice_get};
ghost use Rattle.std.specs.Option.{option_map_or};
ghost use Rattle.mp_io.specs.Writing.{Puts};
ghost use Rattle.mp_term.specs.View.{tree};
ghost use Rattle.mp_print.specs.Printing.{separated};
ghost use Rattle.mp_print.specs.PrintedEdits.{position_text, new_terms_text, edit_text, edits_text};

use crate::printer::put_term;
use crate::subst_printer::put_terms;
use mp_io::{Sink, Writer, put_gap, put_number};
use mp_term::{Edit, Edits, Position, Signature, Term};

/// Puts the text of edits, with a comma between each two: `edits_text` of `specs/PrintedEdits.antt`. It takes no
/// memory.
///
/// An operation that the signature doesn't hold has no text.
pub fn put_edits<K: Sink>(sig: &Signature, edits: &Edits, out: &mut Writer<'_, K>)
    ensures { Puts K.Sink out.old out.new (edits_text sig.now edits.now) }
{
    for index in 0..edits.len() {
        put_gap(index, b", ", out);
        put_edit_of(sig, edits, index, out);
    }
}

/// Puts the edit at an index, and nothing where none is there.
fn put_edit_of<K: Sink>(sig: &Signature, edits: &Edits, index: usize, out: &mut Writer<'_, K>)
    ensures { Puts K.Sink out.old out.new (option_map_or (edit_text sig.now) (slice_get edits.now index) []) }
{
    if let Some(edit) = edits.get(index) {
        put_edit(sig, edit, out);
    }
}

/// Puts an edit: its position, an arrow and what replaces the term there.
fn put_edit<K: Sink>(sig: &Signature, edit: &Edit, out: &mut Writer<'_, K>)
    ensures { Puts K.Sink out.old out.new (edit_text sig.now edit.now) }
{
    put_position(&edit.position, out);
    out.put(b" -> ");
    put_new_terms(sig, edit.terms.as_slice(), out);
}

/// Puts a position.
fn put_position<K: Sink>(position: &Position, out: &mut Writer<'_, K>)
    ensures { Puts K.Sink out.old out.new (position_text position.now) }
{
    match position.indexes() {
        [] => out.put(b"."),
        indexes => put_indexes(indexes, out),
    }
}

/// Puts the indexes, with a dot between each two.
fn put_indexes<K: Sink>(indexes: &[u32], out: &mut Writer<'_, K>)
    ensures { Puts K.Sink out.old out.new (separated (codes ".") (map decimal indexes.now)) }
{
    for (place, index) in indexes.iter().enumerate() {
        put_gap(place, b".", out);
        put_number(*index, out);
    }
}

/// Puts the terms that replace another: one alone, and every other number of them in square brackets.
fn put_new_terms<K: Sink>(sig: &Signature, terms: &[Term], out: &mut Writer<'_, K>)
    ensures { Puts K.Sink out.old out.new (new_terms_text sig.now (map tree terms.now)) }
{
    match terms {
        [term] => put_term(sig, term, out),
        terms => put_terms(sig, b"[", terms, b"]", out),
    }
}
