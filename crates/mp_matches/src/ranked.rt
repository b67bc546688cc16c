//! Prints substitutions whose values are kept by ranks.

ghost use Rattle.std.specs.Prelude.{◌≡◌, map, codes};
ghost use Rattle.mp_io.specs.Writing.{Puts};
ghost use Rattle.mp_print.specs.Printing.{binding_text, separated, subst_text};
ghost use Rattle.mp_walk.specs.RankedView.{shown_binding};

use mp_io::{Sink, Writer};
use mp_print::RankTexts;
use mp_walk::{RankedBinding, RankedPair};

// Puts a variable and its value.
fn put_binding<K: Sink>(texts: &RankTexts<'_>, binding: &RankedBinding<'_>, out: &mut Writer<'_, K>)
    requires { binding.now.table.now ≡ texts.now.table }
    ensures { Puts K.Sink out.old out.new (binding_text texts.now.sig (shown_binding binding.now)) }
{
    out.put(binding.name.bytes());
    out.put(b" -> ");
    texts.put_bound(&binding.bound, out);
}

// Puts the bindings, with a comma between each two.
fn put_bindings<K: Sink>(texts: &RankTexts<'_>, pair: &RankedPair<'_>, out: &mut Writer<'_, K>)
    requires { pair.now.table ≡ texts.now.table }
    ensures { Puts K.Sink out.old out.new (separated (codes ", ") (map (binding_text texts.now.sig) pair.now.pair.1)) }
{
    let mut gap = b"".as_slice();
    for index in 0..pair.len() {
        let Some(binding) = pair.binding(index) else {
            unreachable!()
        };
        out.put(gap);
        put_binding(texts, &binding, out);
        gap = b", ".as_slice();
    }
}

// Puts the text of the substitution of a pair, as `put_subst` puts that of a substitution.
pub(crate) fn put_ranked<K: Sink>(
    texts: &RankTexts<'_>,
    pair: &RankedPair<'_>,
    out: &mut Writer<'_, K>,
)
    requires { pair.now.table ≡ texts.now.table }
    ensures { Puts K.Sink out.old out.new (subst_text texts.now.sig pair.now.pair.1) }
{
    out.put_byte(b'{');
    put_bindings(texts, pair, out);
    out.put_byte(b'}');
}
