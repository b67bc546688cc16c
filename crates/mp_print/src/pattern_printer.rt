//! Prints patterns.

ghost use Rattle.std.specs.Prelude.{◌≡◌, ◌++◌, codes, ⊤};
ghost use Rattle.mp_io.specs.Moments.{sunk};
ghost use Rattle.mp_io.specs.Printing.{Prints};
ghost use Rattle.mp_io.specs.Writing.{Puts};
ghost use Rattle.mp_pattern.specs.Size.{pattern_nodes};
ghost use Rattle.mp_pattern.specs.View.{pattern_tree, wildcard};
ghost use Rattle.mp_print.specs.Printing.{kind_name_text};
ghost use Rattle.mp_print.specs.PrintedPattern.{count_text, pattern_text, shape_text, wildcard_text};

use crate::printer::put_term;
use crate::signature_printer::text_if;
use crate::tree_printer::{PrintedTree, put_tree};
use itoa::Buffer;
use mp_io::{Failed, Sink, Writer};
use mp_pattern::{Pattern, Shape};
use mp_term::{KindId, Name, OpId, Signature};

/// Appends the text of a pattern to the sink: `pattern_text` of `specs/PrintedPattern.antt`. It takes no memory.
///
/// An operation that the signature doesn't hold has no text, and a kind that it doesn't hold has no name.
///
/// `Failed`: the sink's count of faults rose, and a front of the text was appended.
pub fn write_pattern<K: Sink>(
    sig: &Signature,
    pattern: &Pattern,
    sink: &mut K,
) -> Result<(), Failed>
    ensures { Prints (sunk K.Sink sink.old sink.new) (pattern_text sig.now (pattern_tree pattern.now)) result }
{
    let mut out = Writer::new(sink);
    put_pattern(sig, pattern, &mut out);
    out.finish()
}

/// Puts the text of a pattern, as `write_pattern` writes it.
pub fn put_pattern<K: Sink>(sig: &Signature, pattern: &Pattern, out: &mut Writer<'_, K>)
    ensures { Puts K.Sink out.old out.new (pattern_text sig.now (pattern_tree pattern.now)) }
{
    put_tree(sig, &(), pattern, out);
}

impl PrintedTree<()> for Pattern {
    ghost text = { λ sig _ p. pattern_text sig (pattern_tree p) };

    ghost size = { λ _ p. pattern_nodes (pattern_tree p) };

    ghost may_print = { λ _ _. ⊤ };

    fn put_leaf<'t, K: Sink>(
        &'t self,
        sig: &Signature,
        base: &'t (),
        out: &mut Writer<'_, K>,
    ) -> Option<(OpId, &'t [Pattern])> {
        match self {
            Pattern::Sym(name) => {
                out.put(name.bytes());
                None
            }
            Pattern::App(op, args) => Some((*op, args.as_slice())),
            Pattern::Wild(shape, name) => {
                put_wildcard(sig, shape, name, out);
                None
            }
        }
    }
}

/// Puts a wildcard: the name of its variable, where it has one, and its shape.
fn put_wildcard<K: Sink>(
    sig: &Signature,
    shape: &Shape,
    name: &Option<Name>,
    out: &mut Writer<'_, K>,
)
    ensures { Puts K.Sink out.old out.new (wildcard_text sig.now (wildcard shape.now) name.now) }
{
    if let Some(name) = name {
        out.put(name.bytes());
    }
    put_shape(sig, shape, out);
}

/// Puts what stands behind the name of a wildcard.
fn put_shape<K: Sink>(sig: &Signature, shape: &Shape, out: &mut Writer<'_, K>)
    ensures { Puts K.Sink out.old out.new (shape_text sig.now (wildcard shape.now)) }
{
    match shape {
        Shape::Dot => out.put(b"_"),
        Shape::Kind(kind) => out.put_all(&[b"_", kind_name(sig, *kind)]),
        Shape::Plus => out.put(b"__"),
        Shape::Star => out.put(b"___"),
        Shape::Opt(default) => {
            out.put(b"_:");
            put_term(sig, default, out);
        }
        Shape::Counted { least, fixed } => put_count(*least, *fixed, out),
    }
}

/// Puts what stands behind the name of a counted wildcard.
fn put_count<K: Sink>(least: u32, fixed: bool, out: &mut Writer<'_, K>)
    ensures { Puts K.Sink out.old out.new (codes "_" ++ count_text least fixed) }
{
    let mut count = Buffer::new();
    let parts = [
        b"_{".as_slice(),
        count.format(least).as_bytes(),
        text_if(!fixed, b"+"),
        b"}",
    ];
    out.put_all(&parts);
}

/// The name of a kind, and nothing where none is held.
pub fn kind_name(sig: &Signature, kind: KindId) -> &[u8]
    ensures { result.now ≡ kind_name_text sig.now kind.0 }
{
    match sig.kind_name(kind) {
        Some(name) => name.bytes(),
        None => b"",
    }
}
