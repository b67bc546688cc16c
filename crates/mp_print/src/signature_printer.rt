//! Prints the declarations of a signature.

ghost use Rattle.std.specs.Prelude.{◌≡◌, ◌++◌, [], slice_get, unwrap_or, codes};
ghost use Rattle.std.specs.List.{flat_map};
ghost use Rattle.std.specs.Option.{option_map_or};
ghost use Rattle.mp_io.specs.Moments.{sunk};
ghost use Rattle.mp_io.specs.Printing.{Prints};
ghost use Rattle.mp_io.specs.Writing.{Puts};
ghost use Rattle.mp_term.specs.Signature.{kind_names, kind_members};
ghost use Rattle.mp_print.specs.Printing.{text_if, separated};
ghost use Rattle.mp_print.specs.PrintedSignature.{op_text, head_text, kind_text, held_kind_text};
ghost use Rattle.mp_print.specs.PrintedSignature.{signature_text};

use itoa::Buffer;
use mp_io::{Failed, Sink, Writer, put_gap};
use mp_term::{KindId, Name, Names, OpDecl, OpId, Sign, Signature};

/// Appends the declarations of a signature to the sink, the operations and then the declared kinds, each on a line of
/// its own: `signature_text` of `specs/PrintedSignature.antt`. It takes no memory.
///
/// `Failed`: the sink's count of faults rose, and a front of the text was appended.
pub fn write_signature<K: Sink>(sig: &Signature, sink: &mut K) -> Result<(), Failed>
    ensures { Prints (sunk K.Sink sink.old sink.new) (signature_text sig.now) result }
{
    let mut out = Writer::new(sink);
    put_signature(sig, &mut out);
    out.finish()
}

/// Puts the declarations of a signature, as `write_signature` writes them, and flushes the writer behind each line.
pub fn put_signature<K: Sink>(sig: &Signature, out: &mut Writer<'_, K>)
    ensures { Puts K.Sink out.old out.new (signature_text sig.now) }
{
    put_ops(sig, out);
    put_kinds(sig, out);
}

/// Puts the declarations of the operations.
fn put_ops<K: Sink>(sig: &Signature, out: &mut Writer<'_, K>)
    ensures { Puts K.Sink out.old out.new (flat_map op_text sig.now.ops) }
{
    for number in 0..sig.op_count() {
        put_op_of(sig, OpId(number), out);
    }
}

/// Puts the declaration of the operation of a number, and nothing where none is held.
fn put_op_of<K: Sink>(sig: &Signature, id: OpId, out: &mut Writer<'_, K>)
    ensures { Puts K.Sink out.old out.new (option_map_or op_text (slice_get sig.now.ops id.0) []) }
{
    if let Some(decl) = sig.op(id) {
        put_op(decl, out);
    }
}

/// Puts the declaration of an operation, a line.
fn put_op<K: Sink>(decl: &OpDecl, out: &mut Writer<'_, K>)
    ensures { Puts K.Sink out.old out.new (op_text decl.now) }
{
    let mut least = Buffer::new();
    let parts = [
        b"op ".as_slice(),
        decl.name.bytes(),
        b" ",
        least.format(decl.least).as_bytes(),
        text_if(!decl.fixed, b"+"),
        text_if(decl.assoc, b" assoc"),
        text_if(decl.comm, b" comm"),
        text_if(decl.one, b" one"),
        text_if(decl.sign.is_some(), b" infix "),
        sign_bytes(&decl.sign),
        b";\n",
    ];
    out.put_all(&parts);
    out.flush();
}

/// The text, where the test holds, and else none.
pub(crate) fn text_if(test: bool, text: &[u8]) -> &[u8]
    ensures { result.now ≡ text_if test text.now }
{
    if test { text } else { b"" }
}

/// The bytes of a sign, and none where there is no sign.
fn sign_bytes(sign: &Option<Sign>) -> &[u8]
    ensures { result.now ≡ unwrap_or sign.now [] }
{
    match sign {
        Some(sign) => sign.bytes(),
        None => b"",
    }
}

/// Puts the declarations of the kinds that are declared.
fn put_kinds<K: Sink>(sig: &Signature, out: &mut Writer<'_, K>)
    ensures { Puts K.Sink out.old out.new (flat_map kind_text sig.now.kinds) }
{
    for number in 1..sig.kind_count() {
        put_kind_of(sig, KindId(number), out);
    }
}

/// Puts the declaration of the kind of a number, and nothing where none is held.
fn put_kind_of<K: Sink>(sig: &Signature, id: KindId, out: &mut Writer<'_, K>)
    ensures { Puts K.Sink out.old out.new
        (held_kind_text (slice_get (kind_names sig.now) id.0) (slice_get (kind_members sig.now) id.0)) }
{
    if let Some(name) = sig.kind_name(id) {
        if let Some(members) = sig.kind_members(id) {
            put_kind(name, members, out);
        }
    }
}

/// Puts the declaration of a kind, a line.
fn put_kind<K: Sink>(name: &Name, members: &Names, out: &mut Writer<'_, K>)
    ensures { Puts K.Sink out.old out.new (kind_text (record { name = name.now; members = members.now })) }
{
    put_head(b"kind", name.bytes(), out);
    put_names(members, out);
    out.put(b";\n");
    out.flush();
}

/// Puts what a statement of a keyword and a name begins with: `head_text` of `specs/PrintedSignature.antt`.
pub fn put_head<K: Sink>(keyword: &[u8], name: &[u8], out: &mut Writer<'_, K>)
    ensures { Puts K.Sink out.old out.new (head_text keyword.now name.now) }
{
    out.put_all(&[keyword, b" ", name, b": "]);
}

/// Puts the names, with a blank between each two.
fn put_names<K: Sink>(names: &Names, out: &mut Writer<'_, K>)
    ensures { Puts K.Sink out.old out.new (separated (codes " ") names.now) }
{
    for index in 0..names.len() {
        put_gap(index, b" ", out);
        put_name_of(names, index, out);
    }
}

/// Puts the name at an index, and nothing where none is there.
fn put_name_of<K: Sink>(names: &Names, index: usize, out: &mut Writer<'_, K>)
    ensures { Puts K.Sink out.old out.new (unwrap_or (slice_get names.now index) []) }
{
    if let Some(name) = names.get(index) {
        out.put(name.bytes());
    }
}
