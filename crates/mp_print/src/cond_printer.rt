//! Prints conditions.

ghost use Rattle.std.specs.Prelude.{◌≡◌, ◌++◌, map, codes};
ghost use Rattle.mp_io.specs.Moments.{sunk};
ghost use Rattle.mp_io.specs.Printing.{Prints};
ghost use Rattle.mp_io.specs.Writing.{Puts};
ghost use Rattle.mp_pattern.specs.CondTree.{conds};
ghost use Rattle.mp_pattern.specs.CondView.{operand, amount, cond_tree};
ghost use Rattle.mp_print.specs.Printing.{separated};
ghost use Rattle.mp_print.specs.PrintedCond.{sense_text, measure_text, relation_text, operand_text, amount_text};
ghost use Rattle.mp_print.specs.PrintedCond.{comparison_text, op_name_text, tightness, part_text, part_texts};
ghost use Rattle.mp_print.specs.PrintedCond.{cond_text};

use crate::pattern_printer::kind_name;
use crate::printer::put_term;
use itoa::Buffer;
use mp_io::{Failed, Sink, Writer, put_gap};
use mp_pattern::{Amount, Cond, Operand, Sense};
use mp_term::{OpId, Signature};

/// Appends the text of a condition to the sink: `cond_text` of `specs/PrintedCond.antt`. It takes no memory.
///
/// Square brackets stand round a disjunction that is a part of a condition, round a conjunction that is a part of a
/// conjunction or of a negation, and round a negation that is the part of a negation. An operation and a kind that the
/// signature doesn't hold have no text.
///
/// `Failed`: the sink's count of faults rose, and a front of the text was appended.
pub fn write_cond<K: Sink>(sig: &Signature, cond: &Cond, sink: &mut K) -> Result<(), Failed>
    ensures { Prints (sunk K.Sink sink.old sink.new) (cond_text sig.now (cond_tree cond.now)) result }
{
    let mut out = Writer::new(sink);
    put_cond(sig, cond, &mut out);
    out.finish()
}

/// Puts the text of a condition, as `write_cond` writes it.
#[cycle(put_cond)]
pub fn put_cond<K: Sink>(sig: &Signature, cond: &Cond, out: &mut Writer<'_, K>)
    ensures { Puts K.Sink out.old out.new (cond_text sig.now (cond_tree cond.now)) }
{
    match cond {
        Cond::Amounts(m, by, n) => put_comparison(sig, m, *by, n, out),
        Cond::Same(a, b) => put_relation(sig, b"same", a, b, out),
        Cond::Less(a, b) => put_relation(sig, b"less", a, b, out),
        Cond::Free(a, b) => put_relation(sig, b"free", a, b, out),
        Cond::OfKind(a, kind) => put_property(sig, b"kind", a, kind_name(sig, *kind), out),
        Cond::Headed(a, op) => put_property(sig, b"head", a, op_name(sig, *op), out),
        Cond::Not(part) => {
            out.put(b"not ");
            put_part(sig, 3, part.get(), out);
        }
        Cond::All(parts) => put_parts(sig, b" and ", 2, parts.as_slice(), out),
        Cond::Any(parts) => put_parts(sig, b" or ", 1, parts.as_slice(), out),
    }
}

/// Puts the parts, with the separator between each two.
#[cycle(put_cond)]
fn put_parts<K: Sink>(
    sig: &Signature,
    separator: &[u8],
    least: u8,
    parts: &[Cond],
    out: &mut Writer<'_, K>,
)
    ensures { Puts K.Sink out.old out.new
        (separated separator.now (part_texts sig.now least (conds (map cond_tree parts.now)))) }
{
    for (index, part) in parts.iter().enumerate() {
        put_gap(index, separator, out);
        put_part(sig, least, part, out);
    }
}

/// Puts a part, in square brackets where it holds together less tightly than is asked.
#[cycle(put_cond)]
fn put_part<K: Sink>(sig: &Signature, least: u8, part: &Cond, out: &mut Writer<'_, K>)
    ensures { Puts K.Sink out.old out.new
        (part_text least (cond_tree part.now) (cond_text sig.now (cond_tree part.now))) }
{
    if tightness(part) >= least {
        put_cond(sig, part, out);
        return;
    }
    out.put(b"[");
    put_cond(sig, part, out);
    out.put(b"]");
}

/// How tightly the parts of a condition hold together.
fn tightness(cond: &Cond) -> u8
    ensures { result ≡ tightness (cond_tree cond.now) }
{
    match cond {
        Cond::Any(_) => 0,
        Cond::All(_) => 1,
        Cond::Not(_) => 2,
        _ => 3,
    }
}

/// Puts a relation of two operands.
fn put_relation<K: Sink>(
    sig: &Signature,
    word: &[u8],
    a: &Operand,
    b: &Operand,
    out: &mut Writer<'_, K>,
)
    ensures { Puts K.Sink out.old out.new
        (relation_text word.now (operand_text sig.now (operand a.now)) (operand_text sig.now (operand b.now))) }
{
    put_opening(sig, word, a, out);
    out.put(b", ");
    put_operand(sig, b, out);
    out.put(b")");
}

/// Puts a property of an operand: that of a name.
fn put_property<K: Sink>(
    sig: &Signature,
    word: &[u8],
    a: &Operand,
    name: &[u8],
    out: &mut Writer<'_, K>,
)
    ensures { Puts K.Sink out.old out.new (relation_text word.now (operand_text sig.now (operand a.now)) name.now) }
{
    put_opening(sig, word, a, out);
    out.put_all(&[b", ".as_slice(), name, b")"]);
}

/// Puts the comparison of two numbers.
fn put_comparison<K: Sink>(
    sig: &Signature,
    m: &Amount,
    by: Sense,
    n: &Amount,
    out: &mut Writer<'_, K>,
)
    ensures { Puts K.Sink out.old out.new (comparison_text sig.now (amount m.now) by (amount n.now)) }
{
    put_amount(sig, m, out);
    out.put_all(&[b" ".as_slice(), sense_sign(by), b" "]);
    put_amount(sig, n, out);
}

/// Puts a number, or what counts it.
fn put_amount<K: Sink>(sig: &Signature, m: &Amount, out: &mut Writer<'_, K>)
    ensures { Puts K.Sink out.old out.new (amount_text sig.now (amount m.now)) }
{
    match m {
        Amount::Fixed(number) => out.put(Buffer::new().format(*number).as_bytes()),
        Amount::Count(a) => put_measure(sig, b"count", a, out),
        Amount::Size(a) => put_measure(sig, b"size", a, out),
    }
}

/// Puts a measure of an operand.
fn put_measure<K: Sink>(sig: &Signature, word: &[u8], a: &Operand, out: &mut Writer<'_, K>)
    ensures { Puts K.Sink out.old out.new (measure_text word.now (operand_text sig.now (operand a.now))) }
{
    put_opening(sig, word, a, out);
    out.put(b")");
}

/// Puts a word, a round bracket and an operand.
fn put_opening<K: Sink>(sig: &Signature, word: &[u8], a: &Operand, out: &mut Writer<'_, K>)
    ensures { Puts K.Sink out.old out.new (word.now ++ (codes "(" ++ operand_text sig.now (operand a.now))) }
{
    out.put(word);
    out.put(b"(");
    put_operand(sig, a, out);
}

/// Puts an operand.
fn put_operand<K: Sink>(sig: &Signature, a: &Operand, out: &mut Writer<'_, K>)
    ensures { Puts K.Sink out.old out.new (operand_text sig.now (operand a.now)) }
{
    match a {
        Operand::Var(name) => out.put_all(&[b"$".as_slice(), name.bytes()]),
        Operand::Ground(term) => put_term(sig, term, out),
    }
}

/// The sign of a comparison.
fn sense_sign(by: Sense) -> &'static [u8]
    ensures { result.now ≡ sense_text by }
{
    match by {
        Sense::Lt => b"<",
        Sense::Le => b"<=",
        Sense::Gt => b">",
        Sense::Ge => b">=",
        Sense::Eq => b"==",
        Sense::Ne => b"!=",
    }
}

/// The name of an operation, and nothing where none is held.
pub fn op_name(sig: &Signature, op: OpId) -> &[u8]
    ensures { result.now ≡ op_name_text sig.now op.0 }
{
    match sig.op(op) {
        Some(decl) => decl.name.bytes(),
        None => b"",
    }
}
