//! Prints trees of operations and their arguments, whatever their leaves are.

ghost use Rattle.std.specs.Prelude.{◌≡◌, ◌<◌, ◌++◌, ℕ, List, [], length, map, slice_get, sum_by, MatchOption, ⊤, codes};
ghost use Rattle.mp_io.specs.Writing.{Puts};
ghost use Rattle.mp_io.specs.Printing.{gap_text};
ghost use Rattle.mp_term.specs.Signature.{Sig};
ghost use Rattle.mp_print.specs.Printing.{front_text, held_text, separated, separator_text};

use mp_io::{Sink, Writer, put_gap};
use mp_term::{OpDecl, OpId, Sign, Signature};

/// A tree that is printed: a leaf, or an operation with its arguments. `B` is what it stands on: a rank stands for a
/// tree in a table, and a tree of another kind stands on nothing, which is `()`.
pub(crate) trait PrintedTree<B> {
    /// The text of a tree.
    ghost text: { Sig → B → Self → List ℕ };

    /// A number that is smaller for the arguments of a tree, and for all of them together.
    ghost size: { B → Self → ℕ };

    /// Trees may be printed over this signature and this base.
    ghost may_print: { Sig → B → Type 0 };

    /// Puts the text of a leaf, or puts nothing and answers the operation and its arguments.
    fn put_leaf<'t, K: Sink>(
        &'t self,
        sig: &Signature,
        base: &'t B,
        out: &mut Writer<'_, K>,
    ) -> Option<(OpId, &'t [Self])>
        requires { may_print sig.now base.now }
        ensures puts { MatchOption result (Puts K.Sink out.old out.new (text sig.now base.now self.now))
            (λ a. Puts K.Sink out.old out.new []) }
        ensures text { MatchOption result ⊤ (λ a. text sig.now base.now self.now
            ≡ held_text (slice_get sig.now.ops a.0.0) (map (text sig.now base.now) a.1.now)) }
        ensures smaller { MatchOption result ⊤ (λ a. sum_by (size base.now) a.1.now < size base.now self.now) };
}

/// Puts the text of a tree. An operation that the signature doesn't hold has none.
#[cycle(put_tree)]
pub(crate) fn put_tree<B, T: PrintedTree<B>, K: Sink>(
    sig: &Signature,
    base: &B,
    tree: &T,
    out: &mut Writer<'_, K>,
)
    requires { T.may_print sig.now base.now }
    ensures { Puts K.Sink out.old out.new (T.text sig.now base.now tree.now) }
{
    if let Some((op, args)) = tree.put_leaf(sig, base, out) {
        put_application(sig, base, op, args, out);
    }
}

/// Puts the text of an operation that is applied to trees. One that the signature doesn't hold has none.
#[cycle(put_tree)]
pub(crate) fn put_application<B, T: PrintedTree<B>, K: Sink>(
    sig: &Signature,
    base: &B,
    op: OpId,
    args: &[T],
    out: &mut Writer<'_, K>,
)
    requires { T.may_print sig.now base.now }
    ensures { Puts K.Sink out.old out.new
        (held_text (slice_get sig.now.ops op.0) (map (T.text sig.now base.now) args.now)) }
{
    if let Some(decl) = sig.op(op) {
        put_front(decl, args.len(), out);
        put_between(sig, base, &decl.sign, args, out);
        out.put_byte(b')');
    }
}

/// Puts the texts of trees, with what stands between each two arguments of an operation with this sign.
#[cycle(put_tree)]
fn put_between<B, T: PrintedTree<B>, K: Sink>(
    sig: &Signature,
    base: &B,
    sign: &Option<Sign>,
    trees: &[T],
    out: &mut Writer<'_, K>,
)
    requires { T.may_print sig.now base.now }
    ensures { Puts K.Sink out.old out.new
        (separated (separator_text sign.now (length trees.now)) (map (T.text sig.now base.now) trees.now)) }
{
    for (index, tree) in trees.iter().enumerate() {
        put_argument_gap(index, sign, trees.len(), out);
        put_tree(sig, base, tree, out);
    }
}

/// Puts the texts of trees between an opening and a closing, with a comma between each two.
pub(crate) fn put_enclosed<B, T: PrintedTree<B>, K: Sink>(
    sig: &Signature,
    base: &B,
    opening: &[u8],
    trees: &[T],
    closing: &[u8],
    out: &mut Writer<'_, K>,
)
    requires { T.may_print sig.now base.now }
    ensures { Puts K.Sink out.old out.new
        (opening.now ++ (separated (codes ", ") (map (T.text sig.now base.now) trees.now) ++ closing.now)) }
{
    out.put(opening);
    put_between(sig, base, &None, trees, out);
    out.put(closing);
}

/// Puts what stands before so many arguments.
fn put_front<K: Sink>(decl: &OpDecl, count: usize, out: &mut Writer<'_, K>)
    ensures { Puts K.Sink out.old out.new (front_text decl.now decl.now.sign count) }
{
    match &decl.sign {
        Some(_) if count >= 2 => {}
        _ => out.put(decl.name.bytes()),
    }
    out.put_byte(b'(');
}

/// Puts what stands before the argument of that index, of so many.
fn put_argument_gap<K: Sink>(
    index: usize,
    sign: &Option<Sign>,
    count: usize,
    out: &mut Writer<'_, K>,
)
    ensures { Puts K.Sink out.old out.new (gap_text (separator_text sign.now count) index) }
{
    if index > 0 {
        put_separator(sign, count, out);
    }
}

/// Puts what stands between each two of so many arguments.
fn put_separator<K: Sink>(sign: &Option<Sign>, count: usize, out: &mut Writer<'_, K>)
    ensures { Puts K.Sink out.old out.new (separator_text sign.now count) }
{
    match sign {
        Some(sign) if count >= 2 => put_spaced(sign, out),
        _ => {
            out.put_byte(b',');
            out.put_byte(b' ');
        }
    }
}

/// Puts a sign between two blanks.
fn put_spaced<K: Sink>(sign: &Sign, out: &mut Writer<'_, K>)
    ensures { Puts K.Sink out.old out.new (codes " " ++ (sign.now ++ (codes " " ++ []))) }
{
    out.put_byte(b' ');
    out.put(sign.bytes());
    out.put_byte(b' ');
}
