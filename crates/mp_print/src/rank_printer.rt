//! Prints terms and values by ranks in a table. It takes no memory.

ghost use Rattle.std.specs.Prelude.{◌≡◌, ◌++◌, ◌∷◌, [], IfSome, codes, map, option_map};
ghost use Rattle.mp_io.specs.Moments.{sunk};
ghost use Rattle.mp_io.specs.Printing.{Prints};
ghost use Rattle.mp_io.specs.Writing.{Puts};
ghost use Rattle.mp_term.specs.Signature.{Sig};
ghost use Rattle.mp_term.specs.Size.{node_count};
ghost use Rattle.mp_pattern.specs.Value.{one_form};
ghost use Rattle.mp_table.specs.Table.{term_at};
ghost use Rattle.mp_subst.specs.Bound.{bound_of, value_from, value_in};
ghost use Rattle.mp_print.specs.KeptTexts.{AreKeptTexts, IsWithin, PutsBut, part_of};
ghost use Rattle.mp_print.specs.Printing.{preceded, separated, term_text, value_text};

use crate::tree_printer::{PrintedTree, put_application, put_tree};
use mp_io::{Failed, Sink, Writer};
use mp_pattern::Form;
use mp_subst::Bound;
use mp_table::{Head, Rank, Table};
use mp_term::{OpId, Signature};

/// A part of the bytes of kept texts.
#[derive(Drop, Clone, Copy)]
pub(crate) struct Part {
    pub(crate) from: usize,
    pub(crate) to: usize,
}

/// What ranks are printed by: a table, and the texts that are kept of its terms, one behind another in the order of the
/// ranks, each behind a comma and a blank. The part at a rank is its text, or is empty where none is kept.
#[derive(Drop)]
pub(crate) struct RankBase<'a> {
    pub(crate) table: &'a Table,
    pub(crate) texts: &'a [u8],
    pub(crate) parts: &'a [Part],
}

impl<'a> RankBase<'a> {
    /// The table, of whose terms no text is kept.
    fn plain(table: &'a Table) -> RankBase<'a>
        ensures table { result.table.now ≡ table.now }
        ensures texts { (sig : Sig) → AreKeptTexts sig result.table.now result.texts.now result.parts.now }
    {
        RankBase {
            table,
            texts: &[],
            parts: &[],
        }
    }

    /// Where the text of the term of the rank is kept, behind a comma and a blank, if it is.
    fn kept(&self, rank: Rank) -> Option<Part>
        ensures { IfSome result (λ p. (sig : Sig)
            → AreKeptTexts sig self.now.table.now self.now.texts.now self.now.parts.now
            → IsWithin self.now.texts.now p
            × (part_of self.now.texts.now p ≡ codes ", " ++ term_text sig (term_at self.now.table.now rank))) }
    {
        let part = *self.parts.get(rank.0 as usize)?;
        if part.from < part.to {
            Some(part)
        } else {
            None
        }
    }
}

/// Appends the text of the term of a rank to the sink, behind a comma and a blank.
///
/// `Failed`: the sink's count of faults rose, and a front of the text was appended.
pub(crate) fn write_next<K: Sink>(
    sig: &Signature,
    table: &Table,
    rank: Rank,
    sink: &mut K,
) -> Result<(), Failed>
    ensures { Prints (sunk K.Sink sink.old sink.new)
        (codes ", " ++ term_text sig.now (term_at table.now rank)) result }
{
    let mut out = Writer::new(sink);
    put_next(sig, &RankBase::plain(table), rank, &mut out);
    out.finish()
}

/// Puts the text of the term of a rank, as `put_term` puts that of a term. A rank that the table doesn't have has no
/// text.
pub fn put_rank<K: Sink>(sig: &Signature, table: &Table, rank: Rank, out: &mut Writer<'_, K>)
    ensures { Puts K.Sink out.old out.new (term_text sig.now (term_at table.now rank)) }
{
    put_tree(sig, &RankBase::plain(table), &rank, out);
}

impl<'a> PrintedTree<RankBase<'a>> for Rank {
    ghost text = { λ sig b r. term_text sig (term_at b.table.now r) };

    ghost size = { λ b r. node_count (term_at b.table.now r) };

    ghost may_print = { λ sig b. AreKeptTexts sig b.table.now b.texts.now b.parts.now };

    fn put_leaf<'t, K: Sink>(
        &'t self,
        sig: &Signature,
        base: &'t RankBase<'a>,
        out: &mut Writer<'_, K>,
    ) -> Option<(OpId, &'t [Rank])> {
        if let Some(part) = base.kept(*self) {
            out.put(&base.texts[part.from + 2..part.to]);
            return None;
        }
        if self.0 >= base.table.len() {
            return None;
        }
        match base.table.head(*self) {
            Head::Sym(name) => {
                out.put(name.bytes());
                None
            }
            Head::App(op) => Some((op, base.table.args(*self))),
        }
    }
}

/// Puts the text of the value that a bound stands for (`value_in` of mp_subst's `specs/Bound.antt`), as `put_subst`
/// puts that of a value.
pub fn put_bound<K: Sink>(
    sig: &Signature,
    table: &Table,
    bound: &Bound<'_>,
    out: &mut Writer<'_, K>,
)
    ensures { Puts K.Sink out.old out.new (value_text sig.now (value_in table.now (bound_of bound.now))) }
{
    put_bound_by(sig, &RankBase::plain(table), bound, out);
}

/// The same, by the texts that are kept.
pub(crate) fn put_bound_by<K: Sink>(
    sig: &Signature,
    base: &RankBase<'_>,
    bound: &Bound<'_>,
    out: &mut Writer<'_, K>,
)
    requires { AreKeptTexts sig.now base.now.table.now base.now.texts.now base.now.parts.now }
    ensures { Puts K.Sink out.old out.new (value_text sig.now (value_in base.now.table.now (bound_of bound.now))) }
{
    match bound.form {
        Form::One => put_single(sig, base, bound.wrap, bound.ranks, out),
        Form::Seq => put_list(sig, base, b'(', bound.ranks, b')', out),
        Form::Bag => put_list(sig, base, b'{', bound.ranks, b'}', out),
    }
}

/// Puts the term of the rank, or that of the operation that is applied to the terms of the ranks.
fn put_single<K: Sink>(
    sig: &Signature,
    base: &RankBase<'_>,
    wrap: Option<OpId>,
    ranks: &[Rank],
    out: &mut Writer<'_, K>,
)
    requires { AreKeptTexts sig.now base.now.table.now base.now.texts.now base.now.parts.now }
    ensures { Puts K.Sink out.old out.new
        (value_text sig.now (value_from base.now.table.now one_form (option_map (λ f. f.0) wrap) ranks.now)) }
{
    match wrap {
        Some(op) => put_application(sig, base, op, ranks, out),
        None => {
            if let Some(rank) = ranks.first() {
                put_tree(sig, base, rank, out);
            }
        }
    }
}

/// Puts the texts of the terms of ranks between an opening and a closing, with a comma between each two.
fn put_list<K: Sink>(
    sig: &Signature,
    base: &RankBase<'_>,
    opening: u8,
    ranks: &[Rank],
    closing: u8,
    out: &mut Writer<'_, K>,
)
    requires { AreKeptTexts sig.now base.now.table.now base.now.texts.now base.now.parts.now }
    ensures { Puts K.Sink out.old out.new (opening ∷ (separated (codes ", ")
        (map (λ r. term_text sig.now (term_at base.now.table.now r)) ranks.now) ++ closing ∷ [])) }
{
    out.put_byte(opening);
    put_ranks(sig, base, ranks, out);
    out.put_byte(closing);
}

/// Puts the texts of the terms of ranks, with a comma between each two.
fn put_ranks<K: Sink>(sig: &Signature, base: &RankBase<'_>, ranks: &[Rank], out: &mut Writer<'_, K>)
    requires { AreKeptTexts sig.now base.now.table.now base.now.texts.now base.now.parts.now }
    ensures { Puts K.Sink out.old out.new (separated (codes ", ")
        (map (λ r. term_text sig.now (term_at base.now.table.now r)) ranks.now)) }
{
    if let [first, rest @ ..] = ranks {
        let run = put_first(sig, base, first, out);
        put_all_next(sig, base, run, rest, out);
    }
}

/// Puts the text of the term of a rank, or answers its part of the kept texts.
fn put_first<K: Sink>(
    sig: &Signature,
    base: &RankBase<'_>,
    rank: &Rank,
    out: &mut Writer<'_, K>,
) -> Part
    requires { AreKeptTexts sig.now base.now.table.now base.now.texts.now base.now.parts.now }
    ensures within { IsWithin base.now.texts.now result }
    ensures puts { PutsBut K.Sink out.old out.new (term_text sig.now (term_at base.now.table.now rank.now))
        (part_of base.now.texts.now result) }
{
    match base.kept(*rank) {
        Some(part) => Part {
            from: part.from + 2,
            to: part.to,
        },
        None => {
            put_tree(sig, base, rank, out);
            Part { from: 0, to: 0 }
        }
    }
}

/// Puts a part of the kept texts, and behind it the texts of the terms of ranks, each behind a comma and a blank. What
/// stands side by side in the kept texts is put at once.
fn put_all_next<K: Sink>(
    sig: &Signature,
    base: &RankBase<'_>,
    first: Part,
    ranks: &[Rank],
    out: &mut Writer<'_, K>,
)
    requires kept { AreKeptTexts sig.now base.now.table.now base.now.texts.now base.now.parts.now }
    requires within { IsWithin base.now.texts.now first }
    ensures { Puts K.Sink out.old out.new (part_of base.now.texts.now first ++ preceded (codes ", ")
        (map (λ r. term_text sig.now (term_at base.now.table.now r)) ranks.now)) }
{
    let mut run = first;
    for rank in ranks {
        run = put_next_to(sig, base, run, *rank, out);
    }
    put_part(base, run, out);
}

/// Puts a part of the kept texts and the text of the term of a rank behind a comma and a blank, but for an end of these
/// that is a part of the kept texts, which it answers.
fn put_next_to<K: Sink>(
    sig: &Signature,
    base: &RankBase<'_>,
    run: Part,
    rank: Rank,
    out: &mut Writer<'_, K>,
) -> Part
    requires kept { AreKeptTexts sig.now base.now.table.now base.now.texts.now base.now.parts.now }
    requires within { IsWithin base.now.texts.now run }
    ensures within { IsWithin base.now.texts.now result }
    ensures puts { PutsBut K.Sink out.old out.new
        (part_of base.now.texts.now run ++ (codes ", " ++ term_text sig.now (term_at base.now.table.now rank)))
        (part_of base.now.texts.now result) }
{
    match base.kept(rank) {
        Some(part) if part.from == run.to => Part {
            from: run.from,
            to: part.to,
        },
        Some(part) => {
            put_part(base, run, out);
            part
        }
        None => {
            put_part(base, run, out);
            put_next(sig, base, rank, out);
            Part {
                from: run.to,
                to: run.to,
            }
        }
    }
}

/// Puts a part of the kept texts.
fn put_part<K: Sink>(base: &RankBase<'_>, part: Part, out: &mut Writer<'_, K>)
    requires { IsWithin base.now.texts.now part }
    ensures { Puts K.Sink out.old out.new (part_of base.now.texts.now part) }
{
    if part.from < part.to {
        out.put(&base.texts[part.from..part.to]);
    }
}

/// Puts the text of the term of a rank behind a comma and a blank.
fn put_next<K: Sink>(sig: &Signature, base: &RankBase<'_>, rank: Rank, out: &mut Writer<'_, K>)
    requires { AreKeptTexts sig.now base.now.table.now base.now.texts.now base.now.parts.now }
    ensures { Puts K.Sink out.old out.new (codes ", " ++ term_text sig.now (term_at base.now.table.now rank)) }
{
    out.put(b", ");
    put_tree(sig, base, &rank, out);
}
