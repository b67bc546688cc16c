//! The texts of the small terms of a table, each written once.

ghost use Rattle.std.specs.Prelude.{◌≡◌, ◌<◌, ◌++◌, ℕ, List, IfOk, codes, length};
ghost use Rattle.mp_io.specs.Writing.{Puts};
ghost use Rattle.mp_subst.specs.Bound.{bound_of, value_in};
ghost use Rattle.mp_table.specs.Table.{term_at, HasRank};
ghost use Rattle.mp_print.specs.Printing.{term_text, value_text};

use crate::rank_printer::{Part, RankBase, put_bound_by, write_next};
use crate::text_sink::TextSink;
use mp_io::{Sink, Writer};
use mp_subst::Bound;
use mp_table::{Head, Rank, Table};
use mp_term::{Memory, Signature};
use std::alloc::Global;
use std::marker::Model;

// A term of more nodes has no text of its own here, so that the room for the texts stays linear in the table.
const SMALL: u64 = 16;

/// A signature and a table, with the texts of the small terms of the table, one behind another, and the part of each
/// rank: values by ranks in it are printed by copies of these. Contracts see it as the record `RankTexts` of
/// `specs/KeptTexts.antt`: the signature and the table.
#[derive(Drop)]
pub struct RankTexts<'a> {
    sig: &'a Signature,
    table: &'a Table,
    texts: Vec<u8>,
    parts: Vec<Part>,
}

impl<'a> Model for RankTexts<'a> {
    ghost use Rattle.mp_print.specs.KeptTexts as plain;
    ghost use Rattle.mp_print.specs.KeptTexts.{AreKeptTexts, coded_rank_texts};

    ghost Value = { plain.RankTexts };

    ghost coded = { coded_rank_texts };

    ghost view = { λ r. record { sig = r.sig.now; table = r.table.now } };

    ghost invariant = { λ r. AreKeptTexts r.sig.now r.table.now r.texts.items r.parts.items };
}

// Appends the text of the term of a rank behind a comma and a blank, and nothing where the term isn't small.
fn write_small(
    sig: &Signature,
    table: &Table,
    rank: Rank,
    text: &mut TextSink,
) -> Result<(), Memory>
    requires { HasRank table.now rank }
    ensures { IfOk result (λ _. (added : List ℕ) × (text.new.bytes.items ≡ text.old.bytes.items ++ added)
        × (0 < length added → added ≡ codes ", " ++ term_text sig.now (term_at table.now rank))) }
{
    if let Head::Sym(name) = table.head(rank) {
        text.bytes.extend_from_slice(b", ")?;
        text.bytes.extend_from_slice(name.bytes())?;
    } else if table.nodes(rank) <= SMALL && write_next(sig, table, rank, text).is_err() {
        return Err(Memory);
    }
    Ok(())
}

impl<'a> RankTexts<'a> {
    /// The table over the signature, where no text is written beforehand. It takes no memory.
    pub fn plain(alloc: Global, sig: &'a Signature, table: &'a Table) -> RankTexts<'a>
        ensures sig { result.sig ≡ sig.now }
        ensures table { result.table ≡ table.now }
    {
        RankTexts {
            sig,
            table,
            texts: Vec::new(alloc),
            parts: Vec::new(alloc),
        }
    }

    /// The table over the signature, with the texts of its small terms. `Memory` comes where there is no room for
    /// them.
    pub fn build(
        alloc: Global,
        sig: &'a Signature,
        table: &'a Table,
    ) -> Result<RankTexts<'a>, Memory>
        ensures sig { IfOk result (λ r. r.sig ≡ sig.now) }
        ensures table { IfOk result (λ r. r.table ≡ table.now) }
    {
        let mut text = TextSink::new(alloc);
        let mut parts = Vec::with_capacity(alloc, table.len() as usize)?;
        for rank in 0..table.len() {
            let from = text.bytes.len();
            write_small(sig, table, Rank(rank), &mut text)?;
            let to = text.bytes.len();
            parts.push(Part { from, to })?;
        }
        Ok(RankTexts {
            sig,
            table,
            texts: text.bytes,
            parts,
        })
    }

    /// Puts the text of the value that a bound stands for, as `put_bound` puts it.
    pub fn put_bound<K: Sink>(&self, bound: &Bound<'_>, out: &mut Writer<'_, K>)
        ensures { Puts K.Sink out.old out.new
            (value_text self.now.sig (value_in self.now.table (bound_of bound.now))) }
    {
        let base = RankBase {
            table: self.table,
            texts: &self.texts,
            parts: &self.parts,
        };
        put_bound_by(self.sig, &base, bound, out);
    }
}
