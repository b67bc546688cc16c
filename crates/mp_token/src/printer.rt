//! Prints tokens.

ghost use Rattle.std.specs.Prelude.{◌≡◌, ◌<◌, ◌^◌, decimal, [], ◌∷◌, ◌++◌, List, length, slice_get, true, IfSome};
ghost use Rattle.std.specs.List.{AllByRecursion};
ghost use Rattle.std.specs.Option.{option_map_or};
ghost use Rattle.mp_io.specs.Devices.{Text};
ghost use Rattle.mp_io.specs.Moments.{sunk};
ghost use Rattle.mp_io.specs.Printing.{Prints, gap_text};
ghost use Rattle.mp_io.specs.Writing.{Puts};
ghost use Rattle.mp_io.specs.declared.writer.Writer.{Writer};
ghost use Rattle.mp_term.specs.Names.{is_name};
ghost use Rattle.mp_token.specs.Entry.{Entry, IsEntry, IsRank};
ghost use Rattle.mp_token.specs.TokenText.{ranks_text, mark_text, front_text, token_text};
ghost use Rattle.mp_token.specs.TokenText.{next_entry_text};
ghost use Rattle.mp_token.specs.Spelling.{IsSpelling};

use crate::entries::TokenEntries;
use crate::token::Token;
use mp_io::{Failed, Sink, Writer, put_gap, put_number};
use mp_table::Rank;
use mp_term::Name;

/// Appends the text of a token to the sink: `token_text` of `specs/TokenText.antt`, which is the token's one spelling.
/// The token has at least one entry. It takes no memory.
///
/// `Failed`: the sink's count of faults rose, and a front of the text was appended.
pub fn write_token<K: Sink>(token: &Token, sink: &mut K) -> Result<(), Failed>
    requires { 0 < length token.now.entries }
    ensures text { Prints (sunk K.Sink sink.old sink.new) (token_text token.now) result }
    ensures spelt { IsSpelling (token_text token.now) token.now }
{
    let mut out = Writer::new(sink);
    put_token(token, &mut out);
    out.finish()
}

/// Puts the text of a token, as `write_token` writes it. The token has at least one entry.
pub fn put_token<K: Sink>(token: &Token, out: &mut Writer<'_, K>)
    requires { 0 < length token.now.entries }
    ensures puts { Puts K.Sink out.old out.new (token_text token.now) }
    ensures spelt { IsSpelling (token_text token.now) token.now }
{
    put_names(&token.subject, &token.rule, out);
    for index in 0..token.entries.len() {
        put_entry_of(&token.entries, index, out);
    }
}

/// Puts the text with which a token of a subject and a rule begins: the two names, a slash behind each.
pub fn put_names<K: Sink>(subject: &Name, rule: &Name, out: &mut Writer<'_, K>)
    ensures puts { Puts K.Sink out.old out.new (front_text subject.now rule.now []) }
    ensures subject { is_name subject.now ≡ true }
    ensures rule { is_name rule.now ≡ true }
{
    out.put_all(&[subject.bytes(), b"/", rule.bytes(), b"/"]);
}

/// Puts the entry of an index: its ranks, and whether it is collapsed; a semicolon before it where it isn't the first.
/// Called for each entry in order behind `put_names`, it puts the text of a token.
pub fn put_entry<K: Sink>(index: usize, ranks: &[Rank], collapsed: bool, out: &mut Writer<'_, K>)
    ensures puts { Puts K.Sink out.old out.new (next_entry_text index (ranks.now, collapsed)) }
    ensures grows { (start : Writer K) (subject rule : Text) (before : List Entry) → length before ≡ index →
        Puts K.Sink start out.old (front_text subject rule before) →
        Puts K.Sink start out.new (front_text subject rule (before ++ (ranks.now, collapsed) ∷ [])) }
    ensures fit { IsEntry (ranks.now, collapsed) }
{
    put_gap(index, b";", out);
    put_ranks(ranks, out);
    out.put(mark(collapsed));
}

// Puts the entry at an index, and nothing where none is there.
fn put_entry_of<K: Sink>(entries: &TokenEntries, index: usize, out: &mut Writer<'_, K>)
    ensures puts { Puts K.Sink out.old out.new
        (option_map_or (next_entry_text index) (slice_get entries.now index) []) }
    ensures fit { IfSome (slice_get entries.now index) IsEntry }
{
    if let Some((ranks, collapsed)) = entries.get(index) {
        put_entry(index, ranks, collapsed, out);
    }
}

// Puts ranks in decimal, with a comma between each two.
fn put_ranks<K: Sink>(ranks: &[Rank], out: &mut Writer<'_, K>)
    ensures puts { Puts K.Sink out.old out.new (ranks_text ranks.now) }
    ensures fit { AllByRecursion IsRank ranks.now }
{
    for (index, rank) in ranks.iter().enumerate() {
        put_gap(index, b",", out);
        put_rank(*rank, out);
    }
}

// Puts a rank, which is a number of 32 bits.
fn put_rank<K: Sink>(rank: Rank, out: &mut Writer<'_, K>)
    ensures puts { Puts K.Sink out.old out.new (decimal rank.0) }
    ensures fit { IsRank rank }
{
    put_number(rank.0, out);
}

// What stands behind the ranks of an entry.
fn mark(collapsed: bool) -> &'static [u8]
    ensures { result.now ≡ mark_text collapsed }
{
    if collapsed { b"!" } else { b"" }
}
