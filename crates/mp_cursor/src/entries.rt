//! What the nodes take as the entries of a token: kept, and as a text.
ghost use Rattle.std.specs.Prelude.{◌≡◌, IfOk, map};
ghost use Rattle.mp_io.specs.Writing.{Puts};
ghost use Rattle.mp_search.specs.Levels.{take_of};
ghost use Rattle.mp_token.specs.TokenText.{front_text};

use mp_io::{Sink, Writer};
use mp_search::Level;
use mp_term::{Memory, Name};
use mp_token::{TokenEntries, put_entry, put_names};
use std::alloc::Global;

// What the nodes take, kept as entries.
pub(crate) fn take_entries(alloc: Global, levels: &[Level]) -> Result<TokenEntries, Memory>
    ensures { IfOk result (λ es. es ≡ map take_of levels.now) }
{
    let mut entries = TokenEntries::new(alloc);
    for level in levels {
        entries.push(level.take.as_slice(), level.collapsed)?;
    }
    Ok(entries)
}

// Puts the text of the token with these names, whose entries are what the nodes take.
pub(crate) fn put_takes_text<K: Sink>(
    subject: &Name,
    rule: &Name,
    levels: &[Level],
    out: &mut Writer<'_, K>,
)
    ensures { Puts K.Sink out.old out.new (front_text subject.now rule.now (map take_of levels.now)) }
{
    put_names(subject, rule, out);
    for (index, level) in levels.iter().enumerate() {
        put_entry(index, level.take.as_slice(), level.collapsed, out);
    }
}
