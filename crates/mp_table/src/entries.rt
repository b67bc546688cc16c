//! The entries of a table.
ghost use Rattle.std.specs.Prelude.{◌≡◌, ◌<◌, List, map, length, take, drop, IfOk, OnOk, slice_index_or, []};
ghost use Rattle.std.specs.List.{AllByRecursion};
ghost use Rattle.mp_term.specs.Tree.{Tree, symbol};
ghost use Rattle.mp_term.specs.View.{tree};
ghost use Rattle.mp_table.specs.Subterms.{arguments};
ghost use Rattle.mp_table.specs.Reading.{with_head, IsEntryOf, AreEntries};
ghost use Rattle.mp_table.specs.Pieces.{piece_terms, ArePieces, AreRanks};
ghost use Rattle.mp_table.specs.Text.{IsText, shown, ranks};

use crate::entry::{Entry, OwnHead};
use crate::node::Node;
use crate::piece::Piece;
use crate::rank::Rank;
use mp_term::{Memory, Term};
use std::alloc::Global;

// The entries of a table, and the ranks of the arguments of all of them.
#[derive(Drop)]
pub(crate) struct Entries {
    pub(crate) entries: Vec<Entry>,
    pub(crate) args: Vec<Rank>,
}

// A copy of the term's head.
fn head_of(alloc: Global, term: &Term) -> Result<OwnHead, Memory>
    ensures { IfOk result (λ h. with_head h (arguments (tree term.now)) ≡ tree term.now) }
{
    match term {
        Term::Sym(name) => Ok(OwnHead::Sym(name.copy(alloc)?)),
        Term::App(op, _) => Ok(OwnHead::App(*op)),
    }
}

// Adds the ranks of the arguments of the subterm at a place.
fn push_ranks(args: &mut Vec<Rank>, text: &[Node<'_>], start: usize) -> Result<(), Memory>
    requires text { IsText text.now }
    requires start { start < length text.now }
    ensures kept { OnOk result (take (length args.old.items) args.new.items ≡ args.old.items) }
    ensures terms { OnOk result ((us : List Tree) → AreRanks (shown text.now) us (ranks text.now) →
        map (λ r. slice_index_or us r.0 (symbol [])) (drop (length args.old.items) args.new.items)
        ≡ arguments (slice_index_or (shown text.now) start (symbol []))) }
    ensures within { OnOk result ((us : List Tree) → AreRanks (shown text.now) us (ranks text.now) →
        AllByRecursion (λ r. r.0 < length us) (drop (length args.old.items) args.new.items)) }
{
    let end = start + text[start].nodes as usize;
    let mut next = start + 1;
    while next < end {
        args.push(Rank(text[next].rank))?;
        next += text[next].nodes as usize;
    }
    Ok(())
}

// The entry of the subterm at a place, the ranks of whose arguments are added.
fn entry_of(
    alloc: Global,
    args: &mut Vec<Rank>,
    text: &[Node<'_>],
    start: usize,
) -> Result<Entry, Memory>
    requires text { IsText text.now }
    requires start { start < length text.now }
    ensures kept { OnOk result (take (length args.old.items) args.new.items ≡ args.old.items) }
    ensures entry { IfOk result (λ e. (us : List Tree) → AreRanks (shown text.now) us (ranks text.now) →
        IsEntryOf args.new.items us (slice_index_or (shown text.now) start (symbol [])) e) }
{
    let from = args.len();
    push_ranks(args, text, start)?;
    let end = args.len();
    let nodes = u64::from(text[start].nodes);
    let head = head_of(alloc, text[start].term)?;
    Ok(Entry {
        head,
        from,
        end,
        nodes,
    })
}

// The entries of the subterms at the pieces, with the ranks of all their arguments.
pub(crate) fn entries_of(
    alloc: Global,
    text: &[Node<'_>],
    pieces: &[Piece<'_>],
) -> Result<Entries, Memory>
    requires text { IsText text.now }
    requires pieces { ArePieces (shown text.now) pieces.now }
    requires ranks { AreRanks (shown text.now) (piece_terms pieces.now) (ranks text.now) }
    ensures { IfOk result (λ e. AreEntries e.args.items e.entries.items (piece_terms pieces.now)) }
{
    let mut entries = Vec::with_capacity(alloc, pieces.len())?;
    let mut args = Vec::with_capacity(alloc, text.len())?;
    for piece in pieces {
        entries.push(entry_of(alloc, &mut args, text, piece.start)?)?;
    }
    Ok(Entries { entries, args })
}
