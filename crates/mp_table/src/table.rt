//! Tables of terms.
ghost use Rattle.std.specs.Prelude.{◌≡◌, ◌≤◌, ◌<◌, ◌^◌, [], ◌∷◌, map, length, IfOk, Some, slice_get};
ghost use Rattle.std.specs.Prelude.{slice_index_or, List};
ghost use Rattle.std.specs.List.{AllByRecursion};
ghost use Rattle.mp_term.specs.Tree.{symbol};
ghost use Rattle.mp_term.specs.View.{tree};
ghost use Rattle.mp_term.specs.Normal.{IsNormal};
ghost use Rattle.mp_term.specs.Size.{node_count, all_nodes};
ghost use Rattle.mp_table.specs.Subterms.{arguments};
ghost use Rattle.mp_table.specs.Table.{term_at, terms_at, HasRank, HasRanks, IsTable, IsTableOf};
ghost use Rattle.mp_table.specs.Reading.{IsHeadOf};
ghost use Rattle.mp_table.specs.Pieces.{piece_terms, ArePieces};
ghost use Rattle.mp_table.specs.declared.piece.Piece.{Piece};
ghost use Rattle.mp_table.specs.declared.table.TheConstants.{FEW};
ghost use Rattle.mp_table.specs.Text.{shown, AreUnranked, IsText};

use crate::entries::entries_of;
use crate::entry::{Entry, OwnHead};
use crate::limits::MAX_CONSTANT_NODES;
use crate::node::Node;
use crate::piece::Piece;
use crate::pieces::{few_pieces, many_pieces, tell_ranks};
use crate::preorder::collect;
use crate::rank::{Head, Rank};
use mp_term::{MAX_TERM_NODES, Memory, Signature, Term, Terms};
use std::alloc::Global;
use std::marker::Model;
use std::slice;

// The pieces of so few places are put in one by one.
const FEW: usize = 40;

/// The distinct subterms of a subject and of constants, ranked from 0 in the term order. Contracts see it as the record
/// `Table` of `specs/Table.antt`, which holds the ascending list of these terms and the subject's rank. `IsTable` says
/// what holds of each.
#[derive(Drop)]
pub struct Table {
    entries: Vec<Entry>,
    args: Vec<Rank>,
    root: Rank,
}

impl Model for Table {
    ghost use Rattle.std.specs.Prelude.{◌<◌, ◌^◌, length};
    ghost use Rattle.std.specs.List.Sorted.{IsStrictlySortedBy};
    ghost use Rattle.mp_term.specs.Order.{tree_cmp};
    ghost use Rattle.mp_table.specs.Table as plain;
    ghost use Rattle.mp_table.specs.TableCode.{coded_table};

    ghost Value = { plain.Table };

    ghost coded = { coded_table };

    ghost use Rattle.mp_table.specs.Reading.{entry_trees, AreEntries};

    ghost view = { λ t. record { terms = entry_trees t.args.items t.entries.items; root = t.root.0 } };

    ghost invariant = { λ t.
        AreEntries t.args.items t.entries.items (entry_trees t.args.items t.entries.items)
        × IsStrictlySortedBy tree_cmp (entry_trees t.args.items t.entries.items)
        × (length t.entries.items < 2 ^ 32)
        × (t.root.0 < length t.entries.items) };
}

impl Table {
    /// The table of the subterms of a subject and of constants (`IsTableOf` of `specs/Table.antt`). All of them must be
    /// normal over the signature, and so is then each term of the table. The subject must have at most
    /// `MAX_TERM_NODES` nodes, and the constants at most `MAX_CONSTANT_NODES` together.
    ///
    /// `Memory` comes where there is no room for the table.
    pub fn build(
        alloc: Global,
        sig: &Signature,
        subject: &Term,
        constants: &Terms,
    ) -> Result<Table, Memory>
        requires subject_nodes { node_count (tree subject.now) ≤ MAX_TERM_NODES }
        requires constant_nodes { all_nodes constants.now ≤ MAX_CONSTANT_NODES }
        requires normal_subject { IsNormal sig.now (tree subject.now) }
        requires normal_constants { AllByRecursion (IsNormal sig.now) constants.now }
        ensures table { IfOk result (IsTableOf (tree subject.now) constants.now) }
        ensures normal { IfOk result (λ t. AllByRecursion (IsNormal sig.now) t.terms) }
    {
        // The table is the same over each signature.
        let _ = sig;
        let mut text = collect(alloc, subject, constants)?;
        if text.len() <= FEW {
            return Table::of_few(alloc, &mut text);
        }
        let found = many_pieces(alloc, &text)?;
        Table::of_pieces(alloc, &mut text, &found.pieces, &found.firsts)
    }

    // The table of the terms of a text of few places, whose first subterm is its root.
    fn of_few(alloc: Global, text: &mut [Node<'_>]) -> Result<Table, Memory>
        requires text { IsText text.old }
        requires some { 0 < length text.old }
        requires few { length text.old ≤ FEW }
        requires unranked { AreUnranked text.old }
        ensures terms { IfOk result
            (λ t. (ps : List Piece) × ArePieces (shown text.old) ps × (t.terms ≡ piece_terms ps)) }
        ensures root { IfOk result
            (λ t. slice_get t.terms t.root ≡ Some (slice_index_or (shown text.old) 0 (symbol []))) }
    {
        let none = Piece {
            term: text[0].term,
            start: 0,
        };
        let mut pieces = [none; FEW];
        let count = few_pieces(&mut pieces, text);
        Table::of_pieces(alloc, text, &pieces[..count], &[])
    }

    // The table of the terms of the pieces of a text, whose first subterm is its root. At each place the subterm is
    // guessed to be that at the place among the firsts.
    fn of_pieces(
        alloc: Global,
        text: &mut [Node<'_>],
        pieces: &[Piece<'_>],
        firsts: &[usize],
    ) -> Result<Table, Memory>
        requires text { IsText text.old }
        requires some { 0 < length text.old }
        requires short { length text.old < 2 ^ 32 }
        requires unranked { AreUnranked text.old }
        requires pieces { ArePieces (shown text.old) pieces.now }
        ensures terms { IfOk result (λ t. t.terms ≡ piece_terms pieces.now) }
        ensures root { IfOk result
            (λ t. slice_get t.terms t.root ≡ Some (slice_index_or (shown text.old) 0 (symbol []))) }
    {
        tell_ranks(text, pieces, firsts);
        let root = Rank(text[0].rank);
        let made = entries_of(alloc, text, pieces)?;
        Ok(Table {
            entries: made.entries,
            args: made.args,
            root,
        })
    }

    /// The number of terms. The clause `valid` says what holds of every table.
    pub fn len(&self) -> u32
        ensures count { result ≡ length self.now.terms }
        ensures valid { IsTable self.now }
    {
        self.entries.len() as u32
    }

    /// The subject's rank.
    pub fn root(&self) -> Rank
        ensures rank { result.0 ≡ self.now.root }
        ensures within { HasRank self.now result }
    {
        self.root
    }

    /// The subject's rank, as the list of it alone.
    pub fn root_list(&self) -> &[Rank]
        ensures ranks { result.now ≡ record { 0 = self.now.root } ∷ [] }
        ensures within { HasRanks self.now result.now }
    {
        slice::from_ref(&self.root)
    }

    /// What stands at the top of the term of a rank, which must be below `len`.
    pub fn head(&self, rank: Rank) -> Head<'_>
        requires { HasRank self.now rank }
        ensures { IsHeadOf result (term_at self.now rank) }
    {
        match &self.entries[rank.0 as usize].head {
            OwnHead::Sym(name) => Head::Sym(name),
            OwnHead::App(op) => Head::App(*op),
        }
    }

    /// The ranks of the arguments of the term of a rank, which must be below `len`: none for a symbol.
    pub fn args(&self, rank: Rank) -> &[Rank]
        requires { HasRank self.now rank }
        ensures terms { terms_at self.now result.now ≡ arguments (term_at self.now rank) }
        ensures within { HasRanks self.now result.now }
    {
        let entry = &self.entries[rank.0 as usize];
        &self.args[entry.from..entry.end]
    }

    /// The number of nodes of the term of a rank, which must be below `len`.
    pub fn nodes(&self, rank: Rank) -> u64
        requires { HasRank self.now rank }
        ensures { result ≡ node_count (term_at self.now rank) }
    {
        self.entries[rank.0 as usize].nodes
    }

    /// A copy of the term of a rank, which must be below `len`. `Memory` comes where there is no room for it.
    pub fn term_of(&self, alloc: Global, rank: Rank) -> Result<Term, Memory>
        requires { HasRank self.now rank }
        ensures { IfOk result (λ t. tree t ≡ term_at self.now rank) }
    {
        match self.head(rank) {
            Head::Sym(name) => Ok(Term::Sym(name.copy(alloc)?)),
            Head::App(op) => {
                let mut terms = Terms::with_room(alloc, self.args(rank).len())?;
                for arg in self.args(rank) {
                    terms.push(self.term_of(alloc, *arg)?)?;
                }
                Ok(Term::App(op, terms))
            }
        }
    }
}
