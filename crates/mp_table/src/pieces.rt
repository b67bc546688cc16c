//! The pieces of a text.
ghost use Rattle.std.specs.Prelude.{◌≡◌, ◌<◌, ◌≤◌, ◌^◌, ◌+◌, length, take, IfOk, IfSome, slice_index_or, [], true};
ghost use Rattle.std.specs.Prelude.{None};
ghost use Rattle.std.specs.List.{AllByRecursion, insert};
ghost use Rattle.std.specs.List.Sorted.{IsStrictlySortedBy};
ghost use Rattle.mp_term.specs.Listing.{In};
ghost use Rattle.mp_term.specs.Order.{tree_cmp};
ghost use Rattle.mp_term.specs.Tree.{Tree, symbol};
ghost use Rattle.mp_term.specs.View.{tree};
ghost use Rattle.mp_table.specs.Pieces.{is_symbol, piece_terms, IsPiece, ArePieces, AreSomeRanks, AreRanks};
ghost use Rattle.mp_table.specs.Text.{shown, counts, ranks, AreUnranked};

use crate::guess::{Guesses, digest_of};
use crate::node::Node;
use crate::piece::Piece;
use crate::rank::Rank;
use mp_term::{Memory, Term, compare};
use std::alloc::Global;
use std::cmp::Ordering;

// Pieces of a text, and for each place where such a piece is guessed to begin that has the same term.
#[derive(Drop)]
pub(crate) struct Found<'a> {
    pub(crate) pieces: Vec<Piece<'a>>,
    pub(crate) firsts: Vec<usize>,
}

// Whether the term is a symbol.
fn is_symbol(term: &Term) -> bool
    ensures { result ≡ is_symbol (tree term.now) }
{
    match term {
        Term::Sym(_) => true,
        Term::App(_, _) => false,
    }
}

// Where a piece of the term belongs among ascending pieces, if none of them has it. The place is sought from the end:
// what comes in nearly ascending order takes few comparisons.
fn place_of(pieces: &[Piece<'_>], term: &Term) -> Option<usize>
    requires { IsStrictlySortedBy tree_cmp (piece_terms pieces.now) }
    ensures within { IfSome result (λ i. i ≤ length pieces.now) }
    ensures ascending { IfSome result
        (λ i. IsStrictlySortedBy tree_cmp (insert (piece_terms pieces.now) i (tree term.now))) }
    ensures there { result ≡ None → In (tree term.now) (piece_terms pieces.now) }
{
    let mut end = pieces.len();
    while end > 0 {
        match compare(pieces[end - 1].term, term) {
            Ordering::Less => return Some(end),
            Ordering::Equal => return None,
            Ordering::Greater => end -= 1,
        }
    }
    Some(0)
}

// Puts a piece in at a place among so many. Behind them stands room for it.
fn put_piece<'a>(pieces: &mut [Piece<'a>], count: usize, place: usize, piece: Piece<'a>)
    requires room { count < length pieces.old }
    requires place { place ≤ count }
    ensures room { length pieces.new ≡ length pieces.old }
    ensures pieces { take (count + 1) pieces.new ≡ insert (take count pieces.old) place piece.entry }
{
    let mut end = count;
    while end > place {
        pieces[end] = pieces[end - 1];
        end -= 1;
    }
    pieces[place] = piece;
}

// Adds a piece for the subterm at a place to so many ascending pieces, if none of them has its term, and says how many
// there are then.
fn add_piece<'a>(pieces: &mut [Piece<'a>], count: usize, nodes: &[Node<'a>], start: usize) -> usize
    requires room { length nodes.now ≤ length pieces.old }
    requires count { count ≤ length pieces.old }
    requires ascending { IsStrictlySortedBy tree_cmp (piece_terms (take count pieces.old)) }
    requires pieces { AllByRecursion (IsPiece (shown nodes.now)) (take count pieces.old) }
    requires start { start < length nodes.now }
    ensures room { length pieces.new ≡ length pieces.old }
    ensures count { result ≤ length pieces.new }
    ensures ascending { IsStrictlySortedBy tree_cmp (piece_terms (take result pieces.new)) }
    ensures pieces { AllByRecursion (IsPiece (shown nodes.now)) (take result pieces.new) }
    ensures kept { (u : Tree) →
        In u (piece_terms (take count pieces.old)) → In u (piece_terms (take result pieces.new)) }
    ensures there { In (slice_index_or (shown nodes.now) start (symbol [])) (piece_terms (take result pieces.new)) }
{
    let term = nodes[start].term;
    match place_of(&pieces[..count], term) {
        None => count,
        Some(place) => {
            put_piece(pieces, count, place, Piece { term, start });
            count + 1
        }
    }
}

// Adds a piece for each subterm that is a symbol, or for each that is none, to so many ascending pieces, and says how
// many there are then.
fn add_pieces<'a>(
    pieces: &mut [Piece<'a>],
    count: usize,
    nodes: &[Node<'a>],
    symbols: bool,
) -> usize
    requires room { length nodes.now ≤ length pieces.old }
    requires count { count ≤ length pieces.old }
    requires ascending { IsStrictlySortedBy tree_cmp (piece_terms (take count pieces.old)) }
    requires pieces { AllByRecursion (IsPiece (shown nodes.now)) (take count pieces.old) }
    ensures room { length pieces.new ≡ length pieces.old }
    ensures count { result ≤ length pieces.new }
    ensures ascending { IsStrictlySortedBy tree_cmp (piece_terms (take result pieces.new)) }
    ensures pieces { AllByRecursion (IsPiece (shown nodes.now)) (take result pieces.new) }
    ensures kept { (u : Tree) →
        In u (piece_terms (take count pieces.old)) → In u (piece_terms (take result pieces.new)) }
    ensures all { AllByRecursion
        (λ n. is_symbol (tree n.term.now) ≡ symbols → In (tree n.term.now) (piece_terms (take result pieces.new)))
        nodes.now }
{
    let mut all = count;
    for (start, node) in nodes.iter().enumerate() {
        if is_symbol(node.term) != symbols {
            continue;
        }
        all = add_piece(pieces, all, nodes, start);
    }
    all
}

// Makes the first pieces one for each distinct subterm, ascending, and says how many these are. Symbols are put in
// first, as they come first in the term order.
pub(crate) fn few_pieces<'a>(pieces: &mut [Piece<'a>], nodes: &[Node<'a>]) -> usize
    requires { length nodes.now ≤ length pieces.old }
    ensures count { result ≤ length pieces.new }
    ensures pieces { ArePieces (shown nodes.now) (take result pieces.new) }
{
    let symbols = add_pieces(pieces, 0, nodes, true);
    add_pieces(pieces, symbols, nodes, false)
}

// Whether the piece at a place has that term.
fn has_term(pieces: &[Piece<'_>], place: usize, term: &Term) -> bool
    ensures within { result ≡ true → place < length pieces.now }
    ensures term { result ≡ true → slice_index_or (piece_terms pieces.now) place (symbol []) ≡ tree term.now }
{
    place < pieces.len() && compare(pieces[place].term, term).is_eq()
}

// A piece for each subterm but those whose term is that of the piece that is guessed.
fn new_pieces<'a>(alloc: Global, nodes: &[Node<'a>]) -> Result<Found<'a>, Memory>
    ensures pieces { IfOk result
        (λ f. AllByRecursion (IsPiece (shown nodes.now)) f.pieces.items) }
    ensures all { IfOk result (λ f. AllByRecursion (λ n. In (tree n.term.now) (piece_terms f.pieces.items)) nodes.now) }
{
    let mut pieces = Vec::new(alloc);
    let mut firsts = Vec::with_capacity(alloc, nodes.len())?;
    let mut guesses = Guesses::new(alloc, nodes.len())?;
    for (start, node) in nodes.iter().enumerate() {
        let digest = digest_of(node.term);
        let near = guesses.at(digest);
        if has_term(&pieces, near, node.term) {
            firsts.push(pieces[near].start)?;
            continue;
        }
        guesses.put(digest, pieces.len());
        firsts.push(start)?;
        pieces.push(Piece {
            term: node.term,
            start,
        })?;
    }
    Ok(Found { pieces, firsts })
}

// A piece for each distinct subterm, ascending, where there are many.
pub(crate) fn many_pieces<'a>(alloc: Global, nodes: &[Node<'a>]) -> Result<Found<'a>, Memory>
    ensures { IfOk result (λ f. ArePieces (shown nodes.now) f.pieces.items) }
{
    let mut found = new_pieces(alloc, nodes)?;
    found.pieces.sort()?;
    found.pieces.dedup();
    Ok(found)
}

// Tells the ranks of the places where the pieces begin.
fn own_ranks(nodes: &mut [Node<'_>], pieces: &[Piece<'_>])
    requires pieces { AllByRecursion (IsPiece (shown nodes.old)) pieces.now }
    requires short { length pieces.now < 2 ^ 32 }
    requires unranked { AreUnranked nodes.old }
    ensures terms { shown nodes.new ≡ shown nodes.old }
    ensures nodes { counts nodes.new ≡ counts nodes.old }
    ensures ranks { AreSomeRanks (shown nodes.old) (piece_terms pieces.now) (ranks nodes.new) }
{
    for (rank, piece) in pieces.iter().enumerate() {
        nodes[piece.start].rank = rank as u32;
    }
}

// The rank where the same term is guessed to begin as at a place.
fn guess_at(nodes: &[Node<'_>], firsts: &[usize], place: usize) -> usize {
    if place < firsts.len() && firsts[place] < nodes.len() {
        return nodes[firsts[place]].rank as usize;
    }
    usize::MAX
}

// The rank of a term, which is looked for where it is guessed, and then elsewhere.
fn rank_of(pieces: &[Piece<'_>], term: &Term, guess: usize) -> Rank
    requires short { length pieces.now < 2 ^ 32 }
    requires ascending { IsStrictlySortedBy tree_cmp (piece_terms pieces.now) }
    requires there { In (tree term.now) (piece_terms pieces.now) }
    ensures within { result.0 < length pieces.now }
    ensures term { slice_index_or (piece_terms pieces.now) result.0 (symbol []) ≡ tree term.now }
{
    if has_term(pieces, guess, term) {
        return Rank(guess as u32);
    }
    match pieces.binary_search(&Piece { term, start: 0 }) {
        Ok(index) => Rank(index as u32),
        Err(index) => Rank(index as u32),
    }
}

// Tells the rank of the subterm at each place, where the subterms at the firsts are guessed to be those at the places.
pub(crate) fn tell_ranks(nodes: &mut [Node<'_>], pieces: &[Piece<'_>], firsts: &[usize])
    requires pieces { ArePieces (shown nodes.old) pieces.now }
    requires short { length pieces.now < 2 ^ 32 }
    requires unranked { AreUnranked nodes.old }
    ensures terms { shown nodes.new ≡ shown nodes.old }
    ensures nodes { counts nodes.new ≡ counts nodes.old }
    ensures ranks { AreRanks (shown nodes.old) (piece_terms pieces.now) (ranks nodes.new) }
{
    own_ranks(nodes, pieces);
    let mut place = 0;
    while place < nodes.len() {
        if nodes[place].rank as usize >= pieces.len() {
            let guess = guess_at(nodes, firsts, place);
            nodes[place].rank = rank_of(pieces, nodes[place].term, guess).0;
        }
        place += 1;
    }
}
