//! What is known of a pattern's nodes before any search.
ghost use Rattle.std.specs.Prelude.{◌≡◌, ◌≤◌, ◌+◌, ◌++◌, Some, length, map, option_map, IfOk, IsTrue};
ghost use Rattle.std.specs.Ordering.{is_eq};
ghost use Rattle.mp_term.specs.Order.{tree_cmp};
ghost use Rattle.mp_term.specs.Tree.{symbol};
ghost use Rattle.mp_pattern.specs.View.{pattern_tree};
ghost use Rattle.mp_pattern.specs.Subpatterns.{subpatterns};
ghost use Rattle.mp_table.specs.Table.{HasRank, term_at, rank_of};
ghost use Rattle.mp_search.specs.Grounds.{ground_in, AreGrounds};

use crate::room::Room;
use mp_pattern::{Pattern, Shape};
use mp_table::{Head, Rank, Table};
use mp_term::{Memory, Name};
use std::alloc::Global;

/// What is known of a node: the rank of its symbol, or of its default.
#[derive(Clone, Copy)]
pub enum Ground {
    /// It has neither.
    Open,
    /// The table doesn't hold it.
    Absent,
    /// The table holds it at that rank.
    At(Rank),
}

/// One for each node of a pattern, in preorder, in room that is made before.
#[derive(Drop)]
pub struct Grounds {
    /// What is known of each node, in preorder.
    pub list: Room<Ground>,
}

// For how many nodes what was known of the pattern before is a guess.
const GUESSES: usize = 16;

// Whether the term of the rank is the symbol of the name.
fn is_symbol(table: &Table, rank: Rank, name: &Name) -> bool
    requires { HasRank table.now rank }
    ensures { result ≡ is_eq (tree_cmp (term_at table.now rank) (symbol name.now)) }
{
    match table.head(rank) {
        Head::Sym(own) => own.cmp(name).is_eq(),
        Head::App(_) => false,
    }
}

// Whether the symbol of the name is the term of that place in the table.
fn is_at(table: &Table, place: u32, name: &Name) -> bool
    ensures { IsTrue result → rank_of table.now (symbol name.now) ≡ Some place }
{
    if place >= table.len() {
        return false;
    }
    is_symbol(table, Rank(place), name)
}

// The rank of the symbol of the name, if the table holds it. The guess is looked at first, and what comes behind it.
fn symbol_rank(table: &Table, name: &Name, guess: Ground) -> Option<Rank>
    ensures { option_map (λ r. r.0) result ≡ rank_of table.now (symbol name.now) }
{
    if let Ground::At(rank) = guess {
        if is_at(table, rank.0, name) {
            return Some(rank);
        }
        let next = rank.0.saturating_add(1);
        if is_at(table, next, name) {
            return Some(Rank(next));
        }
    }
    table.find_symbol(name)
}

// What is known of the node, with a guess for its symbol.
fn node_ground(table: &Table, pattern: &Pattern, guess: Ground) -> Ground
    ensures { result ≡ ground_in table.now (pattern_tree pattern.now) }
{
    match pattern {
        Pattern::Sym(name) => match symbol_rank(table, name, guess) {
            None => Ground::Absent,
            Some(rank) => Ground::At(rank),
        },
        Pattern::Wild(Shape::Opt(default), _) => match table.find(default) {
            None => Ground::Absent,
            Some(rank) => Ground::At(rank),
        },
        _ => Ground::Open,
    }
}

// Adds what is known of the pattern's nodes, with guesses for the first nodes. There is room for it.
fn add_grounds(table: &Table, pattern: &Pattern, guesses: &[Ground], list: &mut Room<Ground>)
    requires { length list.old.items.items + length (subpatterns (pattern_tree pattern.now)) ≤ list.old.room }
    ensures grounds { list.new.items.items
        ≡ list.old.items.items ++ map (ground_in table.now) (subpatterns (pattern_tree pattern.now)) }
    ensures room { list.new.room ≡ list.old.room }
{
    let guess = match guesses.get(list.len()) {
        None => Ground::Open,
        Some(guess) => *guess,
    };
    list.push(node_ground(table, pattern, guess));
    if let Pattern::App(_, args) = pattern {
        for arg in args.as_slice() {
            add_grounds(table, arg, guesses, list);
        }
    }
}

impl Grounds {
    /// Room for what is known of so many nodes. `Memory` comes where there is none.
    pub fn new(alloc: Global, nodes: usize) -> Result<Grounds, Memory>
        ensures { IfOk result (λ g. g.list.room ≡ nodes) }
    {
        Ok(Grounds {
            list: Room::new(alloc, nodes)?,
        })
    }

    /// Finds what is known of the pattern's nodes (`AreGrounds` of `specs/Grounds.antt`), for which there must be room.
    /// It takes no memory.
    pub fn fill(&mut self, table: &Table, pattern: &Pattern)
        requires { length (subpatterns (pattern_tree pattern.now)) ≤ self.old.list.room }
        ensures grounds { AreGrounds table.now (subpatterns (pattern_tree pattern.now)) self.new.list.items.items }
        ensures room { self.new.list.room ≡ self.old.list.room }
    {
        // Patterns that follow each other often have symbols in common, at the same nodes, or symbols that follow each
        // other.
        let mut guesses = [Ground::Open; GUESSES];
        let count = self.list.len().min(GUESSES);
        guesses[..count].copy_from_slice(&self.list.as_slice()[..count]);
        self.list.clear();
        add_grounds(table, pattern, &guesses, &mut self.list);
    }

    /// The nodes in preorder.
    pub fn as_slice(&self) -> &[Ground]
        ensures { result.now ≡ self.now.list.items.items }
    {
        self.list.as_slice()
    }
}
