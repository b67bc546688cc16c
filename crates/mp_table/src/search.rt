//! The search for a term in a table.
ghost use Rattle.std.specs.Prelude.{◌≡◌, map, option_map};
ghost use Rattle.mp_term.specs.Tree.{symbol, app, trees};
ghost use Rattle.mp_term.specs.View.{tree};
ghost use Rattle.mp_term.specs.Order.{tree_cmp, shortlex};
ghost use Rattle.mp_table.specs.Sought.{sought_tree, IsSought};
ghost use Rattle.mp_table.specs.Table as plain;
ghost use Rattle.mp_table.specs.Table.{term_at, terms_at, HasRank, HasRanks, IsTable, rank_of};

use crate::rank::{Head, Rank};
use crate::table::Table;
use mp_term::{Name, OpId, Term};
use std::cmp::Ordering;

// What is looked for in a table: a term, the symbol of a name, or an operation applied to the terms of ranks.
#[derive(Clone, Copy)]
enum Sought<'a> {
    Term(&'a Term),
    Symbol(&'a Name),
    App(OpId, &'a [Rank]),
}

/// The application of an operation to the terms of ranks beside another one, in the term order: it is the same in each
/// table that has the ranks. It takes no memory.
pub fn compare_apps(f: OpId, ranks: &[Rank], g: OpId, others: &[Rank]) -> Ordering
    ensures { (t : plain.Table) → IsTable t → HasRanks t ranks.now → HasRanks t others.now →
        result ≡ tree_cmp (app f.0 (trees (terms_at t ranks.now))) (app g.0 (trees (terms_at t others.now))) }
{
    if f.0 != g.0 {
        return f.0.cmp(&g.0);
    }
    if ranks.len() != others.len() {
        return ranks.len().cmp(&others.len());
    }
    ranks.cmp(others)
}

impl Table {
    // The term of a rank beside a term.
    #[cycle(compare_term)]
    fn compare_term(&self, rank: Rank, term: &Term) -> Ordering
        requires { HasRank self.now rank }
        ensures { result ≡ tree_cmp (term_at self.now rank) (tree term.now) }
    {
        match (self.head(rank), term) {
            (Head::Sym(own), Term::Sym(name)) => own.cmp(name),
            (Head::Sym(_), Term::App(_, _)) => Ordering::Less,
            (Head::App(_), Term::Sym(_)) => Ordering::Greater,
            (Head::App(own), Term::App(op, terms)) => {
                if own.0 != op.0 {
                    return own.0.cmp(&op.0);
                }
                self.compare_terms(self.args(rank), terms.as_slice())
            }
        }
    }

    // The terms of ranks beside terms, by shortlex.
    #[cycle(compare_term)]
    fn compare_terms(&self, ranks: &[Rank], terms: &[Term]) -> Ordering
        requires { HasRanks self.now ranks.now }
        ensures { result ≡ shortlex tree_cmp (terms_at self.now ranks.now) (map tree terms.now) }
    {
        if ranks.len() != terms.len() {
            return ranks.len().cmp(&terms.len());
        }
        for (i, rank) in ranks.iter().enumerate() {
            let order = self.compare_term(*rank, &terms[i]);
            if order.is_ne() {
                return order;
            }
        }
        Ordering::Equal
    }

    /// The term of a rank beside the application of an operation to the terms of ranks, in the term order. Each rank
    /// must be below `len`. It takes no memory.
    pub fn compare_app(&self, rank: Rank, op: OpId, ranks: &[Rank]) -> Ordering
        requires rank { HasRank self.now rank }
        requires ranks { HasRanks self.now ranks.now }
        ensures { result ≡ tree_cmp (term_at self.now rank) (app op.0 (trees (terms_at self.now ranks.now))) }
    {
        // What holds of each table.
        self.len();
        match self.head(rank) {
            Head::Sym(_) => Ordering::Less,
            Head::App(own) => compare_apps(own, self.args(rank), op, ranks),
        }
    }

    // The term of a rank beside the symbol of a name.
    fn compare_symbol(&self, rank: Rank, name: &Name) -> Ordering
        requires { HasRank self.now rank }
        ensures { result ≡ tree_cmp (term_at self.now rank) (symbol name.now) }
    {
        match self.head(rank) {
            Head::Sym(own) => own.cmp(name),
            Head::App(_) => Ordering::Greater,
        }
    }

    // The term of a rank beside what is looked for.
    #[inline(always)]
    fn compare(&self, rank: Rank, sought: &Sought<'_>) -> Ordering
        requires rank { HasRank self.now rank }
        requires sought { IsSought self.now sought.now }
        ensures { result ≡ tree_cmp (term_at self.now rank) (sought_tree self.now sought.now) }
    {
        match sought {
            Sought::Term(term) => self.compare_term(rank, term),
            Sought::Symbol(name) => self.compare_symbol(rank, name),
            Sought::App(op, ranks) => self.compare_app(rank, *op, ranks),
        }
    }

    // The rank of what is looked for, and None exactly where the table doesn't hold it. At most so many terms are
    // compared with it as the number of terms has binary digits.
    #[inline(always)]
    fn search(&self, sought: &Sought<'_>) -> Option<Rank>
        requires { IsSought self.now sought.now }
        ensures { option_map (λ r. r.0) result ≡ rank_of self.now (sought_tree self.now sought.now) }
    {
        let mut low = 0;
        let mut high = self.len();
        while low < high {
            let middle = low + (high - low) / 2;
            match self.compare(Rank(middle), sought) {
                Ordering::Less => low = middle + 1,
                Ordering::Equal => return Some(Rank(middle)),
                Ordering::Greater => high = middle,
            }
        }
        None
    }

    /// The rank of a term, and None exactly where the table doesn't hold it (`rank_of` of `specs/Table.antt`). It takes
    /// no memory.
    pub fn find(&self, term: &Term) -> Option<Rank>
        ensures { option_map (λ r. r.0) result ≡ rank_of self.now (tree term.now) }
    {
        self.search(&Sought::Term(term))
    }

    /// The rank of the symbol of a name, and None exactly where the table doesn't hold it (`rank_of` of
    /// `specs/Table.antt`). It takes no memory.
    pub fn find_symbol(&self, name: &Name) -> Option<Rank>
        ensures { option_map (λ r. r.0) result ≡ rank_of self.now (symbol name.now) }
    {
        self.search(&Sought::Symbol(name))
    }

    /// The rank of the application of an operation to the terms of ranks, each of which must be below `len`, and None
    /// exactly where the table doesn't hold that term (`rank_of` of `specs/Table.antt`). It takes no memory.
    pub fn find_app(&self, op: OpId, ranks: &[Rank]) -> Option<Rank>
        requires { HasRanks self.now ranks.now }
        ensures { option_map (λ r. r.0) result ≡ rank_of self.now (app op.0 (trees (terms_at self.now ranks.now))) }
    {
        self.search(&Sought::App(op, ranks))
    }
}
