//! Whether two children take two terms with different values of a variable.
ghost use Rattle.std.specs.Prelude.{◌≡◌, ◌∷◌, [], ℕ, Option, None, true, map};
ghost use Rattle.std.specs.List.{list_any};
ghost use Rattle.mp_term.specs.Tree.{trees};
ghost use Rattle.mp_pattern.specs.PatternTree.{patterns};
ghost use Rattle.mp_pattern.specs.View.{pattern_tree};
ghost use Rattle.mp_table.specs.Table.{HasRank, HasRanks, IsTable, term_at, terms_at};
ghost use Rattle.mp_theory.specs.Shape.{all_takings, shape, shapes, takings};
ghost use Rattle.mp_theory.specs.Solve.{Taken};
ghost use Rattle.mp_ac.specs.Clash.{differ};

use mp_pattern::Pattern;
use mp_table::{Rank, Table};
use mp_term::Name;

// The variable, which takes the term of the rank, takes another one in the pattern, which takes the term of its rank.
#[cycle(clashes_with)]
fn clashes_with(table: &Table, name: &Name, taken: Rank, pattern: &Pattern, rank: Rank) -> bool
    requires table { IsTable table.now }
    requires taken { HasRank table.now taken }
    requires rank { HasRank table.now rank }
    requires shape { shape (pattern_tree pattern.now) (term_at table.now rank) ≡ true }
    ensures { (a : Taken) (f : Option ℕ) → a.by.name ≡ name.now → a.terms ≡ term_at table.now taken ∷ []
        → result ≡ list_any (differ a) (takings f (pattern_tree pattern.now) (term_at table.now rank)) }
{
    match pattern {
        Pattern::Sym(_) => false,
        Pattern::Wild(_, None) => false,
        Pattern::Wild(_, Some(own)) => *name == *own && taken.0 != rank.0,
        Pattern::App(_, args) => {
            any_clashes_with(table, name, taken, args.as_slice(), table.args(rank))
        }
    }
}

// So it is with one of the patterns, each of which takes the term of the rank at its place.
#[cycle(clashes_with)]
fn any_clashes_with(
    table: &Table,
    name: &Name,
    taken: Rank,
    list: &[Pattern],
    ranks: &[Rank],
) -> bool
    requires table { IsTable table.now }
    requires taken { HasRank table.now taken }
    requires ranks { HasRanks table.now ranks.now }
    requires shapes { shapes (patterns (map pattern_tree list.now)) (trees (terms_at table.now ranks.now)) ≡ true }
    ensures { (a : Taken) (g : ℕ) → a.by.name ≡ name.now → a.terms ≡ term_at table.now taken ∷ []
        → result ≡ list_any (differ a)
        (all_takings g (patterns (map pattern_tree list.now)) (trees (terms_at table.now ranks.now))) }
{
    match (list, ranks) {
        ([first, later @ ..], [rank, rest @ ..]) => {
            clashes_with(table, name, taken, first, *rank)
                || any_clashes_with(table, name, taken, later, rest)
        }
        _ => false,
    }
}

// Some variable takes another term in the other pattern than in this one, where each takes the term of its rank.
#[cycle(clash)]
pub(crate) fn clash(
    table: &Table,
    pattern: &Pattern,
    rank: Rank,
    other: &Pattern,
    its: Rank,
) -> bool
    requires table { IsTable table.now }
    requires rank { HasRank table.now rank }
    requires its { HasRank table.now its }
    requires shape { shape (pattern_tree pattern.now) (term_at table.now rank) ≡ true }
    requires its_shape { shape (pattern_tree other.now) (term_at table.now its) ≡ true }
    ensures { (f : Option ℕ) → result
        ≡ list_any (λ a. list_any (differ a) (takings None (pattern_tree other.now) (term_at table.now its)))
        (takings f (pattern_tree pattern.now) (term_at table.now rank)) }
{
    match pattern {
        Pattern::Sym(_) => false,
        Pattern::Wild(_, None) => false,
        Pattern::Wild(_, Some(name)) => clashes_with(table, name, rank, other, its),
        Pattern::App(_, args) => any_clash(table, args.as_slice(), table.args(rank), other, its),
    }
}

// So it is with one of the patterns, each of which takes the term of the rank at its place.
#[cycle(clash)]
fn any_clash(table: &Table, list: &[Pattern], ranks: &[Rank], other: &Pattern, its: Rank) -> bool
    requires table { IsTable table.now }
    requires ranks { HasRanks table.now ranks.now }
    requires its { HasRank table.now its }
    requires shapes { shapes (patterns (map pattern_tree list.now)) (trees (terms_at table.now ranks.now)) ≡ true }
    requires its_shape { shape (pattern_tree other.now) (term_at table.now its) ≡ true }
    ensures { (g : ℕ) → result
        ≡ list_any (λ a. list_any (differ a) (takings None (pattern_tree other.now) (term_at table.now its)))
        (all_takings g (patterns (map pattern_tree list.now)) (trees (terms_at table.now ranks.now))) }
{
    match (list, ranks) {
        ([first, later @ ..], [rank, rest @ ..]) => {
            clash(table, first, *rank, other, its) || any_clash(table, later, rest, other, its)
        }
        _ => false,
    }
}
