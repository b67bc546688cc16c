//! How ranks stand for their terms, each fact as the contract of a function that does nothing.
ghost use Rattle.std.specs.Prelude.{◌≡◌, ◌↔◌, ℕ, List, Some, slice_get};
ghost use Rattle.mp_term.specs.Order.{tree_cmp};
ghost use Rattle.mp_term.specs.Pieces.{without, is_sublist, is_prefix};
ghost use Rattle.mp_term.specs.Tree.{Tree};
ghost use Rattle.mp_table.specs.Table.{Table, term_at, terms_at, HasRank, HasRanks, rank_of, rank_cmp, IsTable};
ghost use Rattle.mp_table.specs.declared.rank.Rank.{Rank};

/// Ranks compare as their terms do, and the rank of a term is the one where it stands.
pub fn ranks_compare_as_their_terms()
    ensures order { (t : Table) → IsTable t → (r s : Rank) → HasRank t r → HasRank t s →
        tree_cmp (term_at t r) (term_at t s) ≡ rank_cmp r s }
    ensures found { (t : Table) → IsTable t → (u : Tree) (r : ℕ) →
        (rank_of t u ≡ Some r) ↔ (slice_get t.terms r ≡ Some u) }
{}

/// What is taken out of a list of ranks is taken out of the list of their terms, and ranks stand in a list where their
/// terms stand in the list of the terms (`without`, `is_sublist` and `is_prefix` of mp_term's `specs/Pieces.antt`).
pub fn pieces_of_ranks_are_pieces_of_terms()
    ensures without { (t : Table) → IsTable t → (rs ss : List Rank) → HasRanks t rs → HasRanks t ss →
        without tree_cmp (terms_at t rs) (terms_at t ss) ≡ terms_at t (without rank_cmp rs ss) }
    ensures sublist { (t : Table) → IsTable t → (rs ss : List Rank) → HasRanks t rs → HasRanks t ss →
        is_sublist tree_cmp (terms_at t rs) (terms_at t ss) ≡ is_sublist rank_cmp rs ss }
    ensures prefix { (t : Table) → IsTable t → (rs ss : List Rank) → HasRanks t rs → HasRanks t ss →
        is_prefix tree_cmp (terms_at t rs) (terms_at t ss) ≡ is_prefix rank_cmp rs ss }
{}
