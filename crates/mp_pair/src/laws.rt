//! What the list of a generator is, as the contract of a function that does nothing.
ghost use Rattle.std.specs.Prelude.{◌≡◌, ℕ, List};
ghost use Rattle.mp_pair.specs.Pairings.{ArePairings};

/// A graph has one list of pairings: two lists that meet `ArePairings` of `specs/Pairings.antt` are equal.
pub fn list_of_pairings_is_unique()
    ensures { (capacities : List ℕ) (left xs ys : List (List ℕ)) →
        ArePairings capacities left xs → ArePairings capacities left ys → xs ≡ ys }
{}
