//! What the lists of the generators are, each fact as the contract of a function that does nothing.
ghost use Rattle.std.specs.Prelude.{◌≡◌, ℕ, suc, List, map, drop, slice_get};
ghost use Rattle.std.specs.Ordering.{nat_cmp};
ghost use Rattle.mp_term.specs.Pieces.{sub_bags};
ghost use Rattle.mp_choice.specs.Choices.{Choices, advanced_by};
ghost use Rattle.mp_choice.specs.declared.splits.Part.{Part};
ghost use Rattle.mp_choice.specs.Splits.{AreSplits};
ghost use Rattle.mp_choice.specs.SubBags.{classes, AreSubBags};
ghost use Rattle.mp_choice.specs.Equations.{AreSolutions};

/// Steps give the items in turn: k steps leave all but the first k of the items still to come, and one step more stands
/// at the item with index k, counted from 0, exactly where there is one. By `advanced_by` of `specs/Choices.antt`.
pub fn steps_give_the_items_in_turn()
    ensures rest { (c : Choices) (k : ℕ) → (advanced_by k c).to_come ≡ drop k c.to_come }
    ensures item { (c : Choices) (k : ℕ) → (advanced_by (suc k) c).item ≡ slice_get c.to_come k }
{}

/// A length and parts have one list of splits: two lists that meet `AreSplits` of `specs/Splits.antt` are equal.
pub fn list_of_splits_is_unique()
    ensures { (total : ℕ) (parts : List Part) (xs ys : List (List ℕ)) →
        AreSplits total parts xs → AreSplits total parts ys → xs ≡ ys }
{}

/// Counts have one list of sub-multisets: two lists that meet `AreSubBags` of `specs/SubBags.antt` are equal.
pub fn list_of_sub_bags_is_unique()
    ensures { (counts : List ℕ) (xs ys : List (List ℕ)) →
        AreSubBags counts xs → AreSubBags counts ys → xs ≡ ys }
{}

/// The list of sub-multisets, each as the ascending list of its class numbers, is `sub_bags`
/// of mp_term's `specs/Pieces.antt` over the class numbers of the counts.
pub fn sub_bags_are_those_of_the_theory()
    ensures { (counts : List ℕ) (bags : List (List ℕ)) → AreSubBags counts bags →
        map classes bags ≡ sub_bags nat_cmp (classes counts) }
{}

/// An equation has one list of solutions: two lists that meet `AreSolutions` of `specs/Equations.antt` are equal.
pub fn list_of_solutions_is_unique()
    ensures { (coefficients : List ℕ) (total : ℕ) (xs ys : List (List ℕ)) →
        AreSolutions coefficients total xs → AreSolutions coefficients total ys → xs ≡ ys }
{}
