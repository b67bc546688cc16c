//! What holds of terms with one subterm replaced, for proofs above.
ghost use Rattle.std.specs.Prelude.{◌≡◌, ◌≤◌, ◌+◌, max, ◌∷◌, [], ℕ, List, length, true, Some, option_map};
ghost use Rattle.mp_term.specs.Tree.{Tree};
ghost use Rattle.mp_term.specs.Size.{node_count, depth};
ghost use Rattle.mp_term.specs.Positions.{subterm};
ghost use Rattle.mp_term.specs.Signature.{Sig, well_formed};
ghost use Rattle.mp_term.specs.Edited.{edited, one_edit};
ghost use Rattle.mp_term.specs.Replaced.{replaced};
ghost use Rattle.mp_term.specs.Excess.{excess};
ghost use Rattle.mp_term.specs.EditFault.{fault_of, edit_fault};

/// One edit of one new term gives one term: that with the new term in place of the subterm (`replaced` of
/// `specs/Replaced.antt`).
pub fn one_edit_replaces()
    ensures { (p : List ℕ) (u t : Tree) → edited (one_edit p u) t ≡ replaced p u t ∷ [] }
{}

/// A well formed term with a well formed term in place of a subterm is well formed.
pub fn replaced_is_well_formed()
    ensures { (sig : Sig) (p : List ℕ) (u t : Tree) → well_formed sig u ≡ true → well_formed sig t ≡ true
        → well_formed sig (replaced p u t) ≡ true }
{}

/// One edit of a well formed term, at the position of a subterm, can be refused by the size alone of what comes out.
pub fn one_edit_fails_by_size()
    ensures { (sig : Sig) (p : List ℕ) (u t v : Tree) → well_formed sig t ≡ true → subterm t p ≡ Some v
        → edit_fault sig t (one_edit p u) ≡ option_map fault_of (excess (replaced p u t ∷ [])) }
{}

/// The size of a term with a new term in place of a subterm: the nodes of the subterm make way for those of the new
/// term, which reaches as deep as it stands, and all else no deeper than before.
pub fn replaced_has_size()
    ensures nodes { (p : List ℕ) (u t v : Tree) → subterm t p ≡ Some v
        → node_count (replaced p u t) + node_count v ≡ node_count t + node_count u }
    ensures reaches { (p : List ℕ) (u t v : Tree) → subterm t p ≡ Some v
        → length p + depth u ≤ depth (replaced p u t) }
    ensures within { (p : List ℕ) (u t : Tree) → depth (replaced p u t) ≤ max (depth t) (length p + depth u) }
{}
