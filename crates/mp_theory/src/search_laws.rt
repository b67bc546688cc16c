//! What a search may leave out, each as the contract of a function that does nothing.
ghost use Rattle.std.specs.Prelude.{◌≡◌, ◌+◌, ◌*◌, ◌≤◌, ℕ, Bool, List, [], ◌∷◌, Some, None, true, false, length};
ghost use Rattle.std.specs.List.Sorted.{IsStrictlySortedBy};
ghost use Rattle.mp_term.specs.Order.{tree_cmp};
ghost use Rattle.mp_term.specs.Pieces.{same, without};
ghost use Rattle.mp_term.specs.Search.{In};
ghost use Rattle.mp_term.specs.Signature.{Sig};
ghost use Rattle.mp_term.specs.Tree.{Tree};
ghost use Rattle.mp_pattern.specs.DerivationOrder.{entry_cmp};
ghost use Rattle.mp_pattern.specs.Fits.{Entry, arranged};
ghost use Rattle.mp_pattern.specs.PatternTree.{Pattern, Wildcard, wild_pattern};
ghost use Rattle.mp_pattern.specs.SoundRule.{reaches};
ghost use Rattle.mp_pattern.specs.Value.{Value, Subst, value_of};
ghost use Rattle.mp_theory.specs.Frames.{Frame, Next, child};
ghost use Rattle.mp_theory.specs.Items.{items, items_by, LeadsTo};
ghost use Rattle.mp_theory.specs.Kept.{Keeps};
ghost use Rattle.mp_theory.specs.Known.{is_optional, known_lists, reserved, uses_of, all_least_known, all_most_known};
ghost use Rattle.mp_theory.specs.Machine.{choices, onward};
ghost use Rattle.mp_theory.specs.MayMatch.{may_match};
ghost use Rattle.mp_theory.specs.OneList.{Item};
ghost use Rattle.mp_theory.specs.Supply.{passing, marked, Covers};

/// Choices that ascend lead to all that comes at a place where each choice with an item is among them.
pub fn choices_with_items_lead_to_all_items()
    ensures { (sig : Sig) (n : Next) (s : Subst) (es : List Entry) → IsStrictlySortedBy entry_cmp es →
        ((e : Entry) → In e es → In e (choices sig n)) →
        ((k : ℕ) (e : Entry) (i : Item) → In e (choices sig n) → In i (items_by sig k n s e) → In e es) →
        LeadsTo sig n s es (choices sig n) }
{}

/// Each item keeps the values of the substitution that the search is over: `Keeps` of `specs/Kept.antt`.
pub fn items_keep_the_values()
    ensures { (sig : Sig) (k : ℕ) (n : Next) (s : Subst) (i : Item) → In i (items sig k n s) → Keeps s i.1 }
{}

/// Where a wildcard's variable has a value, a choice with an item takes one of at most two lists, `known_lists` of
/// `specs/Known.antt`.
pub fn a_variable_with_a_value_takes_a_known_list()
    ensures { (sig : Sig) (w : Wildcard) (x : List ℕ) (f : Frame) (fs : List Frame) (s : Subst) (v : Value) (k : ℕ)
        (e : Entry) (i : Item) → value_of s x ≡ Some v → arranged sig f.under f.left ≡ f.left →
        In e (choices sig (child (wild_pattern w (Some x)) f fs)) →
        In i (items_by sig k (child (wild_pattern w (Some x)) f fs) s e) →
        In e.terms (known_lists sig f.under w v f.left) }
{}

/// A choice with an item leaves the later children what is known of their takes by `specs/Known.antt`: their terms,
/// each as often as they take it, as many terms as they need, and no more than they take. A variable that has no value
/// yet leaves as much as it takes for each further use.
pub fn later_children_are_left_what_they_take()
    ensures terms { (sig : Sig) (k : ℕ) (p : Pattern) (f : Frame) (fs : List Frame) (s : Subst) (e : Entry) (i : Item)
        (z : Tree) → In e (choices sig (child p f fs)) → In i (items_by sig k (child p f fs) s e) →
        passing (same tree_cmp z) e.terms + passing (same tree_cmp z) (reserved sig s f.under f.children)
        ≤ passing (same tree_cmp z) f.left }
    ensures uses { (sig : Sig) (k : ℕ) (w : Wildcard) (x : List ℕ) (f : Frame) (fs : List Frame) (s : Subst) (e : Entry)
        (i : Item) (z : Tree) → is_optional w ≡ false → value_of s x ≡ None →
        In e (choices sig (child (wild_pattern w (Some x)) f fs)) →
        In i (items_by sig k (child (wild_pattern w (Some x)) f fs) s e) →
        (1 + uses_of x f.children) * passing (same tree_cmp z) e.terms
        + passing (same tree_cmp z) (reserved sig s f.under f.children) ≤ passing (same tree_cmp z) f.left }
    ensures least { (sig : Sig) (k : ℕ) (p : Pattern) (f : Frame) (fs : List Frame) (s : Subst) (e : Entry) (i : Item) →
        In e (choices sig (child p f fs)) → In i (items_by sig k (child p f fs) s e) →
        length e.terms + all_least_known sig s f.under f.children ≤ length f.left }
    ensures most { (sig : Sig) (k : ℕ) (p : Pattern) (f : Frame) (fs : List Frame) (s : Subst) (e : Entry) (i : Item) →
        In e (choices sig (child p f fs)) → In i (items_by sig k (child p f fs) s e) →
        reaches (length (without tree_cmp e.terms f.left)) (all_most_known sig s f.under f.children) ≡ true }
{}

/// A choice of one term with an item may match it, by `may_match` of `specs/MayMatch.antt`; and any later children that
/// take a term each, whichever are marked, have as many terms that they may match: `Covers` of `specs/Supply.antt`.
pub fn children_have_terms_that_they_may_match()
    ensures own { (sig : Sig) (k : ℕ) (p : Pattern) (f : Frame) (fs : List Frame) (s : Subst) (e : Entry) (t : Tree)
        (i : Item) → In e (choices sig (child p f fs)) → In i (items_by sig k (child p f fs) s e) →
        e.terms ≡ t ∷ [] → may_match sig s f.under p t ≡ true }
    ensures later { (sig : Sig) (k : ℕ) (p : Pattern) (f : Frame) (fs : List Frame) (e : Entry) (r : Subst) (i : Item) →
        In i (items sig k (onward (child p f fs) e) r) → (test : Tree → Bool) (ms : List Bool) →
        Covers sig r test f.under ms f.children →
        marked ms f.children ≤ passing test (without tree_cmp e.terms f.left) }
{}
