//! The main theorems, each as the contract of a function that does nothing.

ghost use Rattle.std.specs.Prelude.{◌≡◌, ◌≤◌, ℕ, true, List, Some, IsSome, length, slice_get, flat_map};
ghost use Rattle.std.specs.List.{AllByRecursion};
ghost use Rattle.mp_term.specs.Listing.{In};
ghost use Rattle.mp_pattern.specs.Fits.{Table, Fits};
ghost use Rattle.mp_pattern.specs.Instance.{is_fully_named, IsPatternApplied};
ghost use Rattle.mp_pattern.specs.SoundRule.{AreSoundRules};
ghost use Rattle.mp_pattern.specs.Value.{Subst};
ghost use Rattle.mp_theory.specs.NoOptional.{HasNoOptional};
ghost use Rattle.mp_walk.specs.Instrs.{Instr, instr_at};
ghost use Rattle.mp_walk.specs.WalkItems.{AreLeafItems};
ghost use Rattle.mp_walk.specs.Walkable.{IsWalkable};
ghost use Rattle.mp_table.specs.Table as tables;
ghost use Rattle.mp_table.specs.Table.{rank_of, subject_of};
ghost use Rattle.mp_term.specs.Size.{node_count};
ghost use Rattle.mp_pattern.specs.Constants.{rule_constants};
ghost use Rattle.mp_pattern.specs.declared.limits.TheConstants.{MAX_TERM_NODES};
ghost use Rattle.mp_many.specs.Many.{Many, IsWalkTable};
ghost use Rattle.mp_many.specs.Laid.{tree_of};
ghost use Rattle.mp_many.specs.Prefixes.{prefixes, IsState};
ghost use Rattle.mp_many.specs.WalkItems.{AreWalkItems, HaveOneTable, rule_items};
ghost use Rattle.mp_term.specs.Tree.{Tree};
ghost use Rattle.mp_term.specs.Signature.{Sig};
ghost use Rattle.mp_term.specs.Normal.{IsNormal};
ghost use Rattle.mp_pattern.specs.Admission.{Rule};
ghost use Rattle.mp_pattern.specs.Lists.{IsAllList};
ghost use Rattle.mp_many.specs.AllPairs.{all_pairs};

/// On a normal subject, what is listed rule by rule is the all-list.
pub fn rules_have_their_all_list()
    ensures { (sig : Sig) (rules : List Rule) (t : Tree) → IsNormal sig t
        → IsAllList sig rules t (all_pairs sig rules t) }
{}

/// A walk over the tree of sound rules that has exactly its leaf items (`AreLeafItems` of mp_walk's
/// `specs/WalkItems.antt`), each once, has exactly the items of the rules, each once (`AreWalkItems` of
/// `specs/WalkItems.antt`), where each leaf gives the rules that it accepts.
pub fn a_walk_over_the_tree_has_the_items_of_the_rules()
    ensures { (sig : Sig) (rules : List Rule) (t : Tree) (is : List (ℕ × Table)) → AreSoundRules sig rules →
        IsNormal sig t → AreLeafItems sig (tree_of sig rules) t is →
        AreWalkItems sig rules t (rule_items (tree_of sig rules) is) }
{}

/// The tree of sound rules is a table that may be walked (`IsWalkable` of mp_walk's `specs/Walkable.antt`). It has a
/// state for each prefix, which is that prefix with its first child, its next sibling and the rules that it accepts.
pub fn the_tree_is_of_the_prefixes()
    ensures walkable { (sig : Sig) (rules : List Rule) → AreSoundRules sig rules →
        IsWalkable sig (tree_of sig rules) }
    ensures states { (sig : Sig) (rules : List Rule) → length (tree_of sig rules) ≡ length (prefixes sig rules) }
    ensures each { (sig : Sig) (rules : List Rule) (n : ℕ) (i : Instr) → instr_at (tree_of sig rules) n ≡ Some i →
        IsState sig rules n i }
{}

/// A table with a normal subject of at most `MAX_TERM_NODES` nodes that holds the rules' constants may be walked
/// (`IsWalkTable` of `specs/Many.antt`).
pub fn a_table_with_the_constants_of_the_rules_may_be_walked()
    ensures { (m : Many) (t : tables.Table) → AllByRecursion (IsNormal m.sig) t.terms →
        node_count (subject_of t) ≤ MAX_TERM_NODES →
        AllByRecursion (λ u. IsSome (rank_of t u)) (flat_map rule_constants m.rules) → IsWalkTable m t }
{}

/// Where each wildcard of a rule's pattern has a name and none is optional, no two items of a walk have that rule and
/// one substitution (`HaveOneTable` of `specs/WalkItems.antt`).
pub fn a_rule_has_one_item_with_a_substitution()
    ensures { (sig : Sig) (rules : List Rule) (t : Tree) (is : List (ℕ × Table)) → AreWalkItems sig rules t is →
        HaveOneTable sig rules t is }
{}

/// There each item of a walk has a substitution that makes the normal subject: the normal form of the pattern's
/// instance, by `IsPatternApplied` of mp_pattern's `specs/Instance.antt`, is the subject.
pub fn an_item_of_a_walk_makes_the_subject()
    ensures { (sig : Sig) (rules : List Rule) (t : Tree) (is : List (ℕ × Table)) → IsNormal sig t →
        AreWalkItems sig rules t is → (n : ℕ) (r : Rule) (T : Table) → slice_get rules n ≡ Some r →
        is_fully_named r.pattern ≡ true → HasNoOptional r.pattern → In {X = ℕ × Table} (n, T) is →
        (s : Subst) × Fits sig r.pattern t s T × IsPatternApplied sig r.pattern s t }
{}
