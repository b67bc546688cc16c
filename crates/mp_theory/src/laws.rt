//! The main theorems, each as the contract of a function that does nothing.
ghost use Rattle.std.specs.Prelude.{◌≡◌, ◌↔◌, ◌+◌, ◌≤◌, ℕ, List, [], Option, Some, true, map, filter, max, length};
ghost use Rattle.std.specs.Prelude.{slice_get};
ghost use Rattle.std.specs.List.{AllByRecursion};
ghost use Rattle.std.specs.List.Sorted.{IsStrictlySortedBy};
ghost use Rattle.mp_term.specs.Tree.{Tree};
ghost use Rattle.mp_term.specs.Size.{node_count};
ghost use Rattle.mp_term.specs.Signature.{Sig};
ghost use Rattle.mp_term.specs.Normal.{IsNormal};
ghost use Rattle.mp_pattern.specs.PatternTree.{Pattern, Wildcard, wild_pattern};
ghost use Rattle.mp_pattern.specs.Subpatterns.{subpatterns};
ghost use Rattle.mp_pattern.specs.Firsts.{firsts_after};
ghost use Rattle.mp_pattern.specs.Limits.{DefaultsAreSmall};
ghost use Rattle.mp_pattern.specs.Size.{pattern_nodes};
ghost use Rattle.mp_pattern.specs.Variables.{variables};
ghost use Rattle.mp_pattern.specs.Value.{Subst};
ghost use Rattle.mp_pattern.specs.Fits.{Entry, Table, Fits};
ghost use Rattle.mp_pattern.specs.DerivationOrder.{table_cmp};
ghost use Rattle.mp_pattern.specs.Instance.{is_fully_named, IsPatternApplied};
ghost use Rattle.mp_pattern.specs.Admission.{Rule, meets};
ghost use Rattle.mp_pattern.specs.Lists.{Pair, IsOneList, IsAllList};
ghost use Rattle.mp_term.specs.Search.{In};
ghost use Rattle.mp_theory.specs.Frames.{Frame, Next, child, settle, start};
ghost use Rattle.mp_theory.specs.Items.{items, onward_all};
ghost use Rattle.mp_theory.specs.Least.{is_least_item};
ghost use Rattle.mp_theory.specs.Narrow.{load};
ghost use Rattle.mp_theory.specs.Machine.{HasShape, onward, tables};
ghost use Rattle.mp_theory.specs.NoOptional.{HasNoOptional};
ghost use Rattle.mp_theory.specs.OneList.{AreItems, Item, item_list, item_substs, one_list, same_item, same_subst};
ghost use Rattle.mp_theory.specs.Trail.{allows, fitted};
ghost use Rattle.mp_theory.specs.ValueSizes.{HaveAtMost};

use mp_pattern::MAX_DEFAULT_NODES;

/// What the search finds is the one-list: for a normal subject, `one_list` of
/// `specs/OneList.antt` holds exactly the substitutions that the rule admits, strictly ascending by least take table.
pub fn one_list_is_the_one_list()
    ensures { (sig : Sig) (r : Rule) (t : Tree) → IsNormal sig t →
        IsOneList sig r t (one_list sig r t) }
{}

/// The items that the search finds are those of the rule: for a normal subject,
/// `item_list` of `specs/OneList.antt` has exactly the substitutions that the rule admits, each with its least take
/// table, strictly ascending by these. Its substitutions are `one_list`.
pub fn the_item_list_is_the_one_list()
    ensures items { (sig : Sig) (r : Rule) (t : Tree) → IsNormal sig t →
        AreItems sig r t (item_list sig r t) }
    ensures substs { (sig : Sig) (r : Rule) (t : Tree) → IsNormal sig t →
        item_substs (item_list sig r t) ≡ one_list sig r t }
{}

/// Each item of a rule on a normal subject has an entry for each node of the pattern, and a value for each of its
/// variables, in order of first occurrence.
pub fn items_have_the_shape_of_the_pattern()
    ensures { (sig : Sig) (r : Rule) (t : Tree) (is : List Item) → IsNormal sig t → AreItems sig r t is →
        AllByRecursion (λ i. (length i.0 ≡ pattern_nodes r.pattern) × (map (λ b. b.name) i.1 ≡ variables r.pattern))
        is }
{}

/// A rule has one one-list on a normal subject: two lists that meet `IsOneList` of mp_pattern's `specs/Lists.antt` are
/// equal.
pub fn one_list_is_unique()
    ensures { (sig : Sig) (r : Rule) (t : Tree) (ss us : List Subst) → IsNormal sig t →
        IsOneList sig r t ss → IsOneList sig r t us → ss ≡ us }
{}

/// Rules have one all-list on a subject: two lists that meet `IsAllList` of mp_pattern's `specs/Lists.antt` are equal.
pub fn all_list_is_unique()
    ensures { (sig : Sig) (rules : List Rule) (t : Tree) (ps qs : List Pair) →
        IsAllList sig rules t ps → IsAllList sig rules t qs → ps ≡ qs }
{}

/// Only finitely many take tables fit a pattern and a normal subject: each of them is in the list `tables` of
/// `specs/Machine.antt`, which holds exactly the tables that have the pattern's shape on the subject, strictly
/// ascending in the derivation order.
pub fn tables_are_exact()
    ensures complete { (sig : Sig) (p : Pattern) (t : Tree) (s : Subst) (T : Table) → IsNormal sig t →
        Fits sig p t s T → In T (tables sig p t) }
    ensures exact { (sig : Sig) (p : Pattern) (t : Tree) (T : Table) →
        In T (tables sig p t) ↔ HasShape sig p t T }
    ensures ascending { (sig : Sig) (p : Pattern) (t : Tree) → IsStrictlySortedBy table_cmp (tables sig p t) }
{}

/// At most one substitution fits with a take table, and for a normal subject
/// `fitted` of `specs/Trail.antt` finds it: it is None exactly where no substitution fits.
pub fn a_table_decides_its_substitution()
    ensures unique { (sig : Sig) (p : Pattern) (t : Tree) (T : Table) (r s : Subst) → IsNormal sig t →
        Fits sig p t r T → Fits sig p t s T → r ≡ s }
    ensures found { (sig : Sig) (p : Pattern) (t : Tree) (s : Subst) (T : Table) →
        IsNormal sig t → Fits sig p t s T ↔ (fitted sig p t T ≡ Some s) }
{}

/// Where each wildcard of the pattern has a name and none is optional, one take table at most fits with a substitution.
pub fn a_substitution_decides_its_table()
    ensures { (sig : Sig) (p : Pattern) (t : Tree) (s : Subst) (T U : Table) →
        is_fully_named p ≡ true → HasNoOptional p →
        Fits sig p t s T → Fits sig p t s U → T ≡ U }
{}

/// The values of a substitution that fits are no larger than the subject and the defaults: where each default of the
/// pattern has at most `MAX_DEFAULT_NODES` nodes, each value has at most so many, or one node more than the subject.
pub fn a_substitution_is_within_its_subject()
    ensures { (sig : Sig) (p : Pattern) (t : Tree) (s : Subst) (T : Table) → DefaultsAreSmall p →
        Fits sig p t s T → HaveAtMost (max MAX_DEFAULT_NODES (node_count t + 1)) s }
{}

/// Where each wildcard of the pattern has a name and none is optional, a substitution that fits makes the subject: the
/// normal form of the pattern's instance, by `IsPatternApplied` of mp_pattern's `specs/Instance.antt`, is the normal
/// subject.
pub fn an_instance_is_the_subject()
    ensures { (sig : Sig) (p : Pattern) (t : Tree) (s : Subst) (T : Table) →
        is_fully_named p ≡ true → HasNoOptional p → IsNormal sig t →
        Fits sig p t s T → IsPatternApplied sig p s t }
{}

/// What the search lists is the item list: `item_list` of `specs/OneList.antt` is the items from the start, `items` of
/// `specs/Items.antt`, that meet the condition, each substitution once.
pub fn the_search_lists_the_items()
    ensures { (sig : Sig) (r : Rule) (t : Tree) →
        item_list sig r t ≡ firsts_after same_item [] (filter (λ i. meets sig r.condition i.1)
        (items sig (pattern_nodes r.pattern) (settle (start r.pattern t)) [])) }
{}

/// The child that takes next behind some entries is the one of the pattern's nodes with their number, in preorder, as
/// `subpatterns` of mp_pattern's `specs/Subpatterns.antt` lists them.
pub fn the_next_child_is_a_node_of_the_pattern()
    ensures { (p c : Pattern) (t : Tree) (T : Table) (f : Frame) (fs : List Frame) →
        onward_all (settle (start p t)) T ≡ child c f fs → slice_get (subpatterns p) (length T) ≡ Some c }
{}

/// What is left at a place is no more than what is left before it: behind an entry that may stand there no more nodes,
/// and behind a wildcard fewer by each term that it takes.
pub fn less_is_left_behind_an_entry()
    ensures falls { (sig : Sig) (n : Next) (e : Entry) → allows sig n e ≡ true → load (onward n e) ≤ load n }
    ensures wildcard { (sig : Sig) (w : Wildcard) (x : Option (List ℕ)) (f : Frame) (fs : List Frame) (e : Entry) →
        let n : Next = child (wild_pattern w x) f fs in
        allows sig n e ≡ true → load (onward n e) + length e.terms ≤ load n }
{}

/// A search over the whole substitution of a table that fits finds exactly the items with that substitution, in order.
/// So an item stands in the item list exactly where the first of them has its table, `is_least_item` of
/// `specs/Least.antt`.
pub fn a_second_search_finds_the_items_of_a_substitution()
    ensures found { (sig : Sig) (p : Pattern) (t : Tree) (s : Subst) (T : Table) → IsNormal sig t → Fits sig p t s T →
        items sig (pattern_nodes p) (settle (start p t)) s
        ≡ filter (λ i. same_subst s i.1) (items sig (pattern_nodes p) (settle (start p t)) []) }
    ensures least { (sig : Sig) (r : Rule) (t : Tree) → IsNormal sig t →
        item_list sig r t ≡ filter (is_least_item sig r.pattern t) (filter (λ i. meets sig r.condition i.1)
        (items sig (pattern_nodes r.pattern) (settle (start r.pattern t)) [])) }
{}
