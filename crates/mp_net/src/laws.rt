//! The main theorems, each as the contract of a function that does nothing.

ghost use Rattle.std.specs.Prelude.{◌≡◌, ◌≤◌, ◌↔◌, ℕ, List, [], Option, Some, None, true, map, length};
ghost use Rattle.std.specs.List.{AllByRecursion};
ghost use Rattle.mp_term.specs.Tree.{Tree};
ghost use Rattle.mp_term.specs.Signature.{Sig};
ghost use Rattle.mp_term.specs.Normal.{IsNormal};
ghost use Rattle.mp_pattern.specs.PatternTree.{Pattern};
ghost use Rattle.mp_pattern.specs.Syntactic.{is_syntactic};
ghost use Rattle.mp_pattern.specs.Value.{Subst};
ghost use Rattle.mp_pattern.specs.Fits.{Table, Fits};
ghost use Rattle.mp_theory.specs.Solve.{solve};
ghost use Rattle.mp_term.specs.Size.{node_count};
ghost use Rattle.mp_pattern.specs.Admission.{Rule};
ghost use Rattle.mp_pattern.specs.Lists.{IsAllList};
ghost use Rattle.mp_theory.specs.Shape.{shape, of_kinds, takings};
ghost use Rattle.mp_net.specs.Net.{Open, Turn, IsNet, rules_at, run, trace};
ghost use Rattle.mp_net.specs.AllList.{pairs_from, starts, shaped};

/// A syntactic pattern fits a normal subject exactly where the subject has its shape, the kinds are met and the
/// substitution solves what the variables take.
pub fn syntactic_patterns_fit_by_shape()
    ensures { (sig : Sig) (p : Pattern) (t : Tree) (s : Subst) → is_syntactic sig p ≡ true → IsNormal sig t →
        ((T : Table) × Fits sig p t s T)
        ↔ ((shape p t ≡ true) × (of_kinds sig p t ≡ true) × (solve sig [] (takings None p t) ≡ Some s)) }
{}

/// For syntactic rules and a normal subject, what is found rule by rule is the all-list.
pub fn syntactic_rules_have_their_all_list()
    ensures { (sig : Sig) (t : Tree) (rules : List Rule) → IsNormal sig t
        → AllByRecursion (λ r. is_syntactic sig r.pattern ≡ true) rules
        → IsAllList sig rules t (pairs_from sig t 0 rules) }
{}

/// Behind the subject, a net has exactly the rules whose patterns have its shape, in order, and each node was read once
/// at most.
pub fn a_net_finds_the_rules_of_the_shape()
    ensures rules { (rules : List (List Open)) (turns : List Turn) → IsNet rules turns
        → (t : Tree) (i : ℕ) (ps : List Pattern) (q : Option ℕ)
        → rules_at rules q ≡ starts i ps → map (λ o. o.rule) (rules_at rules (run turns t q)) ≡ shaped t i ps }
    ensures reads { (turns : List Turn) (t : Tree) (q : Option ℕ) → length (trace turns t q) ≤ node_count t }
{}
