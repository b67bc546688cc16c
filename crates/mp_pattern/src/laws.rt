//! Laws of the pattern order and of normal forms, each as the contract of a function that does nothing.
ghost use Rattle.std.specs.Prelude.{◌≡◌, ◌≤◌, ◌↔◌, ◌+◌, ◌*◌, List, map, length, None, true};
ghost use Rattle.std.specs.declared.cmp.Ordering.TheVariants.{Equal};
ghost use Rattle.std.specs.Cmp.{IsTotalOrder};
ghost use Rattle.std.specs.List.{AllByRecursion};
ghost use Rattle.std.specs.List.Sorted.{IsPermutation};
ghost use Rattle.mp_term.specs.Tree.{Tree};
ghost use Rattle.mp_term.specs.Order.{tree_cmp};
ghost use Rattle.mp_term.specs.Signature.{Sig, IsSignature, well_formed};
ghost use Rattle.mp_term.specs.Listing.{IsListing};
ghost use Rattle.mp_term.specs.Size.{all_nodes};
ghost use Rattle.mp_term.specs.Normal.{normal, IsNormal};
ghost use Rattle.mp_pattern.specs.declared.limits.TheConstants.{MAX_PATTERN_NODES, MAX_DEFAULT_NODES, MAX_ATOMS};
ghost use Rattle.mp_pattern.specs.declared.limits.TheConstants.{MAX_OPERAND_NODES};
ghost use Rattle.mp_pattern.specs.PatternTree.{Pattern};
ghost use Rattle.mp_pattern.specs.TemplateTree.{Template};
ghost use Rattle.mp_pattern.specs.Value.{Subst};
ghost use Rattle.mp_pattern.specs.Fits.{Table, Fits};
ghost use Rattle.mp_pattern.specs.Instance.{IsInstance};
ghost use Rattle.mp_pattern.specs.SoundRule.{IsSoundPattern, IsSoundTemplate, IsSoundRule};
ghost use Rattle.mp_pattern.specs.Limits.{DefaultsAreSmall};
ghost use Rattle.mp_pattern.specs.Operands.{HasConditionOver};
ghost use Rattle.mp_pattern.specs.PlanFault.{plan_fault};
ghost use Rattle.mp_pattern.specs.Admission.{Rule};
ghost use Rattle.mp_pattern.specs.Constants.{IsConstantOf};
ghost use Rattle.mp_pattern.specs.Size.{pattern_nodes};
ghost use Rattle.mp_pattern.specs.Order.{is_ground, pattern_cmp};
ghost use Rattle.mp_pattern.specs.Normal.{normal_pattern, IsNormalPattern};
ghost use Rattle.mp_pattern.specs.Subpatterns.{subpatterns};
ghost use Rattle.mp_pattern.specs.Clash.{first_clash};
ghost use Rattle.mp_pattern.specs.Ground.{term_pattern};
ghost use Rattle.mp_pattern.specs.Variables.{uses, variables};
ghost use Rattle.mp_pattern.specs.Plan.{Plan, IsPlanOf, plan_of};

/// The pattern order is total, and equal patterns alone are equal in it.
pub fn pattern_order_is_total()
    ensures total { IsTotalOrder pattern_cmp }
    ensures equal { (p q : Pattern) → (pattern_cmp p q ≡ Equal) ↔ (p ≡ q) }
{}

/// The normal form of a pattern is its own normal form.
pub fn normal_pattern_is_idempotent()
    ensures { (sig : Sig) (p : Pattern) → normal_pattern sig (normal_pattern sig p) ≡ normal_pattern sig p }
{}

/// The normal form of a pattern has no more nodes than the pattern.
pub fn normal_pattern_is_no_larger()
    ensures { (sig : Sig) (p : Pattern) → pattern_nodes (normal_pattern sig p) ≤ pattern_nodes p }
{}

/// A pattern and its normal form have the same names of variables, each at as many wildcards, and so the same
/// variables.
pub fn normal_pattern_keeps_variables()
    ensures names { (sig : Sig) (p : Pattern) →
        IsPermutation (map (λ u. u.name) (uses None p)) (map (λ u. u.name) (uses None (normal_pattern sig p))) }
    ensures variables { (sig : Sig) (p : Pattern) → IsPermutation (variables p) (variables (normal_pattern sig p)) }
{}

/// The normal form of a pattern in which no two wildcards of one variable differ has none that differ either.
pub fn normal_pattern_keeps_no_clash()
    ensures { (sig : Sig) (p : Pattern) → first_clash p ≡ None → first_clash (normal_pattern sig p) ≡ None }
{}

/// Each subpattern of a normal pattern is normal.
pub fn subpatterns_are_normal()
    ensures { (sig : Sig) (p : Pattern) → IsNormalPattern sig p → AllByRecursion (IsNormalPattern sig) (subpatterns p) }
{}

/// A pattern without a wildcard is a term. Such patterns compare as their terms, and the normal form of one is that of
/// its term.
pub fn ground_patterns_are_terms()
    ensures terms { (p : Pattern) → (is_ground p ≡ true) ↔ ((t : Tree) × (p ≡ term_pattern t)) }
    ensures order { (t u : Tree) → pattern_cmp (term_pattern t) (term_pattern u) ≡ tree_cmp t u }
    ensures normal { (sig : Sig) (t : Tree) → normal_pattern sig (term_pattern t) ≡ term_pattern (normal sig t) }
{}

/// Where a table fits a sound pattern and a well formed subject with a substitution, each sound template has an
/// instance at the substitution, which is well formed: each of its operations is held and has a number of arguments
/// that it allows.
pub fn instances_of_sound_templates_are_well_formed()
    ensures instance { (sig : Sig) (p : Pattern) (x : Template) (t : Tree) (s : Subst) (table : Table) →
        IsSignature sig → IsSoundPattern sig p → IsSoundTemplate sig p x → well_formed sig t ≡ true →
        Fits sig p t s table → (u : Tree) × IsInstance x s u }
    ensures well_formed { (sig : Sig) (p : Pattern) (x : Template) (t : Tree) (s : Subst) (table : Table) →
        IsSignature sig → IsSoundPattern sig p → IsSoundTemplate sig p x → well_formed sig t ≡ true →
        Fits sig p t s table → (u : Tree) → IsInstance x s u → well_formed sig u ≡ true }
{}

/// A sound rule can be matched: its defaults are small, its condition speaks of the variables of its pattern and of
/// small ground terms, and its pattern has a plan.
pub fn sound_rules_can_be_matched()
    ensures defaults { (sig : Sig) (r : Rule) → IsSoundRule sig r → DefaultsAreSmall r.pattern }
    ensures condition { (sig : Sig) (r : Rule) → IsSoundRule sig r →
        HasConditionOver (variables r.pattern) r.condition }
    ensures plan { (sig : Sig) (r : Rule) → IsSoundRule sig r → plan_fault r.pattern ≡ None }
{}

/// The constants of sound rules are normal, and the numbers of their nodes sum up to at most 16,384 for each rule:
/// `MAX_PATTERN_NODES` symbols and defaults of at most `MAX_DEFAULT_NODES` nodes, and two operands of at most
/// `MAX_OPERAND_NODES` for each of `MAX_ATOMS` atoms.
pub fn constants_of_sound_rules_are_normal_and_few()
    ensures normal { (sig : Sig) (rs : List Rule) (ts : List Tree) → AllByRecursion (IsSoundRule sig) rs →
        IsListing tree_cmp (IsConstantOf rs) ts → AllByRecursion (IsNormal sig) ts }
    ensures few { (sig : Sig) (rs : List Rule) (ts : List Tree) → AllByRecursion (IsSoundRule sig) rs →
        IsListing tree_cmp (IsConstantOf rs) ts → all_nodes ts
        ≤ length rs * (MAX_PATTERN_NODES * MAX_DEFAULT_NODES + 2 * MAX_ATOMS * MAX_OPERAND_NODES) }
{}

/// A plan has one pattern, over whatever signature.
pub fn a_plan_has_one_pattern()
    ensures { (sig other : Sig) (p q : Pattern) (plan : Plan) → IsPlanOf sig p plan → IsPlanOf other q plan → p ≡ q }
{}

/// The nodes and the variables of a plan have one pattern, over whatever signature.
pub fn nodes_and_variables_decide_the_pattern()
    ensures { (sig other : Sig) (p q : Pattern) → (plan_of sig p).nodes ≡ (plan_of other q).nodes →
        (plan_of sig p).variables ≡ (plan_of other q).variables → p ≡ q }
{}
