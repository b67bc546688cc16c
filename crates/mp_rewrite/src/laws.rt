//! What steps and rewriting are, each as the contract of a function that does nothing.
ghost use Rattle.std.specs.Prelude.{◌≡◌, ◌↔◌, ℕ, List, Some, None};
ghost use Rattle.mp_term.specs.Tree.{Tree};
ghost use Rattle.mp_term.specs.Signature.{Sig, IsSignature};
ghost use Rattle.mp_pattern.specs.Admission.{Rule};
ghost use Rattle.mp_pattern.specs.Step.{Stepped, stepped};
ghost use Rattle.mp_rewrite.specs.Step.{IsStep, IsDead};
ghost use Rattle.mp_rewrite.specs.Rewriting.{Rewriting, IsRewriting};
ghost use Rattle.mp_rewrite.specs.Rewritable.{AreRewriteRules, IsRewritable};
ghost use Rattle.mp_rewrite.specs.Computed.{next_step, rewriting};

/// A term has one step at most: where it has one, `next_step` of `specs/Computed.antt` is it. It has none exactly where
/// no position is live.
pub fn next_step_is_the_step()
    ensures step { (sig : Sig) (rules : List Rule) (t : Tree) (result : Stepped) →
        IsSignature sig → AreRewriteRules sig rules → IsRewritable sig t →
        IsStep sig rules t result ↔ (next_step sig rules t ≡ Some result) }
    ensures dead { (sig : Sig) (rules : List Rule) (t : Tree) →
        IsSignature sig → AreRewriteRules sig rules → IsRewritable sig t →
        IsDead sig rules t ↔ (next_step sig rules t ≡ None) }
{}

/// A step leads from a term that can be rewritten to one that can be.
pub fn steps_keep_terms_rewritable()
    ensures { (sig : Sig) (rules : List Rule) (t u : Tree) →
        IsSignature sig → AreRewriteRules sig rules → IsRewritable sig t →
        IsStep sig rules t (stepped u) → IsRewritable sig u }
{}

/// There is one rewriting of a term with a limit: `rewriting` of `specs/Computed.antt`.
pub fn rewriting_is_the_rewriting()
    ensures { (sig : Sig) (rules : List Rule) (limit : ℕ) (t : Tree) (result : Rewriting) →
        IsSignature sig → AreRewriteRules sig rules → IsRewritable sig t →
        IsRewriting sig rules limit t result ↔ (rewriting sig rules limit t ≡ result) }
{}
