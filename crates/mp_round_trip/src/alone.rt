//! The laws of texts alone: what is printed of a term, a pattern, a template or a condition is read again.

ghost use Rattle.std.specs.Prelude.{◌≤◌, ℕ, List, None};
ghost use Rattle.mp_term.specs.Tree.{Tree};
ghost use Rattle.mp_term.specs.Signature.{Sig};
ghost use Rattle.mp_term.specs.Normal.{normal};
ghost use Rattle.mp_pattern.specs.PatternTree.{Pattern};
ghost use Rattle.mp_pattern.specs.TemplateTree.{Template};
ghost use Rattle.mp_pattern.specs.CondTree.{Cond};
ghost use Rattle.mp_pattern.specs.SoundRule.{IsFormed, IsSoundTemplate, IsSoundCondition};
ghost use Rattle.mp_print.specs.Printing.{term_text};
ghost use Rattle.mp_print.specs.PrintedPattern.{pattern_text};
ghost use Rattle.mp_print.specs.PrintedTemplate.{template_text};
ghost use Rattle.mp_print.specs.PrintedCond.{cond_text};
ghost use Rattle.mp_build.specs.Scope.{Scope};
ghost use Rattle.mp_build.specs.Alone.{IsTermOf, IsPatternOf};
ghost use Rattle.mp_build.specs.AloneCondition.{IsCondOf};
ghost use Rattle.mp_round_trip.specs.AloneTemplate.{IsTemplateOf};
ghost use Rattle.mp_round_trip.specs.OpenBrackets.{condition_depth};
ghost use Rattle.mp_round_trip.specs.Readable.{IsSpelledSignature, IsReadableTerm, IsReadablePattern};
ghost use Rattle.mp_round_trip.specs.Readable.{IsReadableCondition};

use mp_pattern::MAX_DEPTH;

/// Law: the text that a term is printed as, `term_text` of `mp_print`, is read alone as its normal form (`IsTermOf` of
/// mp_build's `specs/Alone.antt`): of each term that passes the checks (`IsReadableTerm` of `specs/Readable.antt`), and
/// so of each term that is read.
///
/// The signature is spelled, by `IsSpelledSignature` of `specs/Readable.antt`: its names are names and its signs are
/// signs, as in every file that is read. It does nothing when it runs.
pub fn printed_term_is_read()
    // What is read of the printed text is the normal form of the term.
    ensures readable { (sig : Sig) (t : Tree) → IsSpelledSignature sig → IsReadableTerm sig t
        → IsTermOf sig (term_text sig t) (normal sig t) }
    // A term that some bytes are is read of its printed text.
    ensures read { (sig : Sig) (bytes : List ℕ) (t : Tree) → IsSpelledSignature sig → IsTermOf sig bytes t
        → IsTermOf sig (term_text sig t) t }
{}

/// Law: the text that a pattern is printed as, `pattern_text` of `mp_print`, is read alone as that pattern
/// (`IsPatternOf` of mp_build's `specs/Alone.antt`): of each pattern that passes the checks (`IsReadablePattern` of
/// `specs/Readable.antt`), normal or not, and so of each pattern that is read.
///
/// The signature is spelled, by `IsSpelledSignature` of `specs/Readable.antt`: its names are names and its signs are
/// signs, as in every file that is read. It does nothing when it runs.
pub fn printed_pattern_is_read()
    // What is read of the printed text is the pattern.
    ensures readable { (sig : Sig) (p : Pattern) → IsSpelledSignature sig → IsReadablePattern sig p
        → IsPatternOf sig (pattern_text sig p) p }
    // A pattern that some bytes are is read of its printed text.
    ensures read { (sig : Sig) (bytes : List ℕ) (p : Pattern) → IsSpelledSignature sig → IsPatternOf sig bytes p
        → IsPatternOf sig (pattern_text sig p) p }
{}

/// Law: the text that a template is printed as, `template_text` of `mp_print`, is read alone as that template, over the
/// variables of a pattern (`IsTemplateOf` of `specs/AloneTemplate.antt`): of each template that is sound over it
/// (`IsSoundTemplate` of mp_pattern's `specs/SoundRule.antt`), and so of each template that is read.
///
/// The signature is spelled, by `IsSpelledSignature` of `specs/Readable.antt`: its names are names and its signs are
/// signs, as in every file that is read. The pattern is formed, as the pattern of every rule that is read. It
/// does nothing when it runs.
pub fn printed_template_is_read()
    // What is read of the printed text is the template.
    ensures readable { (sig : Sig) (p : Pattern) (x : Template) → IsSpelledSignature sig → IsFormed sig p
        → IsSoundTemplate sig p x → IsTemplateOf sig p (template_text sig x) x }
    // A template that some bytes are is read of its printed text.
    ensures read { (sig : Sig) (p : Pattern) (bytes : List ℕ) (x : Template) → IsSpelledSignature sig → IsFormed sig p
        → IsTemplateOf sig p bytes x → IsTemplateOf sig p (template_text sig x) x }
{}

/// Law: the text that a condition is printed as, `cond_text` of `mp_print`, is read alone as that condition, over the
/// variables that may be named (`IsCondOf` of mp_build's `specs/AloneCondition.antt`): of each condition that passes
/// the checks (`IsReadableCondition` of `specs/Readable.antt`), and so of each condition that is read, for it passes
/// them. The condition of a sound rule, with at most 100 brackets open at once in its text, is read over any variables.
///
/// The signature is spelled, by `IsSpelledSignature` of `specs/Readable.antt`: its names are names and its signs are
/// signs, as in every file that is read. It does nothing when it runs.
pub fn printed_condition_is_read()
    // What is read of the printed text is the condition.
    ensures readable { (sig : Sig) (scope : Scope) (c : Cond) → IsSpelledSignature sig
        → IsReadableCondition sig scope c → IsCondOf sig scope (cond_text sig c) c }
    // A condition that some bytes are is read of its printed text.
    ensures read { (sig : Sig) (scope : Scope) (bytes : List ℕ) (c : Cond) → IsSpelledSignature sig
        → IsCondOf sig scope bytes c → IsCondOf sig scope (cond_text sig c) c }
    // A condition that some bytes are passes the checks.
    ensures passes { (sig : Sig) (scope : Scope) (bytes : List ℕ) (c : Cond) → IsSpelledSignature sig
        → IsCondOf sig scope bytes c → IsReadableCondition sig scope c }
    // The condition of a sound rule is read of its printed text, over any variables.
    ensures rule { (sig : Sig) (p : Pattern) (c : Cond) → IsSpelledSignature sig → IsFormed sig p
        → IsSoundCondition sig p c → condition_depth c ≤ MAX_DEPTH → IsCondOf sig None (cond_text sig c) c }
{}
