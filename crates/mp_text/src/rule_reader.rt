//! Reads rules without a tree of their pattern.

ghost use Rattle.std.specs.Prelude.{◌≡◌, ◌<◌, ◌≤◌, ◌++◌, ◌∷◌, ℕ, List, [], length, map, IfOk, OnOk, IsTrue, IsFalse};
ghost use Rattle.mp_term.specs.Signature.{Sig};
ghost use Rattle.mp_pattern.specs.RuleView.{rule_tree};
ghost use Rattle.mp_pattern.specs.View.{pattern_tree};
ghost use Rattle.mp_parser.specs.Syntax as syntax;
ghost use Rattle.mp_parser.specs.Syntax.{RuleOf};
ghost use Rattle.mp_parser.specs.declared.parser.Parser.{Parser};
ghost use Rattle.mp_parser.specs.Parsing.{ahead};
ghost use Rattle.mp_parser.specs.View.{spot_of, arrow_tree, if_tree};
ghost use Rattle.mp_build.specs.Answers.{Gives};
ghost use Rattle.mp_build.specs.WildcardView.{wildcard_view};
ghost use Rattle.mp_text.specs.Draft.{IsDraftOf};
ghost use Rattle.mp_text.specs.FileBuild.{rule_of};
ghost use Rattle.mp_text.specs.FileChecks.{rule_faults, statement_faults};
ghost use Rattle.mp_text.specs.InOrder.{IsDraftRead};
ghost use Rattle.mp_text.specs.ReadPattern.{IsWholePatternOf};
ghost use Rattle.mp_text.specs.ReadRule.{IsRuleStartRead};

use crate::heading::named;
use crate::pattern_reader::read_whole_pattern;
use crate::reader::{Draft, add_statement_name};
use crate::rule::{has_large_result, results_behind, rule_with};
use mp_build::{PatternWildcard, TextError, new_name, normal_built_pattern};
use mp_parser::arena::Arena;
use mp_parser::parser::Parser;
use mp_pattern::{MAX_RULES, Pattern, Rule};
use mp_syntax::{Condition, Expr, Word, read_rule_end};
use mp_term::Signature;
use std::alloc::Global;

/// Adds the rule whose statement comes next, its pattern in normal form, or finds its first fault. False says nothing
/// of the tokens; then none is passed, and the draft is as it was.
pub(crate) fn add_next_rule<'a>(
    alloc: Global,
    draft: &mut Draft<'a>,
    parser: &mut Parser<'a>,
    arena: &mut Arena<'a>,
) -> Result<bool, TextError>
    ensures added { IfOk result (λ b. IsTrue b → (bytes : List ℕ) → IsDraftRead bytes parser.old draft.old
        → IsDraftRead bytes parser.new draft.new) }
    ensures shorter { IfOk result (λ b. IsTrue b → length (ahead parser.new) < length (ahead parser.old)) }
    ensures kept { IfOk result (λ b. IsFalse b → (parser.new ≡ parser.old) × (draft.new ≡ draft.old)) }
{
    let mut reader = *parser;
    let Some(name) = named(&mut reader, b"rule") else {
        return Ok(false);
    };
    let Some((pattern, wildcards)) = read_whole_pattern(alloc, &draft.file.sig, &mut reader)? else {
        return Ok(false);
    };
    *parser = reader;
    add_begun_rule(alloc, draft, parser, arena, name, pattern, &wildcards)?;
    Ok(true)
}

// Adds the rule of this name and of this pattern, which is put in normal form, or finds its first fault. What stands
// behind the pattern comes next.
fn add_begun_rule<'a>(
    alloc: Global,
    draft: &mut Draft<'a>,
    parser: &mut Parser<'a>,
    arena: &mut Arena<'a>,
    name: Word<'a>,
    pattern: Pattern,
    wildcards: &[PatternWildcard<'a>],
) -> Result<(), TextError>
    requires { (e : syntax.Tree) × IsWholePatternOf draft.old.file.sig e (pattern_tree pattern)
        (map wildcard_view wildcards.now) }
    ensures added { IfOk result (λ _. (bytes : List ℕ) (p : Parser) (e : syntax.Tree) → IsDraftRead bytes p draft.old
        → IsWholePatternOf draft.old.file.sig e (pattern_tree pattern) (map wildcard_view wildcards.now)
        → IsRuleStartRead (spot_of name.entry) e (ahead p) (ahead parser.old)
        → IsDraftRead bytes parser.new draft.new) }
    ensures shorter { OnOk result (length (ahead parser.new) ≤ length (ahead parser.old)) }
{
    let (template, condition) = read_rule_end(parser, arena)?;
    add_built_rule(
        alloc, draft, name, pattern, wildcards, &template, &condition,
    )
}

// A rule of this pattern, which is put in normal form, with its template as it is written, or its first fault behind
// its name, where these are the wildcards of the pattern.
fn built_rule<'a>(
    alloc: Global,
    sig: &Signature,
    name: Word<'_>,
    pattern: Pattern,
    wildcards: &[PatternWildcard<'a>],
    template: &Option<&Expr<'a>>,
    condition: &Option<Condition<'_>>,
) -> Result<Rule, TextError>
    requires { (e : syntax.Tree) × IsWholePatternOf sig.now e (pattern_tree pattern) (map wildcard_view wildcards.now) }
    ensures { (e : syntax.Tree) → IsWholePatternOf sig.now e (pattern_tree pattern) (map wildcard_view wildcards.now)
        → Gives result (rule_faults sig.now e (arrow_tree template.now) (if_tree condition.now))
        (λ r. rule_tree r ≡ rule_of sig.now (spot_of name.entry) e (arrow_tree template.now) (if_tree condition.now)) }
{
    let name = new_name(alloc, name)?;
    let pattern = normal_built_pattern(alloc, sig, pattern)?;
    let results = results_behind(alloc, sig, wildcards, template, condition)?;
    Ok(rule_with(name, pattern, results))
}

// Adds a rule of this pattern, which is put in normal form, or finds its first fault.
fn add_built_rule<'a>(
    alloc: Global,
    draft: &mut Draft<'a>,
    name: Word<'a>,
    pattern: Pattern,
    wildcards: &[PatternWildcard<'a>],
    template: &Option<&Expr<'a>>,
    condition: &Option<Condition<'_>>,
) -> Result<(), TextError>
    requires { (e : syntax.Tree) × IsWholePatternOf draft.old.file.sig e (pattern_tree pattern)
        (map wildcard_view wildcards.now) }
    ensures { (sig : Sig) (earlier : List syntax.Statement) (e : syntax.Tree) → IsDraftOf sig earlier draft.old
        → IsWholePatternOf sig e (pattern_tree pattern) (map wildcard_view wildcards.now)
        → Gives result
        (statement_faults sig earlier
        (RuleOf (spot_of name.entry) e (arrow_tree template.now) (if_tree condition.now)))
        (λ _. IsDraftOf sig
        (earlier ++ RuleOf (spot_of name.entry) e (arrow_tree template.now) (if_tree condition.now) ∷ [])
        draft.new) }
{
    let is_large = has_large_result(template, condition);
    add_statement_name(&mut draft.rule_names, name, MAX_RULES, is_large)?;
    let rule = built_rule(
        alloc,
        &draft.file.sig,
        name,
        pattern,
        wildcards,
        template,
        condition,
    )?;
    draft.file.rules.push(rule)?;
    Ok(())
}
