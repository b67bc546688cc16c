//! Rule lines.

ghost use Rattle.std.specs.Prelude.{◌≡◌, ◌<◌, ◌^◌, ◌-◌, false, length, IfOk, MatchOption};
ghost use Rattle.mp_io.specs.Devices.{Text};
ghost use Rattle.mp_term.specs.Names.{is_name_byte};
ghost use Rattle.mp_term.specs.Signature.{Sig};
ghost use Rattle.mp_program.specs.declared.format.Format.TheVariants.{One, Two};
ghost use Rattle.mp_program.specs.RuleView.{rule_test, rule_line_view};
ghost use Rattle.mp_line.specs.Finds.{Finds, FindsPair};
ghost use Rattle.mp_line.specs.LineTexts.{IsHeadText, IsBeforeTest, IsRuleBody, IsRuleText};
ghost use Rattle.mp_line.specs.Words.{is_letter_or_blank, IsFrontOfWords, has_if, IsSplitAtIf};

use crate::exact::exact_cond;
use crate::names::{MAX_KEPT, name, names};
use crate::numbers::number;
use crate::words::{before, behind, between, first_word, split_behind};
use mp_pattern::BoxedCond;
use mp_program::{Format, RuleLine, RuleTest};
use mp_term::{Memory, Signature};
use std::alloc::Global;

// The rule line of the names in the text, that of the rule and those of its variables, and of a test.
fn rule_with(alloc: Global, text: &[u8], test: RuleTest) -> Result<Option<RuleLine>, Memory>
    ensures { IfOk result (λ o. Finds rule_line_view (IsHeadText MAX_KEPT text.now (rule_test test)) o) }
{
    let (word, rest) = first_word(text);
    let Some(name) = name(alloc, word)? else {
        return Ok(None);
    };
    match names(alloc, rest)? {
        Some(vars) => Ok(Some(RuleLine { name, vars, test })),
        None => Ok(None),
    }
}

// What stands before ` if [`, and the number between that and the end.
fn split_number(text: &[u8]) -> Option<(&[u8], u32)>
    ensures { FindsPair (λ p. p.0.now) (λ p. p.1) (IsBeforeTest text.now) result }
{
    let Some((rest, word)) = split_behind(b" if ", b'[', text) else {
        return None;
    };
    match number(word) {
        Some(test) => Some((rest, test)),
        None => None,
    }
}

// The rule line of format 2.
fn numbered_rule(alloc: Global, text: &[u8]) -> Result<Option<RuleLine>, Memory>
    ensures { (sig : Sig) → IfOk result (λ o. Finds rule_line_view (IsRuleBody sig Two MAX_KEPT text.now) o) }
{
    let Some(tested) = before(text, b"]") else {
        return rule_with(alloc, text, RuleTest::Untested);
    };
    match split_number(tested) {
        Some((front, test)) => rule_with(alloc, front, RuleTest::Tested(test)),
        None => Ok(None),
    }
}

// The byte is a letter or a digit.
fn is_letter(byte: u8) -> bool
    ensures { result ≡ is_name_byte byte }
{
    byte.is_ascii_alphanumeric()
}

// The byte is a letter, a digit or a blank.
fn is_letter_or_blank(byte: u8) -> bool
    ensures { result ≡ is_letter_or_blank byte }
{
    is_letter(byte) || byte == b' '
}

// The letters, digits and blanks that the text begins with, and what stands behind them.
fn front_of_words(text: &[u8]) -> (&[u8], &[u8])
    ensures { IsFrontOfWords text.now result.0.now result.1.now }
{
    let mut end = 0;
    while end < text.len() {
        if !is_letter_or_blank(text[end]) {
            return (&text[..end], &text[end..]);
        }
        end += 1;
    }
    (text, b"".as_slice())
}

// What stands before the last ` if `.
fn before_last_if(text: &[u8]) -> Option<&[u8]>
    ensures { MatchOption result (has_if text.now ≡ false)
        (λ front. (behind : Text) × IsSplitAtIf text.now front.now behind) }
{
    let mut at = text.len();
    while at > 0 {
        at -= 1;
        if let Some(_) = behind(b" if ", &text[at..]) {
            return Some(&text[..at]);
        }
    }
    None
}

// The rule line of format 1: its condition begins behind the last ` if ` of the letters, digits and blanks with which
// the line begins, since a condition begins with at most `not` and a number, a word and a bracket, or a bracket.
fn spelled_rule(alloc: Global, sig: &Signature, text: &[u8]) -> Result<Option<RuleLine>, Memory>
    requires { length text.now < 2 ^ 32 - 1 }
    ensures { IfOk result (λ o. Finds rule_line_view (IsRuleBody sig.now One MAX_KEPT text.now) o) }
{
    let (words, rest) = front_of_words(text);
    if rest.is_empty() {
        return rule_with(alloc, text, RuleTest::Untested);
    }
    let Some(front) = before_last_if(words) else {
        return Ok(None);
    };
    let spelling = &text[front.len() + 4..];
    match exact_cond(alloc, sig, spelling)? {
        Some(cond) => rule_with(
            alloc,
            front,
            RuleTest::Spelled(BoxedCond::new(alloc, cond)?),
        ),
        None => Ok(None),
    }
}

// The rule line whose text this is, without its line feed, in a program text of the format. The names of `MAX_KEPT`
// variables are kept at most. None: it is the text of no rule line.
pub(crate) fn read_rule(
    alloc: Global,
    sig: &Signature,
    format: Format,
    line: &[u8],
) -> Result<Option<RuleLine>, Memory>
    requires { length line.now < 2 ^ 32 - 1 }
    ensures { IfOk result (λ o. Finds rule_line_view (IsRuleText sig.now format MAX_KEPT line.now) o) }
{
    let Some(text) = between(b"rule ", line, b";") else {
        return Ok(None);
    };
    match format {
        Format::One => spelled_rule(alloc, sig, text),
        Format::Two => numbered_rule(alloc, text),
    }
}
