//! Numbers of a line.

ghost use Rattle.std.specs.Char.{is_ascii_digit};
ghost use Rattle.std.specs.List.{list_all};
ghost use Rattle.std.specs.Prelude.{◌≡◌, ◌≤◌, ◌++◌, ◌&&◌, true, false, length, codes, decimal, IfOk, MatchOption};
ghost use Rattle.mp_build.specs.Names.{number_of};
ghost use Rattle.mp_program.specs.Reading.{is_numeral};
ghost use Rattle.mp_line.specs.Finds.{Finds};
ghost use Rattle.mp_line.specs.LineTexts.{IsNumberText, IsNumberedText, IsVariableText, IsTargetText, AreNumbersText};

use crate::words::{behind, blank_and_word, is_same, split_first};
use mp_term::Memory;
use mp_walk::Numbers;
use std::alloc::Global;

// How many digits a number of 32 bits has at most.
const MOST_DIGITS: usize = 10;

// The number that decimal digits write, which are few. None: another byte is among them.
fn value_of(word: &[u8]) -> Option<u64>
    requires { length word.now ≤ MOST_DIGITS }
    ensures { MatchOption result (list_all is_ascii_digit word.now ≡ false)
        (λ v. (list_all is_ascii_digit word.now ≡ true) × (v ≡ number_of word.now)) }
{
    let mut value: u64 = 0;
    for digit in word {
        if !digit.is_ascii_digit() {
            return None;
        }
        value = 10 * value + u64::from(digit.saturating_sub(b'0'));
    }
    Some(value)
}

// There are digits, and no zero before others.
fn begins_right(word: &[u8]) -> bool
    ensures { is_numeral word.now ≡ list_all is_ascii_digit word.now && result }
{
    match word {
        [first, rest @ ..] => *first != b'0' || rest.is_empty(),
        [] => false,
    }
}

/// The number of 32 bits of which the word is the decimal text, which has no leading zero (`IsNumberText` of
/// `specs/LineTexts.antt`). `None`: there is none.
pub fn number(word: &[u8]) -> Option<u32>
    ensures { Finds (λ n. n) (IsNumberText word.now) result }
{
    if word.len() > MOST_DIGITS {
        return None;
    }
    if !begins_right(word) {
        return None;
    }
    let Some(value) = value_of(word) else {
        return None;
    };
    if value > u64::from(u32::MAX) {
        return None;
    }
    Some(value as u32)
}

/// The number of 32 bits of which the word is `v` and the decimal text (`IsNumberedText` of `specs/LineTexts.antt`).
/// `None`: there is none.
pub fn number_of_name(word: &[u8]) -> Option<u32>
    ensures { Finds (λ n. n) (IsNumberedText word.now) result }
{
    match behind(b"v", word) {
        Some(digits) => number(digits),
        None => None,
    }
}

// The number of a variable, or none for `_`.
pub(crate) fn variable(word: &[u8]) -> Option<Option<u32>>
    ensures { Finds (λ x. x) (IsVariableText word.now) result }
{
    if is_same(word, b"_") {
        return Some(None);
    }
    match number_of_name(word) {
        Some(number) => Some(Some(number)),
        None => None,
    }
}

// The number of an instruction, or none for `-`.
pub(crate) fn target(word: &[u8]) -> Option<Option<u32>>
    ensures { Finds (λ t. t) (IsTargetText word.now) result }
{
    if is_same(word, b"-") {
        return Some(None);
    }
    match number(word) {
        Some(number) => Some(Some(number)),
        None => None,
    }
}

// The numbers, a blank before each.
pub(crate) fn numbers(alloc: Global, text: &[u8]) -> Result<Option<Numbers>, Memory>
    ensures { IfOk result (λ o. Finds (λ ns. ns) (AreNumbersText text.now) o) }
{
    let mut numbers = Numbers::new(alloc);
    let mut rest = text;
    while !rest.is_empty() {
        let Some((word, behind)) = blank_and_word(rest) else {
            return Ok(None);
        };
        let Some(number) = number(word) else {
            return Ok(None);
        };
        numbers.push(number)?;
        rest = behind;
    }
    Ok(Some(numbers))
}

// What stands behind the number and a blank, where the line begins so.
pub(crate) fn behind_number(own: u32, line: &[u8]) -> Option<&[u8]>
    ensures { Finds (λ rest. rest.now) (λ rest. line.now ≡ decimal own ++ (codes " " ++ rest)) result }
{
    let Some((word, rest)) = split_first(b' ', line) else {
        return None;
    };
    let Some(number) = number(word) else {
        return None;
    };
    if number == own { Some(rest) } else { None }
}
