//! What an instruction does behind its token.

ghost use Rattle.std.specs.Prelude.{◌≡◌, [], Some, IfOk};
ghost use Rattle.mp_program.specs.RightForm.{are_ascending};
ghost use Rattle.mp_line.specs.ActionView.{action_view};
ghost use Rattle.mp_line.specs.Finds.{Finds, FindsPair};
ghost use Rattle.mp_line.specs.LineTexts.{are_accepted, AreAcceptedText, IsActionText};
ghost use Rattle.mp_line.specs.Words.{IsBeforeNumbers, is_digit_or_blank};

use crate::numbers::{number, numbers};
use crate::words::{before, split_behind};
use mp_term::Memory;
use mp_walk::Numbers;
use std::alloc::Global;

// Where it leads down, and which rules it accepts.
#[derive(Drop)]
pub(crate) struct Action {
    pub(crate) down: Option<u32>,
    pub(crate) accepts: Numbers,
}

// Each number is less than the next.
fn are_ascending(numbers: &[u32]) -> bool
    ensures { result ≡ are_ascending numbers.now }
{
    for index in 1..numbers.len() {
        if numbers[index - 1] >= numbers[index] {
            return false;
        }
    }
    true
}

// The byte is a digit or a blank.
fn is_digit_or_blank(byte: u8) -> bool
    ensures { result ≡ is_digit_or_blank byte }
{
    byte.is_ascii_digit() || byte == b' '
}

// What stands before the digits and blanks at the end of the text, and these.
fn before_numbers(text: &[u8]) -> (&[u8], &[u8])
    ensures { IsBeforeNumbers text.now result.0.now result.1.now }
{
    let mut end = text.len();
    while end > 0 {
        if !is_digit_or_blank(text[end - 1]) {
            return (&text[..end], &text[end..]);
        }
        end -= 1;
    }
    (b"".as_slice(), text)
}

// There are numbers, and each is less than the next.
fn are_accepted(numbers: &[u32]) -> bool
    ensures { result ≡ are_accepted numbers.now }
{
    !numbers.is_empty() && are_ascending(numbers)
}

// The numbers of the rules that an action accepts, a blank before each.
fn accepted(alloc: Global, text: &[u8]) -> Result<Option<Numbers>, Memory>
    ensures { IfOk result (λ o. Finds (λ ns. ns) (AreAcceptedText text.now) o) }
{
    let Some(numbers) = numbers(alloc, text)? else {
        return Ok(None);
    };
    let is_right = are_accepted(numbers.as_slice());
    if is_right {
        Ok(Some(numbers))
    } else {
        Ok(None)
    }
}

// What stands before ` down`, and the number behind it and a blank, with which the text ends.
fn led(text: &[u8]) -> Option<(&[u8], u32)>
    ensures { FindsPair (λ p. p.0.now) (λ p. p.1) (λ front n. IsActionText text.now front (Some n) []) result }
{
    let Some((token, word)) = split_behind(b" down", b' ', text) else {
        return None;
    };
    match number(word) {
        Some(number) => Some((token, number)),
        None => None,
    }
}

// The text of the token before an action, and the action.
pub(crate) fn split_action(alloc: Global, text: &[u8]) -> Result<Option<(&[u8], Action)>, Memory>
    ensures { IfOk result (λ o. FindsPair (λ p. p.0.now) (λ p. action_view p.1)
        (λ front a. IsActionText text.now front a.0 a.1) o) }
{
    if let Some((token, number)) = led(text) {
        let accepts = Numbers::new(alloc);
        let down = Some(number);
        return Ok(Some((token, Action { down, accepts })));
    }
    let (front, digits) = before_numbers(text);
    let Some(token) = before(front, b" accept") else {
        return Ok(None);
    };
    let Some(accepts) = accepted(alloc, digits)? else {
        return Ok(None);
    };
    Ok(Some((
        token,
        Action {
            down: None,
            accepts,
        },
    )))
}
