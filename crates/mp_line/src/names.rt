//! The names of a rule line.

ghost use Rattle.std.specs.Prelude.{IfOk};
ghost use Rattle.mp_line.specs.Finds.{Finds};
ghost use Rattle.mp_line.specs.LineTexts.{IsNameText, AreNamesText};

use crate::words::blank_and_word;
use mp_pattern::MAX_VARIABLES;
use mp_term::{Memory, Name, NameFault, Names};
use std::alloc::Global;

/// How many names of the variables of a rule line are kept at most: one more than a rule may have, so that it shows
/// where there are too many.
pub const MAX_KEPT: usize = MAX_VARIABLES + 1;

// The name that the word is.
pub(crate) fn name(alloc: Global, word: &[u8]) -> Result<Option<Name>, Memory>
    ensures { IfOk result (λ o. Finds (λ n. n) (IsNameText word.now) o) }
{
    match Name::new(alloc, word) {
        Ok(name) => Ok(Some(name)),
        Err(NameFault::Spelling) => Ok(None),
        Err(NameFault::Memory) => Err(Memory),
    }
}

// The names, a blank before each, of which so many are kept.
pub(crate) fn names(alloc: Global, text: &[u8]) -> Result<Option<Names>, Memory>
    ensures { IfOk result (λ o. Finds (λ ns. ns) (AreNamesText MAX_KEPT text.now) o) }
{
    let mut names = Names::new(alloc);
    let mut rest = text;
    while !rest.is_empty() {
        let Some((word, behind)) = blank_and_word(rest) else {
            return Ok(None);
        };
        let Some(name) = name(alloc, word)? else {
            return Ok(None);
        };
        if names.len() < MAX_KEPT {
            names.push(name)?;
        }
        rest = behind;
    }
    Ok(Some(names))
}
