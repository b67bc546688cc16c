//! Terms, patterns and conditions that have exactly their printed spelling.

ghost use Rattle.std.specs.Prelude.{◌≡◌, ◌≢◌, ◌<◌, ◌^◌, ◌-◌, length, IfOk, MatchBool};
ghost use Rattle.mp_term.specs.View.{tree};
ghost use Rattle.mp_pattern.specs.View.{pattern_tree};
ghost use Rattle.mp_pattern.specs.CondView.{cond_tree};
ghost use Rattle.mp_print.specs.Printing.{term_text};
ghost use Rattle.mp_line.specs.Finds.{Finds};
ghost use Rattle.mp_line.specs.LineTexts.{IsExactTerm, IsExactPattern, IsExactCond};

use crate::words::is_same;
use mp_build::if_faultless;
use mp_pattern::{Cond, Pattern};
use mp_print::{printed_cond, printed_pattern, printed_term};
use mp_term::{Memory, Signature, Term};
use mp_text::{read_loose_cond, read_pattern, read_term};
use std::alloc::Global;

// The text is the printed text of the term.
fn is_term_text(alloc: Global, sig: &Signature, term: &Term, text: &[u8]) -> Result<bool, Memory>
    ensures { IfOk result (λ same. MatchBool same (term_text sig.now (tree term.now) ≡ text.now)
        (term_text sig.now (tree term.now) ≢ text.now)) }
{
    if let Term::Sym(name) = term {
        return Ok(name.bytes() == text);
    }
    let printed = printed_term(alloc, sig, term)?;
    Ok(printed.content() == text)
}

// The term that is read of the text, where that is its printed text.
pub(crate) fn exact_term(
    alloc: Global,
    sig: &Signature,
    text: &[u8],
) -> Result<Option<Term>, Memory>
    requires { length text.now < 2 ^ 32 - 1 }
    ensures { IfOk result (λ o. Finds tree (IsExactTerm sig.now text.now) o) }
{
    let Some(term) = if_faultless(read_term(alloc, sig, text))? else {
        return Ok(None);
    };
    let is_same = is_term_text(alloc, sig, &term, text)?;
    if is_same { Ok(Some(term)) } else { Ok(None) }
}

// The pattern that is read of the text, where that is its printed text.
pub(crate) fn exact_pattern(
    alloc: Global,
    sig: &Signature,
    text: &[u8],
) -> Result<Option<Pattern>, Memory>
    requires { length text.now < 2 ^ 32 - 1 }
    ensures { IfOk result (λ o. Finds pattern_tree (IsExactPattern sig.now text.now) o) }
{
    let Some(pattern) = if_faultless(read_pattern(alloc, sig, text))? else {
        return Ok(None);
    };
    let printed = printed_pattern(alloc, sig, &pattern)?;
    if is_same(printed.content(), text) {
        Ok(Some(pattern))
    } else {
        Ok(None)
    }
}

// The condition that is read of the text, where that is its printed text.
pub(crate) fn exact_cond(
    alloc: Global,
    sig: &Signature,
    text: &[u8],
) -> Result<Option<Cond>, Memory>
    requires { length text.now < 2 ^ 32 - 1 }
    ensures { IfOk result (λ o. Finds cond_tree (IsExactCond sig.now text.now) o) }
{
    let Some(cond) = if_faultless(read_loose_cond(alloc, sig, text))? else {
        return Ok(None);
    };
    let printed = printed_cond(alloc, sig, &cond)?;
    if is_same(printed.content(), text) {
        Ok(Some(cond))
    } else {
        Ok(None)
    }
}
