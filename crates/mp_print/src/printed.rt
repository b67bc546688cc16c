//! The printed texts of values, in memory.

ghost use Rattle.std.specs.Prelude.{◌≡◌, IfOk};
ghost use Rattle.mp_term.specs.View.{tree};
ghost use Rattle.mp_pattern.specs.View.{pattern_tree};
ghost use Rattle.mp_pattern.specs.CondView.{cond_tree};
ghost use Rattle.mp_print.specs.Printing.{term_text};
ghost use Rattle.mp_print.specs.PrintedPattern.{pattern_text};
ghost use Rattle.mp_print.specs.PrintedCond.{cond_text};
ghost use Rattle.mp_print.specs.PrintedSignature.{signature_text};

use crate::cond_printer::write_cond;
use crate::pattern_printer::write_pattern;
use crate::printer::write_term;
use crate::signature_printer::write_signature;
use crate::text_sink::TextSink;
use mp_pattern::{Cond, Pattern};
use mp_term::{Memory, Signature, Term};
use std::alloc::Global;

/// The text of a term, as `write_term` writes it. `Memory` comes where there is no room for it.
pub fn printed_term(alloc: Global, sig: &Signature, term: &Term) -> Result<TextSink, Memory>
    ensures { IfOk result (λ s. s.bytes.items ≡ term_text sig.now (tree term.now)) }
{
    let mut sink = TextSink::new(alloc);
    write_term(sig, term, &mut sink).map_err(|_| Memory)?;
    Ok(sink)
}

/// The text of a pattern, as `write_pattern` writes it. `Memory` comes where there is no room for it.
pub fn printed_pattern(
    alloc: Global,
    sig: &Signature,
    pattern: &Pattern,
) -> Result<TextSink, Memory>
    ensures { IfOk result (λ s. s.bytes.items ≡ pattern_text sig.now (pattern_tree pattern.now)) }
{
    let mut sink = TextSink::new(alloc);
    write_pattern(sig, pattern, &mut sink).map_err(|_| Memory)?;
    Ok(sink)
}

/// The text of a condition, as `write_cond` writes it. `Memory` comes where there is no room for it.
pub fn printed_cond(alloc: Global, sig: &Signature, cond: &Cond) -> Result<TextSink, Memory>
    ensures { IfOk result (λ s. s.bytes.items ≡ cond_text sig.now (cond_tree cond.now)) }
{
    let mut sink = TextSink::new(alloc);
    write_cond(sig, cond, &mut sink).map_err(|_| Memory)?;
    Ok(sink)
}

/// The text of the declarations of a signature, as `write_signature` writes them. `Memory` comes where there is no room
/// for it.
pub fn printed_signature(alloc: Global, sig: &Signature) -> Result<TextSink, Memory>
    ensures { IfOk result (λ s. s.bytes.items ≡ signature_text sig.now) }
{
    let mut sink = TextSink::new(alloc);
    write_signature(sig, &mut sink).map_err(|_| Memory)?;
    Ok(sink)
}
