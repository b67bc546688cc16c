//! Tokens.

ghost use Rattle.std.specs.Prelude.{◌<◌, ◌^◌, ◌-◌, ◌++◌, length, codes, IfOk, IfSome};
ghost use Rattle.mp_term.specs.View.{tree};
ghost use Rattle.mp_pattern.specs.NetTokenView.{net_token};
ghost use Rattle.mp_program.specs.declared.format.Format.{Format};
ghost use Rattle.mp_line.specs.Finds.{Finds};
ghost use Rattle.mp_line.specs.LineTexts.{IsTokenText, IsFreeName, IsSymbolOf, IsDefaultText};

use crate::comm::comm_pattern;
use crate::exact::exact_term;
use crate::names::name;
use crate::numbers::variable;
use crate::wild::plain_token;
use crate::words::{behind, split_first};
use mp_pattern::{MAX_DEFAULT_NODES, NetToken};
use mp_program::Format;
use mp_term::{Memory, Name, Signature, Term, node_count};
use std::alloc::Global;

// The token whose printed text this is.
pub(crate) fn token(
    alloc: Global,
    sig: &Signature,
    format: Format,
    text: &[u8],
) -> Result<Option<NetToken>, Memory>
    requires { length text.now < 2 ^ 32 - 1 }
    ensures { IfOk result (λ o. Finds net_token (IsTokenText sig.now format text.now) o) }
{
    if let Some(name) = behind(b"sym ", text) {
        return symbol(alloc, sig, name);
    }
    if let Some(rest) = behind(b"opt ", text) {
        return optional(alloc, sig, rest);
    }
    if let Some(pattern) = behind(b"comm ", text) {
        return comm(alloc, sig, format, pattern);
    }
    Ok(plain_token(sig, format, text))
}

// The token of the symbol that a term is.
fn symbol_of(term: Term) -> Option<NetToken>
    ensures { Finds net_token (IsSymbolOf (tree term)) result }
{
    match term {
        Term::Sym(name) => Some(NetToken::Sym(name)),
        Term::App(..) => None,
    }
}

// The name that the text is, where it is one and no operation has it.
fn free_name(alloc: Global, sig: &Signature, text: &[u8]) -> Result<Option<Name>, Memory>
    ensures { IfOk result (λ o. IfSome o (λ n. IsFreeName sig.now text.now n)) }
{
    if sig.find_op(text).is_some() {
        return Ok(None);
    }
    name(alloc, text)
}

// A symbol.
fn symbol(alloc: Global, sig: &Signature, name: &[u8]) -> Result<Option<NetToken>, Memory>
    requires { length name.now < 2 ^ 32 - 1 }
    ensures { (format : Format) →
        IfOk result (λ o. Finds net_token (IsTokenText sig.now format (codes "sym " ++ name.now)) o) }
{
    if let Some(free) = free_name(alloc, sig, name)? {
        return Ok(Some(NetToken::Sym(free)));
    }
    match exact_term(alloc, sig, name)? {
        Some(term) => Ok(symbol_of(term)),
        None => Ok(None),
    }
}

// A default: a term that isn't too large.
fn default_term(alloc: Global, sig: &Signature, text: &[u8]) -> Result<Option<Term>, Memory>
    requires { length text.now < 2 ^ 32 - 1 }
    ensures { IfOk result (λ o. Finds tree (IsDefaultText sig.now text.now) o) }
{
    let Some(term) = exact_term(alloc, sig, text)? else {
        return Ok(None);
    };
    let is_small = node_count(&term) <= MAX_DEFAULT_NODES;
    if is_small { Ok(Some(term)) } else { Ok(None) }
}

// An optional wildcard: its variable and its default.
fn optional(alloc: Global, sig: &Signature, text: &[u8]) -> Result<Option<NetToken>, Memory>
    requires { length text.now < 2 ^ 32 - 1 }
    ensures { (format : Format) →
        IfOk result (λ o. Finds net_token (IsTokenText sig.now format (codes "opt " ++ text.now)) o) }
{
    let Some((word, default)) = split_first(b' ', text) else {
        return Ok(None);
    };
    let Some(variable) = variable(word) else {
        return Ok(None);
    };
    match default_term(alloc, sig, default)? {
        Some(term) => Ok(Some(NetToken::Opt(variable, term))),
        None => Ok(None),
    }
}

// A whole application of a commutative operation.
fn comm(
    alloc: Global,
    sig: &Signature,
    format: Format,
    text: &[u8],
) -> Result<Option<NetToken>, Memory>
    requires { length text.now < 2 ^ 32 - 1 }
    ensures { IfOk result (λ o. Finds net_token (IsTokenText sig.now format (codes "comm " ++ text.now)) o) }
{
    match comm_pattern(alloc, sig, format, text)? {
        Some(pattern) => Ok(Some(NetToken::Comm(pattern))),
        None => Ok(None),
    }
}
