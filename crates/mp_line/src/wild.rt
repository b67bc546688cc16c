//! Tokens that take no memory.

ghost use Rattle.std.specs.Prelude.{◌++◌, codes};
ghost use Rattle.mp_term.specs.Signature.{Sig};
ghost use Rattle.mp_pattern.specs.NetTokenView.{net_token};
ghost use Rattle.mp_program.specs.declared.format.Format.{Format};
ghost use Rattle.mp_program.specs.declared.format.Format.TheVariants.{Two};
ghost use Rattle.mp_line.specs.Finds.{Finds, FindsPair};
ghost use Rattle.mp_line.specs.LineTexts.{IsTokenText, IsPlainText, IsCountWord, IsCountText};

use crate::held::{held_kind, held_op};
use crate::numbers::{number, variable};
use crate::words::{before, behind, split_first, split_last};
use mp_pattern::{MAX_COUNT, NetToken};
use mp_program::Format;
use mp_term::Signature;

// The begin of an application.
fn entered(sig: &Signature, name: &[u8]) -> Option<NetToken>
    ensures { (format : Format) → Finds net_token (IsTokenText sig.now format (codes "enter " ++ name.now)) result }
{
    match held_op(sig, name) {
        Some(op) => Some(NetToken::Enter(op)),
        None => None,
    }
}

// The end of an application.
fn left(sig: &Signature, name: &[u8]) -> Option<NetToken>
    ensures { (format : Format) → Finds net_token (IsTokenText sig.now format (codes "leave " ++ name.now)) result }
{
    match held_op(sig, name) {
        Some(op) => Some(NetToken::Leave(op)),
        None => None,
    }
}

// A dot wildcard.
fn dot(word: &[u8]) -> Option<NetToken>
    ensures { (sig : Sig) → (format : Format) →
        Finds net_token (IsTokenText sig format (codes "dot " ++ word.now)) result }
{
    match variable(word) {
        Some(variable) => Some(NetToken::Dot(variable)),
        None => None,
    }
}

// A plus wildcard.
fn plus(word: &[u8]) -> Option<NetToken>
    ensures { (sig : Sig) → (format : Format) →
        Finds net_token (IsTokenText sig format (codes "plus " ++ word.now)) result }
{
    match variable(word) {
        Some(variable) => Some(NetToken::Plus(variable)),
        None => None,
    }
}

// A star wildcard.
fn star(word: &[u8]) -> Option<NetToken>
    ensures { (sig : Sig) → (format : Format) →
        Finds net_token (IsTokenText sig format (codes "star " ++ word.now)) result }
{
    match variable(word) {
        Some(variable) => Some(NetToken::Star(variable)),
        None => None,
    }
}

// A wildcard of a kind: the kind's name and the variable.
fn kind(sig: &Signature, text: &[u8]) -> Option<NetToken>
    ensures { (format : Format) → Finds net_token (IsTokenText sig.now format (codes "kind " ++ text.now)) result }
{
    let Some((name, word)) = split_last(b' ', text) else {
        return None;
    };
    let Some(variable) = variable(word) else {
        return None;
    };
    match held_kind(sig, name) {
        Some(kind) => Some(NetToken::Kind(kind, variable)),
        None => None,
    }
}

// A count from 2 on.
fn count(word: &[u8], fixed: bool) -> Option<(u32, bool)>
    ensures { FindsPair (λ p. p.0) (λ p. p.1) (IsCountWord word.now fixed) result }
{
    let Some(number) = number(word) else {
        return None;
    };
    if 2 <= number && number <= MAX_COUNT {
        return Some((number, fixed));
    }
    None
}

// A count and whether it is fixed: `+` stands behind it where it isn't.
fn any_count(text: &[u8]) -> Option<(u32, bool)>
    ensures { FindsPair (λ p. p.0) (λ p. p.1) (IsCountText text.now) result }
{
    match before(text, b"+") {
        Some(word) => count(word, false),
        None => count(text, true),
    }
}

// A counted wildcard: its variable and its count.
fn counted(text: &[u8]) -> Option<NetToken>
    ensures { (sig : Sig) → Finds net_token (IsTokenText sig Two (codes "counted " ++ text.now)) result }
{
    let Some((word, rest)) = split_first(b' ', text) else {
        return None;
    };
    let Some(variable) = variable(word) else {
        return None;
    };
    match any_count(rest) {
        Some((number, fixed)) => Some(NetToken::Counted(number, fixed, variable)),
        None => None,
    }
}

// A counted wildcard, where the format has them.
fn counted_in(format: Format, text: &[u8]) -> Option<NetToken>
    ensures { (sig : Sig) → Finds net_token (IsTokenText sig format (codes "counted " ++ text.now)) result }
{
    match format {
        Format::One => None,
        Format::Two => counted(text),
    }
}

// A token that is no symbol, no optional wildcard and no whole application.
pub(crate) fn plain_token(sig: &Signature, format: Format, text: &[u8]) -> Option<NetToken>
    requires { IsPlainText text.now }
    ensures { Finds net_token (IsTokenText sig.now format text.now) result }
{
    if let Some(name) = behind(b"enter ", text) {
        return entered(sig, name);
    }
    if let Some(name) = behind(b"leave ", text) {
        return left(sig, name);
    }
    if let Some(word) = behind(b"dot ", text) {
        return dot(word);
    }
    if let Some(word) = behind(b"plus ", text) {
        return plus(word);
    }
    if let Some(word) = behind(b"star ", text) {
        return star(word);
    }
    if let Some(rest) = behind(b"kind ", text) {
        return kind(sig, rest);
    }
    match behind(b"counted ", text) {
        Some(rest) => counted_in(format, rest),
        None => None,
    }
}
