//! The net tokens of a pattern.
ghost use Rattle.std.specs.Prelude.{◌≡◌, ◌∷◌, ◌++◌, [], OnOk, IfOk, option_map};
ghost use Rattle.mp_pattern.specs.PatternTree.{patterns};
ghost use Rattle.mp_pattern.specs.View.{wildcard, pattern_tree};
ghost use Rattle.mp_pattern.specs.NetTokens.{all_tokens, number_in, wild_token, tokens, tokens_of};
ghost use Rattle.mp_pattern.specs.NetTokenView.{net_token};

use crate::first_names::variable_names;
use crate::net_token::{NetToken, NetTokens};
use crate::numbering::{renamed, variable_number};
use crate::pattern::{Pattern, Patterns, Shape};
use mp_term::{Memory, Name, Names, Signature, copy_term};
use std::alloc::Global;

/// The token of a wildcard with this number of its variable (`wild_token` of `specs/NetTokens.antt`). `Memory` comes
/// where there is no room for a copy of its default.
pub fn wild_token(alloc: Global, shape: &Shape, number: Option<u32>) -> Result<NetToken, Memory>
    ensures { IfOk result (λ k. net_token k ≡ wild_token (wildcard shape.now) number) }
{
    match shape {
        Shape::Dot => Ok(NetToken::Dot(number)),
        Shape::Kind(kind) => Ok(NetToken::Kind(*kind, number)),
        Shape::Plus => Ok(NetToken::Plus(number)),
        Shape::Star => Ok(NetToken::Star(number)),
        Shape::Opt(term) => Ok(NetToken::Opt(number, copy_term(alloc, term)?)),
        Shape::Counted { least, fixed } => Ok(NetToken::Counted(*least, *fixed, number)),
    }
}

// Adds the token of the wildcard, as the names number its variable.
fn push_wildcard(
    alloc: Global,
    names: &Names,
    shape: &Shape,
    variable: &Option<Name>,
    out: &mut NetTokens,
) -> Result<(), Memory>
    ensures { OnOk result (out.new
        ≡ out.old ++ wild_token (wildcard shape.now) (option_map (number_in names.now) variable.now) ∷ []) }
{
    let number = variable_number(names, variable)?;
    out.push(wild_token(alloc, shape, number)?)
}

// Adds the tokens of the pattern, as the names number its variables.
#[cycle(push_tokens)]
fn push_tokens(
    alloc: Global,
    sig: &Signature,
    names: &Names,
    pattern: &Pattern,
    out: &mut NetTokens,
) -> Result<(), Memory>
    ensures { OnOk result (out.new
        ≡ out.old ++ tokens sig.now names.now (pattern_tree pattern.now)) }
{
    match pattern {
        Pattern::Sym(name) => out.push(NetToken::Sym(name.copy(alloc)?)),
        Pattern::App(op, args) => {
            if sig.is_comm(*op) {
                return out.push(NetToken::Comm(renamed(alloc, names, pattern)?));
            }
            out.push(NetToken::Enter(*op))?;
            push_all_tokens(alloc, sig, names, args, out)?;
            out.push(NetToken::Leave(*op))
        }
        Pattern::Wild(shape, variable) => push_wildcard(alloc, names, shape, variable, out),
    }
}

// Adds those of the patterns, one after the other.
#[cycle(push_tokens)]
fn push_all_tokens(
    alloc: Global,
    sig: &Signature,
    names: &Names,
    parts: &Patterns,
    out: &mut NetTokens,
) -> Result<(), Memory>
    ensures { OnOk result (out.new ≡ out.old ++ all_tokens sig.now names.now (patterns parts.now)) }
{
    for part in &parts.items {
        push_tokens(alloc, sig, names, part, out)?;
    }
    Ok(())
}

/// The net tokens of the pattern of a rule (`tokens_of` of `specs/NetTokens.antt`). A symbol and a wildcard have one
/// token, and an application of a commutative operation too; another application has the tokens of its arguments
/// between its `Enter` and its `Leave`. Variables are numbered from 0 by first occurrence in the pattern, which is
/// taken as it stands, normal or not. An operation that isn't held counts as one that isn't commutative.
///
/// `Memory` comes where there is no room for the tokens, or where the number of a variable is beyond `u32::MAX`.
pub fn tokens_of(alloc: Global, sig: &Signature, pattern: &Pattern) -> Result<NetTokens, Memory>
    ensures { IfOk result (λ ts. ts ≡ tokens_of sig.now (pattern_tree pattern.now)) }
{
    let names = variable_names(alloc, pattern)?;
    let mut tokens = NetTokens::new(alloc);
    push_tokens(alloc, sig, &names, pattern, &mut tokens)?;
    Ok(tokens)
}
