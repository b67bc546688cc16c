//! Numbers of tokens, by which different ones are mostly told apart at once.
ghost use Rattle.std.specs.Prelude.{◌≡◌};
ghost use Rattle.mp_pattern.specs.View.{pattern_tree};
ghost use Rattle.mp_many.specs.Digest.{mixed, mixed_all, pattern_digest, token_digest};
ghost use Rattle.mp_many.specs.TokenView.{read_token};

use crate::token::Token;
use mp_pattern::Pattern;

// A number with another mixed in.
fn mixed(seed: u64, number: u64) -> u64
    ensures { result ≡ mixed seed number }
{
    seed.wrapping_mul(31).wrapping_add(number)
}

// A number with all bytes mixed in.
fn mixed_all(seed: u64, bytes: &[u8]) -> u64
    ensures { result ≡ mixed_all seed bytes.now }
{
    let mut digest = seed;
    for byte in bytes {
        digest = mixed(digest, u64::from(*byte));
    }
    digest
}

// A number with the symbols and the operations of a pattern mixed in.
fn pattern_digest(seed: u64, pattern: &Pattern) -> u64
    ensures { result ≡ pattern_digest seed (pattern_tree pattern.now) }
{
    match pattern {
        Pattern::Sym(name) => mixed_all(mixed(seed, 1), name.bytes()),
        Pattern::Wild(_, _) => mixed(seed, 3),
        Pattern::App(op, children) => {
            let mut digest = mixed(mixed(seed, 2), u64::from(op.0));
            for child in children.as_slice() {
                digest = pattern_digest(digest, child);
            }
            digest
        }
    }
}

// The number of a token (`token_digest` of `specs/Digest.antt`).
pub(crate) fn token_digest(token: &Token<'_>) -> u64
    ensures { result ≡ token_digest (read_token token.now) }
{
    match token {
        Token::Sym(name) => mixed_all(1, name.bytes()),
        Token::Enter(op) => mixed(2, u64::from(op.0)),
        Token::Leave(op) => mixed(3, u64::from(op.0)),
        Token::Wild(_, _) => 4,
        Token::Comm(pattern, _) => pattern_digest(5, pattern),
    }
}
