//! The tokens of a rule file.

ghost use Rattle.std.specs.Prelude.{◌≡◌, ◌⊎◌, ℕ, List};
ghost use Rattle.mp_parser.specs.declared.place.Place as places;
ghost use Rattle.mp_parser.specs.Tokens.{Placed, Tokens, StopsEarly};
ghost use Rattle.mp_parser.specs.Syntax.{IsSpelled};
ghost use Rattle.mp_parser.specs.Lexing.{token_of};

use crate::place::Place;

/// A punctuation character, which is a token by itself.
#[derive(Clone, Copy, Debug, PartialEq, Eq)]
pub enum Punct {
    /// `(`
    Open,
    /// `)`
    Close,
    /// `[`
    OpenSquare,
    /// `]`
    CloseSquare,
    /// `{`
    OpenBrace,
    /// `}`
    CloseBrace,
    /// `,`
    Comma,
    /// `;`
    Semicolon,
    /// `:`
    Colon,
    /// `.`
    Dot,
    /// `$`
    Dollar,
}

/// What a token is. Its words lie in the bytes of the file.
///
/// Which texts are which token is `Spells` of `specs/Tokens.antt`.
#[derive(Clone, Copy, Debug)]
pub enum Kind<'a> {
    /// 1 to 64 letters and digits.
    Word(&'a [u8]),
    /// Perhaps a word, then one to three underscores, then perhaps a word behind a single one.
    Wildcard {
        /// The word before the underscores; empty where there is none.
        name: &'a [u8],
        /// The number of underscores, 1 to 3.
        marks: usize,
        /// The word behind the underscore; empty where there is none.
        kind: &'a [u8],
    },
    /// A run of the bytes `+ - * / = < > & | ^ ~ ! % @ ?` other than `->`.
    Sign(&'a [u8]),
    /// `->`
    Arrow,
    /// A punctuation character.
    Punct(Punct),
    /// A word, or a wildcard with a word, of more than 64 bytes.
    Long,
    /// A byte that begins no token.
    Bad,
    /// The end of the file.
    End,
}

/// A token and where it stands.
#[derive(Clone, Copy, Debug)]
pub struct Token<'a> {
    /// What the token is.
    pub kind: Kind<'a>,
    /// The place of its first byte; at the end of the file the place just after the last byte.
    pub place: Place,
    pub ghost spelled: { IsSpelled (token_of kind) },
}

/// Law: bytes have at most one list of tokens, by `Tokens` of `specs/Tokens.antt`.
///
/// It does nothing when it runs.
pub fn tokens_are_unique()
    ensures { (bytes : List ℕ) (place : places.Place) (ts us : List Placed) → Tokens bytes place ts
        → Tokens bytes place us → ts ≡ us }
{}

/// Law: bytes have tokens, or tokens up to a byte that begins none, by `StopsEarly` of `specs/Tokens.antt`.
///
/// It does nothing when it runs.
pub fn tokens_are_total()
    ensures { (bytes : List ℕ) (place : places.Place)
        → ((ts : List Placed) × Tokens bytes place ts) ⊎ StopsEarly bytes place }
{}
