//! Reads a rule file by recursive descent, with one token held.

ghost use Rattle.std.specs.Prelude.{◌≡◌, ◌<◌, ◌≤◌, ◌-◌, ◌^◌, ◌∷◌, ◌&&◌, None, length, OnOk, IfSome, IfNone};
ghost use Rattle.mp_parser.specs.Tokens.{first_place};
ghost use Rattle.mp_parser.specs.Lexing.{token_of, behind, lexemes};
ghost use Rattle.mp_parser.specs.Machine.{is_punct, is_sign, is_word, is_end, is_number, word_of, sign_of, wildcard_at};
ghost use Rattle.mp_parser.specs.Machine.{is_dot, is_arrow, refusal};
ghost use Rattle.mp_parser.specs.View.{placed, spot_of, spot_of_sign, wildcard_of};
ghost use Rattle.mp_parser.specs.Parsing.{ahead, PunctGives, ArrowGives, TextGives, NumberGives, WildcardGives};
ghost use Rattle.mp_parser.specs.Parsing.{PlusGives};

use crate::fault::{Fault, FaultKind, SyntaxError};
use crate::lexer::Lexer;
use crate::place::Place;
use crate::token::{Kind, Punct, Token};
use crate::tree::Wildcard;
use crate::word::{InfixSign, Word};

/// The token held, and what lies behind it.
///
/// A method that reads a part of a text passes its tokens and gives it. Which part the tokens are is the grammar of
/// `specs/Syntax.antt`; what is passed, and which fault is given, stands in the clause `read` of each method, by
/// `specs/Parsing.antt` and `specs/ConditionParsing.antt`: an equation between what the machine of
/// `specs/Machine.antt` reads of the tokens before, and of those behind. Which texts the machine takes is proved in
/// `mp_syntax`.
///
/// - `SyntaxError::Memory` comes where memory runs out.
/// - `SyntaxError::Fault` comes where the token that is held goes on with no such part, at its place.
///
/// After an error the tokens that were passed stay passed.
#[derive(Clone, Copy, Debug)]
pub struct Parser<'a> {
    /// The token that is held.
    pub token: Token<'a>,
    lexer: Lexer<'a>,
}

impl<'a> Parser<'a> {
    /// A parser at the first token of a file of fewer than 4,294,967,295 bytes.
    pub fn new(bytes: &'a [u8]) -> Parser<'a>
        requires { length bytes.now < 2 ^ 32 - 1 }
        ensures { ahead result ≡ lexemes bytes.now first_place }
    {
        let lexer = Lexer::new(bytes);
        let place = Place { line: 1, column: 1 };
        let kind = Kind::End;
        let token = Token { kind, place };
        let mut parser = Parser { token, lexer };
        parser.take();
        parser
    }

    /// Passes the token that is held. The end stays.
    pub fn advance(&mut self)
        ensures { ahead self.old ≡ placed self.old.token ∷ behind (token_of self.old.token.kind) (ahead self.new) }
    {
        self.take();
    }

    // Holds the next token in place of the one that is held.
    fn take(&mut self)
        ensures { ahead self.new ≡ lexemes self.old.lexer.rest.now self.old.lexer.place }
    {
        self.lexer.next_token(&mut self.token);
    }

    /// The fault of this kind, at the token that is held.
    pub fn fault(&self, kind: FaultKind) -> SyntaxError
        ensures { result ≡ SyntaxError.Fault (record { kind = kind; place = self.now.token.place }) }
    {
        SyntaxError::Fault(Fault {
            kind,
            place: self.token.place,
        })
    }

    /// The fault that the grammar has another token than the one that is held.
    #[cold]
    #[inline(never)]
    pub fn refused(&self) -> SyntaxError
        ensures { result
            ≡ SyntaxError.Fault
            (record { kind = refusal (token_of self.now.token.kind); place = self.now.token.place }) }
    {
        match self.token.kind {
            Kind::Bad => self.fault(FaultKind::BadByte),
            Kind::Long => self.fault(FaultKind::TooMany),
            _ => self.fault(FaultKind::Syntax),
        }
    }

    /// Whether this punctuation character is held.
    pub fn sees(&self, punct: Punct) -> bool
        ensures { result ≡ is_punct punct (token_of self.now.token.kind) }
    {
        match self.token.kind {
            Kind::Punct(held) => held == punct,
            _ => false,
        }
    }

    /// Whether this sign is held.
    pub fn sees_sign(&self, text: &[u8]) -> bool
        ensures { result ≡ is_sign text.now (token_of self.now.token.kind) }
    {
        match self.token.kind {
            Kind::Sign(held) => held == text,
            _ => false,
        }
    }

    /// Whether this word is held.
    pub fn sees_word(&self, text: &[u8]) -> bool
        ensures { result ≡ is_word text.now (token_of self.now.token.kind) }
    {
        match self.token.kind {
            Kind::Word(held) => held == text,
            _ => false,
        }
    }

    /// Whether the default of this wildcard follows, behind the colon that is held.
    pub fn sees_default(&self, wildcard: &Wildcard) -> bool
        ensures { result ≡ (is_punct Punct.Colon (token_of self.now.token.kind) && is_dot (wildcard_of wildcard.now)) }
    {
        self.sees(Punct::Colon) && wildcard.is_dot()
    }

    /// Whether the count of this wildcard follows, behind the brace that is held.
    pub fn sees_count(&self, wildcard: &Wildcard) -> bool
        ensures { result
            ≡ (is_punct Punct.OpenBrace (token_of self.now.token.kind) && is_dot (wildcard_of wildcard.now)) }
    {
        self.sees(Punct::OpenBrace) && wildcard.is_dot()
    }

    /// Whether the arrow is held.
    pub fn sees_arrow(&self) -> bool
        ensures { result ≡ is_arrow (token_of self.now.token.kind) }
    {
        matches!(self.token.kind, Kind::Arrow)
    }

    /// Whether the end is held.
    pub fn is_at_end(&self) -> bool
        ensures { result ≡ is_end (token_of self.now.token.kind) }
    {
        matches!(self.token.kind, Kind::End)
    }

    /// Passes this punctuation character, or refuses the token that is held.
    #[inline]
    pub fn expect(&mut self, punct: Punct) -> Result<(), SyntaxError>
        ensures read { PunctGives (placed self.old.token) punct result (ahead self.old) (ahead self.new) }
        ensures shorter { OnOk result (length (ahead self.new) < length (ahead self.old)) }
    {
        if !self.sees(punct) {
            return Err(self.refused());
        }
        self.advance();
        Ok(())
    }

    /// Passes the arrow, or refuses the token that is held.
    pub fn arrow(&mut self) -> Result<(), SyntaxError>
        ensures read { ArrowGives (placed self.old.token) result (ahead self.old) (ahead self.new) }
        ensures shorter { OnOk result (length (ahead self.new) < length (ahead self.old)) }
    {
        if !self.sees_arrow() {
            return Err(self.refused());
        }
        self.advance();
        Ok(())
    }

    /// Passes a word and gives it, or refuses the token that is held.
    #[inline]
    pub fn word(&mut self) -> Result<Word<'a>, SyntaxError>
        ensures read { TextGives spot_of word_of result (ahead self.old) (ahead self.new) }
        ensures shorter { OnOk result (length (ahead self.new) < length (ahead self.old)) }
    {
        match self.token.kind {
            Kind::Word(text) => {
                let place = self.token.place;
                self.advance();
                Ok(Word { text, place })
            }
            _ => Err(self.refused()),
        }
    }

    /// Passes a wildcard and gives it, where one is held.
    pub fn wildcard(&mut self) -> Option<Wildcard<'a>>
        ensures read { WildcardGives result (ahead self.old) (ahead self.new) }
        ensures shorter { IfSome result (λ w. length (ahead self.new) < length (ahead self.old)) }
        ensures none { IfNone result (wildcard_at (token_of self.new.token.kind) self.new.token.place ≡ None) }
        ensures no_longer { length (ahead self.new) ≤ length (ahead self.old) }
    {
        let place = self.token.place;
        match self.token.kind {
            Kind::Wildcard { name, marks, kind } => {
                self.advance();
                Some(Wildcard {
                    name,
                    marks,
                    kind,
                    place,
                })
            }
            _ => None,
        }
    }

    /// Passes a sign other than the arrow and gives it, or refuses the token that is held.
    pub fn sign(&mut self) -> Result<InfixSign<'a>, SyntaxError>
        ensures read { TextGives spot_of_sign sign_of result (ahead self.old) (ahead self.new) }
        ensures shorter { OnOk result (length (ahead self.new) < length (ahead self.old)) }
    {
        match self.token.kind {
            Kind::Sign(text) => {
                let place = self.token.place;
                self.advance();
                Ok(InfixSign { text, place })
            }
            _ => Err(self.refused()),
        }
    }

    /// Passes a word of digits alone and gives it, or refuses the token that is held.
    pub fn number(&mut self) -> Result<Word<'a>, SyntaxError>
        ensures read { NumberGives (placed self.old.token) result (ahead self.old) (ahead self.new) }
        ensures shorter { OnOk result (length (ahead self.new) < length (ahead self.old)) }
    {
        match self.token.kind {
            Kind::Word(text) if is_number(text) => {
                let place = self.token.place;
                self.advance();
                Ok(Word { text, place })
            }
            _ => Err(self.refused()),
        }
    }

    /// Passes the sign `+` where it is held, and says whether it was.
    pub fn plus(&mut self) -> bool
        ensures read { PlusGives result (ahead self.old) (ahead self.new) }
        ensures shorter { length (ahead self.new) ≤ length (ahead self.old) }
    {
        let plus = self.sees_sign(b"+");
        if plus {
            self.advance();
        }
        plus
    }
}

/// Whether a word is of digits alone: `is_number` of `specs/Machine.antt`. The empty word is.
pub fn is_number(word: &[u8]) -> bool
    ensures { result ≡ is_number word.now }
{
    word.iter().all(|byte| byte.is_ascii_digit())
}
