//! Reads the flags of operations and the members of kinds.

ghost use Rattle.std.specs.Prelude.{◌≡◌, ◌<◌, ◌≤◌, false, length, OnOk};
ghost use Rattle.mp_parser.specs.Lexing.{token_of};
ghost use Rattle.mp_parser.specs.Machine.{Declared, is_punct, step_flag};
ghost use Rattle.mp_parser.specs.Parsing.{ahead, FlagsGive, FlagGives, FlagWordGives};
ghost use Rattle.mp_parser.specs.Parsing.{MembersGive, flag_step};

use crate::fault::SyntaxError;
use crate::parser::Parser;
use crate::token::{Kind, Punct};
use crate::tree::Flag;
use crate::word::Word;
use std::alloc::Global;

// What a flag is, by the word that it begins with.
#[derive(Clone, Copy, Debug)]
enum FlagWord {
    // `assoc`
    Assoc,
    // `comm`
    Comm,
    // `one`
    One,
    // `infix`
    Infix,
}

impl<'a> Parser<'a> {
    /// Reads flags up to the semicolon, and passes it.
    pub fn flags(&mut self, alloc: Global) -> Result<Vec<Flag<'a>>, SyntaxError>
        ensures read { FlagsGive result (ahead self.old) (ahead self.new) }
        ensures shorter { OnOk result (length (ahead self.new) ≤ length (ahead self.old)) }
    {
        let mut flags = Vec::new(alloc);
        while !self.sees(Punct::Semicolon) {
            flags.push(self.flag()?)?;
        }
        self.advance();
        Ok(flags)
    }

    // Reads a flag, where no semicolon is held.
    fn flag(&mut self) -> Result<Flag<'a>, SyntaxError>
        requires { is_punct Punct.Semicolon (token_of self.old.token.kind) ≡ false }
        ensures read { FlagGives result (ahead self.old) (ahead self.new) }
        ensures shorter { OnOk result (length (ahead self.new) < length (ahead self.old)) }
    {
        match self.flag_word()? {
            FlagWord::Assoc => Ok(Flag::Assoc),
            FlagWord::Comm => Ok(Flag::Comm),
            FlagWord::One => Ok(Flag::One),
            FlagWord::Infix => {
                let sign = self.sign()?;
                Ok(Flag::Infix(sign))
            }
        }
    }

    // Reads the word that a flag begins with, where no semicolon is held.
    fn flag_word(&mut self) -> Result<FlagWord, SyntaxError>
        requires { is_punct Punct.Semicolon (token_of self.old.token.kind) ≡ false }
        ensures read { FlagWordGives result (ahead self.old) (ahead self.new) }
        ensures shorter { OnOk result (length (ahead self.new) < length (ahead self.old)) }
    {
        let flag = match self.token.kind {
            Kind::Word(word) => flag_word_of(word),
            _ => None,
        };
        match flag {
            Some(flag) => {
                self.advance();
                Ok(flag)
            }
            None => Err(self.refused()),
        }
    }

    /// Reads words, at least one, up to the semicolon, and passes it.
    pub fn members(&mut self, alloc: Global) -> Result<Vec<Word<'a>>, SyntaxError>
        ensures read { MembersGive result (ahead self.old) (ahead self.new) }
        ensures shorter { OnOk result (length (ahead self.new) ≤ length (ahead self.old)) }
    {
        let mut members = Vec::new(alloc);
        loop {
            members.push(self.word()?)?;
            if self.sees(Punct::Semicolon) {
                break;
            }
        }
        self.advance();
        Ok(members)
    }
}

// The flag that begins with a word.
fn flag_word_of(word: &[u8]) -> Option<FlagWord>
    ensures { (d : Declared) → flag_step d result ≡ step_flag d word.now }
{
    if word == b"assoc".as_slice() {
        Some(FlagWord::Assoc)
    } else if word == b"comm".as_slice() {
        Some(FlagWord::Comm)
    } else if word == b"one".as_slice() {
        Some(FlagWord::One)
    } else if word == b"infix".as_slice() {
        Some(FlagWord::Infix)
    } else {
        None
    }
}
