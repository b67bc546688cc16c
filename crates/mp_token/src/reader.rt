//! Reads tokens, byte by byte.

ghost use Rattle.std.specs.Prelude.{◌≡◌, ◌<◌, ◌++◌, ◌∷◌, [], true, Some, None, IfOk, IfErr, MatchBool, option_map};
ghost use Rattle.mp_term.specs.Names.{is_name};
ghost use Rattle.mp_token.specs.Spelling.{IsSpelling, IsFault};
ghost use Rattle.mp_token.specs.Machine.{start, state_of, name_step, longer_name, longer_number, digit_spot, moved};
ghost use Rattle.mp_token.specs.Machine.{comma_step, mark_step, end_step, entry_step, step, token_of, HasNames};
ghost use Rattle.mp_token.specs.Machine.{IsEndFault};

use crate::entries::TokenEntries;
use crate::fault::TokenFault;
use crate::token::Token;
use mp_table::Rank;
use mp_term::{MAX_NAME_BYTES, Memory, Name, NameFault};
use std::alloc::Global;

// Where in a token a reader stands: in a name, before an entry, behind the digits of a number of an entry, behind a
// comma or behind the mark of an entry.
#[derive(Clone, Copy)]
enum Spot {
    InSubject,
    InRule,
    BeforeEntry,
    InNumber(u32),
    AfterComma,
    AfterMark,
}

// What is read of a token: of its names, its entries before the one in which the reader stands, and the ranks of this
// one before the number in which it stands.
#[derive(Drop)]
struct Reader {
    subject: Vec<u8>,
    rule: Vec<u8>,
    entries: TokenEntries,
    ranks: Vec<Rank>,
    spot: Spot,
}

/// The token that the bytes spell, by `specs/Spelling.antt`.
///
/// `Spelling` comes exactly where they spell none, unless there was no memory: some token begins with the first `at`
/// bytes, and none with more of them. `Memory`: there was no memory.
pub fn read_token(alloc: Global, bytes: &[u8]) -> Result<Token, TokenFault>
    ensures token { IfOk result (λ t. IsSpelling bytes.now t) }
    ensures fault { IfErr result (λ e. IsFault bytes.now e) }
{
    let mut reader = Reader::new(alloc);
    for (index, byte) in bytes.iter().enumerate() {
        if !reader.pass(*byte)? {
            return Err(TokenFault::Spelling { at: index as u64 });
        }
    }
    reader.finish(alloc, bytes.len() as u64)
}

// Passes a byte of a name, or the slash behind it, with which the spot is the next one. Answers false, and changes
// nothing, where no token goes on so.
fn pass_name(name: &mut Vec<u8>, spot: &mut Spot, next: Spot, byte: u8) -> Result<bool, Memory>
    ensures { IfOk result (λ passed. MatchBool passed
        (name_step name.old.items spot.old next byte ≡ Some (name.new.items, spot.new))
        (name_step name.old.items spot.old next byte ≡ None)) }
{
    if byte == b'/' && !name.is_empty() {
        *spot = next;
        return Ok(true);
    }
    if !byte.is_ascii_alphanumeric() || name.len() >= MAX_NAME_BYTES {
        return Ok(false);
    }
    name.push(byte)?;
    Ok(true)
}

// The number with a digit behind it, if that is a decimal number of 32 bits.
fn longer_number(number: u32, digit: u8) -> Option<u32>
    requires { digit < 10 }
    ensures { result ≡ longer_number number digit }
{
    let longer = u64::from(number) * 10 + u64::from(digit);
    if number == 0 || longer > u64::from(u32::MAX) {
        return None;
    }
    Some(longer as u32)
}

// The spot behind a digit.
fn digit_spot(spot: Spot, digit: u8) -> Option<Spot>
    requires { digit < 10 }
    ensures { result ≡ digit_spot spot digit }
{
    match spot {
        Spot::BeforeEntry | Spot::AfterComma => Some(Spot::InNumber(u32::from(digit))),
        Spot::InNumber(number) => match longer_number(number, digit) {
            Some(longer) => Some(Spot::InNumber(longer)),
            None => None,
        },
        _ => None,
    }
}

// The name of these bytes, which are one.
fn name_of(alloc: Global, bytes: &[u8]) -> Result<Name, TokenFault>
    requires { is_name bytes.now ≡ true }
    ensures name { IfOk result (λ n. n ≡ bytes.now) }
    ensures memory { IfErr result (λ e. e ≡ TokenFault.Memory) }
{
    match Name::new(alloc, bytes) {
        Ok(name) => Ok(name),
        Err(NameFault::Memory) => Err(TokenFault::Memory),
        Err(NameFault::Spelling) => unreachable!(),
    }
}

impl Reader {
    // Nothing is read.
    fn new(alloc: Global) -> Reader
        ensures { state_of result ≡ start }
    {
        Reader {
            subject: Vec::new(alloc),
            rule: Vec::new(alloc),
            entries: TokenEntries::new(alloc),
            ranks: Vec::new(alloc),
            spot: Spot::InSubject,
        }
    }

    // Passes a byte, or answers false where no token goes on so.
    fn pass(&mut self, byte: u8) -> Result<bool, Memory>
        ensures { IfOk result (λ passed. MatchBool passed
            (step (state_of self.old) byte ≡ Some (state_of self.new)) (step (state_of self.old) byte ≡ None)) }
    {
        match self.spot {
            Spot::InSubject => pass_name(&mut self.subject, &mut self.spot, Spot::InRule, byte),
            Spot::InRule => pass_name(&mut self.rule, &mut self.spot, Spot::BeforeEntry, byte),
            _ => self.pass_in_entries(byte),
        }
    }

    // Passes a byte of the entries, or answers false where no token goes on so.
    fn pass_in_entries(&mut self, byte: u8) -> Result<bool, Memory>
        ensures { IfOk result (λ passed. MatchBool passed
            (entry_step (state_of self.old) byte ≡ Some (state_of self.new))
            (entry_step (state_of self.old) byte ≡ None)) }
    {
        match byte {
            b'0'..=b'9' => Ok(self.pass_digit(byte - b'0')),
            b',' => self.pass_comma(),
            b'!' => self.pass_mark(),
            b';' => self.end_entry(),
            _ => Ok(false),
        }
    }

    // Passes a digit, or answers false where no token goes on so.
    fn pass_digit(&mut self, digit: u8) -> bool
        requires { digit < 10 }
        ensures { MatchBool result
            (option_map (λ spot. moved (state_of self.old) (state_of self.old).ranks spot)
            (digit_spot self.old.spot digit) ≡ Some (state_of self.new))
            (digit_spot self.old.spot digit ≡ None) }
    {
        match digit_spot(self.spot, digit) {
            Some(spot) => {
                self.spot = spot;
                true
            }
            None => false,
        }
    }

    // Passes a comma, or answers false where no token goes on so.
    fn pass_comma(&mut self) -> Result<bool, Memory>
        ensures { IfOk result (λ passed. MatchBool passed
            (comma_step (state_of self.old) self.old.spot ≡ Some (state_of self.new))
            (comma_step (state_of self.old) self.old.spot ≡ None)) }
    {
        let Spot::InNumber(number) = self.spot else {
            return Ok(false);
        };
        self.ranks.push(Rank(number))?;
        self.spot = Spot::AfterComma;
        Ok(true)
    }

    // Passes a mark, or answers false where no token goes on so.
    fn pass_mark(&mut self) -> Result<bool, Memory>
        ensures { IfOk result (λ passed. MatchBool passed
            (mark_step (state_of self.old) self.old.spot ≡ Some (state_of self.new))
            (mark_step (state_of self.old) self.old.spot ≡ None)) }
    {
        match self.spot {
            Spot::BeforeEntry => {}
            Spot::InNumber(number) => self.ranks.push(Rank(number))?,
            _ => return Ok(false),
        }
        self.spot = Spot::AfterMark;
        Ok(true)
    }

    // Ends the entry in which the reader stands, or answers false where it can't end so.
    fn end_entry(&mut self) -> Result<bool, Memory>
        ensures { IfOk result (λ passed. MatchBool passed
            (end_step (state_of self.old) self.old.spot ≡ Some (state_of self.new))
            (end_step (state_of self.old) self.old.spot ≡ None)) }
    {
        let collapsed = match self.spot {
            Spot::BeforeEntry => false,
            Spot::InNumber(number) => {
                self.ranks.push(Rank(number))?;
                false
            }
            Spot::AfterMark => true,
            _ => return Ok(false),
        };
        self.entries.push(&self.ranks, collapsed)?;
        self.ranks.clear();
        self.spot = Spot::BeforeEntry;
        Ok(true)
    }

    // The token that is read, where the bytes may end here. `at` is their number.
    fn finish(mut self, alloc: Global, at: u64) -> Result<Token, TokenFault>
        requires { HasNames (state_of self) }
        ensures token { IfOk result (λ t. option_map token_of (end_step (state_of self) self.spot) ≡ Some t) }
        ensures fault { IfErr result (λ e. IsEndFault (end_step (state_of self) self.spot) at e) }
    {
        if !self.end_entry()? {
            return Err(TokenFault::Spelling { at });
        }
        let Reader {
            subject,
            rule,
            entries,
            ..
        } = self;
        let subject = name_of(alloc, &subject)?;
        let rule = name_of(alloc, &rule)?;
        Ok(Token {
            subject,
            rule,
            entries,
        })
    }
}
