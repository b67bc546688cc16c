//! Reads the atoms of conditions.

ghost use Rattle.std.specs.Prelude.{◌≡◌, ◌<◌, ◌≤◌, false, length, OnOk};
ghost use Rattle.mp_parser.specs.Lexing.{token_of};
ghost use Rattle.mp_parser.specs.Machine.{is_punct, relation_of, property_of, measure_of, sense_of, relation_held};
ghost use Rattle.mp_parser.specs.Machine.{property_held};
ghost use Rattle.mp_parser.specs.View.{placed};
ghost use Rattle.mp_parser.specs.Parsing.{ahead};
ghost use Rattle.mp_parser.specs.ConditionParsing.{AtomGives, RelationGives, PropertyGives, AmountGives, MeasureGives};
ghost use Rattle.mp_parser.specs.ConditionParsing.{OperandGives, SenseGives};

use crate::arena::Arena;
use crate::condition_tree::{Amount, Atom, Measure, Property, Relation, Sense};
use crate::fault::{FaultKind, SyntaxError};
use crate::parser::{Parser, is_number};
use crate::token::{Kind, Punct};
use crate::tree::Expr;
use crate::word::Word;

impl<'a> Parser<'a> {
    /// Reads an atom, in which at most `room` brackets stand open at once, where no square bracket is held.
    pub fn atom(&mut self, arena: &mut Arena<'a>, room: usize) -> Result<Atom<'a>, SyntaxError>
        requires { is_punct Punct.OpenSquare (token_of self.old.token.kind) ≡ false }
        ensures read { AtomGives room result (ahead self.old) (ahead self.new) }
        ensures shorter { OnOk result (length (ahead self.new) < length (ahead self.old)) }
    {
        if let Some(relation) = self.sees_relation() {
            self.advance();
            return self.relation(arena, relation, room);
        }
        if let Some(property) = self.sees_property() {
            self.advance();
            return self.property(arena, property, room);
        }
        let first = self.amount(arena, room)?;
        let sense = self.sense()?;
        let second = self.amount(arena, room)?;
        Ok(Atom::Compare(first, sense, second))
    }

    // The relation whose word is held.
    fn sees_relation(&self) -> Option<Relation>
        ensures { result ≡ relation_held (token_of self.now.token.kind) }
    {
        match self.token.kind {
            Kind::Word(word) => relation_of(word),
            _ => None,
        }
    }

    // The property whose word is held.
    fn sees_property(&self) -> Option<Property>
        ensures { result ≡ property_held (token_of self.now.token.kind) }
    {
        match self.token.kind {
            Kind::Word(word) => property_of(word),
            _ => None,
        }
    }

    // Reads two operands in brackets behind the word of this relation.
    fn relation(
        &mut self,
        arena: &mut Arena<'a>,
        relation: Relation,
        room: usize,
    ) -> Result<Atom<'a>, SyntaxError>
        ensures read { RelationGives room relation result (ahead self.old) (ahead self.new) }
        ensures shorter { OnOk result (length (ahead self.new) ≤ length (ahead self.old)) }
    {
        let first = self.operand(arena, room)?;
        self.expect(Punct::Comma)?;
        let second = self.expr(arena, room - 1)?;
        self.expect(Punct::Close)?;
        Ok(Atom::Relate(relation, first, second))
    }

    // Reads an operand and a name in brackets behind the word of this property.
    fn property(
        &mut self,
        arena: &mut Arena<'a>,
        property: Property,
        room: usize,
    ) -> Result<Atom<'a>, SyntaxError>
        ensures read { PropertyGives room property result (ahead self.old) (ahead self.new) }
        ensures shorter { OnOk result (length (ahead self.new) ≤ length (ahead self.old)) }
    {
        let operand = self.operand(arena, room)?;
        self.expect(Punct::Comma)?;
        let name = self.word()?;
        self.expect(Punct::Close)?;
        Ok(Atom::Test(property, operand, name))
    }

    // Reads an amount: a number, or the word of a measure and an operand in brackets.
    fn amount(&mut self, arena: &mut Arena<'a>, room: usize) -> Result<Amount<'a>, SyntaxError>
        ensures read { AmountGives room (placed self.old.token) result (ahead self.old) (ahead self.new) }
        ensures shorter { OnOk result (length (ahead self.new) < length (ahead self.old)) }
    {
        let Kind::Word(text) = self.token.kind else {
            return Err(self.refused());
        };
        if is_number(text) {
            let place = self.token.place;
            self.advance();
            return Ok(Amount::Number(Word { text, place }));
        }
        let Some(measure) = measure_of(text) else {
            return Err(self.refused());
        };
        self.advance();
        let operand = self.measured(arena, room)?;
        Ok(Amount::Measured(measure, operand))
    }

    // Reads an operand in brackets behind the word of a measure.
    fn measured(&mut self, arena: &mut Arena<'a>, room: usize) -> Result<Expr<'a>, SyntaxError>
        ensures read { MeasureGives room result (ahead self.old) (ahead self.new) }
        ensures shorter { OnOk result (length (ahead self.new) ≤ length (ahead self.old)) }
    {
        let operand = self.operand(arena, room)?;
        self.expect(Punct::Close)?;
        Ok(operand)
    }

    // Reads the bracket behind the word of an atom, and the expression behind it.
    fn operand(&mut self, arena: &mut Arena<'a>, room: usize) -> Result<Expr<'a>, SyntaxError>
        ensures read { OperandGives room result (ahead self.old) (ahead self.new) }
        ensures some { OnOk result (0 < room) }
        ensures shorter { OnOk result (length (ahead self.new) < length (ahead self.old)) }
    {
        if !self.sees(Punct::Open) {
            return Err(self.refused());
        }
        if room == 0 {
            return Err(self.fault(FaultKind::TooDeep));
        }
        self.advance();
        self.expr(arena, room - 1)
    }

    // Reads the sign of a comparison.
    fn sense(&mut self) -> Result<Sense, SyntaxError>
        ensures read { SenseGives result (ahead self.old) (ahead self.new) }
        ensures shorter { OnOk result (length (ahead self.new) < length (ahead self.old)) }
    {
        let sense = match self.token.kind {
            Kind::Sign(sign) => sense_of(sign),
            _ => None,
        };
        match sense {
            Some(sense) => {
                self.advance();
                Ok(sense)
            }
            None => Err(self.refused()),
        }
    }
}

// The relation of this word.
fn relation_of(word: &[u8]) -> Option<Relation>
    ensures { result ≡ relation_of word.now }
{
    if word == b"same".as_slice() {
        Some(Relation::Same)
    } else if word == b"less".as_slice() {
        Some(Relation::Less)
    } else if word == b"free".as_slice() {
        Some(Relation::Free)
    } else {
        None
    }
}

// The property of this word.
fn property_of(word: &[u8]) -> Option<Property>
    ensures { result ≡ property_of word.now }
{
    if word == b"kind".as_slice() {
        Some(Property::Kind)
    } else if word == b"head".as_slice() {
        Some(Property::Head)
    } else {
        None
    }
}

// The measure of this word.
fn measure_of(word: &[u8]) -> Option<Measure>
    ensures { result ≡ measure_of word.now }
{
    if word == b"count".as_slice() {
        Some(Measure::Count)
    } else if word == b"size".as_slice() {
        Some(Measure::Size)
    } else {
        None
    }
}

// The comparison of this sign.
fn sense_of(sign: &[u8]) -> Option<Sense>
    ensures { result ≡ sense_of sign.now }
{
    if sign == b"<".as_slice() {
        Some(Sense::Lt)
    } else if sign == b"<=".as_slice() {
        Some(Sense::Le)
    } else if sign == b">".as_slice() {
        Some(Sense::Gt)
    } else if sign == b">=".as_slice() {
        Some(Sense::Ge)
    } else if sign == b"==".as_slice() {
        Some(Sense::Eq)
    } else if sign == b"!=".as_slice() {
        Some(Sense::Ne)
    } else {
        None
    }
}
