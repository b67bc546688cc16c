//! Reads conditions: alternatives, their literals, and square brackets.

ghost use Rattle.std.specs.Prelude.{◌≡◌, ◌<◌, ◌≤◌, false, true, length, map, OnOk};
ghost use Rattle.mp_parser.specs.Lexing.{token_of};
ghost use Rattle.mp_parser.specs.Machine.{is_punct};
ghost use Rattle.mp_parser.specs.View.{literal_tree};
ghost use Rattle.mp_parser.specs.Parsing.{ahead};
ghost use Rattle.mp_parser.specs.ConditionParsing.{ConditionGives, AlternativeGives, LiteralAdded};
ghost use Rattle.mp_parser.specs.ConditionParsing.{NegationGives, BodyAdded, EndsCondition, EndsAlternative};

use crate::arena::Arena;
use crate::condition_tree::{Alternative, Condition, Literal};
use crate::fault::{FaultKind, SyntaxError};
use crate::parser::Parser;
use crate::token::Punct;

impl<'a> Parser<'a> {
    /// Reads a condition, in which at most `room` brackets stand open at once.
    #[cycle(condition)]
    pub fn condition(
        &mut self,
        arena: &mut Arena<'a>,
        room: usize,
    ) -> Result<Condition<'a>, SyntaxError>
        ensures read { ConditionGives room result (ahead self.old) (ahead self.new) }
        ensures ends { OnOk result (EndsCondition (token_of self.new.token.kind)) }
        ensures shorter { OnOk result (length (ahead self.new) < length (ahead self.old)) }
    {
        let mut alternatives = Vec::new(arena.alloc);
        loop {
            alternatives.push(self.alternative(arena, room)?)?;
            if !self.sees_word(b"or") {
                break;
            }
            self.advance();
        }
        Ok(Condition { alternatives })
    }

    // Reads literals with `and` between each two, in which at most `room` brackets stand open at once.
    #[cycle(condition)]
    fn alternative(
        &mut self,
        arena: &mut Arena<'a>,
        room: usize,
    ) -> Result<Alternative<'a>, SyntaxError>
        ensures read { AlternativeGives room result (ahead self.old) (ahead self.new) }
        ensures ends { OnOk result (EndsAlternative (token_of self.new.token.kind)) }
        ensures shorter { OnOk result (length (ahead self.new) < length (ahead self.old)) }
    {
        let mut literals = Vec::new(arena.alloc);
        loop {
            self.literal(arena, room, &mut literals)?;
            if !self.sees_word(b"and") {
                break;
            }
            self.advance();
        }
        Ok(Alternative { literals })
    }

    // Reads a literal, in which at most `room` brackets stand open at once, and puts it behind these.
    #[cycle(condition)]
    fn literal(
        &mut self,
        arena: &mut Arena<'a>,
        room: usize,
        literals: &mut Vec<Literal<'a>>,
    ) -> Result<(), SyntaxError>
        ensures read { LiteralAdded room (map literal_tree literals.old.items) (map literal_tree literals.new.items)
            result (ahead self.old) (ahead self.new) }
        ensures shorter { OnOk result (length (ahead self.new) < length (ahead self.old)) }
    {
        let negated = self.negation();
        if self.sees(Punct::OpenSquare) {
            return self.bracketed(arena, room, negated, literals);
        }
        self.plain(arena, room, negated, literals)
    }

    // Reads an atom, where no square bracket is held, and puts it as a literal behind these.
    fn plain(
        &mut self,
        arena: &mut Arena<'a>,
        room: usize,
        negated: bool,
        literals: &mut Vec<Literal<'a>>,
    ) -> Result<(), SyntaxError>
        requires { is_punct Punct.OpenSquare (token_of self.old.token.kind) ≡ false }
        ensures read { BodyAdded room negated (map literal_tree literals.old.items)
            (map literal_tree literals.new.items) result (ahead self.old) (ahead self.new) }
        ensures shorter { OnOk result (length (ahead self.new) < length (ahead self.old)) }
    {
        let atom = self.atom(arena, room)?;
        literals.push(Literal::Atom { negated, atom })?;
        Ok(())
    }

    // Passes the word `not` where it is held, and says whether it was.
    fn negation(&mut self) -> bool
        ensures read { NegationGives result (ahead self.old) (ahead self.new) }
        ensures shorter { length (ahead self.new) ≤ length (ahead self.old) }
    {
        let negated = self.sees_word(b"not");
        if negated {
            self.advance();
        }
        negated
    }

    // Reads a condition in square brackets, of which the opening one is held, and puts it as a literal behind these.
    #[cycle(condition)]
    fn bracketed(
        &mut self,
        arena: &mut Arena<'a>,
        room: usize,
        negated: bool,
        literals: &mut Vec<Literal<'a>>,
    ) -> Result<(), SyntaxError>
        requires { is_punct Punct.OpenSquare (token_of self.old.token.kind) ≡ true }
        ensures read { BodyAdded room negated (map literal_tree literals.old.items)
            (map literal_tree literals.new.items) result (ahead self.old) (ahead self.new) }
        ensures shorter { OnOk result (length (ahead self.new) < length (ahead self.old)) }
    {
        if room == 0 {
            return Err(self.fault(FaultKind::TooDeep));
        }
        self.advance();
        let condition = self.condition(arena, room - 1)?;
        self.expect(Punct::CloseSquare)?;
        literals.push(Literal::Bracketed { negated, condition })?;
        Ok(())
    }
}
