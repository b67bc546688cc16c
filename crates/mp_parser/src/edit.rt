//! Reads the changes of subjects.

ghost use Rattle.std.specs.Prelude.{◌<◌, ◌≤◌, length, OnOk};
ghost use Rattle.mp_parser.specs.Parsing.{ahead, ChangesGive, ChangeGives, PositionGives, IndicesGive};
ghost use Rattle.mp_parser.specs.Parsing.{ReplacementGives, ListedGives};

use crate::arena::Arena;
use crate::fault::SyntaxError;
use crate::limits::MAX_OPEN;
use crate::parser::Parser;
use crate::token::Punct;
use crate::tree::{Change, Expr, Position, Replacement};
use crate::word::Word;
use std::alloc::Global;

impl<'a> Parser<'a> {
    /// Reads changes with a comma between each two, at least one, and the semicolon.
    pub fn changes(&mut self, arena: &mut Arena<'a>) -> Result<Vec<Change<'a>>, SyntaxError>
        ensures read { ChangesGive result (ahead self.old) (ahead self.new) }
        ensures shorter { OnOk result (length (ahead self.new) ≤ length (ahead self.old)) }
    {
        let mut changes = Vec::new(arena.alloc);
        loop {
            changes.push(self.change(arena)?)?;
            if !self.sees(Punct::Comma) {
                break;
            }
            self.advance();
        }
        self.expect(Punct::Semicolon)?;
        Ok(changes)
    }

    // Reads a position, the arrow, and what stands there then.
    fn change(&mut self, arena: &mut Arena<'a>) -> Result<Change<'a>, SyntaxError>
        ensures read { ChangeGives result (ahead self.old) (ahead self.new) }
        ensures shorter { OnOk result (length (ahead self.new) < length (ahead self.old)) }
    {
        let position = self.position(arena.alloc)?;
        let terms = self.replacement(arena)?;
        Ok(Change { position, terms })
    }

    // Reads a position: a dot, or numbers with a dot between each two; and the arrow.
    fn position(&mut self, alloc: Global) -> Result<Position<'a>, SyntaxError>
        ensures read { PositionGives result (ahead self.old) (ahead self.new) }
        ensures shorter { OnOk result (length (ahead self.new) < length (ahead self.old)) }
    {
        if self.sees(Punct::Dot) {
            let place = self.token.place;
            self.advance();
            self.arrow()?;
            return Ok(Position::Root(place));
        }
        let first = self.number()?;
        let others = self.indices(alloc)?;
        Ok(Position::Path { first, others })
    }

    // Reads numbers with a dot before each, up to the arrow, and passes it.
    fn indices(&mut self, alloc: Global) -> Result<Vec<Word<'a>>, SyntaxError>
        ensures read { IndicesGive result (ahead self.old) (ahead self.new) }
        ensures shorter { OnOk result (length (ahead self.new) ≤ length (ahead self.old)) }
    {
        let mut others = Vec::new(alloc);
        while !self.sees_arrow() {
            self.expect(Punct::Dot)?;
            others.push(self.number()?)?;
        }
        self.advance();
        Ok(others)
    }

    // Reads an expression, or expressions in square brackets.
    fn replacement(&mut self, arena: &mut Arena<'a>) -> Result<Replacement<'a>, SyntaxError>
        ensures read { ReplacementGives result (ahead self.old) (ahead self.new) }
        ensures shorter { OnOk result (length (ahead self.new) < length (ahead self.old)) }
    {
        if !self.sees(Punct::OpenSquare) {
            let expr = self.expr(arena, MAX_OPEN)?;
            return Ok(Replacement::Single(expr));
        }
        self.advance();
        let exprs = self.listed(arena)?;
        Ok(Replacement::Listed(exprs))
    }

    // Reads any number of expressions with a comma between each two, and the square bracket that closes them.
    fn listed(&mut self, arena: &mut Arena<'a>) -> Result<&'a [Expr<'a>], SyntaxError>
        ensures read { ListedGives result (ahead self.old) (ahead self.new) }
        ensures shorter { OnOk result (length (ahead self.new) ≤ length (ahead self.old)) }
    {
        if self.sees(Punct::CloseSquare) {
            self.advance();
            return Ok(&[]);
        }
        self.row(arena, Punct::CloseSquare, MAX_OPEN - 1)
    }
}
