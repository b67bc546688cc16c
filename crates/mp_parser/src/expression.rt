//! Reads expressions.

ghost use Rattle.std.specs.Prelude.{◌≡◌, ◌<◌, ◌≤◌, [], None, true, length, map, OnOk, IfOk};
ghost use Rattle.std.specs.Prelude.{IfSome, IfNone};
ghost use Rattle.mp_parser.specs.Lexing.{token_of};
ghost use Rattle.mp_parser.specs.Machine.{is_punct, wildcard_at};
ghost use Rattle.mp_parser.specs.View.{spot_of, spot_of_sign, wildcard_of, expr_tree};
ghost use Rattle.mp_parser.specs.Syntax.{HasNoDefault, Optional};
ghost use Rattle.mp_parser.specs.Parsing.{ahead, ExprGives, WordLeads, DollarLeads, WildcardLeads};
ghost use Rattle.mp_parser.specs.Parsing.{HasNoDefaultBehind, CountGives, ChainGives, RowGives, OperandsGive};
ghost use Rattle.mp_parser.specs.Parsing.{DefaultGives, IsTreeOrMemory, ExprAdded};

use crate::arena::Arena;
use crate::fault::{FaultKind, SyntaxError};
use crate::parser::Parser;
use crate::place::Place;
use crate::token::{Kind, Punct};
use crate::tree::{Expr, Wildcard};
use crate::word::{InfixSign, Word};
use bumpalo::Bump;
use std::alloc::Global;

impl<'a> Parser<'a> {
    /// Reads an expression, in which at most `room` brackets stand open at once.
    pub fn expr(&mut self, arena: &mut Arena<'a>, room: usize) -> Result<Expr<'a>, SyntaxError>
        ensures read { ExprGives room result (ahead self.old) (ahead self.new) }
        ensures shorter { OnOk result (length (ahead self.new) < length (ahead self.old)) }
        ensures kept { OnOk result (arena.new.pending.items ≡ arena.old.pending.items) }
    {
        self.expression(arena, room)
    }

    // Reads an expression by the token that it begins with: only one that begins with a wildcard has a default.
    #[cycle(expression)]
    fn expression(&mut self, arena: &mut Arena<'a>, room: usize) -> Result<Expr<'a>, SyntaxError>
        ensures read { ExprGives room result (ahead self.old) (ahead self.new) }
        ensures plain { wildcard_at (token_of self.old.token.kind) self.old.token.place ≡ None
            → IfOk result (λ e. HasNoDefault (expr_tree e)) }
        ensures shorter { OnOk result (length (ahead self.new) < length (ahead self.old)) }
        ensures kept { OnOk result (arena.new.pending.items ≡ arena.old.pending.items) }
    {
        let place = self.token.place;
        match self.token.kind {
            Kind::Word(text) => {
                self.advance();
                self.behind_word(arena, Word { text, place }, room)
            }
            Kind::Wildcard { name, marks, kind } => {
                self.advance();
                let wildcard = Wildcard {
                    name,
                    marks,
                    kind,
                    place,
                };
                self.behind_wildcard(arena, wildcard, room)
            }
            Kind::Punct(Punct::Open) => self.infix(arena, room),
            Kind::Punct(Punct::Dollar) => {
                self.advance();
                self.behind_dollar(place)
            }
            _ => Err(self.refused()),
        }
    }

    // Reads what begins with this wildcard: one with a default, where a colon follows, with a count, where a brace
    // follows, or the wildcard alone.
    #[cycle(expression)]
    fn behind_wildcard(
        &mut self,
        arena: &mut Arena<'a>,
        wildcard: Wildcard<'a>,
        room: usize,
    ) -> Result<Expr<'a>, SyntaxError>
        ensures read { WildcardLeads room (wildcard_of wildcard.entry) result (ahead self.old) (ahead self.new) }
        ensures shorter { OnOk result (length (ahead self.new) ≤ length (ahead self.old)) }
        ensures kept { OnOk result (arena.new.pending.items ≡ arena.old.pending.items) }
    {
        if !self.sees_default(&wildcard) {
            return self.counted(arena.bump, wildcard);
        }
        self.advance();
        let (others, last) = self.chain(arena.alloc, arena.bump)?;
        let default = self.behind_chain(arena, last, room)?;
        optional(arena.bump, wildcard, others, default)
    }

    // Reads the default behind a chain of wildcards: what begins with its last wildcard, where this is no longer held,
    // or the expression that is held.
    #[cycle(expression)]
    fn behind_chain(
        &mut self,
        arena: &mut Arena<'a>,
        last: Option<Wildcard<'a>>,
        room: usize,
    ) -> Result<Expr<'a>, SyntaxError>
        requires held { IfNone last (wildcard_at (token_of self.old.token.kind) self.old.token.place ≡ None) }
        requires last { IfSome last (λ w. HasNoDefaultBehind (wildcard_of w) (token_of self.old.token.kind)) }
        ensures read { DefaultGives room last.entry result (ahead self.old) (ahead self.new) }
        ensures plain { IfOk result (λ e. HasNoDefault (expr_tree e)) }
        ensures shorter { OnOk result (length (ahead self.new) ≤ length (ahead self.old)) }
        ensures kept { OnOk result (arena.new.pending.items ≡ arena.old.pending.items) }
    {
        match last {
            Some(wildcard) => self.counted(arena.bump, wildcard),
            None => self.expression(arena, room),
        }
    }

    // Reads what begins with this wildcard, where no default of it follows: one with a count, where a brace follows, or
    // the wildcard alone.
    fn counted(&mut self, bump: &'a Bump, wildcard: Wildcard<'a>) -> Result<Expr<'a>, SyntaxError>
        requires { HasNoDefaultBehind (wildcard_of wildcard) (token_of self.old.token.kind) }
        ensures read { CountGives (wildcard_of wildcard.entry) result (ahead self.old) (ahead self.new) }
        ensures plain { IfOk result (λ e. HasNoDefault (expr_tree e)) }
        ensures shorter { OnOk result (length (ahead self.new) ≤ length (ahead self.old)) }
    {
        if !self.sees_count(&wildcard) {
            return Ok(Expr::Wild(wildcard));
        }
        self.advance();
        let count = self.number()?;
        let open = self.plus();
        self.expect(Punct::CloseBrace)?;
        Ok(Expr::Counted {
            wildcard: bump.try_alloc(wildcard)?,
            count: bump.try_alloc(count)?,
            open,
        })
    }

    // Reads wildcards with a colon behind each, and behind them a wildcard without one, where it stands there.
    fn chain(
        &mut self,
        alloc: Global,
        bump: &'a Bump,
    ) -> Result<(&'a [Wildcard<'a>], Option<Wildcard<'a>>), SyntaxError>
        ensures read { ChainGives result (ahead self.old) (ahead self.new) }
        ensures held { IfOk result (λ r. IfNone r.1
            (wildcard_at (token_of self.new.token.kind) self.new.token.place ≡ None)) }
        ensures last { IfOk result (λ r. IfSome r.1
            (λ w. HasNoDefaultBehind (wildcard_of w) (token_of self.new.token.kind))) }
        ensures shorter { OnOk result (length (ahead self.new) ≤ length (ahead self.old)) }
    {
        let mut others = Vec::new(alloc);
        let mut last = self.wildcard();
        while let Some(wildcard) = last {
            if !self.sees_default(&wildcard) {
                break;
            }
            others.push(wildcard)?;
            self.advance();
            last = self.wildcard();
        }
        let others = bump.try_alloc_slice_copy(others.as_slice())?;
        Ok((others, last))
    }

    // Reads what begins with this word: an application, or a symbol.
    #[cycle(expression)]
    fn behind_word(
        &mut self,
        arena: &mut Arena<'a>,
        name: Word<'a>,
        room: usize,
    ) -> Result<Expr<'a>, SyntaxError>
        ensures read { WordLeads room (spot_of name.entry) result (ahead self.old) (ahead self.new) }
        ensures plain { IfOk result (λ e. HasNoDefault (expr_tree e)) }
        ensures shorter { OnOk result (length (ahead self.new) ≤ length (ahead self.old)) }
        ensures kept { OnOk result (arena.new.pending.items ≡ arena.old.pending.items) }
    {
        if !self.sees(Punct::Open) {
            return Ok(Expr::Symbol(name));
        }
        if room == 0 {
            return Err(self.fault(FaultKind::TooDeep));
        }
        self.advance();
        if self.sees(Punct::Close) {
            self.advance();
            return Ok(Expr::Apply(name, no_exprs()));
        }
        let args = self.row(arena, Punct::Close, room - 1)?;
        Ok(Expr::Apply(name, args))
    }

    // Reads the word behind a `$` at this place.
    fn behind_dollar(&mut self, place: Place) -> Result<Expr<'a>, SyntaxError>
        ensures read { DollarLeads place result (ahead self.old) (ahead self.new) }
        ensures plain { IfOk result (λ e. HasNoDefault (expr_tree e)) }
        ensures shorter { OnOk result (length (ahead self.new) ≤ length (ahead self.old)) }
    {
        let name = self.word()?;
        let text = name.text;
        Ok(Expr::Variable(Word { text, place }))
    }

    /// Reads expressions with a comma between each two, at least one, and the bracket that closes them.
    #[cycle(expression)]
    pub fn row(
        &mut self,
        arena: &mut Arena<'a>,
        closes: Punct,
        room: usize,
    ) -> Result<&'a [Expr<'a>], SyntaxError>
        ensures read { RowGives closes room result (ahead self.old) (ahead self.new) }
        ensures shorter { OnOk result (length (ahead self.new) ≤ length (ahead self.old)) }
        ensures kept { OnOk result (arena.new.pending.items ≡ arena.old.pending.items) }
    {
        let start = arena.start();
        self.push_expr(arena, room)?;
        while self.sees(Punct::Comma) {
            self.advance();
            self.push_expr(arena, room)?;
        }
        self.expect(closes)?;
        let list = arena.finish(start)?;
        Ok(list)
    }

    // Reads an expression, and puts it at the end of the innermost list.
    #[cycle(expression)]
    #[inline(always)]
    fn push_expr(&mut self, arena: &mut Arena<'a>, room: usize) -> Result<(), SyntaxError>
        ensures read { ExprAdded room arena.old.pending.items arena.new.pending.items result (ahead self.old)
            (ahead self.new) }
        ensures shorter { OnOk result (length (ahead self.new) < length (ahead self.old)) }
    {
        let expr = self.expression(arena, room)?;
        arena.push(expr)?;
        Ok(())
    }

    // Reads operands with one sign between them, in brackets of which the opening one is held.
    #[cycle(expression)]
    fn infix(&mut self, arena: &mut Arena<'a>, room: usize) -> Result<Expr<'a>, SyntaxError>
        requires { is_punct Punct.Open (token_of self.old.token.kind) ≡ true }
        ensures read { ExprGives room result (ahead self.old) (ahead self.new) }
        ensures plain { IfOk result (λ e. HasNoDefault (expr_tree e)) }
        ensures shorter { OnOk result (length (ahead self.new) < length (ahead self.old)) }
        ensures kept { OnOk result (arena.new.pending.items ≡ arena.old.pending.items) }
    {
        if room == 0 {
            return Err(self.fault(FaultKind::TooDeep));
        }
        let open = self.token.place;
        self.advance();
        let first = self.expression(arena, room - 1)?;
        let sign = self.sign()?;
        let operands = self.operands(arena, first, sign, room - 1)?;
        Ok(Expr::Infix {
            open,
            sign,
            operands,
        })
    }

    // Reads the operands behind the first sign, at least one, and the bracket that closes them.
    #[cycle(expression)]
    fn operands(
        &mut self,
        arena: &mut Arena<'a>,
        first: Expr<'a>,
        sign: InfixSign<'a>,
        room: usize,
    ) -> Result<&'a [Expr<'a>], SyntaxError>
        ensures read { OperandsGive room (expr_tree first.entry) (spot_of_sign sign.entry) result (ahead self.old)
            (ahead self.new) }
        ensures shorter { OnOk result (length (ahead self.new) ≤ length (ahead self.old)) }
        ensures kept { OnOk result (arena.new.pending.items ≡ arena.old.pending.items) }
    {
        let start = arena.start();
        arena.push(first)?;
        loop {
            self.push_expr(arena, room)?;
            if !self.sees_sign(sign.text) {
                break;
            }
            self.advance();
        }
        self.expect(Punct::Close)?;
        let list = arena.finish(start)?;
        Ok(list)
    }
}

// The expression of this wildcard and these others, with this default of the last.
fn optional<'a>(
    bump: &'a Bump,
    wildcard: Wildcard<'a>,
    others: &'a [Wildcard<'a>],
    default: Expr<'a>,
) -> Result<Expr<'a>, SyntaxError>
    ensures { IsTreeOrMemory (Optional (wildcard_of wildcard.entry) (map wildcard_of others.now)
        (expr_tree default.entry)) result }
{
    Ok(Expr::Optional {
        wildcard: bump.try_alloc(wildcard)?,
        others,
        default: bump.try_alloc(default)?,
    })
}

// The list without expressions.
fn no_exprs<'a>() -> &'a [Expr<'a>]
    ensures { result.now ≡ [] }
{
    &[]
}
