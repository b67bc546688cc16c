//! Reads the templates and the conditions of rules.

ghost use Rattle.std.specs.Prelude.{◌≤◌, length, OnOk, IfOk};
ghost use Rattle.mp_parser.specs.Lexing.{token_of};
ghost use Rattle.mp_parser.specs.View.{placed};
ghost use Rattle.mp_parser.specs.Parsing.{ahead, TemplateGives};
ghost use Rattle.mp_parser.specs.ConditionParsing.{IfGives, EndsIf};

use crate::arena::Arena;
use crate::condition_tree::Condition;
use crate::fault::SyntaxError;
use crate::limits::MAX_OPEN;
use crate::parser::Parser;
use crate::tree::Expr;

impl<'a> Parser<'a> {
    /// Reads the arrow and an expression, and gives this, where the arrow is held; else passes nothing and gives None.
    pub fn template(&mut self, arena: &mut Arena<'a>) -> Result<Option<&'a Expr<'a>>, SyntaxError>
        ensures read { TemplateGives (token_of self.new.token.kind) result (ahead self.old) (ahead self.new) }
        ensures shorter { OnOk result (length (ahead self.new) ≤ length (ahead self.old)) }
    {
        if !self.sees_arrow() {
            return Ok(None);
        }
        self.advance();
        let template = self.expr(arena, MAX_OPEN)?;
        Ok(Some(arena.bump.try_alloc(template)?))
    }

    /// Reads `if` and a condition, and gives this, where `if` is held; else passes nothing and gives None.
    pub fn rule_condition(
        &mut self,
        arena: &mut Arena<'a>,
    ) -> Result<Option<Condition<'a>>, SyntaxError>
        ensures read { IfGives (placed self.old.token) result (ahead self.old) (ahead self.new) }
        ensures ends { IfOk result (λ o. EndsIf o (token_of self.new.token.kind)) }
        ensures shorter { OnOk result (length (ahead self.new) ≤ length (ahead self.old)) }
    {
        if !self.sees_word(b"if") {
            return Ok(None);
        }
        self.advance();
        let condition = self.condition(arena, MAX_OPEN)?;
        Ok(Some(condition))
    }
}
