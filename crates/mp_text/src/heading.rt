//! Reads what stands before the expression of a rule and of a subject.

ghost use Rattle.std.specs.Prelude.{◌≡◌, ◌<◌, [], List, length, IfSome};
ghost use Rattle.mp_parser.specs.Syntax.{Statement};
ghost use Rattle.mp_parser.specs.Machine.{Role, Top, AfterRole, BeforeExpr, InStatement, Go, heading, keyword, run};
ghost use Rattle.mp_parser.specs.Parsing.{ahead};
ghost use Rattle.mp_parser.specs.View.{spot_of};

use mp_parser::parser::Parser;
use mp_parser::token::Punct;
use mp_syntax::Word;

/// Passes the keyword, a name and a colon, and gives the name, where they stand there. None says nothing of the tokens,
/// of which some may be passed then.
#[inline]
pub(crate) fn named<'a>(parser: &mut Parser<'a>, text: &[u8]) -> Option<Word<'a>>
    ensures read { IfSome result (λ w. (role : Role) → keyword text.now ≡ Go (AfterRole role)
        → (done : List Statement) → run done Top (ahead parser.old)
        ≡ run done (BeforeExpr (InStatement (heading role (spot_of w))) []) (ahead parser.new)) }
    ensures shorter { IfSome result (λ w. length (ahead parser.new) < length (ahead parser.old)) }
{
    if !parser.sees_word(text) {
        return None;
    }
    parser.advance();
    let Ok(name) = parser.word() else {
        return None;
    };
    let Ok(()) = parser.expect(Punct::Colon) else {
        return None;
    };
    Some(name)
}
