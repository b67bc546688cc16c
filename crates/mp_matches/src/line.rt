//! The lines of matches.

ghost use Rattle.std.specs.Prelude.{◌≡◌, ◌<◌, IsSome, Some, length};
ghost use Rattle.mp_io.specs.Writing.{Puts};
ghost use Rattle.mp_pattern.specs.RuleView.{rule_tree};
ghost use Rattle.mp_text.specs.File.{subject_tree};
ghost use Rattle.mp_theory.specs.OneList.{Item};
ghost use Rattle.mp_token.specs.TokenText.{token_text};
ghost use Rattle.mp_matches.specs.Computed.{match_of};
ghost use Rattle.mp_matches.specs.Match.{match_line, more_line};

use mp_cursor::Cursor;
use mp_io::{Sink, Writer};
use mp_pattern::Rule;
use mp_text::Subject;
use mp_token::{Token, put_token};

// Puts the line of the match at which the cursor stands.
pub(crate) fn put_match<O: Sink>(
    subject: &Subject,
    rule: &Rule,
    cursor: &Cursor<'_>,
    out: &mut Writer<'_, O>,
)
    requires { IsSome cursor.now.item }
    ensures { (i : Item) → cursor.now.item ≡ Some i → Puts O.Sink out.old out.new
        (match_line cursor.now.sig (match_of (subject_tree subject.now) (rule_tree rule.now) i)) }
{
    out.put_all(&[subject.name.bytes(), b" ", rule.name.bytes(), b" "]);
    cursor.put_subst(out);
    out.put(b"\n");
}

// Puts the line that more matches follow behind the one of the token.
pub(crate) fn put_more<O: Sink>(token: &Token, out: &mut Writer<'_, O>)
    requires { 0 < length token.now.entries }
    ensures { Puts O.Sink out.old out.new (more_line (token_text token.now)) }
{
    out.put(b"more ");
    put_token(token, out);
    out.put(b"\n");
}
