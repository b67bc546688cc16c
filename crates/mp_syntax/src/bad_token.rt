//! Finds the first bad token of a text that the grammar refuses.

ghost use Rattle.std.specs.Prelude.{◌≡◌, ◌<◌, ◌-◌, ◌^◌, None, Result, length};
ghost use Rattle.mp_parser.specs.declared.fault.Fault.{Fault as faults};
ghost use Rattle.mp_parser.specs.Tokens.{first_place};
ghost use Rattle.mp_parser.specs.Lexing.{token_of, lexemes};
ghost use Rattle.mp_parser.specs.Machine.{Parsed};
ghost use Rattle.mp_parser.specs.Parsing.{Fails};
ghost use Rattle.mp_syntax.specs.Reading.{bad_or, first_bad, checked};

use mp_parser::fault::{Fault, FaultKind, SyntaxError};
use mp_parser::parser::Parser;
use mp_parser::token::{Kind, Token};

/// The error of a text that the grammar refuses with this one: that of its first bad token, where it has one.
///
/// The text has fewer than 4,294,967,295 bytes.
pub fn first_error(bytes: &[u8], error: SyntaxError) -> SyntaxError
    requires { length bytes.now < 2 ^ 32 - 1 }
    ensures { (read : Result Parsed faults) → Fails error read
        → Fails result (checked (first_bad (lexemes bytes.now first_place)) read) }
{
    match bad_token(bytes) {
        Some(fault) => SyntaxError::Fault(fault),
        None => error,
    }
}

// The fault of the first byte of a text that begins no token, or of its first word that is too long, whichever comes
// first.
fn bad_token(bytes: &[u8]) -> Option<Fault>
    requires { length bytes.now < 2 ^ 32 - 1 }
    ensures { result ≡ first_bad (lexemes bytes.now first_place) }
{
    let mut parser = Parser::new(bytes);
    while !parser.is_at_end() {
        let fault = fault_of(parser.token);
        if fault.is_some() {
            return fault;
        }
        parser.advance();
    }
    None
}

// The fault of a token that is bad.
fn fault_of(token: Token) -> Option<Fault>
    ensures { result ≡ bad_or (token_of token.entry.kind) token.entry.place None }
{
    let kind = match token.kind {
        Kind::Bad => FaultKind::BadByte,
        Kind::Long => FaultKind::TooMany,
        _ => return None,
    };
    Some(Fault {
        kind,
        place: token.place,
    })
}
