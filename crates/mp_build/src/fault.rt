//! Why a rule file can't be read.

ghost use Rattle.std.specs.Prelude.{◌≡◌, Ok, Err, IfOk, IfErr, IfSome, IfNone};
ghost use Rattle.mp_build.specs.declared.fault.TextFault.{TextFault};
ghost use Rattle.mp_build.specs.declared.fault.TextError.TheVariants.{Text};
ghost use Rattle.mp_build.specs.declared.fault.TextError.TheVariants as errors;
ghost use Rattle.mp_build.specs.Checks.{fault_at};
ghost use Rattle.mp_build.specs.SyntaxFaults.{syntax_kind, text_error};

use mp_syntax::{FaultKind, Place, SyntaxError};
use mp_term::Memory;
use std::alloc::{AllocError, AllocFailed};

/// What is wrong at a token of a rule file.
///
/// The kinds stand in the order in which they count at one token.
#[derive(Clone, Copy, Debug, PartialEq, Eq)]
pub enum TextKind {
    /// The byte begins no token.
    BadByte,
    /// The token: the tokens up to and including it are no beginning of a text; or it is the end of the text, which
    /// comes too early.
    Syntax,
    /// The bracket: it is opened while 100 are open.
    TooDeep,
    /// The name of a statement, or the sign of an operation: an earlier statement of the same sort has it. No kind is
    /// called `num`.
    DuplicateName,
    /// The token of a word of more than 64 bytes. A number: an arity or a count is above 1,000, or a number in a
    /// condition above 1,000,000. The name of a statement, or the first token of an expression or a condition that
    /// stands alone: there are as many statements of its sort as there may be, or one of its parts is larger than it
    /// may be.
    TooMany,
    /// The name of an operation: its flags and its number of arguments don't go together, a flag stands twice, or its
    /// sign has more than 4 bytes.
    BadFlags,
    /// The name before a bracket, the first sign between operands, or the name in `head`: no operation has it.
    UnknownOp,
    /// The word of a symbol, or of a symbol of a kind: an operation has that name.
    BareOperation,
    /// The wildcard, or the name in `kind`: no kind has that name.
    UnknownKind,
    /// The name before a bracket, or the bracket of operands with a sign between them: the operation doesn't allow the
    /// number of arguments. The position of an edit: an operation doesn't allow the number of arguments that it has
    /// after all edits of the statement.
    Arity,
    /// The wildcard: an earlier one of the pattern has the same name and another class, kind, count or default.
    KindClash,
    /// The wildcard: a plus, star, counted or optional wildcard is the whole pattern. The `$`: a variable of a plus,
    /// star or counted wildcard is the whole template.
    LooseSequence,
    /// The wildcard or `$`: a wildcard stands outside a pattern or within a default, or a variable outside a template
    /// and isn't a whole operand of a condition.
    WildcardInTerm,
    /// The `$` of a template or a condition: the pattern has no variable of the name.
    UnboundVariable,
    /// The `$`: an operand of `less` is a variable of a plus, star or counted wildcard.
    ConditionKind,
    /// The name in an edit statement: no earlier subject has it.
    UnknownSubject,
    /// The position of an edit: it names no subterm.
    BadPosition,
    /// The position of an edit: it overlaps with an earlier one of the statement.
    Overlap,
    /// The count of a wildcard: it is 0 and no `+` stands behind it.
    BadCount,
}

/// What is wrong with a rule file, and the place of the token where it is.
#[derive(Clone, Copy, Debug, PartialEq, Eq)]
pub struct TextFault {
    /// What is wrong.
    pub kind: TextKind,
    /// The number of the token's line, from 1.
    pub line: u32,
    /// The number of the token's first byte in its line, from 1.
    pub column: u32,
}

/// Why nothing is made of a text or of a syntax tree.
#[derive(Debug, Drop)]
pub enum TextError {
    /// It has this first fault.
    Text(TextFault),
    /// Memory ran out.
    Memory,
}

impl From<Memory> for TextError {
    ghost from_gives = { λ _ e. e ≡ errors.Memory };

    fn from(_error: Memory) -> TextError {
        TextError::Memory
    }
}

impl From<AllocError> for TextError {
    ghost from_gives = { λ _ e. e ≡ errors.Memory };

    fn from(_error: AllocError) -> TextError {
        TextError::Memory
    }
}

impl<T: Drop> From<AllocFailed<T>> for TextError {
    ghost from_gives = { λ _ e. e ≡ errors.Memory };

    fn from(_error: AllocFailed<T>) -> TextError {
        TextError::Memory
    }
}

impl From<SyntaxError> for TextError {
    ghost from_gives = { λ error e. e ≡ text_error error };

    fn from(error: SyntaxError) -> TextError {
        match error {
            SyntaxError::Memory => TextError::Memory,
            SyntaxError::Fault(fault) => error_at(syntax_kind(fault.kind), fault.place),
        }
    }
}

/// What tokens or grammar have against a token.
fn syntax_kind(kind: FaultKind) -> TextKind
    ensures { result ≡ syntax_kind kind }
{
    match kind {
        FaultKind::BadByte => TextKind::BadByte,
        FaultKind::TooMany => TextKind::TooMany,
        FaultKind::Syntax => TextKind::Syntax,
        FaultKind::TooDeep => TextKind::TooDeep,
    }
}

/// The error for a token of that place: its fault is `fault_at` of `specs/Checks.antt`, with its line and column, from
/// 1. It takes no memory.
pub fn error_at(kind: TextKind, place: Place) -> TextError
    ensures { result ≡ Text (fault_at kind place) }
{
    TextError::Text(TextFault {
        kind,
        line: place.line,
        column: place.column,
    })
}

/// The value of what was built, or None where that has a fault. `Memory` comes where memory ran out.
#[inline(always)]
pub fn if_faultless<T>(built: Result<T, TextError>) -> Result<Option<T>, Memory>
    ensures value { IfOk result (λ o. IfSome o (λ v. built ≡ Ok v)) }
    ensures fault { IfOk result (λ o. IfNone o ((f : TextFault) × (built ≡ Err (Text f)))) }
    ensures memory { IfErr result (λ e. built ≡ Err errors.Memory) }
{
    match built {
        Ok(value) => Ok(Some(value)),
        Err(TextError::Text(_)) => Ok(None),
        Err(TextError::Memory) => Err(Memory),
    }
}
