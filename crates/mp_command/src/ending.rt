//! How a run ends, and what is said of it.

ghost use Rattle.std.specs.Prelude.{◌≡◌, decimal};
ghost use Rattle.mp_io.specs.Moments.{sunk};
ghost use Rattle.mp_io.specs.Printing.{Prints};
ghost use Rattle.mp_command.specs.Endings.{line_of, status_of, told_line, told_status};
ghost use Rattle.mp_command.specs.Messages.{fault_line, fault_line_number, kind_text, program_fault_line};
ghost use Rattle.mp_command.specs.Messages.{program_kind_text, said_at, said_at_line, said_number, said_of};

use itoa::Buffer;
use mp_io::{Failed, Sink, put, put_all};
use mp_term::{Memory, Name};
use mp_text::{TextFault, TextKind};
use mp_vm::ProgramError;

/// An end that the words and the files decide.
#[derive(Drop)]
pub enum Told<'a> {
    /// Done, for `match` and `run` with at least one line.
    Done,
    /// Done, for `match` and `run` with no line.
    Empty,
    /// The words make no request.
    Usage,
    /// The named file's text has a fault.
    BadText(&'a str, TextFault),
    /// The text of the named program file has a fault.
    BadProgram(&'a str, ProgramError),
    /// The named file has more bytes than its limit.
    TooLong(&'a str),
    /// The text of a token spells none: some token begins with so many of its bytes, and none with more of them.
    Misspelt(u64),
    /// The token is that of no match of the file.
    NoItem,
    /// The rule of this name isn't syntactic.
    NotSyntactic(Name),
    /// The rule of this name has no template.
    NoTemplate(Name),
    /// The subject of this name was rewritten in so many steps, which were all that were asked for, and more could be
    /// made.
    TurnLimit(Name, u64),
    /// A step or the edits of the subject of this name would make a term of so many nodes.
    TooLarge(Name, u64),
    /// A step or the edits of the subject of this name would make a term that is so deep.
    TooDeep(Name, u64),
}

/// How a run ends.
#[derive(Drop)]
pub enum Ending<'a> {
    /// As the words and the files decide.
    Told(Told<'a>),
    /// For want of memory.
    Memory,
    /// At a write that failed.
    CannotWrite,
    /// The named file isn't held, or its start failed.
    CannotOpen(&'a str),
    /// A read of the named file failed.
    CannotRead(&'a str),
}

impl From<Memory> for Ending<'_> {
    ghost use Rattle.mp_command.specs.declared.ending.Ending.TheVariants as ending;

    ghost from_gives = { λ _ e. e ≡ ending.Memory };

    fn from(_memory: Memory) -> Self {
        Ending::Memory
    }
}

impl From<Failed> for Ending<'_> {
    ghost use Rattle.mp_command.specs.declared.ending.Ending.TheVariants as ending;

    ghost from_gives = { λ _ e. e ≡ ending.CannotWrite };

    fn from(_failed: Failed) -> Self {
        Ending::CannotWrite
    }
}

fn told_status(told: &Told<'_>) -> u8
    ensures { result ≡ told_status told.now }
{
    match told {
        Told::Done => 0,
        Told::Empty => 1,
        Told::Usage => 2,
        Told::BadText(_, _) => 3,
        Told::BadProgram(_, _) => 12,
        Told::TooLong(_) => 4,
        Told::Misspelt(_) | Told::NoItem => 9,
        Told::NotSyntactic(_) => 10,
        Told::NoTemplate(_) => 11,
        Told::TurnLimit(_, _) => 6,
        Told::TooLarge(_, _) | Told::TooDeep(_, _) => 7,
    }
}

/// The status of an ending: `status_of` of `specs/Endings.antt`.
pub fn status(ending: &Ending<'_>) -> u8
    ensures { result ≡ status_of ending.now }
{
    match ending {
        Ending::Told(told) => told_status(told),
        Ending::Memory => 8,
        Ending::CannotWrite => 5,
        Ending::CannotOpen(_) | Ending::CannotRead(_) => 4,
    }
}

// How a kind of fault is called.
fn kind_text(kind: TextKind) -> &'static [u8]
    ensures { result.now ≡ kind_text kind }
{
    match kind {
        TextKind::BadByte => b"BadByte",
        TextKind::Syntax => b"Syntax",
        TextKind::TooDeep => b"TooDeep",
        TextKind::DuplicateName => b"DuplicateName",
        TextKind::TooMany => b"TooMany",
        TextKind::BadFlags => b"BadFlags",
        TextKind::UnknownOp => b"UnknownOp",
        TextKind::BareOperation => b"BareOperation",
        TextKind::UnknownKind => b"UnknownKind",
        TextKind::Arity => b"Arity",
        TextKind::KindClash => b"KindClash",
        TextKind::LooseSequence => b"LooseSequence",
        TextKind::WildcardInTerm => b"WildcardInTerm",
        TextKind::UnboundVariable => b"UnboundVariable",
        TextKind::ConditionKind => b"ConditionKind",
        TextKind::UnknownSubject => b"UnknownSubject",
        TextKind::BadPosition => b"BadPosition",
        TextKind::Overlap => b"Overlap",
        TextKind::BadCount => b"BadCount",
    }
}

// Writes the line that says something of a name.
fn say_of<E: Sink>(err: &mut E, name: &[u8], text: &[u8]) -> Result<(), Failed>
    ensures { Prints (sunk E.Sink err.old err.new) (said_of name.now text.now) result }
{
    put_all(err, &[b"matchpy: ", name, text, b"\n"])
}

// Writes the line that says at which line and column of a file what stands.
fn say_at<E: Sink>(
    err: &mut E,
    name: &[u8],
    line: &str,
    column: &str,
    text: &[u8],
) -> Result<(), Failed>
    ensures { Prints (sunk E.Sink err.old err.new) (said_at name.now line.now column.now text.now) result }
{
    let parts = [
        b"matchpy: ",
        name,
        b":",
        line.as_bytes(),
        b":",
        column.as_bytes(),
        b": ",
        text,
        b"\n",
    ];
    put_all(err, &parts)
}

// Writes the line of a fault of a file's text.
fn say_fault<E: Sink>(err: &mut E, name: &[u8], fault: TextFault) -> Result<(), Failed>
    ensures { Prints (sunk E.Sink err.old err.new) (fault_line name.now fault) result }
{
    let mut line = Buffer::new();
    let mut column = Buffer::new();
    let line = line.format(fault.line);
    let column = column.format(fault.column);
    say_at(err, name, line, column, kind_text(fault.kind))
}

// Writes the line that says at which line of a file what stands.
fn say_line<E: Sink>(err: &mut E, name: &[u8], line: &str, text: &[u8]) -> Result<(), Failed>
    ensures { Prints (sunk E.Sink err.old err.new) (said_at_line name.now line.now text.now) result }
{
    let parts = [
        b"matchpy: ",
        name,
        b":",
        line.as_bytes(),
        b": ",
        text,
        b"\n",
    ];
    put_all(err, &parts)
}

// How a fault of a program is called.
fn program_kind_text(fault: &ProgramError) -> &'static [u8]
    ensures { result.now ≡ program_kind_text fault.now }
{
    match fault {
        ProgramError::WrongVersion => b"WrongVersion",
        ProgramError::BadLine { .. } => b"BadLine",
        ProgramError::BackwardTarget { .. } => b"BackwardTarget",
        ProgramError::BadReference { .. } => b"BadReference",
        ProgramError::Unbalanced { .. } => b"Unbalanced",
        ProgramError::Memory => b"",
    }
}

// The line at which it stands.
fn fault_line_number(fault: &ProgramError) -> u32
    ensures { result ≡ fault_line_number fault.now }
{
    match fault {
        ProgramError::WrongVersion => 1,
        ProgramError::BadLine { line } => *line,
        ProgramError::BackwardTarget { line } => *line,
        ProgramError::BadReference { line } => *line,
        ProgramError::Unbalanced { line } => *line,
        ProgramError::Memory => 0,
    }
}

// Writes the line of a fault of a program's text.
fn say_program_fault<E: Sink>(err: &mut E, name: &[u8], fault: &ProgramError) -> Result<(), Failed>
    ensures { Prints (sunk E.Sink err.old err.new) (program_fault_line name.now fault.now) result }
{
    let mut line = Buffer::new();
    let line = line.format(fault_line_number(fault));
    say_line(err, name, line, program_kind_text(fault))
}

// Writes the line that says something of a name, with the digits of a number in it.
fn say_digits<E: Sink>(
    err: &mut E,
    name: &[u8],
    before: &[u8],
    digits: &str,
    behind: &[u8],
) -> Result<(), Failed>
    ensures { Prints (sunk E.Sink err.old err.new) (said_number name.now before.now digits.now behind.now) result }
{
    let parts = [b"matchpy: ", name, before, digits.as_bytes(), behind, b"\n"];
    put_all(err, &parts)
}

// Writes the line that says something of a name, with a number in it.
fn say_number<E: Sink>(
    err: &mut E,
    name: &[u8],
    before: &[u8],
    number: u64,
    behind: &[u8],
) -> Result<(), Failed>
    ensures { Prints (sunk E.Sink err.old err.new)
        (said_number name.now before.now (decimal number) behind.now) result }
{
    let mut digits = Buffer::new();
    say_digits(err, name, before, digits.format(number), behind)
}

// Writes the line of what is told.
fn say_told<E: Sink>(err: &mut E, told: &Told<'_>) -> Result<(), Failed>
    ensures { Prints (sunk E.Sink err.old err.new) (told_line told.now) result }
{
    match told {
        Told::Done => Ok(()),
        Told::Empty => Ok(()),
        Told::Usage => put(err, USAGE),
        Told::BadText(name, fault) => say_fault(err, name.as_bytes(), *fault),
        Told::BadProgram(name, fault) => say_program_fault(err, name.as_bytes(), fault),
        Told::TooLong(name) => say_of(err, name.as_bytes(), b": too long"),
        Told::Misspelt(at) => say_number(err, b"token", b": spelling at ", *at, b""),
        Told::NoItem => put(err, b"matchpy: token: not an item\n"),
        Told::NotSyntactic(rule) => say_of(err, rule.bytes(), b": not syntactic"),
        Told::NoTemplate(rule) => say_of(err, rule.bytes(), b": no template"),
        Told::TurnLimit(subject, max) => say_number(
            err,
            subject.bytes(),
            b": turn limit ",
            *max,
            b"",
        ),
        Told::TooLarge(subject, nodes) => say_number(
            err,
            subject.bytes(),
            b": too large: ",
            *nodes,
            b" nodes",
        ),
        Told::TooDeep(subject, depth) => say_number(
            err,
            subject.bytes(),
            b": too deep: depth ",
            *depth,
            b"",
        ),
    }
}

/// Writes the line of an ending: `line_of` of `specs/Endings.antt`.
///
/// `Failed` comes only where the sink's count rose, and a front of the line was written then.
pub fn say<E: Sink>(err: &mut E, ending: &Ending<'_>) -> Result<(), Failed>
    ensures { Prints (sunk E.Sink err.old err.new) (line_of ending.now) result }
{
    match ending {
        Ending::Told(told) => say_told(err, told),
        Ending::Memory => put(err, b"matchpy: want of memory\n"),
        Ending::CannotWrite => put(err, b"matchpy: cannot write\n"),
        Ending::CannotOpen(name) => say_of(err, name.as_bytes(), b": cannot open"),
        Ending::CannotRead(name) => say_of(err, name.as_bytes(), b": cannot read"),
    }
}

const USAGE: &[u8] =
    b"usage: matchpy ACTION [FILE ..] [--engine E] [--limit N] [--resume TOKEN] [--max N] [--from PROGRAM]\n";
