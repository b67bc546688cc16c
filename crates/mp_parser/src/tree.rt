//! The syntax trees of a rule file. Their words lie in the bytes of the file.

ghost use Rattle.std.specs.Prelude.{◌≡◌};
ghost use Rattle.mp_parser.specs.Syntax.{HasParts};

use crate::condition_tree::Condition;
use crate::place::Place;
use crate::word::{InfixSign, Word};
use std::fmt;

/// A wildcard as it is written.
///
/// As plain data it is a `Wildcard` of `specs/Syntax.antt`.
#[derive(Clone, Copy, Debug)]
pub struct Wildcard<'a> {
    /// The word before the underscores; empty where the wildcard has no name.
    pub name: &'a [u8],
    /// The number of underscores, 1 to 3.
    pub marks: usize,
    /// The word behind the underscore; empty where the wildcard has no kind.
    pub kind: &'a [u8],
    /// The place of its first byte.
    pub place: Place,
    pub ghost parts: { HasParts (record { name = name.now; marks = marks; kind = kind.now; place = place }) },
}

impl Wildcard<'_> {
    ghost use Rattle.mp_parser.specs.Machine.{is_dot};
    ghost use Rattle.mp_parser.specs.View.{wildcard_of};

    /// Whether it has one underscore and no kind, and so may have a count or a default.
    pub(crate) fn is_dot(&self) -> bool
        ensures { result ≡ is_dot (wildcard_of self.now) }
    {
        self.marks == 1 && self.kind.is_empty()
    }
}

/// An expression. Its lists, and what it refers to besides, lie in an arena.
///
/// As plain data it is a `Tree` of `specs/Syntax.antt`, by `expr_tree` of `specs/View.antt`.
#[derive(Clone, Copy)]
pub enum Expr<'a> {
    /// A word alone.
    Symbol(Word<'a>),
    /// A word, and in brackets behind it any number of arguments.
    Apply(Word<'a>, &'a [Expr<'a>]),
    /// In brackets two operands or more, with one sign between each two of them.
    Infix {
        /// The place of the opening bracket.
        open: Place,
        /// The sign, at the place where it stands first.
        sign: InfixSign<'a>,
        /// The operands, in order; what is read has two or more.
        operands: &'a [Expr<'a>],
    },
    /// A wildcard.
    Wild(Wildcard<'a>),
    /// A wildcard with one underscore and no kind, and in braces behind it how many arguments it takes.
    Counted {
        /// The wildcard.
        wildcard: &'a Wildcard<'a>,
        /// The number in the braces, in digits.
        count: &'a Word<'a>,
        /// Whether it takes more arguments: a `+` stands behind the number.
        open: bool,
    },
    /// A wildcard, a colon and its default; or several wildcards, each with a colon behind it, and then the default of
    /// the last.
    Optional {
        /// The first wildcard.
        wildcard: &'a Wildcard<'a>,
        /// The further wildcards, in order.
        others: &'a [Wildcard<'a>],
        /// The expression behind the last colon; what is read is no wildcard with a default.
        default: &'a Expr<'a>,
    },
    /// `$NAME`: the name, at the place of the `$`.
    Variable(Word<'a>),
}

impl fmt::Debug for Expr<'_> {
    fn fmt<W: fmt::Write>(&self, f: &mut fmt::Formatter<W>) -> fmt::Result {
        write_expr(f, self)
    }
}

// Writes an expression as a derived `Debug` would.
#[cycle(write)]
fn write_expr<W: fmt::Write>(f: &mut fmt::Formatter<W>, expr: &Expr<'_>) -> fmt::Result {
    match expr {
        Expr::Symbol(word) => write!(f, "Symbol({word:?})"),
        Expr::Apply(word, args) => {
            write!(f, "Apply({word:?}, ")?;
            write_exprs(f, args)?;
            f.write_str(")")
        }
        Expr::Infix {
            open,
            sign,
            operands,
        } => {
            write!(f, "Infix {{ open: {open:?}, sign: {sign:?}, operands: ")?;
            write_exprs(f, operands)?;
            f.write_str(" }")
        }
        Expr::Wild(wildcard) => write!(f, "Wild({wildcard:?})"),
        Expr::Counted {
            wildcard,
            count,
            open,
        } => write!(
            f,
            "Counted {{ wildcard: {wildcard:?}, count: {count:?}, open: {open:?} }}"
        ),
        Expr::Optional {
            wildcard,
            others,
            default,
        } => {
            write!(
                f,
                "Optional {{ wildcard: {wildcard:?}, others: {others:?}, default: "
            )?;
            write_expr(f, default)?;
            f.write_str(" }")
        }
        Expr::Variable(word) => write!(f, "Variable({word:?})"),
    }
}

// Writes expressions as a list.
#[cycle(write)]
fn write_exprs<W: fmt::Write>(f: &mut fmt::Formatter<W>, exprs: &[Expr<'_>]) -> fmt::Result {
    f.write_str("[")?;
    let mut first = true;
    for expr in exprs {
        if !first {
            f.write_str(", ")?;
        }
        write_expr(f, expr)?;
        first = false;
    }
    f.write_str("]")
}

/// A flag of an operation.
///
/// As plain data it is a `Flag` of `specs/Syntax.antt`, by `flag_of` of `specs/View.antt`.
#[derive(Clone, Copy, Debug)]
pub enum Flag<'a> {
    /// `assoc`
    Assoc,
    /// `comm`
    Comm,
    /// `one`
    One,
    /// `infix SIGN`, with the sign.
    Infix(InfixSign<'a>),
}

/// Where a term of a subject is replaced.
///
/// As plain data it is a `Position` of `specs/Syntax.antt`, by `position_of` of `specs/View.antt`.
#[derive(Debug, Drop)]
pub enum Position<'a> {
    /// `.`, the whole term, with its place.
    Root(Place),
    /// Numbers with a `.` between each two, each in digits: that of an argument, that of an argument of it, and so on.
    Path {
        /// The first number.
        first: Word<'a>,
        /// The further numbers, in order.
        others: Vec<Word<'a>>,
    },
}

/// What stands in the place of a term.
///
/// As plain data it is a `Replacement` of `specs/Syntax.antt`, by `replacement_tree` of `specs/View.antt`.
#[derive(Debug, Drop)]
pub enum Replacement<'a> {
    /// An expression.
    Single(Expr<'a>),
    /// Any number of expressions in square brackets, in order.
    Listed(&'a [Expr<'a>]),
}

/// A change of a subject: `POSITION -> EXPR` or `POSITION -> [EXPR, ..]`.
///
/// As plain data it is a `Change` of `specs/Syntax.antt`, by `change_tree` of `specs/View.antt`.
#[derive(Debug, Drop)]
pub struct Change<'a> {
    /// Where it changes the subject.
    pub position: Position<'a>,
    /// What stands there then.
    pub terms: Replacement<'a>,
}

/// A statement.
///
/// As plain data it is a `Statement` of `specs/Syntax.antt`, by `statement_tree` of `specs/View.antt`.
#[derive(Debug, Drop)]
pub enum Statement<'a> {
    /// `op NAME LEAST FLAG ..;` or `op NAME LEAST+ FLAG ..;`
    Op {
        /// The name of the operation.
        name: Word<'a>,
        /// Its least number of arguments, in digits.
        least: Word<'a>,
        /// Whether it takes more arguments: a `+` stands behind the number.
        open: bool,
        /// Its flags as they are written, in order.
        flags: Vec<Flag<'a>>,
    },
    /// `kind NAME: MEMBER ..;`
    Kind {
        /// The name of the kind.
        name: Word<'a>,
        /// The words behind the colon, in order; what is read has one or more.
        members: Vec<Word<'a>>,
    },
    /// `rule NAME: PATTERN -> TEMPLATE if CONDITION;`, perhaps without the template, the condition or both.
    Rule {
        /// The name of the rule.
        name: Word<'a>,
        /// The expression behind the colon.
        pattern: &'a Expr<'a>,
        /// The expression behind the arrow, where there is one.
        template: Option<&'a Expr<'a>>,
        /// The condition behind `if`, where there is one.
        condition: Option<Condition<'a>>,
    },
    /// `subject NAME: TERM;`
    Subject {
        /// The name of the subject.
        name: Word<'a>,
        /// The expression behind the colon.
        term: Expr<'a>,
    },
    /// `edit SUBJECT: CHANGE, ..;`
    Edit {
        /// The name of the subject.
        subject: Word<'a>,
        /// Its changes, in order; what is read has one or more.
        changes: Vec<Change<'a>>,
    },
}
