//! The syntax trees of conditions. Their words lie in the bytes of the file.

use crate::tree::Expr;
use crate::word::Word;

/// What is counted of an operand.
#[derive(Clone, Copy, Debug, PartialEq, Eq)]
pub enum Measure {
    /// `count`: its terms.
    Count,
    /// `size`: the nodes of its terms.
    Size,
}

/// How two amounts are compared.
#[derive(Clone, Copy, Debug, PartialEq, Eq)]
pub enum Sense {
    /// `<`
    Lt,
    /// `<=`
    Le,
    /// `>`
    Gt,
    /// `>=`
    Ge,
    /// `==`
    Eq,
    /// `!=`
    Ne,
}

/// What is asked of two operands.
#[derive(Clone, Copy, Debug, PartialEq, Eq)]
pub enum Relation {
    /// `same`
    Same,
    /// `less`
    Less,
    /// `free`
    Free,
}

/// What is asked of an operand beside a name.
#[derive(Clone, Copy, Debug, PartialEq, Eq)]
pub enum Property {
    /// `kind`
    Kind,
    /// `head`
    Head,
}

/// A side of a comparison.
///
/// As plain data it is an `Amount` of `specs/Syntax.antt`, by `amount_tree` of `specs/View.antt`.
#[derive(Debug, Drop)]
pub enum Amount<'a> {
    /// A number, in digits.
    Number(Word<'a>),
    /// `count(OPERAND)` or `size(OPERAND)`
    Measured(Measure, Expr<'a>),
}

/// An atom of a condition.
///
/// As plain data it is an `Atom` of `specs/Syntax.antt`, by `atom_tree` of `specs/View.antt`.
#[derive(Debug, Drop)]
pub enum Atom<'a> {
    /// `AMOUNT SIGN AMOUNT`
    Compare(Amount<'a>, Sense, Amount<'a>),
    /// `same(OPERAND, OPERAND)`, `less(..)` or `free(..)`
    Relate(Relation, Expr<'a>, Expr<'a>),
    /// `kind(OPERAND, NAME)` or `head(..)`
    Test(Property, Expr<'a>, Word<'a>),
}

/// A literal of a condition: an atom or a condition in square brackets, perhaps behind `not`.
///
/// As plain data it is a `Literal` of `specs/Syntax.antt`, by `literal_tree` of `specs/View.antt`.
#[cycle(condition)]
#[derive(Debug, Drop)]
pub enum Literal<'a> {
    /// An atom.
    Atom {
        /// Whether `not` stands before it.
        negated: bool,
        /// The atom.
        atom: Atom<'a>,
    },
    /// A condition in square brackets.
    Bracketed {
        /// Whether `not` stands before the bracket.
        negated: bool,
        /// What stands in the brackets.
        condition: Condition<'a>,
    },
}

/// Literals with `and` between each two.
///
/// As plain data it is a `Literals` of `specs/Syntax.antt`, by `alternative_tree` of `specs/View.antt`.
#[cycle(condition)]
#[derive(Debug, Drop)]
pub struct Alternative<'a> {
    /// The literals, in order; what is read has one or more.
    pub literals: Vec<Literal<'a>>,
}

/// A condition: alternatives with `or` between each two.
///
/// As plain data it is a `Condition` of `specs/Syntax.antt`, by `condition_tree` of `specs/View.antt`.
#[cycle(condition)]
#[derive(Debug, Drop)]
pub struct Condition<'a> {
    /// The alternatives, in order; what is read has one or more.
    pub alternatives: Vec<Alternative<'a>>,
}
