//! The words and signs of a rule file.

ghost use Rattle.mp_parser.specs.Syntax.{IsName, IsInfixSign};

use crate::place::Place;

/// A word of the file: 1 to 64 letters and digits.
///
/// As plain data it is a `Spot` of `specs/Syntax.antt`, by `spot_of` of `specs/View.antt`.
#[derive(Clone, Copy, Debug)]
pub struct Word<'a> {
    /// Its bytes, in the file.
    pub text: &'a [u8],
    /// The place of its first byte.
    pub place: Place,
    pub ghost named: { IsName text.now },
}

/// A sign of the file: one or more of the bytes `+ - * / = < > & | ^ ~ ! % @ ?`, other than `->`.
///
/// As plain data it is a `Spot` of `specs/Syntax.antt`, by `spot_of_sign` of `specs/View.antt`.
#[derive(Clone, Copy, Debug)]
pub struct InfixSign<'a> {
    /// Its bytes, in the file.
    pub text: &'a [u8],
    /// The place of its first byte.
    pub place: Place,
    pub ghost signed: { IsInfixSign text.now },
}
