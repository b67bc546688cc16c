//! How many terms a wildcard's variable stands for, and what the wildcard takes.

ghost use Rattle.std.specs.Prelude.{◌≡◌};
ghost use Rattle.mp_pattern.specs.Extent.{single, extent};
ghost use Rattle.mp_pattern.specs.View.{wildcard};
ghost use Rattle.mp_parser.specs.View.{spot_of};
ghost use Rattle.mp_build.specs.Answers.{Gives};
ghost use Rattle.mp_build.specs.Build.{marked_shape, count_of, counted_shape};
ghost use Rattle.mp_build.specs.Checks.{count_faults};
ghost use Rattle.mp_build.specs.Scope.{any_terms, is_many};
ghost use Rattle.mp_build.specs.ScopeView.{extent_view};

use crate::checks::number_of;
use crate::fault::{TextError, TextKind, error_at};
use mp_pattern::{MAX_COUNT, Shape};
use mp_syntax::Word;

/// How many terms a variable stands for.
///
/// As plain data it is an `Extent` of mp_pattern's `specs/Extent.antt`, by `extent_view` of `specs/ScopeView.antt`.
#[derive(Clone, Copy, PartialEq, Eq)]
pub struct Extent {
    /// The least number of them.
    pub least: u32,
    /// It is no more than that.
    pub fixed: bool,
}

impl Extent {
    /// One term.
    pub fn one() -> Self
        ensures { extent_view result ≡ single }
    {
        Extent {
            least: 1,
            fixed: true,
        }
    }

    /// Any number of terms.
    pub fn any() -> Self
        ensures { extent_view result ≡ any_terms }
    {
        Extent {
            least: 0,
            fixed: false,
        }
    }

    /// It may be another number of terms than one.
    pub fn is_many(self) -> bool
        ensures { result ≡ is_many (extent_view self) }
    {
        !(self.fixed && self.least == 1)
    }
}

/// What a wildcard without a kind takes, by its number of underscores.
pub fn marked_shape(marks: usize) -> Shape
    ensures { wildcard result ≡ marked_shape marks }
{
    if marks == 3 {
        Shape::Star
    } else if marks == 2 {
        Shape::Plus
    } else {
        Shape::Dot
    }
}

/// How many terms the variable of a wildcard stands for, by its number of underscores.
pub fn marked_extent(marks: usize) -> Extent
    ensures { extent_view result ≡ extent (marked_shape marks) }
{
    if marks == 3 {
        Extent::any()
    } else if marks == 2 {
        Extent {
            least: 1,
            fixed: false,
        }
    } else {
        Extent::one()
    }
}

/// The count that digits write; one more than a count may be where it is above that.
pub fn count_of(digits: Word<'_>) -> u32
    ensures { result ≡ count_of (spot_of digits.entry) }
{
    number_of(digits.text, MAX_COUNT)
}

/// What a wildcard of this count takes, behind which a `+` stands or doesn't.
pub fn counted_shape(count: u32, is_open: bool) -> Shape
    ensures { wildcard result ≡ counted_shape count is_open }
{
    if count == 1 {
        if is_open { Shape::Plus } else { Shape::Dot }
    } else if count == 0 && is_open {
        Shape::Star
    } else {
        Shape::Counted {
            least: count,
            fixed: !is_open,
        }
    }
}

/// How many terms the variable of such a wildcard stands for.
pub fn counted_extent(count: u32, is_open: bool) -> Extent
    ensures { extent_view result ≡ extent (counted_shape count is_open) }
{
    Extent {
        least: count,
        fixed: !is_open,
    }
}

/// Checks the count of a wildcard, behind which a `+` stands or doesn't.
pub fn check_count(digits: Word<'_>, is_open: bool) -> Result<(), TextError>
    ensures { Gives result (count_faults (spot_of digits.entry) is_open) (λ _. Unit {0}) }
{
    let count = count_of(digits);
    if count > MAX_COUNT {
        return Err(error_at(TextKind::TooMany, digits.place));
    }
    if count == 0 && !is_open {
        return Err(error_at(TextKind::BadCount, digits.place));
    }
    Ok(())
}
