//! The flags of an operation, as they are written.

ghost use Rattle.std.specs.Prelude.{◌≡◌, ◌||◌, map, min, option_map, count_by};
ghost use Rattle.mp_term.specs.Signature.{in_order};
ghost use Rattle.mp_parser.specs.Syntax as syntax;
ghost use Rattle.mp_parser.specs.View.{flag_of, spot_of_sign};
ghost use Rattle.mp_build.specs.Build.{op_decl};
ghost use Rattle.mp_build.specs.Checks.{has_bad_flags};
ghost use Rattle.mp_build.specs.Flags.{says, is_said, some_flag_twice, sign_spot, is_long_sign};
ghost use Rattle.mp_build.specs.Names.{number_of};

use mp_syntax::{Flag, InfixSign};
use mp_term::MAX_SIGN_BYTES;

/// What a flag says, without its sign.
#[derive(Clone, Copy)]
pub enum FlagSort {
    /// `assoc`
    Assoc,
    /// `comm`
    Comm,
    /// `one`
    One,
    /// `infix`
    Infix,
}

/// The flag is of the sort.
fn says(flag: &Flag<'_>, sort: FlagSort) -> bool
    ensures { result ≡ says sort (flag_of flag.now) }
{
    match sort {
        FlagSort::Assoc => matches!(flag, Flag::Assoc),
        FlagSort::Comm => matches!(flag, Flag::Comm),
        FlagSort::One => matches!(flag, Flag::One),
        FlagSort::Infix => matches!(flag, Flag::Infix(_)),
    }
}

/// How many of the flags are of the sort.
fn count(flags: &[Flag<'_>], sort: FlagSort) -> usize
    ensures { result ≡ count_by (says sort) (map flag_of flags.now) }
{
    flags.iter().filter(|flag| says(flag, sort)).count()
}

/// One of the flags is of the sort.
pub fn is_said(flags: &[Flag<'_>], sort: FlagSort) -> bool
    ensures { result ≡ is_said (says sort) (map flag_of flags.now) }
{
    count(flags, sort) > 0
}

/// Two of the flags are of one sort.
fn some_flag_twice(flags: &[Flag<'_>]) -> bool
    ensures { result ≡ some_flag_twice (map flag_of flags.now) }
{
    count(flags, FlagSort::Assoc) > 1
        || count(flags, FlagSort::Comm) > 1
        || count(flags, FlagSort::One) > 1
        || count(flags, FlagSort::Infix) > 1
}

/// The first sign of the flags.
pub fn sign_spot<'a>(flags: &[Flag<'a>]) -> Option<InfixSign<'a>>
    ensures { option_map spot_of_sign result ≡ sign_spot (map flag_of flags.now) }
{
    for flag in flags {
        if let Flag::Infix(sign) = flag {
            return Some(*sign);
        }
    }
    None
}

/// The sign has more than `MAX_SIGN_BYTES` bytes.
fn is_long_sign(sign: Option<InfixSign<'_>>) -> bool
    ensures { result ≡ is_long_sign (option_map spot_of_sign sign.entry) }
{
    match sign {
        None => false,
        Some(sign) => sign.text.len() > MAX_SIGN_BYTES,
    }
}

/// The flags and the least number of arguments, or one above 1,000 in its place, go together.
fn is_in_order(least: u32, is_open: bool, flags: &[Flag<'_>]) -> bool
    ensures { (name number : syntax.Spot) → least ≡ min (number_of number.text) 1001
        → result ≡ in_order (op_decl name number is_open (map flag_of flags.now)) }
{
    let assoc = !is_said(flags, FlagSort::Assoc) || (is_open && least <= 2);
    let one = !is_said(flags, FlagSort::One) || (is_open && least <= 1);
    let infix = sign_spot(flags).is_none() || is_open || 2 <= least;
    assoc && one && infix
}

/// A flag stands twice, the sign is too long, or the declaration isn't in order; the least number of arguments may be
/// cut at 1,001.
pub fn has_bad_flags(least: u32, is_open: bool, flags: &[Flag<'_>]) -> bool
    ensures { (name number : syntax.Spot) → least ≡ min (number_of number.text) 1001
        → result ≡ has_bad_flags name number is_open (map flag_of flags.now) }
{
    if some_flag_twice(flags) {
        return true;
    }
    if is_long_sign(sign_spot(flags)) {
        return true;
    }
    !is_in_order(least, is_open, flags)
}
