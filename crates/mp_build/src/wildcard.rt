//! Makes the wildcards of patterns, and checks that those of one variable are the same.

ghost use Rattle.std.specs.Prelude.{◌≡◌, List, [], ◌∷◌, ◌++◌, map};
ghost use Rattle.std.specs.List.{list_any};
ghost use Rattle.mp_term.specs.View.{tree};
ghost use Rattle.mp_term.specs.Normal.{normal};
ghost use Rattle.mp_pattern.specs.PatternTree.{optional, wild_pattern};
ghost use Rattle.mp_pattern.specs.View.{pattern_tree, wildcard};
ghost use Rattle.mp_parser.specs.View.{spot_of, wildcard_of, expr_tree};
ghost use Rattle.mp_build.specs.Answers.{Gives};
ghost use Rattle.mp_build.specs.Build.{shape_of, counted_shape_of, variable_of, term_of};
ghost use Rattle.mp_build.specs.Wildcards.{default_form, without_default, with_count, with_default_form, same_default};
ghost use Rattle.mp_build.specs.Wildcards.{same_class, differs};
ghost use Rattle.mp_build.specs.declared.wildcard.PatternWildcard as code;
ghost use Rattle.mp_build.specs.WildcardView.{default_view, wildcard_view};
ghost use Rattle.mp_build.specs.Checks.{fault_if, wildcard_faults, count_faults, default_faults};
ghost use Rattle.mp_build.specs.ScopeView.{extent_view};
ghost use Rattle.mp_build.specs.declared.fault.TextKind.TheVariants.{KindClash};

use crate::build::{normal_term, shape, variable, wildcard_in_term};
use crate::extent::{
    Extent, check_count, count_of, counted_extent, counted_shape, marked_extent, marked_shape,
};
use crate::fault::{TextError, TextKind, error_at};
use crate::written::written_term;
use mp_pattern::{Pattern, Shape};
use mp_syntax::{Expr, Wildcard, Word};
use mp_term::{Name, Signature, Term, normal_form};
use std::alloc::Global;

/// The default of a wildcard.
///
/// As plain data it is a `DefaultForm` of `specs/Wildcards.antt`, by `default_view` of `specs/WildcardView.antt`.
#[derive(Drop)]
pub enum DefaultForm {
    /// There is none.
    Absent,
    /// There is one of this normal form.
    Normal(Term),
    /// There is one without a normal form.
    Unknown,
}

/// A wildcard of a pattern, with its default.
///
/// As plain data it is a `PatternWildcard` of `specs/Wildcards.antt`, by `wildcard_view` of `specs/WildcardView.antt`.
#[derive(Drop)]
pub struct PatternWildcard<'a> {
    /// The wildcard.
    pub wildcard: Wildcard<'a>,
    /// How many terms its variable stands for.
    pub extent: Extent,
    /// Its default.
    pub default: DefaultForm,
}

/// The pattern of a wildcard without a default behind these, to which it is added.
///
/// - `Text`: the first fault of the wildcard behind these, at its place, by `wildcard_faults` of `specs/Checks.antt`.
/// - `Memory`: memory ran out.
///
/// After an error the wildcard may have been added all the same.
pub fn build_wildcard<'a>(
    alloc: Global,
    sig: &Signature,
    wild: Wildcard<'a>,
    before: &mut Vec<PatternWildcard<'a>>,
) -> Result<Pattern, TextError>
    ensures { Gives result
        (wildcard_faults sig.now (map wildcard_view before.old.items) (without_default (wildcard_of wild.entry)))
        (λ p. (pattern_tree p ≡ wild_pattern (shape_of sig.now (wildcard_of wild.entry))
        (variable_of wild.entry.name.now))
        × (map wildcard_view before.new.items
        ≡ map wildcard_view before.old.items ++ without_default (wildcard_of wild.entry) ∷ [])) }
{
    let shape = shape(sig, &wild, marked_shape(wild.marks))?;
    let extent = marked_extent(wild.marks);
    let name = add_wildcard(alloc, &wild, extent, DefaultForm::Absent, before)?;
    Ok(Pattern::Wild(shape, name))
}

/// The pattern of a wildcard with a count behind these, or its first fault. The wildcard is added to them.
pub fn build_counted<'a>(
    alloc: Global,
    sig: &Signature,
    wild: Wildcard<'a>,
    count: Word<'a>,
    is_open: bool,
    before: &mut Vec<PatternWildcard<'a>>,
) -> Result<Pattern, TextError>
    ensures { Gives result
        (wildcard_faults sig.now (map wildcard_view before.old.items)
        (with_count (wildcard_of wild.entry) (spot_of count.entry) is_open)
        ++ count_faults (spot_of count.entry) is_open)
        (λ p. (pattern_tree p
        ≡ wild_pattern (counted_shape_of sig.now (wildcard_of wild.entry) (spot_of count.entry) is_open)
        (variable_of wild.entry.name.now))
        × (map wildcard_view before.new.items
        ≡ map wildcard_view before.old.items ++ with_count (wildcard_of wild.entry) (spot_of count.entry) is_open
        ∷ [])) }
{
    let number = count_of(count);
    let shape = shape(sig, &wild, counted_shape(number, is_open))?;
    let extent = counted_extent(number, is_open);
    let name = add_wildcard(alloc, &wild, extent, DefaultForm::Absent, before)?;
    check_count(count, is_open)?;
    Ok(Pattern::Wild(shape, name))
}

/// The pattern of a wildcard with a default behind these, or its first fault. The wildcard is added to them.
pub fn build_optional<'a>(
    alloc: Global,
    sig: &Signature,
    wild: Wildcard<'a>,
    others: &[Wildcard<'a>],
    default: &Expr<'a>,
    before: &mut Vec<PatternWildcard<'a>>,
) -> Result<Pattern, TextError>
    ensures { Gives result
        (wildcard_faults sig.now (map wildcard_view before.old.items)
        (with_default_form sig.now (wildcard_of wild.entry) (map wildcard_of others.now) (expr_tree default.now))
        ++ default_faults sig.now (map wildcard_of others.now) (expr_tree default.now))
        (λ p. (pattern_tree p ≡ wild_pattern (optional (normal sig.now (term_of sig.now (expr_tree default.now))))
        (variable_of wild.entry.name.now))
        × (map wildcard_view before.new.items
        ≡ map wildcard_view before.old.items ++ with_default_form sig.now (wildcard_of wild.entry)
        (map wildcard_of others.now) (expr_tree default.now) ∷ [])) }
{
    shape(sig, &wild, Shape::Dot)?;
    let form = default_form(alloc, sig, others, default)?;
    let name = add_wildcard(alloc, &wild, Extent::one(), form, before)?;
    let term = default_term(alloc, sig, others, default)?;
    Ok(Pattern::Wild(Shape::Opt(term), name))
}

/// The variable of a wildcard behind these, or its first fault where there is its kind. The wildcard is added to them.
fn add_wildcard<'a>(
    alloc: Global,
    wild: &Wildcard<'a>,
    extent: Extent,
    default: DefaultForm,
    before: &mut Vec<PatternWildcard<'a>>,
) -> Result<Option<Name>, TextError>
    ensures { Gives result
        (fault_if (list_any (differs (record {
          wildcard = wildcard_of wild.now;
          extent = extent_view extent;
          default = default_view default;
        })) (map wildcard_view before.old.items)) KindClash wild.now.place)
        (λ v. (v ≡ variable_of wild.now.name.now)
        × (map wildcard_view before.new.items ≡ map wildcard_view before.old.items ++ record {
          wildcard = wildcard_of wild.now;
          extent = extent_view extent;
          default = default_view default;
        } ∷ [])) }
{
    before.push(PatternWildcard {
        wildcard: *wild,
        extent,
        default,
    })?;
    if last_differs(before) {
        return Err(error_at(TextKind::KindClash, wild.place));
    }
    variable(alloc, wild)
}

/// One of the wildcards before the last has its name, and another class, kind, count or default.
fn last_differs(wildcards: &[PatternWildcard<'_>]) -> bool
    ensures { (before : List code.PatternWildcard) (new : code.PatternWildcard) → wildcards.now ≡ before ++ new ∷ []
        → result ≡ list_any (differs (wildcard_view new)) (map wildcard_view before) }
{
    match wildcards {
        [] => false,
        [earlier @ .., new] => some_differs(new, earlier),
    }
}

/// The normal form of a default, which stands behind further wildcards of a chain, where it has one.
///
/// A default is built twice: here, where it may have faults, since a difference from an earlier wildcard of the name is
/// told before them; and by `default_term` behind that, whose faults come before those of the arguments that follow.
fn default_form(
    alloc: Global,
    sig: &Signature,
    others: &[Wildcard<'_>],
    default: &Expr<'_>,
) -> Result<DefaultForm, TextError>
    ensures { Gives result [] (λ f. default_view f
        ≡ default_form sig.now (map wildcard_of others.now) (expr_tree default.now)) }
{
    if !others.is_empty() {
        return Ok(DefaultForm::Unknown);
    }
    match written_term(alloc, sig, default)? {
        None => Ok(DefaultForm::Unknown),
        Some(term) => {
            let normal = normal_form(alloc, sig, term)?;
            Ok(DefaultForm::Normal(normal))
        }
    }
}

/// The normal form of a default, which stands behind further wildcards of a chain, or its first fault.
fn default_term(
    alloc: Global,
    sig: &Signature,
    others: &[Wildcard<'_>],
    default: &Expr<'_>,
) -> Result<Term, TextError>
    ensures { Gives result (default_faults sig.now (map wildcard_of others.now) (expr_tree default.now))
        (λ t. tree t ≡ normal sig.now (term_of sig.now (expr_tree default.now))) }
{
    if let [other, ..] = others {
        return Err(wildcard_in_term(sig, *other));
    }
    normal_term(alloc, sig, default)
}

/// One of the others has the name of the wildcard, and another class, kind, count or default.
fn some_differs(wild: &PatternWildcard<'_>, others: &[PatternWildcard<'_>]) -> bool
    ensures { result ≡ list_any (differs (wildcard_view wild.now)) (map wildcard_view others.now) }
{
    for other in others {
        if differs(wild, other) {
            return true;
        }
    }
    false
}

/// The wildcards have one name, and aren't of one class, kind, count and default.
fn differs(wild: &PatternWildcard<'_>, other: &PatternWildcard<'_>) -> bool
    ensures { result ≡ differs (wildcard_view wild.now) (wildcard_view other.now) }
{
    let name = wild.wildcard.name;
    let same_variable = !name.is_empty() && name == other.wildcard.name;
    same_variable && !same_class(other, wild)
}

/// The wildcards are of one class and count, one kind and one default.
fn same_class(wild: &PatternWildcard<'_>, other: &PatternWildcard<'_>) -> bool
    ensures { result ≡ same_class (wildcard_view wild.now) (wildcard_view other.now) }
{
    wild.extent == other.extent
        && wild.wildcard.kind == other.wildcard.kind
        && same_default(&wild.default, &other.default)
}

/// There is no default, or both have one normal form.
fn same_default(default: &DefaultForm, other: &DefaultForm) -> bool
    ensures { result ≡ same_default (default_view default.now) (default_view other.now) }
{
    match (default, other) {
        (DefaultForm::Absent, DefaultForm::Absent) => true,
        (DefaultForm::Normal(term), DefaultForm::Normal(known)) => term == known,
        _ => false,
    }
}
