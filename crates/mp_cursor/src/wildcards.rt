//! Tests of the wildcards of a pattern.
ghost use Rattle.std.specs.Prelude.{◌≡◌, ◌↔◌, IsTrue, true, map};
ghost use Rattle.mp_pattern.specs.PatternTree.{patterns};
ghost use Rattle.mp_pattern.specs.View.{pattern_tree};
ghost use Rattle.mp_pattern.specs.Instance.{is_fully_named};
ghost use Rattle.mp_pattern.specs.EachWildcard.{AllEachWildcard};
ghost use Rattle.mp_theory.specs.NoOptional.{HasNoOptional, IsNotOptional};

use mp_pattern::{Pattern, Shape, is_fully_named};

// Whether no wildcard is optional.
#[cycle(no_optional)]
fn has_no_optional(pattern: &Pattern) -> bool
    ensures { IsTrue result ↔ HasNoOptional (pattern_tree pattern.now) }
{
    match pattern {
        Pattern::Wild(Shape::Opt(_), _) => false,
        Pattern::App(_, children) => none_optional(children.as_slice()),
        _ => true,
    }
}

// Whether no wildcard of all the patterns is.
#[cycle(no_optional)]
fn none_optional(children: &[Pattern]) -> bool
    ensures { IsTrue result ↔ AllEachWildcard IsNotOptional (patterns (map pattern_tree children.now)) }
{
    match children {
        [] => true,
        [first, rest @ ..] => has_no_optional(first) && none_optional(rest),
    }
}

// Whether a substitution that fits decides its take table: each wildcard has a name, and none is optional.
pub(crate) fn decides_table(pattern: &Pattern) -> bool
    ensures { IsTrue result
        ↔ ((is_fully_named (pattern_tree pattern.now) ≡ true) × HasNoOptional (pattern_tree pattern.now)) }
{
    is_fully_named(pattern) && has_no_optional(pattern)
}
