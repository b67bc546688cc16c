//! One star wildcard that takes all that is left.
ghost use Rattle.std.specs.Prelude.{◌≡◌, ◌<◌, ◌≤◌, ◌+◌, IsTrue, MatchBool, None, Some, length};
ghost use Rattle.std.specs.List.{AllByRecursion};
ghost use Rattle.mp_term.specs.Sorting.{sorted};
ghost use Rattle.mp_pattern.specs.View.{pattern_tree};
ghost use Rattle.mp_pattern.specs.declared.limits.TheConstants.{MAX_VARIABLES};
ghost use Rattle.mp_table.specs.Table.{HasRanks, rank_cmp, terms_at};
ghost use Rattle.mp_ac.specs.Numbered.{IsTrailOf, LiesOver, numbered_subst};
ghost use Rattle.mp_ac.specs.Star.{IsOfStar, bag_bound};

use mp_pattern::{Form, Pattern, Shape};
use mp_subst::Trail;
use mp_table::{Rank, Table};

// Whether the pattern is an application to one star wildcard.
pub(crate) fn is_of_star(pattern: &Pattern) -> bool
    ensures { IsTrue result → IsOfStar (pattern_tree pattern.now) }
{
    match pattern {
        Pattern::App(_, children) => {
            matches!(children.as_slice(), [Pattern::Wild(Shape::Star, _)])
        }
        _ => false,
    }
}

// Binds the variable of the first number, if there is one, to the multiset of the terms of the ranks too; false comes
// where it has another value.
pub(crate) fn bind_bag(table: &Table, vars: &[u32], ranks: &[Rank], trail: &mut Trail) -> bool
    requires few { AllByRecursion (λ v. v < MAX_VARIABLES) vars.now }
    requires ranks { HasRanks table.now ranks.now }
    requires ascending { sorted rank_cmp ranks.now ≡ ranks.now }
    requires spare { length ranks.now + 2 ≤ trail.old.spare }
    requires trail { IsTrailOf table.now trail.old }
    ensures bound { let o = bag_bound vars.now (terms_at table.now ranks.now)
        (numbered_subst table.now trail.old.stack) in
        MatchBool result (o ≡ Some (numbered_subst table.now trail.new.stack)) (o ≡ None) }
    ensures kept { LiesOver table.now (length ranks.now + 2) trail.old trail.new }
{
    match vars {
        [] => true,
        [var, ..] => trail.bind(table, *var, Form::Bag, None, ranks),
    }
}
