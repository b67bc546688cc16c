//! Whether a table is the least of its substitution.
ghost use Rattle.std.specs.Prelude.{◌≡◌, ◌≤◌, [], ℕ, length};
ghost use Rattle.std.specs.List.{AllByRecursion};
ghost use Rattle.mp_term.specs.Search.{In};
ghost use Rattle.mp_term.specs.Size.{node_count};
ghost use Rattle.mp_pattern.specs.Subpatterns.{subpatterns};
ghost use Rattle.mp_subst.specs.Trail.{GoesWith};
ghost use Rattle.mp_theory.specs.Least.{is_least_item};
ghost use Rattle.mp_theory.specs.OneList.{Item};
ghost use Rattle.mp_search.specs.Grounds.{AreGrounds};
ghost use Rattle.mp_search.specs.Levels.{AreLevels};
ghost use Rattle.mp_search.specs.Reading.{table_of};
ghost use Rattle.mp_cursor.specs.Kept.{HasRoom};
ghost use Rattle.mp_cursor.specs.Matched.{IsMatched, all_items, trail_subst, search_room};
ghost use Rattle.mp_table.specs.Table.{subject_of};

use crate::kept::{Kept, are_kept, keep, put_back};
use crate::look::look;
use crate::matched::Matched;
use mp_search::{Ground, Level, Mode};
use mp_subst::Trail;

// Whether the table in the levels is the least of the substitution of the trail, with which it is an item: a search
// over that substitution finds it first. What the nodes take is the same afterwards.
pub(crate) fn has_least(
    matched: Matched<'_>,
    grounds: &[Ground],
    kept: &mut [Kept],
    levels: &mut [Level],
    trail: &mut Trail,
) -> bool
    requires matched { IsMatched matched }
    requires grounds { AreGrounds matched.table.now (subpatterns matched.plan.now.pattern) grounds.now }
    requires count { length levels.old ≡ length matched.plan.now.nodes }
    requires kept { length kept.old ≡ length levels.old }
    requires roomy { AllByRecursion (HasRoom (node_count (subject_of matched.table.now))) kept.old }
    requires levels { AreLevels matched.table.now (node_count (subject_of matched.table.now)) levels.old }
    requires trail { GoesWith matched.table.now trail.old }
    requires vars { trail.old.vars ≡ length matched.plan.now.variables }
    requires spare { search_room (length levels.old) (node_count (subject_of matched.table.now)) ≤ trail.old.spare }
    requires item { In {X = Item} (table_of matched.table.now levels.old, trail_subst matched trail.old)
        (all_items matched []) }
    ensures least { result ≡ is_least_item matched.entry.sig.now matched.entry.plan.now.pattern
        (subject_of matched.entry.table.now)
        (table_of matched.entry.table.now levels.old, trail_subst matched.entry trail.old) }
    ensures table { table_of matched.entry.table.now levels.new ≡ table_of matched.entry.table.now levels.old }
    ensures count { length levels.new ≡ length levels.old }
    ensures levels { AreLevels matched.entry.table.now (node_count (subject_of matched.entry.table.now)) levels.new }
    ensures kept { length kept.new ≡ length kept.old }
    ensures roomy { (width : ℕ) → AllByRecursion (HasRoom width) kept.old → AllByRecursion (HasRoom width) kept.new }
    ensures room { trail.new.room ≡ trail.old.room }
{
    keep(kept, levels);
    look(matched, grounds, None, levels, trail, Mode::First);
    let least = are_kept(kept, levels);
    put_back(levels, kept);
    least
}
