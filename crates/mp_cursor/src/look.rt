//! The search for one item over a trail.
ghost use Rattle.std.specs.Prelude.{◌≡◌, ◌≤◌, ◌+◌, [], MatchBool, Some, length, option_map, slice_get};
ghost use Rattle.std.specs.List.{range_with_len};
ghost use Rattle.mp_term.specs.Size.{node_count};
ghost use Rattle.mp_pattern.specs.CondView.{cond_tree};
ghost use Rattle.mp_pattern.specs.Subpatterns.{subpatterns};
ghost use Rattle.mp_subst.specs.Trail.{GoesWith, cut};
ghost use Rattle.mp_search.specs.Grounds.{AreGrounds};
ghost use Rattle.mp_search.specs.Levels.{AreLevels};
ghost use Rattle.mp_search.specs.Reading.{table_of};
ghost use Rattle.mp_search.specs.Wanted.{IsStanding};
ghost use Rattle.mp_cursor.specs.Matched.{IsMatched, IsDecidable, IsFresh, all_items, looked_for, trail_subst};
ghost use Rattle.mp_cursor.specs.Matched.{search_room};
ghost use Rattle.mp_table.specs.Table.{subject_of};

use crate::matched::Matched;
use mp_pattern::{Cond, Plan};
use mp_search::{Ground, Level, Mode, Query, Start, find};
use mp_subst::Trail;
use std::slice;

// The numbers of variables: those of a plan are the same in the cursor's trail.
const NUMBERS: [u32; 32] = [
    0, 1, 2, 3, 4, 5, 6, 7, 8, 9, 10, 11, 12, 13, 14, 15, 16, 17, 18, 19, 20, 21, 22, 23, 24, 25,
    26, 27, 28, 29, 30, 31,
];

// The numbers of the plan's variables.
fn numbers(plan: &Plan) -> &'static [u32]
    ensures { result.now ≡ range_with_len 0 (length plan.now.variables) }
{
    &NUMBERS[..plan.vars() as usize]
}

// Looks for the item that is wanted, over the trail.
pub(crate) fn look(
    matched: Matched<'_>,
    grounds: &[Ground],
    condition: Option<&Cond>,
    levels: &mut [Level],
    trail: &mut Trail,
    mode: Mode,
) -> bool
    requires matched { IsMatched matched }
    requires grounds { AreGrounds matched.table.now (subpatterns matched.plan.now.pattern) grounds.now }
    requires decidable { IsDecidable matched (option_map (λ c. cond_tree c.now) condition) }
    requires count { length levels.old ≡ length matched.plan.now.nodes }
    requires levels { AreLevels matched.table.now (node_count (subject_of matched.table.now)) levels.old }
    requires trail { GoesWith matched.table.now trail.old }
    requires vars { trail.old.vars ≡ length matched.plan.now.variables }
    requires spare { search_room (length levels.old) (node_count (subject_of matched.table.now)) ≤ trail.old.spare }
    requires fresh { IsFresh condition trail.old }
    requires standing { IsStanding mode (table_of matched.table.now levels.old)
        (all_items matched (trail_subst matched trail.old)) }
    ensures found { let is = looked_for matched.entry (option_map (λ c. cond_tree c.now) condition.entry) mode
        (table_of matched.entry.table.now levels.old) (trail_subst matched.entry trail.old) in
        MatchBool result
        (slice_get is 0 ≡ Some (table_of matched.entry.table.now levels.new, trail_subst matched.entry trail.new))
        (is ≡ []) }
    ensures count { length levels.new ≡ length levels.old }
    ensures levels { AreLevels matched.entry.table.now (node_count (subject_of matched.entry.table.now)) levels.new }
    ensures trail { GoesWith matched.entry.table.now trail.new }
    ensures kept { cut (length trail.old.stack) trail.new ≡ trail.old }
    ensures spare { trail.old.spare
        ≤ trail.new.spare + search_room (length levels.old) (node_count (subject_of matched.entry.table.now)) }
{
    let root = matched.table.root();
    let width = matched.table.nodes(root) as usize;
    let query = Query {
        sig: matched.sig,
        plan: matched.plan,
        first: 0,
        vars: numbers(matched.plan),
        table: matched.table,
        grounds,
        condition,
        width,
        start: Start {
            under: None,
            children: slice::from_ref(matched.plan.pattern()),
            left: slice::from_ref(&root),
            owes: false,
        },
    };
    find(&query, levels, trail, mode)
}
