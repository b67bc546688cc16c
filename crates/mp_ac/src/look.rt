//! The search for one item below a node, over a trail.
ghost use Rattle.std.specs.Prelude.{◌≡◌, ◌≤◌, ◌+◌, [], MatchBool, Some, length, slice_get, drop};
ghost use Rattle.mp_term.specs.Size.{all_nodes};
ghost use Rattle.mp_pattern.specs.Subpatterns.{subpatterns};
ghost use Rattle.mp_table.specs.Table.{terms_at};
ghost use Rattle.mp_subst.specs.Trail.{GoesWith, cut};
ghost use Rattle.mp_search.specs.At.{BindsOnly};
ghost use Rattle.mp_search.specs.Grounds.{AreGrounds};
ghost use Rattle.mp_search.specs.Levels.{AreLevels};
ghost use Rattle.mp_search.specs.Wanted.{IsStanding};
ghost use Rattle.mp_ac.specs.Asked.{IsAsked, AreGiven, IsTrailFor, all_items, cost, levels_table, trail_subst};
ghost use Rattle.mp_ac.specs.CommList.{behind_table};
ghost use Rattle.mp_ac.specs.CommPlan.{nodes_below};
ghost use Rattle.mp_ac.specs.Stage.{IsOnward, looked_for};
ghost use Rattle.mp_ac.specs.Moved.{IsMoved, IsStandingAt};

use crate::asked::Asked;
use crate::room::CommRoom;
use mp_pattern::Pattern;
use mp_search::{Ground, Level, Mode, Query, Stage, Start, find};
use mp_subst::Trail;
use mp_table::Rank;

// Looks for the item that is wanted, in levels of which the first ones are for the nodes below.
pub(crate) fn look<'a>(
    asked: Asked<'a>,
    args: &'a [Rank],
    grounds: &'a [Ground],
    width: usize,
    levels: &mut [Level],
    trail: &mut Trail,
    mode: Mode,
) -> bool
    requires asked { IsAsked asked }
    requires args { AreGiven asked.sig.now asked.plan.now.pattern asked.table.now args.now }
    requires grounds { AreGrounds asked.table.now (subpatterns asked.plan.now.pattern) grounds.now }
    requires count { nodes_below asked.plan.now.pattern ≤ length levels.old }
    requires wide { all_nodes (terms_at asked.table.now args.now) ≤ width }
    requires levels { AreLevels asked.table.now width levels.old }
    requires trail { IsTrailFor asked.vars.now asked.plan.now.pattern asked.table.now args.now trail.old }
    requires mode { IsOnward mode }
    requires standing { IsStanding mode (levels_table asked levels.old)
        (all_items asked args.now (trail_subst asked trail.old)) }
    ensures found { let is = looked_for mode (levels_table asked.entry levels.old)
        (all_items asked.entry args.now (trail_subst asked.entry trail.old)) in
        MatchBool result
        ((slice_get is 0 ≡ Some (levels_table asked.entry levels.new, trail_subst asked.entry trail.new))
        × (behind_table (levels_table asked.entry levels.new)
        (all_items asked.entry args.now (trail_subst asked.entry trail.old)) ≡ drop 1 is)) (is ≡ []) }
    ensures count { length levels.new ≡ length levels.old }
    ensures levels { AreLevels asked.entry.table.now width levels.new }
    ensures kept { cut (length trail.old.stack) trail.new ≡ trail.old }
    ensures only { BindsOnly asked.entry.vars.now trail.old trail.new }
    ensures spare { trail.old.spare ≤ trail.new.spare
        + cost asked.entry.plan.now.pattern (terms_at asked.entry.table.now args.now) }
    ensures trail { GoesWith asked.entry.table.now trail.new }
{
    let Pattern::App(op, children) = asked.plan.pattern() else {
        unreachable!()
    };
    let count = asked.plan.len() as usize - 1;
    let query = Query {
        sig: asked.sig,
        plan: asked.plan,
        first: 1,
        vars: asked.vars,
        table: asked.table,
        grounds,
        condition: None,
        width,
        start: Start {
            under: Some(*op),
            children: children.as_slice(),
            left: args,
            owes: asked.owes,
        },
    };
    find(&query, &mut levels[..count], trail, mode)
}

// Looks for the next item at the stage, over the trail. Where there is none, the trail is left as it was.
pub(crate) fn look_on(
    asked: Asked<'_>,
    args: &[Rank],
    room: &mut CommRoom,
    stage: Stage,
    trail: &mut Trail,
) -> bool
    requires standing { IsStandingAt asked args.now stage room.old trail.old }
    ensures moved { IsMoved asked.entry args.now stage room.old trail.old result room.new trail.new }
{
    let Some(mode) = stage.mode() else {
        return false;
    };
    let mark = trail.mark();
    let grounds = room.grounds.as_slice();
    let width = room.width;
    if look(asked, args, grounds, width, &mut room.levels, trail, mode) {
        return true;
    }
    trail.undo(mark);
    false
}
