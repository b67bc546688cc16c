//! The next step of a token, of a commutative application or of any other.
ghost use Rattle.std.specs.Prelude.{◌≡◌, ◌≤◌, ◌+◌, ◌-◌, [], ◌∷◌, List, drop, length, IfOk, MatchOption, IsSome};
ghost use Rattle.std.specs.Prelude.{IsTrue, IsFalse, MatchBool, Some, if◌then◌else◌};
ghost use Rattle.std.specs.List.{AllByRecursion};
ghost use Rattle.mp_pattern.specs.Constants.{pattern_constants};
ghost use Rattle.mp_pattern.specs.NetTokens.{comm_token};
ghost use Rattle.mp_pattern.specs.NetTokenView.{net_token};
ghost use Rattle.mp_pattern.specs.View.{pattern_tree};
ghost use Rattle.mp_table.specs.Table.{rank_of};
ghost use Rattle.mp_subst.specs.Trail.{length_at};
ghost use Rattle.mp_ac.specs.Store.{IsStoreOf};
ghost use Rattle.mp_walk.specs.Below.{IsBelow, IsAtWay, pattern_of, term_of};
ghost use Rattle.mp_walk.specs.CodeConstants.{token_constants};
ghost use Rattle.mp_walk.specs.Course.{steps_left, IsStepTaken, IsWayValid};
ghost use Rattle.mp_walk.specs.InstrView.{plain_instr};
ghost use Rattle.mp_walk.specs.Instrs as plain;
ghost use Rattle.mp_walk.specs.Instrs.{instr_at};
ghost use Rattle.mp_walk.specs.Levels.{read_of, trail_before, step_cost, search_cost, innermost_left, HasSearch};
ghost use Rattle.mp_walk.specs.Levels.{AreOfOneToken, search_of};
ghost use Rattle.mp_walk.specs.OpenOnes.{IsPlaceBelow, AreFrames, opens};
ghost use Rattle.mp_walk.specs.Setting.{IsSetting};
ghost use Rattle.mp_walk.specs.SoundTokens.{IsSoundComm, IsSoundToken};
ghost use Rattle.mp_walk.specs.TokenMachine.{Open};
ghost use Rattle.mp_ac.specs.Numbered.{numbered_subst, IsTrailOf, LiesOver};

use crate::comm::{Below, step_below};
use crate::frame::Frame;
use crate::instr::Instr;
use crate::level::Level;
use crate::setting::Setting;
use crate::steps::step;
use mp_ac::CommStore;
use mp_pattern::{NetToken, Pattern, no_sequence};
use mp_subst::Trail;
use mp_term::Memory;
use std::alloc::Global;

// What a commutative application is read below, where a term stands first in the innermost open operation.
fn below<'a>(
    set: Setting<'a>,
    frames: &[Frame<'_>],
    pattern: &'a Pattern,
    level: &Level<'a>,
) -> Option<Below<'a>>
    requires setting { IsSetting set }
    requires instr { (i : plain.Instr) × (instr_at set.code.now.instrs level.now.instr ≡ Some i)
        × (i.token ≡ comm_token (pattern_tree pattern.now)) }
    requires frames { AreFrames set.sig.now set.table.now frames.now }
    requires place { IsPlaceBelow (length frames.now) level.now.place }
    requires sound { IsSoundComm set.sig.now (pattern_tree pattern.now) }
    requires held { AllByRecursion (λ u. IsSome (rank_of set.table.now u))
        (pattern_constants (pattern_tree pattern.now)) }
    ensures { MatchOption result
        (innermost_left (opens set.entry.table.now frames.now level.now.place) ≡ [])
        (λ b. IsBelow b × (pattern_of b ≡ pattern_tree pattern.now) × (b.sig.now ≡ set.entry.sig.now)
        × (b.table.now ≡ set.entry.table.now)
        × (innermost_left (opens set.entry.table.now frames.now level.now.place)
        ≡ term_of b ∷ drop 1 (innermost_left (opens set.entry.table.now frames.now level.now.place)))
        × (b.plans.now ≡ set.entry.code.now.plans.plans)) }
{
    let Setting { sig, code, table } = set;
    let Some(place) = level.place else {
        return None;
    };
    let Some(rank) = frames[place].first(table) else {
        return None;
    };
    let Some(prepared) = code.prepared(level.instr) else {
        unreachable!()
    };
    let Pattern::App(op, children) = pattern else {
        unreachable!()
    };
    Some(Below {
        sig,
        table,
        plans: code.comm_plans(),
        prepared,
        pattern,
        op: *op,
        collapses: no_sequence(children.as_slice()),
        rank,
    })
}

// Takes the next step of the token of an instruction, which is bound. False comes where there is none.
pub(crate) fn read<'a>(
    alloc: Global,
    set: Setting<'a>,
    frames: &[Frame<'_>],
    instr: &'a Instr,
    level: &mut Level<'a>,
    store: &mut CommStore,
    trail: &mut Trail,
) -> Result<bool, Memory>
    requires setting { IsSetting set }
    requires instr { instr_at set.code.now.instrs level.old.instr ≡ Some (plain_instr instr.now) }
    requires sound { IsSoundToken set.sig.now (net_token instr.now.token) }
    requires held { AllByRecursion (λ u. IsSome (rank_of set.table.now u))
        (token_constants (net_token instr.now.token)) }
    requires frames { AreFrames set.sig.now set.table.now frames.now }
    requires place { IsPlaceBelow (length frames.now) level.old.place }
    requires mark { length_at level.old.mark ≤ length trail.old.stack }
    requires trail { IsTrailOf set.table.now trail.old }
    requires spare { (f : Open) (fs : List Open) → opens set.table.now frames.now level.old.place ≡ f ∷ fs
        → length f.left + 3 ≤ (trail_before trail.old level.old).spare }
    requires cost { search_cost (net_token instr.now.token)
        (innermost_left (opens set.table.now frames.now level.old.place)) ≤ (trail_before trail.old level.old).spare }
    requires search { HasSearch set.table.now (net_token instr.now.token)
        (opens set.table.now frames.now level.old.place) (trail_before trail.old level.old) (search_of level.old) }
    requires way { IsAtWay level.old.next (search_of level.old) }
    requires store { IsStoreOf set.table.now set.code.now.plans.plans store.old }
    ensures store { IfOk result (λ _. IsStoreOf set.entry.table.now set.entry.code.now.plans.plans store.new) }
    ensures way { IfOk result (λ _. IsAtWay level.new.next (search_of level.new)) }
    ensures same { IfOk result (λ _. AreOfOneToken level.old level.new) }
    ensures step { IfOk result (λ found. MatchBool found
        (IsStepTaken set.entry.sig.now (net_token instr.now.token)
        (read_of set.entry.table.now frames.now trail.old level.old)
        (read_of set.entry.table.now frames.now trail.new level.new)
        (numbered_subst set.entry.table.now trail.new.stack))
        ((steps_left set.entry.sig.now (net_token instr.now.token)
        (read_of set.entry.table.now frames.now trail.old level.old) ≡ [])
        × (steps_left set.entry.sig.now (net_token instr.now.token)
        (read_of set.entry.table.now frames.now trail.new level.new) ≡ []))) }
    ensures kept { IfOk result (λ found. LiesOver set.entry.table.now
        (if found then step_cost (net_token instr.now.token)
        (opens set.entry.table.now frames.now level.old.place) (level.new.next - 1) else 0)
        (trail_before trail.old level.old) trail.new) }
    ensures back { IfOk result (λ found. IsFalse found → trail.new ≡ trail_before trail.old level.old) }
    ensures valid { IfOk result (λ found. IsTrue found → (f : Open) (fs : List Open)
        → opens set.entry.table.now frames.now level.old.place ≡ f ∷ fs
        → IsWayValid (net_token instr.now.token) f (level.new.next - 1)) }
    ensures search { IfOk result (λ _. HasSearch set.entry.table.now (net_token instr.now.token)
        (opens set.entry.table.now frames.now level.old.place) (trail_before trail.old level.old)
        (search_of level.new)) }
{
    let NetToken::Comm(pattern) = &instr.token else {
        return Ok(step(set, frames, &instr.token, level, trail));
    };
    let Some(below) = below(set, frames, pattern, level) else {
        trail.undo(level.mark);
        return Ok(false);
    };
    step_below(
        alloc,
        below,
        level.mark,
        &mut level.next,
        &mut level.search,
        store,
        trail,
    )
}
