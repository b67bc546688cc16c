//! The steps of a token in the innermost open operation.
ghost use Rattle.std.specs.Prelude.{◌≡◌, ◌≤◌, ◌<◌, ◌+◌, ◌-◌, ◌^◌, ◌&&◌, [], ◌∷◌, List, length, None, false};
ghost use Rattle.std.specs.Prelude.{IfSome, IsFalse, IsTrue, MatchBool, MatchOption, if◌then◌else◌};
ghost use Rattle.mp_term.specs.NormalTest.{has_head};
ghost use Rattle.mp_term.specs.Signature.{is_one};
ghost use Rattle.mp_pattern.specs.NetTokens.{enter_token};
ghost use Rattle.mp_pattern.specs.NetTokenView.{net_token};
ghost use Rattle.mp_pattern.specs.Value.{Subst};
ghost use Rattle.mp_pattern.specs.Variables.{comm_above};
ghost use Rattle.mp_table.specs.Table.{HasRank, term_at};
ghost use Rattle.mp_subst.specs.Trail.{length_at};
ghost use Rattle.mp_walk.specs.Course.{entries_by, opens_by, IsWayValid, way_cost, is_comm_token};
ghost use Rattle.mp_walk.specs.Course.{Read, steps_left, IsStepTaken};
ghost use Rattle.mp_walk.specs.Levels.{read_of, search_of, trail_before, AreOfOneToken};
ghost use Rattle.mp_search.specs.Frames.{above};
ghost use Rattle.mp_walk.specs.OpenOnes.{IsFrame, IsPlaceBelow, AreFrames, open_of, opens};
ghost use Rattle.mp_walk.specs.SoundTokens.{IsSoundToken};
ghost use Rattle.mp_walk.specs.TokenMachine.{Open};
ghost use Rattle.mp_ac.specs.Numbered.{numbered_subst, IsTrailOf, LiesOver};
ghost use Rattle.mp_walk.specs.Trails.{shape_of, HoldsDefault};
ghost use Rattle.mp_walk.specs.Ways.{HasNoWay, IsFirstWay, way_among, is_first_symbol};

use crate::frame::Frame;
use crate::front::{is_behind, take_front};
use crate::level::Level;
use crate::setting::Setting;
use mp_pattern::NetToken;
use mp_search::has_head;
use mp_subst::Trail;
use mp_table::{Rank, Table};
use mp_term::{Name, OpId, Signature, same_bytes};

// The first term that is left is the symbol of the name.
fn is_first_symbol(table: &Table, frame: &Frame<'_>, name: &Name) -> bool
    requires { IsFrame table.now frame.now }
    ensures { result ≡ is_first_symbol name.now (open_of table.now frame.now).left }
{
    match frame.first_name(table) {
        None => false,
        Some(own) => same_bytes(own, name.bytes()),
    }
}

// The first way from the number on, where way 0 is there or not, and way 1 is.
fn way_among(from: usize, headed: bool, single: bool) -> Option<usize>
    ensures { result ≡ way_among from headed single }
{
    if from == 0 {
        if headed {
            Some(0)
        } else if single {
            Some(1)
        } else {
            None
        }
    } else if from == 1 {
        if single { Some(1) } else { None }
    } else {
        None
    }
}

// The first way from the number on in which an application of the operation may take the term: 0 by its arguments,
// 1 collapsed.
pub(crate) fn first_way(
    sig: &Signature,
    table: &Table,
    op: OpId,
    collapses: bool,
    rank: Rank,
    from: usize,
) -> Option<usize>
    requires { HasRank table.now rank }
    ensures { result
        ≡ way_among from (has_head op.0 (term_at table.now rank)) (is_one sig.now op.0 && collapses) }
{
    let headed = has_head(table, rank, op);
    let single = sig.is_one(op) && collapses;
    way_among(from, headed, single)
}

// The first way from the number on in which the begin of an application reads on.
fn begin_way(
    sig: &Signature,
    table: &Table,
    frame: &Frame<'_>,
    op: OpId,
    from: usize,
) -> Option<usize>
    requires { IsFrame table.now frame.now }
    ensures way { (fs : List Open) (s : Subst) →
        let f = open_of table.now frame.now in
        let k = enter_token op.0 in
        MatchOption result (HasNoWay sig.now f fs s k from) (λ w. IsFirstWay sig.now f fs s k from w
        (entries_by k f w [], record { open_ones = opens_by k f fs w; trail = s })) }
    ensures valid { IfSome result (IsWayValid (enter_token op.0) (open_of table.now frame.now)) }
{
    match frame.first(table) {
        None => None,
        Some(rank) => first_way(sig, table, op, true, rank, from),
    }
}

// The first way from the number on in which the token reads on in the open operation, which is bound: the token isn't
// that of a commutative application. None comes where there is none, and then nothing is bound.
#[inline(always)]
pub(crate) fn way_from(
    sig: &Signature,
    table: &Table,
    frame: &Frame<'_>,
    token: &NetToken,
    from: usize,
    trail: &mut Trail,
) -> Option<usize>
    requires frame { IsFrame table.now frame.now }
    requires ordered { comm_above sig.now (above frame.now.under) ≡ false }
    requires sound { IsSoundToken sig.now (net_token token.now) }
    requires single { is_comm_token (net_token token.now) ≡ false }
    requires held { HoldsDefault table.now (shape_of (net_token token.now)) }
    requires spare { length (open_of table.now frame.now).left + 3 ≤ trail.old.spare }
    requires trail { IsTrailOf table.now trail.old }
    ensures way { (fs : List Open) →
        let f = open_of table.now frame.now in
        let k = net_token token.now in
        let s = numbered_subst table.now trail.old.stack in
        MatchOption result (HasNoWay sig.now f fs s k from) (λ w. IsFirstWay sig.now f fs s k from w (
          entries_by k f w [],
          record {
            open_ones = opens_by k f fs w;
            trail = numbered_subst table.now trail.new.stack;
          },
        )) }
    ensures valid { IfSome result (IsWayValid (net_token token.now) (open_of table.now frame.now)) }
    ensures short { IfSome result (λ w. w + 1 < 2 ^ 64) }
    ensures kept { MatchOption result (trail.new ≡ trail.old)
        (λ w. LiesOver table.now (way_cost (net_token token.now) w) trail.old trail.new) }
{
    match token {
        NetToken::Sym(name) => {
            if from == 0 && is_first_symbol(table, frame, name) {
                Some(0)
            } else {
                None
            }
        }
        NetToken::Leave(_) => {
            if from == 0 && frame.is_done(table) {
                Some(0)
            } else {
                None
            }
        }
        NetToken::Enter(op) => begin_way(sig, table, frame, *op, from),
        NetToken::Comm(_) => None,
        _ => take_front(sig, table, frame, token, from, trail),
    }
}

// No way of the token from the number on reads on in the open operation, as is told without the trail.
#[inline(always)]
fn has_no_way(
    sig: &Signature,
    table: &Table,
    frame: &Frame<'_>,
    token: &NetToken,
    from: usize,
) -> bool
    requires frame { IsFrame table.now frame.now }
    ensures none { IsTrue result → (fs : List Open) (s : Subst)
        → HasNoWay sig.now (open_of table.now frame.now) fs s (net_token token.now) from }
    ensures single { IsTrue result → is_comm_token (net_token token.now) ≡ false }
{
    match token {
        NetToken::Sym(name) => from > 0 || !is_first_symbol(table, frame, name),
        NetToken::Leave(_) => from > 0 || !frame.is_done(table),
        NetToken::Enter(op) => begin_way(sig, table, frame, *op, from).is_none(),
        NetToken::Comm(_) => false,
        _ => is_behind(sig, table, frame, token, from),
    }
}

// No step of the token from the way of the number on is left in the operations that are open at the place, as is told
// without the trail.
#[inline(always)]
pub(crate) fn is_spent(
    set: Setting<'_>,
    frames: &[Frame<'_>],
    place: Option<usize>,
    token: &NetToken,
    from: usize,
) -> bool
    requires frames { AreFrames set.sig.now set.table.now frames.now }
    requires place { IsPlaceBelow (length frames.now) place }
    ensures none { IsTrue result → (l : Read) → l.state.open_ones ≡ opens set.entry.table.now frames.now place
        → l.next ≡ from → l.ahead ≡ [] → steps_left set.entry.sig.now (net_token token.now) l ≡ [] }
    ensures single { IsTrue result → is_comm_token (net_token token.now) ≡ false }
{
    match place {
        None => false,
        Some(place) => has_no_way(set.sig, set.table, &frames[place], token, from),
    }
}

// Takes the next step of a token, which is bound. False comes where there is none.
pub(crate) fn step(
    set: Setting<'_>,
    frames: &[Frame<'_>],
    token: &NetToken,
    level: &mut Level<'_>,
    trail: &mut Trail,
) -> bool
    requires normal { IsSoundToken set.sig.now (net_token token.now) }
    requires single { is_comm_token (net_token token.now) ≡ false }
    requires search { search_of level.old ≡ None }
    requires held { HoldsDefault set.table.now (shape_of (net_token token.now)) }
    requires frames { AreFrames set.sig.now set.table.now frames.now }
    requires place { IsPlaceBelow (length frames.now) level.old.place }
    requires mark { length_at level.old.mark ≤ length trail.old.stack }
    requires trail { IsTrailOf set.table.now trail.old }
    requires spare { (f : Open) (fs : List Open) → opens set.table.now frames.now level.old.place ≡ f ∷ fs
        → length f.left + 3 ≤ (trail_before trail.old level.old).spare }
    ensures same { AreOfOneToken level.old level.new }
    ensures step { MatchBool result
        (IsStepTaken set.entry.sig.now (net_token token.now)
        (read_of set.entry.table.now frames.now trail.old level.old)
        (read_of set.entry.table.now frames.now trail.new level.new)
        (numbered_subst set.entry.table.now trail.new.stack))
        (steps_left set.entry.sig.now (net_token token.now)
        (read_of set.entry.table.now frames.now trail.old level.old) ≡ []) }
    ensures kept { LiesOver set.entry.table.now
        (if result then way_cost (net_token token.now) (level.new.next - 1) else 0)
        (trail_before trail.old level.old) trail.new }
    ensures search { search_of level.new ≡ None }
    ensures refused { IsFalse result → (trail.new ≡ trail_before trail.old level.old) × (level.new ≡ level.old) }
    ensures valid { IsTrue result → (f : Open) (fs : List Open)
        → opens set.entry.table.now frames.now level.old.place ≡ f ∷ fs
        → IsWayValid (net_token token.now) f (level.new.next - 1) }
{
    trail.undo(level.mark);
    let Some(place) = level.place else {
        return false;
    };
    let frame = frames[place];
    match way_from(set.sig, set.table, &frame, token, level.next, trail) {
        None => false,
        Some(way) => {
            level.next = way + 1;
            true
        }
    }
}
