//! What a wildcard takes of the terms that are left: a front of them.
ghost use Rattle.std.specs.Prelude.{◌≡◌, ◌≤◌, ◌<◌, ◌+◌, ◌&&◌, ℕ, List, [], ◌∷◌, length, Some, None, true, false};
ghost use Rattle.std.specs.Prelude.{MatchBool, Option, ◌≢◌};
ghost use Rattle.std.specs.Prelude.{IsSome, IfSome, ◌^◌, MatchOption, IsTrue, IsFalse, nat_lt, if◌then◌else◌};
ghost use Rattle.mp_term.specs.Signature.{Sig};
ghost use Rattle.mp_term.specs.Tree.{Tree};
ghost use Rattle.mp_term.specs.View.{tree};
ghost use Rattle.mp_pattern.specs.Fits.{is_left_out};
ghost use Rattle.mp_pattern.specs.NetTokens.{wild_token, numbered};
ghost use Rattle.mp_pattern.specs.NetTokenView.{net_token};
ghost use Rattle.mp_pattern.specs.PatternTree.{wild_pattern, is_sequence};
ghost use Rattle.mp_pattern.specs.Sound.{DefaultIsNormal};
ghost use Rattle.mp_pattern.specs.Value.{Subst, one, one_form};
ghost use Rattle.mp_pattern.specs.Variables.{comm_above};
ghost use Rattle.mp_table.specs.Table as plain_table;
ghost use Rattle.mp_table.specs.Table.{HasRanks, terms_at, rank_of};
ghost use Rattle.mp_subst.specs.Bound.{bound_of, value_in, AreRanksOf};
ghost use Rattle.mp_theory.specs.Solve.{bind, given};
ghost use Rattle.mp_search.specs.Frames.{above};
ghost use Rattle.mp_walk.specs.OpenOnes.{IsFrame, open_of};
ghost use Rattle.mp_walk.specs.TokenMachine.{Open, numbered_wildcard, rest_of_open};
ghost use Rattle.mp_ac.specs.Numbered.{numbered_subst, LiesOver, IsTrailOf};
ghost use Rattle.mp_walk.specs.Trails.{told_by, shape_of, number_of};
ghost use Rattle.mp_walk.specs.SoundTokens.{IsVariableNumber};
ghost use Rattle.mp_walk.specs.Trails.{HoldsDefault};
ghost use Rattle.mp_walk.specs.Ways.{front_entry, way_steps, HasNoWay, IsFirstWay};

use crate::frame::Frame;
use crate::token::{gives, is_sequence, least, most, number};
use mp_pattern::{Form, MAX_VARIABLES, NetToken};
use mp_subst::{Bound, Trail};
use mp_table::{Rank, Table};
use mp_term::{OpId, Signature, Term};
use std::slice;

// One term: that of the rank, or the operation above applied to those of several.
fn single<'a>(under: Option<OpId>, ranks: &'a [Rank]) -> Bound<'a>
    ensures { bound_of result
        ≡ record {
          form = one_form;
          wrap = if nat_lt 1 (length ranks.now) then above under else None;
          ranks = ranks.now;
        } }
{
    let wrap = if ranks.len() > 1 { under } else { None };
    Bound {
        form: Form::One,
        wrap,
        ranks,
    }
}

// The value that a wildcard gives by taking a list that it may take, where it isn't left out.
fn given<'a>(
    sig: &Signature,
    table: &Table,
    under: Option<OpId>,
    token: &NetToken,
    ranks: &'a [Rank],
) -> Bound<'a>
    requires ordered { comm_above sig.now (above under) ≡ false }
    requires wild { net_token token.now
        ≡ wild_token (shape_of (net_token token.now)) (number_of (net_token token.now)) }
    requires given { IsSome (given sig.now (above under) (shape_of (net_token token.now))
        (terms_at table.now ranks.now)) }
    requires taken { is_left_out (wild_pattern (shape_of (net_token token.now)) None) (terms_at table.now ranks.now)
        ≡ false }
    ensures value { given sig.now (above under) (shape_of (net_token token.now)) (terms_at table.now ranks.now)
        ≡ Some (value_in table.now (bound_of result)) }
    ensures formed { AreRanksOf (bound_of result).form (bound_of result).wrap ranks.now }
    ensures ranks { result.ranks.now ≡ ranks.now }
{
    let _ = sig;
    let _ = table;
    if is_sequence(token) {
        Bound {
            form: Form::Seq,
            wrap: None,
            ranks,
        }
    } else {
        single(under, ranks)
    }
}

// Binds the variable of the number to the value too, and answers false where that clashes.
fn bind_value(table: &Table, var: u32, bound: &Bound<'_>, trail: &mut Trail) -> bool
    requires var { var < MAX_VARIABLES }
    requires ranks { HasRanks table.now bound.now.ranks.now }
    requires formed { AreRanksOf (bound_of bound.now).form (bound_of bound.now).wrap bound.now.ranks.now }
    requires spare { length bound.now.ranks.now + 2 ≤ trail.old.spare }
    requires trail { IsTrailOf table.now trail.old }
    ensures bound { let o = bind (numbered_subst table.now trail.old.stack) (numbered var)
        (value_in table.now (bound_of bound.now)) in
        MatchBool result (o ≡ Some (numbered_subst table.now trail.new.stack)) (o ≡ None) }
    ensures kept { LiesOver table.now (length bound.now.ranks.now + 2) trail.old trail.new }
    ensures refused { IsFalse result → trail.new ≡ trail.old }
{
    trail.bind(table, var, bound.form, bound.wrap, bound.ranks)
}

// Binds the variable of the number to a default too, whose term the table holds, and answers false where that clashes.
fn bind_default(table: &Table, default: &Term, var: u32, trail: &mut Trail) -> bool
    requires held { IsSome (rank_of table.now (tree default.now)) }
    requires var { var < MAX_VARIABLES }
    requires spare { 3 ≤ trail.old.spare }
    requires trail { IsTrailOf table.now trail.old }
    ensures bound { let o = bind (numbered_subst table.now trail.old.stack) (numbered var) (one (tree default.now)) in
        MatchBool result (o ≡ Some (numbered_subst table.now trail.new.stack)) (o ≡ None) }
    ensures kept { LiesOver table.now 3 trail.old trail.new }
    ensures refused { IsFalse result → trail.new ≡ trail.old }
{
    let Some(rank) = table.find(default) else {
        unreachable!()
    };
    let bound = Bound {
        form: Form::One,
        wrap: None,
        ranks: slice::from_ref(&rank),
    };
    bind_value(table, var, &bound, trail)
}

// Binds what the wildcard says by taking the list, and answers false where that clashes with the trail.
fn bind(
    sig: &Signature,
    table: &Table,
    under: Option<OpId>,
    token: &NetToken,
    ranks: &[Rank],
    trail: &mut Trail,
) -> bool
    requires ordered { comm_above sig.now (above under) ≡ false }
    requires wild { net_token token.now
        ≡ wild_token (shape_of (net_token token.now)) (number_of (net_token token.now)) }
    requires ranks { HasRanks table.now ranks.now }
    requires given { IsSome (given sig.now (above under) (shape_of (net_token token.now))
        (terms_at table.now ranks.now)) }
    requires held { HoldsDefault table.now (shape_of (net_token token.now)) }
    requires var { IsVariableNumber (number_of (net_token token.now)) }
    requires spare { length ranks.now + 3 ≤ trail.old.spare }
    requires trail { IsTrailOf table.now trail.old }
    ensures bound { let o = told_by sig.now (above under) (shape_of (net_token token.now))
        (number_of (net_token token.now)) (terms_at table.now ranks.now)
        (numbered_subst table.now trail.old.stack) in
        MatchBool result (o ≡ Some (numbered_subst table.now trail.new.stack)) (o ≡ None) }
    ensures kept { LiesOver table.now (length ranks.now + 3) trail.old trail.new }
    ensures refused { IsFalse result → trail.new ≡ trail.old }
{
    let Some(var) = number(token) else {
        return true;
    };
    match (token, ranks) {
        (NetToken::Opt(_, default), []) => bind_default(table, default, var, trail),
        _ => bind_value(table, var, &given(sig, table, under, token, ranks), trail),
    }
}

// Takes the front of so many terms, if the wildcard may take it, and binds it.
fn take_exactly(
    sig: &Signature,
    table: &Table,
    frame: &Frame<'_>,
    token: &NetToken,
    count: usize,
    trail: &mut Trail,
) -> bool
    requires frame { IsFrame table.now frame.now }
    requires ordered { comm_above sig.now (above frame.now.under) ≡ false }
    requires wild { net_token token.now
        ≡ wild_token (shape_of (net_token token.now)) (number_of (net_token token.now)) }
    requires open { ((open_of table.now frame.now).collapsed && is_sequence (shape_of (net_token token.now))) ≡ false }
    requires held { HoldsDefault table.now (shape_of (net_token token.now)) }
    requires default { DefaultIsNormal sig.now (shape_of (net_token token.now)) }
    requires var { IsVariableNumber (number_of (net_token token.now)) }
    requires count { count ≤ length (open_of table.now frame.now).left }
    requires spare { count + 3 ≤ trail.old.spare }
    requires trail { IsTrailOf table.now trail.old }
    ensures step { (fs : List Open) →
        let f = open_of table.now frame.now in
        let k = net_token token.now in
        let o = way_steps sig.now f fs (numbered_subst table.now trail.old.stack) k count in
        MatchBool result (o ≡ (
          front_entry f.left count ∷ [],
          record {
            open_ones = rest_of_open (numbered_wildcard (shape_of k) (number_of k)) (front_entry f.left count) f ∷ fs;
            trail = numbered_subst table.now trail.new.stack;
          },
        ) ∷ []) (o ≡ []) }
    ensures kept { LiesOver table.now (count + 3) trail.old trail.new }
    ensures refused { IsFalse result → trail.new ≡ trail.old }
{
    let left = frame.left;
    let ranks = &left[..count];
    if !gives(sig, table, frame.under, token, ranks) {
        return false;
    }
    bind(sig, table, frame.under, token, ranks, trail)
}

// The greater number.
fn greater(a: usize, b: usize) -> usize
    ensures first { a ≤ result }
    ensures either { (n : ℕ) → a ≤ n → n < result → n < b }
{
    if a < b { b } else { a }
}

// No front is taken by a sequence wildcard under an operation that is collapsed.
fn is_barred(frame: &Frame<'_>, token: &NetToken) -> bool
    requires wild { net_token token.now
        ≡ wild_token (shape_of (net_token token.now)) (number_of (net_token token.now)) }
    ensures { (t : plain_table.Table) →
        result ≡ ((open_of t frame.now).collapsed && is_sequence (shape_of (net_token token.now))) }
{
    frame.collapsed && is_sequence(token)
}

// The length of the list that the variable of a sequence wildcard is bound to.
fn value_length(token: &NetToken, trail: &Trail) -> Option<usize>
    requires wild { net_token token.now
        ≡ wild_token (shape_of (net_token token.now)) (number_of (net_token token.now)) }
    requires var { IsVariableNumber (number_of (net_token token.now)) }
    ensures { (sig : Sig) (table : plain_table.Table) (f : Option ℕ) (ts : List Tree) → comm_above sig f ≡ false
        → IfSome result (λ n. length ts ≢ n → told_by sig f (shape_of (net_token token.now))
        (number_of (net_token token.now)) ts (numbered_subst table trail.now.stack) ≡ None) }
{
    if !is_sequence(token) {
        return None;
    }
    let Some(var) = number(token) else {
        return None;
    };
    match trail.binding(var) {
        Some(
            Bound {
                form: Form::Seq,
                ranks,
                ..
            },
        ) => Some(ranks.len()),
        _ => None,
    }
}

// Numbers of terms such that the wildcard takes no front of fewer than the first or more than the second.
fn bounds(
    sig: &Signature,
    table: &Table,
    frame: &Frame<'_>,
    token: &NetToken,
    trail: &Trail,
) -> (usize, usize)
    requires frame { IsFrame table.now frame.now }
    requires ordered { comm_above sig.now (above frame.now.under) ≡ false }
    requires wild { net_token token.now
        ≡ wild_token (shape_of (net_token token.now)) (number_of (net_token token.now)) }
    requires var { IsVariableNumber (number_of (net_token token.now)) }
    ensures fewest { (fs : List Open) (n : ℕ) → n < result.0 → way_steps sig.now (open_of table.now frame.now) fs
        (numbered_subst table.now trail.now.stack) (net_token token.now) n ≡ [] }
    ensures longest { (fs : List Open) (n : ℕ) → result.1 < n → way_steps sig.now (open_of table.now frame.now) fs
        (numbered_subst table.now trail.now.stack) (net_token token.now) n ≡ [] }
    ensures within { result.1 ≤ length (open_of table.now frame.now).left }
    ensures short { result.1 + 1 < 2 ^ 64 }
{
    let room = frame.left.len();
    match value_length(token, trail) {
        Some(length) => (length, length.min(room)),
        None => (least(token), most(sig, frame.under, token, room)),
    }
}

// The number is greater than that of any terms that the wildcard takes.
pub(crate) fn is_behind(
    sig: &Signature,
    table: &Table,
    frame: &Frame<'_>,
    token: &NetToken,
    from: usize,
) -> bool
    requires frame { IsFrame table.now frame.now }
    requires wild { net_token token.now
        ≡ wild_token (shape_of (net_token token.now)) (number_of (net_token token.now)) }
    ensures wild { net_token token.now
        ≡ wild_token (shape_of (net_token token.now)) (number_of (net_token token.now)) }
    ensures none { IsTrue result → (fs : List Open) (s : Subst)
        → HasNoWay sig.now (open_of table.now frame.now) fs s (net_token token.now) from }
{
    from > most(sig, frame.under, token, frame.left.len())
}

// Takes the first front of at least so many terms that the wildcard may take, and binds it: its length. None comes
// where there is none, and then nothing is bound.
pub(crate) fn take_front(
    sig: &Signature,
    table: &Table,
    frame: &Frame<'_>,
    token: &NetToken,
    from: usize,
    trail: &mut Trail,
) -> Option<usize>
    requires frame { IsFrame table.now frame.now }
    requires ordered { comm_above sig.now (above frame.now.under) ≡ false }
    requires wild { net_token token.now
        ≡ wild_token (shape_of (net_token token.now)) (number_of (net_token token.now)) }
    requires held { HoldsDefault table.now (shape_of (net_token token.now)) }
    requires default { DefaultIsNormal sig.now (shape_of (net_token token.now)) }
    requires var { IsVariableNumber (number_of (net_token token.now)) }
    requires spare { length (open_of table.now frame.now).left + 3 ≤ trail.old.spare }
    requires trail { IsTrailOf table.now trail.old }
    ensures wild { net_token token.now
        ≡ wild_token (shape_of (net_token token.now)) (number_of (net_token token.now)) }
    ensures way { (fs : List Open) →
        let f = open_of table.now frame.now in
        let k = net_token token.now in
        let s = numbered_subst table.now trail.old.stack in
        MatchOption result (HasNoWay sig.now f fs s k from)
        (λ n. IsFirstWay sig.now f fs s k from n (
          front_entry f.left n ∷ [],
          record {
            open_ones = rest_of_open (numbered_wildcard (shape_of k) (number_of k)) (front_entry f.left n) f ∷ fs;
            trail = numbered_subst table.now trail.new.stack;
          },
        )) }
    ensures within { IfSome result (λ n. n ≤ length (open_of table.now frame.now).left) }
    ensures short { IfSome result (λ n. n + 1 < 2 ^ 64) }
    ensures kept { MatchOption result (trail.new ≡ trail.old) (λ n. LiesOver table.now (n + 3) trail.old trail.new) }
{
    if is_barred(frame, token) {
        return None;
    }
    let (fewest, longest) = bounds(sig, table, frame, token, trail);
    let mut count = greater(from, fewest);
    while count <= longest {
        if take_exactly(sig, table, frame, token, count, trail) {
            return Some(count);
        }
        count += 1;
    }
    None
}
