//! Lists of tokens in little room.
ghost use Rattle.std.specs.Prelude.{◌≡◌, ◌<◌, [], ◌∷◌, ◌++◌, List, length, map, slice_get};
ghost use Rattle.std.specs.Prelude.{Some, IfOk, IfSome, IsTrue, OnOk};
ghost use Rattle.mp_pattern.specs.NetTokens.{NetToken};
ghost use Rattle.mp_many.specs.KeptTokens.{read_kept, IsHeld};
ghost use Rattle.mp_many.specs.TokenView.{read_token};

use crate::token::{Token, is_plainly_same};
use mp_pattern::Shape;
use mp_term::{Memory, Name, OpId};
use std::alloc::Global;
use std::marker::Model;

// The number of slots for tokens that may come again.
const SLOTS: usize = 256;

// A token as it is kept in a list: that of an operation itself, and any other by its place among those that are held.
#[derive(Clone, Copy)]
pub(crate) enum Kept {
    Enter(OpId),
    Leave(OpId),
    Held(u32),
}

// A list of tokens, seen by contracts as the list of the plain ones. A token that comes again is mostly held once.
#[derive(Drop)]
pub(crate) struct Tokens<'a> {
    held: Vec<Token<'a>>,
    // By slots, the place of the token that was held last.
    recent: Vec<u32>,
    kept: Vec<Kept>,
}

impl<'a> Model for Tokens<'a> {
    ghost use Rattle.std.specs.Prelude.{List};
    ghost use Rattle.std.specs.Coded.{coded_list};
    ghost use Rattle.mp_pattern.specs.NetTokens as plain;
    ghost use Rattle.mp_pattern.specs.NetTokenCode.{coded_net_token};

    ghost Value = { List plain.NetToken };

    ghost coded = { coded_list coded_net_token };

    ghost use Rattle.mp_many.specs.KeptTokens.{tokens_view, AreKept};

    ghost view = { tokens_view };

    ghost invariant = { AreKept };
}

// A number of a name, by its first and its last byte.
fn name_number(name: &Name) -> usize {
    match name.bytes() {
        [] => 0,
        [only] => usize::from(*only),
        [first, .., last] => 31 * usize::from(*first) + usize::from(*last),
    }
}

// The slot of a token.
fn slot_of(token: &Token<'_>) -> usize {
    let number = match token {
        Token::Sym(name) => name_number(name),
        Token::Wild(Shape::Kind(kind), Some(number)) => {
            (kind.0 as usize)
                .wrapping_mul(8)
                .wrapping_add(*number as usize)
        }
        Token::Wild(_, Some(number)) => *number as usize,
        _ => 0,
    };
    number % SLOTS
}

// The place at which the token is held, where that is told at once.
fn place_of(held: &[Token<'_>], recent: &[u32], token: &Token<'_>) -> Option<u32>
    ensures { IfSome result (λ n. slice_get (map read_token held.now) n ≡ Some (read_token token.now)) }
{
    let place = *recent.get(slot_of(token))?;
    let other = held.get(place as usize)?;
    if is_plainly_same(other, token) {
        Some(place)
    } else {
        None
    }
}

// The token as it is kept by its place among those that are held, to which it is added where none is told at once.
fn hold<'a>(held: &mut Vec<Token<'a>>, recent: &mut [u32], token: Token<'a>) -> Result<Kept, Memory>
    ensures more { (more : List NetToken)
        × map read_token held.new.items ≡ map read_token held.old.items ++ more }
    ensures held { IfOk result (IsHeld (length held.new.items)) }
    ensures read { IfOk result (λ k. read_kept (map read_token held.new.items) k ≡ read_token token.entry) }
{
    if let Some(place) = place_of(held, recent, &token) {
        return Ok(Kept::Held(place));
    }
    let place = held.len();
    if place > u32::MAX as usize {
        return Err(Memory);
    }
    held.push(token)?;
    if let Some(last) = recent.get_mut(slot_of(&token)) {
        *last = place as u32;
    }
    Ok(Kept::Held(place as u32))
}

// The token as it is kept, which is held where it has to be.
#[inline(always)]
fn keep<'a>(held: &mut Vec<Token<'a>>, recent: &mut [u32], token: Token<'a>) -> Result<Kept, Memory>
    ensures more { (more : List NetToken)
        × map read_token held.new.items ≡ map read_token held.old.items ++ more }
    ensures held { IfOk result (IsHeld (length held.new.items)) }
    ensures read { IfOk result (λ k. read_kept (map read_token held.new.items) k ≡ read_token token.entry) }
{
    match token {
        Token::Enter(op) => Ok(Kept::Enter(op)),
        Token::Leave(op) => Ok(Kept::Leave(op)),
        _ => hold(held, recent, token),
    }
}

// What is kept is the same.
#[inline(always)]
fn is_one(kept: Kept, other: Kept) -> bool
    ensures { IsTrue result → kept ≡ other }
{
    match (kept, other) {
        (Kept::Enter(f), Kept::Enter(g)) => f == g,
        (Kept::Leave(f), Kept::Leave(g)) => f == g,
        (Kept::Held(m), Kept::Held(n)) => m == n,
        _ => false,
    }
}

impl<'a> Tokens<'a> {
    // The empty list, with room for so many tokens. `Memory` comes where there is no such room.
    pub(crate) fn with_room(alloc: Global, room: usize) -> Result<Self, Memory>
        ensures { IfOk result (λ ts. ts ≡ []) }
    {
        Ok(Tokens {
            held: Vec::new(alloc),
            recent: Vec::from_elem(alloc, 0, SLOTS)?,
            kept: Vec::with_capacity(alloc, room)?,
        })
    }

    // Adds a token at the end.
    #[inline(always)]
    pub(crate) fn push(&mut self, token: Token<'a>) -> Result<(), Memory>
        ensures { OnOk result (self.new ≡ self.old ++ read_token token.entry ∷ []) }
    {
        let kept = keep(&mut self.held, &mut self.recent, token)?;
        self.kept.push(kept)?;
        Ok(())
    }

    // How many tokens there are.
    pub(crate) fn len(&self) -> usize
        ensures { result ≡ length self.now }
    {
        self.kept.len()
    }

    // The tokens at the places are one, as is told at once.
    #[inline(always)]
    pub(crate) fn are_same(&self, place: usize, other: usize) -> bool
        requires place { place < length self.now }
        requires other { other < length self.now }
        ensures { IsTrue result → slice_get self.now place ≡ slice_get self.now other }
    {
        is_one(self.kept[place], self.kept[other])
    }

    // The token at the place, from 0.
    pub(crate) fn at(&self, place: usize) -> Token<'a>
        requires { place < length self.now }
        ensures { slice_get self.now place ≡ Some (read_token result) }
    {
        match self.kept[place] {
            Kept::Enter(op) => Token::Enter(op),
            Kept::Leave(op) => Token::Leave(op),
            Kept::Held(held) => self.held[held as usize],
        }
    }
}
