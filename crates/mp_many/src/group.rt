//! Token lists that begin alike from a place on, together.
ghost use Rattle.std.specs.Prelude.{◌≡◌, ◌≤◌, ◌<◌, ◌++◌, [], ◌∷◌, length, map, flat_map, slice_get};
ghost use Rattle.std.specs.Prelude.{slice_index_or, take, IfOk, OnOk};
ghost use Rattle.std.specs.List.{AllByRecursion};
ghost use Rattle.mp_many.specs.Groups.{entered, grouped, left_at};
ghost use Rattle.mp_many.specs.Laid.{ended};
ghost use Rattle.mp_many.specs.GroupView.{group_of, numbers_of, IsDigested};
ghost use Rattle.mp_many.specs.Digest.{token_digest};
ghost use Rattle.mp_many.specs.Marks.{AreMarked};
ghost use Rattle.mp_many.specs.TokenView.{read_token};
ghost use Rattle.mp_pattern.specs.NetTokens.{same_token};

use crate::digest::token_digest;
use crate::lists::TokenLists;
use crate::marks::{has_mark, marks_for, set_mark};
use crate::token::{Token, is_same};
use mp_term::Memory;
use mp_walk::Numbers;
use std::alloc::Global;

// How many groups there is room for at once.
const ROOM_FOR_GROUPS: usize = 16;

// A token with its digest, and the numbers of the lists that have it at the place: those of the first ones alone, which
// stand together, or all of them where there are more.
#[derive(Drop)]
pub(crate) struct Group<'n, 'a> {
    pub(crate) token: Token<'a>,
    pub(crate) digest: u64,
    pub(crate) first: &'n [u32],
    pub(crate) all: Vec<u32>,
}

impl<'n, 'a> Group<'n, 'a> {
    // The numbers of its lists.
    pub(crate) fn numbers(&self) -> &[u32]
        ensures { result.now ≡ numbers_of self.now }
    {
        if self.all.is_empty() {
            self.first
        } else {
            &self.all
        }
    }

    // Adds the numbers of more lists.
    fn add(&mut self, numbers: &[u32]) -> Result<(), Memory>
        ensures group { OnOk result (group_of self.new
            ≡ (read_token self.old.token, numbers_of self.old ++ numbers.now)) }
        ensures digest { OnOk result (IsDigested self.old → IsDigested self.new) }
    {
        if self.all.is_empty() {
            self.all.extend_from_slice(self.first)?;
        }
        self.all.extend_from_slice(numbers)?;
        Ok(())
    }
}

// The group is that of the token, whose digest is given.
fn is_of(
    alloc: Global,
    group: &Group<'_, '_>,
    token: &Token<'_>,
    digest: u64,
) -> Result<bool, Memory>
    requires group { IsDigested group.now }
    requires digest { digest ≡ token_digest (read_token token.now) }
    ensures { IfOk result (λ b. b ≡ same_token (read_token group.now.token) (read_token token.now)) }
{
    if group.digest != digest {
        return Ok(false);
    }
    is_same(alloc, &group.token, token)
}

// Adds a group of lists that stand together.
fn push_group<'n, 'a>(
    alloc: Global,
    groups: &mut Vec<Group<'n, 'a>>,
    token: Token<'a>,
    digest: u64,
    numbers: &'n [u32],
) -> Result<(), Memory>
    requires digest { digest ≡ token_digest (read_token token) }
    requires digests { AllByRecursion IsDigested groups.old.items }
    ensures groups { OnOk result (map group_of groups.new.items
        ≡ map group_of groups.old.items ++ (read_token token.entry, numbers.now) ∷ []) }
    ensures digests { OnOk result (AllByRecursion IsDigested groups.new.items) }
{
    groups.push(Group {
        token,
        digest,
        first: numbers,
        all: Vec::new(alloc),
    })?;
    Ok(())
}

// Adds numbers to the group of their token, which is a new one where there is none.
fn enter<'n, 'a>(
    alloc: Global,
    groups: &mut Vec<Group<'n, 'a>>,
    token: Token<'a>,
    digest: u64,
    numbers: &'n [u32],
) -> Result<(), Memory>
    requires digest { digest ≡ token_digest (read_token token) }
    requires digests { AllByRecursion IsDigested groups.old.items }
    ensures entered { OnOk result (map group_of groups.new.items
        ≡ entered (map group_of groups.old.items) (read_token token.entry) numbers.now) }
    ensures digests { OnOk result (AllByRecursion IsDigested groups.new.items) }
{
    for index in 0..groups.len() {
        let same = is_of(alloc, &groups[index], &token, digest)?;
        if same {
            return groups[index].add(numbers);
        }
    }
    push_group(alloc, groups, token, digest, numbers)
}

// Adds them too, where the digests of the groups' tokens have their marks: a token whose digest has none is new.
fn enter_marked<'n, 'a>(
    alloc: Global,
    groups: &mut Vec<Group<'n, 'a>>,
    marks: &mut Vec<bool>,
    token: Token<'a>,
    numbers: &'n [u32],
) -> Result<(), Memory>
    requires digests { AllByRecursion IsDigested groups.old.items }
    requires marked { AreMarked marks.old.items (map group_of groups.old.items) }
    ensures entered { OnOk result (map group_of groups.new.items
        ≡ entered (map group_of groups.old.items) (read_token token.entry) numbers.now) }
    ensures digests { OnOk result (AllByRecursion IsDigested groups.new.items) }
    ensures marked { OnOk result (AreMarked marks.new.items (map group_of groups.new.items)) }
{
    let digest = token_digest(&token);
    if has_mark(marks, digest) {
        return enter(alloc, groups, token, digest, numbers);
    }
    set_mark(marks, digest);
    push_group(alloc, groups, token, digest, numbers)
}

// How many of the lists of the numbers, from the first one on, go on alike at the place, as is told at once.
fn alike(lists: &TokenLists<'_>, numbers: &[u32], place: usize) -> usize
    requires within { AllByRecursion (λ n. n < length lists.now) numbers.now }
    requires some { 0 < length numbers.now }
    ensures some { 0 < result }
    ensures within { result ≤ length numbers.now }
    ensures alike { AllByRecursion (λ n. slice_get (slice_index_or lists.now n []) place
        ≡ slice_get (slice_index_or lists.now (slice_index_or numbers.now 0 0) []) place) (take result numbers.now) }
{
    let mut count = 1;
    while count < numbers.len() && lists.go_on_alike(numbers[0], numbers[count], place) {
        count += 1;
    }
    count
}

// The groups of the lists of the numbers by their tokens at the place, in order of the first list of each. Lists that
// go on alike mostly stand together.
pub(crate) fn groups_of<'n, 'a>(
    alloc: Global,
    lists: &TokenLists<'a>,
    numbers: &'n [u32],
    place: usize,
) -> Result<Vec<Group<'n, 'a>>, Memory>
    requires { AllByRecursion (λ n. n < length lists.now) numbers.now }
    ensures { IfOk result (λ gs. map group_of gs.items ≡ grouped (left_at lists.now place numbers.now)) }
{
    let mut groups = Vec::with_capacity(alloc, numbers.len().min(ROOM_FOR_GROUPS))?;
    let mut marks = marks_for(alloc, numbers.len())?;
    let mut rest = numbers;
    while !rest.is_empty() {
        let (run, more) = rest.split_at(alike(lists, rest, place));
        if let Some(token) = lists.get(rest[0], place) {
            enter_marked(alloc, &mut groups, &mut marks, token, run)?;
        }
        rest = more;
    }
    Ok(groups)
}

// The numbers of the lists that end at the place.
pub(crate) fn ended(
    alloc: Global,
    lists: &TokenLists<'_>,
    numbers: &[u32],
    place: usize,
) -> Result<Numbers, Memory>
    requires { AllByRecursion (λ n. n < length lists.now) numbers.now }
    ensures { IfOk result (λ ns. ns ≡ flat_map ended (left_at lists.now place numbers.now)) }
{
    let mut ended = Numbers::new(alloc);
    for number in numbers {
        if lists.length(*number) <= place {
            ended.push(*number)?;
        }
    }
    Ok(ended)
}
