//! Trails: the values of variables, which can be taken back.
ghost use Rattle.std.specs.Prelude.{◌≡◌, ◌≤◌, ◌<◌, ◌+◌, ◌++◌, [], length, take, drop, slice_index_or, slice_set};
ghost use Rattle.std.specs.Prelude.{IfOk, IfSome, option_map, vec_capacity};
ghost use Rattle.mp_table.specs.Table.{Table as plain_table, HasRanks};
ghost use Rattle.mp_subst.specs.View.{binding_of, subst_of};
ghost use Rattle.mp_subst.specs.Bound.{bound_of, value_in, AreRanksOf, IsBoundIn};
ghost use Rattle.mp_subst.specs.Trail.{length_at, cut, last_value, GoesWith, subst_in};
ghost use Rattle.mp_subst.specs.TrailView.{entry_value, last_place, IsWithin, AreLast, AreEarlier};

use crate::bound::Bound;
use crate::subst::{Binding, Bindings, Subst};
use mp_pattern::{Form, Plan};
use mp_table::{Rank, Table};
use mp_term::{Memory, Name, OpId};
use std::alloc::Global;
use std::marker::Model;

/// A length of a trail's stack (`length_at` of `specs/Trail.antt`).
#[derive(Clone, Copy)]
pub struct Mark {
    length: usize,
}

// The value that a variable had from then on. Its ranks stand from `start` to `end` in the trail's list, of which
// `before` ranks were in use before it; the spare room before it; and the number of the variable's entry before it.
#[derive(Clone, Copy)]
pub(crate) struct Entry {
    pub(crate) var: u32,
    pub(crate) form: Form,
    pub(crate) wrap: Option<OpId>,
    pub(crate) start: u32,
    pub(crate) end: u32,
    pub(crate) before: u32,
    pub(crate) spare: u32,
    pub(crate) earlier: u32,
}

/// The values of variables by ranks in a table, in the order in which they were bound, in a room that is made once: all
/// but `new` and `copy` take no memory. Contracts see it as the record `Trail` of `specs/Trail.antt`; the value of a
/// variable is that of its last entry on the stack.
// Of the ranks the first `used` are in use: those behind them are of entries that were taken back, and are written
// over. The number of an entry is its place and one more. `last` has for each of the first variables the number of its
// last entry, 0 if there is none; variables past its end are looked for on the stack.
#[derive(Drop)]
pub struct Trail {
    pub(crate) vars: u32,
    pub(crate) room: u32,
    pub(crate) spare: u32,
    pub(crate) used: u32,
    pub(crate) entries: Vec<Entry>,
    pub(crate) ranks: Vec<Rank>,
    pub(crate) last: [u32; 8],
}

impl Model for Trail {
    ghost use Rattle.mp_subst.specs.Trail as plain;
    ghost use Rattle.mp_subst.specs.TrailCode.{coded_trail};

    ghost Value = { plain.Trail };

    ghost coded = { coded_trail };

    ghost use Rattle.mp_subst.specs.TrailView.{trail_view, IsLaid};

    ghost view = { trail_view };

    ghost invariant = { IsLaid };
}

// The place of the last entry of a variable, which is looked for.
fn place_on(entries: &[Entry], var: u32) -> Option<usize>
    ensures place { result ≡ last_place entries.now var }
    ensures within { IfSome result (λ i. i < length entries.now) }
{
    let mut left = entries.len();
    while left > 0 {
        left -= 1;
        if entries[left].var == var {
            return Some(left);
        }
    }
    None
}

// The place of the last entry of a variable.
pub(crate) fn last_place(last: &[u32], entries: &[Entry], var: u32) -> Option<usize>
    requires { AreLast last.now entries.now }
    ensures place { result ≡ last_place entries.now var }
    ensures within { IfSome result (λ i. i < length entries.now) }
{
    if var as usize >= last.len() {
        return place_on(entries, var);
    }
    let number = last[var as usize];
    if number == 0 {
        None
    } else {
        Some(number as usize - 1)
    }
}

// Sets the number of a variable's last entry, if the list has the variable, and gives the number that was there.
pub(crate) fn set_number(last: &mut [u32], var: u32, number: u32) -> u32
    ensures before { result ≡ slice_index_or last.old var 0 }
    ensures after { last.new ≡ slice_set last.old var number }
{
    if var as usize >= last.len() {
        return 0;
    }
    let before = last[var as usize];
    last[var as usize] = number;
    before
}

// Makes the numbers of the last entries those among the first entries, so many of them.
fn take_back(last: &mut [u32], entries: &[Entry], kept: usize)
    requires kept { kept ≤ length entries.now }
    requires last { AreLast last.old entries.now }
    requires earlier { AreEarlier (length last.old) entries.now }
    ensures last { AreLast last.new (take kept entries.now) }
    ensures count { length last.new ≡ length last.old }
{
    let mut left = entries.len();
    while left > kept {
        left -= 1;
        set_number(last, entries[left].var, entries[left].earlier);
    }
}

// The value of an entry, whose ranks stand in a list.
pub(crate) fn bound_at<'a>(ranks: &'a [Rank], entry: &Entry) -> Bound<'a>
    requires { IsWithin (length ranks.now) entry.now }
    ensures { bound_of result ≡ entry_value ranks.now entry.now }
{
    Bound {
        form: entry.form,
        wrap: entry.wrap,
        ranks: &ranks[entry.start as usize..entry.end as usize],
    }
}

// The binding of a variable of this name to the value that a bound stands for.
fn binding_of(
    alloc: Global,
    table: &Table,
    name: &Name,
    bound: &Bound<'_>,
) -> Result<Binding, Memory>
    requires ranks { HasRanks table.now bound.now.ranks.now }
    requires formed { AreRanksOf (bound_of bound.now).form (bound_of bound.now).wrap bound.now.ranks.now }
    ensures { IfOk result
        (λ b. binding_of b ≡ record { name = name.now; value = value_in table.now (bound_of bound.now) }) }
{
    let name = name.copy(alloc)?;
    let value = bound.to_value(alloc, table)?;
    Ok(Binding { name, value })
}

// Writes items into a list from a place on, in its room: over what stands there, and then at the end.
pub(crate) fn write_from<T: Copy>(list: &mut Vec<T>, start: usize, items: &[T])
    requires start { start ≤ length list.old.items }
    requires room { start + length items.now ≤ vec_capacity list.old }
    ensures items { list.new.items
        ≡ take start list.old.items ++ (items.now ++ drop (start + length items.now) list.old.items) }
    ensures capacity { vec_capacity list.old ≤ vec_capacity list.new }
{
    let end = start + items.len();
    if end <= list.len() {
        list[start..end].copy_from_slice(items);
        return;
    }
    list.truncate(start);
    match list.extend_from_slice(items) {
        Ok(()) => {}
        Err(_) => unreachable!(),
    }
}

// Puts other items into a list, in its room.
fn refill<T: Copy>(list: &mut Vec<T>, items: &[T])
    requires { length items.now ≤ vec_capacity list.old }
    ensures items { list.new.items ≡ items.now }
    ensures capacity { vec_capacity list.old ≤ vec_capacity list.new }
{
    list.truncate(items.len());
    write_from(list, 0, items);
}

impl Trail {
    /// A trail whose stack is empty, for that many variables, with a room of so many ranks and entries together: a
    /// binding takes at most two more of it than it has ranks. `Memory` comes where there is no memory for the room.
    pub fn new(alloc: Global, vars: u32, room: u32) -> Result<Trail, Memory>
        ensures { IfOk result (λ t. t ≡ record { vars = vars; room = room; spare = room; stack = [] }) }
    {
        let entries = Vec::with_capacity(alloc, room as usize)?;
        let ranks = Vec::with_capacity(alloc, room as usize)?;
        Ok(Trail {
            vars,
            room,
            spare: room,
            used: 0,
            entries,
            ranks,
            last: [0; 8],
        })
    }

    /// The number of variables.
    pub fn vars(&self) -> u32
        ensures { result ≡ self.now.vars }
    {
        self.vars
    }

    /// How much of the room is left.
    pub fn spare(&self) -> u32
        ensures { result ≡ self.now.spare }
    {
        self.spare
    }

    /// The length of the stack.
    pub fn mark(&self) -> Mark
        ensures { length_at result ≡ length self.now.stack }
    {
        Mark {
            length: self.entries.len(),
        }
    }

    /// Takes back all that was bound since the mark: the trail is again as it was when its stack had that length (`cut`
    /// of `specs/Trail.antt`). The mark is at most the length of the stack.
    pub fn undo(&mut self, mark: Mark)
        requires { length_at mark ≤ length self.old.stack }
        ensures trail { self.new ≡ cut (length_at mark) self.old }
        ensures goes_with { (table : plain_table) → GoesWith table self.old → GoesWith table self.new }
    {
        if mark.length < self.entries.len() {
            let entry = self.entries[mark.length];
            take_back(&mut self.last, &self.entries, mark.length);
            self.entries.truncate(mark.length);
            self.used = entry.before;
            self.spare = entry.spare;
        }
    }

    /// An equal trail, with a room of its own. `Memory` comes where there is no memory for it.
    pub fn copy(&self, alloc: Global) -> Result<Trail, Memory>
        ensures { IfOk result (λ t. t ≡ self.now) }
    {
        let mut trail = Trail::new(alloc, self.vars, self.room)?;
        trail.refill(self);
        Ok(trail)
    }

    /// Makes the trail equal to another one, which has an equal room.
    pub fn refill(&mut self, other: &Trail)
        requires { self.old.room ≡ other.now.room }
        ensures { self.new ≡ other.now }
    {
        refill(&mut self.entries, &other.entries);
        write_from(&mut self.ranks, 0, &other.ranks[..other.used as usize]);
        self.last = other.last;
        self.vars = other.vars;
        self.spare = other.spare;
        self.used = other.used;
    }

    /// The value of a variable, and None exactly where it is unbound.
    pub fn binding(&self, var: u32) -> Option<Bound<'_>>
        ensures value { option_map bound_of result ≡ last_value self.now.stack var }
        ensures is_bound { (table : plain_table) → GoesWith table self.now
            → IfSome result (λ b. IsBoundIn table (bound_of b)) }
    {
        match last_place(&self.last, &self.entries, var) {
            None => None,
            Some(place) => Some(bound_at(&self.ranks, &self.entries[place])),
        }
    }

    /// The substitution of the trail: the variables of the plan in order that are bound, each with its value
    /// (`subst_in` of `specs/Trail.antt`). The trail goes with the table. `Memory` comes where there is no room for it.
    pub fn to_subst(&self, alloc: Global, table: &Table, plan: &Plan) -> Result<Subst, Memory>
        requires { GoesWith table.now self.now }
        ensures { IfOk result (λ s. subst_of s ≡ subst_in table.now plan.now.variables self.now) }
    {
        let mut bindings = Bindings::new(alloc);
        for var in 0..plan.vars() {
            let Some(bound) = self.binding(var) else {
                continue;
            };
            let Some(name) = plan.var_name(var) else {
                unreachable!()
            };
            bindings.push(binding_of(alloc, table, name, &bound)?)?;
        }
        Ok(Subst { bindings })
    }
}
