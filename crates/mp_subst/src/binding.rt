//! Variables are bound, and their values merged.
ghost use Rattle.std.specs.Prelude.{◌≡◌, ◌≤◌, ◌<◌, ◌+◌, ℕ, length, Some, None, slice_get, option_map};
ghost use Rattle.std.specs.Option.{option_and_then};
ghost use Rattle.std.specs.Prelude.{IsTrue, IsFalse, MatchBool};
ghost use Rattle.mp_term.specs.Signature.{Sig};
ghost use Rattle.mp_term.specs.Tree.{app, trees};
ghost use Rattle.mp_pattern.specs.Value.{IsFinal};
ghost use Rattle.mp_pattern.specs.PlanView.{form as form_of};
ghost use Rattle.mp_table.specs.Table.{Table as plain_table, terms_at, HasRanks, rank_of};
ghost use Rattle.mp_subst.specs.Bound.{bound_from, bound_of, value_in, AreRanksOf};
ghost use Rattle.mp_subst.specs.Trail.{TrailEntry, cut, with_entry, GoesWith, AreFinal, joined, IsBind};
ghost use Rattle.mp_subst.specs.TrailView.{stack_of, Laid, AreLast};
ghost use Rattle.mp_subst.specs.Outcome.{IsPlace, AllOutcomes, IsPut, IsClash, IsBinding};

use crate::bound::Bound;
use crate::joining::join;
use crate::merging::Choice;
use crate::trail::{Entry, Trail, bound_at, last_place, set_number, write_from};
use mp_pattern::Form;
use mp_table::{Rank, Table};
use mp_term::OpId;
use std::slice;

// What a variable stands for when it is bound to a value too: the new value, that of the entry at a place, or nothing,
// since they don't merge.
#[derive(Drop)]
pub(crate) enum Outcome {
    New,
    Old(usize),
    Neither,
}

// What the variable then stands for.
fn outcome_of(
    last: &[u32],
    entries: &[Entry],
    ranks: &[Rank],
    var: u32,
    value: &Bound<'_>,
) -> Outcome
    requires last { AreLast last.now entries.now }
    requires laid { (n : ℕ) × (n ≤ length ranks.now) × Laid entries.now n }
    ensures place { IsPlace (length entries.now) result }
    ensures value { AllOutcomes (stack_of ranks.now entries.now) var (bound_of value.now) result }
{
    let Some(place) = last_place(last, entries, var) else {
        return Outcome::New;
    };
    match join(&bound_at(ranks, &entries[place]), value) {
        Choice::Old => Outcome::Old(place),
        Choice::New => Outcome::New,
        Choice::Neither => Outcome::Neither,
    }
}

// The rank of the term that an operation makes of the terms of ranks, if the table holds it.
fn held(table: &Table, wrap: Option<OpId>, ranks: &[Rank]) -> Option<Rank>
    requires { HasRanks table.now ranks.now }
    ensures { option_map (λ r. r.0) result
        ≡ option_and_then (λ f. rank_of table.now (app f.0 (trees (terms_at table.now ranks.now)))) wrap }
{
    match wrap {
        None => None,
        Some(op) => table.find_app(op, ranks),
    }
}

impl Trail {
    /// Binds a variable to a value too, which is that of a form, an operation that is applied, and ranks (`value_in` of
    /// `specs/Bound.antt`): where the variable is unbound the value is put on the stack, else what its value and the
    /// new one merge to (`IsBind` of `specs/Trail.antt`). False comes exactly where they don't merge, and then nothing
    /// changes. A term that the table holds is kept by its rank.
    ///
    /// The variable is below the number of variables, the ranks are in the table and fit the form, `spare` is at least
    /// their number and two more, and the trail goes with the table.
    pub fn bind(
        &mut self,
        table: &Table,
        var: u32,
        form: Form,
        wrap: Option<OpId>,
        ranks: &[Rank],
    ) -> bool
        requires var { var < self.old.vars }
        requires ranks { HasRanks table.now ranks.now }
        requires formed { AreRanksOf (form_of form) (option_map (λ f. f.0) wrap) ranks.now }
        requires room { length ranks.now + 2 ≤ self.old.spare }
        requires goes_with { GoesWith table.now self.old }
        ensures bound { IsTrue result
            → IsBind table.now self.old self.new var (value_in table.now (bound_from form wrap ranks.now)) }
        ensures clash { IsFalse result
            → joined table.now self.old.stack var (value_in table.now (bound_from form wrap ranks.now)) ≡ None }
        ensures refused { IsFalse result → self.new ≡ self.old }
        ensures goes_with { GoesWith table.now self.new }
        ensures vars { self.new.vars ≡ self.old.vars }
        ensures room { self.new.room ≡ self.old.room }
        ensures spare { self.old.spare ≤ self.new.spare + (length ranks.now + 2) }
        ensures undone { cut (length self.old.stack) self.new ≡ self.old }
        ensures are_final { (sig : Sig) → AreFinal sig table.now self.old.stack
            → IsFinal sig (value_in table.now (bound_from form wrap ranks.now))
            → AreFinal sig table.now self.new.stack }
    {
        self.bind_held(table, var, form, wrap, ranks)
    }

    // The same, with all that it promises as one word.
    fn bind_held(
        &mut self,
        table: &Table,
        var: u32,
        form: Form,
        wrap: Option<OpId>,
        ranks: &[Rank],
    ) -> bool
        requires var { var < self.old.vars }
        requires ranks { HasRanks table.now ranks.now }
        requires formed { AreRanksOf (form_of form) (option_map (λ f. f.0) wrap) ranks.now }
        requires room { length ranks.now + 2 ≤ self.old.spare }
        requires goes_with { GoesWith table.now self.old }
        ensures { IsBinding table.now self.old self.new var (value_in table.now (bound_from form wrap ranks.now))
            (length ranks.now + 2) result }
    {
        // The length is asked for what holds of every table.
        let _ = table.len();
        match held(table, wrap, ranks) {
            Some(rank) => self.bind_value(
                var,
                &Bound {
                    form: Form::One,
                    wrap: None,
                    ranks: slice::from_ref(&rank),
                },
            ),
            None => self.bind_value(var, &Bound { form, wrap, ranks }),
        }
    }

    // The same, of a value that the table doesn't hold but by its rank.
    fn bind_value(&mut self, var: u32, value: &Bound<'_>) -> bool
        requires { length value.now.ranks.now + 1 ≤ self.old.spare }
        ensures { MatchBool result (IsPut self.old self.new var (bound_of value.now))
            (IsClash self.old self.new var (bound_of value.now)) }
    {
        match outcome_of(&self.last, &self.entries, &self.ranks, var, value) {
            Outcome::Neither => false,
            Outcome::New => {
                self.put(var, value);
                true
            }
            Outcome::Old(place) => {
                self.put_again(var, place);
                true
            }
        }
    }

    // Puts a value on the stack.
    fn put(&mut self, var: u32, value: &Bound<'_>)
        requires { length value.now.ranks.now + 1 ≤ self.old.spare }
        ensures { self.new ≡ with_entry self.old var (bound_of value.now) (length value.now.ranks.now + 1) }
    {
        let start = self.used;
        let count = value.ranks.len() as u32;
        write_from(&mut self.ranks, start as usize, value.ranks);
        let number = self.entries.len() as u32 + 1;
        let earlier = set_number(&mut self.last, var, number);
        self.entries.push_reserved(Entry {
            var,
            form: value.form,
            wrap: value.wrap,
            start,
            end: start + count,
            before: start,
            spare: self.spare,
            earlier,
        });
        self.used += count;
        self.spare -= count + 1;
    }

    // Puts the value of the entry at a place on the stack, whose ranks are there already.
    fn put_again(&mut self, var: u32, place: usize)
        requires place { place < length self.old.stack }
        requires room { 1 ≤ self.old.spare }
        ensures { (e : TrailEntry) → slice_get self.old.stack place ≡ Some e
            → self.new ≡ with_entry self.old var e.value 1 }
    {
        let old = self.entries[place];
        let number = self.entries.len() as u32 + 1;
        let earlier = set_number(&mut self.last, var, number);
        self.entries.push_reserved(Entry {
            var,
            before: self.used,
            spare: self.spare,
            earlier,
            ..old
        });
        self.spare -= 1;
    }
}
