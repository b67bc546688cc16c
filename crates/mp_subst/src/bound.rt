//! The value of a variable by ranks in a table.
ghost use Rattle.std.specs.Prelude.{◌≡◌, map, IfOk};
ghost use Rattle.mp_term.specs.View.{tree};
ghost use Rattle.mp_pattern.specs.Value.{one, one_form};
ghost use Rattle.mp_table.specs.Table.{terms_at, HasRanks};
ghost use Rattle.mp_subst.specs.View.{value_of};
ghost use Rattle.mp_subst.specs.Bound.{bound_of, value_from, value_in, AreRanksOf};

use crate::value::Value;
use mp_pattern::Form;
use mp_table::{Rank, Table};
use mp_term::{Memory, OpId, Term, Terms};
use std::alloc::Global;

/// The value of a variable by ranks in a table: one term, a tuple or a multiset, or one term that is an operation
/// applied to the terms of ranks, and which the table doesn't hold. Contracts see it as the record `bound_of` of
/// `specs/Bound.antt`, where `value_in` is the value that it stands for.
#[derive(Drop)]
pub struct Bound<'a> {
    /// Whether it is one term, a tuple or a multiset.
    pub form: Form,
    /// The operation that is applied to the terms, which then are one term.
    pub wrap: Option<OpId>,
    /// The ranks of the terms in order.
    pub ranks: &'a [Rank],
}

// The terms of ranks.
pub(crate) fn terms_of(alloc: Global, table: &Table, ranks: &[Rank]) -> Result<Terms, Memory>
    requires { HasRanks table.now ranks.now }
    ensures { IfOk result (λ ts. ts ≡ terms_at table.now ranks.now) }
{
    let mut terms = Terms::with_room(alloc, ranks.len())?;
    for rank in ranks {
        terms.push(table.term_of(alloc, *rank)?)?;
    }
    Ok(terms)
}

impl<'a> Bound<'a> {
    // The term of a bound of one term.
    fn to_term(&self, alloc: Global, table: &Table) -> Result<Term, Memory>
        requires ranks { HasRanks table.now self.now.ranks.now }
        requires formed { AreRanksOf one_form (bound_of self.now).wrap self.now.ranks.now }
        ensures { IfOk result
            (λ t. one (tree t) ≡ value_from table.now one_form (bound_of self.now).wrap self.now.ranks.now) }
    {
        match self.wrap {
            Some(op) => Ok(Term::App(op, terms_of(alloc, table, self.ranks)?)),
            None => table.term_of(alloc, self.ranks[0]),
        }
    }

    /// The value that the bound stands for (`value_in` of `specs/Bound.antt`), with copies of the terms. The table has
    /// its ranks, and they fit its form. `Memory` comes where there is no room for the value.
    pub fn to_value(&self, alloc: Global, table: &Table) -> Result<Value, Memory>
        requires ranks { HasRanks table.now self.now.ranks.now }
        requires formed { AreRanksOf (bound_of self.now).form (bound_of self.now).wrap self.now.ranks.now }
        ensures { IfOk result (λ v. value_of v ≡ value_in table.now (bound_of self.now)) }
    {
        match self.form {
            Form::One => Ok(Value::One(self.to_term(alloc, table)?)),
            Form::Seq => Ok(Value::Seq(terms_of(alloc, table, self.ranks)?)),
            Form::Bag => Ok(Value::Bag(terms_of(alloc, table, self.ranks)?)),
        }
    }
}
