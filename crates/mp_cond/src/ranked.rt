//! Values by ranks in a table.
ghost use Rattle.std.specs.Prelude.{◌≡◌, Some};
ghost use Rattle.mp_pattern.specs.Holds.{is_bag};
ghost use Rattle.mp_table.specs.Table as plain_table;
ghost use Rattle.mp_subst.specs.Bound.{bound_of, value_in, AreRanksOf, IsBoundIn};
ghost use Rattle.mp_cond.specs.Ranked.{value_at, wrap_of, ranks_of, IsIn};

use mp_pattern::Form;
use mp_subst::Bound;
use mp_table::Rank;
use mp_term::OpId;
use std::slice;

// The value of an operand: a term of the table, an application that the table doesn't hold to terms of the table, or a
// tuple or a multiset of terms of the table.
#[derive(Drop)]
pub(crate) enum Ranked<'a> {
    One(Rank),
    Wrap(OpId, &'a [Rank]),
    Seq(&'a [Rank]),
    Bag(&'a [Rank]),
}

// The value of a bound, whichever table has its ranks.
pub(crate) fn of_bound<'a>(bound: &Bound<'a>) -> Ranked<'a>
    requires { AreRanksOf (bound_of bound.now).form (bound_of bound.now).wrap bound.now.ranks.now }
    ensures value { (t : plain_table.Table) → value_at t result ≡ value_in t (bound_of bound.now) }
    ensures within { (t : plain_table.Table) → IsBoundIn t (bound_of bound.now) → IsIn t result }
{
    match (bound.form, bound.wrap) {
        (Form::One, None) => Ranked::One(bound.ranks[0]),
        (Form::One, Some(op)) => Ranked::Wrap(op, bound.ranks),
        (Form::Seq, _) => Ranked::Seq(bound.ranks),
        (Form::Bag, _) => Ranked::Bag(bound.ranks),
    }
}

impl<'a> Ranked<'a> {
    // The operation that is applied to the terms of the ranks, if there is one.
    pub(crate) fn wrap(&self) -> Option<OpId>
        ensures { result ≡ wrap_of self.now }
    {
        match self {
            Ranked::Wrap(op, _) => Some(*op),
            _ => None,
        }
    }

    // The ranks.
    pub(crate) fn ranks(&self) -> &[Rank]
        ensures { result.now ≡ ranks_of self.now }
    {
        match self {
            Ranked::One(rank) => slice::from_ref(rank),
            Ranked::Wrap(_, ranks) | Ranked::Seq(ranks) | Ranked::Bag(ranks) => ranks,
        }
    }

    // Whether it is a multiset.
    pub(crate) fn is_bag(&self) -> bool
        ensures { (t : plain_table.Table) → result ≡ is_bag (Some (value_at t self.now)) }
    {
        matches!(self, Ranked::Bag(_))
    }
}
