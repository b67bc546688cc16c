//! Pairs of a rule and a substitution, whose values are kept by ranks in a table.
ghost use Rattle.std.specs.Prelude.{◌≡◌, ◌≤◌, length, map, slice_get, option_map, IfOk, IfSome, Some, refl};
ghost use Rattle.std.specs.Ordering.{is_eq};
ghost use Rattle.std.specs.Cmp.{partial_equiv_from_equiv, po, eq_by_cmp_equiv};
ghost use Rattle.mp_pattern.specs.Lists.{subst_cmp};
ghost use Rattle.mp_pattern.specs.declared.limits.TheConstants.{MAX_VARIABLES};
ghost use Rattle.mp_subst.specs.Bound.{bound_of};
ghost use Rattle.mp_subst.specs.Trail.{GoesWith, subst_in};
ghost use Rattle.mp_subst.specs.View.{pair_of, subst_of};
ghost use Rattle.mp_walk.specs.Found.{names_cmp};
ghost use Rattle.mp_walk.specs.FoundOrder.{ranked_cmp_total};
ghost use Rattle.mp_walk.specs.NamedItems.{called};
ghost use Rattle.mp_walk.specs.Ranked.{ranked_cmp};
ghost use Rattle.mp_walk.specs.RankedView.{kept_binding, kept_bound, kept_name, listed, shown_binding, AreKept};

use crate::rank_order::compare_bounds;
use mp_pattern::Form;
use mp_subst::{Binding, Bindings, Bound, Pair, Subst, Trail};
use mp_table::{Rank, Table};
use mp_term::{Memory, Name, Names, OpId};
use std::alloc::Global;
use std::cmp::Ordering;
use std::marker::Model;
use std::slice;

// The ranks of a value. Most values are one term, which takes no allocation.
#[derive(Drop)]
pub(crate) enum Ranks {
    One(Rank),
    // None, or more than one.
    Many(Vec<Rank>),
}

// A variable with its value by ranks.
#[derive(Drop)]
pub(crate) struct Kept<'a> {
    pub(crate) name: &'a Name,
    pub(crate) form: Form,
    pub(crate) wrap: Option<OpId>,
    pub(crate) ranks: Ranks,
}

/// A variable, and its value by ranks in a table. Contracts see it as the binding `shown_binding` of
/// `specs/RankedView.antt`.
#[derive(Drop)]
pub struct RankedBinding<'a> {
    /// The variable's name.
    pub name: &'a Name,
    /// The table of the ranks.
    pub table: &'a Table,
    /// What it stands for.
    pub bound: Bound<'a>,
}

/// The number of a rule, its index from 0, and a substitution that the rule admits, its values by ranks in a table.
/// Contracts see it as the record `Ranked` of `specs/Ranked.antt`: the table and the plain pair. Pairs are in the order
/// `found_cmp` of `specs/Found.antt`.
#[derive(Drop)]
pub struct RankedPair<'a> {
    rule: u32,
    table: &'a Table,
    values: Vec<Kept<'a>>,
}

impl<'a> Model for RankedPair<'a> {
    ghost use Rattle.mp_walk.specs.Ranked as plain;
    ghost use Rattle.mp_walk.specs.Ranked.{coded_ranked};
    ghost use Rattle.mp_walk.specs.RankedView.{ranked, AreKept};

    ghost Value = { plain.Ranked };

    ghost coded = { coded_ranked };

    ghost view = { λ p. ranked p.rule p.table.now p.values.items };

    ghost invariant = { λ p. AreKept p.table.now p.values.items };
}

impl Ranks {
    // The ranks, which are copied.
    fn new(alloc: Global, ranks: &[Rank]) -> Result<Ranks, Memory>
        ensures { IfOk result (λ own. listed own ≡ ranks.now) }
    {
        if ranks.len() == 1 {
            return Ok(Ranks::One(ranks[0]));
        }
        let mut list = Vec::with_capacity(alloc, ranks.len())?;
        list.extend_from_slice(ranks)?;
        Ok(Ranks::Many(list))
    }

    // The list of them.
    fn as_slice(&self) -> &[Rank]
        ensures { result.now ≡ listed self.now }
    {
        match self {
            Ranks::One(rank) => slice::from_ref(rank),
            Ranks::Many(list) => list,
        }
    }
}

// The value of a variable as a bound.
fn bound<'a>(kept: &'a Kept<'_>) -> Bound<'a>
    ensures { bound_of result ≡ kept_bound kept.now }
{
    Bound {
        form: kept.form,
        wrap: kept.wrap,
        ranks: kept.ranks.as_slice(),
    }
}

// A variable with the value of a bound.
fn keep<'a>(alloc: Global, name: &'a Name, bound: &Bound<'_>) -> Result<Kept<'a>, Memory>
    ensures name { IfOk result (λ k. k.name.now ≡ name.now) }
    ensures bound { IfOk result (λ k. kept_bound k ≡ bound_of bound.now) }
{
    let ranks = Ranks::new(alloc, bound.ranks)?;
    Ok(Kept {
        name,
        form: bound.form,
        wrap: bound.wrap,
        ranks,
    })
}

// The values of the variables in order that are bound, called by the names.
fn kept_values<'a>(
    alloc: Global,
    names: &'a Names,
    table: &Table,
    trail: &Trail,
) -> Result<Vec<Kept<'a>>, Memory>
    requires goes { GoesWith table.now trail.now }
    requires few { length names.now ≤ MAX_VARIABLES }
    ensures values { IfOk result (λ ks. map (kept_binding table.now) ks.items
        ≡ subst_in table.now (called names.now) trail.now) }
    ensures held { IfOk result (λ ks. AreKept table.now ks.items) }
{
    let mut values = Vec::with_capacity(alloc, names.len())?;
    for var in 0..names.len() as u32 {
        let Some(bound) = trail.binding(var) else {
            continue;
        };
        let Some(name) = names.get(var as usize) else {
            unreachable!()
        };
        values.push(keep(alloc, name, &bound)?)?;
    }
    Ok(values)
}

// The order of the names of values, from the left.
fn compare_names(values: &[Kept<'_>], others: &[Kept<'_>]) -> Ordering
    ensures { result ≡ names_cmp (map kept_name values.now) (map kept_name others.now) }
{
    for (i, kept) in values.iter().enumerate() {
        let Some(other) = others.get(i) else {
            return Ordering::Greater;
        };
        let order = kept.name.cmp(other.name);
        if order.is_ne() {
            return order;
        }
    }
    if values.len() < others.len() {
        Ordering::Less
    } else {
        Ordering::Equal
    }
}

// The order of values, variable by variable.
fn compare_values(
    table: &Table,
    values: &[Kept<'_>],
    beside: &Table,
    others: &[Kept<'_>],
) -> Ordering
    requires many { length values.now ≡ length others.now }
    requires held { AreKept table.now values.now }
    requires others_held { AreKept beside.now others.now }
    ensures { result ≡ subst_cmp (map (kept_binding table.now) values.now) (map (kept_binding beside.now) others.now) }
{
    for (i, kept) in values.iter().enumerate() {
        let order = compare_bounds(table, &bound(kept), beside, &bound(&others[i]));
        if order.is_ne() {
            return order;
        }
    }
    Ordering::Equal
}

// The order of pairs, where those of one rule have the same variables: by the rules' numbers and the substitutions.
fn compare(pair: &RankedPair<'_>, other: &RankedPair<'_>) -> Ordering
    ensures { result ≡ ranked_cmp pair.now other.now }
{
    if pair.rule != other.rule {
        return pair.rule.cmp(&other.rule);
    }
    let names = compare_names(&pair.values, &other.values);
    if names.is_ne() {
        return names;
    }
    compare_values(pair.table, &pair.values, other.table, &other.values)
}

impl PartialEq for RankedPair<'_> {
    ghost eq = { λ p q. is_eq (ranked_cmp p q) };

    ghost laws = { partial_equiv_from_equiv (eq_by_cmp_equiv ranked_cmp_total) };

    fn eq(&self, other: &Self) -> bool {
        compare(self, other).is_eq()
    }
}

impl Eq for RankedPair<'_> {
    ghost laws = { eq_by_cmp_equiv ranked_cmp_total };
}

impl PartialOrd for RankedPair<'_> {
    ghost partial_cmp = { λ p q. Some (ranked_cmp p q) };

    ghost laws = { po ranked_cmp_total (λ _ _. refl) };

    fn partial_cmp(&self, other: &Self) -> Option<Ordering> {
        Some(compare(self, other))
    }
}

impl Ord for RankedPair<'_> {
    ghost cmp = { ranked_cmp };

    ghost total = { ranked_cmp_total };

    ghost matches_partial_cmp = { λ _ _. refl };

    ghost matches_eq = { λ _ _. refl };

    fn cmp(&self, other: &Self) -> Ordering {
        compare(self, other)
    }
}

impl<'a> RankedPair<'a> {
    /// The pair of the rule and of the values of a trail that goes with the table (`GoesWith`), its variables in order
    /// called by the names, of which there may be at most `MAX_VARIABLES`. `Memory` comes where there is no room for
    /// it.
    pub fn new(
        alloc: Global,
        rule: u32,
        names: &'a Names,
        table: &'a Table,
        trail: &Trail,
    ) -> Result<RankedPair<'a>, Memory>
        requires goes { GoesWith table.now trail.now }
        requires few { length names.now ≤ MAX_VARIABLES }
        ensures pair { IfOk result (λ p. p.pair ≡ (rule, subst_in table.now (called names.now) trail.now)) }
        ensures table { IfOk result (λ p. p.table ≡ table.now) }
    {
        let values = kept_values(alloc, names, table, trail)?;
        Ok(RankedPair {
            rule,
            table,
            values,
        })
    }

    /// The rule's number.
    pub fn rule(&self) -> u32
        ensures { result ≡ self.now.pair.0 }
    {
        self.rule
    }

    /// How many bindings the substitution has.
    pub fn len(&self) -> usize
        ensures { result ≡ length self.now.pair.1 }
    {
        self.values.len()
    }

    /// The binding of the substitution at the index, from 0. It is None exactly where there is none.
    pub fn binding(&self, index: usize) -> Option<RankedBinding<'_>>
        ensures binding { slice_get self.now.pair.1 index ≡ option_map shown_binding result }
        ensures table { IfSome result (λ b. b.table.now ≡ self.now.table) }
    {
        let kept = self.values.get(index)?;
        Some(RankedBinding {
            name: kept.name,
            table: self.table,
            bound: bound(kept),
        })
    }

    /// The substitution, with copies of its terms. `Memory` comes where there is no room for it.
    pub fn to_subst(&self, alloc: Global) -> Result<Subst, Memory>
        ensures { IfOk result (λ s. subst_of s ≡ self.now.pair.1) }
    {
        let mut bindings = Bindings::new(alloc);
        for kept in &self.values {
            let name = kept.name.copy(alloc)?;
            let value = bound(kept).to_value(alloc, self.table)?;
            bindings.push(Binding { name, value })?;
        }
        Ok(Subst { bindings })
    }

    /// The same pair, with copies of its terms. `Memory` comes where there is no room for it.
    pub fn to_pair(&self, alloc: Global) -> Result<Pair, Memory>
        ensures { IfOk result (λ p. pair_of p ≡ self.now.pair) }
    {
        let subst = self.to_subst(alloc)?;
        Ok(Pair {
            rule: self.rule,
            subst,
        })
    }
}
