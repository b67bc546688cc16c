//! The terms that children may take, found once for all patterns that have the child.
ghost use Rattle.std.specs.Prelude.{◌≡◌, ◌<◌, ◌≤◌, ◌-◌, ◌++◌, ℕ, List, take, drop, length, replicate, IfOk, OnOk};
ghost use Rattle.std.specs.Prelude.{IfSome, IsTrue, Option, Some, not, true};
ghost use Rattle.std.specs.List.{AllByRecursion, list_any};
ghost use Rattle.std.specs.List.Sorted.{IsSorted};
ghost use Rattle.mp_pattern.specs.PatternTree as plain;
ghost use Rattle.mp_pattern.specs.View.{pattern_tree};
ghost use Rattle.mp_table.specs.Table as terms;
ghost use Rattle.mp_table.specs.Table.{HasRank, HasRanks, IsTable, rank_cmp, term_at, terms_at};
ghost use Rattle.mp_term.specs.Tree.{Tree};
ghost use Rattle.mp_theory.specs.Shape.{shape};
ghost use Rattle.mp_ac.specs.Candidates.{AreCandidates, AreChoices, AreFound, IsKept, IsNodeOf};
ghost use Rattle.mp_ac.specs.Candidates.{given_terms, is_same, unasked};
ghost use Rattle.mp_ac.specs.Clash.{clash};
ghost use Rattle.mp_ac.specs.CommPlans.{IsLead, child_at};

use crate::clash::clash;
use crate::comm_plans::{CommPlans, Lead};
use crate::node::Node;
use crate::syntactic::has_shape;
use mp_pattern::Pattern;
use mp_table::{Rank, Table};
use mp_term::Memory;
use std::alloc::Global;

// What is kept of a child: the node that was asked last and whether it stands alone, and the part of the ranks that
// the child may take there.
#[derive(Clone, Copy)]
pub(crate) struct Found {
    pub(crate) node: Option<Rank>,
    pub(crate) alone: bool,
    pub(crate) from: usize,
    pub(crate) end: usize,
}

// The terms that children may take below the nodes of a table, by ranks: for each child of patterns that are prepared
// together, and for each leading one with the next one, those of the node that was asked last.
#[derive(Drop)]
pub(crate) struct Candidates {
    pub(crate) entries: Vec<Found>,
    pub(crate) leads: Vec<Found>,
    pub(crate) ranks: Vec<Rank>,
}

// So many ranks are kept at most when a search is over.
const KEPT: usize = 65536;

impl Found {
    // It is what was found at the node.
    fn is_of(&self, node: Node<'_>) -> bool
        ensures { IsTrue result → (self.now.node ≡ Some node.entry.node) × (self.now.alone ≡ node.entry.alone) }
    {
        match self.node {
            None => false,
            Some(own) => own.0 == node.node.0 && self.alone == node.alone,
        }
    }
}

// The part that is kept under the number, where it was found at the node.
fn kept(list: &[Found], number: usize, node: Node<'_>) -> Option<(usize, usize)>
    ensures { IfSome result (IsKept list.now number node.entry) }
{
    let entry = list.get(number)?;
    if entry.is_of(node) {
        Some((entry.from, entry.end))
    } else {
        None
    }
}

// Sees to it that there are so many entries.
fn make_room(entries: &mut Vec<Found>, count: usize) -> Result<(), Memory>
    ensures { OnOk result ((k : ℕ) × (entries.new.items ≡ entries.old.items ++ replicate k unasked)
        × (count ≤ length entries.new.items)) }
{
    if entries.len() >= count {
        return Ok(());
    }
    let unasked = Found {
        node: None,
        alone: false,
        from: 0,
        end: 0,
    };
    entries.resize(count, unasked)?;
    Ok(())
}

// The rank is the last one.
fn is_same(last: Option<Rank>, rank: Rank) -> bool
    ensures { result ≡ is_same last rank }
{
    match last {
        None => false,
        Some(own) => own.0 == rank.0,
    }
}

// Adds the ranks of the terms that have the shape of the pattern, each once.
fn push_candidates(
    out: &mut Vec<Rank>,
    table: &Table,
    pattern: &Pattern,
    ranks: &[Rank],
) -> Result<(), Memory>
    requires ranks { HasRanks table.now ranks.now }
    requires ascending { IsSorted rank_cmp ranks.now }
    ensures { OnOk result ((rs : List Rank) × (out.new.items ≡ out.old.items ++ rs)
        × AreCandidates table.now (pattern_tree pattern.now) (terms_at table.now ranks.now) rs) }
{
    let mut last = None;
    for rank in ranks {
        if !is_same(last, *rank) && has_shape(table, pattern, *rank) {
            out.push(*rank)?;
        }
        last = Some(*rank);
    }
    Ok(())
}

// Where the child takes the term of the rank, the next child may take the term of one of these ranks.
fn goes_on(table: &Table, child: &Pattern, rank: Rank, next: &Pattern, its: &[Rank]) -> bool
    requires table { IsTable table.now }
    requires rank { HasRank table.now rank }
    requires shape { shape (pattern_tree child.now) (term_at table.now rank) ≡ true }
    requires ranks { HasRanks table.now its.now }
    requires shapes { AllByRecursion (λ r. shape (pattern_tree next.now) (term_at table.now r) ≡ true) its.now }
    ensures { result ≡ list_any (λ r. not (clash (pattern_tree child.now) (term_at table.now rank)
        (pattern_tree next.now) (term_at table.now r))) its.now }
{
    for own in its {
        if !clash(table, child, rank, next, *own) {
            return true;
        }
    }
    false
}

// Adds those of the child's candidates that the next child, which has these ones, doesn't bar. Both are parts of the
// ranks.
fn push_choices(
    ranks: &mut Vec<Rank>,
    table: &Table,
    child: &Pattern,
    own: (usize, usize),
    next: &Pattern,
    its: (usize, usize),
) -> Result<(), Memory>
    requires table { IsTable table.now }
    requires ranks { HasRanks table.now ranks.old.items }
    requires own { (own.0 ≤ own.1) × (own.1 ≤ length ranks.old.items) }
    requires its { (its.0 ≤ its.1) × (its.1 ≤ length ranks.old.items) }
    requires shaped { AllByRecursion (λ r. shape (pattern_tree child.now) (term_at table.now r) ≡ true)
        (take (own.1 - own.0) (drop own.0 ranks.old.items)) }
    requires its_shaped { AllByRecursion (λ r. shape (pattern_tree next.now) (term_at table.now r) ≡ true)
        (take (its.1 - its.0) (drop its.0 ranks.old.items)) }
    ensures { OnOk result ((rs : List Rank) × (ranks.new.items ≡ ranks.old.items ++ rs) × ((us : List Tree)
        → AreCandidates table.now (pattern_tree child.now) us (take (own.1 - own.0) (drop own.0 ranks.old.items))
        → AreCandidates table.now (pattern_tree next.now) us (take (its.1 - its.0) (drop its.0 ranks.old.items))
        → AreChoices table.now (pattern_tree child.now) (Some (pattern_tree next.now)) us rs)) }
{
    for place in own.0..own.1 {
        let rank = ranks[place];
        if goes_on(table, child, rank, next, &ranks[its.0..its.1]) {
            ranks.push(rank)?;
        }
    }
    Ok(())
}

impl Candidates {
    // Nothing is found yet. It takes no memory.
    pub(crate) fn new(alloc: Global) -> Candidates
        ensures { (t : terms.Table) (plans : CommPlans) → AreFound t plans result }
    {
        Candidates {
            entries: Vec::new(alloc),
            leads: Vec::new(alloc),
            ranks: Vec::new(alloc),
        }
    }

    // The list of which what is found is a part.
    pub(crate) fn ranks(&self) -> &[Rank]
        ensures { result.now ≡ self.now.ranks.items }
    {
        &self.ranks
    }

    // Forgets what was found, where it is much: what a search goes through it has in its room.
    pub(crate) fn forget(&mut self)
        ensures { (t : terms.Table) (plans : CommPlans) → AreFound t plans self.old → AreFound t plans self.new }
    {
        if self.ranks.len() > KEPT {
            self.entries.clear();
            self.leads.clear();
            self.ranks.clear();
        }
    }

    // Where the candidates of the child of the number stand among the ranks: they are of what the children of the node
    // take together.
    fn fill(
        &mut self,
        table: &Table,
        plans: &CommPlans,
        node: Node<'_>,
        number: u32,
    ) -> Result<(usize, usize), Memory>
        requires found { AreFound table.now plans.now self.old }
        requires node { IsNodeOf table.now node }
        requires number { number < length plans.now.children.items }
        ensures part { IfOk result (λ r. (r.0 ≤ r.1) × (r.1 ≤ length self.new.ranks.items)) }
        ensures candidates { IfOk result (λ r. (p : plain.Pattern) → child_at plans.now number ≡ Some p
            → AreCandidates table.now p (given_terms (term_at table.now node.entry.node) node.entry.alone)
            (take (r.1 - r.0) (drop r.0 self.new.ranks.items))) }
        ensures more { OnOk result ((rs : List Rank) × (self.new.ranks.items ≡ self.old.ranks.items ++ rs)) }
        ensures found { OnOk result (AreFound table.now plans.now self.new) }
    {
        let number = number as usize;
        if let Some(part) = kept(&self.entries, number, node) {
            return Ok(part);
        }
        make_room(&mut self.entries, plans.children.len())?;
        let from = self.ranks.len();
        push_candidates(
            &mut self.ranks,
            table,
            &plans.children[number],
            node.args.as_slice(),
        )?;
        let end = self.ranks.len();
        self.entries[number] = Found {
            node: Some(node.node),
            alone: node.alone,
            from,
            end,
        };
        Ok((from, end))
    }

    // Where the choices of the leading child of the number stand among the ranks: its candidates but for those that
    // the next one bars. They are of what the children of the node take together.
    pub(crate) fn choices(
        &mut self,
        table: &Table,
        plans: &CommPlans,
        node: Node<'_>,
        number: u32,
    ) -> Result<(usize, usize), Memory>
        requires table { IsTable table.now }
        requires found { AreFound table.now plans.now self.old }
        requires node { IsNodeOf table.now node }
        requires number { (p : plain.Pattern) × (next : Option plain.Pattern) × IsLead plans.now number p next }
        ensures part { IfOk result (λ r. (r.0 ≤ r.1) × (r.1 ≤ length self.new.ranks.items)) }
        ensures choices { IfOk result (λ r. (p : plain.Pattern) (next : Option plain.Pattern)
            → IsLead plans.now number p next → AreChoices table.now p next
            (given_terms (term_at table.now node.entry.node) node.entry.alone)
            (take (r.1 - r.0) (drop r.0 self.new.ranks.items))) }
        ensures found { OnOk result (AreFound table.now plans.now self.new) }
    {
        let place = number as usize;
        if let Some(part) = kept(&self.leads, place, node) {
            return Ok(part);
        }
        let Lead { child, next } = plans.leads[place];
        let own = self.fill(table, plans, node, child)?;
        let Some(next) = next else {
            return Ok(own);
        };
        let its = self.fill(table, plans, node, next)?;
        make_room(&mut self.leads, plans.leads.len())?;
        let from = self.ranks.len();
        let (child, next) = (child as usize, next as usize);
        push_choices(
            &mut self.ranks,
            table,
            &plans.children[child],
            own,
            &plans.children[next],
            its,
        )?;
        let end = self.ranks.len();
        self.leads[place] = Found {
            node: Some(node.node),
            alone: node.alone,
            from,
            end,
        };
        Ok((from, end))
    }
}
