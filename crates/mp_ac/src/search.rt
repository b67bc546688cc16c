//! The search for the items below a commutative node, one after the other.
ghost use Rattle.std.specs.Prelude.{◌≡◌, ◌≤◌, ◌+◌, [], drop, length, option_map, slice_get, Some};
ghost use Rattle.std.specs.Prelude.{IfOk, IfSome, IsSome, IsTrue, MatchBool, MatchOption, OnOk};
ghost use Rattle.std.specs.List.{AllByRecursion};
ghost use Rattle.mp_term.specs.Normal.{IsNormal};
ghost use Rattle.mp_pattern.specs.Constants.{pattern_constants};
ghost use Rattle.mp_pattern.specs.Fits.{arranged};
ghost use Rattle.mp_pattern.specs.Value.{Subst};
ghost use Rattle.mp_pattern.specs.View.{pattern_tree};
ghost use Rattle.mp_table.specs.Table.{HasRank, HasRanks, rank_of, term_at, terms_at};
ghost use Rattle.mp_subst.specs.Trail.{Trail as plain_trail, cut};
ghost use Rattle.mp_ac.specs.Asked.{cost, root_list};
ghost use Rattle.mp_ac.specs.Candidates.{given_terms};
ghost use Rattle.mp_ac.specs.CommItems.{SameValues};
ghost use Rattle.mp_ac.specs.CommPlan.{IsNumberedPattern, root_op};
ghost use Rattle.mp_ac.specs.CommPlans.{IsPrepared};
ghost use Rattle.mp_ac.specs.Numbered.{IsTrailOf, numbered_subst};
ghost use Rattle.mp_ac.specs.Search.{IsOver, ahead, cost_of, item_table, mark_of, table_of};
ghost use Rattle.mp_ac.specs.Seek.{IsCommutative};
ghost use Rattle.mp_ac.specs.Store.{IsStoreOf};
ghost use Rattle.mp_ac.specs.declared.comm_plans.CommPlans.{CommPlans as plain_plans};

use crate::args::Args;
use crate::asked::Asked;
use crate::begin::{parts, room_for};
use crate::comm_plans::{CommPlans, Prepared};
use crate::node::Node;
use crate::pick::entry_picked;
use crate::planned::Planned;
use crate::room::CommRoom;
use crate::seek::{Sought, seek};
use crate::spent::is_spent;
use crate::store::CommStore;
use mp_pattern::Pattern;
use mp_search::Stage;
use mp_subst::{Mark, Trail};
use mp_table::{Rank, Table};
use mp_term::{Memory, Signature};
use std::alloc::Global;

/// The items below a commutative node over a trail, one after the other: the tables of the entries of the nodes below
/// it, each once, with what its children's takes bind. `ahead` of `specs/Search.antt` are those still to come.
// The children that take one term each, and the plan of the others.
#[derive(Drop)]
pub struct CommSearch<'a> {
    pub(crate) sig: &'a Signature,
    pub(crate) table: &'a Table,
    pub(crate) children: &'a [Pattern],
    pub(crate) plan: Planned<'a>,
    pub(crate) args: Args<'a>,
    pub(crate) owes: bool,
    pub(crate) room: CommRoom,
    pub(crate) mark: Mark,
    pub(crate) stage: Stage,
}

impl<'a> CommSearch<'a> {
    /// The search before its first item. Its list is `comm_list` of `specs/CommList.antt` over the trail's
    /// substitution, in which each variable is named by its number: what it has, the law
    /// `a_commutative_node_has_the_items_of_its_list` says. None says that the list is seen to be empty.
    ///
    /// The pattern is an application of a commutative operation, prepared among the plans. The node is a term of the
    /// table, whose terms are normal over the signature, and which holds the pattern's symbols and defaults. The
    /// children take its arguments together, which are those of an application of their operation in order, or it
    /// alone. The trail has room for the nodes of the arguments and three for each node below the pattern's root. The
    /// store is one of the table and of the plans, also afterwards. `Memory` comes where there is no memory for it;
    /// then nothing is said of the store.
    pub fn begin(
        alloc: Global,
        store: &mut CommStore,
        sig: &'a Signature,
        plans: &'a CommPlans,
        prepared: Prepared,
        pattern: &'a Pattern,
        table: &'a Table,
        node: Rank,
        alone: bool,
        trail: &Trail,
    ) -> Result<Option<CommSearch<'a>>, Memory>
        requires pattern { IsNumberedPattern (pattern_tree pattern.now) }
        requires commutative { IsCommutative sig.now (pattern_tree pattern.now) }
        requires prepared { IsPrepared sig.now plans.now (pattern_tree pattern.now) prepared }
        requires normal { AllByRecursion (IsNormal sig.now) table.now.terms }
        requires constants { AllByRecursion (λ u. IsSome (rank_of table.now u))
            (pattern_constants (pattern_tree pattern.now)) }
        requires node { HasRank table.now node }
        requires given { let ts = given_terms (term_at table.now node) alone in
            arranged sig.now (root_op (pattern_tree pattern.now)) ts ≡ ts }
        requires trail { IsTrailOf table.now trail.now }
        requires spare { cost (pattern_tree pattern.now) (given_terms (term_at table.now node) alone)
            ≤ trail.now.spare }
        requires store { IsStoreOf table.now plans.now store.old }
        ensures over { IfOk result (λ o. IfSome o (λ c. IsOver c trail.now)) }
        ensures mark { IfOk result (λ o. IfSome o (λ c. mark_of c ≡ length trail.now.stack)) }
        ensures list { IfOk result (λ o. (s : Subst) → MatchOption o
            (root_list sig.now (pattern_tree pattern.now) (given_terms (term_at table.now node) alone) alone s ≡ [])
            (λ c. ahead c s ≡ root_list sig.now (pattern_tree pattern.now)
            (given_terms (term_at table.now node) alone) alone s)) }
        ensures table { IfOk result (λ o. IfSome o (λ c. table_of c ≡ table.now)) }
        ensures cost { IfOk result (λ o. IfSome o (λ c. cost_of c
            ≡ cost (pattern_tree pattern.now) (given_terms (term_at table.now node) alone))) }
        ensures store { IfOk result (λ _. IsStoreOf table.now plans.now store.new) }
    {
        let Pattern::App(_, children) = pattern else {
            unreachable!()
        };
        let node = Node::new(table, node, alone);
        let Some((numbers, plan)) = parts(alloc, store, sig, plans, prepared, pattern, table, node)?
        else {
            return Ok(None);
        };
        let room = room_for(alloc, store, table, plans, node, numbers, plan.get())?;
        Ok(Some(CommSearch {
            sig,
            table,
            children: &children.as_slice()[..numbers.len()],
            plan,
            args: node.args,
            owes: alone,
            room,
            mark: trail.mark(),
            stage: Stage::Before,
        }))
    }

    // Whether the search stands at an item, and it is seen that none comes behind it.
    fn is_spent(&self) -> bool
        requires { (t : plain_trail) × IsOver self.now t }
        ensures { IsTrue result → (t : plain_trail) → IsOver self.now t
            → ahead self.now (numbered_subst (table_of self.now) t.stack) ≡ [] }
    {
        match self.stage {
            Stage::Standing => {
                let plan = self.plan.get();
                is_spent(&plan.plan, self.children.len(), &self.room.picks)
            }
            _ => false,
        }
    }

    /// Takes back what was bound since the begin, and moves to the next item: true says that there is one, and that
    /// the trail has its values; false, that none is left, and that the trail is that of the begin. It takes no more of
    /// the trail's room than `begin` asks for, and no memory.
    ///
    /// Up to its length at the begin the trail is that of the begin.
    pub fn next(&mut self, trail: &mut Trail) -> bool
        requires mark { mark_of self.old ≤ length trail.old.stack }
        requires over { IsOver self.old (cut (mark_of self.old) trail.old) }
        ensures found { let t = cut (mark_of self.old) trail.old in
            let s = numbered_subst (table_of self.old) t.stack in
            MatchBool result
            (((r : Subst) × (slice_get (ahead self.old s) 0 ≡ Some (item_table self.new, r))
            × SameValues r (numbered_subst (table_of self.old) trail.new.stack))
            × (ahead self.new s ≡ drop 1 (ahead self.old s)))
            ((ahead self.old s ≡ []) × (trail.new ≡ t)) }
        ensures over { IsOver self.new (cut (mark_of self.old) trail.old) }
        ensures mark { mark_of self.new ≡ mark_of self.old }
        ensures table { table_of self.new ≡ table_of self.old }
        ensures cost { cost_of self.new ≡ cost_of self.old }
        ensures kept { cut (mark_of self.old) trail.new ≡ cut (mark_of self.old) trail.old }
        ensures spare { (cut (mark_of self.old) trail.old).spare ≤ trail.new.spare + cost_of self.old }
        ensures trail { IsTrailOf (table_of self.old) trail.new }
    {
        trail.undo(self.mark);
        if self.is_spent() {
            self.stage = Stage::Ended;
            return false;
        }
        let Some(mode) = self.stage.mode() else {
            return false;
        };
        let plan = self.plan.get();
        let sought = Sought {
            asked: Asked {
                sig: self.sig,
                plan: &plan.plan,
                vars: &plan.vars,
                table: self.table,
                owes: self.owes,
            },
            choices: &self.room.choices,
            grounds: self.room.grounds.as_slice(),
            width: self.room.width,
        };
        let found = seek(
            sought,
            self.children,
            self.args.as_slice(),
            &mut self.room.picks,
            &mut self.room.levels,
            trail,
            mode,
        );
        if !found {
            trail.undo(self.mark);
        }
        self.stage = if found { Stage::Standing } else { Stage::Ended };
        found
    }

    /// What the node of that number takes in the item's table, and whether it is collapsed: the nodes below the
    /// pattern's root have numbers in preorder, from 0. It is None exactly where no node has the number, or where the
    /// search doesn't stand at an item. It takes no memory.
    pub fn entry(&self, node: u32) -> Option<(&[Rank], bool)>
        requires over { (t : plain_trail) × IsOver self.now t }
        ensures entry { option_map
            (λ e. record { terms = terms_at (table_of self.now) e.0.now; collapsed = e.1 }) result
            ≡ slice_get (item_table self.now) node }
        ensures ranks { IfSome result (λ e. HasRanks (table_of self.now) e.0.now) }
    {
        let Stage::Standing = self.stage else {
            return None;
        };
        let room = &self.room;
        let left = match entry_picked(self.table, &room.choices, self.children, &room.picks, node) {
            Ok(ranks) => return Some((ranks, false)),
            Err(left) => left,
        };
        if left >= self.plan.get().nodes() {
            return None;
        }
        match room.levels.get(left as usize) {
            None => None,
            Some(level) => Some((level.take.as_slice(), level.collapsed)),
        }
    }

    /// Gives the room back to the store, for another search. `Memory` comes where there is no memory for it.
    pub fn give_back(self, store: &mut CommStore) -> Result<(), Memory>
        requires { (t : plain_trail) × IsOver self t }
        ensures { OnOk result ((x : plain_plans) → IsStoreOf (table_of self.entry) x store.old
            → IsStoreOf (table_of self.entry) x store.new) }
    {
        store.put_room(self.room)
    }
}
