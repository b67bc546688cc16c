//! The commutative matcher, which has all that it needs.
ghost use Rattle.std.specs.Prelude.{Some, ◌≡◌, ◌<◌, ◌≤◌, ◌+◌, ◌*◌, ◌↔◌, ℕ, None, Ok, false, drop, length, map};
ghost use Rattle.std.specs.Prelude.{option_map};
ghost use Rattle.std.specs.Prelude.{slice_get, IfOk, IfSome, IsSome, IsTrue, OnErr};
ghost use Rattle.std.specs.List.{AllByRecursion};
ghost use Rattle.mp_term.specs.Normal.{IsNormal};
ghost use Rattle.mp_term.specs.Size.{all_nodes};
ghost use Rattle.mp_pattern.specs.Constants.{pattern_constants};
ghost use Rattle.mp_pattern.specs.PatternTree.{Patterns, app_pattern};
ghost use Rattle.mp_pattern.specs.Plan.{IsPlanOf};
ghost use Rattle.mp_pattern.specs.Size.{all_pattern_nodes};
ghost use Rattle.mp_pattern.specs.Subpatterns.{subpatterns};
ghost use Rattle.mp_pattern.specs.Variables.{variables};
ghost use Rattle.mp_table.specs.Table.{HasRanks, rank_of, terms_at};
ghost use Rattle.mp_subst.specs.Trail.{AreFinal, GoesWith, cut, length_at};
ghost use Rattle.mp_search.specs.At.{BindsOnly};
ghost use Rattle.mp_ac.specs.Asked.{cost};
ghost use Rattle.mp_ac.specs.Children.{AreArguments};
ghost use Rattle.mp_ac.specs.CommItems.{AreCommItems};
ghost use Rattle.mp_ac.specs.CommList.{comm_list};
ghost use Rattle.mp_ac.specs.Matcher.{IsCommNode, IsMatcher, asked_of, entry_of, item_of};
ghost use Rattle.mp_ac.specs.Matcher.{number_among, read_trail, to_come};

use crate::asked::Asked;
use crate::look::look_on;
use crate::room::CommRoom;
use crate::subpattern::subpattern;
use mp_pattern::Plan;
use mp_search::Stage;
use mp_subst::{Mark, Trail};
use mp_table::{Rank, Table};
use mp_term::{MAX_TERM_NODES, Memory, Signature};
use std::alloc::Global;

/// The items of a commutative node of a plan over a trail, one after the other: the tables of the entries of the nodes
/// below it, each once. Contracts see its copy of the trail, the mark of the begin, the item at which it stands
/// (`item_of` of `specs/Matcher.antt`), and the items still to come (`to_come` there).
#[derive(Drop)]
pub struct CommMatcher<'a> {
    pub(crate) sig: &'a Signature,
    pub(crate) table: &'a Table,
    pub(crate) node: u32,
    pub(crate) plan: Plan,
    pub(crate) vars: Vec<u32>,
    pub(crate) args: Vec<Rank>,
    pub(crate) room: CommRoom,
    pub(crate) trail: Trail,
    pub(crate) mark: Mark,
    pub(crate) stage: Stage,
}

// The plan of the node's pattern alone. What stands in a pattern that has a plan has one too, so that only want of
// memory is left to refuse it.
fn own_plan(alloc: Global, sig: &Signature, plan: &Plan, node: u32) -> Result<Plan, Memory>
    requires { IsCommNode sig.now plan.now.pattern node }
    ensures { (g : ℕ) (ps : Patterns) → slice_get (subpatterns plan.now.pattern) node ≡ Some (app_pattern g ps) →
        IfOk result (IsPlanOf sig.now (app_pattern g ps)) }
{
    let Some(pattern) = subpattern(plan.pattern(), node) else {
        unreachable!()
    };
    match Plan::compile(alloc, sig, pattern) {
        Ok(own) => Ok(own),
        Err(_) => Err(Memory),
    }
}

// The number in the trail of the variable of that name, or 0 where the plan has none.
fn number_of(plan: &Plan, vars: &[u32], name: &[u8]) -> u32
    requires { length vars.now ≡ length plan.now.variables }
    ensures { result ≡ number_among vars.now plan.now.variables name.now }
{
    match plan.find_var(name) {
        None => 0,
        Some(var) => vars[var as usize],
    }
}

// The number in the trail of each variable of the node's own plan.
fn own_numbers(alloc: Global, plan: &Plan, own: &Plan, vars: &[u32]) -> Result<Vec<u32>, Memory>
    requires { length vars.now ≡ length plan.now.variables }
    ensures { IfOk result (λ ns. ns.items
        ≡ map (λ y. number_among vars.now plan.now.variables y.name) own.now.variables) }
{
    let mut numbers = Vec::with_capacity(alloc, own.vars() as usize)?;
    for var in 0..own.vars() {
        let Some(name) = own.var_name(var) else {
            unreachable!()
        };
        numbers.push(number_of(plan, vars, name.bytes()))?;
    }
    Ok(numbers)
}

// The nodes of the terms of ranks, which are few.
fn nodes_of(table: &Table, ranks: &[Rank]) -> usize
    requires ranks { HasRanks table.now ranks.now }
    requires few { all_nodes (terms_at table.now ranks.now) ≤ MAX_TERM_NODES }
    ensures { result ≡ all_nodes (terms_at table.now ranks.now) }
{
    let mut nodes = 0;
    for rank in ranks {
        nodes += table.nodes(*rank);
    }
    nodes as usize
}

impl<'a> CommMatcher<'a> {
    /// The matcher before its first item. Its list is `comm_list` of `specs/CommList.antt`: exactly the tables of
    /// entries below the node for which its children take the arguments with values of the variables below it that
    /// merge with those of the trail, each once (`AreCommItems` of `specs/CommItems.antt`).
    ///
    /// The node is an application of a commutative operation in the plan of a pattern. Each of the plan's variables has
    /// a number of its own in the trail. The table is one of terms that are normal over the signature, and holds the
    /// symbols and defaults of the plan. The arguments are those of a normal application of the operation in order, or
    /// one term, and have no more nodes than a term. The trail goes with the table, its values are final, and it has
    /// room for the nodes of the arguments and three for each node below the node. `Memory` comes where there is no
    /// memory for it.
    pub fn begin(
        alloc: Global,
        sig: &'a Signature,
        plan: &'a Plan,
        node: u32,
        vars: &[u32],
        table: &'a Table,
        args: &[Rank],
        trail: &Trail,
    ) -> Result<CommMatcher<'a>, Memory>
        requires plan { IsPlanOf sig.now plan.now.pattern plan.now }
        requires node { IsCommNode sig.now plan.now.pattern node }
        requires vars { length vars.now ≡ length plan.now.variables }
        requires distinct { (i j v : ℕ) → slice_get vars.now i ≡ Some v → slice_get vars.now j ≡ Some v → i ≡ j }
        requires below { AllByRecursion (λ v. v < trail.now.vars) vars.now }
        requires normal { AllByRecursion (IsNormal sig.now) table.now.terms }
        requires constants { AllByRecursion (λ u. IsSome (rank_of table.now u)) (pattern_constants plan.now.pattern) }
        requires ranks { HasRanks table.now args.now }
        requires arguments { (g : ℕ) (ps : Patterns) → slice_get (subpatterns plan.now.pattern) node
            ≡ Some (app_pattern g ps) → AreArguments sig.now g (terms_at table.now args.now) }
        requires few { all_nodes (terms_at table.now args.now) ≤ MAX_TERM_NODES }
        requires trail { GoesWith table.now trail.now }
        requires values { AreFinal sig.now table.now trail.now.stack }
        requires spare { (g : ℕ) (ps : Patterns) → slice_get (subpatterns plan.now.pattern) node
            ≡ Some (app_pattern g ps) → all_nodes (terms_at table.now args.now) + 3 * all_pattern_nodes ps
            ≤ trail.now.spare }
        ensures matcher { IfOk result IsMatcher }
        ensures trail { IfOk result (λ m. m.trail ≡ trail.now) }
        ensures mark { IfOk result (λ m. length_at m.mark ≡ length trail.now.stack) }
        ensures before { IfOk result (λ m. item_of m ≡ None) }
        ensures numbers { (g : ℕ) (ps : Patterns) → slice_get (subpatterns plan.now.pattern) node
            ≡ Some (app_pattern g ps)
            → IfOk result (λ m. m.vars.items
            ≡ map (number_among vars.now plan.now.variables) (variables (app_pattern g ps))) }
        ensures list { (g : ℕ) (ps : Patterns) → slice_get (subpatterns plan.now.pattern) node
            ≡ Some (app_pattern g ps)
            → IfOk result (λ m. to_come m
            ≡ comm_list sig.now g ps (terms_at table.now args.now) false (read_trail m trail.now)) }
        ensures items { (g : ℕ) (ps : Patterns) → slice_get (subpatterns plan.now.pattern) node
            ≡ Some (app_pattern g ps)
            → IfOk result (λ m. AreCommItems sig.now g ps (terms_at table.now args.now) false (read_trail m trail.now)
            (to_come m)) }
    {
        let own = own_plan(alloc, sig, plan, node)?;
        let numbers = own_numbers(alloc, plan, &own, vars)?;
        let mut room = CommRoom::new(alloc, 0, own.len() - 1, nodes_of(table, args))?;
        // What holds of each table.
        table.len();
        room.grounds.fill(table, own.pattern());
        Ok(CommMatcher {
            sig,
            table,
            node,
            plan: own,
            vars: numbers,
            args: Vec::from_slice(alloc, args)?,
            room,
            trail: trail.copy(alloc)?,
            mark: trail.mark(),
            stage: Stage::Before,
        })
    }

    /// Takes back what was bound since the begin, and moves to the next item: true says that there is one, and that the
    /// trail has its substitution; false, that none is left, and that the trail is that of the begin. The trail must be
    /// the one that the last call left, `begin` or `next`. It binds variables below the node alone, and takes no memory
    /// today: `Memory` never comes.
    pub fn next(&mut self, trail: &mut Trail) -> Result<bool, Memory>
        requires matcher { IsMatcher self.old }
        requires same { trail.old ≡ self.old.trail }
        ensures item { item_of self.new ≡ slice_get (to_come self.old) 0 }
        ensures list { to_come self.new ≡ drop 1 (to_come self.old) }
        ensures answer { IfOk result (λ b. IsTrue b ↔ IsSome (item_of self.new)) }
        ensures none { (result ≡ Ok false) → trail.new ≡ cut (length_at self.old.mark) trail.old }
        ensures trail { self.new.trail ≡ trail.new }
        ensures mark { self.new.mark ≡ self.old.mark }
        ensures kept { cut (length_at self.old.mark) trail.new ≡ cut (length_at self.old.mark) trail.old }
        ensures only { BindsOnly self.old.vars.items (cut (length_at self.old.mark) trail.old) trail.new }
        ensures spare { (cut (length_at self.old.mark) trail.old).spare
            ≤ trail.new.spare + cost self.old.plan.pattern (terms_at self.old.table.now self.old.args.items) }
        ensures goes { GoesWith self.old.table.now trail.new }
        ensures matcher { IsMatcher self.new }
        ensures asked { asked_of self.new ≡ asked_of self.old }
        ensures err { OnErr result ⊥ }
    {
        trail.undo(self.mark);
        let asked = Asked {
            sig: self.sig,
            plan: &self.plan,
            vars: &self.vars,
            table: self.table,
            owes: false,
        };
        let found = look_on(asked, &self.args, &mut self.room, self.stage, trail);
        self.stage = if found { Stage::Standing } else { Stage::Ended };
        self.trail.refill(trail);
        Ok(found)
    }

    /// Where the matcher stands at an item, what the node of that number of the plan takes in the item's table, and
    /// whether it is collapsed; elsewhere nothing is said of these. It is None exactly where no node below the
    /// matcher's has the number. It takes no memory.
    pub fn entry(&self, node: u32) -> Option<(&[Rank], bool)>
        requires { IsMatcher self.now }
        ensures entry { option_map (λ e. record { terms = terms_at self.now.table.now e.0.now; collapsed = e.1 }) result
            ≡ entry_of self.now node }
        ensures ranks { IfSome result (λ e. HasRanks self.now.table.now e.0.now) }
    {
        if node <= self.node || node - self.node >= self.plan.len() {
            return None;
        }
        match self.room.levels.get((node - self.node - 1) as usize) {
            None => None,
            Some(level) => Some((level.take.as_slice(), level.collapsed)),
        }
    }
}
