//! The cursor: the items of a rule on a subject, one after the other, in no memory but its room.
ghost use Rattle.std.specs.Prelude.{◌≡◌, ◌<◌, ◌≤◌, ◌↔◌, length, IsTrue, IsSome, Some, None, IfOk, slice_get, List};
ghost use Rattle.std.specs.Prelude.{slice_index_or, option_map, MatchOption, MatchResult};
ghost use Rattle.std.specs.List.{AllByRecursion};
ghost use Rattle.mp_io.specs.Moments.{sunk};
ghost use Rattle.mp_io.specs.Printing.{Prints};
ghost use Rattle.mp_io.specs.Writing.{Puts};
ghost use Rattle.mp_term.specs.Normal.{IsNormal};
ghost use Rattle.mp_term.specs.Size.{node_count};
ghost use Rattle.mp_pattern.specs.Constants.{rule_constants};
ghost use Rattle.mp_pattern.specs.CondView.{cond_tree};
ghost use Rattle.mp_pattern.specs.View.{pattern_tree};
ghost use Rattle.mp_pattern.specs.RuleView.{rule_tree};
ghost use Rattle.mp_pattern.specs.Plan.{IsPlanOf};
ghost use Rattle.mp_pattern.specs.Operands.{HasConditionOver};
ghost use Rattle.mp_pattern.specs.Variables.{variables};
ghost use Rattle.mp_pattern.specs.Lists.{IsOneList};
ghost use Rattle.mp_pattern.specs.Fits.{nothing};
ghost use Rattle.mp_print.specs.Printing.{subst_text};
ghost use Rattle.mp_subst.specs.View.{subst_of};
ghost use Rattle.mp_subst.specs.Bound.{bound_of, value_in};
ghost use Rattle.mp_table.specs.Table.{rank_of, IsTable, subject_of};
ghost use Rattle.mp_theory.specs.OneList.{AreItems, Item, item_list, item_substs};
ghost use Rattle.mp_token.specs.Entry as token_entries;
ghost use Rattle.mp_token.specs.TokenText.{front_text};
ghost use Rattle.mp_cursor.specs.Parts.{AreOver};
ghost use Rattle.mp_search.specs.Reading.{ReadsAs};
ghost use Rattle.mp_cursor.specs.Listing.{advanced, ReadAs, IsOver, StandsAt};
ghost use Rattle.mp_cursor.specs.Listing.{StandForNone};

use crate::cursor_room::CursorRoom;
use crate::entries::{put_takes_text, take_entries};
use crate::matched::Matched;
use crate::parts::Parts;
use crate::wildcards::decides_table;
use mp_io::{Failed, Sink, Writer};
use mp_pattern::{Cond, Plan, Rule};
use mp_print::put_trail;
use mp_search::Stage;
use mp_subst::{Bound, Subst};
use mp_table::{Rank, Table};
use mp_term::{Memory, Name, Signature};
use mp_token::Token;
use std::alloc::Global;
use std::marker::Model;

/// The items of a rule on the subject of a table: each substitution that the rule admits there, with its least take
/// table, in the order of these. Contracts see it as the record `Listing` of `specs/Listing.antt`.
#[derive(Drop)]
pub struct Cursor<'a> {
    pub(crate) matched: Matched<'a>,
    pub(crate) rule: &'a Rule,
    pub(crate) parts: Parts,
    pub(crate) decides_table: bool,
    pub(crate) stage: Stage,
}

impl<'a> Model for Cursor<'a> {
    ghost use Rattle.mp_cursor.specs.Listing.{Listing};
    ghost use Rattle.mp_cursor.specs.ListingCode.{coded_listing};

    ghost Value = { Listing };

    ghost coded = { coded_listing };

    ghost use Rattle.mp_cursor.specs.CursorView.{cursor_view, IsCursor};

    ghost view = { cursor_view };

    ghost invariant = { IsCursor };
}

/// The token's rule has another name, or its entries are the least take table of no item.
#[derive(Debug, Drop)]
pub struct NotAnItem;

// The parts of a room for a plan and a table, where nothing is looked for yet.
fn parts_over(room: CursorRoom, matched: Matched<'_>) -> Parts
    requires plan { IsPlanOf matched.sig.now matched.plan.now.pattern matched.plan.now }
    requires nodes { room.nodes ≡ length matched.plan.now.nodes }
    requires vars { room.vars ≡ length matched.plan.now.variables }
    requires width { node_count (subject_of matched.table.now) ≤ room.width }
    ensures over { AreOver matched.entry result }
    ensures table { IsTable matched.entry.table.now }
{
    let mut parts = room.parts;
    // What holds of each table.
    matched.table.len();
    parts.grounds.fill(matched.table, matched.plan.pattern());
    parts
}

// The rule's condition.
fn condition_of(rule: &Rule) -> Option<&Cond>
    ensures { option_map (λ c. cond_tree c.now) result ≡ (rule_tree rule.now).condition }
{
    rule.condition.as_ref()
}

impl<'a> Cursor<'a> {
    /// The cursor before its first item. Its list is `item_list` of mp_theory's `specs/OneList.antt`: exactly the
    /// substitutions that the rule admits on the table's subject, each with its least take table, strictly ascending by
    /// these (`AreItems` there, `IsOneList` of mp_pattern's `specs/Lists.antt`).
    ///
    /// The plan is that of the rule's pattern. The table is one of terms that are normal over the signature, and holds
    /// the rule's constants (`rule_constants` of mp_pattern). The rule's condition, if it has one, speaks of the
    /// pattern's variables. The room is for as many nodes and variables as the plan has, and at least as wide as the
    /// table's subject has nodes. It takes no memory.
    pub fn begin(
        room: CursorRoom,
        sig: &'a Signature,
        rule: &'a Rule,
        plan: &'a Plan,
        table: &'a Table,
    ) -> Cursor<'a>
        requires plan { IsPlanOf sig.now (pattern_tree rule.now.pattern) plan.now }
        requires condition { HasConditionOver (variables (pattern_tree rule.now.pattern))
            (rule_tree rule.now).condition }
        requires normal { AllByRecursion (IsNormal sig.now) table.now.terms }
        requires constants { AllByRecursion (λ u. IsSome (rank_of table.now u)) (rule_constants (rule_tree rule.now)) }
        requires nodes { room.nodes ≡ length plan.now.nodes }
        requires vars { room.vars ≡ length plan.now.variables }
        requires width { node_count (subject_of table.now) ≤ room.width }
        ensures over { IsOver sig.now (rule_tree rule.now) table.now result }
        ensures before { result.item ≡ None }
        ensures list { result.to_come ≡ item_list sig.now (rule_tree rule.now) (subject_of table.now) }
        ensures items { AreItems sig.now (rule_tree rule.now) (subject_of table.now) result.to_come }
        ensures exact { IsOneList sig.now (rule_tree rule.now) (subject_of table.now) (item_substs result.to_come) }
    {
        let matched = Matched { sig, plan, table };
        Cursor {
            matched,
            rule,
            parts: parts_over(room, matched),
            decides_table: decides_table(plan.pattern()),
            stage: Stage::Before,
        }
    }

    /// Moves to the next item and answers true. Where none is left it answers false and stands at none, and so does
    /// every later call. It takes no memory.
    pub fn next(&mut self) -> bool
        ensures moved { self.new ≡ advanced self.old }
        ensures answer { IsTrue result ↔ IsSome self.new.item }
    {
        let Some(mode) = self.stage.mode() else {
            return false;
        };
        let condition = condition_of(self.rule);
        let found = self
            .parts
            .advance(self.matched, condition, self.decides_table, mode);
        self.stage = if found { Stage::Standing } else { Stage::Ended };
        found
    }

    /// What the node of that number takes in the item's table, and whether it is collapsed: the nodes have the plan's
    /// numbers, from 0. It is None exactly where no node has the number. The cursor stands at an item. It takes no
    /// memory.
    pub fn entry(&self, node: u32) -> Option<(&[Rank], bool)>
        requires { IsSome self.now.item }
        ensures { (i : Item) → self.now.item ≡ Some i → MatchOption result (length i.0 ≤ node)
            (λ e. ReadsAs self.now.table (e.0.now, e.1) (slice_index_or i.0 node nothing)) }
    {
        match self.parts.levels.get(node as usize) {
            None => None,
            Some(level) => Some((level.take.as_slice(), level.collapsed)),
        }
    }

    /// The value of the variable of that number at the item: the variables have the plan's numbers, from 0. It is None
    /// exactly where no variable has the number. The cursor stands at an item. It takes no memory.
    pub fn binding(&self, var: u32) -> Option<Bound<'_>>
        requires { IsSome self.now.item }
        ensures { (i : Item) → self.now.item ≡ Some i →
            option_map (λ b. value_in self.now.table (bound_of b)) result
            ≡ option_map (λ b. b.value) (slice_get i.1 var) }
    {
        self.parts.trail.binding(var)
    }

    /// The item's substitution. The cursor stands at an item. `Memory` comes where there is no memory for it.
    pub fn subst(&self, alloc: Global) -> Result<Subst, Memory>
        requires { IsSome self.now.item }
        ensures { IfOk result (λ s. option_map (λ i. i.1) self.now.item ≡ Some (subst_of s)) }
    {
        self.parts
            .trail
            .to_subst(alloc, self.matched.table, self.matched.plan)
    }

    /// Puts the text of the item's substitution (`subst_text` of mp_print's `specs/Printing.antt`). The cursor stands
    /// at an item. It takes no memory.
    pub fn put_subst<K: Sink>(&self, out: &mut Writer<'_, K>)
        requires { IsSome self.now.item }
        ensures { (i : Item) → self.now.item ≡ Some i → Puts K.Sink out.old out.new (subst_text self.now.sig i.1) }
    {
        let Matched { sig, plan, table } = self.matched;
        put_trail(sig, table, plan, &self.parts.trail, out);
    }

    /// Appends the text of the item's substitution to the sink, as `put_subst` puts it. The cursor stands at an item.
    /// It takes no memory.
    ///
    /// `Failed`: the sink's count of faults rose, and a front of the text was appended.
    pub fn write_subst<K: Sink>(&self, sink: &mut K) -> Result<(), Failed>
        requires { IsSome self.now.item }
        ensures { (i : Item) → self.now.item ≡ Some i →
            Prints (sunk K.Sink sink.old sink.new) (subst_text self.now.sig i.1) result }
    {
        let mut out = Writer::new(sink);
        self.put_subst(&mut out);
        out.finish()
    }

    /// Appends the text of the item's resume token for the subject of that name to the sink: `front_text` of mp_token's
    /// `specs/TokenText.antt` with the rule's name and an entry for each node, of the ranks that it takes (`ReadAs` of
    /// `specs/Listing.antt`). The cursor stands at an item. It takes no memory.
    ///
    /// `Failed`: the sink's count of faults rose, and a front of the text was appended.
    pub fn write_token<K: Sink>(&self, subject: &Name, sink: &mut K) -> Result<(), Failed>
        requires { IsSome self.now.item }
        ensures { (i : Item) (es : List token_entries.Entry) → self.now.item ≡ Some i → ReadAs self.now.table es i.0 →
            Prints (sunk K.Sink sink.old sink.new) (front_text subject.now self.now.rule.name es) result }
    {
        let mut out = Writer::new(sink);
        self.put_token(subject, &mut out);
        out.finish()
    }

    // Puts the text that `write_token` writes.
    fn put_token<K: Sink>(&self, subject: &Name, out: &mut Writer<'_, K>)
        requires { IsSome self.now.item }
        ensures { (i : Item) (es : List token_entries.Entry) → self.now.item ≡ Some i → ReadAs self.now.table es i.0 →
            Puts K.Sink out.old out.new (front_text subject.now self.now.rule.name es) }
    {
        put_takes_text(subject, &self.rule.name, self.parts.levels.as_slice(), out);
    }

    /// The item's resume token for the subject of that name: the rule's name, and an entry for each node, of the ranks
    /// that it takes (`ReadAs` of `specs/Listing.antt`), at least one. The cursor stands at an item. `Memory` comes
    /// where there is no memory for it.
    pub fn token(&self, alloc: Global, subject: &Name) -> Result<Token, Memory>
        requires { IsSome self.now.item }
        ensures names { IfOk result (λ t. (t.subject ≡ subject.now) × (t.rule ≡ self.now.rule.name)) }
        ensures some { IfOk result (λ t. 0 < length t.entries) }
        ensures entries { IfOk result (λ t. (i : Item) → self.now.item ≡ Some i → ReadAs self.now.table t.entries i.0) }
    {
        let entries = take_entries(alloc, self.parts.levels.as_slice())?;
        Ok(Token {
            subject: subject.copy(alloc)?,
            rule: self.rule.name.copy(alloc)?,
            entries,
        })
    }

    /// The cursor at the item of a token: the token has the rule's name, and its entries are the item's table
    /// (`StandsAt` of `specs/Listing.antt`). `NotAnItem` comes exactly where the name is another or no item has that
    /// table. The conditions are those of `begin`. It lists nothing, and takes no memory.
    pub fn resume(
        room: CursorRoom,
        sig: &'a Signature,
        rule: &'a Rule,
        plan: &'a Plan,
        table: &'a Table,
        token: &Token,
    ) -> Result<Cursor<'a>, NotAnItem>
        requires plan { IsPlanOf sig.now (pattern_tree rule.now.pattern) plan.now }
        requires condition { HasConditionOver (variables (pattern_tree rule.now.pattern))
            (rule_tree rule.now).condition }
        requires normal { AllByRecursion (IsNormal sig.now) table.now.terms }
        requires constants { AllByRecursion (λ u. IsSome (rank_of table.now u)) (rule_constants (rule_tree rule.now)) }
        requires nodes { room.nodes ≡ length plan.now.nodes }
        requires vars { room.vars ≡ length plan.now.variables }
        requires width { node_count (subject_of table.now) ≤ room.width }
        ensures { let all = item_list sig.now (rule_tree rule.now) (subject_of table.now) in
            MatchResult result
            (λ c. (token.now.rule ≡ (rule_tree rule.now).name) × IsOver sig.now (rule_tree rule.now) table.now c
            × StandsAt token.now.entries all c)
            (λ e. token.now.rule ≡ (rule_tree rule.now).name → StandForNone table.now token.now.entries all) }
    {
        if token.rule != rule.name {
            return Err(NotAnItem);
        }
        let matched = Matched { sig, plan, table };
        let mut parts = parts_over(room, matched);
        let decides_table = decides_table(plan.pattern());
        let condition = condition_of(rule);
        if !parts.stand_at(matched, condition, decides_table, &token.entries) {
            return Err(NotAnItem);
        }
        Ok(Cursor {
            matched,
            rule,
            parts,
            decides_table,
            stage: Stage::Standing,
        })
    }
}
