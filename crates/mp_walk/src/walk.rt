//! The walk of a subject over a table of instructions.
ghost use Rattle.std.specs.Prelude.{◌≡◌, ◌≤◌, ◌↔◌, ℕ, None, Some, IsSome, IsTrue, IfOk, OnOk, OnErr, IsErr, option_map};
ghost use Rattle.std.specs.Prelude.{length, slice_index_or, true, false, IfSome, MatchOption};
ghost use Rattle.mp_pattern.specs.Fits as fits;
ghost use Rattle.mp_pattern.specs.Fits.{nothing};
ghost use Rattle.mp_table.specs.Table.{subject_of};
ghost use Rattle.mp_subst.specs.Trail.{GoesWith};
ghost use Rattle.mp_walk.specs.Code.{IsCode};
ghost use Rattle.mp_walk.specs.CodeConstants.{IsCodeTable};
ghost use Rattle.mp_walk.specs.NamedItems.{IsItemTrail};
ghost use Rattle.mp_walk.specs.WalkItems.{AreLeafItems};
ghost use Rattle.mp_search.specs.Reading.{ReadsAs};
ghost use Rattle.mp_walk.specs.WalkView.{advanced};
ghost use Rattle.mp_walk.specs.Walkable.{IsWalkable};

use crate::code::Code;
use crate::course::Course;
use crate::setting::Setting;
use crate::stage::Stage;
use mp_subst::Trail;
use mp_table::{Rank, Table};
use mp_term::{Memory, Signature};
use std::alloc::Global;
use std::marker::Model;

/// The items of a walk of the subject of a table over a table of instructions: each is an instruction that accepts,
/// with a take table that fits the pattern that its path stands for. Contracts see it as the record `WalkView` of
/// `specs/WalkView.antt`.
#[derive(Drop)]
pub struct Walk<'a> {
    pub(crate) course: Course<'a>,
    pub(crate) stage: Stage,
}

impl<'a> Model for Walk<'a> {
    ghost use Rattle.mp_walk.specs.WalkView as plain;
    ghost use Rattle.mp_walk.specs.WalkCode.{coded_walk};

    ghost Value = { plain.WalkView };

    ghost coded = { coded_walk };

    ghost use Rattle.mp_walk.specs.WalkInside.{walk_view, IsWalk};

    ghost view = { walk_view };

    ghost invariant = { IsWalk };
}

impl<'a> Walk<'a> {
    /// The walk before its first item. Its list is exactly the leaf items of the table of instructions on the subject
    /// of the table, each once, in an order of its own (`AreLeafItems` of `specs/WalkItems.antt`).
    ///
    /// The table of instructions may be walked (`IsWalkable` of `specs/Walkable.antt`), and that on the subject of the
    /// table (`IsCodeTable` of `specs/CodeConstants.antt`). `Memory` comes where there is no memory for the walk.
    pub fn begin(
        alloc: Global,
        sig: &'a Signature,
        code: &'a Code,
        table: &'a Table,
    ) -> Result<Walk<'a>, Memory>
        requires walkable { IsWalkable sig.now code.now.instrs }
        requires plans { IsCode sig.now code.now }
        requires table { IsCodeTable sig.now code.now.instrs table.now }
        ensures setting { IfOk result (λ w. (w.sig ≡ sig.now) × (w.code ≡ code.now.instrs) × (w.table ≡ table.now)) }
        ensures before { IfOk result (λ w. w.item ≡ None) }
        ensures list { IfOk result (λ w. AreLeafItems sig.now code.now.instrs (subject_of table.now) w.to_come) }
    {
        // What holds of each table.
        table.len();
        Ok(Walk {
            course: Course::begin(alloc, Setting { sig, code, table })?,
            stage: Stage::Before,
        })
    }

    /// Moves to the next item and answers true. Where none is left it answers false and stands at none, and so does
    /// every later call. `Memory` comes where there is no memory for the way there, and from then on always.
    pub fn next(&mut self) -> Result<bool, Memory>
        ensures moved { OnOk result (self.new ≡ advanced self.old) }
        ensures kept { (self.new.sig ≡ self.old.sig) × (self.new.code ≡ self.old.code)
            × (self.new.table ≡ self.old.table) }
        ensures answer { IfOk result (λ b. IsTrue b ↔ IsSome self.new.item) }
        ensures failed { OnErr result (self.new.failed ≡ true) }
        ensures fails { self.old.failed ≡ true → IsErr result }
    {
        match self.stage {
            Stage::Failed => return Err(Memory),
            Stage::Ended => return Ok(false),
            _ => {}
        }
        match self.course.advance() {
            Err(Memory) => {
                self.stage = Stage::Failed;
                Err(Memory)
            }
            Ok(found) => {
                self.stage = if found { Stage::Standing } else { Stage::Ended };
                Ok(found)
            }
        }
    }

    /// The number of the instruction that accepts. The walk stands at an item.
    pub fn leaf(&self) -> u32
        requires { IsSome self.now.item }
        ensures { option_map (λ i. i.0) self.now.item ≡ Some result }
    {
        self.course.last_number()
    }

    /// What the node of that number takes in the item's table, and whether it is collapsed: the nodes of the pattern
    /// for which the item's path stands have numbers in preorder, from 0. It is None exactly where no node has the
    /// number. The walk stands at an item. It takes no memory.
    pub fn entry(&self, node: u32) -> Option<(&[Rank], bool)>
        requires { IsSome self.now.item }
        ensures { (i : ℕ × fits.Table) → self.now.item ≡ Some i → MatchOption result (length i.1 ≤ node)
            (λ e. ReadsAs self.now.table (e.0.now, e.1) (slice_index_or i.1 node nothing)) }
    {
        self.course.entry(node)
    }

    /// The values of the item: those of the variables of a pattern whose tokens lead to it are the substitution with
    /// which the table of the item fits the pattern (`IsItemTrail` of `specs/NamedItems.antt`). The walk stands at an
    /// item.
    pub fn trail(&self) -> &Trail
        requires { IsSome self.now.item }
        ensures goes { GoesWith self.now.table result.now }
        ensures fits { IfSome self.now.item
            (IsItemTrail self.now.sig self.now.code (subject_of self.now.table) self.now.table result.now) }
    {
        &self.course.trail
    }
}
