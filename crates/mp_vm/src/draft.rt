//! The form of the lines of a program text, as far as it is read.

ghost use Rattle.std.specs.Prelude.{◌≡◌, ◌≢◌, ◌<◌, ◌^◌, ◌+◌, ◌-◌, ◌++◌, ◌∷◌};
ghost use Rattle.std.specs.Prelude.{[], List, false, ◌↔◌, length, IfOk, IsTrue, MatchOption, ◌≤◌};
ghost use Rattle.mp_io.specs.Devices.{Text};
ghost use Rattle.mp_program.specs.FormText.{lines_text};
ghost use Rattle.mp_program.specs.Reading.{Begins};
ghost use Rattle.mp_line.specs.LineView.{line_view};
ghost use Rattle.mp_vm.specs.Machine.{State, start, may_follow, HasRoom, MayCome, stage_of};
ghost use Rattle.mp_vm.specs.declared.stage.Stage.TheVariants as stage;
ghost use Rattle.mp_vm.specs.DraftView.{IsDraftOf, HasRead, IsKept};

use crate::stage::Stage;
use mp_line::{Line, MAX_KEPT, read_line};
use mp_pattern::{Conds, MAX_RULES};
use mp_program::{Format, RuleLine};
use mp_term::{Memory, Signature};
use mp_walk::Instrs;
use std::alloc::Global;

// What is read behind the first line.
#[derive(Drop)]
pub(crate) struct Draft {
    pub(crate) format: Format,
    // How many lines declare something, and how many bytes these have with their ends.
    pub(crate) declarations: u32,
    pub(crate) declared: usize,
    pub(crate) tests: Conds,
    pub(crate) rules: Vec<RuleLine>,
    pub(crate) begin: Option<u32>,
    pub(crate) code: Instrs,
    pub(crate) stage: Stage,
}

impl Draft {
    // Only the first line is read, of a text of so many bytes. An instruction takes some 32 of them, and
    // a rule with its instructions some 128.
    pub(crate) fn new(alloc: Global, format: Format, size: usize) -> Result<Draft, Memory>
        ensures { IfOk result (λ d. IsDraftOf MAX_KEPT d (start format)) }
    {
        let rules = Vec::with_capacity(alloc, size / 128)?;
        let code = Instrs::with_room(alloc, size / 32)?;
        Ok(Draft {
            format,
            declarations: 0,
            declared: 0,
            tests: Conds::new(alloc),
            rules,
            begin: None,
            code,
            stage: Stage::Ops,
        })
    }

    // Takes a line behind those that are read, or answers false where no right lines begin with these and it: the draft
    // is of no use then.
    pub(crate) fn take(
        &mut self,
        alloc: Global,
        sig: &Signature,
        text: &[u8],
    ) -> Result<bool, Memory>
        requires few { length text.now < 2 ^ 32 - 1 }
        ensures taken { (read : List Text) → read ≢ [] → HasRead sig.now MAX_KEPT self.old read
            → length (lines_text (read ++ text.now ∷ [])) < 2 ^ 32 - 1
            → IfOk result (λ b. IsTrue b → HasRead sig.now MAX_KEPT self.new (read ++ text.now ∷ [])) }
        ensures refused { (read : List Text) → read ≢ [] → HasRead sig.now MAX_KEPT self.old read
            → length (lines_text (read ++ text.now ∷ [])) < 2 ^ 32 - 1
            → IfOk result (λ b. b ≡ false → Begins sig.now (read ++ text.now ∷ []) → ⊥) }
    {
        let Some(own) = self.next_number() else {
            return Ok(false);
        };
        let Some(line) = read_line(alloc, sig, self.format, own, text)? else {
            return Ok(false);
        };
        let right = self.may_come(&line);
        self.keep(line, text.len())?;
        Ok(right)
    }

    // The text may end here.
    pub(crate) fn is_whole(&self) -> bool
        ensures { IsTrue result ↔ (self.now.stage ≡ stage.Stop) }
    {
        self.stage == Stage::Stop
    }

    // The number of the next instruction, where it has 32 bits.
    fn next_number(&self) -> Option<u32>
        ensures { MatchOption result (2 ^ 32 - 1 ≤ length self.now.code) (λ n. n ≡ length self.now.code + 1) }
    {
        u32::try_from(self.code.len()).ok()?.checked_add(1)
    }

    // The line may come next.
    fn may_come(&self, line: &Line) -> bool
        ensures { (s : State) → IsDraftOf MAX_KEPT self.now s → (IsTrue result ↔ MayCome s (line_view line.now)) }
    {
        self.may_follow(line) && self.has_room(line)
    }

    // The line may stand next, if there is room.
    fn may_follow(&self, line: &Line) -> bool
        ensures { result ≡ may_follow (line_view line.now) self.now.stage self.now.begin }
    {
        match line {
            Line::Op => self.stage == Stage::Ops,
            Line::Kind => matches!(self.stage, Stage::Ops | Stage::Kinds),
            Line::Test(_) => matches!(self.stage, Stage::Ops | Stage::Kinds | Stage::Tests),
            Line::Rule(_) | Line::Code => matches!(
                self.stage,
                Stage::Ops | Stage::Kinds | Stage::Tests | Stage::Rules
            ),
            Line::Begin(_) => self.stage == Stage::Code,
            Line::Instr(_) => {
                self.stage == Stage::Instrs || self.stage == Stage::Begin && self.begin.is_some()
            }
            Line::Stop => {
                self.stage == Stage::Instrs || self.stage == Stage::Begin && self.begin.is_none()
            }
        }
    }

    // There is room for the line.
    fn has_room(&self, line: &Line) -> bool
        ensures { (s : State) → IsDraftOf MAX_KEPT self.now s → (IsTrue result ↔ HasRoom s.form (line_view line.now)) }
    {
        match line {
            Line::Test(_) => self.format == Format::Two && self.tests.len() < MAX_RULES,
            Line::Rule(_) => self.rules.len() < MAX_RULES,
            Line::Instr(_) => self.code.len() < u32::MAX as usize - 1,
            _ => true,
        }
    }

    // Keeps what the line says, which is so many bytes long, whether or not it may stand there.
    fn keep(&mut self, line: Line, length: usize) -> Result<(), Memory>
        ensures { IfOk result (λ _. IsKept MAX_KEPT self.old self.new (line_view line) length) }
    {
        self.stage = stage_of(&line);
        match line {
            Line::Op | Line::Kind => {
                self.declarations = self.declarations.saturating_add(1);
                self.declared = self.declared.saturating_add(length).saturating_add(1);
                Ok(())
            }
            Line::Test(cond) => self.tests.push(cond),
            Line::Rule(rule) => {
                self.rules.push(rule)?;
                Ok(())
            }
            Line::Begin(first) => {
                self.begin = first;
                Ok(())
            }
            Line::Instr(instr) => self.code.push(instr),
            Line::Code | Line::Stop => Ok(()),
        }
    }
}

// The part of a text of which the line is.
fn stage_of(line: &Line) -> Stage
    ensures { result ≡ stage_of (line_view line.now) }
{
    match line {
        Line::Op => Stage::Ops,
        Line::Kind => Stage::Kinds,
        Line::Test(_) => Stage::Tests,
        Line::Rule(_) => Stage::Rules,
        Line::Code => Stage::Code,
        Line::Begin(_) => Stage::Begin,
        Line::Instr(_) => Stage::Instrs,
        Line::Stop => Stage::Stop,
    }
}
