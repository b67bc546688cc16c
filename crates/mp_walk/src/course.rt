//! The course of a walk: the tokens that it has read, and what is to be tried next.
ghost use Rattle.std.specs.Prelude.{◌≡◌, ℕ, [], ◌∷◌, Some, None, IfOk, MatchOption, MatchBool, if◌then◌else◌};
ghost use Rattle.std.specs.Prelude.{◌≤◌, ◌<◌, length, IsTrue, IsSome};
ghost use Rattle.mp_term.specs.Size.{node_count};
ghost use Rattle.mp_pattern.specs.Fits.{Table};
ghost use Rattle.mp_ac.specs.Store.{IsStoreOf};
ghost use Rattle.mp_walk.specs.CodeForest.{leaf, code_forest};
ghost use Rattle.mp_walk.specs.Course.{Read, IsEnded};
ghost use Rattle.mp_walk.specs.CourseView.{course_of, course_to_come, token_to_come, IsCourse, IsStanding, IsLeft};
ghost use Rattle.mp_walk.specs.CourseView.{IsAtItem, IsTaken, IsBroughtOn, item_of, last_instr};
ghost use Rattle.mp_walk.specs.CourseVisits.{course_visits, token_visits, IsFewer};
ghost use Rattle.mp_walk.specs.Entries.{IsEntryAt};
ghost use Rattle.mp_walk.specs.Forests.{put_out, walk};
ghost use Rattle.mp_walk.specs.InstrView.{plain_instr};
ghost use Rattle.mp_walk.specs.Instrs.{instr_at};
ghost use Rattle.mp_walk.specs.Levels.{read_of};
ghost use Rattle.mp_walk.specs.TokenMachine.{token_steps, token_ends, begin_state};
ghost use Rattle.mp_walk.specs.Setting.{IsSetting};
ghost use Rattle.mp_table.specs.Table.{subject_of};
ghost use Rattle.mp_walk.specs.WalkView.{IsFirstTarget};

use crate::code::Code;
use crate::entries::entry_among;
use crate::fewest::fewest;
use crate::frame::Frame;
use crate::instr::Instr;
use crate::level::Level;
use crate::opening::opened;
use crate::reading::read;
use crate::setting::Setting;
use crate::steps::{is_spent, way_from};
use mp_ac::CommStore;
use mp_pattern::{MAX_VARIABLES, NetToken};
use mp_subst::Trail;
use mp_table::Rank;
use mp_term::{MAX_TERM_NODES, Memory};
use std::alloc::Global;

// What a turn comes to: it goes on, an item is found, or nothing is left.
#[derive(Clone, Copy)]
pub(crate) enum Turn {
    On,
    Found,
    Ended,
}

// The allocator; what a walk goes by; the trail; the frames; the tokens that are read; what their searches have in
// common; the place of the innermost open operation; and the instruction that is to be tried there.
#[derive(Drop)]
pub(crate) struct Course<'a> {
    pub(crate) alloc: Global,
    pub(crate) set: Setting<'a>,
    pub(crate) trail: Trail,
    pub(crate) frames: Vec<Frame<'a>>,
    pub(crate) levels: Vec<Level<'a>>,
    pub(crate) store: CommStore,
    pub(crate) place: Option<usize>,
    pub(crate) target: Option<u32>,
}

// There is room for so many frames and tokens at first.
const FEW: usize = 16;

// The first instruction, where there is one.
fn first_target(code: &Code) -> Option<u32>
    ensures { IsFirstTarget code.now.instrs result }
{
    if code.len() == 0 { None } else { Some(1) }
}

impl<'a> Course<'a> {
    // The course before its first turn.
    pub(crate) fn begin(alloc: Global, set: Setting<'a>) -> Result<Course<'a>, Memory>
        requires setting { IsSetting set }
        requires nodes { node_count (subject_of set.table.now) ≤ MAX_TERM_NODES }
        ensures course { IfOk result IsCourse }
        ensures setting { IfOk result (λ c. c.set ≡ set.entry) }
        ensures to_come { IfOk result (λ c. course_to_come c
            ≡ walk (token_steps set.entry.sig.now) token_ends (code_forest set.entry.code.now.instrs)
            (begin_state (subject_of set.entry.table.now)) []) }
    {
        let root = set.table.root();
        let nodes = set.table.nodes(root) as u32;
        let trail = Trail::new(alloc, MAX_VARIABLES as u32, nodes + set.code.room + 3)?;
        let mut frames = Vec::with_capacity(alloc, FEW)?;
        frames.push(Frame::root(set.table))?;
        let levels = Vec::with_capacity(alloc, FEW)?;
        let target = first_target(set.code);
        Ok(Course {
            alloc,
            set,
            trail,
            frames,
            levels,
            store: CommStore::new(alloc),
            place: Some(0),
            target,
        })
    }

    // An instruction that is read accepts here: it accepts something, and only the root is open, and done.
    fn accepts(&self, instr: &Instr) -> bool
        requires { IsCourse self.now }
        ensures { (n : ℕ) (before : Table) → put_out (token_steps self.now.set.sig.now) token_ends
            (leaf n instr.now.accepts) (course_of self.now).present before ≡ (if result then (n, before) ∷ [] else []) }
    {
        if instr.accepts.len() == 0 {
            return false;
        }
        let Some(place) = self.place else {
            return false;
        };
        let frame = &self.frames[place];
        frame.outer.is_none() && frame.is_done(self.set.table)
    }

    // Leaves a token behind, and goes on to what stands beside it.
    fn go_over(&mut self, level: &Level<'a>, instr: &Instr)
        requires left { IsLeft self.old level.now (plain_instr instr.now) }
        requires store { IsStoreOf self.old.set.table.now self.old.set.code.now.plans.plans self.old.store }
        ensures course { IsCourse self.new }
        ensures to_come { course_to_come self.new ≡ token_to_come self.old
            (read_of self.old.set.table.now self.old.frames.items self.old.trail level.now) }
        ensures less { course_visits self.new < token_visits self.old
            (read_of self.old.set.table.now self.old.frames.items self.old.trail level.now) }
        ensures setting { self.new.set ≡ self.old.set }
    {
        self.place = level.place;
        self.target = instr.over;
    }

    // Nothing is left of a token that is read, as is told without the trail, and nothing stands beside it.
    #[inline(always)]
    fn is_ended(&self, level: &Level<'a>, instr: &Instr) -> bool
        requires standing { IsStanding self.now level.now }
        requires instr { instr_at self.now.set.code.now.instrs level.now.instr ≡ Some (plain_instr instr.now) }
        ensures { IsTrue result → IsEnded self.now.set.sig.now self.now.set.code.now.instrs
            (read_of self.now.set.table.now self.now.frames.items self.now.trail level.now) }
    {
        instr.over.is_none()
            && is_spent(
                self.set,
                &self.frames,
                level.place,
                &instr.token,
                level.next,
            )
    }

    // Goes on below a token whose step is taken.
    #[inline(always)]
    fn go_down(&mut self, level: Level<'a>, instr: &Instr) -> Result<Turn, Memory>
        requires taken { (before : Read) × IsTaken self.old before level (plain_instr instr.now) }
        requires store { IsStoreOf self.old.set.table.now self.old.set.code.now.plans.plans self.old.store }
        ensures turn { IfOk result (λ turn. (before : Read)
            → IsTaken self.old before level.entry (plain_instr instr.now)
            → IsBroughtOn (token_to_come self.old before) turn self.new) }
        ensures less { IfOk result (λ turn. (before : Read)
            → IsTaken self.old before level.entry (plain_instr instr.now)
            → IsFewer (course_visits self.new) (token_visits self.old before) turn) }
        ensures setting { self.new.set ≡ self.old.set }
    {
        let Some(place) = level.place else {
            unreachable!()
        };
        let Setting { sig, table, .. } = self.set;
        let way = level.next.saturating_sub(1);
        let mut level = level;
        level.ended = self.is_ended(&level, instr);
        self.levels.push(level)?;
        self.frames.reserve(2)?;
        self.place = opened(sig, table, &instr.token, place, way, &mut self.frames);
        self.target = instr.down;
        Ok(if self.accepts(instr) {
            Turn::Found
        } else {
            Turn::On
        })
    }

    // Reads on a token that comes after the levels.
    fn read_on(&mut self, level: Level<'a>) -> Result<Turn, Memory>
        requires standing { IsStanding self.old level }
        requires store { IsStoreOf self.old.set.table.now self.old.set.code.now.plans.plans self.old.store }
        ensures turn { IfOk result (λ turn. IsBroughtOn (token_to_come self.old
            (read_of self.old.set.table.now self.old.frames.items self.old.trail level.entry)) turn self.new) }
        ensures less { IfOk result (IsFewer (course_visits self.new) (token_visits self.old
            (read_of self.old.set.table.now self.old.frames.items self.old.trail level.entry))) }
        ensures setting { self.new.set ≡ self.old.set }
    {
        let mut level = level;
        let Setting { code, .. } = self.set;
        let Some(instr) = code.instr(level.instr) else {
            unreachable!()
        };
        self.frames.truncate(level.frames);
        let found = read(
            self.alloc,
            self.set,
            &self.frames,
            instr,
            &mut level,
            &mut self.store,
            &mut self.trail,
        )?;
        if found {
            return self.go_down(level, instr);
        }
        self.go_over(&level, instr);
        Ok(Turn::On)
    }

    // Reads the token of an instruction of which nothing is read yet, as one that is read on.
    fn read_new(&mut self, number: u32) -> Result<Turn, Memory>
        requires course { IsCourse self.old }
        requires target { self.old.target ≡ Some number }
        ensures turn { IfOk result (λ turn. IsBroughtOn (course_to_come self.old) turn self.new) }
        ensures less { IfOk result (IsFewer (course_visits self.new) (course_visits self.old)) }
        ensures setting { self.new.set ≡ self.old.set }
    {
        let level = Level {
            instr: number,
            ended: false,
            place: self.place,
            frames: self.frames.len(),
            mark: self.trail.mark(),
            next: 0,
            search: None,
        };
        self.read_on(level)
    }

    // Reads the token of an instruction of which nothing is read yet: nothing is set up for one that reads nothing.
    fn read_first(&mut self, number: u32) -> Result<Turn, Memory>
        requires course { IsCourse self.old }
        requires target { self.old.target ≡ Some number }
        ensures turn { IfOk result (λ turn. IsBroughtOn (course_to_come self.old) turn self.new) }
        ensures less { IfOk result (IsFewer (course_visits self.new) (course_visits self.old)) }
        ensures setting { self.new.set ≡ self.old.set }
    {
        let Setting { sig, code, table } = self.set;
        let Some(instr) = code.instr(number) else {
            unreachable!()
        };
        if let NetToken::Comm(_) = &instr.token {
            return self.read_new(number);
        }
        let Some(place) = self.place else {
            self.target = instr.over;
            return Ok(Turn::On);
        };
        let mark = self.trail.mark();
        let frame = &self.frames[place];
        let from = fewest(self.set, frame, instr);
        let Some(way) = way_from(sig, table, frame, &instr.token, from, &mut self.trail) else {
            self.target = instr.over;
            return Ok(Turn::On);
        };
        let level = Level {
            instr: number,
            ended: false,
            place: self.place,
            frames: self.frames.len(),
            mark,
            next: way + 1,
            search: None,
        };
        self.go_down(level, instr)
    }

    // The last token that is read of which something may be left, or beside which something stands. Those behind it are
    // taken back.
    fn last_open(&mut self) -> Option<Level<'a>>
        requires course { IsCourse self.old }
        requires target { self.old.target ≡ None }
        ensures open { MatchOption result (course_to_come self.old ≡ []) (λ l. IsStanding self.new l
            × (token_to_come self.new (read_of self.new.set.table.now self.new.frames.items self.new.trail l)
            ≡ course_to_come self.old)
            × (token_visits self.new (read_of self.new.set.table.now self.new.frames.items self.new.trail l)
            ≤ course_visits self.old)) }
        ensures store { IsStoreOf self.new.set.table.now self.new.set.code.now.plans.plans self.new.store }
        ensures setting { self.new.set ≡ self.old.set }
    {
        while let Some(level) = self.levels.pop() {
            if !level.ended {
                return Some(level);
            }
        }
        None
    }

    // Reads on a token of which something is read.
    fn read_again(&mut self, level: Level<'a>) -> Result<Turn, Memory>
        requires standing { IsStanding self.old level }
        requires store { IsStoreOf self.old.set.table.now self.old.set.code.now.plans.plans self.old.store }
        ensures turn { IfOk result (λ turn. IsBroughtOn (token_to_come self.old
            (read_of self.old.set.table.now self.old.frames.items self.old.trail level.entry)) turn self.new) }
        ensures less { IfOk result (IsFewer (course_visits self.new) (token_visits self.old
            (read_of self.old.set.table.now self.old.frames.items self.old.trail level.entry))) }
        ensures setting { self.new.set ≡ self.old.set }
    {
        let Setting { code, .. } = self.set;
        let Some(instr) = code.instr(level.instr) else {
            unreachable!()
        };
        if is_spent(
            self.set,
            &self.frames,
            level.place,
            &instr.token,
            level.next,
        ) {
            self.frames.truncate(level.frames);
            self.trail.undo(level.mark);
            self.go_over(&level, instr);
            return Ok(Turn::On);
        }
        self.read_on(level)
    }

    // A symbol is to be tried.
    fn tries_symbol(&self) -> bool
        ensures { IsTrue result → IsSome self.now.target }
    {
        let Some(number) = self.target else {
            return false;
        };
        match self.set.code.key(number) {
            Some(own) => own.symbol != 0,
            None => false,
        }
    }

    // Leaves the symbols behind that are to be tried and aren't the first term that is left, as their keys tell.
    fn pass_symbols(&mut self)
        requires { IsCourse self.old }
        ensures course { IsCourse self.new }
        ensures to_come { course_to_come self.new ≡ course_to_come self.old }
        ensures visits { course_visits self.new ≤ course_visits self.old }
        ensures setting { self.new.set ≡ self.old.set }
    {
        if !self.tries_symbol() {
            return;
        }
        let Some(place) = self.place else {
            return;
        };
        let Setting { code, table, .. } = self.set;
        let first = self.frames[place].first_key(table);
        let mut target = self.target;
        while let Some(number) = target {
            let Some(own) = code.key(number) else {
                unreachable!()
            };
            if own.symbol == 0 || own.symbol == first {
                break;
            }
            target = own.over;
        }
        self.target = target;
    }

    // One turn: the next step of a token is taken, or the token is left behind.
    pub(crate) fn turn(&mut self) -> Result<Turn, Memory>
        requires { IsCourse self.old }
        ensures turn { IfOk result (λ turn. IsBroughtOn (course_to_come self.old) turn self.new) }
        ensures less { IfOk result (IsFewer (course_visits self.new) (course_visits self.old)) }
        ensures setting { self.new.set ≡ self.old.set }
    {
        match self.target {
            Some(number) => self.read_first(number),
            None => match self.last_open() {
                None => Ok(Turn::Ended),
                Some(level) => self.read_again(level),
            },
        }
    }

    // Goes on to the next item, and answers false where none is left.
    pub(crate) fn advance(&mut self) -> Result<bool, Memory>
        requires { IsCourse self.old }
        ensures found { IfOk result (λ found. MatchBool found
            (IsAtItem self.new × (course_to_come self.old ≡ item_of self.new ∷ course_to_come self.new))
            (course_to_come self.old ≡ [])) }
        ensures setting { self.new.set ≡ self.old.set }
    {
        loop {
            self.pass_symbols();
            match self.turn()? {
                Turn::On => {}
                Turn::Found => return Ok(true),
                Turn::Ended => return Ok(false),
            }
        }
    }

    // What the node of the number takes in the item at hand, and whether it is collapsed.
    pub(crate) fn entry(&self, node: u32) -> Option<(&[Rank], bool)>
        requires { IsCourse self.now }
        ensures { MatchOption result (length (item_of self.now).1 ≤ node)
            (λ e. IsEntryAt self.now.set.table.now (item_of self.now).1 node (e.0.now, e.1)) }
    {
        entry_among(self.set, &self.frames, &self.levels, node)
    }

    // The number of the last instruction that is read.
    pub(crate) fn last_number(&self) -> u32
        ensures { result ≡ last_instr self.now.levels.items }
    {
        let count = self.levels.len();
        if count == 0 {
            return 0;
        }
        self.levels[count - 1].instr
    }
}
