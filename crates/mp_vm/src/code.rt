//! The instructions of a program text.

ghost use Rattle.std.specs.Prelude.{◌≡◌, ◌<◌, ◌+◌, ◌-◌, ◌^◌, ◌∷◌, ◌++◌, [], ℕ, suc, List, Some, map, length};
ghost use Rattle.std.specs.Prelude.{reverse, nat_le, OnOk, option_to_list};
ghost use Rattle.std.specs.List.{list_any};
ghost use Rattle.mp_pattern.specs.CondTree as conds;
ghost use Rattle.mp_pattern.specs.NetTokens as plain;
ghost use Rattle.mp_pattern.specs.NetTokenView.{net_token};
ghost use Rattle.mp_walk.specs.Instrs.{instr_at};
ghost use Rattle.mp_walk.specs.InstrView.{plain_instr};
ghost use Rattle.mp_walk.specs.Walkable.{Path};
ghost use Rattle.mp_program.specs.FormFaults.{target_faults, code_faults, most_nodes};
ghost use Rattle.mp_program.specs.Leads.{Lead, lead, leads_after};
ghost use Rattle.mp_program.specs.Program as program;
ghost use Rattle.mp_program.specs.TokenPaths.{is_balanced};
ghost use Rattle.mp_vm.specs.Checked.{Checks};
ghost use Rattle.mp_vm.specs.Known.{IsGoodPath, IsGathered, IsMore};
ghost use Rattle.mp_vm.specs.SettingView.{IsSetting, faults_of_path, faults_of_instr, faults_behind};
ghost use Rattle.mp_vm.specs.SettingView.{HasWays};
ghost use Rattle.mp_vm.specs.TrailView.{HasTrail};
ghost use Rattle.mp_vm.specs.WayView.{AreAbove};

use crate::above::Above;
use crate::needs::{Needs, all_needs, are_met};
use crate::trail::Trail;
use crate::ways::Ways;
use mp_pattern::{Conds, MAX_PATTERN_NODES, NetToken};
use mp_program::{Format, ProgramError, ProgramRules};
use mp_term::{Memory, OpId, Signature};
use mp_walk::Instr;
use std::alloc::Global;

// What the instructions are checked against.
#[derive(Drop)]
struct Setting<'a> {
    sig: &'a Signature,
    most: u64,
    code: &'a [Instr],
    needs: Vec<Needs>,
}

// How far the check has come: the ways that are known, the path to the instruction that is checked, and room for the
// tokens of a path.
#[derive(Drop)]
struct Progress<'a> {
    ways: Ways,
    trail: Trail<'a>,
    tokens: Vec<&'a NetToken>,
}

// How many nodes a path of the format has at most.
fn most_nodes(format: Format) -> u64
    ensures { result ≡ most_nodes format }
{
    match format {
        Format::One => 64,
        Format::Two => u64::from(MAX_PATTERN_NODES),
    }
}

// The target isn't greater than the number.
fn goes_back(target: Option<u32>, number: u32) -> bool
    ensures { result ≡ list_any (λ t. nat_le t number) (option_to_list target) }
{
    match target {
        Some(other) => other <= number,
        None => false,
    }
}

// The target is the number of `stop`, where there are so many instructions, or greater.
fn goes_beyond(target: Option<u32>, count: usize) -> bool
    ensures { result ≡ list_any (nat_le (suc count)) (option_to_list target) }
{
    match target {
        Some(number) => number as usize > count,
        None => false,
    }
}

// The targets of the instruction of the number, of so many, are right.
fn check_targets(
    down: Option<u32>,
    over: Option<u32>,
    number: u32,
    count: usize,
    line: u32,
) -> Result<(), ProgramError>
    ensures { Checks (target_faults (suc count) line number (option_to_list down ++ option_to_list over)) result }
{
    if goes_back(down, number) || goes_back(over, number) {
        return Err(ProgramError::BackwardTarget { line });
    }
    if goes_beyond(down, count) || goes_beyond(over, count) {
        return Err(ProgramError::BadReference { line });
    }
    Ok(())
}

// An operation is open exactly where the instruction leads down.
fn is_balanced(open: &[OpId], leads_down: bool) -> bool
    ensures { result ≡ is_balanced (Some (reverse (map (λ f. f.0) open.now))) leads_down }
{
    if leads_down {
        !open.is_empty()
    } else {
        open.is_empty()
    }
}

impl<'a> Setting<'a> {
    // Puts together what is known of the tokens of the instruction of the number and of those above it.
    fn gather(
        &self,
        ways: &Ways,
        number: u32,
        tokens: &mut Vec<&'a NetToken>,
        known: &mut Above<'a>,
    ) -> Result<(), Memory>
        requires { self.now.most < 2 ^ 64 - 1 }
        ensures { (ks : List plain.NetToken)
            → AreAbove (map plain_instr self.now.code.now) ways.now.ways.items number ks
            → IsGoodPath self.now.sig.now self.now.most (reverse ks)
            → OnOk result (IsGathered self.now.sig.now self.now.most known.new (reverse ks)) }
    {
        tokens.clear();
        ways.add_above(self.code, number, tokens)?;
        known.gather(self.sig, self.most, tokens)
    }

    // Goes to the instruction of the number: by steps back, where they lead there.
    fn go_to(
        &self,
        ways: &Ways,
        number: u32,
        tokens: &mut Vec<&'a NetToken>,
        trail: &mut Trail<'a>,
    ) -> Result<(), Memory>
        requires { self.now.most < 2 ^ 64 - 1 }
        ensures at { OnOk result (trail.new.at ≡ number) }
        ensures trail { HasTrail self.now ways.now.ways.items trail.old
            → OnOk result (HasTrail self.now ways.now.ways.items trail.new) }
    {
        trail.go_back(number)?;
        if trail.at == number {
            return Ok(());
        }
        self.gather(ways, number, tokens, &mut trail.known)?;
        trail.start(number);
        Ok(())
    }

    // The path with the instruction behind the tokens that are known is right; its own is known then.
    fn check_known(
        &self,
        known: &mut Above<'a>,
        instr: &'a Instr,
        line: u32,
    ) -> Result<(), ProgramError>
        requires { self.now.most < 2 ^ 64 - 1 }
        ensures faults { (tests : List conds.Cond) → (rules : List program.ProgramRule) → (ks : Path)
            → IsSetting tests rules self.now → IsGathered self.now.sig.now self.now.most known.old ks
            → Checks (faults_of_path tests rules self.now line (ks ++ net_token instr.now.token ∷ [])
            (plain_instr instr.now)) result }
        ensures gathered { (ks : Path) → IsGathered self.now.sig.now self.now.most known.old ks
            → OnOk result (IsGathered self.now.sig.now self.now.most known.new (ks ++ net_token instr.now.token ∷ [])) }
        ensures more { OnOk result (IsMore (net_token instr.now.token) known.old known.new) }
    {
        if !known.add(self.sig, self.most, &instr.token)? {
            return Err(ProgramError::BadReference { line });
        }
        if !are_met(&self.needs, &known.looks, instr.accepts.as_slice()) {
            return Err(ProgramError::BadReference { line });
        }
        if !known.nest(&instr.token)? {
            return Err(ProgramError::Unbalanced { line });
        }
        if !is_balanced(&known.open, instr.down.is_some()) {
            return Err(ProgramError::Unbalanced { line });
        }
        Ok(())
    }

    // The instruction of the number is right, and its ways are added.
    fn check_instr(
        &self,
        progress: &mut Progress<'a>,
        instr: &'a Instr,
        number: u32,
        line: u32,
    ) -> Result<(), ProgramError>
        requires { self.now.most < 2 ^ 64 - 1 }
        ensures faults { (tests : List conds.Cond) → (rules : List program.ProgramRule) → (ls : List Lead) → (done : ℕ)
            → IsSetting tests rules self.now → HasWays tests rules self.now ls done progress.old.ways.ways.items
            → HasTrail self.now progress.old.ways.ways.items progress.old.trail
            → number ≡ suc done → instr_at (map plain_instr self.now.code.now) number ≡ Some (plain_instr instr.now)
            → Checks (faults_of_instr tests rules self.now line number ls (plain_instr instr.now)) result }
        ensures ways { (tests : List conds.Cond) → (rules : List program.ProgramRule) → (ls : List Lead) → (done : ℕ)
            → IsSetting tests rules self.now → HasWays tests rules self.now ls done progress.old.ways.ways.items
            → HasTrail self.now progress.old.ways.ways.items progress.old.trail
            → number ≡ suc done → instr_at (map plain_instr self.now.code.now) number ≡ Some (plain_instr instr.now)
            → OnOk result (HasWays tests rules self.now (leads_after ls number (plain_instr instr.now)) number
            progress.new.ways.ways.items) }
        ensures trail { (tests : List conds.Cond) → (rules : List program.ProgramRule) → (ls : List Lead) → (done : ℕ)
            → IsSetting tests rules self.now → HasWays tests rules self.now ls done progress.old.ways.ways.items
            → HasTrail self.now progress.old.ways.ways.items progress.old.trail
            → number ≡ suc done → instr_at (map plain_instr self.now.code.now) number ≡ Some (plain_instr instr.now)
            → OnOk result (HasTrail self.now progress.new.ways.ways.items progress.new.trail) }
    {
        check_targets(instr.down, instr.over, number, self.code.len(), line)?;
        let Some(above) = progress.ways.above(number) else {
            return Err(ProgramError::BadReference { line });
        };
        self.go_to(
            &progress.ways,
            above,
            &mut progress.tokens,
            &mut progress.trail,
        )?;
        let before = progress.trail.known.before(&instr.token);
        self.check_known(&mut progress.trail.known, instr, line)?;
        progress.trail.step(number, before)?;
        progress.ways.lead(instr.down, number);
        progress.ways.lead(instr.over, above);
        Ok(())
    }

    // The instructions are right. `begin` stands on this line.
    fn check_instrs(&self, progress: &mut Progress<'a>, line: u32) -> Result<(), ProgramError>
        requires most { self.now.most < 2 ^ 64 - 1 }
        requires few { line + length self.now.code.now < 2 ^ 32 - 1 }
        ensures { (tests : List conds.Cond) → (rules : List program.ProgramRule) → (ls : List Lead)
            → IsSetting tests rules self.now → HasWays tests rules self.now ls 0 progress.old.ways.ways.items
            → HasTrail self.now progress.old.ways.ways.items progress.old.trail
            → Checks (faults_behind tests rules self.now line 0 ls) result }
    {
        let mut number: u32 = 0;
        for instr in self.code {
            number += 1;
            self.check_instr(progress, instr, number, line + number)?;
        }
        Ok(())
    }
}

// The instructions are right, `begin` among them, which stands on this line.
pub(crate) fn check_code(
    alloc: Global,
    sig: &Signature,
    format: Format,
    rules: &ProgramRules,
    tests: &Conds,
    begin: Option<u32>,
    code: &[Instr],
    line: u32,
) -> Result<(), ProgramError>
    requires { line + length code.now < 2 ^ 32 - 1 }
    ensures { Checks (target_faults (suc (length code.now)) line 0 (option_to_list begin)
        ++ code_faults sig.now (most_nodes format) tests.now rules.now (suc (length code.now)) (suc line) 1
        (lead [] begin) (map plain_instr code.now)) result }
{
    check_targets(begin, None, 0, code.len(), line)?;
    let needs = all_needs(alloc, rules, tests)?;
    let mut ways = Ways::new(alloc, code.len())?;
    ways.lead(begin, 0);
    let setting = Setting {
        sig,
        most: most_nodes(format),
        code,
        needs,
    };
    let mut progress = Progress {
        ways,
        trail: Trail::new(alloc),
        tokens: Vec::new(alloc),
    };
    setting.check_instrs(&mut progress, line)
}
