//! The rules that rule lines stand for, and the tests that they spell.

ghost use Rattle.std.specs.Prelude.{◌≡◌, false, [], ◌∷◌, ◌++◌, length, map, flat_map, bytes_eq, IfOk, OnOk};
ghost use Rattle.std.specs.List.{list_any};
ghost use Rattle.mp_pattern.specs.CondView.{cond_tree};
ghost use Rattle.mp_pattern.specs.Firsts.{firsts_after};
ghost use Rattle.mp_print.specs.PrintedCond.{cond_text};
ghost use Rattle.mp_program.specs.ProgramOf.{same_cond, cond_place, spelled_test, test_number, rule_of};
ghost use Rattle.mp_program.specs.ProgramView.{rule_view};
ghost use Rattle.mp_program.specs.RuleView.{rule_test, rule_line_view};

use crate::program::{ProgramRule, ProgramRules};
use crate::renamed::renamed_cond;
use crate::rule_line::{RuleLine, RuleTest};
use mp_pattern::{Cond, Conds};
use mp_print::printed_cond;
use mp_term::{Memory, NameTable, Names, Signature};
use std::alloc::Global;

// The place as a number of 32 bits. `Memory` comes where a `u32` can't hold it.
fn place_number(place: usize) -> Result<u32, Memory>
    ensures { IfOk result (λ n. n ≡ place) }
{
    if place > u32::MAX as usize {
        return Err(Memory);
    }
    Ok(place as u32)
}

// Adds the condition behind the tests, and its printed text behind theirs, which doesn't stand there. The answer is its
// place. `Memory` comes where a `u32` can't hold the place.
fn add_test(
    cond: Cond,
    text: &[u8],
    texts: &mut NameTable,
    tests: &mut Conds,
) -> Result<u32, Memory>
    requires { list_any (bytes_eq text.now) texts.old ≡ false }
    ensures place { IfOk result (λ n. n ≡ length tests.old) }
    ensures tests { OnOk result (tests.new ≡ tests.old ++ cond_tree cond ∷ []) }
    ensures texts { OnOk result (texts.new ≡ texts.old ++ text.now ∷ []) }
{
    let place = place_number(tests.len())?;
    texts.push(text)?;
    tests.push(cond)?;
    Ok(place)
}

// The place of the condition among the tests, whose printed texts these are. It is added where it isn't there. `Memory`
// comes where a `u32` can't hold the place.
fn place_of(
    alloc: Global,
    sig: &Signature,
    cond: Cond,
    texts: &mut NameTable,
    tests: &mut Conds,
) -> Result<u32, Memory>
    requires { texts.old ≡ map (cond_text sig.now) tests.old }
    ensures place { IfOk result (λ n. n ≡ cond_place sig.now tests.new (cond_tree cond)) }
    ensures tests { OnOk result (tests.new ≡ firsts_after (same_cond sig.now) tests.old (cond_tree cond ∷ [])) }
    ensures texts { OnOk result (texts.new ≡ map (cond_text sig.now) tests.new) }
{
    let text = printed_cond(alloc, sig, &cond)?;
    match texts.index_of(text.content()) {
        Some(index) => place_number(index),
        None => add_test(cond, text.content(), texts, tests),
    }
}

// The number of the test of a rule with these variables. A test that it spells is added to the tests where it isn't
// there.
fn test_of(
    alloc: Global,
    sig: &Signature,
    vars: &Names,
    test: &RuleTest,
    texts: &mut NameTable,
    tests: &mut Conds,
) -> Result<Option<u32>, Memory>
    requires { texts.old ≡ map (cond_text sig.now) tests.old }
    ensures number { IfOk result (λ n. n ≡ test_number sig.now tests.new vars.now (rule_test test.now)) }
    ensures tests { OnOk result
        (tests.new ≡ firsts_after (same_cond sig.now) tests.old (spelled_test vars.now (rule_test test.now))) }
    ensures texts { OnOk result (texts.new ≡ map (cond_text sig.now) tests.new) }
{
    match test {
        RuleTest::Untested => Ok(None),
        RuleTest::Tested(number) => Ok(Some(*number)),
        RuleTest::Spelled(cond) => {
            let place = place_of(
                alloc,
                sig,
                renamed_cond(alloc, vars, cond.get())?,
                texts,
                tests,
            )?;
            Ok(Some(place))
        }
    }
}

// The rule of the line. The test that it spells is added to the tests where it isn't there.
fn rule_of(
    alloc: Global,
    sig: &Signature,
    line: RuleLine,
    texts: &mut NameTable,
    tests: &mut Conds,
) -> Result<ProgramRule, Memory>
    requires { texts.old ≡ map (cond_text sig.now) tests.old }
    ensures rule { IfOk result (λ r. rule_view r ≡ rule_of sig.now tests.new (rule_line_view line)) }
    ensures tests { OnOk result
        (tests.new ≡ firsts_after (same_cond sig.now) tests.old (spelled_test line.vars (rule_test line.test))) }
    ensures texts { OnOk result (texts.new ≡ map (cond_text sig.now) tests.new) }
{
    let test = test_of(alloc, sig, &line.vars, &line.test, texts, tests)?;
    let RuleLine { name, vars, .. } = line;
    Ok(ProgramRule { name, vars, test })
}

/// The rules of rule lines, in order, and the conditions that the lines spell, renamed, each once, in order of first
/// occurrence: of lines that spell their tests, the rules and the tests of `program_of` of `specs/ProgramOf.antt`. A
/// line that names a test by its number keeps the number. `Memory` comes where there is no room for them, or where a
/// `u32` can't hold the number of a test.
pub fn rules_of(
    alloc: Global,
    sig: &Signature,
    lines: Vec<RuleLine>,
) -> Result<(ProgramRules, Conds), Memory>
    ensures tests { IfOk result (λ p. p.1 ≡ firsts_after (same_cond sig.now) []
        (flat_map (λ r. spelled_test r.vars r.test) (map rule_line_view lines.items))) }
    ensures rules { IfOk result (λ p. p.0 ≡ map (rule_of sig.now p.1) (map rule_line_view lines.items)) }
{
    let mut texts = NameTable::new(alloc);
    let mut tests = Conds::new(alloc);
    let mut rules = ProgramRules::new(alloc);
    for line in lines {
        rules.push(rule_of(alloc, sig, line, &mut texts, &mut tests)?)?;
    }
    Ok((rules, tests))
}
