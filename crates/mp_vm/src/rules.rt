//! The tests and the rules of a program text.

ghost use Rattle.std.specs.Prelude.{◌≡◌, ◌<◌, ◌≤◌, ◌+◌, ◌^◌, ◌++◌, ◌∷◌, [], List, ℕ, length, map, drop, not};
ghost use Rattle.std.specs.Prelude.{nat_eq, bytes_eq, IfOk, IsTrue};
ghost use Rattle.std.specs.List.{list_any, list_all, AllByRecursion};
ghost use Rattle.mp_term.specs.Names.{are_distinct};
ghost use Rattle.mp_pattern.specs.CondTree as plain;
ghost use Rattle.mp_pattern.specs.CondView.{cond_tree};
ghost use Rattle.mp_pattern.specs.Firsts.{is_known, firsts_after};
ghost use Rattle.mp_pattern.specs.Value.{same_name};
ghost use Rattle.mp_program.specs.Form as form;
ghost use Rattle.mp_program.specs.FormFaults.{faults_along, test_faults, used_test, used_tests, is_bad_test};
ghost use Rattle.mp_program.specs.FormFaults.{rule_faults, unused_faults, fault_if};
ghost use Rattle.mp_program.specs.declared.fault.ProgramError.TheVariants as errors;
ghost use Rattle.mp_program.specs.ProgramView.{rule_view};
ghost use Rattle.mp_program.specs.RuleView.{rule_test, rule_line_view};
ghost use Rattle.mp_program.specs.TokenPaths.{cond_names};
ghost use Rattle.mp_line.specs.LineTexts.{kept_line};
ghost use Rattle.mp_line.specs.Named.{names_in};
ghost use Rattle.mp_vm.specs.Checked.{Checks, numbers_below};
ghost use Rattle.mp_vm.specs.NumberedRules.{named_test, numbered_rule};

use indexmap::IndexSet;
use mp_line::{MAX_KEPT, condition_names};
use mp_pattern::{Cond, MAX_VARIABLES};
use mp_print::printed_cond;
use mp_program::{ProgramError, ProgramRule, ProgramRules, RuleLine, RuleTest};
use mp_term::{Memory, Name, NameTable, Names, Signature};
use std::alloc::Global;

// Adds a text to others, or answers false where it is one of them.
fn add_new(texts: &mut NameTable, text: &[u8]) -> Result<bool, Memory>
    ensures new { IfOk result (λ b. b ≡ not (list_any (bytes_eq text.now) texts.old)) }
    ensures texts { IfOk result (λ b. IsTrue b → texts.new ≡ texts.old ++ text.now ∷ []) }
{
    if texts.index_of(text).is_some() {
        return Ok(false);
    }
    texts.push(text)?;
    Ok(true)
}

// No name, and room for so many.
fn no_names<'a>(alloc: Global, room: usize) -> Result<IndexSet<&'a [u8]>, Memory>
    ensures { IfOk result (λ names. map (λ k. k.now) names.keys ≡ []) }
{
    Ok(IndexSet::with_capacity(alloc, room)?)
}

// Adds a name to others, or answers false where it is one of them.
fn add_name<'a>(names: &mut IndexSet<&'a [u8]>, name: &'a [u8]) -> Result<bool, Memory>
    ensures new { IfOk result (λ b. b ≡ not (list_any (bytes_eq name.now) (map (λ k. k.now) names.old.keys))) }
    ensures names { IfOk result (λ b. IsTrue b
        → map (λ k. k.now) names.new.keys ≡ map (λ k. k.now) names.old.keys ++ name.now ∷ []) }
{
    Ok(names.insert(name)?)
}

// The tests are distinct. The first of them stands on this line.
pub(crate) fn check_tests(
    alloc: Global,
    sig: &Signature,
    tests: &[Cond],
    first: u32,
) -> Result<(), ProgramError>
    requires few { first + length tests.now < 2 ^ 32 }
    ensures { Checks (faults_along (test_faults sig.now) [] first (map cond_tree tests.now)) result }
{
    let mut texts = NameTable::new(alloc);
    let mut line = first;
    for test in tests {
        let text = printed_cond(alloc, sig, test)?;
        if !add_new(&mut texts, text.content())? {
            return Err(ProgramError::BadReference { line });
        }
        line += 1;
    }
    Ok(())
}

// The name is one of the names from an index on.
fn is_among(names: &Names, from: usize, name: &Name) -> bool
    ensures { result ≡ is_known same_name (drop from names.now) name.now }
{
    for index in from..names.len() {
        if let Some(other) = names.get(index) {
            if *other == *name {
                return true;
            }
        }
    }
    false
}

// No name stands twice. The names are few.
fn are_distinct(names: &Names) -> bool
    ensures { result ≡ are_distinct names.now }
{
    for index in 0..names.len() {
        if let Some(name) = names.get(index) {
            if is_among(names, index + 1, name) {
                return false;
            }
        }
    }
    true
}

// Each of the names is one of the variables.
fn are_among(names: &[&Name], vars: &Names) -> bool
    ensures { result ≡ list_all (is_known same_name vars.now) (names_in names.now) }
{
    for name in names {
        if !is_among(vars, 0, *name) {
            return false;
        }
    }
    true
}

// Each variable of the condition is one of these.
fn has_names_among(alloc: Global, cond: &Cond, vars: &Names) -> Result<bool, Memory>
    ensures { IfOk result (λ b. b ≡ list_all (is_known same_name vars.now) (cond_names (cond_tree cond.now))) }
{
    let mut names = Vec::new(alloc);
    condition_names(cond, &mut names)?;
    Ok(are_among(names.as_slice(), vars))
}

// What a line says of a test is right, where there are so many tests and the rules before use so many of them.
fn is_right_test(
    alloc: Global,
    test: &RuleTest,
    vars: &Names,
    count: usize,
    used: usize,
) -> Result<bool, Memory>
    ensures { (before : List form.RuleLine) → length (used_tests before) ≡ used
        → IfOk result (λ b. not b ≡ is_bad_test count before vars.now (rule_test test.now)) }
{
    match test {
        RuleTest::Untested => Ok(true),
        RuleTest::Tested(number) => {
            let number = *number as usize;
            Ok(number < count && number <= used)
        }
        RuleTest::Spelled(cond) => has_names_among(alloc, cond.get(), vars),
    }
}

// The line is right behind those of rules with these names, which use so many of the tests. Its name is then added.
fn add_rule<'a>(
    alloc: Global,
    line: &'a RuleLine,
    count: usize,
    used: usize,
    names: &mut IndexSet<&'a [u8]>,
) -> Result<bool, Memory>
    ensures right { (before : List form.RuleLine) → length (used_tests before) ≡ used
        → map (λ k. k.now) names.old.keys ≡ map (λ r. r.name) before → IfOk result (λ b. (n : ℕ)
        → rule_faults count before n (rule_line_view line.now) ≡ fault_if (not b) (errors.BadReference n)) }
    ensures names { IfOk result (λ b. IsTrue b
        → map (λ k. k.now) names.new.keys ≡ map (λ k. k.now) names.old.keys ++ line.now.name ∷ []) }
{
    if line.vars.len() > MAX_VARIABLES || !are_distinct(&line.vars) {
        return Ok(false);
    }
    if !is_right_test(alloc, &line.test, &line.vars, count, used)? {
        return Ok(false);
    }
    add_name(names, line.name.bytes())
}

// How many tests are used once a line has named its test, where the first ones are used before.
fn used_after(used: usize, test: &RuleTest) -> usize
    requires { AllByRecursion (λ n. n ≤ used) (used_test (rule_test test.now)) }
    ensures { firsts_after nat_eq (numbers_below used) (used_test (rule_test test.now)) ≡ numbers_below result }
{
    match test {
        RuleTest::Tested(number) if *number as usize == used => used + 1,
        _ => used,
    }
}

// The rules have distinct names, and their lines are right. The first of them stands on this line, and there are so
// many test lines. It answers how many of these are used, which are the first ones.
fn check_lines(
    alloc: Global,
    rules: &[RuleLine],
    count: usize,
    first: u32,
) -> Result<usize, ProgramError>
    requires few { first + length rules.now < 2 ^ 32 }
    ensures lines { Checks (faults_along (rule_faults count) [] first (map rule_line_view rules.now)) result }
    ensures used { IfOk result (λ used. used_tests (map rule_line_view rules.now) ≡ numbers_below used) }
{
    let mut names = no_names(alloc, rules.len())?;
    let mut used: usize = 0;
    let mut number = first;
    for line in rules {
        if !add_rule(alloc, line, count, used, &mut names)? {
            return Err(ProgramError::BadReference { line: number });
        }
        used = used_after(used, &line.test);
        number += 1;
    }
    Ok(used)
}

// The rules are right, and each test is used by one of them. The first test stands on this line, there are so many
// test lines, and the rules stand behind them. Of the variables of a rule so many are enough as a line keeps.
pub(crate) fn check_rules(
    alloc: Global,
    rules: &[RuleLine],
    count: usize,
    first: u32,
) -> Result<(), ProgramError>
    requires few { first + count + length rules.now < 2 ^ 32 }
    ensures { (rs : List form.RuleLine) (ts : List plain.Cond)
        → map rule_line_view rules.now ≡ map (kept_line MAX_KEPT) rs → length ts ≡ count
        → Checks (faults_along (rule_faults count) [] (first + count) rs
        ++ faults_along (unused_faults rs) [] first ts) result }
{
    let used = check_lines(alloc, rules, count, first + count as u32)?;
    if used < count {
        return Err(ProgramError::BadReference {
            line: first + used as u32,
        });
    }
    Ok(())
}

// The number of the test that a line names, if it names one.
fn named_test(test: &RuleTest) -> Option<u32>
    ensures { result ≡ named_test (rule_test test.now) }
{
    match test {
        RuleTest::Tested(number) => Some(*number),
        _ => None,
    }
}

// The rule of a line that spells no test.
fn numbered_rule(line: RuleLine) -> ProgramRule
    ensures { rule_view result ≡ numbered_rule (rule_line_view line) }
{
    let RuleLine { name, vars, test } = line;
    ProgramRule {
        name,
        vars,
        test: named_test(&test),
    }
}

// The rules of lines that spell no test.
pub(crate) fn numbered_rules(alloc: Global, lines: Vec<RuleLine>) -> Result<ProgramRules, Memory>
    ensures { IfOk result (λ rs. rs ≡ map numbered_rule (map rule_line_view lines.items)) }
{
    let mut rules = ProgramRules::new(alloc);
    for line in lines {
        rules.push(numbered_rule(line))?;
    }
    Ok(rules)
}
