//! Reads programs.

ghost use Rattle.std.specs.Char.{is_ascii_digit};
ghost use Rattle.std.specs.List.{list_all};
ghost use Rattle.std.specs.Prelude.{◌≡◌, ◌≢◌, ◌<◌, ◌+◌, ◌-◌, ◌^◌, ◌++◌, ◌∷◌, [], List, map, length, vec_len, codes};
ghost use Rattle.std.specs.Prelude.{decimal, IfOk, IfErr, MatchOption};
ghost use Rattle.mp_io.specs.Devices.{Text};
ghost use Rattle.mp_program.specs.declared.fault.ProgramError.{ProgramError};
ghost use Rattle.mp_program.specs.declared.fault.ProgramError.TheVariants as errors;
ghost use Rattle.mp_program.specs.Form.{format_number, Form};
ghost use Rattle.mp_program.specs.FormFaults.{faults_of_declarations, faults_of_tests, faults_of_rules};
ghost use Rattle.mp_program.specs.FormFaults.{faults_of_unused};
ghost use Rattle.mp_program.specs.FormText.{lines_of, lines_text};
ghost use Rattle.mp_program.specs.Program as plain;
ghost use Rattle.mp_program.specs.ProgramOf.{rule_of, tests_of};
ghost use Rattle.mp_program.specs.ProgramView.{program_view};
ghost use Rattle.mp_program.specs.Reading.{is_numeral, IsFormOf, IsProgramOf, IsProgramFaultOf};
ghost use Rattle.mp_program.specs.RightForm.{IsRightForm};
ghost use Rattle.mp_program.specs.RuleView.{rule_line_view};
ghost use Rattle.mp_line.specs.LineTexts.{kept_line};
ghost use Rattle.mp_vm.specs.declared.stage.Stage.TheVariants as stages;
ghost use Rattle.mp_vm.specs.Checked.{Checks};
ghost use Rattle.mp_vm.specs.DraftView.{IsDraftOf};
ghost use Rattle.mp_vm.specs.FormRead.{IsNamed, IsDraftOfBytes, IsFormFault};
ghost use Rattle.mp_vm.specs.ProgramAnswers.{IsMade, IsProgramOrMemory, IsFaultOrMemory};

use crate::code::check_code;
use crate::declared::check_declarations;
use crate::draft::Draft;
use crate::lines::Lines;
use crate::rules::{check_rules, check_tests, numbered_rules};
use mp_line::MAX_KEPT;
use mp_pattern::Conds;
use mp_program::{Format, Program, ProgramError, ProgramRules, RuleLine, rules_of};
use mp_term::{Memory, Signature};
use std::alloc::Global;

// All bytes are digits.
fn all_digits(word: &[u8]) -> bool
    ensures { result ≡ list_all is_ascii_digit word.now }
{
    word.iter().all(|byte| byte.is_ascii_digit())
}

// The word is a number in decimal, however great.
fn is_number(word: &[u8]) -> bool
    ensures { result ≡ is_numeral word.now }
{
    !word.is_empty() && all_digits(word) && (word[0] != b'0' || word.len() == 1)
}

// What stands in a first line for the format.
fn format_word(line: &[u8]) -> Option<&[u8]>
    ensures { MatchOption result ((word : Text) → line.now ≢ codes "matchpy program " ++ word)
        (λ word. line.now ≡ codes "matchpy program " ++ word.now) }
{
    line.strip_prefix(b"matchpy program ")
}

// The format of the number.
fn format_named(word: &[u8]) -> Option<Format>
    ensures { MatchOption result ((word.now ≢ codes "1") × (word.now ≢ codes "2"))
        (λ f. word.now ≡ decimal (format_number f)) }
{
    if word == b"1".as_slice() {
        return Some(Format::One);
    }
    if word == b"2".as_slice() {
        return Some(Format::Two);
    }
    None
}

// The format that the first line names.
fn format_of(line: &[u8]) -> Result<Format, ProgramError>
    ensures { IsNamed line.now result }
{
    let Some(word) = format_word(line) else {
        return Err(ProgramError::BadLine { line: 1 });
    };
    match format_named(word) {
        Some(format) => Ok(format),
        None if is_number(word) => Err(ProgramError::WrongVersion),
        None => Err(ProgramError::BadLine { line: 1 }),
    }
}

// What the lines say, where all may stand there.
fn read_form(alloc: Global, sig: &Signature, bytes: &[u8]) -> Result<Draft, ProgramError>
    requires few { length bytes.now < 2 ^ 32 - 1 }
    ensures form { IfOk result (IsDraftOfBytes sig.now MAX_KEPT bytes.now) }
    ensures fault { IfErr result (λ e. (e ≡ errors.Memory → ⊥) → IsFormFault sig.now bytes.now e) }
{
    let mut lines = Lines::new(bytes);
    let Some(first) = lines.next() else {
        return Err(ProgramError::BadLine { line: 1 });
    };
    let format = format_of(first)?;
    let mut draft = Draft::new(alloc, format, bytes.len())?;
    let mut line: u32 = 2;
    while let Some(text) = lines.next() {
        if !draft.take(alloc, sig, text)? {
            return Err(ProgramError::BadLine { line });
        }
        line = line.saturating_add(1);
    }
    if draft.is_whole() && lines.rest().is_empty() {
        return Ok(draft);
    }
    Err(ProgramError::BadLine { line })
}

// The bytes of the declarations, of which there are so many behind the first line.
fn declarations(bytes: &[u8], count: usize) -> &[u8]
    ensures lines { (first : Text) (declared others : List Text)
        → lines_of bytes.now ≡ first ∷ (declared ++ others) → lines_text (lines_of bytes.now) ≡ bytes.now
        → count ≡ length (lines_text declared) → lines_of result.now ≡ declared }
    ensures few { lines_of bytes.now ≢ [] → length result.now < length bytes.now }
{
    let mut lines = Lines::new(bytes);
    let _ = lines.next();
    let rest = lines.rest();
    if count <= rest.len() {
        &rest[..count]
    } else {
        rest
    }
}

// The declarations, the tests and the rules of the bytes are right.
fn check_lines(
    alloc: Global,
    sig: &Signature,
    bytes: &[u8],
    draft: &Draft,
) -> Result<(), ProgramError>
    requires few { length bytes.now < 2 ^ 32 - 1 }
    requires read { IsDraftOfBytes sig.now MAX_KEPT bytes.now draft.now }
    ensures { (f : Form) → IsFormOf sig.now bytes.now f → Checks (faults_of_declarations sig.now f
        ++ (faults_of_tests sig.now f ++ (faults_of_rules sig.now f ++ faults_of_unused sig.now f))) result }
{
    let first_test = draft.declarations + 2;
    check_declarations(alloc, sig, declarations(bytes, draft.declared))?;
    check_tests(alloc, sig, draft.tests.as_slice(), first_test)?;
    check_rules(alloc, &draft.rules, draft.tests.len(), first_test)
}

// The rules and the tests of a program of the format, of which these are the rule lines and the test lines.
fn rules_and_tests(
    alloc: Global,
    sig: &Signature,
    format: Format,
    lines: Vec<RuleLine>,
    tests: Conds,
) -> Result<(ProgramRules, Conds), Memory>
    ensures { (f : Form) → IsRightForm sig.now f → format ≡ f.format → map rule_line_view lines.items ≡ f.rules
        → tests ≡ f.tests
        → IfOk result (λ p. (p.0 ≡ map (rule_of sig.now (tests_of sig.now f)) f.rules) × (p.1 ≡ tests_of sig.now f)) }
{
    match format {
        Format::One => rules_of(alloc, sig, lines),
        Format::Two => Ok((numbered_rules(alloc, lines)?, tests)),
    }
}

// The program of a draft whose other lines are right, if its instructions are.
fn program_of(alloc: Global, sig: &Signature, draft: Draft) -> Result<Program, ProgramError>
    requires few { draft.declarations + length draft.tests + vec_len draft.rules + length draft.code + 3 < 2 ^ 32 - 1 }
    ensures { (f : Form) → IsRightForm sig.now f → IsDraftOf MAX_KEPT draft (record { stage = stages.Stop; form = f })
        → map (kept_line MAX_KEPT) f.rules ≡ f.rules → IsMade sig.now f result }
{
    let begin_line = draft.declarations + (draft.tests.len() + draft.rules.len()) as u32 + 3;
    let Draft {
        format,
        rules,
        tests,
        begin,
        code,
        ..
    } = draft;
    let (rules, tests) = rules_and_tests(alloc, sig, format, rules, tests)?;
    check_code(
        alloc,
        sig,
        format,
        &rules,
        &tests,
        begin,
        code.as_slice(),
        begin_line,
    )?;
    Ok(Program { rules, tests, code })
}

/// Reads a program over a signature, in format 1 or 2. The text has fewer than 4,294,967,295 bytes.
///
/// The bytes are a program by `IsProgramOf` of mp_program's `specs/Reading.antt`: lines in their printed spelling in
/// which nothing is wrong. Another text has the fault that `IsProgramFaultOf` says, with its line: `WrongVersion`, the
/// first `BadLine`, or the first of `form_faults` of mp_program's `specs/FormFaults.antt`. `Memory`: memory ran out.
pub fn read_program(alloc: Global, sig: &Signature, bytes: &[u8]) -> Result<Program, ProgramError>
    requires few { length bytes.now < 2 ^ 32 - 1 }
    // What is answered is the program of the bytes.
    ensures found { IfOk result (λ p. IsProgramOf sig.now bytes.now (program_view p)) }
    // The program of the bytes is answered, unless memory runs out.
    ensures only { (p : plain.Program) → IsProgramOf sig.now bytes.now p → IsProgramOrMemory result (λ q. q ≡ p) }
    // The fault that is answered is the fault of the bytes.
    ensures fault { IfErr result (λ e. e ≢ errors.Memory → IsProgramFaultOf sig.now bytes.now e) }
    // The fault of the bytes is answered, unless memory runs out.
    ensures only_fault { (e : ProgramError) → IsProgramFaultOf sig.now bytes.now e
        → IsFaultOrMemory result (λ f. f ≡ e) }
{
    let draft = read_form(alloc, sig, bytes)?;
    check_lines(alloc, sig, bytes, &draft)?;
    program_of(alloc, sig, draft)
}
