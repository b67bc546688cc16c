//! The programs of rules, and lines of program texts.

ghost use Rattle.std.specs.Prelude.{◌≤◌};

use crate::program_rows::{BAD_LINES, DECLARED, PROGRAMS, Row};
use crate::texts::{file, parts};
use mp_gen::generate;
use mp_line::{Line, MAX_KEPT, condition_names, is_test_name, number, number_of_name, read_line};
use mp_many::Many;
use mp_pattern::{Cond, Conds};
use mp_print::TextSink;
use mp_program::{
    Format, Program, ProgramError, RuleLine, RuleTest, numbered_name, renamed_cond, rules_of,
    write_program,
};
use mp_term::{Memory, Names, Signature};
use mp_walk::Instrs;
use std::alloc::Global;
use std::process::Abort;

// What the lines of a text say that were read so far.
#[derive(Drop)]
struct Draft {
    tests: Conds,
    rules: Vec<RuleLine>,
    code: Instrs,
}

// What no lines say.
fn no_lines(alloc: Global) -> Draft {
    Draft {
        tests: Conds::new(alloc),
        rules: Vec::new(alloc),
        code: Instrs::new(alloc),
    }
}

// The number of the instruction behind these.
fn next_number(rt: &impl Abort, code: &Instrs) -> u32
    ensures { 1 ≤ result }
{
    assert!(rt; code.len() <= 1000);
    code.len() as u32 + 1
}

// Adds what the line of the text says.
fn keep(rt: &impl Abort, line: Line, text: &str, draft: &mut Draft) {
    match line {
        Line::Op => assert!(rt; text.starts_with("op "), "{text}"),
        Line::Kind => assert!(rt; text.starts_with("kind "), "{text}"),
        Line::Test(test) => draft.tests.push(test).expect(rt, "memory"),
        Line::Rule(rule) => draft.rules.push(rule).expect(rt, "memory"),
        Line::Code => assert!(rt; text == "code", "{text}"),
        Line::Begin(first) => assert!(rt; first.is_none() == text.ends_with(" -"), "{text}"),
        Line::Instr(instr) => draft.code.push(instr).expect(rt, "memory"),
        Line::Stop => assert!(rt; text.ends_with(" stop"), "{text}"),
    }
}

// The line of the text, where the next instruction has the number.
fn line_of(
    rt: &impl Abort,
    alloc: Global,
    sig: &Signature,
    format: Format,
    own: u32,
    text: &str,
) -> Option<Line>
    requires { 1 ≤ own }
{
    assert!(rt; text.len() <= 1000, "{text}");
    read_line(alloc, sig, format, own, text.as_bytes()).expect(rt, "memory")
}

// Adds what the line of the text says, behind those that were read.
fn add_line(
    rt: &impl Abort,
    alloc: Global,
    sig: &Signature,
    format: Format,
    text: &str,
    draft: &mut Draft,
) {
    let own = next_number(rt, &draft.code);
    let line = line_of(rt, alloc, sig, format, own, text);
    keep(rt, line.expect(rt, text), text, draft);
}

// What the lines say behind the first one.
fn read(rt: &impl Abort, alloc: Global, sig: &Signature, format: Format, text: &str) -> Box<Draft> {
    let mut draft = Box::new(alloc, no_lines(alloc)).expect(rt, "memory");
    for text in parts(rt, text, "\n").1.lines() {
        add_line(rt, alloc, sig, format, text, &mut draft);
    }
    draft
}

// The program that lines say: its tests are those of the test lines, or else those of the rule lines.
fn program(rt: &impl Abort, alloc: Global, sig: &Signature, draft: Draft) -> Program {
    let Draft { tests, rules, code } = draft;
    let (rules, spelled) = rules_of(alloc, sig, rules).expect(rt, "memory");
    let tests = if tests.len() == 0 { spelled } else { tests };
    Program { rules, tests, code }
}

// Stops unless the program is printed as the text.
fn check_text(rt: &impl Abort, alloc: Global, sig: &Signature, program: &Program, text: &str) {
    assert!(rt; program.code.len() <= 1000, "{text}");
    let mut sink = TextSink::new(alloc);
    assert!(rt; write_program(sig, program, &mut sink).is_ok(), "{text}");
    assert!(rt; sink.content() == text.as_bytes(), "{text}");
}

// Stops unless the lines of a text of the format stand for the program of the text in format 2.
fn check_lines(
    rt: &impl Abort,
    alloc: Global,
    sig: &Signature,
    format: Format,
    text: &str,
    printed: &str,
) {
    let draft = read(rt, alloc, sig, format, text);
    check_text(
        rt,
        alloc,
        sig,
        &program(rt, alloc, sig, Box::into_inner(draft)),
        printed,
    );
}

// The text of the row's program in format 2.
fn numbered_text(rt: &impl Abort, alloc: Global, row: &Row) -> String {
    let Row {
        declared,
        numbered,
        code,
        ..
    } = row;
    format!(in alloc; "matchpy program 2\n{declared}{numbered}{code}").expect(rt, "memory")
}

// Stops unless the program of the row's rules is that of its text.
fn check_row(rt: &impl Abort, alloc: Global, row: &Row) {
    let file = file(rt, alloc, row.rules);
    let many = Many::build(alloc, &file.sig, &file.rules).expect(rt, "memory");
    let program = generate(alloc, &many).expect(rt, "memory");
    let text = numbered_text(rt, alloc, row);
    check_text(rt, alloc, &file.sig, &program, text.as_str());
    let count = file.rules.len();
    assert!(rt;
        program.rules.len() == count && program.rules.get(count).is_none(),
        "{}",
        row.rules
    );
}

// Stops unless the texts of the row are read as its program.
fn check_read(rt: &impl Abort, alloc: Global, row: &Row) {
    let file = file(rt, alloc, row.rules);
    let two = numbered_text(rt, alloc, row);
    let two = two.as_str();
    check_lines(rt, alloc, &file.sig, Format::Two, two, two);
    if let Some(spelled) = row.spelled {
        let one = format!(in alloc;
            "matchpy program 1\n{}{spelled}{}",
            row.declared, row.code
        ).expect(rt, "memory");
        check_lines(rt, alloc, &file.sig, Format::One, one.as_str(), two);
    }
}

// The names of the variables of a condition, a blank behind each.
fn names_of(rt: &impl Abort, alloc: Global, cond: &Cond) -> String {
    let mut names = Vec::new(alloc);
    condition_names(cond, &mut names).expect(rt, "memory");
    let mut text = String::new(alloc);
    for name in names {
        text.push_str(str::from_utf8(name.bytes()).expect(rt, "bytes"))
            .expect(rt, "memory");
        text.push_str(" ").expect(rt, "memory");
    }
    text
}

// Stops unless the condition has the names, and as one of a rule with these variables the numbered ones.
fn check_names(
    rt: &impl Abort,
    alloc: Global,
    vars: &Names,
    cond: &Cond,
    names: &str,
    numbered: &str,
) {
    assert!(rt; names_of(rt, alloc, cond).as_str() == names, "{names}");
    let renamed = renamed_cond(alloc, vars, cond).expect(rt, "memory");
    let renamed = Box::new(alloc, renamed).expect(rt, "memory");
    assert!(rt;
        names_of(rt, alloc, &renamed).as_str() == numbered,
        "{numbered}"
    );
}

// Stops unless the text is the rule line of a condition with the names, which are renamed to the numbered ones.
fn check_rule(
    rt: &impl Abort,
    alloc: Global,
    sig: &Signature,
    text: &str,
    names: &str,
    numbered: &str,
) {
    match line_of(rt, alloc, sig, Format::One, 1, text) {
        Some(Line::Rule(rule)) => match &rule.test {
            RuleTest::Spelled(cond) => check_names(
                rt,
                alloc,
                &rule.vars,
                cond.get(),
                names,
                numbered,
            ),
            _ => panic!(rt; "no condition: {text}"),
        },
        _ => panic!(rt; "no rule: {text}"),
    }
}

// How many names of variables are kept of the rule line.
fn kept(rt: &impl Abort, alloc: Global, sig: &Signature, text: &str) -> usize {
    match line_of(rt, alloc, sig, Format::Two, 1, text) {
        Some(Line::Rule(rule)) => rule.vars.len(),
        _ => panic!(rt; "no rule: {text}"),
    }
}

// Whether words are numbers, and names are numbered, as they should.
fn are_numbers() -> bool {
    number(b"0") == Some(0)
        && number(b"4294967295") == Some(u32::MAX)
        && number(b"4294967296").is_none()
        && number(b"00").is_none()
        && number(b"").is_none()
        && number_of_name(b"v10") == Some(10)
        && number_of_name(b"v010").is_none()
        && number_of_name(b"w1").is_none()
        && is_test_name(b"v0")
        && is_test_name(b"v31")
        && !is_test_name(b"v32")
        && !is_test_name(b"x")
}

#[test]
fn rules_have_their_programs(rt: HostRuntime) {
    for row in PROGRAMS {
        check_row(&rt, rt.alloc(), row);
    }
}

#[test]
fn the_lines_of_programs_are_read_in_both_formats(rt: HostRuntime) {
    for row in PROGRAMS {
        check_read(&rt, rt.alloc(), row);
    }
}

#[test]
fn other_texts_are_no_lines(rt: HostRuntime) {
    let file = file(&rt, rt.alloc(), DECLARED);
    for (format, text) in BAD_LINES {
        assert!(rt;
            line_of(&rt, rt.alloc(), &file.sig, *format, 3, text).is_none(),
            "{text}"
        );
    }
}

#[test]
fn variables_are_numbered_by_their_places(rt: HostRuntime) {
    let file = file(&rt, rt.alloc(), "op f 2;");
    let rule = "rule r x y if less($y, $x) and count($y) > size($z);";
    check_rule(&rt, rt.alloc(), &file.sig, rule, "y x y z ", "v1 v0 v1 v2 ");
    let vars = "rule r a b c d e f g h i j k l m n o p q r s t u v w x y z A B C D E F G H I J;";
    assert!(rt; kept(&rt, rt.alloc(), &file.sig, vars) == MAX_KEPT && MAX_KEPT == 33);
    let name = numbered_name(rt.alloc(), u32::MAX).expect(&rt, "memory");
    assert!(rt; name.bytes() == b"v4294967295".as_slice() && are_numbers());
}

#[test]
fn want_of_memory_is_a_fault_of_programs(rt: HostRuntime) {
    assert!(rt; matches!(ProgramError::from(Memory), ProgramError::Memory));
}
