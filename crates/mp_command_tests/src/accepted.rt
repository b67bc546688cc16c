//! What match programs accept on subjects, as pairs, and the constants that they bring.

ghost use Rattle.mp_text.specs.File.{file_tree, subject_tree};
ghost use Rattle.mp_text.specs.Sound.{IsSoundFile, IsSoundSubject};
ghost use Rattle.mp_program.specs.ProgramView.{program_view};
ghost use Rattle.mp_program.specs.Reading.{IsValid};

use crate::texts::{check_pairs, file};
use mp_subst::Pairs;
use mp_term::{Memory, Signature};
use mp_text::{File, Subject};
use mp_vm::{Program, Runner, program_constants, read_program, run_program};
use std::alloc::Global;
use std::process::Abort;

// A file with one subject, a program, what it accepts on the subject, and how many constants it has.
const ACCEPTED: &[(&str, &str, &str, usize)] = &[
    (
        "op f 2; subject t: f(c, a);",
        "\
matchpy program 2
op f 2;
test free($v0, b);
rule r x y if [0];
rule q x;
code
0 begin down 1
1 enter f down 2 over -
2 dot v0 down 3 over -
3 dot v1 down 4 over 5
4 leave f accept 0 over -
5 sym a down 6 over -
6 leave f accept 1 over -
7 stop
",
        "0|{x -> c, y -> a}\n1|{x -> c}\n",
        2,
    ),
    (
        "op s 0+ comm; subject t: s(a, a);",
        "\
matchpy program 2
op s 0+ comm;
rule r y z;
code
0 begin down 1
1 comm s(v0__, v1___) accept 0 over -
2 stop
",
        "0|{y -> {a}, z -> {a}}\n0|{y -> {a, a}, z -> {}}\n",
        0,
    ),
];

// The pairs that the program accepts on the subject.
fn accepted(
    alloc: Global,
    sig: &Signature,
    program: &Program,
    subject: &Subject,
) -> Result<Pairs, Memory>
    requires valid { IsValid sig.now (program_view program.now) }
    requires sound { IsSoundSubject sig.now (subject_tree subject.now) }
{
    let runner = Runner::new(alloc, sig, program)?;
    let table = runner.table(alloc, &subject.term)?;
    run_program(alloc, sig, program, &table)
}

// Stops unless the program of the text accepts the pairs on the first subject, and has so many constants.
fn check_accepted(
    rt: &impl Abort,
    alloc: Global,
    file: &File,
    text: &str,
    pairs: &str,
    count: usize,
)
    requires { IsSoundFile (file_tree file.now) }
{
    assert!(rt; text.len() <= 1000, "{text}");
    let program = read_program(alloc, &file.sig, text.as_bytes()).expect(rt, text);
    let constants = program_constants(alloc, &program).expect(rt, "memory");
    assert!(rt; constants.len() == count, "{text}");
    let subject = file.subjects.get(0).expect(rt, text);
    let found = accepted(alloc, &file.sig, &program, subject).expect(rt, "memory");
    check_pairs(rt, alloc, &file.sig, &found, pairs);
}

#[test]
fn programs_accept_pairs_in_order(rt: HostRuntime) {
    for row in ACCEPTED {
        let file = file(&rt, rt.alloc(), row.0);
        check_accepted(&rt, rt.alloc(), &file, row.1, row.2, row.3);
    }
}
