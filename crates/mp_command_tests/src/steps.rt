//! One step of a term, by the call that makes it.

ghost use Rattle.std.specs.Prelude.{◌≡◌, map, None, IsTrue};
ghost use Rattle.mp_pattern.specs.RuleView.{rule_tree};
ghost use Rattle.mp_rewrite.specs.Rewritable.{AreRewriteRules};
ghost use Rattle.mp_text.specs.File.{file_tree, subject_tree};
ghost use Rattle.mp_text.specs.Sound.{IsSoundFile, IsSoundSubject};
ghost use Rattle.mp_command.specs.Outcome.{first_without_template};

use crate::texts::file;
use mp_pattern::{Rule, Rules};
use mp_print::printed_term;
use mp_rewrite::step;
use mp_term::{Signature, Term};
use mp_text::{File, Subject};
use std::alloc::Global;
use std::process::Abort;

// A file, and its first subject after one step: a dash where there is none.
const STEPS: &[(&str, &str)] = &[
    (
        "op f 1; rule inner: b -> c; rule outer: f(x_) -> $x; subject s: f(b);",
        "b",
    ),
    (
        "op f 1; rule first: f(a) -> b; rule second: f(x_) -> c; subject s: f(a);",
        "b",
    ),
    (
        "op s 0+ comm; op p 2; rule r: s(x_, y_) -> p($x, $y); subject t: s(b, a);",
        "p(a, b)",
    ),
    (
        "op f 1; op g 2; rule r: f(x_) -> $x; subject s: g(f(a), f(b));",
        "g(a, f(b))",
    ),
    ("op f 1; rule r: f(x_) -> $x; subject s: a;", "-"),
];

// Each of the rules has a template.
fn have_templates(rules: &[Rule]) -> bool
    ensures { IsTrue result → first_without_template (map rule_tree rules.now) ≡ None }
{
    for rule in rules {
        if rule.template.is_none() {
            return false;
        }
    }
    true
}

// Stops unless the term is printed so: a dash says that there is none.
fn check_term(rt: &impl Abort, alloc: Global, sig: &Signature, term: &Option<Term>, wanted: &str) {
    match term {
        None => assert!(rt; wanted == "-"),
        Some(term) => {
            let text = printed_term(alloc, sig, term).expect(rt, "memory");
            assert!(rt; text.content() == wanted.as_bytes(), "{wanted}");
        }
    }
}

// Stops unless the subject is printed so after one step by the rules.
fn check_step(
    rt: &impl Abort,
    alloc: Global,
    sig: &Signature,
    rules: &Rules,
    subject: &Subject,
    wanted: &str,
)
    requires rules { AreRewriteRules sig.now rules.now }
    requires subject { IsSoundSubject sig.now (subject_tree subject.now) }
{
    let next = step(alloc, sig, rules, &subject.term).expect(rt, wanted);
    check_term(rt, alloc, sig, &next, wanted);
}

// Stops unless the rules of the file have templates, and its first subject is printed so after one step.
fn check_first(rt: &impl Abort, alloc: Global, file: &File, wanted: &str)
    requires { IsSoundFile (file_tree file.now) }
{
    let subject = file.subjects.get(0).expect(rt, "no subject");
    if have_templates(file.rules.as_slice()) {
        check_step(rt, alloc, &file.sig, &file.rules, subject, wanted);
    } else {
        assert!(rt; false, "a rule without a template");
    }
}

#[test]
fn a_step_is_made_at_the_first_position_by_the_first_rule_that_fits(rt: HostRuntime) {
    for (text, wanted) in STEPS {
        let file = file(&rt, rt.alloc(), text);
        check_first(&rt, rt.alloc(), &file, wanted);
    }
}
