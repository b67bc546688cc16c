//! The lists of a file, of a pattern and of a rule.

use crate::patterns::DECLARED;
use crate::reading::{file, pattern};
use mp_pattern::{Entries, Entry, Pattern, Patterns, Rule, Rules, Shape, Template, Templates};
use mp_term::{Edits, KindId, Name, Term, Terms};
use mp_text::{EditSet, EditSets, Subject, Subjects};
use std::alloc::Global;
use std::process::Abort;

// Stops unless the list has one subject.
fn check_subjects(rt: &impl Abort, subjects: &Subjects) {
    assert!(rt; subjects.len() == 1 && subjects.as_slice().len() == 1);
    assert!(rt; subjects.get(0).is_some() && subjects.get(1).is_none());
}

#[test]
fn subjects_hold_what_was_pushed(rt: HostRuntime) {
    let name = Name::new(rt.alloc(), b"s").expect(&rt, "memory");
    let term = Term::Sym(Name::new(rt.alloc(), b"a").expect(&rt, "memory"));
    let mut subjects = Subjects::new(rt.alloc());
    subjects.push(Subject { name, term }).expect(&rt, "memory");
    check_subjects(&rt, &subjects);
}

// Stops unless the list has one set, of the subject 7.
fn check_sets(rt: &impl Abort, sets: &EditSets) {
    assert!(rt; sets.len() == 1 && sets.as_slice().len() == 1 && sets.get(1).is_none());
    assert!(rt; matches!(sets.get(0), Some(EditSet { subject: 7, .. })));
}

#[test]
fn sets_of_edits_hold_what_was_pushed(rt: HostRuntime) {
    let edits = Edits::new(rt.alloc());
    let mut sets = EditSets::new(rt.alloc());
    sets.push(EditSet { subject: 7, edits })
        .expect(&rt, "memory");
    check_sets(&rt, &sets);
}

// Stops unless the list has a symbol, a wildcard of the kind 1 with a name, one with a default and no name, and no
// other.
fn check_patterns(rt: &impl Abort, patterns: &Patterns) {
    assert!(rt; patterns.len() == 3 && patterns.as_slice().len() == 3 && patterns.get(3).is_none());
    assert!(rt; matches!(patterns.get(0), Some(Pattern::Sym(_))));
    assert!(rt;
        matches!(
            patterns.get(1),
            Some(Pattern::Wild(Shape::Kind(KindId(1)), Some(_)))
        )
    );
    assert!(rt; matches!(patterns.get(2), Some(Pattern::Wild(Shape::Opt(_), None))));
}

#[test]
fn patterns_hold_what_was_pushed(rt: HostRuntime) {
    let file = file(&rt, rt.alloc(), DECLARED);
    let applied = pattern(&rt, rt.alloc(), &file.sig, "g(b, x_v, _:a)");
    match &*applied {
        Pattern::App(_, args) => check_patterns(&rt, args),
        _ => panic!(rt; "no application"),
    }
}

// Stops unless the list has two templates, the second of which is a variable.
fn check_templates(rt: &impl Abort, templates: &Templates) {
    assert!(rt; templates.len() == 2 && templates.as_slice().len() == 2);
    assert!(rt; matches!(templates.get(1), Some(Template::Var(_))) && templates.get(2).is_none());
}

#[test]
fn templates_hold_what_was_pushed(rt: HostRuntime) {
    let mut templates = Templates::new(rt.alloc());
    let name = Name::new(rt.alloc(), b"x").expect(&rt, "memory");
    templates.push(Template::Sym(name)).expect(&rt, "memory");
    let name = Name::new(rt.alloc(), b"x").expect(&rt, "memory");
    templates.push(Template::Var(name)).expect(&rt, "memory");
    check_templates(&rt, &templates);
}

// Stops unless the list has one rule of a symbol.
fn check_rules(rt: &impl Abort, rules: &Rules) {
    assert!(rt; rules.len() == 1 && rules.as_slice().len() == 1 && rules.get(1).is_none());
    assert!(rt;
        matches!(
            rules.get(0),
            Some(Rule {
                pattern: Pattern::Sym(_),
                ..
            })
        )
    );
}

#[test]
fn rules_hold_what_was_pushed(rt: HostRuntime) {
    check_rules(&rt, &file(&rt, rt.alloc(), "rule r: a;").rules);
}

#[test]
fn rules_are_pushed_into_room_that_was_made(rt: HostRuntime) {
    let mut rules = Rules::with_room(rt.alloc(), 1).expect(&rt, "memory");
    let name = Name::new(rt.alloc(), b"r").expect(&rt, "memory");
    let symbol = Name::new(rt.alloc(), b"a").expect(&rt, "memory");
    let rule = Rule {
        name,
        pattern: Pattern::Sym(symbol),
        template: None,
        condition: None,
    };
    rules.push(rule).expect(&rt, "memory");
    check_rules(&rt, &rules);
}

// Stops unless the table has one entry, of a collapsed application.
fn check_entries(rt: &impl Abort, entries: &Entries) {
    assert!(rt; entries.len() == 1 && entries.as_slice().len() == 1 && entries.get(1).is_none());
    assert!(rt;
        matches!(
            entries.get(0),
            Some(Entry {
                collapsed: true,
                ..
            })
        )
    );
}

#[test]
fn take_tables_hold_what_was_pushed(rt: HostRuntime) {
    let terms = Terms::new(rt.alloc());
    let entry = Entry {
        terms,
        collapsed: true,
    };
    let mut entries = Entries::new(rt.alloc());
    entries.push(entry).expect(&rt, "memory");
    check_entries(&rt, &entries);
}
