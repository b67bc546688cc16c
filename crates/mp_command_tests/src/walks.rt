//! What walks give on subjects, and what the rules admit.

ghost use Rattle.std.specs.Prelude.{◌≡◌, IfOk, IsSome};
ghost use Rattle.mp_text.specs.File.{file_tree, subject_tree};
ghost use Rattle.mp_text.specs.Sound.{IsSoundFile, IsSoundSubject};
ghost use Rattle.mp_many.specs.Many.{IsWalkTable};

use crate::texts::{check_lines, check_pairs, file, sink, write_line};
use crate::walk_rows::{ROWS, Row};
use mp_io::MemorySink;
use mp_many::{Many, Walk};
use mp_table::Table;
use mp_term::Memory;
use mp_text::{File, Subject};
use std::alloc::Global;
use std::process::Abort;

// The table of a subject for walks over the rules.
fn table(alloc: Global, many: &Many<'_>, subject: &Subject) -> Result<Table, Memory>
    requires { IsSoundSubject many.now.sig (subject_tree subject.now) }
    ensures { IfOk result (IsWalkTable many.now) }
{
    let constants = many.constants(alloc)?;
    Ok(Table::build(alloc, many.sig(), &subject.term, &constants)?)
}

// Whether the root takes one term, and the pattern has fewer than 200 nodes.
fn has_entries(walk: &Walk<'_>) -> bool
    requires { IsSome walk.now.item }
{
    match walk.entry(0) {
        Some((ranks, _)) => ranks.len() == 1 && walk.entry(200).is_none(),
        None => false,
    }
}

// Writes the line of the item of the walk.
fn write_item(
    rt: &impl Abort,
    alloc: Global,
    many: &Many<'_>,
    walk: &Walk<'_>,
    sink: &mut MemorySink,
)
    requires { IsSome walk.now.item }
{
    assert!(rt; has_entries(walk));
    let subst = walk.subst(alloc).expect(rt, "memory");
    write_line(rt, alloc, many.sig(), walk.rule(), &subst, sink);
}

// Stops unless the walk gives exactly the items of the lines, in any order, and then ends.
fn check_walk(rt: &impl Abort, alloc: Global, many: &Many<'_>, table: &Table, lines: &str)
    requires { IsWalkTable many.now table.now }
{
    let mut walk = Walk::begin(alloc, many, table).expect(rt, "memory");
    let mut sink = sink(rt, alloc);
    for _ in lines.lines() {
        assert!(rt; walk.next().expect(rt, "memory"), "{lines}");
        write_item(rt, alloc, many, &walk, &mut sink);
    }
    assert!(rt; !walk.next().expect(rt, "memory"), "{lines}");
    assert!(rt; !walk.next().expect(rt, "memory"), "{lines}");
    let items = str::from_utf8(sink.content()).expect(rt, lines);
    check_lines(rt, items, lines);
}

// Stops unless walks over the rules give what is wanted on the subject of that number, and the rules admit what is
// wanted.
fn check_found(
    rt: &impl Abort,
    alloc: Global,
    many: &Many<'_>,
    file: &File,
    index: usize,
    wanted: &(&str, &str),
)
    requires sound { IsSoundFile (file_tree file.now) }
    requires over { many.now.sig ≡ file.now.sig }
{
    match file.subjects.get(index) {
        Some(subject) => {
            let table = table(alloc, many, subject).expect(rt, "memory");
            check_walk(rt, alloc, many, &table, wanted.0);
            let pairs = many.all(alloc, &table).expect(rt, "memory");
            check_pairs(rt, alloc, many.sig(), &pairs, wanted.1);
        }
        None => panic!(rt; "no subject: {index}"),
    }
}

// Stops unless the file's rules and subjects are as the row says.
fn check_row(rt: &impl Abort, alloc: Global, file: &File, row: &Row)
    requires { IsSoundFile (file_tree file.now) }
{
    let many = Many::build(alloc, &file.sig, &file.rules).expect(rt, "memory");
    for (index, wanted) in row.1.iter().enumerate() {
        check_found(rt, alloc, &many, file, index, wanted);
    }
    assert!(rt; file.subjects.len() == row.1.len(), "{}", row.0);
}

#[test]
fn walks_give_each_item_once_and_rules_admit_their_pairs_in_order(rt: HostRuntime) {
    for row in ROWS {
        check_row(&rt, rt.alloc(), &file(&rt, rt.alloc(), row.0), row);
    }
}
