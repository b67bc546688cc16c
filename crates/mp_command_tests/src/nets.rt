//! What nets find on subjects, and the rules that are refused.

ghost use Rattle.std.specs.Prelude.{◌≡◌};
ghost use Rattle.mp_text.specs.File.{file_tree, subject_tree};
ghost use Rattle.mp_text.specs.Sound.{IsSoundFile, IsSoundSubject};

use crate::net_rows::{REFUSED, ROWS, Row};
use crate::texts::{check_pairs, file};
use mp_net::{NetFault, Nets, Probe};
use mp_subst::{Bindings, Pair, Pairs, Subst};
use mp_table::Table;
use mp_term::{Signature, Terms};
use mp_text::{File, Subject};
use std::alloc::Global;
use std::process::Abort;

// Stops unless the nets find the pairs of the lines on the subject, twice through one probe, and read so many nodes
// each time, at most the nodes of the subject for each net.
fn check_found(
    rt: &impl Abort,
    alloc: Global,
    sig: &Signature,
    nets: &Nets<'_>,
    subject: &Subject,
    found: &(u64, &str),
)
    requires subject { IsSoundSubject sig.now (subject_tree subject.now) }
    requires sig { nets.now.sig ≡ sig.now }
{
    let table = Table::build(alloc, sig, &subject.term, &Terms::new(alloc)).expect(rt, "memory");
    let most = u64::from(nets.groups()).saturating_mul(table.nodes(table.root()));
    let mut probe = Probe::new(&table);
    assert!(rt; probe.reads() == 0);
    let first = nets.matches(alloc, &mut probe).expect(rt, "memory");
    assert!(rt; probe.reads() == found.0 && found.0 <= most, "{}", found.1);
    let second = nets.matches(alloc, &mut probe).expect(rt, "memory");
    assert!(rt; probe.reads() == found.0.saturating_mul(2), "{}", found.1);
    check_pairs(rt, alloc, sig, &first, found.1);
    check_pairs(rt, alloc, sig, &second, found.1);
}

// Stops unless there are so many nets of the file's rules, and they find on each subject what is wanted.
fn check_row(rt: &impl Abort, alloc: Global, file: &File, row: &Row)
    requires { IsSoundFile (file_tree file.now) }
{
    let nets = Nets::build(alloc, &file.sig, &file.rules).expect(rt, row.1);
    for (index, wanted) in row.2.iter().enumerate() {
        match file.subjects.get(index) {
            Some(subject) => check_found(rt, alloc, &file.sig, &nets, subject, wanted),
            None => panic!(rt; "no subject: {index}"),
        }
    }
    assert!(rt;
        nets.groups() == row.0 && file.subjects.len() == row.2.len(),
        "{}",
        row.1
    );
}

#[test]
fn nets_find_each_pair_once_in_order_with_so_many_reads(rt: HostRuntime) {
    for row in ROWS {
        check_row(&rt, rt.alloc(), &file(&rt, rt.alloc(), row.1), row);
    }
}

#[test]
fn the_first_rule_that_is_not_syntactic_is_named(rt: HostRuntime) {
    for row in REFUSED {
        let file = file(&rt, rt.alloc(), row.1);
        match Nets::build(rt.alloc(), &file.sig, &file.rules) {
            Err(NetFault::NotSyntactic { rule }) => assert!(rt; rule == row.0, "{}", row.1),
            _ => panic!(rt; "{}", row.1),
        }
    }
}

// Stops unless each pair has the number of its place.
fn check_numbers(rt: &impl Abort, pairs: &Pairs) {
    for (index, pair) in pairs.as_slice().iter().enumerate() {
        assert!(rt; pair.rule as usize == index, "{index}");
    }
    assert!(rt; pairs.len() == 3 && pairs.get(2).is_some() && pairs.get(3).is_none());
}

#[test]
fn pairs_are_kept_in_order(rt: HostRuntime) {
    let mut pairs = Pairs::new(rt.alloc());
    assert!(rt; pairs.len() == 0 && pairs.get(0).is_none());
    for rule in 0..3 {
        let bindings = Bindings::new(rt.alloc());
        let subst = Subst { bindings };
        pairs.push(Pair { rule, subst }).expect(&rt, "memory");
    }
    check_numbers(&rt, &pairs);
}
