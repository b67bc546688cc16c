//! What programs accept on a subject.
ghost use Rattle.std.specs.Prelude.{◌≡◌, ◌≤◌, ◌↔◌, ◌⊎◌, option_map};
ghost use Rattle.std.specs.Prelude.{Contains, IfOk, IfSome, IsSome, IsSomeAnd, OnOk};
ghost use Rattle.mp_term.specs.Listing.{In};
ghost use Rattle.mp_term.specs.Normal.{IsNormal};
ghost use Rattle.mp_term.specs.Size.{node_count};
ghost use Rattle.mp_pattern.specs.declared.limits.TheConstants.{MAX_TERM_NODES};
ghost use Rattle.mp_pattern.specs.Lists as lists;
ghost use Rattle.mp_walk.specs.Code.{IsCode};
ghost use Rattle.mp_walk.specs.Instrs.{accepts_at};
ghost use Rattle.mp_walk.specs.Ranked.{pairs_of, AreOver};
ghost use Rattle.mp_walk.specs.Walkable.{numbered_names};
ghost use Rattle.mp_walk.specs.WalkItems.{IsLeafItem};
ghost use Rattle.mp_table.specs.Table.{subject_of};
ghost use Rattle.mp_program.specs.ProgramView.{program_view, rule_view};
ghost use Rattle.mp_vm.specs.ProgramList.{IsAcceptedAt, IsGivenBy, IsPairOf, IsTestedBy, IsProgramList};
ghost use Rattle.mp_vm.specs.ProgramList.{IsProgramTable};
ghost use Rattle.mp_vm.specs.Runnable.{IsRunnable};

use crate::needs::test_of;
use mp_cond::holds;
use mp_program::{Program, ProgramRule, numbered_name};
use mp_table::Table;
use mp_term::{Memory, Names, Signature};
use mp_walk::{Code, Finds, RankedPair, Walk, named_values};
use std::alloc::Global;

// The names of the first variables: v0, v1 and so on.
fn numbered_names(alloc: Global, count: u32) -> Result<Names, Memory>
    ensures { IfOk result (λ ns. ns ≡ numbered_names count) }
{
    let mut names = Names::new(alloc);
    for number in 0..count {
        names.push(numbered_name(alloc, number)?)?;
    }
    Ok(names)
}

// The answer of the test of the rule, which is accepted at the item where the walk stands.
fn passes(
    alloc: Global,
    sig: &Signature,
    program: &Program,
    rule: &ProgramRule,
    table: &Table,
    walk: &Walk<'_>,
) -> Result<bool, Memory>
    requires sig { walk.now.sig ≡ sig.now }
    requires code { walk.now.code ≡ program.now.code }
    requires table { walk.now.table ≡ table.now }
    requires runnable { IsRunnable sig.now (program_view program.now) }
    requires normal { IsNormal sig.now (subject_of walk.now.table) }
    requires few { node_count (subject_of walk.now.table) ≤ MAX_TERM_NODES }
    requires some { IsSome walk.now.item }
    requires item { IfSome walk.now.item (IsLeafItem sig.now program.now.code (subject_of walk.now.table)) }
    requires accepts { IfSome walk.now.item (λ i. IsAcceptedAt (program_view program.now) (rule_view rule.now) i.0) }
    ensures { IfOk result (λ b. IfSome walk.now.item (λ i. IsTestedBy sig.now (program_view program.now)
        (subject_of walk.now.table) (rule_view rule.now) i b)) }
{
    let Some(test) = test_of(&program.tests, rule) else {
        return Ok(true);
    };
    let names = numbered_names(alloc, rule.vars.len() as u32)?;
    let subst = named_values(alloc, walk.trail(), table, &names)?;
    Ok(holds(sig, test, &subst))
}

// The pair of the rule of the number, which is accepted at the item where the walk stands, if its test holds.
fn admitted<'a>(
    alloc: Global,
    sig: &Signature,
    program: &'a Program,
    number: u32,
    table: &'a Table,
    walk: &Walk<'_>,
) -> Result<Option<RankedPair<'a>>, Memory>
    requires sig { walk.now.sig ≡ sig.now }
    requires code { walk.now.code ≡ program.now.code }
    requires table { walk.now.table ≡ table.now }
    requires runnable { IsRunnable sig.now (program_view program.now) }
    requires normal { IsNormal sig.now (subject_of walk.now.table) }
    requires few { node_count (subject_of walk.now.table) ≤ MAX_TERM_NODES }
    requires some { IsSome walk.now.item }
    requires item { IfSome walk.now.item (IsLeafItem sig.now program.now.code (subject_of walk.now.table)) }
    requires accepts { IfSome walk.now.item (λ i. In number (accepts_at program.now.code i.0)) }
    ensures pair { IfOk result (λ o. IfSome walk.now.item (λ i. IsPairOf sig.now (program_view program.now)
        (subject_of walk.now.table) i number (option_map (λ p. p.pair) o))) }
    ensures table { IfOk result (λ o. IfSome o (λ p. p.table ≡ table.now)) }
{
    let Some(rule) = program.rules.get(number as usize) else {
        unreachable!()
    };
    if !passes(alloc, sig, program, rule, table, walk)? {
        return Ok(None);
    }
    let pair = RankedPair::new(alloc, number, &rule.vars, table, walk.trail())?;
    Ok(Some(pair))
}

// Adds the pairs of the item at which the walk stands, where these rules are accepted.
fn add_pairs<'a>(
    alloc: Global,
    sig: &Signature,
    program: &'a Program,
    table: &'a Table,
    walk: &Walk<'_>,
    accepts: &[u32],
    found: &mut Finds<'a>,
) -> Result<(), Memory>
    requires sig { walk.now.sig ≡ sig.now }
    requires code { walk.now.code ≡ program.now.code }
    requires table { walk.now.table ≡ table.now }
    requires runnable { IsRunnable sig.now (program_view program.now) }
    requires normal { IsNormal sig.now (subject_of walk.now.table) }
    requires few { node_count (subject_of walk.now.table) ≤ MAX_TERM_NODES }
    requires some { IsSome walk.now.item }
    requires item { IfSome walk.now.item (IsLeafItem sig.now program.now.code (subject_of walk.now.table)) }
    requires accepts { IfSome walk.now.item (λ i. accepts_at program.now.code i.0 ≡ accepts.now) }
    requires over { found.old.table ≡ table.now }
    ensures pairs { OnOk result ((q : lists.Pair) → Contains found.new.pairs q
        ↔ (Contains found.old.pairs q ⊎ IsSomeAnd walk.now.item (λ i. In q.0 accepts.now
        × IsGivenBy sig.now (program_view program.now) (subject_of walk.now.table) i.0 i.1 q))) }
    ensures over { found.new.table ≡ table.now }
{
    for number in accepts {
        if let Some(pair) = admitted(alloc, sig, program, *number, table, walk)? {
            found.add(pair)?;
        }
    }
    Ok(())
}

// What the program, which may be run, accepts on the table's subject.
pub(crate) fn accepted<'a>(
    alloc: Global,
    sig: &Signature,
    program: &'a Program,
    code: &Code,
    table: &'a Table,
) -> Result<Vec<RankedPair<'a>>, Memory>
    requires runnable { IsRunnable sig.now (program_view program.now) }
    requires code { code.now.instrs ≡ program.now.code }
    requires plans { IsCode sig.now code.now }
    requires table { IsProgramTable sig.now (program_view program.now) table.now }
    ensures pairs { IfOk result
        (λ ps. IsProgramList sig.now (program_view program.now) (subject_of table.now) (pairs_of ps.items)) }
    ensures table { IfOk result (λ ps. AreOver table.now ps.items) }
{
    let mut walk = Walk::begin(alloc, sig, code, table)?;
    let mut found = Finds::new(alloc, table);
    while walk.next()? {
        let accepts = code.accepts(walk.leaf());
        add_pairs(alloc, sig, program, table, &walk, accepts, &mut found)?;
    }
    Ok(found.into_pairs())
}
