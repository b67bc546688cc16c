//! A program that is prepared to be run on several subjects.
ghost use Rattle.std.specs.Prelude.{◌≡◌, ◌≤◌, IfOk};
ghost use Rattle.mp_term.specs.Normal.{IsNormal};
ghost use Rattle.mp_term.specs.Size.{node_count};
ghost use Rattle.mp_term.specs.View.{tree};
ghost use Rattle.mp_pattern.specs.declared.limits.TheConstants.{MAX_TERM_NODES};
ghost use Rattle.mp_table.specs.Table.{subject_of};
ghost use Rattle.mp_walk.specs.Ranked.{pairs_of, AreOver};
ghost use Rattle.mp_program.specs.ProgramView.{program_view};
ghost use Rattle.mp_program.specs.Reading.{IsValid};
ghost use Rattle.mp_vm.specs.ProgramList.{IsProgramList, IsProgramTable};

use crate::run::accepted;
use mp_program::Program;
use mp_subst::Pairs;
use mp_table::Table;
use mp_term::{Memory, Signature, Term, Terms};
use mp_walk::{Code, RankedPair};
use std::alloc::Global;
use std::marker::Model;

/// A program that is prepared to be run on several subjects. Contracts see it as the record `Prepared` of
/// `specs/Runner.antt`: the signature and the program.
#[derive(Drop)]
pub struct Runner<'a> {
    sig: &'a Signature,
    program: &'a Program,
    code: Code,
    constants: Terms,
}

impl<'a> Model for Runner<'a> {
    ghost use Rattle.mp_vm.specs.Runner as plain;
    ghost use Rattle.mp_vm.specs.Runner.{coded_prepared};

    ghost Value = { plain.Prepared };

    ghost coded = { coded_prepared };

    ghost use Rattle.mp_vm.specs.RunnerView.{runner_view, IsRunner};

    ghost view = { runner_view };

    ghost invariant = { IsRunner };
}

impl<'a> Runner<'a> {
    /// The program, which must be valid over the signature (`IsValid` of mp_program's `specs/Reading.antt`). `Memory`
    /// comes where there is no room for a copy of its instructions, or in a table for its constants.
    pub fn new(
        alloc: Global,
        sig: &'a Signature,
        program: &'a Program,
    ) -> Result<Runner<'a>, Memory>
        requires { IsValid sig.now (program_view program.now) }
        ensures sig { IfOk result (λ r. r.sig ≡ sig.now) }
        ensures program { IfOk result (λ r. r.program ≡ program_view program.now) }
    {
        let code = Code::new(alloc, sig, program.code.copy(alloc)?)?;
        let constants = code.constants(alloc)?;
        Ok(Runner {
            sig,
            program,
            code,
            constants,
        })
    }

    /// The table of a subject, on which the program may be run (`IsProgramTable`). The subject must be normal and have
    /// at most `MAX_TERM_NODES` nodes. `Memory` comes where there is no room for the table.
    pub fn table(&self, alloc: Global, subject: &Term) -> Result<Table, Memory>
        requires normal { IsNormal self.now.sig (tree subject.now) }
        requires few { node_count (tree subject.now) ≤ MAX_TERM_NODES }
        ensures table { IfOk result (IsProgramTable self.now.sig self.now.program) }
        ensures subject { IfOk result (λ t. subject_of t ≡ tree subject.now) }
    {
        Table::build(alloc, self.sig, subject, &self.constants)
    }

    /// The pairs of a rule's number and a substitution that the program accepts on the table's subject, each once, in
    /// order (`IsProgramList` of `specs/ProgramList.antt`), with values by ranks in the table. This must be one on
    /// which the program may be run (`IsProgramTable`), as are those of `table`. `Memory` comes where there is no room
    /// for the walk or the pairs.
    pub fn pairs<'b>(
        &'b self,
        alloc: Global,
        table: &'b Table,
    ) -> Result<Vec<RankedPair<'b>>, Memory>
        requires { IsProgramTable self.now.sig self.now.program table.now }
        ensures pairs { IfOk result
            (λ ps. IsProgramList self.now.sig self.now.program (subject_of table.now) (pairs_of ps.items)) }
        ensures table { IfOk result (λ ps. AreOver table.now ps.items) }
    {
        accepted(alloc, self.sig, self.program, &self.code, table)
    }
}

/// The pairs that a `Runner` gives, with copies of their terms, as a list in the same order (`IsProgramList`). The
/// program must be valid over the signature (`IsValid`), and the table one on which it may be run (`IsProgramTable`).
/// `Memory` comes where there is no room for the walk or the pairs.
pub fn run_program(
    alloc: Global,
    sig: &Signature,
    program: &Program,
    table: &Table,
) -> Result<Pairs, Memory>
    requires valid { IsValid sig.now (program_view program.now) }
    requires table { IsProgramTable sig.now (program_view program.now) table.now }
    ensures { IfOk result (IsProgramList sig.now (program_view program.now) (subject_of table.now)) }
{
    let runner = Runner::new(alloc, sig, program)?;
    let ranked = runner.pairs(alloc, table)?;
    let mut pairs = Pairs::new(alloc);
    for pair in &ranked {
        pairs.push(pair.to_pair(alloc)?)?;
    }
    Ok(pairs)
}
