//! The engine `program`.

ghost use Rattle.mp_vm.specs.ProgramList.{IsProgramList};

use mp_io::{Sink, Writer};
use mp_matches::{Matcher, Told, put_ranked_pairs};
use mp_term::{Memory, Name, Signature};
use mp_text::Subject;
use mp_vm::Runner;
use std::alloc::Global;

/// A match program that is run on subjects.
#[derive(Drop)]
pub struct ProgramMatcher<'a> {
    pub runner: Runner<'a>,
}

impl Matcher for ProgramMatcher<'_> {
    ghost signature = { λ m. m.runner.sig };

    ghost finds = { λ m. IsProgramList m.runner.sig m.runner.program };

    fn put<O: Sink>(
        &self,
        alloc: Global,
        sig: &Signature,
        names: &[&Name],
        subject: &Subject,
        left: &mut Option<u32>,
        out: &mut Writer<'_, O>,
    ) -> Result<Told, Memory> {
        let table = self.runner.table(alloc, &subject.term)?;
        let pairs = self.runner.pairs(alloc, &table)?;
        put_ranked_pairs(alloc, sig, &table, names, subject, &pairs, left, out)
    }
}
