//! The engine `net`.

ghost use Rattle.std.specs.Prelude.{◌≡◌, IfOk};
ghost use Rattle.mp_term.specs.View.{tree};
ghost use Rattle.mp_pattern.specs.Lists.{IsAllList};
ghost use Rattle.mp_pattern.specs.SoundRule.{IsSoundTerm};
ghost use Rattle.mp_pattern.specs.declared.limits.TheConstants.{MAX_TERM_NODES};

use mp_io::{Sink, Writer};
use mp_matches::{Matcher, Told, put_pairs};
use mp_net::{Nets, Probe};
use mp_subst::Pairs;
use mp_table::Table;
use mp_term::{Memory, Name, Signature, Term, Terms};
use mp_text::Subject;
use std::alloc::Global;

/// Nets of rules, which find all that the rules admit on a subject.
#[derive(Drop)]
pub struct NetMatcher<'a> {
    pub nets: Nets<'a>,
}

// All that the rules of the nets admit on the subject.
fn pairs(alloc: Global, nets: &Nets<'_>, sig: &Signature, subject: &Term) -> Result<Pairs, Memory>
    requires over { sig.now ≡ nets.now.sig }
    requires sound { IsSoundTerm sig.now MAX_TERM_NODES (tree subject.now) }
    ensures { IfOk result (IsAllList nets.now.sig nets.now.rules (tree subject.now)) }
{
    let table = Table::build(alloc, sig, subject, &Terms::new(alloc))?;
    let mut probe = Probe::new(&table);
    nets.matches(alloc, &mut probe)
}

impl Matcher for NetMatcher<'_> {
    ghost signature = { λ m. m.nets.sig };

    ghost finds = { λ m. IsAllList m.nets.sig m.nets.rules };

    fn put<O: Sink>(
        &self,
        alloc: Global,
        sig: &Signature,
        names: &[&Name],
        subject: &Subject,
        left: &mut Option<u32>,
        out: &mut Writer<'_, O>,
    ) -> Result<Told, Memory> {
        let pairs = pairs(alloc, &self.nets, sig, &subject.term)?;
        Ok(put_pairs(sig, &(), names, subject, pairs.as_slice(), left, out))
    }
}
