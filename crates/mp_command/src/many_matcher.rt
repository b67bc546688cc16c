//! The engine `many`.

ghost use Rattle.std.specs.Prelude.{◌≡◌, IfOk};
ghost use Rattle.mp_pattern.specs.Lists.{IsAllList};
ghost use Rattle.mp_pattern.specs.SoundRule.{AreSoundRules};

use mp_io::{Sink, Writer};
use mp_many::Many;
use mp_matches::{Matcher, Told, put_ranked_pairs};
use mp_pattern::Rules;
use mp_table::Table;
use mp_term::{Memory, Name, Signature, Terms};
use mp_text::Subject;
use std::alloc::Global;
use std::marker::Model;

/// Rules that are walked over at once, with the terms that they bring to each table. Contracts see it as the record
/// `Many` of mp_many's `specs/Many.antt`.
#[derive(Drop)]
pub struct ManyMatcher<'a> {
    many: Many<'a>,
    constants: Terms,
}

impl<'a> Model for ManyMatcher<'a> {
    ghost use Rattle.mp_many.specs.Many as plain;
    ghost use Rattle.mp_many.specs.ManyCode.{coded_many};
    ghost use Rattle.mp_many.specs.WalkConstants.{AreWalkConstants};

    ghost Value = { plain.Many };

    ghost coded = { coded_many };

    ghost view = { λ m. m.many };

    ghost invariant = { λ m. AreWalkConstants m.many m.constants };
}

impl<'a> ManyMatcher<'a> {
    /// The rules, which must be sound over the signature, with their constants. `Memory` comes where there is no room
    /// for them.
    pub fn build(
        alloc: Global,
        sig: &'a Signature,
        rules: &'a Rules,
    ) -> Result<ManyMatcher<'a>, Memory>
        requires { AreSoundRules sig.now rules.now }
        ensures sig { IfOk result (λ m. m.sig ≡ sig.now) }
        ensures rules { IfOk result (λ m. m.rules ≡ rules.now) }
    {
        let many = Many::build(alloc, sig, rules)?;
        let constants = many.constants(alloc)?;
        Ok(ManyMatcher { many, constants })
    }
}

impl Matcher for ManyMatcher<'_> {
    ghost signature = { λ m. m.sig };

    ghost finds = { λ m. IsAllList m.sig m.rules };

    fn put<O: Sink>(
        &self,
        alloc: Global,
        sig: &Signature,
        names: &[&Name],
        subject: &Subject,
        left: &mut Option<u32>,
        out: &mut Writer<'_, O>,
    ) -> Result<Told, Memory> {
        let table = Table::build(alloc, sig, &subject.term, &self.constants)?;
        let pairs = self.many.ranked(alloc, &table)?;
        put_ranked_pairs(alloc, sig, &table, names, subject, &pairs, left, out)
    }
}
