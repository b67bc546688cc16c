//! What finds pairs on a subject, and puts their lines.

ghost use Rattle.std.specs.Prelude.{◌≡◌, ◌++◌, List, ⊤};
ghost use Rattle.mp_io.specs.Devices.{Text};
ghost use Rattle.mp_io.specs.Writing.{Puts};
ghost use Rattle.mp_term.specs.Signature.{Sig};
ghost use Rattle.mp_term.specs.Tree.{Tree};
ghost use Rattle.mp_pattern.specs.Lists.{Pair as PlainPair};
ghost use Rattle.mp_print.specs.Printing.{subst_text};
ghost use Rattle.mp_subst.specs.View.{pair_of};
ghost use Rattle.mp_text.specs.File.{subject_tree};
ghost use Rattle.mp_text.specs.Sound.{IsSoundSubject};
ghost use Rattle.mp_matches.specs.PairsListed.{AreSubjectLines, front_lines, named};
ghost use Rattle.mp_matches.specs.PrintedPairs.{PutsWithMemory};

use crate::ranked::put_ranked;
use crate::told::Told;
use mp_io::{Sink, Writer};
use mp_print::{RankTexts, put_subst};
use mp_subst::Pair;
use mp_term::{Memory, Name, Signature};
use mp_text::Subject;
use mp_walk::RankedPair;
use std::alloc::Global;

/// A pair of a rule and a substitution that can be printed. `B` is what its values stand on: values by ranks stand on
/// a table and the texts of its terms, and values of terms stand on nothing, which is `()`.
pub trait Line<B> {
    /// The pair.
    ghost pair: { Self → PlainPair };

    /// The pair may be printed over this signature and this base.
    ghost may_put: { Sig → B → Self → Type 0 };

    /// The rule's number.
    fn rule(&self) -> u32
        ensures { result ≡ (pair self.now).0 };

    /// Puts the text of the substitution, which must be one that may be printed so (`may_put`).
    fn put<K: Sink>(&self, sig: &Signature, base: &B, out: &mut Writer<'_, K>)
        requires { may_put sig.now base.now self.now }
        ensures { Puts K.Sink out.old out.new (subst_text sig.now (pair self.now).1) };
}

impl Line<()> for Pair {
    ghost pair = { pair_of };

    ghost may_put = { λ _ _ _. ⊤ };

    fn rule(&self) -> u32 {
        self.rule
    }

    fn put<K: Sink>(&self, sig: &Signature, base: &(), out: &mut Writer<'_, K>) {
        let _ = base;
        put_subst(sig, &self.subst, out);
    }
}

impl<'t> Line<RankTexts<'t>> for RankedPair<'_> {
    ghost pair = { λ p. p.pair };

    ghost may_put = { λ sig b p. (b.sig ≡ sig) × (p.table ≡ b.table) };

    fn rule(&self) -> u32
        ensures { result ≡ self.now.pair.0 }
    {
        RankedPair::rule(self)
    }

    fn put<K: Sink>(&self, sig: &Signature, base: &RankTexts<'t>, out: &mut Writer<'_, K>) {
        // The base has the signature.
        let _ = sig;
        put_ranked(base, self, out);
    }
}

/// What finds pairs of a rule and a substitution on one subject after the other, over a signature.
pub trait Matcher {
    /// The signature.
    ghost signature: { Self → Sig };

    /// Which pairs are found on a subject, as a list.
    ghost finds: { Self → Tree → List PlainPair → Type 0 };

    /// Puts a line for each pair that is found on the subject, in order, as many as may be, and says whether there are
    /// any (`AreSubjectLines` and `front_lines` of `specs/PairsListed.antt`). The signature must be the matcher's, and
    /// the subject sound over it (`IsSoundSubject` of mp_text's `specs/Sound.antt`). The rules have these names.
    ///
    /// `Memory`: memory ran out. A front of the lines is put then.
    fn put<O: Sink>(
        &self,
        alloc: Global,
        sig: &Signature,
        names: &[&Name],
        subject: &Subject,
        left: &mut Option<u32>,
        out: &mut Writer<'_, O>,
    ) -> Result<Told, Memory>
        requires over { sig.now ≡ signature self.now }
        requires sound { IsSoundSubject sig.now (subject_tree subject.now) }
        ensures same { out.new.sink.ghost_name ≡ out.old.sink.ghost_name }
        ensures puts { (ls rest : List Text) →
            AreSubjectLines sig.now (named names.now) (finds self.now) (subject_tree subject.now) ls →
            PutsWithMemory O.Sink (front_lines left.old (ls ++ rest)) (front_lines left.new rest) out.old out.new
            result };
}
