//! Subterms.
ghost use Rattle.std.specs.Prelude.{◌≡◌};
ghost use Rattle.mp_term.specs.View.{tree};
ghost use Rattle.mp_pattern.specs.Holds.{occurs};

use mp_term::{Term, compare};

// Whether the term is the other term or a subterm of it.
pub(crate) fn occurs(term: &Term, within: &Term) -> bool
    ensures { result ≡ occurs (tree term.now) (tree within.now) }
{
    if compare(term, within).is_eq() {
        return true;
    }
    match within {
        Term::Sym(_) => false,
        Term::App(_, args) => {
            for arg in args.as_slice() {
                if occurs(term, arg) {
                    return true;
                }
            }
            false
        }
    }
}
