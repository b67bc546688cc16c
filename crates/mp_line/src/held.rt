//! Operations and kinds by their names.

ghost use Rattle.mp_term.specs.Signature.{IsSignature};
ghost use Rattle.mp_line.specs.Finds.{Finds};
ghost use Rattle.mp_line.specs.LineTexts.{IsHeldOp, IsHeldKind};

use mp_term::{KindId, OpId, Signature};

// Tells a proof what holds of each signature.
fn signature_is_valid(sig: &Signature)
    ensures { IsSignature sig.now }
{
    let _ = sig.op_count();
}

// The operation that the name is of.
pub(crate) fn held_op(sig: &Signature, name: &[u8]) -> Option<OpId>
    ensures { Finds (λ f. f.0) (IsHeldOp sig.now name.now) result }
{
    signature_is_valid(sig);
    sig.find_op(name)
}

// The kind that the name is of.
pub(crate) fn held_kind(sig: &Signature, name: &[u8]) -> Option<KindId>
    ensures { Finds (λ k. k.0) (IsHeldKind sig.now name.now) result }
{
    signature_is_valid(sig);
    sig.find_kind(name)
}
