//! What holds of each signature.
ghost use Rattle.mp_term.specs.Signature.{IsSignature};

use mp_term::Signature;

// Tells a proof what holds of each signature.
pub(crate) fn signature_is_valid(sig: &Signature)
    ensures { IsSignature sig.now }
{
    let _ = sig.op_count();
}
