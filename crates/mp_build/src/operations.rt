//! The operations of a signature: the first of a name, and whether one has an equation.

ghost use Rattle.std.specs.Prelude.{◌≡◌, ℕ, option_map, false, IsTrue};
ghost use Rattle.mp_build.specs.Build.{op_number};
ghost use Rattle.mp_build.specs.Checks.{op_named};
ghost use Rattle.mp_build.specs.Equations.{has_equation};

use mp_term::{OpDecl, OpId, Signature};

// The most operations of which each is looked at, which takes less time than a walk over a tree.
const FEW_OPS: u32 = 8;

/// The number and the declaration of the first operation of that name.
pub fn find_decl<'a>(sig: &'a Signature, name: &[u8]) -> Option<(OpId, &'a OpDecl)>
    ensures number { option_map (λ p. p.0.0) result ≡ op_number sig.now name.now }
    ensures decl { option_map (λ p. p.1.now) result ≡ op_named sig.now name.now }
{
    let id = sig.find_op(name)?;
    let decl = sig.op(id)?;
    Some((id, decl))
}

/// The operation is associative, commutative or one-identity.
pub fn has_equation(sig: &Signature, op: OpId) -> bool
    ensures { result ≡ has_equation sig.now op.0 }
{
    sig.is_assoc(op) || sig.is_comm(op) || sig.is_one(op)
}

/// The operations are few, and none of them has an equation.
pub fn are_few_and_free(sig: &Signature) -> bool
    ensures { IsTrue result → (f : ℕ) → has_equation sig.now f ≡ false }
{
    let count = sig.op_count();
    if count > FEW_OPS {
        return false;
    }
    for number in 0..count {
        if has_equation(sig, OpId(number)) {
            return false;
        }
    }
    true
}
