//! Marks by digests, which tell at once of most new tokens that they are new.
ghost use Rattle.std.specs.Prelude.{◌≡◌, ℕ, true};
ghost use Rattle.mp_many.specs.Marks.{has_mark};

use mp_term::Memory;
use std::alloc::Global;

// So few tokens are looked through one by one.
const FEW: usize = 16;

// Marks for so many tokens, none of which is set; there are no marks for few.
pub(crate) fn marks_for(alloc: Global, tokens: usize) -> Result<Vec<bool>, Memory> {
    if tokens <= FEW {
        return Ok(Vec::new(alloc));
    }
    // An odd number of them, by which digests that end alike are told apart.
    let marks = Vec::from_elem(alloc, false, tokens.saturating_mul(16) | 1)?;
    Ok(marks)
}

// The digest has its mark.
pub(crate) fn has_mark(marks: &[bool], digest: u64) -> bool
    ensures { result ≡ has_mark marks.now digest }
{
    let count = marks.len();
    if count == 0 {
        return true;
    }
    marks[(digest % count as u64) as usize]
}

// Sets the mark of the digest.
pub(crate) fn set_mark(marks: &mut Vec<bool>, digest: u64)
    ensures own { has_mark marks.new.items digest ≡ true }
    ensures others { (other : ℕ) → has_mark marks.old.items other ≡ true → has_mark marks.new.items other ≡ true }
{
    let count = marks.len();
    if count == 0 {
        return;
    }
    marks[(digest % count as u64) as usize] = true;
}
