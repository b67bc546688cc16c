//! Infix signs.
ghost use Rattle.std.specs.Prelude.{◌≡◌, IfOk, Err, true, false, ◌↔◌};
ghost use Rattle.std.specs.List.{list_all};
ghost use Rattle.mp_term.specs.Names.{is_arrow, is_sign, is_sign_byte};

use crate::limits::MAX_SIGN_BYTES;
use crate::name::NameFault;
use std::alloc::Global;
use std::marker::Model;

/// An infix sign: 1 to 4 of the characters `+ - * / = < > & | ^ ~ ! % @ ?`, other than `->`. Contracts see its bytes.
#[derive(Drop)]
pub struct Sign {
    bytes: Vec<u8>,
}

impl Model for Sign {
    ghost use Rattle.std.specs.Prelude.{ℕ, List};
    ghost use Rattle.std.specs.Prelude.{◌≡◌, true};
    ghost use Rattle.std.specs.List.{list_all};
    ghost use Rattle.mp_term.specs.Names.{is_sign};

    ghost Value = { List ℕ };

    ghost view = { λ s. s.bytes.items };

    ghost invariant = { λ s. is_sign s.bytes.items ≡ true };
}

// The byte is a sign character.
fn is_sign_byte(byte: u8) -> bool
    ensures { result ≡ is_sign_byte byte }
{
    matches!(
        byte,
        b'+' | b'-'
            | b'*'
            | b'/'
            | b'='
            | b'<'
            | b'>'
            | b'&'
            | b'|'
            | b'^'
            | b'~'
            | b'!'
            | b'%'
            | b'@'
            | b'?'
    )
}

// The bytes are the arrow of a rule.
fn is_arrow(bytes: &[u8]) -> bool
    ensures { result ≡ is_arrow bytes.now }
{
    bytes == b"->".as_slice()
}

// The bytes are sign characters.
fn are_sign_bytes(bytes: &[u8]) -> bool
    ensures { result ≡ list_all is_sign_byte bytes.now }
{
    bytes.iter().all(|byte| is_sign_byte(*byte))
}

// The bytes are the spelling of a sign.
fn is_sign(bytes: &[u8]) -> bool
    ensures { result ≡ is_sign bytes.now }
{
    if bytes.is_empty() || MAX_SIGN_BYTES < bytes.len() || is_arrow(bytes) {
        return false;
    }
    are_sign_bytes(bytes)
}

impl Sign {
    /// The sign that is spelt by the bytes, which are copied (`is_sign` of `specs/Names.antt`).
    /// `Spelling` comes exactly where they are no sign, `Memory` where there is no room for the copy.
    pub fn new(alloc: Global, bytes: &[u8]) -> Result<Sign, NameFault>
        ensures ok { IfOk result (λ s. s ≡ bytes.now) }
        ensures spelling { (result ≡ Err NameFault.Spelling) ↔ (is_sign bytes.now ≡ false) }
    {
        if !is_sign(bytes) {
            return Err(NameFault::Spelling);
        }
        let mut copy = Vec::new(alloc);
        copy.extend_from_slice(bytes)?;
        Ok(Sign { bytes: copy })
    }

    /// The bytes of the sign, which are the spelling of one.
    pub fn bytes(&self) -> &[u8]
        ensures bytes { result.now ≡ self.now }
        ensures sign { is_sign result.now ≡ true }
    {
        &self.bytes
    }
}
