//! That tokens are printed and read without loss, each fact as the contract of a function that does nothing.

ghost use Rattle.std.specs.Prelude.{◌≡◌, ℕ};
ghost use Rattle.mp_io.specs.Devices.{Text};
ghost use Rattle.mp_token.specs.Spelling.{IsToken, IsSpelling, IsUnspelt};
ghost use Rattle.mp_token.specs.TokenText.{token_text};
ghost use Rattle.mp_token.specs.declared.token.Token.{Token};

/// Bytes spell at most one token, by `IsSpelling` of `specs/Spelling.antt`.
pub fn spellings_are_unique()
    ensures { (bytes : Text) (t u : Token) → IsSpelling bytes t → IsSpelling bytes u → t ≡ u }
{}

/// What `write_token` prints is read by `read_token` as the same token: the text of a token spells it and no other one,
/// and isn't refused as unspelt.
pub fn printed_tokens_are_read()
    ensures spelt { (t : Token) → IsToken t → IsSpelling (token_text t) t }
    ensures only { (t u : Token) → IsToken t → IsSpelling (token_text t) u → u ≡ t }
    ensures accepted { (t : Token) → IsToken t → IsUnspelt (token_text t) → ⊥ }
{}
