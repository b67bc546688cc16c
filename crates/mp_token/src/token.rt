//! Tokens.

use crate::entries::TokenEntries;
use mp_term::Name;

/// A resume token: it names a subject and a rule, and has an entry for each node of the rule's pattern.
#[derive(Drop)]
pub struct Token {
    /// The name of the subject.
    pub subject: Name,
    /// The name of the rule.
    pub rule: Name,
    /// The entries, in order.
    pub entries: TokenEntries,
}
