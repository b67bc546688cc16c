//! Net tokens, which patterns are read as where many are matched at once.
ghost use Rattle.std.specs.Prelude.{◌≡◌, [], ◌∷◌, ◌++◌, length, map, slice_get, OnOk, OnErr, option_map};
ghost use Rattle.std.specs.Cmp.{on_equiv, on_per, partial_equiv_from_equiv};
ghost use Rattle.mp_pattern.specs.NetTokens.{same_token};
ghost use Rattle.mp_pattern.specs.NetTokenView.{net_token};
ghost use Rattle.mp_pattern.specs.NetTokenLaws.{same_token_equiv};

use crate::pattern::Pattern;
use mp_term::{KindId, Memory, Name, OpId, Term};
use std::alloc::Global;
use std::marker::Model;

/// A token of a pattern, with the variables by their numbers. Contracts see it as the token `net_token` of
/// `specs/NetTokenView.antt`; `tokens_of` says which tokens a pattern has.
#[derive(Drop)]
pub enum NetToken {
    /// A symbol.
    Sym(Name),
    /// The begin of an application of an operation that isn't commutative; its arguments follow.
    Enter(OpId),
    /// The end of one.
    Leave(OpId),
    /// A dot wildcard, with the number of its variable where it has one.
    Dot(Option<u32>),
    /// A wildcard of one symbol of the kind.
    Kind(KindId, Option<u32>),
    /// A plus wildcard.
    Plus(Option<u32>),
    /// A star wildcard.
    Star(Option<u32>),
    /// An optional wildcard with its default.
    Opt(Option<u32>, Term),
    /// A counted wildcard: its count, and that the count is fixed.
    Counted(u32, bool, Option<u32>),
    /// A whole application of a commutative operation. Its variables are named `v0`, `v1` and so on by their numbers,
    /// and its arguments stand in the order of the pattern.
    Comm(Pattern),
}

impl PartialEq for NetToken {
    ghost eq = { λ a b. same_token (net_token a) (net_token b) };

    ghost laws = { on_per net_token (partial_equiv_from_equiv same_token_equiv) };

    fn eq(&self, other: &NetToken) -> bool {
        match (self, other) {
            (NetToken::Sym(m), NetToken::Sym(n)) => m == n,
            (NetToken::Enter(f), NetToken::Enter(g)) => f == g,
            (NetToken::Leave(f), NetToken::Leave(g)) => f == g,
            (NetToken::Dot(x), NetToken::Dot(y)) => x == y,
            (NetToken::Kind(k, x), NetToken::Kind(l, y)) => k == l && x == y,
            (NetToken::Plus(x), NetToken::Plus(y)) => x == y,
            (NetToken::Star(x), NetToken::Star(y)) => x == y,
            (NetToken::Opt(x, t), NetToken::Opt(y, u)) => t == u && x == y,
            (NetToken::Counted(m, fixed, x), NetToken::Counted(n, other, y)) => {
                m == n && fixed == other && x == y
            }
            (NetToken::Comm(p), NetToken::Comm(q)) => p == q,
            _ => false,
        }
    }
}

impl Eq for NetToken {
    ghost laws = { on_equiv net_token same_token_equiv };
}

/// A list of net tokens, seen by contracts as the list of their plain tokens.
#[derive(Drop)]
pub struct NetTokens {
    items: Vec<NetToken>,
}

impl Model for NetTokens {
    ghost use Rattle.std.specs.Prelude.{List, map};
    ghost use Rattle.std.specs.Coded.{coded_list};
    ghost use Rattle.mp_pattern.specs.NetTokens as plain;
    ghost use Rattle.mp_pattern.specs.NetTokenCode.{coded_net_token};

    ghost Value = { List plain.NetToken };

    ghost coded = { coded_list coded_net_token };

    ghost use Rattle.mp_pattern.specs.NetTokenView.{net_token};

    ghost view = { λ ts. map net_token ts.items.items };
}

impl NetTokens {
    /// The empty list. It takes no memory.
    pub fn new(alloc: Global) -> Self
        ensures { result ≡ [] }
    {
        NetTokens {
            items: Vec::new(alloc),
        }
    }

    /// Adds a token at the end. For want of memory it answers `Memory`, drops the token and leaves the list as it was.
    pub fn push(&mut self, item: NetToken) -> Result<(), Memory>
        ensures ok { OnOk result (self.new ≡ self.old ++ net_token item ∷ []) }
        ensures err { OnErr result (self.new ≡ self.old) }
    {
        self.items.push(item)?;
        Ok(())
    }

    /// How many tokens there are.
    pub fn len(&self) -> usize
        ensures { result ≡ length self.now }
    {
        self.items.len()
    }

    /// The token at the index, from 0. It is None exactly where the index isn't below the length.
    pub fn get(&self, index: usize) -> Option<&NetToken>
        ensures { slice_get self.now index ≡ option_map (λ k. net_token k.now) result }
    {
        self.items.get(index)
    }

    /// The tokens in order.
    pub fn as_slice(&self) -> &[NetToken]
        ensures { map net_token result.now ≡ self.now }
    {
        &self.items
    }
}
