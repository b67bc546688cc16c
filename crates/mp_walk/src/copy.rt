//! Copies of tokens.
ghost use Rattle.std.specs.Prelude.{◌≡◌, IfOk};
ghost use Rattle.mp_pattern.specs.NetTokenView.{net_token};

use mp_pattern::{NetToken, copy_pattern};
use mp_term::{Memory, copy_term};
use std::alloc::Global;

// A copy of the token. `Memory` comes where there is no room for it.
pub(crate) fn copy_token(alloc: Global, token: &NetToken) -> Result<NetToken, Memory>
    ensures { IfOk result (λ k. net_token k ≡ net_token token.now) }
{
    match token {
        NetToken::Sym(name) => Ok(NetToken::Sym(name.copy(alloc)?)),
        NetToken::Enter(op) => Ok(NetToken::Enter(*op)),
        NetToken::Leave(op) => Ok(NetToken::Leave(*op)),
        NetToken::Dot(number) => Ok(NetToken::Dot(*number)),
        NetToken::Kind(kind, number) => Ok(NetToken::Kind(*kind, *number)),
        NetToken::Plus(number) => Ok(NetToken::Plus(*number)),
        NetToken::Star(number) => Ok(NetToken::Star(*number)),
        NetToken::Opt(number, term) => Ok(NetToken::Opt(*number, copy_term(alloc, term)?)),
        NetToken::Counted(least, fixed, number) => Ok(NetToken::Counted(*least, *fixed, *number)),
        NetToken::Comm(pattern) => Ok(NetToken::Comm(copy_pattern(alloc, pattern)?)),
    }
}
