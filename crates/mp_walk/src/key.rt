//! Keys of symbols, by which different ones are mostly told apart at a glance.
ghost use Rattle.std.specs.Prelude.{◌≡◌, IfOk, map};
ghost use Rattle.mp_pattern.specs.NetTokenView.{net_token};
ghost use Rattle.mp_walk.specs.Keys.{instr_key, name_key, token_key};
ghost use Rattle.mp_walk.specs.InstrView.{plain_instr};

use crate::instr::Instr;
use mp_pattern::NetToken;
use mp_term::Memory;
use std::alloc::Global;

// What is seen of an instruction at a glance: the key of the symbol that it reads, which is 0 where it reads none, and
// the instruction that reads another token in its place, where one does.
#[derive(Clone, Copy)]
pub(crate) struct InstrKey {
    pub(crate) symbol: u32,
    pub(crate) over: Option<u32>,
}

// The key of the name of these bytes.
pub(crate) fn name_key(name: &[u8]) -> u32
    ensures { result ≡ name_key name.now }
{
    let mut key: u32 = 0;
    for byte in name {
        key = key.wrapping_mul(31).wrapping_add(u32::from(*byte));
    }
    key
}

// The key of the symbol that the token reads, or 0.
fn token_key(token: &NetToken) -> u32
    ensures { result ≡ token_key (net_token token.now) }
{
    match token {
        NetToken::Sym(name) => name_key(name.bytes()),
        _ => 0,
    }
}

// The keys of the instructions.
pub(crate) fn keys_of(alloc: Global, instrs: &[Instr]) -> Result<Vec<InstrKey>, Memory>
    ensures { IfOk result (λ keys. keys.items ≡ map instr_key (map plain_instr instrs.now)) }
{
    let mut keys = Vec::with_capacity(alloc, instrs.len())?;
    for instr in instrs {
        keys.push(InstrKey {
            symbol: token_key(&instr.token),
            over: instr.over,
        })?;
    }
    Ok(keys)
}
