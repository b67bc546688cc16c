//! How few terms a wildcard may leave to the tokens behind it.
ghost use Rattle.std.specs.Prelude.{◌≡◌, ◌<◌, ℕ, List, false, IfSome};
ghost use Rattle.mp_term.specs.Listing.{In};
ghost use Rattle.mp_pattern.specs.NetTokenView.{net_token};
ghost use Rattle.mp_pattern.specs.Value.{Subst};
ghost use Rattle.mp_pattern.specs.Variables.{comm_above};
ghost use Rattle.mp_search.specs.Frames.{above};
ghost use Rattle.mp_walk.specs.InstrView.{plain_instr};
ghost use Rattle.mp_walk.specs.Most.{IsIdle, TakeAtMost, TakesAtMost};
ghost use Rattle.mp_walk.specs.OpenOnes.{IsFrame, open_of};
ghost use Rattle.mp_walk.specs.Setting.{IsSetting};
ghost use Rattle.mp_walk.specs.TokenMachine.{Open};
ghost use Rattle.mp_walk.specs.Ways.{Step, way_steps};

use crate::frame::Frame;
use crate::instr::Instr;
use crate::setting::Setting;
use crate::token::{bound, is_wild};
use mp_pattern::NetToken;
use mp_term::{OpId, Signature};

// The most terms that the token takes of the operation that is open. None comes where it may take any number, and where
// it begins or ends an application.
fn most_of(sig: &Signature, under: Option<OpId>, token: &NetToken) -> Option<usize>
    ensures { IfSome result (TakesAtMost sig.now (above under) (net_token token.now)) }
{
    match token {
        NetToken::Enter(_) | NetToken::Leave(_) => None,
        NetToken::Sym(_) | NetToken::Comm(_) => Some(1),
        _ => bound(sig, under, token),
    }
}

// The most terms that the tokens from the target on take of the operation that is open, up to its end. None comes where
// they may take any number, where another operation is opened, and where more than one token stands at a place.
fn most_from(set: Setting<'_>, under: Option<OpId>, first: Option<u32>) -> Option<usize>
    requires setting { IsSetting set }
    requires ordered { comm_above set.sig.now (above under) ≡ false }
    ensures { IfSome result (TakeAtMost set.entry.sig.now set.entry.code.now.instrs (above under) first) }
{
    let Setting { sig, code, .. } = set;
    let mut most: usize = 0;
    let mut target = first;
    while let Some(number) = target {
        let instr = code.instr(number)?;
        if instr.over.is_some() {
            return None;
        }
        if let NetToken::Leave(_) = &instr.token {
            return Some(most);
        }
        let taken = most_of(sig, under, &instr.token)?;
        most = most.checked_add(taken)?;
        target = instr.down;
    }
    Some(most)
}

// A number of terms such that nothing comes of a front of fewer: where the token of the instruction is a wildcard that
// may take any number, such a front leaves more than the tokens behind it can take.
pub(crate) fn fewest(set: Setting<'_>, frame: &Frame<'_>, instr: &Instr) -> usize
    requires setting { IsSetting set }
    requires frame { IsFrame set.table.now frame.now }
    requires ordered { comm_above set.sig.now (above frame.now.under) ≡ false }
    ensures { (fs : List Open) (s : Subst) (n : ℕ) (r : Step) → n < result
        → In r (way_steps set.entry.sig.now (open_of set.entry.table.now frame.now) fs s (net_token instr.now.token) n)
        → IsIdle set.entry.sig.now set.entry.code.now.instrs (plain_instr instr.now) r }
{
    let Setting { sig, .. } = set;
    if !is_wild(&instr.token) || bound(sig, frame.under, &instr.token).is_some() {
        return 0;
    }
    match most_from(set, frame.under, instr.down) {
        Some(most) => frame.left.len().saturating_sub(most),
        None => 0,
    }
}
