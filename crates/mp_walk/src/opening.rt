//! What a token leaves open.
ghost use Rattle.std.specs.Prelude.{◌≡◌, ◌≤◌, ◌<◌, ◌+◌, ◌++◌, List, length, Some, slice_get, vec_capacity};
ghost use Rattle.mp_pattern.specs.NetTokenView.{net_token};
ghost use Rattle.mp_walk.specs.declared.frame.Frame.{Frame};
ghost use Rattle.mp_walk.specs.Course.{opens_after, rest_by, IsWayValid};
ghost use Rattle.mp_walk.specs.OpenOnes.{IsFrame, IsPlaceBelow, AreFrames, open_of, opens};
ghost use Rattle.mp_walk.specs.SoundTokens.{IsSoundToken};

use crate::frame::Frame;
use mp_pattern::NetToken;
use mp_table::Table;
use mp_term::Signature;

// The frame of the open operation once the token has taken its terms from it.
fn rest<'a>(table: &Table, frame: Frame<'a>, token: &NetToken, way: usize) -> Frame<'a>
    requires frame { IsFrame table.now frame }
    requires valid { IsWayValid (net_token token.now) (open_of table.now frame) way }
    ensures frame { IsFrame table.now result }
    ensures open { open_of table.now result ≡ rest_by (net_token token.now) (open_of table.now frame.entry) way }
    ensures outer { result.outer ≡ frame.entry.outer }
    ensures under { result.under ≡ frame.entry.under }
{
    match token {
        NetToken::Leave(_) => frame,
        NetToken::Sym(_) | NetToken::Enter(_) | NetToken::Comm(_) => frame.behind(table, 1),
        NetToken::Opt(_, _) if way == 0 => frame.settled(table),
        _ => frame.behind(table, way),
    }
}

// Opens what the token leads to by the way: frames are added, and the place of the innermost one is answered. There is
// room for two more. The token is read in the frame at the place.
pub(crate) fn opened<'a>(
    sig: &Signature,
    table: &'a Table,
    token: &NetToken,
    place: usize,
    way: usize,
    frames: &mut Vec<Frame<'a>>,
) -> Option<usize>
    requires frames { AreFrames sig.now table.now frames.old.items }
    requires place { place < length frames.old.items }
    requires sound { IsSoundToken sig.now (net_token token.now) }
    requires valid { (f : Frame) → slice_get frames.old.items place ≡ Some f
        → IsWayValid (net_token token.now) (open_of table.now f) way }
    requires room { length frames.old.items + 2 ≤ vec_capacity frames.old }
    ensures open { opens table.now frames.new.items result
        ≡ opens_after (net_token token.now) (opens table.now frames.old.items (Some place)) way }
    ensures place { IsPlaceBelow (length frames.new.items) result }
    ensures frames { AreFrames sig.now table.now frames.new.items }
    ensures front { (more : List Frame) × (frames.new.items ≡ frames.old.items ++ more) }
{
    let _ = sig;
    let frame = frames[place];
    if let NetToken::Leave(_) = token {
        return frame.outer;
    }
    let behind = frames.len();
    frames.push_reserved(rest(table, frame, token, way));
    let NetToken::Enter(op) = token else {
        return Some(behind);
    };
    frames.push_reserved(frame.entered(table, *op, way == 1, behind));
    Some(behind + 1)
}
