//! What stands where reading ends: a torn frame, or a damaged one with a whole frame behind it.
ghost use Rattle.std.specs.Prelude.{◌≡◌, take, drop};
ghost use Rattle.grove_log.specs.Frames.{has_frame};
ghost use Rattle.grove_log.specs.Readings.{holds_frame, is_damaged};

use crate::frame::{SIZE, Seal, has_frame, size_at};

/// Do the bytes begin with 32 that a frame behind them is chained to?
#[tactic(auto, using(crate::proofs::Behind::short_of_frame))]
fn begins_chain(bytes: &[u8]) -> bool
    ensures { result ≡ has_frame (take 32 bytes.now) (drop 32 bytes.now) }
{
    if bytes.len() < 32 {
        return false;
    }
    let (before, frame) = bytes.split_at(32);
    has_frame(before, frame)
}

/// Does a frame stand somewhere in the bytes, chained to the 32 bytes in front of it?
fn holds_frame(bytes: &[u8]) -> bool
    ensures { result ≡ holds_frame bytes.now }
{
    let mut rest = bytes;
    while let [_, next @ ..] = rest {
        if begins_chain(rest) {
            return true;
        }
        rest = next;
    }
    false
}

/// Does a whole frame stand behind what stands here, which isn't a frame chained to the digest?
#[tactic(auto, unfolding(crate::specs::Readings::is_damaged, crate::specs::Readings::holds_behind), using(crate::proofs::Behind::nothing_behind))]
pub(crate) fn is_damaged(before: &[u8], bytes: &[u8]) -> bool
    ensures { result ≡ is_damaged before.now bytes.now }
{
    let Some(len) = size_at(bytes) else {
        return holds_frame(bytes);
    };
    let (_, body) = bytes.split_at(SIZE);
    if body.len() < len || body.len() - len < 32 {
        return false;
    }
    let (payload, tail) = body.split_at(len);
    let seal = Seal::of(before, payload);
    let (_, behind) = tail.split_at(32);
    holds_frame(tail) || has_frame(&seal.bytes, behind)
}
