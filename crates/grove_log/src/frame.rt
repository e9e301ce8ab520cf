//! Frames: how one is made, and what passes for one.
ghost use Rattle.std.specs.Prelude.{◌≡◌, ◌<◌, ◌≤◌, ◌^◌, ◌++◌, List, ℕ, length, IfSome, OnOk, IsSome, MatchOption, None};
ghost use Rattle.std.specs.Prelude.{Some};
ghost use Rattle.grove_log.specs.Frames.{digest, size, size_at, sealed_at, frame_at, has_frame};

use grove_base::NoMemory;
use sha2::{Digest, Sha256};
use std::alloc::Global;

/// How many bytes a payload's length takes.
pub(crate) const SIZE: usize = 8;

/// The digest that a frame is chained to.
#[derive(Clone, Copy, Debug, Drop)]
pub struct Seal {
    pub bytes: [u8; 32],
}

/// A frame that passes, and the bytes behind it.
#[derive(Drop)]
pub(crate) struct Passed<'a> {
    pub payload: &'a [u8],
    pub seal: Seal,
    pub behind: &'a [u8],
}

/// What may be a frame, of whose digest nothing is known.
#[derive(Drop)]
struct Unsealed<'a> {
    payload: &'a [u8],
    tail: &'a [u8],
}

impl Seal {
    /// The digest that these bytes are.
    pub(crate) fn copied(digest: &[u8]) -> Seal
        requires { length digest.now ≡ 32 }
        ensures { result.bytes ≡ digest.now }
    {
        let mut bytes = [0; 32];
        bytes.copy_from_slice(digest);
        Seal { bytes }
    }

    /// The digest that chains a payload to this one.
    #[tactic(auto, unfolding(crate::specs::Frames::digest))]
    pub(crate) fn of(before: &[u8], payload: &[u8]) -> Seal
        ensures { result.bytes ≡ digest before.now payload.now }
    {
        let mut hasher = Sha256::new();
        hasher.update(before);
        hasher.update(payload);
        let bytes = hasher.finalize();
        Seal { bytes }
    }
}

/// The frame of a payload that this digest chains.
#[tactic(auto, unfolding(crate::specs::Frames::size))]
pub(crate) fn push_frame(out: &mut Vec<u8>, payload: &[u8], seal: &Seal) -> Result<(), NoMemory>
    requires { length payload.now < 2 ^ 32 }
    ensures { OnOk result
        (out.new.items ≡ out.old.items ++ size (length payload.now) ++ payload.now ++ seal.now.bytes) }
{
    let len = payload.len() as u32;
    out.extend_from_slice(&len.to_le_bytes())?;
    out.extend_from_slice(&(u32::MAX - len).to_le_bytes())?;
    out.extend_from_slice(payload)?;
    out.extend_from_slice(&seal.bytes)?;
    Ok(())
}

/// The length at the front.
#[tactic(auto, unfolding(crate::specs::Frames::size_at, crate::specs::Frames::checked_size))]
pub(crate) fn size_at(bytes: &[u8]) -> Option<usize>
    ensures size { result ≡ size_at bytes.now }
    ensures long { IfSome result (λ _. 8 ≤ length bytes.now) }
{
    if bytes.len() < SIZE {
        return None;
    }
    let len = u32::from_le_bytes([bytes[0], bytes[1], bytes[2], bytes[3]]);
    let check = u32::from_le_bytes([bytes[4], bytes[5], bytes[6], bytes[7]]);
    if check == u32::MAX - len {
        Some(len as usize)
    } else {
        None
    }
}

/// The payload that the length at the front is of, and the bytes behind it.
#[tactic(auto, unfolding(crate::specs::Frames::frame_at, crate::specs::Frames::body_at))]
fn unsealed_at(bytes: &[u8]) -> Option<Unsealed<'_>>
    ensures { (before : List ℕ) → MatchOption result (frame_at before bytes.now ≡ None)
        (λ cut. frame_at before bytes.now
        ≡ sealed_at (digest before cut.payload.now) cut.payload.now cut.tail.now) }
{
    let len = size_at(bytes)?;
    let (_, body) = bytes.split_at(SIZE);
    if body.len() < len {
        return None;
    }
    let (payload, tail) = body.split_at(len);
    Some(Unsealed { payload, tail })
}

/// The frame at the front that is chained to a digest.
#[tactic(auto, unfolding(crate::specs::Frames::sealed_at))]
pub(crate) fn frame_at<'a>(before: &[u8], bytes: &'a [u8]) -> Option<Passed<'a>>
    ensures { MatchOption result (frame_at before.now bytes.now ≡ None)
        (λ passed. (frame_at before.now bytes.now ≡ Some (passed.payload.now, passed.behind.now))
        × (passed.seal.bytes ≡ digest before.now passed.payload.now)) }
{
    let Unsealed { payload, tail } = unsealed_at(bytes)?;
    let seal = Seal::of(before, payload);
    if !tail.starts_with(&seal.bytes) {
        return None;
    }
    let (_, behind) = tail.split_at(32);
    Some(Passed {
        payload,
        seal,
        behind,
    })
}

/// The frame at the front, where it is known that one passes: its digest is the one that stands there.
pub(crate) fn passed_at(bytes: &[u8]) -> Option<Passed<'_>>
    ensures { (before payload behind : List ℕ) → frame_at before bytes.now ≡ Some (payload, behind)
        → IsSome result × IfSome result (λ passed. (passed.payload.now ≡ payload)
        × (passed.seal.bytes ≡ digest before payload) × (passed.behind.now ≡ behind)) }
{
    let Unsealed { payload, tail } = unsealed_at(bytes)?;
    if tail.len() < 32 {
        return None;
    }
    let (digest, behind) = tail.split_at(32);
    Some(Passed {
        payload,
        seal: Seal::copied(digest),
        behind,
    })
}

/// Is a frame at the front that is chained to a digest?
pub(crate) fn has_frame(before: &[u8], bytes: &[u8]) -> bool
    ensures { result ≡ has_frame before.now bytes.now }
{
    frame_at(before, bytes).is_some()
}
