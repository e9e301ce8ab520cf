//! Numbers at the front of bytes.
ghost use Rattle.std.specs.Prelude.{◌≡◌, ◌<◌, ◌^◌, ◌++◌, length, OnOk, IfOk, MatchResult};
ghost use Rattle.std.specs.List.{flat_map};
ghost use Rattle.grove_effects.specs.Effects.{word, half};

use grove_base::NoMemory;
use thiserror::Error;

/// How many bytes a number has.
const WORD: usize = 8;

/// How many bytes a place, a count or a parent has.
const HALF: usize = 4;

/// The bytes aren't of the form that was asked for.
#[derive(Clone, Copy, Debug, PartialEq, Eq, Error)]
#[error("unfit bytes")]
pub struct Unfit;

/// Puts all numbers, in order.
pub fn push_numbers(out: &mut Vec<u8>, numbers: &[u64]) -> Result<(), NoMemory>
    ensures { OnOk result (out.new.items ≡ out.old.items ++ flat_map word numbers.now) }
{
    for number in numbers {
        out.extend_from_slice(&number.to_le_bytes())?;
    }
    Ok(())
}

/// The number of 8 bytes at the front, and the bytes behind it.
pub(crate) fn split_word(bytes: &[u8]) -> Result<(u64, &[u8]), Unfit>
    ensures front { MatchResult result (λ split. bytes.now ≡ word split.0 ++ split.1.now) (λ _. length bytes.now < 8) }
    ensures fits { IfOk result (λ split. split.0 < 2 ^ 64) }
{
    if bytes.len() < WORD {
        return Err(Unfit);
    }
    let (front, behind) = bytes.split_at(WORD);
    let mut word = [0; WORD];
    word.copy_from_slice(front);
    Ok((u64::from_le_bytes(word), behind))
}

/// The same of 4 bytes.
pub(crate) fn split_half(bytes: &[u8]) -> Result<(u32, &[u8]), Unfit>
    ensures front { MatchResult result (λ split. bytes.now ≡ half split.0 ++ split.1.now) (λ _. length bytes.now < 4) }
    ensures fits { IfOk result (λ split. split.0 < 2 ^ 32) }
{
    if bytes.len() < HALF {
        return Err(Unfit);
    }
    let (front, behind) = bytes.split_at(HALF);
    let mut half = [0; HALF];
    half.copy_from_slice(front);
    Ok((u32::from_le_bytes(half), behind))
}
