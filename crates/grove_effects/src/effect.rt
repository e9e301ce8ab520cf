//! Effects: what changed from some numbers to others.
ghost use Rattle.std.specs.Prelude.{◌≡◌, ℕ, ◌+◌, ◌<◌, ◌^◌, List, ◌++◌, length, slice_index, EachIndex, IsOk, OnOk};
ghost use Rattle.std.specs.Prelude.{IfOk, MatchResult};
ghost use Rattle.std.specs.List.{flat_map};
ghost use Rattle.grove_effects.specs.Effects.{AreWords, change_at, change_bytes, changes_from, effect};

use crate::number::{Unfit, split_half, split_word};
use grove_base::NoMemory;

/// Makes each kept number the one that `number` gives at its place among them, and puts what changed. The first of them
/// stands at `first` among all.
pub fn keep_numbers<F: Fn(u32) -> u64>(
    out: &mut Vec<u8>,
    first: u32,
    kept: &mut [u64],
    number: F,
) -> Result<(), NoMemory>
    requires callable { (place : ℕ) → place < length kept.old → F.pre number place }
    requires few { first + length kept.old < 2 ^ 32 }
    ensures changes { OnOk result (out.new.items
        ≡ out.old.items ++ flat_map change_bytes (changes_from first kept.old kept.new)) }
    ensures kept { OnOk result (EachIndex kept.new (λ place. F.post number place (slice_index kept.new place))) }
    ensures long { length kept.new ≡ length kept.old }
{
    for place in 0..kept.len() as u32 {
        keep_number(out, first + place, &mut kept[place as usize], number(place))?;
    }
    Ok(())
}

/// Makes a kept number this one, and puts the change, if it is one.
fn keep_number(out: &mut Vec<u8>, place: u32, kept: &mut u64, number: u64) -> Result<(), NoMemory>
    ensures change { OnOk result (out.new.items
        ≡ out.old.items ++ flat_map change_bytes (change_at place kept.old number)) }
    ensures kept { OnOk result (kept.new ≡ number) }
{
    if *kept != number {
        push_change(out, place, number)?;
        *kept = number;
    }
    Ok(())
}

/// Puts a change.
fn push_change(out: &mut Vec<u8>, place: u32, number: u64) -> Result<(), NoMemory>
    ensures { OnOk result (out.new.items ≡ out.old.items ++ change_bytes (place, number)) }
{
    out.extend_from_slice(&place.to_le_bytes())?;
    out.extend_from_slice(&number.to_le_bytes())?;
    Ok(())
}

/// Makes the numbers those that the effect leads to. Where the bytes are refused, some numbers may have changed.
pub fn apply_effect(numbers: &mut [u64], bytes: &[u8]) -> Result<(), Unfit>
    requires { length numbers.old < 2 ^ 32 }
    ensures leads { OnOk result (bytes.now ≡ effect numbers.old numbers.new) }
    ensures led { (next : List ℕ) → AreWords next → length next ≡ length numbers.old
        → bytes.now ≡ effect numbers.old next → IsOk result × (numbers.new ≡ next) }
    ensures long { length numbers.new ≡ length numbers.old }
{
    let mut from = 0;
    let mut rest = bytes;
    while !rest.is_empty() {
        let (place, number, behind) = split_change(rest)?;
        if place < from || place >= numbers.len() || numbers[place] == number {
            return Err(Unfit);
        }
        numbers[place] = number;
        from = place + 1;
        rest = behind;
    }
    Ok(())
}

/// The place and the number of the change at the front, and the bytes behind it.
fn split_change(bytes: &[u8]) -> Result<(usize, u64, &[u8]), Unfit>
    ensures change { MatchResult result (λ split. bytes.now ≡ change_bytes (split.0, split.1) ++ split.2.now)
        (λ _. length bytes.now < 12) }
    ensures fits { IfOk result (λ split. (split.0 < 2 ^ 32) × (split.1 < 2 ^ 64)) }
    ensures shorter { IfOk result (λ split. length split.2.now < length bytes.now) }
{
    let (place, behind) = split_half(bytes)?;
    let (number, behind) = split_word(behind)?;
    Ok((place as usize, number, behind))
}
