ghost use Rattle.std.specs.Prelude.{◌≡◌, ◌<◌, ◌≤◌, ℕ, pos, ◌≤ℤ◌, length, map, slice_index, true, IfOk};
ghost use borrow.Author.Differences.{up};
ghost use Rattle.grove_access.specs.Lists.{lengths_of};
ghost use Rattle.grove_flow.specs.Networks.{place};
ghost use Rattle.grove_build.specs.Networks.{lowered, AreSlots, AreRising, IsBetween, IsGap};

use grove_access::AccessList;
use grove_tree::NoMemory;
use std::alloc::Global;

/// Lowers each place that comes after all slots to their end.
pub fn lower(places: &mut [i64], slots: u32)
    ensures { places.new ≡ map (lowered (pos slots)) places.old }
{
    for place in places.iter_mut() {
        if i64::from(slots) < *place {
            *place = i64::from(slots);
        }
    }
}

/// How many slots lie before each gap.
pub fn slots_of(alloc: Global, list: &AccessList) -> Result<Vec<u32>, NoMemory>
    ensures { IfOk result (λ slots. AreSlots (lengths_of list.now) (length list.now) slots.items) }
{
    let mut slots = Vec::with_capacity(alloc, list.len() as usize + 1)?;
    let mut before = 0;
    slots.push(before)?;
    for access in 0..list.len() {
        before += list.get(access).length;
        slots.push(before)?;
    }
    Ok(slots)
}

/// The gaps in which the places are.
pub fn gaps_of(alloc: Global, slots: &[u32], places: &[i64]) -> Result<Vec<u32>, NoMemory>
    requires few { length slots.now ≤ 65 }
    requires rising { AreRising slots.now }
    requires between { (v : ℕ) → IsBetween slots.now (place places.now v) }
    ensures size { IfOk result (λ gaps. length gaps.items ≡ length places.now) }
    ensures gaps { IfOk result (λ gaps. (v : ℕ) → v < length places.now
        → IsGap slots.now (place places.now v) (slice_index gaps.items v)) }
{
    let mut gaps = Vec::with_capacity(alloc, places.len())?;
    // Neighbouring rows are often locked in one gap, and released in one.
    let mut guess = 0;
    let mut latest = 0;
    for place in places {
        let gap = gap_of(slots, slot_of(*place), guess);
        guess = latest;
        latest = gap;
        gaps.push(gap)?;
    }
    Ok(gaps)
}

/// The place as a number of slots.
fn slot_of(place: i64) -> u32
    requires low { pos 0 ≤ℤ place }
    requires high { place ≤ℤ pos 4294967295 }
    ensures { result ≡ up place }
{
    place as u32
}

/// The gap before which there are so many slots. Where the accesses before it are a slot long each, it has that number.
fn gap_of(slots: &[u32], before: u32, guess: u32) -> u32
    requires few { length slots.now ≤ 65 }
    requires rising { AreRising slots.now }
    requires between { (gap : ℕ) × (gap < length slots.now) × (slice_index slots.now gap ≡ before) }
    ensures within { result < length slots.now }
    ensures at { slice_index slots.now result ≡ before }
{
    if is_gap(slots, before, before) {
        return before;
    }
    if is_gap(slots, before, guess) {
        return guess;
    }
    match slots.binary_search(&before) {
        Ok(gap) => gap as u32,
        Err(_) => unreachable!(),
    }
}

/// Are there so many slots before the gap?
fn is_gap(slots: &[u32], before: u32, gap: u32) -> bool
    ensures within { result ≡ true → gap < length slots.now }
    ensures at { result ≡ true → slice_index slots.now gap ≡ before }
{
    let gap = gap as usize;
    gap < slots.len() && slots[gap] == before
}
