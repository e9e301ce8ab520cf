ghost use Rattle.std.specs.Prelude.{◌≡◌, ℕ, ◌+◌, ◌*◌, ◌<◌, ◌≤◌, length, slice_index, slice_index_or, false, IfOk};
ghost use Rattle.grove_build.specs.Networks.{HaveOwnParents};
ghost use Rattle.grove_build.specs.Stays.{is_needed, stay_of, stays_from, rows_cost};

use grove_span::SpanRow;
use grove_tree::{NoMemory, Node};
use std::alloc::Global;

/// When a node is held.
#[derive(Clone, Copy, Debug)]
pub struct Stay {
    pub node: Node,
    /// The gaps of its lock and its unlock.
    pub lock: u32,
    pub release: u32,
    /// Does the unlock come before the locks of its gap?
    pub early: bool,
}

/// Which rows' nodes have a child that is locked in the gap of their own unlock.
pub fn needed_of(alloc: Global, rows: &[SpanRow], gaps: &[u32]) -> Result<Vec<bool>, NoMemory>
    requires few { length rows.now ≤ 4096 }
    requires parents { HaveOwnParents rows.now }
    requires gaps { length gaps.now ≡ 2 * length rows.now + 1 }
    ensures size { IfOk result (λ needed. length needed.items ≡ length rows.now) }
    ensures needed { IfOk result (λ needed. (j : ℕ) → j < length rows.now → slice_index_or needed.items j false
        ≡ is_needed rows.now gaps.now (length rows.now) j) }
{
    let mut needed = vec![in alloc; false; rows.len()]?;
    for (k, row) in rows.iter().enumerate() {
        if let Some(parent) = row.parent {
            let parent = parent as usize;
            if gaps[2 * k] == gaps[2 * parent + 1] {
                needed[parent] = true;
            }
        }
    }
    Ok(needed)
}

pub fn stays_of(
    alloc: Global,
    rows: &[SpanRow],
    gaps: &[u32],
    needed: &[bool],
) -> Result<Vec<Stay>, NoMemory>
    requires few { length rows.now ≤ 4096 }
    requires gaps { length gaps.now ≡ 2 * length rows.now + 1 }
    requires needed { length needed.now ≡ length rows.now }
    ensures { IfOk result (λ stays. stays.items ≡ stays_from gaps.now needed.now 0 rows.now) }
{
    let mut stays = Vec::with_capacity(alloc, rows.len())?;
    for (k, row) in rows.iter().enumerate() {
        stays.push(stay_of(row, gaps, needed, k))?;
    }
    Ok(stays)
}

/// When the node of the row with the number k is held.
fn stay_of(row: &SpanRow, gaps: &[u32], needed: &[bool], k: usize) -> Stay
    requires gaps { 2 * k + 1 < length gaps.now }
    requires needed { k < length needed.now }
    ensures { result ≡ stay_of gaps.now needed.now k row.now }
{
    let lock = gaps[2 * k];
    let release = gaps[2 * k + 1];
    Stay {
        node: row.node,
        lock,
        release,
        early: lock < release && !needed[k],
    }
}

/// What it costs to hold each row's node from the gap of its lock to that of its unlock, in weight times slots.
pub fn cost_of(weights: &[u32], slots: &[u32], gaps: &[u32]) -> u64
    requires few { length weights.now ≤ 4096 }
    requires light { (k : ℕ) → slice_index weights.now k ≤ 1000 }
    requires gaps { length gaps.now ≡ 2 * length weights.now + 1 }
    requires within { (v : ℕ) → v < length gaps.now → slice_index gaps.now v < length slots.now }
    requires own { (k : ℕ) → k < length weights.now → slice_index slots.now (slice_index gaps.now (2 * k))
        ≤ slice_index slots.now (slice_index gaps.now (2 * k + 1)) }
    requires end { (gap : ℕ) → slice_index slots.now gap ≤ 64000 }
    ensures { result ≡ rows_cost weights.now slots.now gaps.now (length weights.now) }
{
    let mut cost = 0;
    for (k, weight) in weights.iter().enumerate() {
        let lock = slots[gaps[2 * k] as usize];
        let release = slots[gaps[2 * k + 1] as usize];
        cost += u64::from(*weight) * u64::from(release - lock);
    }
    cost
}
