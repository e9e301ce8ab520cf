ghost use Rattle.std.specs.Prelude.{◌≡◌, ◌≤◌, length, IfOk, IsOk, All};
ghost use Rattle.std.specs.List.{AllZip};
ghost use Rattle.grove_access.specs.Lists.{nodes_of, AreNodes};
ghost use Rattle.grove_build.specs.Batches.{IsPlanned, ArePlannedAlike};

use crate::kept_plans::KeptPlans;
use crate::planning::Planned;
use grove_access::AccessList;
use grove_tree::{Gate, NoMemory, Tree};
use std::alloc::Global;
use std::thread::Threads;

/// What the planner answers for each list, in the lists' order. Lists with the same targets are planned once. The only
/// error is running out of memory. Up to `workers` threads plan at once. The gate is called with k, and 0, just before
/// the k-th of the distinct lists is planned, counted from 0 in the order in which they first occur.
pub fn plan_batch<R: Threads + Sync, G: Gate + Sync>(
    rt: &R,
    alloc: Global,
    tree: &Tree,
    lists: &[AccessList],
    workers: u32,
    gate: &G,
) -> Result<Vec<Planned>, NoMemory>
    requires few { length lists.now ≤ 256 }
    requires workers { (1 ≤ workers) × (workers ≤ 16) }
    requires fit { All (λ list. AreNodes tree.now (nodes_of list)) lists.now }
    ensures planned { IfOk result (λ all. AllZip (IsPlanned tree.now) lists.now all.items) }
    ensures alike { IfOk result (λ all. ArePlannedAlike lists.now all.items) }
    ensures empty { length lists.now ≡ 0 → IsOk result }
{
    if lists.is_empty() {
        return Ok(Vec::new(alloc));
    }
    let mut plans = KeptPlans::new(alloc);
    plans.fill(rt, alloc, tree, lists, workers, gate)?;
    plans.copies_of(alloc, lists)
}
