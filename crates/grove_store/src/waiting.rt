//! The waits of a store's nodes, with those of a run.
ghost use Rattle.std.specs.Prelude.{◌≡◌, ℕ, ◌<◌, ◌≤◌, length, slice_get, Some, All, IfOk, get_or};
ghost use Rattle.grove_core.specs.Kept.{past_of};
ghost use Rattle.grove_core.specs.Runs.{plan_of};
ghost use Rattle.grove_store.specs.Rounds.{waits_after};
ghost use Rattle.grove_store.specs.Parts.{waits_at, AreOldOrNew};

use grove_core::Core;
use grove_plan::Step;
use grove_tree::NoMemory;
use std::alloc::Global;

/// No node has more waits.
const MOST_WAITS: u32 = 1000;

/// The waits with those of the run. Only at a node that some job's plan locks there can be more.
pub fn waits_after(alloc: Global, core: &Core, waits: &[u32]) -> Result<Vec<u32>, NoMemory>
    requires long { length waits.now ≡ length core.now.tree }
    requires few { All (λ waits. waits ≤ 1000) waits.now }
    ensures { IfOk result (λ all. all.items ≡ waits_after core.now.jobs (past_of core.now) waits.now) }
{
    let mut all = Vec::from_slice(alloc, waits)?;
    for txn in 0..core.jobs().len() {
        add_waits(core, txn, waits, &mut all);
    }
    Ok(all)
}

/// Puts the waits with those of the run at each node that the job's plan locks.
fn add_waits(core: &Core, txn: usize, waits: &[u32], all: &mut [u32])
    requires job { txn < length core.now.jobs }
    requires long { length waits.now ≡ length core.now.tree }
    requires same { length all.old ≡ length waits.now }
    ensures kept { AreOldOrNew (waits_at core.now.jobs (past_of core.now) waits.now) all.old all.new }
    ensures added { (place node : ℕ) → slice_get (plan_of core.now.jobs txn) place ≡ Some (Step.Lock node)
        → get_or all.new node 0 ≡ waits_at core.now.jobs (past_of core.now) waits.now node }
{
    let steps = core.jobs()[txn].plan.steps();
    for step in steps {
        if let Step::Lock(node) = step {
            let number = node.number() as usize;
            let sum = waits[number].saturating_add(core.waits(*node));
            all[number] = sum.min(MOST_WAITS);
        }
    }
}
