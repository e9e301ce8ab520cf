ghost use Rattle.std.specs.Prelude.{◌≡◌, ◌<◌, ◌≤◌, ◌-◌, ◌*◌, length, IfOk, IfSome, is_some};
ghost use Rattle.grove_access.specs.Lists.{nodes_of, lengths_of};
ghost use Rattle.grove_access.specs.Slots.{slots_before};
ghost use Rattle.grove_plan.specs.Plans.{IsLegal};
ghost use Rattle.grove_draw.specs.Pictures.{IsBarOf};
ghost use Rattle.grove_draw.specs.Bars.{is_locked};

use grove_access::AccessList;
use grove_base::NoMemory;
use grove_plan::Plan;
use grove_tree::{Node, Tree};
use std::alloc::Global;

/// A node that a plan locks, from its lock to its release.
#[derive(Debug, Drop)]
pub struct Bar {
    pub node: Node,
    pub path: String,
    /// How many parents are above the node.
    pub depth: u32,
    pub weight: u32,
    /// How many accesses the plan does before the lock.
    pub lock: u32,
    /// How many accesses the plan does before the release.
    pub release: u32,
    /// The weight for each slot from the lock to the release.
    pub cost: u64,
}

/// The bar of the node, if the plan locks it.
pub fn bar_of(
    alloc: Global,
    tree: &Tree,
    list: &AccessList,
    plan: &Plan,
    node: Node,
) -> Result<Option<Bar>, NoMemory>
    requires legal { IsLegal tree.now (nodes_of list.now) plan.now }
    requires within { node < length tree.now }
    ensures locked { IfOk result (λ found. is_some found ≡ is_locked plan.now node) }
    ensures node { IfOk result (λ found. IfSome found (λ bar. bar.node ≡ node)) }
    ensures bar { IfOk result (λ found. IfSome found (IsBarOf tree.now (lengths_of list.now) plan.now)) }
{
    let Some(lock) = plan.lock_slot(node) else {
        return Ok(None);
    };
    let Some(release) = plan.release_slot(node) else {
        unreachable!()
    };
    let weight = tree.weight(node);
    Ok(Some(Bar {
        node,
        path: tree.path_of(alloc, node)?,
        depth: tree.depth(node),
        weight,
        lock,
        release,
        cost: cost_of(list, weight, lock, release),
    }))
}

/// What a node of this weight costs that a legal plan locks and releases at these slots.
fn cost_of(list: &AccessList, weight: u32, lock: u32, release: u32) -> u64
    requires order { lock ≤ release }
    requires within { release ≤ length list.now }
    ensures { result ≡ weight * (slots_before (lengths_of list.now) release - slots_before (lengths_of list.now) lock) }
{
    let held = list.slots_before(release) - list.slots_before(lock);
    u64::from(weight) * u64::from(held)
}
