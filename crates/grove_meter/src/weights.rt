ghost use Rattle.std.specs.Prelude.{◌≡◌, ◌<◌, ◌≤◌, ◌==◌, not, length};
ghost use Rattle.grove_base.specs.Numbers.{count_below};
ghost use Rattle.grove_tree.specs.Trees.{weight_of};
ghost use Rattle.grove_meter.specs.Waits.{new_weight_of, reweighed};

use crate::WaitRule;
use grove_tree::{Gate, HEAVIEST, Tree};
use std::thread::Threads;

/// The weight of a node once it was waited for so many times: 1, half of what the old weight is above 1, rounded down,
/// and the waits, added up, but at most 1,000.
pub fn new_weight(weight: u32, waits: u32) -> u32
    requires { (1 ≤ weight) × (weight ≤ 1000) }
    ensures { result ≡ new_weight_of weight waits }
{
    let sum = 1 + u64::from(weight - 1) / 2 + u64::from(waits);
    sum.min(u64::from(HEAVIEST)) as u32
}

/// Gives each node of the tree its new weight by the waits at its number. The result is the number of weights changed.
/// Before a node's weight is made the gate is called with the node's number, and 0.
pub fn reweigh<R: Threads + Sync, G: Gate + Sync>(
    rt: &R,
    tree: &mut Tree,
    waits: &[u32],
    workers: u32,
    gate: &G,
) -> u32
    requires workers { (1 ≤ workers) × (workers ≤ 16) }
    requires waits { length waits.now ≡ length tree.old }
    ensures rows { tree.new ≡ reweighed waits.now tree.old }
    ensures count { result
        ≡ count_below (length tree.old) (λ node. not (weight_of tree.new node == weight_of tree.old node)) }
{
    let nodes = tree.len();
    prove!(waits.len() == nodes as usize);
    tree.map_weights(rt, &WaitRule::new(waits), workers, gate)
}

/// The same by the caller alone, who starts no thread.
pub fn reweigh_alone(tree: &mut Tree, waits: &[u32]) -> u32
    requires waits { length waits.now ≡ length tree.old }
    ensures rows { tree.new ≡ reweighed waits.now tree.old }
    ensures count { result
        ≡ count_below (length tree.old) (λ node. not (weight_of tree.new node == weight_of tree.old node)) }
{
    let nodes = tree.len();
    prove!(waits.len() == nodes as usize);
    tree.map_weights_alone(&WaitRule::new(waits))
}
