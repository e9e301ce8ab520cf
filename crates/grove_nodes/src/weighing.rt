//! A kept tree whose weights learn from waits.
ghost use Rattle.std.specs.Prelude.{◌≤◌, length};
ghost use Rattle.grove_nodes.specs.Numbered.{Begins};
ghost use Rattle.grove_nodes.specs.Weighing.{Reweighs, weights_in};

use crate::Status;
use grove_meter::reweigh_alone;
use grove_tree::{Node, Tree};

/// Gives each node its new weight by the waits at its number. `changed` is then how many weights have changed. If there
/// is any room for weights, they are put there; if it is too little, `changed` is how many there are, and none is new.
pub fn reweigh_nodes(
    tree: &mut Tree,
    waits: &[u32],
    weights: &mut [u32],
    changed: &mut u32,
) -> Status
    ensures { Reweighs waits.now tree.old tree.new
        (record { before = weights.old; after = weights.new; count_before = changed.old; count_after = changed.new })
        result }
{
    let nodes = tree.len();
    if waits.len() != nodes as usize {
        return Status::Refused;
    }
    if !weights.is_empty() && weights.len() < nodes as usize {
        *changed = nodes;
        return Status::Room;
    }
    *changed = reweigh_alone(tree, waits);
    if !weights.is_empty() {
        put_weights(tree, weights);
    }
    Status::Done
}

fn put_weights(tree: &Tree, weights: &mut [u32])
    requires { length tree.now ≤ length weights.old }
    ensures { Begins (weights_in tree.now) weights.old weights.new }
{
    for node in 0..tree.len() {
        weights[node as usize] = tree.weight(Node::new(node));
    }
}
