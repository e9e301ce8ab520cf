//! The names of a tree's nodes.
ghost use Rattle.std.specs.Prelude.{◌≡◌, ◌<◌, [], length, IfOk};
ghost use Rattle.grove_tree.specs.Trees.{IsTree, name_of};
ghost use Rattle.grove_tree.specs.Rules.{IsWithinLimits};
ghost use Rattle.grove_tree.specs.Weights.{unweighed};
ghost use Rattle.grove_effects.specs.Snapshots.{names_of};
ghost use Rattle.grove_data.specs.Parts.{last_name};

use grove_base::NoMemory;
use grove_effects::NodeName;
use grove_tree::{Node, Tree};
use std::alloc::Global;

/// What stands behind the last slash.
fn behind_slashes(alloc: Global, path: &str) -> Result<Vec<u8>, NoMemory>
    ensures { IfOk result (λ name. name.items ≡ last_name [] path.now) }
{
    let bytes = path.as_bytes();
    let mut name = Vec::new(alloc);
    for byte in bytes {
        if *byte == b'/' {
            name.clear();
        } else {
            name.push(*byte)?;
        }
    }
    Ok(name)
}

/// The name of a node: what its path ends with.
fn name_of(alloc: Global, tree: &Tree, node: Node) -> Result<Vec<u8>, NoMemory>
    requires within { node < length tree.now }
    requires tree { IsTree tree.now × IsWithinLimits tree.now }
    ensures { IfOk result (λ name. name.items ≡ name_of tree.now node) }
{
    let path = tree.path_of(alloc, node)?;
    behind_slashes(alloc, &path)
}

/// A node, if there is one, by its number.
fn number_of(node: Option<Node>) -> Option<u32>
    ensures { result ≡ node }
{
    match node {
        Some(node) => Some(node.number()),
        None => None,
    }
}

/// The names of all nodes, in order.
pub(crate) fn names_of(alloc: Global, tree: &Tree) -> Result<Vec<NodeName>, NoMemory>
    ensures { IfOk result (λ names. names_of names.items ≡ unweighed tree.now) }
{
    let mut names = Vec::new(alloc);
    for number in 0..tree.len() {
        let node = Node::new(number);
        let parent = number_of(tree.parent(node));
        let name = name_of(alloc, tree, node)?;
        names.push(NodeName { parent, name })?;
    }
    Ok(names)
}
