ghost use Rattle.std.specs.Prelude.{ℕ, ◌<◌, length};
ghost use Rattle.grove_tree.specs.Trees.{IsAbove, IsTree};
ghost use Rattle.grove_access.specs.Lists.{AreNodes};
ghost use Rattle.grove_span.specs.Ways.{IsAscending, IsLowestCommon};

use grove_tree::{Node, Tree};

/// The lowest node at or above `from` that is above `target` too.
fn climb(tree: &Tree, from: Node, target: Node) -> Node
    requires tree { IsTree tree.now }
    requires from { from < length tree.now }
    requires target { target < length tree.now }
    ensures target { IsAbove tree.now result target }
    ensures from { IsAbove tree.now result from }
    ensures within { result < length tree.now }
    ensures lowest { (node : ℕ) → IsAbove tree.now node from → IsAbove tree.now node target
        → IsAbove tree.now node result }
{
    if tree.is_above(from, target) {
        return from;
    }
    match tree.parent(from) {
        Some(parent) => climb(tree, parent, target),
        None => unreachable!(),
    }
}

/// The lowest node that is above all targets. Nodes are numbered in preorder, so what is above the first and the last
/// of them is above all.
pub fn lowest_common(tree: &Tree, targets: &[u32]) -> Node
    requires tree { IsTree tree.now }
    requires within { AreNodes tree.now targets.now }
    requires ascending { IsAscending targets.now }
    requires some { 0 < length targets.now }
    ensures lowest { IsLowestCommon tree.now targets.now result }
    ensures within { result < length tree.now }
{
    let first = Node::new(targets[0]);
    let last = Node::new(targets[targets.len() - 1]);
    climb(tree, first, last)
}
