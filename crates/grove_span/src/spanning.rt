ghost use Rattle.std.specs.Prelude.{◌≡◌, length, IsOk, IfOk, map};
ghost use Rattle.grove_access.specs.Lists.{nodes_of, lengths_of, AreNodes};
ghost use Rattle.grove_access.specs.Forced.{forced_nodes};
ghost use Rattle.grove_span.specs.SpanRows.{node_of_row, HaveParents, HaveWeights, HaveAccesses};

use crate::SpanRow;
use crate::lowest::lowest_common;
use crate::rows::forced_rows;
use crate::targets::targets_of;
use grove_access::AccessList;
use grove_tree::{NoMemory, Tree};
use std::alloc::Global;

/// The rows of the nodes that the list forces, ascending: those above some accessed node, and below or at the lowest
/// node that is above all accessed ones.
pub fn span(alloc: Global, tree: &Tree, list: &AccessList) -> Result<Vec<SpanRow>, NoMemory>
    requires fits { AreNodes tree.now (nodes_of list.now) }
    ensures nodes { IfOk result (λ rows. map node_of_row rows.items ≡ forced_nodes tree.now (nodes_of list.now)) }
    ensures parents { IfOk result (λ rows. HaveParents tree.now (nodes_of list.now) rows.items) }
    ensures weights { IfOk result (λ rows. HaveWeights tree.now rows.items) }
    ensures accesses { IfOk result (λ rows. HaveAccesses (nodes_of list.now) (lengths_of list.now) rows.items) }
    ensures empty { length list.now ≡ 0 → IsOk result }
{
    if list.len() == 0 {
        return Ok(Vec::new(alloc));
    }
    // That the rows are a tree's is told with their number.
    let _nodes = tree.len();
    let targets = targets_of(alloc, list)?;
    let top = lowest_common(tree, &targets);
    forced_rows(alloc, tree, list, top, &targets)
}
