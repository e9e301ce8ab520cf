ghost use Rattle.std.specs.Prelude.{IfOk};
ghost use Rattle.grove_access.specs.Lists.{nodes_of};
ghost use Rattle.grove_span.specs.Ways.{AreAscending};

use grove_access::AccessList;
use grove_tree::NoMemory;
use std::alloc::Global;

/// The numbers of the accessed nodes, ascending, each as often as it is accessed.
pub fn targets_of(alloc: Global, list: &AccessList) -> Result<Vec<u32>, NoMemory>
    ensures { IfOk result (λ targets. AreAscending (nodes_of list.now) targets.items) }
{
    let mut targets = Vec::with_capacity(alloc, list.len() as usize)?;
    for access in 0..list.len() {
        targets.push(list.get(access).node.number())?;
    }
    targets.sort()?;
    Ok(targets)
}
