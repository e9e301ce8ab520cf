ghost use Rattle.std.specs.Prelude.{◌≡◌, ◌≤◌, length, IfOk};
ghost use Rattle.grove_core.specs.Laws.{IsEachOnce};
ghost use Rattle.grove_run.specs.Runs.{places_of};

use grove_tree::NoMemory;
use std::alloc::Global;

/// For each of so many jobs its place in an order that has each of them once.
pub fn places_in(alloc: Global, order: &[u32], jobs: usize) -> Result<Vec<u32>, NoMemory>
    requires once { IsEachOnce order.now jobs }
    requires few { length order.now ≤ 256 }
    ensures { IfOk result (λ places. places.items ≡ places_of order.now jobs) }
{
    let mut places = vec![in alloc; 0; jobs]?;
    for (place, txn) in order.iter().enumerate() {
        places[*txn as usize] = place as u32;
    }
    Ok(places)
}
