ghost use Rattle.std.specs.Prelude.{◌≡◌, ◌<◌, length, IfOk};
ghost use Rattle.grove_tree.specs.Trees.{depth_of};
ghost use Rattle.grove_tree.specs.Rules.{AreTreeRows};
ghost use Rattle.grove_tree.specs.BuiltRows.{rows_of};
ghost use Rattle.grove_tree.specs.Depths.{AreDepths};

use crate::Row;
use crate::rules::parent_of_row;
use std::alloc::{AllocError, Global};

/// The depth of the row's node, by those of the nodes before it.
fn depth_after(rows: &[Row], before: &[u32], row: u32) -> u32
    requires tree { AreTreeRows (rows_of rows.now) }
    requires within { row < length rows.now }
    requires before { AreDepths (rows_of rows.now) row before.now }
    ensures { result ≡ depth_of (rows_of rows.now) row }
{
    match parent_of_row(rows, row) {
        Some(parent) => before[parent as usize] + 1,
        None => 0,
    }
}

/// The depths of the nodes, by their numbers.
pub fn depths_of(alloc: Global, rows: &[Row]) -> Result<Vec<u32>, AllocError>
    requires { AreTreeRows (rows_of rows.now) }
    ensures { IfOk result (λ depths. AreDepths (rows_of rows.now) (length rows.now) depths.items) }
{
    let mut depths = Vec::with_capacity(alloc, rows.len())?;
    for row in 0..rows.len() as u32 {
        let depth = depth_after(rows, &depths, row);
        depths.push(depth)?;
    }
    Ok(depths)
}
