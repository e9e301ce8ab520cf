ghost use Rattle.std.specs.Prelude.{◌≡◌, IfOk};
ghost use Rattle.grove_tree.specs.BuiltRows.{row_of, rows_of};

use crate::Row;
use std::alloc::{AllocError, Global};

fn copy_of_row(row: &Row) -> Result<Row, AllocError>
    ensures { IfOk result (λ copy. row_of copy ≡ row_of row.now) }
{
    Ok(Row {
        parent: row.parent,
        name: row.name.clone()?,
        weight: row.weight,
    })
}

/// The rows again.
pub fn copy_of_rows(alloc: Global, rows: &[Row]) -> Result<Vec<Row>, AllocError>
    ensures { IfOk result (λ copy. rows_of copy.items ≡ rows_of rows.now) }
{
    let mut copies = Vec::with_capacity(alloc, rows.len())?;
    for row in rows {
        copies.push(copy_of_row(row)?)?;
    }
    Ok(copies)
}
