ghost use Rattle.std.specs.Prelude.{◌≡◌, length, map, IfOk};
ghost use Rattle.grove_nodes.specs.Numbered.{numbered_row, row_of};

use grove_proof::FlowRow;
use grove_tree::{NoMemory, Node};
use std::alloc::Global;

/// A row of a flow, by the number of its node.
#[repr(C)]
#[derive(Clone, Copy)]
pub struct NumberedRow {
    pub node: u32,
    pub above: u64,
    pub held: u64,
    pub first: u64,
    pub last: u64,
    pub own: u64,
}

impl NumberedRow {
    fn of(row: FlowRow) -> NumberedRow
        ensures { result ≡ numbered_row row }
    {
        let FlowRow {
            node,
            above,
            held,
            first,
            last,
            own,
        } = row;
        NumberedRow {
            node: node.number(),
            above,
            held,
            first,
            last,
            own,
        }
    }

    fn row(self) -> FlowRow
        ensures { result ≡ row_of self }
    {
        FlowRow {
            node: Node::new(self.node),
            above: self.above,
            held: self.held,
            first: self.first,
            last: self.last,
            own: self.own,
        }
    }
}

pub fn numbered_rows(alloc: Global, rows: &[FlowRow]) -> Result<Vec<NumberedRow>, NoMemory>
    ensures { IfOk result (λ all. all.items ≡ map numbered_row rows.now) }
{
    let mut all = Vec::with_capacity(alloc, rows.len())?;
    for row in rows {
        all.push(NumberedRow::of(*row))?;
    }
    Ok(all)
}

pub fn rows_of(alloc: Global, rows: &[NumberedRow]) -> Result<Vec<FlowRow>, NoMemory>
    ensures all { IfOk result (λ all. all.items ≡ map row_of rows.now) }
    ensures many { IfOk result (λ all. length all.items ≡ length rows.now) }
{
    let mut all = Vec::with_capacity(alloc, rows.len())?;
    for row in rows {
        all.push(row.row())?;
    }
    Ok(all)
}
