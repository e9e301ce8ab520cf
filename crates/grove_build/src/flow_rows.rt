ghost use Rattle.std.specs.Prelude.{◌≡◌, ◌+◌, ◌≤◌, ◌++◌, length, sum_by, None, IfOk};
ghost use Rattle.grove_build.specs.Networks.{part, width, row_width, row_amounts, IsReadRow, IsRead};

use crate::kinds::Kind;
use grove_proof::FlowRow;
use grove_span::SpanRow;
use grove_tree::NoMemory;
use std::alloc::Global;

/// The rows of the flow, read from what is sent along the rows' arcs.
pub fn flow_rows(alloc: Global, rows: &[SpanRow], amounts: &[u64]) -> Result<Vec<FlowRow>, NoMemory>
    requires { length amounts.now ≡ sum_by row_width rows.now }
    ensures { IfOk result (λ flow. IsRead rows.now amounts.now flow.items) }
{
    let mut flow = Vec::with_capacity(alloc, rows.len())?;
    let mut rest = amounts;
    for row in rows {
        let (read, behind) = read_row(row, rest);
        flow.push(read)?;
        rest = behind;
    }
    Ok(flow)
}

/// The row of the flow, and the amounts of the rows that come after it.
fn read_row<'a>(row: &SpanRow, amounts: &'a [u64]) -> (FlowRow, &'a [u64])
    requires { row_width row.now ≤ length amounts.now }
    ensures row { IsReadRow row.now result.0 }
    ensures whole { row_amounts row.now result.0 ++ result.1.now ≡ amounts.now }
{
    let (above, rest) = next(Kind::Above.bound(row), amounts);
    let (held, rest) = next(Kind::Held.bound(row), rest);
    let (first, rest) = next(Kind::First.bound(row), rest);
    let (last, rest) = next(Kind::Last.bound(row), rest);
    let (own, rest) = next(Kind::Own.bound(row), rest);
    let flow = FlowRow {
        node: row.node,
        above,
        held,
        first,
        last,
        own,
    };
    (flow, rest)
}

/// What is sent along the next arc, where the row has it, and the amounts that come after it.
fn next(bound: Option<u32>, amounts: &[u64]) -> (u64, &[u64])
    requires { width bound ≤ length amounts.now }
    ensures whole { part bound (λ x. result.0) ++ result.1.now ≡ amounts.now }
    ensures size { length amounts.now ≡ width bound + length result.1.now }
    ensures none { bound ≡ None → result.0 ≡ 0 }
{
    match (bound, amounts.split_first()) {
        (Some(_), Some((amount, rest))) => (*amount, rest),
        _ => (0, amounts),
    }
}
