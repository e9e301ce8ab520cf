ghost use Rattle.std.specs.Prelude.{map, IfErr, IfOk, OnOk};
ghost use Rattle.std.specs.List.{AllZip};
ghost use Rattle.csv.specs.Records.{fields_of};
ghost use Rattle.grove_table.specs.Tables.{AreLinesOf, IsLine};
ghost use Rattle.grove_table.specs.Refusals.{AreFaultless, IsTextFaultless, IsTextRefused};
ghost use Rattle.grove_table.specs.Rows.{AreRowsRefused};

use crate::fields::{is_header, line_of, see_header};
use crate::line_numbers::LineNumbers;
use crate::rows::rows_in;
use crate::{Line, TableFault};
use csv::ByteRecord;
use std::alloc::Global;

/// The lines of a text of CSV.
pub fn read_table(alloc: Global, text: &[u8]) -> Result<Vec<Line>, TableFault>
    ensures read { IfOk result (λ lines. AreLinesOf text.now lines.items) }
    ensures faultless { OnOk result (IsTextFaultless text.now) }
    ensures refused { IfErr result (IsTextRefused text.now) }
{
    let rows = rows_in(alloc, text)?;
    let mut numbers = LineNumbers::new(text);
    match rows.split_first() {
        Some((first, below)) if is_header(first) => {
            see_header(alloc, first, numbers.number_from(start_of(first)))?;
            lines_of(alloc, below, &mut numbers)
        }
        _ => lines_of(alloc, &rows, &mut numbers),
    }
}

/// The lines that rows are.
fn lines_of(
    alloc: Global,
    rows: &[ByteRecord],
    numbers: &mut LineNumbers<'_>,
) -> Result<Vec<Line>, TableFault>
    ensures read { IfOk result (λ lines. AllZip IsLine (map fields_of rows.now) lines.items) }
    ensures faultless { OnOk result (AreFaultless (map fields_of rows.now)) }
    ensures refused { IfErr result (AreRowsRefused (map fields_of rows.now)) }
{
    let mut lines = Vec::new(alloc);
    for place in 0..rows.len() {
        let row = &rows[place];
        let number = numbers.number_from(start_of(row));
        let line = line_of(alloc, row, number)?;
        lines.push(line)?;
    }
    Ok(lines)
}

/// The place in its text at which the reader began to look for a row.
fn start_of(row: &ByteRecord) -> u64 {
    match row.position() {
        Some(position) => position.byte(),
        None => 0,
    }
}
