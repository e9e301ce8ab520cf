ghost use Rattle.std.specs.Prelude.{◌≡◌, map, IfErr, IfOk};
ghost use Rattle.csv.specs.Records.{fields_of};
ghost use Rattle.grove_table.specs.Tables.{AreRowsOf};

use crate::TableFault;
use csv::{ByteRecord, Error, ReaderBuilder};
use std::alloc::Global;
use std::io::Read;

/// What ends a last line that has no end of its own. The reader takes a comment for a row of one empty field if the
/// text ends within it.
const LINE_END: &[u8] = b"\n";

/// The rows of a text of CSV, in which lines that begin with `#` are comments.
pub fn rows_in(alloc: Global, text: &[u8]) -> Result<Vec<ByteRecord>, TableFault>
    ensures rows { IfOk result (λ rows. AreRowsOf text.now (map fields_of rows.items)) }
    ensures memory { IfErr result (λ fault. fault ≡ TableFault.Memory) }
{
    match records_in(alloc, text) {
        Ok(rows) => Ok(rows),
        Err(_) => Err(TableFault::Memory),
    }
}

/// The same. Of records of any length, read from memory, none is refused unless memory runs out.
fn records_in(alloc: Global, text: &[u8]) -> Result<Vec<ByteRecord>, Error>
    ensures { IfOk result (λ rows. AreRowsOf text.now (map fields_of rows.items)) }
{
    let rdr = ReaderBuilder::new()
        .has_headers(false)
        .flexible(true)
        .comment(Some(b'#'))
        .from_reader(alloc, text.chain(LINE_END));
    let mut rows = Vec::new(alloc);
    for row in rdr.into_byte_records() {
        if rows.push(row?).is_err() {
            return Err(Error::out_of_memory());
        }
    }
    Ok(rows)
}
