ghost use Rattle.std.specs.Prelude.{◌≡◌, ◌↔◌, ℤ, ℕ, IfOk, IfErr, OnOk, IsTrue, IsUtf8, MatchOption};
ghost use Rattle.csv.specs.Records.{fields_of};
ghost use Rattle.grove_access.specs.Effects.{fits};
ghost use Rattle.grove_table.specs.Tables.{field_of, IsLine, IsValueIn, IsWeightIn};
ghost use Rattle.grove_table.specs.Refusals.{IsHeader, IsWellNamed, IsFaultless};
ghost use Rattle.grove_table.specs.Rows.{IsNamedAt, IsHeaderFault, IsRowFault};

use crate::paths::fault_of_path;
use crate::{Line, Reason, TableFault};
use csv::ByteRecord;
use grove_tree::HEAVIEST;
use std::alloc::Global;

/// How many fields a line has at most.
const FIELDS: usize = 3;

/// Does a row say what the fields of the others are?
pub fn is_header(row: &ByteRecord) -> bool
    ensures { IsTrue result ↔ IsHeader (fields_of row.now) }
{
    bytes_at(row, 0) == "path".as_bytes()
}

/// Refuses a header with other names, or with names in another order.
pub fn see_header(alloc: Global, row: &ByteRecord, number: u64) -> Result<(), TableFault>
    ensures named { OnOk result (IsWellNamed (fields_of row.now)) }
    ensures refused { IfErr result (IsHeaderFault (fields_of row.now)) }
{
    for place in 0..row.len() {
        if !is_named_at(row, place) {
            return Err(TableFault::of_line(alloc, number, Reason::BadHeader, ""));
        }
    }
    Ok(())
}

/// Has the field the name of its place?
fn is_named_at(row: &ByteRecord, place: usize) -> bool
    ensures { IsTrue result ↔ IsNamedAt (fields_of row.now) place }
{
    let field = bytes_at(row, place);
    match place {
        0 => field == "path".as_bytes(),
        1 => field == "weight".as_bytes(),
        2 => field == "value".as_bytes(),
        _ => false,
    }
}

/// The line that a row of CSV is.
pub fn line_of(alloc: Global, row: &ByteRecord, number: u64) -> Result<Line, TableFault>
    ensures line { IfOk result (IsLine (fields_of row.now)) }
    ensures faultless { OnOk result (IsFaultless (fields_of row.now)) }
    ensures refused { IfErr result (IsRowFault (fields_of row.now)) }
{
    if row.len() > FIELDS {
        return Err(TableFault::of_line(alloc, number, Reason::BadFields, ""));
    }
    let (Some(path), Some(weight), Some(value)) = (
        text_at(row, 0),
        text_at(row, 1),
        text_at(row, 2),
    ) else {
        return Err(TableFault::of_line(alloc, number, Reason::NotText, ""));
    };
    if let Some(reason) = fault_of_path(path) {
        return Err(TableFault::of_line(alloc, number, reason, path));
    }
    let Some(weight_read) = weight_in(weight) else {
        return Err(TableFault::of_line(alloc, number, Reason::BadWeight, weight));
    };
    let Some(value_read) = value_in(value) else {
        return Err(TableFault::of_line(alloc, number, Reason::BadValue, value));
    };
    Ok(Line {
        path: String::from_str(alloc, path)?,
        weight: weight_read,
        value: value_read,
        number,
    })
}

/// The text of a field, or none where it isn't text.
fn text_at(row: &ByteRecord, place: usize) -> Option<&str>
    ensures { MatchOption result (¬ IsUtf8 (field_of (fields_of row.now) place))
        (λ text. (text.now ≡ field_of (fields_of row.now) place) × IsUtf8 (field_of (fields_of row.now) place)) }
{
    str::from_utf8(bytes_at(row, place)).ok()
}

/// The bytes of a field; one that isn't there is empty.
fn bytes_at(row: &ByteRecord, place: usize) -> &[u8]
    ensures { result.now ≡ field_of (fields_of row.now) place }
{
    row.get(place).unwrap_or(b"")
}

/// The weight that a field says; an empty one says 1.
fn weight_in(text: &str) -> Option<u32>
    ensures { MatchOption result ((weight : ℕ) → ¬ IsWeightIn text.now weight) (IsWeightIn text.now) }
{
    if text.is_empty() {
        return Some(1);
    }
    let weight = text.parse::<u32>().ok()?;
    if 1 <= weight && weight <= HEAVIEST {
        Some(weight)
    } else {
        None
    }
}

/// The value that a field says; an empty one says 0.
fn value_in(text: &str) -> Option<i64>
    ensures { MatchOption result ((value : ℤ) → IsTrue (fits value) → ¬ IsValueIn text.now value)
        (λ value. IsValueIn text.now value × IsTrue (fits value)) }
{
    if text.is_empty() {
        return Some(0);
    }
    text.parse::<i64>().ok()
}
