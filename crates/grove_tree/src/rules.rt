ghost use Rattle.std.specs.Prelude.{◌≡◌, ℕ, ◌<◌, ◌≤◌, ◌↔◌, ◌&&◌, length, IsTrue, None, Some, bytes_eq, string_bytes};
ghost use Rattle.std.specs.List.{list_all};
ghost use Rattle.grove_base.specs.Numbers.{any_below};
ghost use Rattle.grove_tree.specs.Trees.{IsAbove, parent_of, weight_of, depth_of};
ghost use Rattle.grove_tree.specs.Rules.{is_name_byte, is_name, is_well_placed, is_well_named, is_twin, share_parent};
ghost use Rattle.grove_tree.specs.Rules.{is_weight, row_fault, rows_fault, tree_fault_of};
ghost use Rattle.grove_tree.specs.BuiltRows.{rows_of};
ghost use Rattle.grove_tree.specs.WellPlaced.{AreWellPlaced};
ghost use Rattle.grove_tree.specs.RowMarks.{AreNoted};

use crate::marks::Marks;
use crate::{Row, TreeFault};

const MOST_ROWS: usize = 4096;

/// No row of a tree lies deeper.
pub const DEEPEST: u32 = 32;

const LONGEST_NAME: usize = 32;

/// No row of a tree weighs more.
pub const HEAVIEST: u32 = 1000;

/// The parent that the row tells.
pub fn parent_of_row(rows: &[Row], row: u32) -> Option<u32>
    requires { row < length rows.now }
    ensures { result ≡ parent_of (rows_of rows.now) row }
{
    let row = &rows[row as usize];
    row.parent
}

/// Is `high` the row `low` or one above it?
pub fn is_on_way(rows: &[Row], high: u32, low: u32) -> bool
    requires within { low < length rows.now }
    requires rising { (row parent : ℕ) → row ≤ low → parent_of (rows_of rows.now) row ≡ Some parent → parent < row }
    ensures { IsTrue result ↔ IsAbove (rows_of rows.now) high low }
{
    let mut at = low;
    while at > high {
        match parent_of_row(rows, at) {
            Some(parent) => at = parent,
            None => return false,
        }
    }
    at == high
}

/// How many parents are above the row.
fn depth_of_row(rows: &[Row], row: u32) -> u32
    requires within { row < length rows.now }
    requires rising { (low parent : ℕ) → low ≤ row → parent_of (rows_of rows.now) low ≡ Some parent → parent < low }
    ensures { result ≡ depth_of (rows_of rows.now) row }
{
    let mut depth = 0;
    let mut at = row;
    while let Some(parent) = parent_of_row(rows, at) {
        depth += 1;
        at = parent;
    }
    depth
}

/// The first row has no parent, and another's is the row before it or above that row.
fn is_row_well_placed(rows: &[Row], row: u32) -> bool
    requires within { row < length rows.now }
    requires rising { (low parent : ℕ) → low < row → parent_of (rows_of rows.now) low ≡ Some parent → parent < low }
    ensures { result ≡ is_well_placed (rows_of rows.now) row }
{
    match parent_of_row(rows, row) {
        Some(parent) => row > 0 && is_on_way(rows, parent, row - 1),
        None => row == 0,
    }
}

fn is_byte_of_name(byte: u8) -> bool
    ensures { result ≡ is_name_byte byte }
{
    byte.is_ascii_lowercase() || byte.is_ascii_digit() || byte == b'_' || byte == b'-'
}

fn are_bytes_of_name(bytes: &[u8]) -> bool
    ensures { result ≡ list_all is_name_byte bytes.now }
{
    bytes.iter().all(|byte| is_byte_of_name(*byte))
}

fn is_name_of_node(name: &str) -> bool
    ensures { result ≡ is_name name.now }
{
    let bytes = name.as_bytes();
    !bytes.is_empty() && bytes.len() <= LONGEST_NAME && are_bytes_of_name(bytes)
}

/// The first row has no name, and every other has one.
fn is_row_well_named(rows: &[Row], row: u32) -> bool
    requires { row < length rows.now }
    ensures { result ≡ is_well_named (rows_of rows.now) row }
{
    let name = rows[row as usize].name.as_str();
    if row == 0 {
        name.is_empty()
    } else {
        is_name_of_node(name)
    }
}

/// Have both rows the same parent and the same name?
fn are_twins(row: &Row, other: &Row) -> bool
    ensures { result ≡ (share_parent row.now.parent other.now.parent
        && bytes_eq (string_bytes other.now.name) (string_bytes row.now.name)) }
{
    row.parent.is_some() && row.parent == other.parent && other.name == row.name
}

/// Has an earlier row the same parent and the same name?
fn has_twin(rows: &[Row], row: u32) -> bool
    requires { row < length rows.now }
    ensures { result ≡ any_below row (is_twin (rows_of rows.now) row) }
{
    let own = &rows[row as usize];
    for other in 0..row {
        if are_twins(own, &rows[other as usize]) {
            return true;
        }
    }
    false
}

/// The same, with the earlier rows gone through only where the row's mark is there.
fn is_twice_named(marks: &Marks, rows: &[Row], row: u32) -> bool
    requires within { row < length rows.now }
    requires noted { AreNoted marks.now.words (rows_of rows.now) row }
    ensures { result ≡ any_below row (is_twin (rows_of rows.now) row) }
{
    marks.may_have_twin(rows, row) && has_twin(rows, row)
}

fn is_row_well_weighed(rows: &[Row], row: u32) -> bool
    requires { row < length rows.now }
    ensures { result ≡ is_weight (weight_of (rows_of rows.now) row) }
{
    let row = &rows[row as usize];
    1 <= row.weight && row.weight <= HEAVIEST
}

/// The first rule that the row breaks.
fn fault_of_row(marks: &Marks, rows: &[Row], row: u32) -> Option<TreeFault>
    requires within { row < length rows.now }
    requires placed { AreWellPlaced (rows_of rows.now) row }
    requires noted { AreNoted marks.now.words (rows_of rows.now) row }
    ensures { result ≡ row_fault (rows_of rows.now) row }
{
    if !is_row_well_placed(rows, row) {
        Some(TreeFault::BadParent(row))
    } else if depth_of_row(rows, row) > DEEPEST {
        Some(TreeFault::TooDeep(row))
    } else if !is_row_well_named(rows, row) {
        Some(TreeFault::BadName(row))
    } else if is_twice_named(marks, rows, row) {
        Some(TreeFault::TwiceNamed(row))
    } else if !is_row_well_weighed(rows, row) {
        Some(TreeFault::BadWeight(row))
    } else {
        None
    }
}

/// The first fault among the rows, each by itself.
fn fault_of_rows(rows: &[Row]) -> Option<TreeFault>
    requires { length rows.now ≤ 4096 }
    ensures { result ≡ rows_fault (rows_of rows.now) (length rows.now) }
{
    let mut marks = Marks::new();
    for row in 0..rows.len() as u32 {
        let fault = fault_of_row(&marks, rows, row);
        if fault.is_some() {
            return fault;
        }
        marks.note(rows, row);
    }
    None
}

/// The first fault of the rows.
pub fn fault_of(rows: &[Row]) -> Option<TreeFault>
    ensures fault { result ≡ tree_fault_of (rows_of rows.now) }
    ensures few { result ≡ None → length rows.now ≤ 4096 }
{
    if rows.is_empty() {
        Some(TreeFault::Empty)
    } else if rows.len() > MOST_ROWS {
        Some(TreeFault::TooMany)
    } else {
        fault_of_rows(rows)
    }
}
