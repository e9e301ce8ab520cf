ghost use Rattle.std.specs.Prelude.{◌≡◌, ◌<◌, ◌^◌, ℤ, List, map, option_map, IfOk, length};
ghost use Rattle.serde_json.specs.View.{view};
ghost use Rattle.grove_tree.specs.Trees.{Rows};
ghost use Rattle.grove_tree.specs.Rules.{tree_fault_of};
ghost use Rattle.grove_tree.specs.BuiltRows.{row_of, rows_of};
ghost use Rattle.grove_wire.specs.Forms.{as_parent, as_record, row_form};
ghost use Rattle.grove_wire.specs.Outcomes.{Gives, of_form};
ghost use Rattle.grove_wire.specs.Places.{item_of};
ghost use Rattle.grove_wire.specs.RowParts.{row_with};
ghost use Rattle.grove_wire.specs.Reading.{columns_of, unless_fault, tree_in};

use crate::document::{MOST_ITEMS, items_in};
use crate::forms::short_number;
use crate::{Part, Place, WireFault};
use grove_access::Records;
use grove_tree::{Row, Tree, TreeFault};
use serde_json::Value;
use std::alloc::Global;

/// The tree of the document's `nodes`, and the record of each node. More than 4,294,967,295 rows are `Limit`. Then each
/// row's `Shape` comes first, in order, and then what `Tree::build` says of the rows.
#[tactic(auto, unfolding(crate::specs::Reading::tree_in))]
pub fn read_tree(alloc: Global, document: &Value) -> Result<(Tree, Records), WireFault>
    ensures read { Gives (λ read. (read.0, read.1)) result (tree_in (view document.now)) }
    ensures fits { IfOk result (λ read. length read.1 ≡ length read.0) }
{
    let items = items_in(document, Part::Nodes)?;
    if items.len() > MOST_ITEMS {
        return Err(WireFault::Limit(Place::whole(Part::Nodes)));
    }
    let (rows, values) = read_rows(alloc, items)?;
    tree_of(alloc, &rows, &values)
}

/// The tree of the rows, beside the records of its nodes.
fn tree_of(alloc: Global, rows: &[Row], values: &[i64]) -> Result<(Tree, Records), WireFault>
    requires { length values.now ≡ length rows.now }
    ensures read { Gives {A = Rows × List ℤ} (λ read. (read.0, read.1)) result
        (unless_fault (tree_fault_of (rows_of rows.now)) (rows_of rows.now, values.now)) }
    ensures fits { IfOk result (λ read. length read.1 ≡ length read.0) }
{
    let tree = build_tree(alloc, rows)?;
    let records = Records::new(alloc, values)?;
    Ok((tree, records))
}

fn build_tree(alloc: Global, rows: &[Row]) -> Result<Tree, WireFault>
    ensures { Gives (λ tree. tree) result (unless_fault (tree_fault_of (rows_of rows.now)) (rows_of rows.now)) }
{
    match Tree::build(alloc, rows) {
        Ok(tree) => Ok(tree),
        Err(TreeFault::Memory) => Err(WireFault::Memory),
        Err(fault) => Err(WireFault::Tree(fault)),
    }
}

/// The rows and the records of their nodes. There are few enough.
fn read_rows(alloc: Global, items: &[Value]) -> Result<(Vec<Row>, Vec<i64>), WireFault>
    requires { length items.now < 2 ^ 32 }
    ensures read { Gives (λ read. (rows_of read.0.items, read.1.items)) result (columns_of (map view items.now)) }
    ensures same { IfOk result (λ read. length read.1.items ≡ length read.0.items) }
{
    let mut rows = Vec::new(alloc);
    let mut values = Vec::new(alloc);
    for (at, item) in items.iter().enumerate() {
        let (row, value) = read_row(alloc, at as u32, item)?;
        rows.push(row)?;
        values.push(value)?;
    }
    Ok((rows, values))
}

fn read_row(alloc: Global, at: u32, value: &Value) -> Result<(Row, i64), WireFault>
    ensures { Gives (λ row. (row_of row.0, row.1)) result (of_form row_form (item_of Part.Nodes at) (view value.now)) }
{
    let Some(form) = row_form(value) else {
        return Err(WireFault::Shape(Place::item(Part::Nodes, at)));
    };
    let row = Row {
        parent: form.parent,
        name: String::from_str(alloc, form.name)?,
        weight: form.weight,
    };
    Ok((row, form.value))
}

/// What stands in a row.
#[derive(Drop)]
struct RowForm<'v> {
    parent: Option<u32>,
    name: &'v str,
    weight: u32,
    value: i64,
}

#[tactic(auto, unfolding(crate::specs::Forms::row_form))]
fn row_form(value: &Value) -> Option<RowForm<'_>>
    ensures { option_map (λ form. row_with form.parent form.name.now form.weight form.value) result
        ≡ row_form (view value.now) }
{
    let parent = parent_of(value.get("parent")?)?;
    let name = value.get("name")?.as_str()?;
    let weight = short_number(value.get("weight")?)?;
    let value = record_of(value.get("value"))?;
    Some(RowForm {
        parent,
        name,
        weight,
        value,
    })
}

fn parent_of(value: &Value) -> Option<Option<u32>>
    ensures { result ≡ as_parent (view value.now) }
{
    if value.is_null() {
        return Some(None);
    }
    let parent = short_number(value)?;
    Some(Some(parent))
}

/// The record of a row's `value`, which is 0 where there is none.
fn record_of(value: Option<&Value>) -> Option<i64>
    ensures { result ≡ as_record (option_map (λ found. view found.now) value.entry) }
{
    match value {
        Some(value) => value.as_i64(),
        None => Some(0),
    }
}
