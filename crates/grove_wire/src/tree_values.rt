ghost use Rattle.std.specs.Prelude.{◌≡◌, ◌≤◌, ◌<◌, FitsSigned, IfOk, Some, Ok, codes, length, string_bytes};
ghost use Rattle.std.specs.Int.{w64};
ghost use Rattle.serde_json.specs.Data.{Data};
ghost use Rattle.serde_json.specs.Find.{get};
ghost use Rattle.serde_json.specs.View.{view};
ghost use Rattle.serde_json.specs.Written.{compact_text};
ghost use Rattle.grove_base.specs.Numbers.{numbers_below};
ghost use Rattle.grove_tree.specs.Trees.{name_of};
ghost use Rattle.grove_tree.specs.Rules.{AreTreeRows};
ghost use Rattle.grove_access.specs.Effects.{record_at};
ghost use Rattle.grove_wire.specs.Documents.{parent_data, row_data, document_data, document_text};
ghost use Rattle.grove_wire.specs.Reading.{tree_in, document_of};
ghost use Rattle.grove_wire.specs.Writing.{array_of};

use grove_access::Records;
use grove_tree::{NoMemory, Node, Tree};
use serde_json::{Map, Value, put};
use std::alloc::Global;

/// The document of a tree with its records. It reads as this tree with these records.
pub fn document_value(alloc: Global, tree: &Tree, records: &Records) -> Result<Value, NoMemory>
    requires fits { length records.now ≡ length tree.now }
    ensures value { IfOk result (λ value. view value ≡ document_data tree.now records.now) }
    ensures reads_back { IfOk result (λ value. tree_in (view value) ≡ Ok (tree.now, records.now)) }
    ensures short { IfOk result (λ value. length (compact_text (view value)) ≤ 4194304) }
{
    let mut members = Map::new(alloc);
    put(
        &mut members,
        alloc,
        "nodes",
        rows_value(alloc, tree, records)?,
    )?;
    put(&mut members, alloc, "version", Value::from(1u32))?;
    Ok(Value::Object(members))
}

/// The text of that document, on one line. It is read as the document, whoever reads it.
#[tactic(auto, using(crate::proofs::DocumentTexts::document_has_no_float))]
pub fn document_text(alloc: Global, tree: &Tree, records: &Records) -> Result<String, NoMemory>
    requires fits { length records.now ≡ length tree.now }
    ensures text { IfOk result (λ text. string_bytes text ≡ document_text tree.now records.now) }
    ensures opens { IfOk result (λ text. document_of (string_bytes text) ≡ Ok (document_data tree.now records.now)) }
    ensures reads_back { IfOk result (λ text. tree_in (document_data tree.now records.now)
        ≡ Ok (tree.now, records.now)) }
{
    let document = document_value(alloc, tree, records)?;
    Ok(document.to_string(alloc)?)
}

/// The array of the rows of a tree with its records.
fn rows_value(alloc: Global, tree: &Tree, records: &Records) -> Result<Value, NoMemory>
    requires fits { length records.now ≡ length tree.now }
    ensures value { IfOk result (λ value. view value
        ≡ array_of (row_data tree.now records.now) (numbers_below (length tree.now))) }
    ensures reads_back { IfOk result (λ value. (document : Data) → get (codes "nodes") document ≡ Some (view value)
        → tree_in document ≡ Ok (tree.now, records.now)) }
    ensures short { IfOk result (λ value. length (document_text tree.now records.now) ≤ 4194304) }
{
    let mut items = Vec::new(alloc);
    for number in 0..tree.len() {
        let row = row_value(alloc, tree, records, Node::new(number))?;
        items.push(row)?;
    }
    Ok(Value::Array(items))
}

fn row_value(alloc: Global, tree: &Tree, records: &Records, node: Node) -> Result<Value, NoMemory>
    requires rows { AreTreeRows tree.now }
    requires node { node < length tree.now }
    requires record { node < length records.now }
    ensures value { IfOk result (λ value. view value ≡ row_data tree.now records.now node) }
    ensures record { IfOk result (λ value. FitsSigned w64 (record_at records.now node)) }
{
    let name = name_of(alloc, tree, node)?;
    let mut members = Map::new(alloc);
    put(&mut members, alloc, "name", Value::String(name))?;
    put(
        &mut members,
        alloc,
        "parent",
        parent_value(tree.parent(node)),
    )?;
    put(&mut members, alloc, "value", Value::from(records.get(node)))?;
    put(
        &mut members,
        alloc,
        "weight",
        Value::from(tree.weight(node)),
    )?;
    Ok(Value::Object(members))
}

fn parent_value(parent: Option<Node>) -> Value
    ensures { view result ≡ parent_data parent }
{
    match parent {
        Some(parent) => Value::from(parent.number()),
        None => Value::Null,
    }
}

/// The name of a node: what comes after the last slash of its path.
fn name_of(alloc: Global, tree: &Tree, node: Node) -> Result<String, NoMemory>
    requires rows { AreTreeRows tree.now }
    requires node { node < length tree.now }
    ensures { IfOk result (λ name. string_bytes name ≡ name_of tree.now node) }
{
    let path = tree.path_of(alloc, node)?;
    match path.as_str().rsplit_once('/') {
        Some((_above, name)) => Ok(String::from_str(alloc, name)?),
        None => Ok(path),
    }
}
