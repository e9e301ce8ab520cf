//! What a store is built from, out of names and numbers.
ghost use Rattle.std.specs.Prelude.{◌≡◌, ◌<◌, ◌≤◌, ◌^◌, length, All, IfOk, IfErr, string_bytes, FitsSigned};
ghost use Rattle.std.specs.Int.{w64};
ghost use Rattle.std.specs.Str.{IsUtf8};
ghost use Rattle.grove_tree.specs.Trees.{Rows};
ghost use Rattle.grove_tree.specs.Weights.{unweighed, weights_of};
ghost use Rattle.grove_tree.specs.Rules.{AreTreeRows};
ghost use Rattle.grove_tree.specs.BuiltRows.{rows_of};
ghost use Rattle.grove_effects.specs.Snapshots.{names_of};
ghost use Rattle.grove_data.specs.Numbers.{bits_of};
ghost use Rattle.grove_data.specs.Parts.{IsFor};

use crate::NoStoreThere;
use grove_access::Records;
use grove_effects::NodeName;
use grove_tree::{Row, Tree};
use std::alloc::Global;
use std::str;

/// No node has more waits.
const MOST_WAITS: u32 = 1000;

/// A row of a name and a weight.
fn row_of(alloc: Global, node: &NodeName, weight: u64) -> Result<Row, NoStoreThere>
    ensures row { IfOk result (λ row. (row.parent ≡ node.now.parent) × (string_bytes row.name ≡ node.now.name.items)
        × (row.weight ≡ weight)) }
    ensures unfit { IfErr result (IsFor (weight < 2 ^ 32 → ¬ IsUtf8 node.now.name.items)) }
{
    let Ok(weight) = u32::try_from(weight) else {
        return Err(NoStoreThere::Unfit);
    };
    let Ok(name) = str::from_utf8(&node.name) else {
        return Err(NoStoreThere::Unfit);
    };
    Ok(Row {
        parent: node.parent,
        name: String::from_str(alloc, name)?,
        weight,
    })
}

/// The rows of as many names and weights.
fn rows_of(alloc: Global, names: &[NodeName], weights: &[u64]) -> Result<Vec<Row>, NoStoreThere>
    requires { length weights.now ≡ length names.now }
    ensures names { IfOk result (λ rows. unweighed (rows_of rows.items) ≡ names_of names.now) }
    ensures weights { IfOk result (λ rows. weights_of (rows_of rows.items) ≡ weights.now) }
    ensures unfit { IfErr result (IsFor (All (λ weight. weight < 2 ^ 32) weights.now
        → ¬ All (λ name. IsUtf8 name.1) (names_of names.now))) }
{
    let mut rows = Vec::new(alloc);
    for place in 0..names.len() {
        rows.push(row_of(alloc, &names[place], weights[place])?)?;
    }
    Ok(rows)
}

/// The tree of as many names and weights.
pub(crate) fn tree_of(
    alloc: Global,
    names: &[NodeName],
    weights: &[u64],
) -> Result<Tree, NoStoreThere>
    requires { length weights.now ≡ length names.now }
    ensures names { IfOk result (λ tree. unweighed tree ≡ names_of names.now) }
    ensures weights { IfOk result (λ tree. weights_of tree ≡ weights.now) }
    ensures unfit { IfErr result (IsFor ((rows : Rows) → AreTreeRows rows → unweighed rows ≡ names_of names.now
        → ¬ (weights_of rows ≡ weights.now))) }
{
    let rows = rows_of(alloc, names, weights)?;
    Ok(Tree::build(alloc, &rows)?)
}

/// The records with these bits.
pub(crate) fn records_of(alloc: Global, words: &[u64]) -> Result<Records, NoStoreThere>
    ensures bits { IfOk result (λ records. bits_of records ≡ words.now) }
    ensures fit { IfOk result (λ records. All (FitsSigned w64) records) }
    ensures unfit { IfErr result (IsFor ⊥) }
{
    let mut values = Vec::with_capacity(alloc, words.len())?;
    for word in words {
        values.push(word.cast_signed())?;
    }
    Ok(Records::new(alloc, &values)?)
}

/// The numbers as waits.
pub(crate) fn waits_of(alloc: Global, numbers: &[u64]) -> Result<Vec<u32>, NoStoreThere>
    ensures same { IfOk result (λ waits. waits.items ≡ numbers.now) }
    ensures few { IfOk result (λ waits. All (λ count. count ≤ 1000) waits.items) }
    ensures unfit { IfErr result (IsFor (¬ All (λ count. count ≤ 1000) numbers.now)) }
{
    let mut waits = Vec::with_capacity(alloc, numbers.len())?;
    for number in numbers {
        match u32::try_from(*number) {
            Ok(count) if count <= MOST_WAITS => waits.push(count)?,
            _ => return Err(NoStoreThere::Unfit),
        }
    }
    Ok(waits)
}
