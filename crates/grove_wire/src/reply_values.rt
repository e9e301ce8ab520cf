ghost use Rattle.std.specs.Prelude.{◌≡◌, IfOk, map};
ghost use Rattle.serde_json.specs.View.{view};
ghost use Rattle.grove_wire.specs.Writing.{array_of, count_data, reply_data};
ghost use Rattle.grove_wire.specs.Replies.{error_data, cost_data, round_data, weights_in_rows};
ghost use Rattle.grove_wire.specs.Replies.{weights_data, changed_data};

use crate::replies::replies_value;
use grove_access::Reply;
use grove_tree::{NoMemory, Node, Tree};
use serde_json::{Map, Value, json, put};
use std::alloc::Global;

/// The reply that refuses a line by the name of its fault: `{"error":"shape"}`.
pub fn error_value(alloc: Global, name: &str) -> Result<Value, NoMemory>
    ensures { IfOk result (λ value. view value ≡ error_data name.now) }
{
    Ok(json!(in alloc; {"error": name})?)
}

/// The cost of a plan that its flow certifies.
pub fn cost_value(alloc: Global, cost: u64) -> Result<Value, NoMemory>
    ensures { IfOk result (λ value. view value ≡ cost_data cost) }
{
    Ok(json!(in alloc; {"cost": cost})?)
}

/// What the round of this number did for the lists of a batch: for each list its place in the round's serial order, and
/// its replies.
pub fn round_value(
    alloc: Global,
    round: u64,
    places: &[u32],
    replies: &[&[Reply]],
) -> Result<Value, NoMemory>
    ensures { IfOk result (λ value. view value ≡ round_data round places.now (map (λ list. list.now) replies.now)) }
{
    let mut members = Map::new(alloc);
    put(&mut members, alloc, "places", counts_value(alloc, places)?)?;
    put(&mut members, alloc, "replies", lists_value(alloc, replies)?)?;
    put(&mut members, alloc, "round", Value::from(round))?;
    Ok(Value::Object(members))
}

/// The waits, and the weights of the tree's nodes.
pub fn weights_value(alloc: Global, tree: &Tree, waits: &[u32]) -> Result<Value, NoMemory>
    ensures { IfOk result (λ value. view value ≡ weights_data waits.now (weights_in_rows tree.now)) }
{
    let mut members = Map::new(alloc);
    put(&mut members, alloc, "waits", counts_value(alloc, waits)?)?;
    put(
        &mut members,
        alloc,
        "weights",
        tree_weights_value(alloc, tree)?,
    )?;
    Ok(Value::Object(members))
}

/// How many weights were changed.
pub fn changed_value(alloc: Global, changed: u32) -> Result<Value, NoMemory>
    ensures { IfOk result (λ value. view value ≡ changed_data changed) }
{
    Ok(json!(in alloc; {"changed": changed})?)
}

/// The array of the counts.
pub fn counts_value(alloc: Global, counts: &[u32]) -> Result<Value, NoMemory>
    ensures { IfOk result (λ value. view value ≡ array_of count_data counts.now) }
{
    let mut items = Vec::new(alloc);
    for count in counts {
        items.push(Value::from(*count))?;
    }
    Ok(Value::Array(items))
}

/// The array of each list's replies.
pub fn lists_value(alloc: Global, replies: &[&[Reply]]) -> Result<Value, NoMemory>
    ensures { IfOk result (λ value. view value ≡ array_of (array_of reply_data) (map (λ list. list.now) replies.now)) }
{
    let mut items = Vec::new(alloc);
    for list in replies {
        items.push(replies_value(alloc, *list)?)?;
    }
    Ok(Value::Array(items))
}

fn tree_weights_value(alloc: Global, tree: &Tree) -> Result<Value, NoMemory>
    ensures { IfOk result (λ value. view value ≡ array_of count_data (weights_in_rows tree.now)) }
{
    let mut items = Vec::new(alloc);
    for number in 0..tree.len() {
        let weight = tree.weight(Node::new(number));
        items.push(Value::from(weight))?;
    }
    Ok(Value::Array(items))
}
