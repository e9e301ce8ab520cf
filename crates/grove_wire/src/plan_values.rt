ghost use Rattle.std.specs.Prelude.{◌≡◌, ◌<◌, IfOk, Some, Ok, codes, length};
ghost use Rattle.serde_json.specs.Data.{Data, member, no_members};
ghost use Rattle.serde_json.specs.Find.{get};
ghost use Rattle.serde_json.specs.View.{view, members_view};
ghost use Rattle.grove_tree.specs.Trees.{Rows};
ghost use Rattle.grove_wire.specs.Reading.{step_at, flow_row_at, plan_in, flow_in};
ghost use Rattle.grove_wire.specs.Writing.{StepFits, PlanFits, pair_data, step_data, plan_data, FlowFits, count_data};
ghost use Rattle.grove_wire.specs.Writing.{flow_row_data, flow_data};
ghost use Rattle.grove_wire.specs.declared.place.Place.{Place};

use grove_plan::{Plan, Step};
use grove_proof::{Flow, FlowRow};
use grove_tree::{NoMemory, Node, Tree};
use serde_json::{Map, Value, json, put};
use std::alloc::{AllocError, Global};

/// The array of the plan's steps. A document that has it as its `plan` reads as this plan.
pub fn plan_value(alloc: Global, tree: &Tree, plan: &Plan) -> Result<Value, NoMemory>
    requires fits { PlanFits tree.now plan.now }
    ensures value { IfOk result (λ value. view value ≡ plan_data tree.now plan.now) }
    ensures reads_back { IfOk result (λ value. (document : Data) → get (codes "plan") document ≡ Some (view value)
        → plan_in tree.now document ≡ Ok plan.now) }
{
    let mut items = Vec::new(alloc);
    for step in plan.steps() {
        items.push(step_value(alloc, tree, *step)?)?;
    }
    Ok(Value::Array(items))
}

fn step_value(alloc: Global, tree: &Tree, step: Step) -> Result<Value, NoMemory>
    requires { StepFits tree.now step }
    ensures value { IfOk result (λ value. view value ≡ step_data tree.now step) }
    ensures reads_back { IfOk result (λ value. (place : Place) → step_at tree.now place (view value) ≡ Ok step) }
{
    match step {
        Step::Lock(node) => lock_value(alloc, tree, node),
        Step::Unlock(node) => unlock_value(alloc, tree, node),
        Step::Access(access) => access_value(alloc, access),
    }
}

#[tactic(auto, unfolding(crate::specs::Reading::step_at, crate::specs::Reading::step_of))]
fn lock_value(alloc: Global, tree: &Tree, node: Node) -> Result<Value, NoMemory>
    requires { node < length tree.now }
    ensures value { IfOk result (λ value. view value ≡ step_data tree.now (Step.Lock node)) }
    ensures reads_back { IfOk result (λ value. (place : Place) → step_at tree.now place (view value)
        ≡ Ok (Step.Lock node)) }
{
    let path = tree.path_of(alloc, node)?;
    pair_value(alloc, "lock", Value::String(path))
}

#[tactic(auto, unfolding(crate::specs::Reading::step_at, crate::specs::Reading::step_of))]
fn unlock_value(alloc: Global, tree: &Tree, node: Node) -> Result<Value, NoMemory>
    requires { node < length tree.now }
    ensures value { IfOk result (λ value. view value ≡ step_data tree.now (Step.Unlock node)) }
    ensures reads_back { IfOk result (λ value. (place : Place) → step_at tree.now place (view value)
        ≡ Ok (Step.Unlock node)) }
{
    let path = tree.path_of(alloc, node)?;
    pair_value(alloc, "unlock", Value::String(path))
}

#[tactic(auto, using(crate::proofs::Shorts::short_is_read), unfolding(crate::specs::Reading::step_at, crate::specs::Reading::step_of, crate::specs::Forms::as_short))]
fn access_value(alloc: Global, access: u32) -> Result<Value, NoMemory>
    ensures value { IfOk result (λ value. view value ≡ pair_data (codes "access") (count_data access)) }
    ensures reads_back { IfOk result (λ value. (tree : Rows) (place : Place) → step_at tree place (view value)
        ≡ Ok (Step.Access access)) }
{
    pair_value(alloc, "access", Value::from(access))
}

fn pair_value(alloc: Global, word: &str, operand: Value) -> Result<Value, NoMemory>
    ensures { IfOk result (λ value. view value ≡ pair_data word.now (view operand)) }
{
    Ok(json!(in alloc; [word, operand])?)
}

/// The array of the flow's rows. A document that has it as its `flow` reads as this flow.
pub fn flow_value(alloc: Global, tree: &Tree, flow: &Flow) -> Result<Value, NoMemory>
    requires fits { FlowFits tree.now flow.now }
    ensures value { IfOk result (λ value. view value ≡ flow_data tree.now flow.now) }
    ensures reads_back { IfOk result (λ value. (document : Data) → get (codes "flow") document ≡ Some (view value)
        → flow_in tree.now document ≡ Ok flow.now) }
{
    let mut items = Vec::new(alloc);
    for row in flow.rows() {
        items.push(flow_row_value(alloc, tree, *row)?)?;
    }
    Ok(Value::Array(items))
}

#[tactic(auto, unfolding(crate::specs::Reading::flow_row_at, crate::specs::Forms::flow_form, crate::specs::Forms::amount_of))]
fn flow_row_value(alloc: Global, tree: &Tree, row: FlowRow) -> Result<Value, NoMemory>
    requires fits { row.node < length tree.now }
    ensures value { IfOk result (λ value. view value ≡ flow_row_data tree.now row) }
    ensures reads_back { IfOk result (λ value. (place : Place) → flow_row_at tree.now place (view value) ≡ Ok row) }
{
    let path = tree.path_of(alloc, row.node)?;
    let mut members = amounts_of(alloc, row)?;
    put(&mut members, alloc, "node", Value::String(path))?;
    Ok(Value::Object(members))
}

/// The members of a row but its node.
fn amounts_of(alloc: Global, row: FlowRow) -> Result<Map<String, Value>, AllocError>
    ensures { IfOk result (λ members. members_view members.entries
        ≡ member (codes "above") (count_data row.above)
        (member (codes "first") (count_data row.first)
        (member (codes "held") (count_data row.held)
        (member (codes "last") (count_data row.last)
        (member (codes "own") (count_data row.own) no_members))))) }
{
    let mut members = Map::new(alloc);
    put(&mut members, alloc, "above", Value::from(row.above))?;
    put(&mut members, alloc, "first", Value::from(row.first))?;
    put(&mut members, alloc, "held", Value::from(row.held))?;
    put(&mut members, alloc, "last", Value::from(row.last))?;
    put(&mut members, alloc, "own", Value::from(row.own))?;
    Ok(members)
}
