ghost use Rattle.std.specs.Prelude.{◌≡◌, ◌≤◌, ◌++◌, ℕ, List, codes, Some, Ok, IfOk, string_bytes};
ghost use Rattle.serde_json.specs.Data.{Data, depth};
ghost use Rattle.serde_json.specs.Find.{get};
ghost use Rattle.serde_json.specs.View.{view};
ghost use Rattle.grove_build.specs.Batches.{IsPlanned as IsPlannedList};
ghost use Rattle.grove_wire.specs.Reading.{value_of, plan_in, flow_in};
ghost use Rattle.grove_wire.specs.Writing.{PlanFits, FlowFits, plan_data, flow_data};
ghost use Rattle.grove_answer.specs.Says.{IsFitting, Says};
ghost use Rattle.grove_answer.specs.Outcomes.{ThenSays, task_in, IsPlannedDocument};
ghost use Rattle.grove_answer.specs.PlannedDocuments.{planned_document};

use crate::reading::{Task, read_task};
use crate::refusal::{Refusal, or_refuse};
use grove_base::NoMemory;
use grove_build::{Planned, plan};
use grove_plan::Plan;
use grove_proof::Flow;
use grove_tree::Tree;
use grove_wire::{flow_value, plan_value};
use serde_json::{Value, put};
use std::alloc::{AllocError, Global};

/// The document with the settled plan of its list put in, and the flow that proves it, as a line of JSON.
/// What else it has stays.
pub fn planned_document(alloc: Global, document: &Value) -> Result<String, Refusal>
    requires { depth (view document.now) ≤ 127 }
    ensures { Says (ThenSays (task_in (view document.now)) IsPlannedDocument) result }
{
    let task = or_refuse(alloc, read_task(alloc, document))?;
    planned_task(alloc, &task, document)
}

fn planned_task(alloc: Global, task: &Task, document: &Value) -> Result<String, Refusal>
    requires fits { IsFitting task.now }
    requires read { task_in (view document.now) ≡ Ok task.now }
    requires shallow { depth (view document.now) ≤ 127 }
    ensures { Says (IsPlannedDocument task.now) result }
{
    let planned = plan(alloc, &task.tree, &task.list)?;
    Ok(planned_line(alloc, task, &planned, document)?)
}

fn planned_line(
    alloc: Global,
    task: &Task,
    planned: &Planned,
    document: &Value,
) -> Result<String, NoMemory>
    requires planned { IsPlannedList task.now.tree task.now.list planned.now }
    requires read { task_in (view document.now) ≡ Ok task.now }
    requires shallow { depth (view document.now) ≤ 127 }
    ensures { IfOk result (λ line. IsPlannedDocument task.now (Ok (string_bytes line))) }
{
    let whole = with_plan(alloc, &task.tree, &planned.plan, &planned.flow, document)?;
    Ok(line_of(alloc, &whole)?)
}

/// The document with the plan and the flow put in.
fn with_plan(
    alloc: Global,
    tree: &Tree,
    plan: &Plan,
    flow: &Flow,
    document: &Value,
) -> Result<Value, NoMemory>
    requires plan { PlanFits tree.now plan.now }
    requires flow { FlowFits tree.now flow.now }
    ensures value { IfOk result
        (λ whole. view whole ≡ planned_document tree.now plan.now flow.now (view document.now)) }
    ensures plan { IfOk result (λ whole. (d : Data) → get (codes "plan") d ≡ Some (plan_data tree.now plan.now)
        → plan_in tree.now d ≡ Ok plan.now) }
    ensures flow { IfOk result (λ whole. (d : Data) → get (codes "flow") d ≡ Some (flow_data tree.now flow.now)
        → flow_in tree.now d ≡ Ok flow.now) }
{
    let plan = plan_value(alloc, tree, plan)?;
    let flow = flow_value(alloc, tree, flow)?;
    match document.clone()? {
        Value::Object(mut members) => {
            put(&mut members, alloc, "flow", flow)?;
            put(&mut members, alloc, "plan", plan)?;
            Ok(Value::Object(members))
        }
        other => Ok(other),
    }
}

/// The text of a value, with a line feed after it.
fn line_of(alloc: Global, value: &Value) -> Result<String, AllocError>
    requires { depth (view value.now) ≤ 127 }
    ensures { IfOk result (λ line. (text : List ℕ) × (value_of text ≡ Some (view value.now))
        × (string_bytes line ≡ text ++ codes "\n")) }
{
    let mut line = value.to_string(alloc)?;
    line.push_str("\n")?;
    Ok(line)
}
