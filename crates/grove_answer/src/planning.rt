ghost use Rattle.std.specs.Prelude.{◌≡◌, IfOk, string_bytes};
ghost use Rattle.serde_json.specs.View.{view};
ghost use Rattle.grove_build.specs.Batches.{IsPlanned as IsPlannedList};
ghost use Rattle.grove_access.specs.Lists.{nodes_of, AreNodes};
ghost use Rattle.grove_wire.specs.Reading.{list_in};
ghost use Rattle.grove_answer.specs.Says.{Says};
ghost use Rattle.grove_answer.specs.Outcomes.{ThenSays, task_in, plan_lines, IsPlannedOver, IsPlannedTask};

use crate::reading::read_task;
use crate::refusal::{Refusal, or_refuse};
use crate::texts::push_told;
use grove_access::AccessList;
use grove_base::NoMemory;
use grove_build::{Planned, plan};
use grove_tree::Tree;
use grove_wire::{PathCache, flow_text, plan_text, read_list};
use serde_json::Value;
use std::alloc::Global;

/// The lines that plan a document's list: the cost, the settled plan, and the flow that proves it.
pub fn plan_document(alloc: Global, document: &Value) -> Result<String, Refusal>
    ensures { Says (ThenSays (task_in (view document.now)) IsPlannedTask) result }
{
    let task = or_refuse(alloc, read_task(alloc, document))?;
    plan_list(alloc, &task.tree, &task.list)
}

/// The same lines for the list of a document, over a tree that is there.
pub fn plan_over(alloc: Global, tree: &Tree, document: &Value) -> Result<String, Refusal>
    ensures { Says (ThenSays (list_in tree.now (view document.now)) (IsPlannedOver tree.now)) result }
{
    let list = or_refuse(alloc, read_list(alloc, tree, document))?;
    plan_list(alloc, tree, &list)
}

fn plan_list(alloc: Global, tree: &Tree, list: &AccessList) -> Result<String, Refusal>
    requires { AreNodes tree.now (nodes_of list.now) }
    ensures { Says (IsPlannedOver tree.now list.now) result }
{
    let planned = plan(alloc, tree, list)?;
    Ok(plan_lines(alloc, tree, list, &planned)?)
}

fn plan_lines(
    alloc: Global,
    tree: &Tree,
    list: &AccessList,
    planned: &Planned,
) -> Result<String, NoMemory>
    requires { IsPlannedList tree.now list.now planned.now }
    ensures { IfOk result (λ lines. string_bytes lines ≡ plan_lines tree.now planned.now) }
{
    let mut paths = PathCache::new(alloc, tree)?;
    let cost = planned.cost;
    let mut lines = format!(in alloc; "cost {cost}")?;
    let steps = plan_text(alloc, &mut paths, &planned.plan)?;
    push_told(&mut lines, "\nplan ", steps)?;
    let flow = flow_text(alloc, &mut paths, &planned.flow)?;
    push_told(&mut lines, "\nflow ", flow)?;
    lines.push_str("\n")?;
    Ok(lines)
}
