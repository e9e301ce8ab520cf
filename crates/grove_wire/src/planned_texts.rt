ghost use Rattle.std.specs.Prelude.{◌≡◌, [], IfOk, string_bytes};
ghost use Rattle.json.specs.Print.{print};
ghost use Rattle.serde_json.specs.Written.{compact_text};
ghost use Rattle.grove_wire.specs.Replies.{planned_data};
ghost use Rattle.grove_wire.specs.Writing.{PlanFits, FlowFits, plan_data, flow_data};

use crate::flow_texts::{write_count, write_flow};
use crate::path_cache::PathCache;
use crate::plan_texts::write_plan;
use grove_plan::Plan;
use grove_proof::Flow;
use grove_tree::{NoMemory, Tree};
use json::Writer;
use std::alloc::Global;

/// About how many bytes a step takes.
const STEP_BYTES: usize = 128;

/// About how many bytes a row takes.
const ROW_BYTES: usize = 192;

/// A plan's steps, as JSON.
pub fn plan_text(alloc: Global, paths: &mut PathCache<'_>, plan: &Plan) -> Result<String, NoMemory>
    requires { PlanFits paths.old plan.now }
    ensures text { IfOk result (λ text. string_bytes text ≡ compact_text (plan_data paths.old plan.now)) }
    ensures tree { paths.new ≡ paths.old }
{
    let steps = plan.steps();
    let mut writer = Writer::new(Vec::with_capacity(alloc, STEP_BYTES * steps.len())?);
    write_plan(&mut writer, alloc, paths, steps)?;
    Ok(text_of(writer))
}

/// A flow's rows, as JSON.
pub fn flow_text(alloc: Global, paths: &mut PathCache<'_>, flow: &Flow) -> Result<String, NoMemory>
    requires { FlowFits paths.old flow.now }
    ensures text { IfOk result (λ text. string_bytes text ≡ compact_text (flow_data paths.old flow.now)) }
    ensures tree { paths.new ≡ paths.old }
{
    let rows = flow.rows();
    let mut writer = Writer::new(Vec::with_capacity(alloc, ROW_BYTES * rows.len())?);
    write_flow(&mut writer, alloc, paths, rows)?;
    Ok(text_of(writer))
}

/// What was written, as a text.
fn text_of(writer: Writer) -> String
    requires { writer.before ≡ [] }
    ensures { string_bytes result ≡ print writer.tokens }
{
    String::from_utf8(writer.into_inner()).unwrap()
}

/// The reply to a line that asks for a plan, as JSON: the plan with its cost and its flow.
pub fn planned_text(
    alloc: Global,
    tree: &Tree,
    cost: u64,
    plan: &Plan,
    flow: &Flow,
) -> Result<Vec<u8>, NoMemory>
    requires plan { PlanFits tree.now plan.now }
    requires flow { FlowFits tree.now flow.now }
    ensures { IfOk result (λ text. text.items ≡ compact_text (planned_data tree.now cost plan.now flow.now)) }
{
    let steps = plan.steps();
    let rows = flow.rows();
    let mut paths = PathCache::new(alloc, tree)?;
    let room = STEP_BYTES * steps.len() + ROW_BYTES * rows.len();
    let mut writer = Writer::new(Vec::with_capacity(alloc, room)?);
    writer.begin_object()?;
    write_count(&mut writer, "cost", cost)?;
    writer.key("flow")?;
    write_flow(&mut writer, alloc, &mut paths, rows)?;
    writer.key("plan")?;
    write_plan(&mut writer, alloc, &mut paths, steps)?;
    writer.end_object()?;
    Ok(writer.into_inner())
}
