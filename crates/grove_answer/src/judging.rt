ghost use Rattle.std.specs.Prelude.{◌≡◌, IfOk, string_bytes};
ghost use Rattle.serde_json.specs.View.{view};
ghost use Rattle.grove_access.specs.Effects.{records_after, replies_to};
ghost use Rattle.grove_answer.specs.Says.{IsFitting, Says};
ghost use Rattle.grove_answer.specs.Outcomes.{ThenSays, trial_in, judge_lines, IsJudged};

use crate::reading::{Task, read_trial};
use crate::refusal::{Refusal, or_refuse};
use crate::texts::{numbers_of, numbers_text, push_told, replies_text};
use grove_access::{Reply, run_alone};
use grove_base::NoMemory;
use grove_plan::judge;
use grove_wire::Fault;
use serde_json::Value;
use std::alloc::Global;

/// The lines that judge a document: the cost of its plan, and the replies and records of its list done alone.
#[tactic(auto, using(crate::proofs::Faults::fault_fits))]
pub fn judge_document(alloc: Global, document: &Value) -> Result<String, Refusal>
    ensures { Says (ThenSays (trial_in (view document.now)) IsJudged) result }
{
    let (task, plan) = or_refuse(alloc, read_trial(alloc, document))?;
    match judge(alloc, &task.tree, &task.list, &plan) {
        Ok(cost) => Ok(judge_lines(alloc, task, cost)?),
        Err(fault) => Err(Refusal::of(alloc, &task.tree, Fault::Plan(fault))),
    }
}

/// Does the list alone on the records.
#[tactic(auto, using(crate::proofs::Records::records_keep_number))]
fn judge_lines(alloc: Global, task: Task, cost: u64) -> Result<String, NoMemory>
    requires { IsFitting task }
    ensures { IfOk result
        (λ lines. string_bytes lines ≡ judge_lines cost (replies_to task.list task.records)
        (records_after task.list task.records)) }
{
    let Task {
        tree,
        mut records,
        list,
    } = task;
    let replies = run_alone(alloc, &mut records, &list)?;
    let numbers = numbers_of(alloc, &tree, &records)?;
    told_lines(alloc, cost, &replies, &numbers)
}

fn told_lines(
    alloc: Global,
    cost: u64,
    replies: &[Reply],
    records: &[i64],
) -> Result<String, NoMemory>
    ensures { IfOk result (λ lines. string_bytes lines ≡ judge_lines cost replies.now records.now) }
{
    let mut lines = format!(in alloc; "cost {cost}")?;
    push_told(&mut lines, "\nreplies ", replies_text(alloc, replies)?)?;
    push_told(&mut lines, "\nrecords ", numbers_text(alloc, records)?)?;
    lines.push_str("\n")?;
    Ok(lines)
}
