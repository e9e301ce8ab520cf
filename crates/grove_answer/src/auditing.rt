ghost use Rattle.std.specs.Prelude.{◌≡◌, ◌≤◌, ◌<◌, ◌^◌, length, map, option_map, OnOk, IfErr};
ghost use Rattle.serde_json.specs.View.{view};
ghost use Rattle.grove_core.specs.Kept.{past_of};
ghost use Rattle.grove_core.specs.Runs.{IsFinished};
ghost use Rattle.grove_core.specs.Openings.{AllFit};
ghost use Rattle.grove_wire.specs.Histories.{said_standing};
ghost use Rattle.grove_answer.specs.Says.{Says};
ghost use Rattle.grove_answer.specs.Outcomes.{ThenSays, history_in, IsAudited, IsMisstated};

use crate::reading::{History, read_history};
use crate::refusal::{Refusal, or_refuse};
use crate::running::run_lines;
use crate::standing::{other_record, other_replies};
use crate::texts::numbers_of;
use grove_access::Reply;
use grove_core::{Core, replies_of, serial_order};
use grove_wire::{Fault, Standing, StandingFault};
use serde_json::Value;
use std::alloc::Global;

/// The lines of the run that a document's events are, as `run` prints them, where it is a finished one and left what is
/// said to stand.
pub fn audit_document(alloc: Global, document: &Value) -> Result<String, Refusal>
    ensures { Says (ThenSays (history_in (view document.now)) IsAudited) result }
{
    let history = or_refuse(alloc, read_history(alloc, document))?;
    audit_history(alloc, &history)
}

fn audit_history(alloc: Global, history: &History) -> Result<String, Refusal>
    requires records { length history.now.records ≡ length history.now.tree }
    requires fits { AllFit history.now.tree history.now.jobs.items }
    requires few { length history.now.jobs.items ≤ 256 }
    requires short { length history.now.events.items ≤ 1048576 }
    ensures { Says (IsAudited (
      history.now.tree,
      history.now.records,
      history.now.jobs.items,
      history.now.events.items,
      option_map said_standing history.now.standing,
    )) result }
{
    let History {
        tree,
        records,
        jobs,
        events,
        standing,
    } = history;
    match Core::replay(alloc, tree, records, jobs, events) {
        Ok(core) => finished_lines(alloc, &core, standing),
        Err(fault) => Err(Refusal::of(alloc, tree, Fault::Replay(fault))),
    }
}

/// The lines of the finished run, where it left what is said to stand.
fn finished_lines(
    alloc: Global,
    core: &Core<'_>,
    standing: &Option<Standing>,
) -> Result<String, Refusal>
    requires { IsFinished core.now.jobs (past_of core.now) }
    ensures { Says (IsAudited (
      core.now.tree,
      core.now.opening,
      core.now.jobs,
      core.now.history,
      option_map said_standing standing.now,
    )) result }
{
    // That there is a record for each node is told with the jobs, and that nodes are few with their number.
    let _jobs = core.jobs();
    let tree = core.tree();
    let _nodes = tree.len();
    let replies = replies_of(alloc, core)?;
    if let Some(said) = standing {
        let records = numbers_of(alloc, tree, core.records())?;
        if let Err(fault) = stand(said, &records, &replies) {
            return Err(Refusal::of(alloc, tree, Fault::Standing(fault)));
        }
    }
    let order = serial_order(alloc, core)?;
    Ok(run_lines(alloc, core, &order)?)
}

/// Where what is said to stand isn't what a run left, if anywhere.
fn stand(said: &Standing, records: &[i64], replies: &[&[Reply]]) -> Result<(), StandingFault>
    requires records { length records.now < 2 ^ 32 }
    requires replies { length replies.now < 2 ^ 32 }
    ensures records { OnOk result ((said_standing said.now).0 ≡ records.now) }
    ensures replies { OnOk result ((said_standing said.now).1 ≡ map (λ list. list.now) replies.now) }
    ensures misstated { IfErr result
        (IsMisstated (said_standing said.now) records.now (map (λ list. list.now) replies.now)) }
{
    if let Some(node) = other_record(&said.records, records) {
        return Err(StandingFault::Record(node));
    }
    if let Some(job) = other_replies(&said.replies, replies) {
        return Err(StandingFault::Replies(job));
    }
    Ok(())
}
