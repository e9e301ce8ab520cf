ghost use Rattle.std.specs.Prelude.{◌≡◌, ◌≤◌, length, map, IfOk, All, string_bytes};
ghost use Rattle.serde_json.specs.View.{view};
ghost use Rattle.grove_base.specs.Numbers.{numbers_below};
ghost use Rattle.grove_access.specs.Lists.{nodes_of, AreNodes};
ghost use Rattle.grove_core.specs.Kept.{past_of};
ghost use Rattle.grove_core.specs.Orders.{placement_order};
ghost use Rattle.grove_core.specs.Runs.{waits_of};
ghost use Rattle.grove_build.specs.SettledJobs.{AreSettledJobs};
ghost use Rattle.grove_answer.specs.Says.{Says};
ghost use Rattle.grove_answer.specs.Outcomes.{ThenSays, batch_in, batch_lines, run_lines, IsRunBatch};

use crate::reading::{Batch, read_batch};
use crate::refusal::{Refusal, or_refuse};
use crate::texts::{counts_text, lists_text, numbers_of, numbers_text, push_told};
use grove_access::{Records, Reply};
use grove_base::NoMemory;
use grove_build::settled_jobs;
use grove_core::{Core, Job, replies_of};
use grove_run::run_legal;
use grove_tree::{Node, OpenGate, Tree};
use grove_wire::Fault;
use serde_json::Value;
use std::alloc::{AllocError, Global};
use std::sync::Wait;
use std::thread::Threads;

/// The lines of a run of a document's lists by so many workers: a serial order, each list's replies, the records, and
/// the waits of each node.
pub fn run_document<R: Threads + Wait + Sync>(
    rt: &R,
    alloc: Global,
    document: &Value,
    workers: u32,
) -> Result<String, Refusal>
    requires { (1 ≤ workers) × (workers ≤ 16) }
    ensures { Says (ThenSays (batch_in (view document.now)) IsRunBatch) result }
{
    let batch = or_refuse(alloc, read_batch(alloc, document))?;
    run_lists(rt, alloc, batch, workers)
}

/// Plans the lists and runs them.
fn run_lists<R: Threads + Wait + Sync>(
    rt: &R,
    alloc: Global,
    batch: Batch,
    workers: u32,
) -> Result<String, Refusal>
    requires records { length batch.records ≡ length batch.tree }
    requires fits { All (λ list. AreNodes batch.tree (nodes_of list)) batch.lists.items }
    requires few { length batch.lists.items ≤ 256 }
    requires workers { (1 ≤ workers) × (workers ≤ 16) }
    ensures { Says (IsRunBatch (batch.tree, batch.records, batch.lists.items)) result }
{
    let Batch {
        tree,
        records,
        lists,
    } = batch;
    let jobs = settled_jobs(rt, alloc, &tree, lists, workers)?;
    run_jobs(rt, alloc, &tree, &records, &jobs, workers as usize)
}

/// Runs the jobs of lists that are planned.
fn run_jobs<R: Threads + Wait + Sync>(
    rt: &R,
    alloc: Global,
    tree: &Tree,
    records: &Records,
    jobs: &[Job],
    workers: usize,
) -> Result<String, Refusal>
    requires records { length records.now ≡ length tree.now }
    requires few { length jobs.now ≤ 256 }
    requires settled { AreSettledJobs tree.now (map (λ job. job.list) jobs.now) jobs.now }
    ensures { Says (IsRunBatch (tree.now, records.now, map (λ job. job.list) jobs.now)) result }
{
    match run_legal(rt, alloc, tree, records, jobs, workers, &OpenGate) {
        Ok(finished) => Ok(run_lines(alloc, finished.core(), finished.order())?),
        Err(fault) => Err(Refusal::of(alloc, tree, Fault::Run(fault))),
    }
}

/// The lines of a finished run, with the order by which it is serial.
pub(crate) fn run_lines(alloc: Global, core: &Core<'_>, order: &[u32]) -> Result<String, NoMemory>
    requires { order.now ≡ placement_order core.now.tree core.now.jobs (past_of core.now) }
    ensures { IfOk result
        (λ lines. string_bytes lines ≡ run_lines core.now.tree core.now.jobs core.now.opening (past_of core.now)) }
{
    // That there is a record for each node is told with the jobs.
    let _jobs = core.jobs();
    let replies = replies_of(alloc, core)?;
    let records = numbers_of(alloc, core.tree(), core.records())?;
    let waits = waits_of(alloc, core)?;
    batch_lines(alloc, order, &replies, &records, &waits)
}

fn batch_lines(
    alloc: Global,
    order: &[u32],
    replies: &[&[Reply]],
    records: &[i64],
    waits: &[u32],
) -> Result<String, NoMemory>
    ensures { IfOk result
        (λ lines. string_bytes lines ≡ batch_lines order.now (map (λ list. list.now) replies.now)
        records.now waits.now) }
{
    let mut lines = String::new(alloc);
    push_told(&mut lines, "order ", counts_text(alloc, order)?)?;
    push_told(&mut lines, "\nreplies ", lists_text(alloc, replies)?)?;
    push_told(&mut lines, "\nrecords ", numbers_text(alloc, records)?)?;
    push_told(&mut lines, "\nwaits ", counts_text(alloc, waits)?)?;
    lines.push_str("\n")?;
    Ok(lines)
}

/// The waits of each node.
fn waits_of(alloc: Global, core: &Core<'_>) -> Result<Vec<u32>, AllocError>
    ensures { IfOk result
        (λ waits. waits.items ≡ map (waits_of core.now.jobs (past_of core.now))
        (numbers_below (length core.now.tree))) }
{
    let mut waits = Vec::new(alloc);
    for number in 0..core.tree().len() {
        waits.push(core.waits(Node::new(number)))?;
    }
    Ok(waits)
}
