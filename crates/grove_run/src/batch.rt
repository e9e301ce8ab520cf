ghost use Rattle.std.specs.Prelude.{◌≡◌, ◌≤◌, [], length, vec_capacity, IfOk, IfErr};
ghost use Rattle.grove_core.specs.Runs.{AllLegal};
ghost use Rattle.grove_core.specs.Openings.{AllFit};
ghost use Rattle.grove_run.specs.Runs.{IsRunFault, IsLegalRunFault, IsCoreOf};
ghost use Rattle.grove_run.specs.FinishedRuns.{IsFinishedRun};

use crate::bells::Bells;
use crate::carries::carries_for;
use crate::register::{Batch, Register};
use crate::sleepers::SLOTS;
use crate::working::work_all;
use crate::worth::are_worth_a_thread;
use crate::{Book, Finished, RunFault};
use grove_access::Records;
use grove_core::{Core, Job, judge_all, serial_order_into};
use grove_tree::{Gate, Tree};
use std::alloc::Global;
use std::marker::Brand;
use std::sync::{Mutex, Wait};
use std::thread::Threads;

/// Brings the jobs to a finished run over copies of the records, by at most so many threads, the caller's among them,
/// by no more than there are jobs, and by no more than 16; 0 is as 1. Jobs of fewer than 2,048 steps in all, at a gate
/// where nobody waits, are done by the caller alone. Before the first try of each step a worker calls `gate.at(job,
/// step)` outside every lock.
pub fn run_batch<'a, R: Threads + Wait + Sync, G: Gate + Sync>(
    rt: &R,
    alloc: Global,
    tree: &'a Tree,
    records: &Records,
    jobs: &'a [Job],
    workers: usize,
    gate: &G,
) -> Result<Finished<'a>, RunFault>
    requires lists { AllFit tree.now jobs.now }
    requires records { length records.now ≡ length tree.now }
    requires few { length jobs.now ≤ 256 }
    ensures run { IfOk result (IsFinishedRun tree.now jobs.now records.now) }
    ensures fault { IfErr result (λ fault. IsRunFault tree.now jobs.now fault) }
{
    judge_all(alloc, tree, jobs)?;
    run_legal(rt, alloc, tree, records, jobs, workers, gate)
}

/// The same of jobs whose plans are known to be legal: none is judged again, and none is told as bad.
pub fn run_legal<'a, R: Threads + Wait + Sync, G: Gate + Sync>(
    rt: &R,
    alloc: Global,
    tree: &'a Tree,
    records: &Records,
    jobs: &'a [Job],
    workers: usize,
    gate: &G,
) -> Result<Finished<'a>, RunFault>
    requires legal { AllLegal tree.now jobs.now }
    requires records { length records.now ≡ length tree.now }
    requires few { length jobs.now ≤ 256 }
    ensures run { IfOk result (IsFinishedRun tree.now jobs.now records.now) }
    ensures fault { IfErr result IsLegalRunFault }
{
    let core = Core::open_legal(alloc, tree, records, jobs)?;
    let order = Vec::with_capacity(alloc, jobs.len())?;
    let workers = if are_worth_a_thread(jobs, gate) {
        workers
    } else {
        1
    };
    let core = do_together::<Brand, R, G>(rt, alloc, core, jobs, workers, gate)?;
    finished_of(core, order)
}

// Has workers do the jobs, as far as they can, by a register that all of them share.
fn do_together<'a, B: Batch + Send + Sync, R: Threads + Wait + Sync, G: Gate + Sync>(
    rt: &R,
    alloc: Global,
    core: Core<'a>,
    jobs: &'a [Job],
    workers: usize,
    gate: &G,
) -> Result<Core<'a>, RunFault>
    requires { IsCoreOf B.tree B.jobs B.opening core }
    ensures core { IfOk result (IsCoreOf B.tree B.jobs B.opening) }
    ensures fault { IfErr result IsLegalRunFault }
{
    let workers = workers.min(jobs.len()).clamp(1, SLOTS);
    let carries = carries_for(alloc, jobs, workers)?;
    let register = Mutex::new(Register::<B>::new(Book::open(core), carries));
    let bells = Bells::new();
    work_all(rt, jobs, &register, &bells, workers, gate);
    let register = register.into_inner();
    if register.is_foreign() {
        return Err(RunFault::Foreign);
    }
    Ok(register.into_core())
}

/// What a core to which nothing happens any more comes to. The order goes into an empty vector with room for each job.
fn finished_of<'a>(core: Core<'a>, mut order: Vec<u32>) -> Result<Finished<'a>, RunFault>
    requires few { vec_capacity order ≤ 256 }
    requires empty { order.items ≡ [] }
    requires room { length core.jobs ≤ vec_capacity order }
    ensures run { IfOk result (IsFinishedRun core.entry.tree core.entry.jobs core.entry.opening) }
    ensures fault { IfErr result IsLegalRunFault }
{
    if !core.is_finished() {
        return Err(RunFault::Unfinished);
    }
    serial_order_into(&core, &mut order);
    Ok(Finished::new(core, order))
}
