ghost use Rattle.std.specs.Prelude.{◌≡◌, ℕ, ◌^◌, ◌<◌, ◌≤◌, length, slice_get, None, Some, IfOk, OnOk, IfErr};
ghost use Rattle.grove_access.specs.Lists.{nodes_of, AreNodes};
ghost use Rattle.grove_plan.specs.Plans.{is_lock, IsLegal};
ghost use Rattle.grove_core.specs.declared.progress.Progress.{Progress};
ghost use Rattle.grove_core.specs.Runs.{list_of, plan_of, AllLegal};
ghost use Rattle.grove_core.specs.RunBounds.{lock_steps, most_events};
ghost use Rattle.grove_core.specs.Openings.{AllFit, IsFirstFault};
ghost use Rattle.grove_core.specs.Starts.{fault_of, IsFaultOf, HasStarted};
ghost use Rattle.grove_core.specs.Cores.{IsFirst, TellsFirsts};

use crate::locking::first_lock;
use crate::progress::Progress;
use crate::{Job, OpenFault};
use grove_plan::{PlanFault, Step, judge};
use grove_tree::Tree;
use smallvec::SmallVec;
use std::alloc::{AllocError, Global};

/// Judges the plans, the lowest job's first.
pub fn judge_all(alloc: Global, tree: &Tree, jobs: &[Job]) -> Result<(), OpenFault>
    requires fits { AllFit tree.now jobs.now }
    requires few { length jobs.now ≤ 256 }
    ensures legal { OnOk result (AllLegal tree.now jobs.now) }
    ensures fault { IfErr result (λ fault. IsFirstFault tree.now jobs.now fault) }
{
    for txn in 0..jobs.len() {
        if let Err(fault) = judge_job(alloc, tree, txn as u32, &jobs[txn]) {
            return Err(fault);
        }
    }
    Ok(())
}

fn judge_job(alloc: Global, tree: &Tree, txn: u32, job: &Job) -> Result<(), OpenFault>
    requires { AreNodes tree.now (nodes_of job.now.list) }
    ensures legal { OnOk result (IsLegal tree.now (nodes_of job.now.list) job.now.plan) }
    ensures faultless { OnOk result (fault_of tree.now job.now ≡ None) }
    ensures fault { IfErr result (λ fault. IsFaultOf (fault_of tree.now job.now) txn fault) }
{
    match judge(alloc, tree, &job.list, &job.plan) {
        Ok(_) => Ok(()),
        Err(PlanFault::Memory) => Err(OpenFault::Memory),
        Err(fault) => Err(OpenFault::BadPlan(txn, fault)),
    }
}

/// Room for every event that can happen: each step is done once, and each lock marked at most once before.
pub fn room(jobs: &[Job]) -> usize
    requires { length jobs.now ≤ 256 }
    ensures enough { most_events jobs.now ≤ result }
    ensures short { (t : ℕ) → t < length jobs.now → length (plan_of jobs.now t) < 2 ^ 32 }
{
    let mut room = 0;
    for txn in 0..jobs.len() {
        let steps = jobs[txn].plan.steps();
        room += steps.len() + lock_steps(steps);
    }
    room
}

/// How many steps are locks.
fn lock_steps(steps: &[Step]) -> usize
    ensures number { result ≡ lock_steps steps.now }
    ensures few { result ≤ length steps.now }
{
    let mut locks = 0;
    for step in steps {
        if is_lock(*step) {
            locks += 1;
        }
    }
    locks
}

fn is_lock(step: Step) -> bool
    ensures { result ≡ is_lock (Some step) }
{
    matches!(step, Step::Lock(_))
}

/// The jobs' progress before the first event.
pub fn start_all(alloc: Global, jobs: &[Job]) -> Result<Vec<Progress>, AllocError>
    ensures number { IfOk result (λ progress. length progress.items ≡ length jobs.now) }
    ensures started { IfOk result (λ all. (t : ℕ) (progress : Progress) → slice_get all.items t ≡ Some progress
        → HasStarted (lock_steps (plan_of jobs.now t)) (length (list_of jobs.now t)) progress) }
{
    let mut progress = Vec::with_capacity(alloc, jobs.len())?;
    for txn in 0..jobs.len() {
        let started = start(alloc, &jobs[txn])?;
        progress.push(started)?;
    }
    Ok(progress)
}

fn start(alloc: Global, job: &Job) -> Result<Progress, AllocError>
    ensures { IfOk result (λ progress. HasStarted (lock_steps job.now.plan) (length job.now.list) progress) }
{
    let replies = SmallVec::with_capacity(alloc, job.list.len() as usize)?;
    let locked = SmallVec::with_capacity(alloc, lock_steps(job.plan.steps()))?;
    Ok(Progress {
        steps_done: 0,
        marked: false,
        replies,
        locked,
        held_nodes: 0,
    })
}

/// Of each node whether some job locks it first.
pub fn mark_firsts(alloc: Global, nodes: usize, jobs: &[Job]) -> Result<Vec<bool>, AllocError>
    requires { (node : ℕ) → IsFirst jobs.now node → node < nodes }
    ensures { IfOk result (λ firsts. TellsFirsts nodes jobs.now firsts.items) }
{
    let mut firsts = vec![in alloc; false; nodes]?;
    for job in jobs {
        if let Some(node) = first_lock(job.plan.steps()) {
            firsts[node.number() as usize] = true;
        }
    }
    Ok(firsts)
}
