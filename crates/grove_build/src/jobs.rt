ghost use Rattle.std.specs.Prelude.{◌≡◌, ◌≤◌, length, map, zip, All, IfOk};
ghost use Rattle.grove_access.specs.Lists.{nodes_of, AreNodes};
ghost use Rattle.grove_build.specs.KeptPlans.{AreSettledFor};
ghost use Rattle.grove_build.specs.SettledJobs.{AreSettledJobs};

use crate::kept_plans::KeptPlans;
use grove_access::AccessList;
use grove_core::Job;
use grove_plan::Plan;
use grove_tree::{NoMemory, OpenGate, Tree};
use std::alloc::Global;
use std::thread::Threads;

/// A job for each list, with its settled plan.
pub fn settled_jobs<R: Threads + Sync>(
    rt: &R,
    alloc: Global,
    tree: &Tree,
    lists: Vec<AccessList>,
    workers: u32,
) -> Result<Vec<Job>, NoMemory>
    requires few { length lists.items ≤ 256 }
    requires workers { (1 ≤ workers) × (workers ≤ 16) }
    requires fit { All (λ list. AreNodes tree.now (nodes_of list)) lists.items }
    ensures { IfOk result (λ jobs. AreSettledJobs tree.now lists.items jobs.items) }
{
    let mut plans = KeptPlans::new(alloc);
    kept_jobs(rt, alloc, tree, &mut plans, lists, workers)
}

/// The same jobs. Only lists for which no plan is kept are planned, and their plans are kept.
pub fn kept_jobs<R: Threads + Sync>(
    rt: &R,
    alloc: Global,
    tree: &Tree,
    plans: &mut KeptPlans,
    lists: Vec<AccessList>,
    workers: u32,
) -> Result<Vec<Job>, NoMemory>
    requires few { length lists.items ≤ 256 }
    requires fit { All (λ list. AreNodes tree.now (nodes_of list)) lists.items }
    requires kept { AreSettledFor tree.now plans.old }
    ensures jobs { IfOk result (λ jobs. AreSettledJobs tree.now lists.items jobs.items) }
    ensures kept { AreSettledFor tree.now plans.new }
{
    let settled = plans.plan_all(rt, alloc, tree, &lists, workers, &OpenGate)?;
    jobs_of(alloc, lists, settled)
}

/// The same by the caller alone, who starts no thread.
pub fn kept_jobs_alone(
    alloc: Global,
    tree: &Tree,
    plans: &mut KeptPlans,
    lists: Vec<AccessList>,
) -> Result<Vec<Job>, NoMemory>
    requires fit { All (λ list. AreNodes tree.now (nodes_of list)) lists.items }
    requires kept { AreSettledFor tree.now plans.old }
    ensures jobs { IfOk result (λ jobs. AreSettledJobs tree.now lists.items jobs.items) }
    ensures kept { AreSettledFor tree.now plans.new }
{
    let settled = plans.plan_each(alloc, tree, &lists)?;
    jobs_of(alloc, lists, settled)
}

fn jobs_of(alloc: Global, lists: Vec<AccessList>, plans: Vec<Plan>) -> Result<Vec<Job>, NoMemory>
    ensures { IfOk result
        (λ jobs. jobs.items ≡ map (λ pair. record { list = pair.0; plan = pair.1 }) (zip lists.items plans.items)) }
{
    let pairs = lists.into_iter().zip(plans);
    let jobs = pairs.map(|(list, plan)| Job { list, plan });
    Ok(jobs.collect(alloc)?)
}
