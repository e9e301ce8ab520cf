ghost use Rattle.std.specs.Prelude.{◌≡◌, ◌+◌, ◌<◌, ◌≤◌, ◌^◌, ◌↔◌, IsTrue, length, Some, slice_get};
ghost use Rattle.grove_core.specs.CarriedTests.{is_owner, IsNext, Follows};

use crate::Job;
use grove_access::{Entry, Known, Records};
use grove_plan::Step;

/// Are the entries the steps of the job's plan from this position on, each with the access of its number?
pub fn follows(job: &Job, position: usize, entries: &[Entry]) -> bool
    requires position { position < 2 ^ 32 }
    requires few { length entries.now ≤ 64 }
    ensures { IsTrue result ↔ Follows job.now.list job.now.plan position entries.now }
{
    for (ahead, entry) in entries.iter().enumerate() {
        if !is_next(job, position + ahead, entry) {
            return false;
        }
    }
    true
}

fn is_next(job: &Job, position: usize, entry: &Entry) -> bool
    ensures { IsTrue result ↔ IsNext job.now.list job.now.plan position entry.now }
{
    let Some(step) = step_at(job, position) else {
        return false;
    };
    step == Step::Access(entry.number) && is_listed(job, entry)
}

fn is_listed(job: &Job, entry: &Entry) -> bool
    ensures { IsTrue result ↔ (slice_get job.now.list entry.now.number ≡ Some entry.now.access) }
{
    entry.number < job.list.len() && job.list.get(entry.number) == entry.access
}

/// The step of a job's plan at a position, if there is one.
pub fn step_at(job: &Job, position: usize) -> Option<Step>
    ensures { result ≡ slice_get job.now.plan position }
{
    job.plan.steps().get(position).copied()
}

/// Is the known value the record of its node?
pub fn has_value(records: &Records, known: Known) -> bool
    ensures { IsTrue result ↔ (slice_get records.now known.node ≡ Some known.value) }
{
    (known.node.number() as usize) < records.len() && records.get(known.node) == known.value
}

/// Is this job the owner?
pub fn is_owner(owner: Option<u32>, txn: u32) -> bool
    ensures { result ≡ is_owner owner txn }
{
    match owner {
        Some(owner) => owner == txn,
        None => false,
    }
}
