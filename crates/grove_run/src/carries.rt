use grove_access::{AccessList, Carry};
use grove_core::Job;
use grove_tree::NoMemory;
use std::alloc::Global;

/// So many carries, each with room for any of the jobs.
pub fn carries_for(
    alloc: Global,
    jobs: &[Job],
    workers: usize,
) -> Result<Vec<Option<Carry>>, NoMemory> {
    let mut carries = Vec::with_capacity(alloc, workers)?;
    let Some(list) = longest_list(jobs) else {
        return Ok(carries);
    };
    let locks = most_locks(jobs);
    for _worker in 0..workers {
        carries.push(Some(Carry::new(alloc, 0, list, locks)?))?;
    }
    Ok(carries)
}

// A list than which none has more accesses.
fn longest_list(jobs: &[Job]) -> Option<&AccessList> {
    let mut longest = None;
    let mut accesses = 0;
    for job in jobs {
        if longest.is_none() || job.list.len() > accesses {
            longest = Some(&job.list);
            accesses = job.list.len();
        }
    }
    longest
}

// As many locks as a plan has at most: a legal one unlocks what it locks, so half of its steps are none.
fn most_locks(jobs: &[Job]) -> u32 {
    let mut most = 0;
    for job in jobs {
        most = most.max(job.plan.steps().len() as u32);
    }
    most / 2
}
