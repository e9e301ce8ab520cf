use grove_core::Job;
use grove_tree::Gate;

/// So many steps are done by a worker in about the time in which a thread is started and ends.
const WORTH_A_THREAD: usize = 2048;

/// Is there so much in these jobs that a further worker is of use? Any job is enough where workers may wait at the
/// gate.
pub fn are_worth_a_thread<G: Gate>(jobs: &[Job], gate: &G) -> bool {
    if !gate.is_open() {
        return !jobs.is_empty();
    }
    let mut steps: usize = 0;
    for job in jobs {
        steps = steps.saturating_add(job.plan.steps().len());
        if steps >= WORTH_A_THREAD {
            return true;
        }
    }
    false
}
