use grove_core::Job;
use grove_run::are_worth_a_thread;
use grove_tree::Gate;

/// So many steps of a round take the caller alone about as long as a run of them takes its workers: in place a step is
/// an access in memory, a few nanoseconds, which is about a tenth of what it costs in a run that threads share.
const WORTH_THREADS: usize = 65_536;

/// Is a round of these jobs worth threads? Any job is, if workers may wait at the gate.
pub fn are_worth_threads<G: Gate>(jobs: &[Job], gate: &G) -> bool {
    are_worth_a_thread(jobs, gate) && (!gate.is_open() || steps_of(jobs) >= WORTH_THREADS)
}

/// How many steps the plans of these jobs have together.
fn steps_of(jobs: &[Job]) -> usize {
    jobs.iter().fold(
        0,
        |steps: usize, job| steps.saturating_add(job.plan.steps().len()),
    )
}
