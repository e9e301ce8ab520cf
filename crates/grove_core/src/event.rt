/// What happens in a core. The number is that of the job, counted from 0.
#[derive(Clone, Copy, Debug, PartialEq, Eq)]
pub enum Event {
    /// The next step of the job's plan is done.
    Take(u32),
    /// The job's next step is a lock that was tried and found the node held by another job.
    Mark(u32),
}
