/// What became of a job's next step.
#[derive(Clone, Copy, Debug, PartialEq, Eq)]
pub enum BookStep {
    /// It is done.
    Stepped,
    /// It is a lock of a node that another job holds. It has a mark now.
    Blocked,
    /// There is none: the job's plan is at its end.
    Ended,
}

/// What became of the lock or unlock that a job stands before, once its accesses on the records that it has out are
/// done.
#[derive(Clone, Copy, Debug, PartialEq, Eq)]
pub enum CarryStep {
    /// It is done, and the carry has taken the record of the node in, or given it back.
    Stepped,
    /// It is a lock of a node that another job holds. It has a mark now.
    Blocked,
    /// There is none: the job's plan is at its end.
    Ended,
    /// The carry isn't of the job as it is now, the step is an access, or there is no room for the node. Nothing is
    /// done.
    Foreign,
}
