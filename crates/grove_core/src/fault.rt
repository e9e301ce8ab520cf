use grove_plan::PlanFault;
use grove_tree::NoMemory;
use std::alloc::{AllocError, AllocFailed};
use thiserror::Error;

/// Why no core was opened.
#[derive(Clone, Copy, Debug, PartialEq, Eq, Error)]
pub enum OpenFault {
    /// The plan of this job has this fault, and no plan of a lower job has one.
    #[error("job {0} {1}")]
    BadPlan(u32, PlanFault),
    /// A growth was refused.
    #[error("memory")]
    Memory,
}

impl From<AllocError> for OpenFault {
    ghost use Rattle.std.specs.Prelude.{◌≡◌};
    ghost use Rattle.grove_core.specs.declared.fault.OpenFault.TheVariants.{Memory};

    ghost from_gives = { λ _ fault. fault ≡ Memory };

    fn from(_error: AllocError) -> OpenFault {
        OpenFault::Memory
    }
}

impl<T: Drop> From<AllocFailed<T>> for OpenFault {
    ghost use Rattle.std.specs.Prelude.{◌≡◌};
    ghost use Rattle.grove_core.specs.declared.fault.OpenFault.TheVariants.{Memory};

    ghost from_gives = { λ _ fault. fault ≡ Memory };

    fn from(_error: AllocFailed<T>) -> OpenFault {
        OpenFault::Memory
    }
}

impl From<NoMemory> for OpenFault {
    ghost use Rattle.std.specs.Prelude.{◌≡◌};
    ghost use Rattle.grove_core.specs.declared.fault.OpenFault.TheVariants.{Memory};

    ghost from_gives = { λ _ fault. fault ≡ Memory };

    fn from(_error: NoMemory) -> OpenFault {
        OpenFault::Memory
    }
}

/// Why an event may not happen: the first reason in this order.
#[derive(Clone, Copy, Debug, PartialEq, Eq, Error)]
pub enum StepFault {
    /// There is no job of this number.
    #[error("no-job")]
    NoTxn,
    /// The job's plan is at its end.
    #[error("ended")]
    Ended,
    /// The step is a lock of a node that this other job holds.
    #[error("blocked {0}")]
    Blocked(u32),
    /// A mark, while the job's next step isn't a lock of a node that another job holds.
    #[error("not-blocked")]
    NotBlocked,
    /// A mark, while the lock has one.
    #[error("marked")]
    Marked,
}

/// Why a history is no finished run of the jobs: the first reason in this order, out of memory aside.
#[derive(Clone, Copy, Debug, PartialEq, Eq, Error)]
pub enum ReplayFault {
    /// The plan of this job has this fault, and no plan of a lower job has one.
    #[error("job {0} {1}")]
    BadPlan(u32, PlanFault),
    /// The event of this number, counted from 0, may not happen, and those before it may.
    #[error("event {0} {1}")]
    BadEvent(u32, StepFault),
    /// All events may happen, and after them this is the lowest job that isn't at the end of its plan.
    #[error("unfinished {0}")]
    Unfinished(u32),
    /// A growth was refused.
    #[error("memory")]
    Memory,
}
