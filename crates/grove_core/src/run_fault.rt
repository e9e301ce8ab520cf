use crate::OpenFault;
use grove_plan::PlanFault;
use grove_tree::NoMemory;
use std::alloc::{AllocError, AllocFailed};
use thiserror::Error;

/// Why jobs weren't brought to a finished run. The first two come before the first step.
#[derive(Clone, Copy, Debug, PartialEq, Eq, Error)]
pub enum RunFault {
    /// The plan of this job has this fault, and no plan of a lower job has one.
    #[error("job {0} {1}")]
    BadPlan(u32, PlanFault),
    /// A growth was refused.
    #[error("memory")]
    Memory,
    /// What a worker had out wasn't of its job.
    #[error("foreign")]
    Foreign,
    /// The workers have ended, and some job hasn't.
    #[error("unfinished")]
    Unfinished,
}

impl From<AllocError> for RunFault {
    ghost use Rattle.std.specs.Prelude.{◌≡◌};
    ghost use Rattle.grove_core.specs.declared.run_fault.RunFault.TheVariants.{Memory};

    ghost from_gives = { λ _ fault. fault ≡ Memory };

    fn from(_error: AllocError) -> RunFault {
        RunFault::Memory
    }
}

impl<T: Drop> From<AllocFailed<T>> for RunFault {
    ghost use Rattle.std.specs.Prelude.{◌≡◌};
    ghost use Rattle.grove_core.specs.declared.run_fault.RunFault.TheVariants.{Memory};

    ghost from_gives = { λ _ fault. fault ≡ Memory };

    fn from(_error: AllocFailed<T>) -> RunFault {
        RunFault::Memory
    }
}

impl From<NoMemory> for RunFault {
    ghost use Rattle.std.specs.Prelude.{◌≡◌};
    ghost use Rattle.grove_core.specs.declared.run_fault.RunFault.TheVariants.{Memory};

    ghost from_gives = { λ _ fault. fault ≡ Memory };

    fn from(_error: NoMemory) -> RunFault {
        RunFault::Memory
    }
}

impl From<OpenFault> for RunFault {
    ghost use Rattle.std.specs.Prelude.{◌≡◌};
    ghost use Rattle.grove_core.specs.RunFaults.{fault_of_open};

    ghost from_gives = { λ fault other. other ≡ fault_of_open fault };

    fn from(fault: OpenFault) -> RunFault {
        match fault {
            OpenFault::BadPlan(txn, fault) => RunFault::BadPlan(txn, fault),
            OpenFault::Memory => RunFault::Memory,
        }
    }
}
