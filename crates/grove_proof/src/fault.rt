use grove_plan::PlanFault;
use std::alloc::{AllocError, AllocFailed};
use thiserror::Error;

/// Why a plan with a flow isn't accepted. The number is that of the first row at fault, counted from 0.
#[derive(Clone, Copy, Debug, PartialEq, Eq, Error)]
pub enum ProofFault {
    /// The plan isn't legal; never that the plan ran out of memory.
    #[error("{0}")]
    Plan(PlanFault),
    /// The rows' nodes aren't the forced nodes in ascending order; here is the first place where the two lists differ.
    #[error("rows {0}")]
    Rows(u32),
    /// The row has an amount on a constraint that its node doesn't have.
    #[error("sign {0}")]
    Sign(u32),
    /// An amount of the row is above 2^40.
    #[error("too-big {0}")]
    TooBig(u32),
    /// The amounts at the node's lock don't balance.
    #[error("lock-balance {0}")]
    LockBalance(u32),
    /// The amounts at the node's release don't balance.
    #[error("release-balance {0}")]
    ReleaseBalance(u32),
    /// The bound that the rows give isn't the plan's cost.
    #[error("value {cost} {bound}")]
    Value { cost: u64, bound: i128 },
    /// A growth was refused.
    #[error("memory")]
    Memory,
}

impl From<PlanFault> for ProofFault {
    ghost use Rattle.std.specs.Prelude.{◌≡◌};
    ghost use Rattle.grove_proof.specs.PlanFaults.{as_proof_fault};

    ghost from_gives = { λ fault proof. proof ≡ as_proof_fault fault };

    fn from(fault: PlanFault) -> ProofFault {
        match fault {
            PlanFault::Memory => ProofFault::Memory,
            other => ProofFault::Plan(other),
        }
    }
}

impl From<AllocError> for ProofFault {
    ghost use Rattle.std.specs.Prelude.{◌≡◌};
    ghost use Rattle.grove_proof.specs.declared.fault.ProofFault.TheVariants.{Memory};

    ghost from_gives = { λ _ fault. fault ≡ Memory };

    fn from(_error: AllocError) -> ProofFault {
        ProofFault::Memory
    }
}

impl<T: Drop> From<AllocFailed<T>> for ProofFault {
    ghost use Rattle.std.specs.Prelude.{◌≡◌};
    ghost use Rattle.grove_proof.specs.declared.fault.ProofFault.TheVariants.{Memory};

    ghost from_gives = { λ _ fault. fault ≡ Memory };

    fn from(_error: AllocFailed<T>) -> ProofFault {
        ProofFault::Memory
    }
}
