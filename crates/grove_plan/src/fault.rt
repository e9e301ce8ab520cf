use grove_tree::Node;
use std::alloc::{AllocError, AllocFailed};
use thiserror::Error;

/// The first rule that a plan breaks. The number is that of the step at fault, counted from 0, but for the last three.
#[derive(Clone, Copy, Debug, PartialEq, Eq, Error)]
pub enum PlanFault {
    /// The step's node is no node of the tree, or its access none of the list.
    #[error("step {0} strange")]
    Strange(u32),
    /// The node was locked before.
    #[error("step {0} relock")]
    Relock(u32),
    /// A lock that isn't the plan's first one, while the parent isn't held.
    #[error("step {0} parent-not-held")]
    ParentNotHeld(u32),
    /// An unlock of a node that isn't held.
    #[error("step {0} not-held")]
    NotHeld(u32),
    /// The access isn't the next one of the list.
    #[error("step {0} wrong-access")]
    WrongAccess(u32),
    /// The access's node isn't held.
    #[error("step {0} access-not-held")]
    AccessNotHeld(u32),
    /// The plan ends before this access of the list.
    #[error("access {0} missing")]
    AccessMissing(u32),
    /// The plan ends while this node is held; it is the lowest such.
    #[error("node still-held")]
    StillHeld(Node),
    /// A growth was refused.
    #[error("memory")]
    Memory,
}

impl From<AllocError> for PlanFault {
    ghost use Rattle.std.specs.Prelude.{◌≡◌};
    ghost use Rattle.grove_plan.specs.declared.fault.PlanFault.TheVariants.{Memory};

    ghost from_gives = { λ _ fault. fault ≡ Memory };

    fn from(_error: AllocError) -> PlanFault {
        PlanFault::Memory
    }
}

impl<T: Drop> From<AllocFailed<T>> for PlanFault {
    ghost use Rattle.std.specs.Prelude.{◌≡◌};
    ghost use Rattle.grove_plan.specs.declared.fault.PlanFault.TheVariants.{Memory};

    ghost from_gives = { λ _ fault. fault ≡ Memory };

    fn from(_error: AllocFailed<T>) -> PlanFault {
        PlanFault::Memory
    }
}
