use std::alloc::{AllocError, AllocFailed};
use thiserror::Error;

/// Why accesses are no list over a tree.
#[derive(Clone, Copy, Debug, PartialEq, Eq, Error)]
pub enum ListFault {
    /// There are more than 64 accesses.
    #[error("too-long")]
    TooLong,
    /// The access with this number, counted from 0, names no node of the tree; no earlier one does so.
    #[error("access {0} no-node")]
    NoNode(u32),
    /// The access with this number, counted from 0, has a length of 0 or above 1000; no earlier one does so.
    #[error("access {0} bad-length")]
    BadLength(u32),
    /// A growth was refused.
    #[error("memory")]
    Memory,
}

impl From<AllocError> for ListFault {
    ghost use Rattle.std.specs.Prelude.{◌≡◌};
    ghost use Rattle.grove_access.specs.declared.fault.ListFault.TheVariants.{Memory};

    ghost from_gives = { λ _ fault. fault ≡ Memory };

    fn from(_error: AllocError) -> ListFault {
        ListFault::Memory
    }
}

impl<T: Drop> From<AllocFailed<T>> for ListFault {
    ghost use Rattle.std.specs.Prelude.{◌≡◌};
    ghost use Rattle.grove_access.specs.declared.fault.ListFault.TheVariants.{Memory};

    ghost from_gives = { λ _ fault. fault ≡ Memory };

    fn from(_error: AllocFailed<T>) -> ListFault {
        ListFault::Memory
    }
}
