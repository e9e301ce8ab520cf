use crate::Place;
use grove_tree::{NoMemory, TreeFault};
use std::alloc::{AllocError, AllocFailed};
use thiserror::Error;

/// Why a document isn't read.
#[derive(Clone, Copy, Debug, PartialEq, Eq, Error)]
pub enum WireFault {
    /// The text is no JSON, or isn't UTF-8.
    #[error("bad-json")]
    BadJson,
    /// What stands there, if anything, isn't of the form that is asked for.
    #[error("shape {0}")]
    Shape(Place),
    /// The path there is that of no node of the tree.
    #[error("no-path {0}")]
    NoPath(Place),
    /// The length there is 0 or above 1000.
    #[error("bad-length {0}")]
    BadLength(Place),
    /// There is more of it than is taken.
    #[error("limit {0}")]
    Limit(Place),
    /// The rows are no tree. Want of memory is never told this way.
    #[error(transparent)]
    Tree(TreeFault),
    /// A growth was refused.
    #[error("memory")]
    Memory,
}

impl From<AllocError> for WireFault {
    ghost use Rattle.std.specs.Prelude.{◌≡◌};
    ghost use Rattle.grove_wire.specs.declared.fault.WireFault.TheVariants.{Memory};

    ghost from_gives = { λ _ fault. fault ≡ Memory };

    fn from(_error: AllocError) -> WireFault {
        WireFault::Memory
    }
}

impl<T: Drop> From<AllocFailed<T>> for WireFault {
    ghost use Rattle.std.specs.Prelude.{◌≡◌};
    ghost use Rattle.grove_wire.specs.declared.fault.WireFault.TheVariants.{Memory};

    ghost from_gives = { λ _ fault. fault ≡ Memory };

    fn from(_error: AllocFailed<T>) -> WireFault {
        WireFault::Memory
    }
}

impl From<NoMemory> for WireFault {
    ghost use Rattle.std.specs.Prelude.{◌≡◌};
    ghost use Rattle.grove_wire.specs.declared.fault.WireFault.TheVariants.{Memory};

    ghost from_gives = { λ _ fault. fault ≡ Memory };

    fn from(_error: NoMemory) -> WireFault {
        WireFault::Memory
    }
}
