ghost use Rattle.std.specs.Prelude.{◌≡◌};

use std::alloc::{AllocError, AllocFailed};
use thiserror::Error;

/// Why rows are no tree. The number is that of the row at fault, counted from 0.
#[derive(Clone, Copy, Debug, PartialEq, Eq, Error)]
pub enum TreeFault {
    /// There are no rows.
    #[error("tree empty")]
    Empty,
    /// There are more than 4,096 rows.
    #[error("tree too-many")]
    TooMany,
    /// The first row has a parent, or the parent of another row is neither the row before it nor above that row.
    #[error("row {0} bad-parent")]
    BadParent(u32),
    /// The row lies deeper than 32.
    #[error("row {0} too-deep")]
    TooDeep(u32),
    /// The first row has a name, or the name of another row isn't 1 to 32 bytes of `a` to `z`, `0` to `9`, `_`, `-`.
    #[error("row {0} bad-name")]
    BadName(u32),
    /// An earlier child of the same parent has the name.
    #[error("row {0} twice-named")]
    TwiceNamed(u32),
    /// The weight is 0 or above 1,000.
    #[error("row {0} bad-weight")]
    BadWeight(u32),
    /// A growth was refused.
    #[error("memory")]
    Memory,
}

impl From<AllocError> for TreeFault {
    ghost use Rattle.std.specs.Prelude.{◌≡◌};
    ghost use Rattle.grove_tree.specs.declared.fault.TreeFault.TheVariants.{Memory};

    ghost from_gives = { λ _ fault. fault ≡ Memory };

    fn from(_error: AllocError) -> TreeFault {
        TreeFault::Memory
    }
}

impl<T: Drop> From<AllocFailed<T>> for TreeFault {
    ghost use Rattle.std.specs.Prelude.{◌≡◌};
    ghost use Rattle.grove_tree.specs.declared.fault.TreeFault.TheVariants.{Memory};

    ghost from_gives = { λ _ fault. fault ≡ Memory };

    fn from(_error: AllocFailed<T>) -> TreeFault {
        TreeFault::Memory
    }
}
