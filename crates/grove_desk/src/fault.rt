ghost use Rattle.std.specs.Prelude.{◌≡◌};
ghost use Rattle.grove_session.specs.declared.answers.AnswerFault.TheVariants as told;
ghost use Rattle.grove_desk.specs.declared.fault.DeskFault.TheVariants.{Foreign};

use grove_session::AnswerFault;
use grove_tree::NoMemory;
use std::alloc::AllocError;
use thiserror::Error;

/// Why a line has no receipt.
#[derive(Clone, Copy, Debug, PartialEq, Eq, Error)]
pub enum DeskFault {
    /// What came back isn't the line's receipt, or doesn't come after the one that was seen.
    #[error("foreign")]
    Foreign,
    /// A growth was refused.
    #[error("memory")]
    Memory,
    /// What the last rounds left couldn't be kept, and nothing is answered any more.
    #[error("unkept")]
    Unkept,
}

/// Why lines that left with the store have no receipts.
#[derive(Clone, Copy, Debug, PartialEq, Eq)]
pub(crate) enum NoReceipt {
    /// A growth was refused, and nothing has changed.
    Memory,
    /// What the rounds left couldn't be kept, and nothing is answered any more.
    Unkept,
}

impl From<NoMemory> for NoReceipt {
    ghost use Rattle.std.specs.Prelude.{◌≡◌};
    ghost use Rattle.grove_desk.specs.declared.fault.NoReceipt.TheVariants.{Memory};

    ghost from_gives = { λ _ why. why ≡ Memory };

    fn from(_error: NoMemory) -> NoReceipt {
        NoReceipt::Memory
    }
}

impl From<NoReceipt> for DeskFault {
    ghost use Rattle.std.specs.Prelude.{◌≡◌};
    ghost use Rattle.grove_desk.specs.Lines.{fault_of};

    ghost from_gives = { λ why fault. fault ≡ fault_of why };

    fn from(why: NoReceipt) -> DeskFault {
        match why {
            NoReceipt::Memory => DeskFault::Memory,
            NoReceipt::Unkept => DeskFault::Unkept,
        }
    }
}

impl From<AllocError> for DeskFault {
    ghost use Rattle.std.specs.Prelude.{◌≡◌};
    ghost use Rattle.grove_desk.specs.declared.fault.DeskFault.TheVariants.{Memory};

    ghost from_gives = { λ _ fault. fault ≡ Memory };

    fn from(_error: AllocError) -> DeskFault {
        DeskFault::Memory
    }
}

impl From<NoMemory> for DeskFault {
    ghost use Rattle.std.specs.Prelude.{◌≡◌};
    ghost use Rattle.grove_desk.specs.declared.fault.DeskFault.TheVariants.{Memory};

    ghost from_gives = { λ _ fault. fault ≡ Memory };

    fn from(_error: NoMemory) -> DeskFault {
        DeskFault::Memory
    }
}

/// What a session is told of it.
pub(crate) fn answer_fault(fault: DeskFault) -> AnswerFault
    ensures { result ≡ told.Foreign → fault ≡ Foreign }
{
    match fault {
        DeskFault::Foreign => AnswerFault::Foreign,
        DeskFault::Memory => AnswerFault::Memory,
        DeskFault::Unkept => AnswerFault::Unkept,
    }
}
