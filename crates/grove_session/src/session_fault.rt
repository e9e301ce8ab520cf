use crate::{AnswerFault, DeviceFault};
use std::alloc::AllocError;
use thiserror::Error;

/// Why a session ended before its input did.
#[derive(Clone, Copy, Debug, PartialEq, Eq, Error)]
pub enum SessionFault {
    /// The source failed.
    #[error("read")]
    Read,
    /// The sink failed, when this many bytes had gone out.
    #[error("write {0}")]
    Write(u128),
    /// A growth was refused.
    #[error("memory")]
    Memory,
    /// The source was read as often as a session may.
    #[error("turns")]
    Turns,
    /// What was to be answered isn't what was put: of shared sessions alone.
    #[error("foreign")]
    Foreign,
    /// What a line may have left isn't kept: of shared sessions alone.
    #[error("unkept")]
    Unkept,
}

impl From<DeviceFault> for SessionFault {
    ghost use Rattle.std.specs.Prelude.{◌≡◌};
    ghost use Rattle.grove_session.specs.declared.session_fault.SessionFault.TheVariants.{Read};

    ghost from_gives = { λ _ fault. fault ≡ Read };

    fn from(_fault: DeviceFault) -> SessionFault {
        SessionFault::Read
    }
}

impl From<AllocError> for SessionFault {
    ghost use Rattle.std.specs.Prelude.{◌≡◌};
    ghost use Rattle.grove_session.specs.declared.session_fault.SessionFault.TheVariants.{Memory};

    ghost from_gives = { λ _ fault. fault ≡ Memory };

    fn from(_error: AllocError) -> SessionFault {
        SessionFault::Memory
    }
}

impl From<AnswerFault> for SessionFault {
    ghost use Rattle.grove_session.specs.Sessions.{fault_of};
    ghost use Rattle.std.specs.Prelude.{◌≡◌};

    ghost from_gives = { λ old fault. fault ≡ fault_of old };

    fn from(fault: AnswerFault) -> SessionFault {
        match fault {
            AnswerFault::Memory => SessionFault::Memory,
            AnswerFault::Foreign => SessionFault::Foreign,
            AnswerFault::Unkept => SessionFault::Unkept,
        }
    }
}
