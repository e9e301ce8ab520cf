use crate::event::Level;
use grove_session::SessionFault;
use std::io::{self, ErrorKind};

/// Why nothing more is talked over a connection.
#[derive(Clone, Copy)]
pub enum Ending {
    /// Nothing is left to read.
    InputEnded,
    /// The requests are done.
    RequestsEnded,
    /// It idled for so many seconds.
    Idle(u32),
    /// It can't be read.
    Unread,
    /// It can't be written.
    Unwritten,
    /// It can't be read, or not be written.
    Broken,
    /// A growth was refused.
    Memory,
    /// It was read as often as a connection may.
    Turns,
    /// A line was lost among others.
    Foreign,
    /// What its line left couldn't be kept, or what another one did.
    Unkept,
    /// The system sets no limit to its time.
    Untimed,
    /// The system gives no random numbers.
    Unkeyed,
}

impl Ending {
    /// How a session ended.
    pub fn of_session(ended: Result<u64, SessionFault>) -> Ending {
        match ended {
            Ok(_) => Ending::InputEnded,
            Err(SessionFault::Read) => Ending::Unread,
            Err(SessionFault::Write(_)) => Ending::Unwritten,
            Err(SessionFault::Memory) => Ending::Memory,
            Err(SessionFault::Turns) => Ending::Turns,
            Err(SessionFault::Foreign) => Ending::Foreign,
            Err(SessionFault::Unkept) => Ending::Unkept,
        }
    }

    /// How requests ended that may idle for so many seconds, where the time for one may have been up.
    pub fn of_requests(ended: io::Result<()>, idle: Option<u32>, was_late: bool) -> Ending {
        match (ended, idle) {
            (Ok(()), _) => Ending::RequestsEnded,
            (Err(error), _) if error.kind() == ErrorKind::OutOfMemory => Ending::Memory,
            (Err(error), Some(seconds)) if was_late || is_late(&error) => Ending::Idle(seconds),
            (Err(_), _) => Ending::Broken,
        }
    }
}

impl Ending {
    /// Its name in the log.
    pub fn name(self) -> &'static str {
        match self {
            Ending::InputEnded => "input-ended",
            Ending::RequestsEnded => "requests-ended",
            Ending::Idle(_) => "idle",
            Ending::Unread => "read",
            Ending::Unwritten => "write",
            Ending::Broken => "read-or-write",
            Ending::Memory => "memory",
            Ending::Turns => "turns",
            Ending::Foreign => "foreign",
            Ending::Unkept => "unkept",
            Ending::Untimed => "no-time-limit",
            Ending::Unkeyed => "no-random-numbers",
        }
    }

    /// How many seconds it idled, if that is why.
    pub fn idle(self) -> Option<u32> {
        match self {
            Ending::Idle(seconds) => Some(seconds),
            _ => None,
        }
    }

    /// How much it matters in the log.
    pub fn level(self) -> Level {
        match self {
            Ending::InputEnded | Ending::RequestsEnded | Ending::Idle(_) => Level::Info,
            Ending::Unread | Ending::Unwritten | Ending::Broken => Level::Warn,
            Ending::Turns | Ending::Foreign => Level::Warn,
            Ending::Memory | Ending::Untimed | Ending::Unkeyed => Level::Error,
            Ending::Unkept => Level::Error,
        }
    }
}

/// Whether the time for a call was up.
pub fn is_late(error: &io::Error) -> bool {
    matches!(error.kind(), ErrorKind::WouldBlock | ErrorKind::TimedOut)
}
