use crate::ending::Ending;
use crate::remedy::Lack;
use crate::service::Talk;
use grove_gauge::Minute;
use std::net::SocketAddr;

/// What a log says of a server.
#[derive(Clone, Copy)]
pub enum Event<'a> {
    /// A connection was accepted.
    Accepted {
        connection: u64,
        address: SocketAddr,
    },
    /// A line of it is refused by this name.
    Refused {
        connection: u64,
        line: u64,
        name: &'a str,
        hint: Option<&'a str>,
    },
    /// It is closed, and so many of its lines were answered.
    Ended {
        connection: u64,
        lines: u64,
        ending: Ending,
    },
    /// There was no slot for it.
    TurnedAway {
        connection: u64,
    },
    /// No thread could be started for it.
    NoThread {
        connection: u64,
    },
    /// No thread could be started that accepts at the port for HTTP.
    NoHttp,
    /// No thread could be started that ends the connections once a round couldn't be kept, or that serves them while
    /// copies are kept.
    NoGuard,
    /// What is replied is kept each second, so that a crash may lose some of it.
    EachSecond,
    /// There is none of this for the next connection.
    Lacks(Lack),
    /// The next connection couldn't be accepted, for an error of this number; the one after it is waited for.
    NotAccepted {
        talk: Talk,
        error: Option<u64>,
    },
    /// No connection can be accepted any more that talks so, for an error of this number.
    Stopped {
        talk: Talk,
        error: Option<u64>,
    },
    /// A minute is over.
    Minute {
        minute: Minute,
        /// How many connections there are now.
        connections: u64,
        /// The waits of all nodes; nothing, if there was no memory to look.
        waits: Option<u64>,
    },
    /// So many events of a second were too many.
    LeftOut {
        events: u64,
    },
}

/// How much an event matters.
#[derive(Clone, Copy)]
pub enum Level {
    Info,
    /// Something was refused or lost.
    Warn,
    /// The system lacks something that the server needs.
    Error,
}

impl Event<'_> {
    pub fn name(&self) -> &'static str {
        match self {
            Event::Accepted { .. } => "accepted",
            Event::Refused { .. } => "refused",
            Event::Ended { .. } => "ended",
            Event::TurnedAway { .. } => "turned-away",
            Event::NoThread { .. } => "no-thread",
            Event::NoHttp => "no-http",
            Event::NoGuard => "no-guard",
            Event::EachSecond => "each-second",
            Event::Lacks(Lack::Descriptor) => "no-descriptor",
            Event::Lacks(Lack::Memory) => "no-memory",
            Event::NotAccepted { .. } => "not-accepted",
            Event::Stopped { .. } => "stopped",
            Event::Minute { .. } => "minute",
            Event::LeftOut { .. } => "left-out",
        }
    }

    pub fn level(&self) -> Level {
        match self {
            Event::Accepted { .. } | Event::Minute { .. } => Level::Info,
            Event::Ended { ending, .. } => ending.level(),
            Event::Refused { .. } | Event::TurnedAway { .. } => Level::Warn,
            Event::NotAccepted { .. } | Event::LeftOut { .. } | Event::EachSecond => Level::Warn,
            Event::NoThread { .. } | Event::NoHttp | Event::NoGuard => Level::Error,
            Event::Lacks(_) | Event::Stopped { .. } => Level::Error,
        }
    }
}

impl Level {
    pub fn name(self) -> &'static str {
        match self {
            Level::Info => "info",
            Level::Warn => "warn",
            Level::Error => "error",
        }
    }
}
