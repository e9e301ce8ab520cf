ghost use Rattle.std.specs.Prelude.{◌≤◌};

use std::net::{IpAddr, SocketAddr};

/// What the words of a command line ask for, and whether it is left out why a file, a port or a server fails.
#[derive(Drop)]
pub struct Invocation<'a> {
    pub order: Order<'a>,
    pub quiet: bool,
}

/// What is to be done.
#[derive(Drop)]
pub enum Order<'a> {
    /// A command is done with a document.
    Do {
        command: Command<'a>,
        document: Document<'a>,
    },
    /// The store of a file is served as it stands there.
    Resume {
        front: Front,
        file: &'a str,
        serving: Serving<'a>,
    },
    /// What a file of a store has is told: its document, or the state that the file is in.
    Data {
        file: &'a str,
        checks: bool,
    },
    /// A server is asked these lines, or those of standard input if there are none.
    Ask {
        server: SocketAddr,
        lines: Vec<&'a str>,
    },
    /// A server's document is written into the file of this name.
    Save {
        server: SocketAddr,
        file: &'a str,
    },
}

/// What is done with a document.
#[derive(Drop)]
pub enum Command<'a> {
    Judge,
    Check,
    /// The plan is written in its document, or alone.
    Plan { in_document: bool },
    Draw { form: Form },
    Run { workers: Workers },
    Audit,
    /// A document is made of a tree's lines by path, with the parents that have no line if they are to be added.
    Tree { adds_parents: bool },
    /// Its tree is written as such lines.
    Table,
    /// Its store is served to sessions.
    Serve(Serving<'a>),
    /// Its store is served over HTTP.
    Page(Serving<'a>),
}

/// Where a document is.
#[derive(Clone, Copy)]
pub enum Document<'a> {
    StandardInput,
    /// In the file of this name.
    Named(&'a str),
}

/// How a store is served.
#[derive(Clone, Copy)]
pub enum Front {
    /// To sessions.
    Sessions,
    /// Over HTTP.
    Page,
}

/// Where and how a store is served.
#[derive(Drop)]
pub struct Serving<'a> {
    pub place: Place,
    /// The file that its rounds are kept in, if they are.
    pub data: Option<&'a str>,
    pub sync: SyncEach,
    pub workers: Workers,
    pub patience: Patience,
    /// The form of the log of connections on standard error, if there is one.
    pub log: Option<LogForm>,
    /// How many connections are served at once at the place's port for HTTP.
    pub http_seats: u32,
    /// The names by which requests over HTTP may call the host.
    pub hosts: Vec<&'a str>,
    /// Whether the reply to each refused line has a hint.
    pub hints: bool,
}

/// How often the file of the rounds is synced.
#[derive(Clone, Copy)]
pub enum SyncEach {
    /// At each round, before its lines have replies.
    Round,
    /// Each second, whatever was replied meanwhile.
    Second,
}

/// How a log is written.
#[derive(Clone, Copy)]
pub enum LogForm {
    /// A line of names and values for each event.
    Text,
    /// A line with an object of JSON for each.
    Json,
}

/// How many workers run lists at once.
#[derive(Clone, Copy)]
pub struct Workers {
    pub number: u32,
    pub ghost some: { 1 ≤ number },
    pub ghost few: { number ≤ 16 },
}

/// Where a store is served: an address, and a port of it.
#[derive(Clone, Copy)]
pub struct Place {
    pub address: IpAddr,
    pub port: Port,
    /// A second port, for HTTP, if one is asked for.
    pub http: Option<u16>,
}

/// Which port is listened on.
#[derive(Clone, Copy)]
pub enum Port {
    /// One that is free, which the system chooses.
    Any,
    Named(u16),
}

/// What a server does with connections that idle, and with those that find no slot.
#[derive(Clone, Copy)]
pub struct Patience {
    /// After how many seconds without a whole line a connection is ended; without it, never.
    pub idle: Option<u32>,
    /// Whether a connection that finds no slot is told so and closed; else it waits.
    pub tells_busy: bool,
}

/// How a drawing is written.
#[derive(Clone, Copy)]
pub enum Form {
    /// As an SVG document.
    Svg,
    /// As lines for a terminal.
    Text,
}
