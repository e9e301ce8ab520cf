use crate::answer::Stop;
use crate::server::Loss;
use grove_base::{NoMemory, said};
use grove_words::{Command, Document, Invocation, Order, Place, Port};
use std::alloc::{AllocError, Global};
use std::io::{self, ErrorKind};
use std::net::SocketAddr;

/// The greatest number of characters of a file's name that are told.
const MOST_SHOWN: usize = 200;

/// What couldn't be done, and why.
#[derive(Clone, Copy)]
pub enum Failure {
    Open(io::Error),
    Read(io::Error),
    Write(io::Error),
    /// The file of a save couldn't be written, or put in its place.
    Save(io::Error),
    Listen(Place, io::Error),
    /// The file of a store's rounds.
    Data(DataFailure),
    /// A port is no listener any more.
    Accept,
    Reach(SocketAddr, io::Error),
    Lose(SocketAddr, Loss),
}

/// What is wrong with the file of a store's rounds.
#[derive(Clone, Copy)]
pub enum DataFailure {
    Open(io::Error),
    /// It is a folder, a device or the like.
    NotAFile,
    /// Another server has it open.
    Taken,
    /// It has nothing, and there is no document to make it of.
    Empty,
    /// It isn't one of ours.
    Foreign,
    /// It is one of another version.
    OtherVersion(u32),
    /// It is one of ours, but what it has is no store.
    NoStore,
    /// It can't be written when it is opened.
    Begin(io::Error),
    /// A round can't be kept in it.
    Keep(io::Error),
}

impl From<DataFailure> for Stop {
    fn from(failure: DataFailure) -> Stop {
        Failure::Data(failure).stop()
    }
}

impl Failure {
    /// Why it stops the program.
    pub fn stop(self) -> Stop {
        match self {
            Failure::Open(error)
            | Failure::Save(error)
            | Failure::Listen(_, error)
            | Failure::Reach(_, error)
            | Failure::Data(
                DataFailure::Open(error) | DataFailure::Begin(error) | DataFailure::Keep(error),
            ) if error.kind() == ErrorKind::OutOfMemory => { Stop::Memory }
            _ => Stop::Device(Some(self)),
        }
    }
}

/// Standard input and standard output: the system's error of each, where it has failed.
#[derive(Clone, Copy)]
pub struct StreamErrors {
    pub input: Option<io::Error>,
    pub output: Option<io::Error>,
}

impl StreamErrors {
    fn failure(self) -> Option<Failure> {
        match (self.input, self.output) {
            (Some(error), _) => Some(Failure::Read(error)),
            (None, Some(error)) => Some(Failure::Write(error)),
            (None, None) => None,
        }
    }
}

/// The line that says what failed, if that is known, unless it is to be left out: if the stop doesn't tell, the streams
/// may. Without memory for it there is none.
pub fn reason_for(
    alloc: Global,
    why: Stop,
    invocation: &Invocation<'_>,
    streams: StreamErrors,
) -> Option<String> {
    if invocation.quiet {
        return None;
    }
    let failure = match why {
        Stop::Device(Some(failure)) => failure,
        Stop::Device(None) => streams.failure()?,
        Stop::Memory => return None,
    };
    match reason(alloc, &invocation.order, failure) {
        Ok(reason) => line_of(alloc, &reason).ok(),
        Err(AllocError) => None,
    }
}

/// The line that says why standard output failed, if that is known.
pub fn reason_of_output(alloc: Global, error: Option<io::Error>) -> Option<String> {
    match no_output(alloc, error?) {
        Ok(reason) => line_of(alloc, &reason).ok(),
        Err(AllocError) => None,
    }
}

fn line_of(alloc: Global, reason: &str) -> Result<String, NoMemory> {
    let reason = said(alloc, reason)?;
    Ok(format!(in alloc; "{reason}\n")?)
}

fn no_output(alloc: Global, error: io::Error) -> Result<String, AllocError> {
    format!(in alloc; "cannot write standard output: {error}")
}

fn reason(alloc: Global, order: &Order<'_>, failure: Failure) -> Result<String, AllocError> {
    match failure {
        Failure::Open(error) => {
            let file = file_of(alloc, order)?;
            format!(in alloc; "cannot open {file}: {error}")
        }
        Failure::Read(error) => {
            let file = file_of(alloc, order)?;
            format!(in alloc; "cannot read {file}: {error}")
        }
        Failure::Write(error) => no_output(alloc, error),
        Failure::Save(error) => {
            let file = file_of(alloc, order)?;
            format!(in alloc; "cannot save {file}: {error}")
        }
        Failure::Listen(Place { address, port, .. }, error) => match port {
            Port::Named(port) => {
                let address = SocketAddr::new(address, port);
                format!(in alloc; "cannot listen on {address}: {error}")
            }
            Port::Any => format!(in alloc; "cannot listen on {address}: {error}"),
        },
        Failure::Data(failure) => reason_of_data(alloc, order, failure),
        Failure::Accept => String::from_str(
            alloc,
            "cannot accept connections any more; the log of --verbose has the system's error",
        ),
        Failure::Reach(address, error) => format!(in alloc; "cannot reach {address}: {error}"),
        Failure::Lose(address, loss) => reason_of_loss(alloc, address, loss),
    }
}

/// Why the file of a store's rounds isn't opened, or not written.
fn reason_of_data(
    alloc: Global,
    order: &Order<'_>,
    failure: DataFailure,
) -> Result<String, AllocError> {
    let file = shown(alloc, data_of(order))?;
    match failure {
        DataFailure::Open(error) => format!(in alloc; "cannot open {file}: {error}"),
        DataFailure::NotAFile => format!(in alloc; "cannot open {file}: it is no regular file"),
        DataFailure::Taken => format!(in alloc; "cannot open {file}: another server has it open"),
        DataFailure::Empty => {
            format!(in alloc;
                "cannot open {file}: it is empty; with --tree it is made of a document"
            )
        }
        DataFailure::Foreign => {
            format!(in alloc; "cannot open {file}: it isn't a file of --data")
        }
        DataFailure::OtherVersion(version) => {
            format!(in alloc;
                "cannot open {file}: it has version {version}, and this grove reads version 1"
            )
        }
        DataFailure::NoStore => format!(in alloc; "cannot open {file}: what it has is no store"),
        DataFailure::Begin(error) => format!(in alloc; "cannot write {file}: {error}"),
        DataFailure::Keep(error) => format!(in alloc; "cannot keep rounds in {file}: {error}"),
    }
}

/// The name of the file of an order's rounds.
fn data_of<'a>(order: &Order<'a>) -> &'a str {
    match order {
        Order::Do {
            command: Command::Serve(serving) | Command::Page(serving),
            ..
        } => serving.data.unwrap_or(""),
        Order::Resume { file, .. } | Order::Data { file, .. } => file,
        _ => "",
    }
}

fn reason_of_loss(alloc: Global, address: SocketAddr, loss: Loss) -> Result<String, AllocError> {
    match loss {
        Loss::Failed(error) => format!(in alloc; "lost the server at {address}: {error}"),
        Loss::Closed => {
            format!(in alloc;
                "lost the server at {address}: it closed the connection before the end of a reply"
            )
        }
        Loss::LongReply => {
            format!(in alloc; "no reply of the server at {address}: more than a line came for one")
        }
        Loss::Http => format!(in alloc; "no reply of the server at {address}: it speaks HTTP"),
        Loss::Silence => format!(in alloc; "lost the server at {address}: it sends nothing"),
    }
}

/// The name of the file that an order reads or writes, and where it has none that of the stream.
fn file_of(alloc: Global, order: &Order<'_>) -> Result<String, AllocError> {
    let name = match order {
        Order::Do {
            document: Document::Named(name),
            ..
        } => *name,
        Order::Save { file, .. } | Order::Data { file, .. } => *file,
        _ => "standard input",
    };
    shown(alloc, name)
}

/// A file's name, or its beginning.
fn shown(alloc: Global, name: &str) -> Result<String, AllocError> {
    let mut shown = String::new(alloc);
    for (count, letter) in name.chars().enumerate() {
        if count >= MOST_SHOWN {
            shown.push_str("..")?;
            break;
        }
        shown.push(letter)?;
    }
    Ok(shown)
}
