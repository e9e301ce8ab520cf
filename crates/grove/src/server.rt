use crate::explained::Explained;
use crate::failure::Failure;
use crate::file_source::FileSource;
use crate::hint_lines::{HintLines, hint_in};
use grove_session::{AnswerFault, Answers, Source, WriterSink, write_whole};
use std::alloc::{AllocGlobal, Global};
use std::io::{self, ErrorKind};
use std::marker::Model;
use std::net::{SocketAddr, TcpStream};
use std::sync::atomic::{AtomicU64, Ordering};

/// How a reply begins that says that something couldn't be done.
const ERROR_BEGINS: &[u8] = b"{\"error\":";

/// How a reply of HTTP begins.
const HTTP_BEGINS: &[u8] = b"HTTP/";

/// Why a line got no reply.
#[derive(Clone, Copy)]
pub enum Loss {
    /// The connection failed.
    Failed(io::Error),
    /// It was closed before the end of the reply.
    Closed,
    /// What came is more than a line.
    LongReply,
    /// It came by HTTP.
    Http,
    /// Nothing came for as long as is waited.
    Silence,
}

/// A server, which answers the lines of a session.
#[derive(Drop)]
pub struct Server<'a> {
    stream: &'a TcpStream,
    address: SocketAddr,
    /// Whether a reply was an error.
    has_refused: bool,
    /// The hints that came in such replies.
    hints: HintLines,
    /// Whether hints have the numbers of their lines.
    numbers_lines: bool,
    /// How many lines have their reply.
    replied: u64,
    /// How many lines were too long to be sent: the session replies to them itself.
    passed_over: AtomicU64,
    /// Why the latest line got no reply.
    loss: Option<Loss>,
}

impl<'a> Model for Server<'a> {
    ghost use Rattle.std.specs.Prelude.{⊤};

    ghost Value = { ⊤ };

    ghost view = { λ _. tt };
}

impl<'a> Server<'a> {
    /// A server that has replied nothing yet.
    pub fn new(
        alloc: Global,
        stream: &'a TcpStream,
        address: SocketAddr,
        numbers_lines: bool,
    ) -> Server<'a> {
        Server {
            stream,
            address,
            has_refused: false,
            hints: HintLines::new(alloc),
            numbers_lines,
            replied: 0,
            passed_over: AtomicU64::new(0),
            loss: None,
        }
    }

    /// The lines of the hints in its replies.
    pub fn hints(&self) -> &str {
        self.hints.as_str()
    }

    /// Keeps the hint in the next reply, which is an error, if it has one.
    fn keep_hint(&mut self, alloc: Global, reply: &[u8]) {
        let number = self.next_number();
        if let Some(hint) = hint_in(alloc, reply, number) {
            self.hints.add(alloc, &hint);
        }
    }

    /// The number of the next line, if lines have numbers.
    fn next_number(&self) -> Option<u64> {
        if !self.numbers_lines {
            return None;
        }
        let before = self
            .replied
            .saturating_add(self.passed_over.load(Ordering::Relaxed));
        Some(before.saturating_add(1))
    }

    /// Whether a line was too long to be sent.
    pub fn has_passed_over(&self) -> bool {
        self.passed_over.load(Ordering::Relaxed) > 0
    }

    /// How the server was lost, if it was.
    pub fn failure(&self) -> Option<Failure> {
        match self.loss {
            Some(loss) => Some(Failure::Lose(self.address, loss)),
            None => None,
        }
    }

    /// Whether a reply was an error.
    pub fn has_refused(&self) -> bool {
        self.has_refused
    }
}

impl<'a, R: AllocGlobal> Answers<R> for Server<'a> {
    ghost use Rattle.std.specs.Prelude.{true, ⊤};

    // Any reply may come.
    ghost lawful = { λ _ _ _ _. ⊤ };

    // The server may be lost.
    ghost is_shared = { true };

    ghost asks = { ⊤ };

    fn answer(&mut self, rt: &R, line: &[u8]) -> Result<Vec<u8>, AnswerFault> {
        let alloc = rt.alloc();
        match asked(alloc, self.stream, line) {
            Ok(reply) => {
                if reply.starts_with(ERROR_BEGINS) {
                    self.has_refused = true;
                    self.keep_hint(alloc, &reply);
                }
                self.replied = self.replied.saturating_add(1);
                Ok(reply)
            }
            Err(NoReply::Lost(loss)) => {
                self.loss = Some(loss);
                Err(AnswerFault::Foreign)
            }
            Err(NoReply::Memory) => Err(AnswerFault::Memory),
        }
    }

    fn pass_over(&self, _rt: &R) {
        let _before = self.passed_over.fetch_add(1, Ordering::Relaxed);
    }
}

/// Why there is no reply.
enum NoReply {
    Lost(Loss),
    /// A growth was refused.
    Memory,
}

/// Sends the line, and gives the reply. A server that takes no more of the line may have replied all the same.
fn asked(alloc: Global, stream: &TcpStream, line: &[u8]) -> Result<Vec<u8>, NoReply> {
    let mut sink = WriterSink::new(stream);
    if write_whole(&mut sink, line).is_ok() {
        let _ended = write_whole(&mut sink, b"\n");
    }
    reply_from(alloc, stream)
}

/// The reply, which is all that comes up to a line feed. Nothing may have come behind it.
fn reply_from(alloc: Global, stream: &TcpStream) -> Result<Vec<u8>, NoReply> {
    let mut reply = read_line(alloc, stream)?;
    if reply.starts_with(HTTP_BEGINS) {
        return Err(NoReply::Lost(Loss::Http));
    }
    match reply.pop() {
        Some(b'\n') if !reply.contains(&b'\n') => Ok(reply),
        _ => Err(NoReply::Lost(Loss::LongReply)),
    }
}

/// What is read until a line feed has come.
fn read_line(alloc: Global, stream: &TcpStream) -> Result<Vec<u8>, NoReply> {
    let mut source = FileSource::new(stream);
    let mut line = Vec::new(alloc);
    let mut buffer = [0u8; 16_384];
    for _ in 0..u64::MAX {
        let Ok(count) = source.read(&mut buffer) else {
            return Err(NoReply::Lost(loss_by(source.error())));
        };
        if count == 0 {
            return Err(NoReply::Lost(Loss::Closed));
        }
        if line.extend_from_slice(&buffer[..count]).is_err() {
            return Err(NoReply::Memory);
        }
        if buffer[..count].contains(&b'\n') {
            return Ok(line);
        }
    }
    Err(NoReply::Lost(Loss::LongReply))
}

/// How a server was lost at which a read failed, with this error of the system if there is one.
pub fn loss_by(error: Option<io::Error>) -> Loss {
    match error {
        Some(error) if error.kind() == ErrorKind::WouldBlock => Loss::Silence,
        Some(error) => Loss::Failed(error),
        None => Loss::Closed,
    }
}
