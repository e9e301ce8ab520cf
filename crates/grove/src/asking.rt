ghost use Rattle.std.specs.Prelude.{◌≤◌, IfOk};

use crate::answer::Stop;
use crate::failure::Failure;
use crate::server::Server;
use grove_serve::Host;
use grove_session::{BytesSource, SessionFault, Sink, Source, session, write_whole};
use std::alloc::{AllocGlobal, Global};
use std::net::{Net, SocketAddr, TcpListener, TcpStream};

/// Sources that were read as often aren't read for a session.
const MOST_READS: u64 = 1 << 63;

/// Asks the server at the address the lines, or those of the input if there are none, and prints its replies, and then
/// the hints in them on standard error. Gives the status of the process: 0, or 1 if a reply was an error.
pub fn ask<R: Host + Net<Listener = TcpListener, Stream = TcpStream>, I: Source, O: Sink, E: Sink>(
    rt: &R,
    address: SocketAddr,
    lines: &[&str],
    input: &mut I,
    out: &mut O,
    err: &mut E,
) -> Result<u8, Stop>
    ensures { IfOk result (λ status. status ≤ 1) }
{
    let text = text_of(rt.alloc(), lines)?;
    let stream = match TcpStream::connect(rt, address) {
        Ok(stream) => stream,
        Err(error) => return Err(Failure::Reach(address, error).stop()),
    };
    // No line is to wait until the reply before it has arrived.
    let _at_once = stream.set_nodelay(true);
    let numbers_lines = text.lines().count() != 1;
    let mut server = Server::new(rt.alloc(), &stream, address, numbers_lines);
    let status = if text.is_empty() {
        ask_lines(rt, &mut server, input, out)?
    } else {
        ask_lines(rt, &mut server, &mut BytesSource::new(text.as_bytes()), out)?
    };
    // The hints are there to help: where they can't be printed, the replies stand.
    let _printed = write_whole(err, server.hints().as_bytes());
    Ok(status)
}

/// The lines, each with a line feed.
fn text_of(alloc: Global, lines: &[&str]) -> Result<String, Stop> {
    let mut text = String::new(alloc);
    for line in lines.iter() {
        text.push_str(line)?;
        text.push('\n')?;
    }
    Ok(text)
}

/// Asks the server the lines of the source, and writes its replies. If the source or the sink fails, it says itself
/// why.
fn ask_lines<R: AllocGlobal, I: Source, O: Sink>(
    rt: &R,
    server: &mut Server<'_>,
    source: &mut I,
    sink: &mut O,
) -> Result<u8, Stop>
    ensures { IfOk result (λ status. status ≤ 1) }
{
    if source.failed() || sink.failed() || source.reads() >= MOST_READS {
        return Err(Stop::Device(None));
    }
    match session(rt, server, source, sink) {
        Ok(_) if server.has_refused() || server.has_passed_over() => Ok(1),
        Ok(_) => Ok(0),
        Err(SessionFault::Memory) => Err(Stop::Memory),
        Err(_) => Err(Stop::Device(server.failure())),
    }
}
