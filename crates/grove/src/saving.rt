ghost use Rattle.std.specs.Prelude.{◌≡◌, ◌≤◌, ◌⊎◌, false, IfOk, OnErr};
ghost use Rattle.std.specs.Io.KnownBytes.{Keeps};
ghost use Rattle.grove.specs.Runs.{SaysRefusal};

use crate::answer::Stop;
use crate::explained::Explained;
use crate::failure::Failure;
use crate::file_source::FileSource;
use crate::output::{add, tell};
use crate::replacing::replace;
use crate::response::{NoDocument, document_in};
use crate::response_reader::ResponseReader;
use crate::server::{Loss, loss_by};
use grove_base::Hint;
use grove_serve::Host;
use grove_session::{ReadFault, Sink, WriterSink, read_whole, write_whole};
use std::alloc::Global;
use std::net::{Net, SocketAddr, TcpListener, TcpStream};
use std::rt::Files;
use std::time::Duration;

/// The most bytes of a response: those of a document, and of what stands before it.
const MOST_BYTES: usize = 4_194_304 + 65_536;

/// For how many seconds a server may send nothing.
const MOST_SECONDS: u64 = 60;

/// Saves the document of the server at the address in the file, which is replaced in one step. Gives the status of the
/// process: 0, or 1 if what the server sends is no document, and the file is as it was. Then a hint may go to `err`.
pub fn save<R: Host + Files + Net<Listener = TcpListener, Stream = TcpStream>, O: Sink, E: Sink>(
    rt: &R,
    server: SocketAddr,
    file: &str,
    out: &mut O,
    err: &mut E,
) -> Result<u8, Stop>
    ensures saved { IfOk result
        (λ status. ((status ≡ 0) × Keeps (O.contents out.old) (O.contents out.new))
        ⊎ ((status ≡ 1) × SaysRefusal (O.contents out.old) (O.contents out.new))) }
    ensures unprinted { OnErr result (O.has_failed out.new ≡ false → Keeps (O.contents out.old) (O.contents out.new)) }
    ensures few { IfOk result (λ status. status ≤ 1) }
{
    let alloc = rt.alloc();
    let response = fetched(rt, alloc, server)?;
    match document_in(alloc, &response) {
        Ok(document) => {
            replace(rt, alloc, file, document)?;
            Ok(0)
        }
        Err(NoDocument::Refused { fault, why }) => {
            tell(&format!(in alloc; "refused {fault}\n")?, out)?;
            add(alloc, Hint::new(alloc, why).ok(), err);
            Ok(1)
        }
        Err(NoDocument::Cut) => Err(Failure::Lose(server, Loss::Closed).stop()),
        Err(NoDocument::Memory) => Err(Stop::Memory),
    }
}

/// What the server sends when it is asked for its document: all of it, or what shows that it is no response.
fn fetched<R: Host + Net<Listener = TcpListener, Stream = TcpStream>>(
    rt: &R,
    alloc: Global,
    server: SocketAddr,
) -> Result<Vec<u8>, Stop> {
    let stream = match TcpStream::connect(rt, server) {
        Ok(stream) => stream,
        Err(error) => return Err(Failure::Reach(server, error).stop()),
    };
    let request = format!(in alloc;
        "GET /document HTTP/1.1\r\nHost: {server}\r\nConnection: close\r\n\r\n"
    )?;
    // A server may send nothing for good.
    let _limited = stream.set_read_timeout(Some(Duration::from_secs(MOST_SECONDS)));
    // A server that takes no more of the request may have answered all the same.
    let _sent = write_whole(&mut WriterSink::new(&stream), request.as_bytes());
    let mut source = FileSource::new(ResponseReader::new(&stream));
    match read_whole(alloc, &mut source, MOST_BYTES) {
        Ok(response) => Ok(response),
        Err(ReadFault::Memory) => Err(Stop::Memory),
        Err(ReadFault::Device) => Err(Failure::Lose(server, loss_by(source.error())).stop()),
    }
}
