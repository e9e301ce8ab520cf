ghost use Rattle.std.specs.Prelude.{◌≡◌, map, string_bytes, IsOk, OnOk};
ghost use Rattle.std.specs.Io.KnownBytes.{Appends, Consumes};
ghost use Rattle.http_server.specs.declared.state.Config.{Config};
ghost use Rattle.http_server.specs.History.{History, IsDone};
ghost use Rattle.grove_page.specs.Pages.{IsPageHistory};

use crate::service::PageService;
use crate::{Front, Paths};
use http_server::{Config, Connection, State, serve};
use std::alloc::AllocGlobal;
use std::hash::RandomState;
use std::io;
use std::io::{ErrorKind, Read, Write};

/// So many bytes may a body have.
pub const MOST_BODY: usize = 4 * 1024 * 1024;

/// What is shown to whoever looks, and by which names requests may call the server.
#[derive(Clone, Copy)]
pub struct Site<'a> {
    pub page: &'static str,
    /// Names that a request may have for its host, beside addresses and `localhost`.
    pub hosts: &'a [String],
    /// Whether each refusal of a line has a hint; else only that of a request that asks for hints.
    pub hints: bool,
    /// Paths of nodes, which need not be those of the store. Those that are aren't made again at each look.
    pub paths: Option<&'a Paths>,
}

/// Serves a connection: reads its requests, and writes what is replied to them, until it is done. One that is given up
/// for want of memory ends with that error.
pub fn serve_page<R: AllocGlobal, F: Front<R>, I: Read, O: Write>(
    rt: &R,
    front: &F,
    site: Site<'_>,
    keys: RandomState,
    reader: &mut I,
    writer: &mut O,
) -> io::Result<()>
    requires asks { F.asks }
    ensures { (config : Config) × (history : History) × (config.max_body_len ≡ 4194304)
        × IsPageHistory (record {
          page = site.entry.page.now;
          hosts = map string_bytes site.entry.hosts.now;
          opening = F.opening front.now;
          hints = site.entry.hints;
        }) config history
        × Consumes (I.remaining reader.old) (I.remaining reader.new) history.received
        × Appends (O.contents writer.old) (O.contents writer.new) history.sent
        × OnOk result (IsDone history) }
{
    let mut config = Config::default();
    config.max_body_len = MOST_BODY;
    let mut connection = Connection::new(rt.alloc(), keys, config);
    let Site {
        page,
        hosts,
        hints,
        paths,
    } = site;
    let mut service = PageService {
        rt,
        front,
        page,
        hosts,
        hints,
        paths,
    };
    let ended = serve(&mut connection, &mut service, reader, writer);
    end_in(connection.state(), ended)
}

/// The end of a connection in this state. One that was aborted had no memory to go on.
fn end_in(state: State, ended: io::Result<()>) -> io::Result<()>
    ensures { OnOk result (IsOk ended) }
{
    match state {
        State::Aborted if ended.is_ok() => Err(ErrorKind::OutOfMemory.into()),
        _ => ended,
    }
}
