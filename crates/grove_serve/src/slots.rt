ghost use Rattle.std.specs.Prelude.{◌≡◌};

use crate::file_counts::FileCounts;
use crate::log::Log;
use crate::metrics::Metrics;
use crate::pool::Pool;
use crate::service::{Doors, Manner, Talk};
use crate::streams::Streams;
use grove_page::{MOST_KEPT, Paths};
use grove_tree::Tree;
use grove_words::Patience;
use std::alloc::Global;
use std::sync::{Arc, Mutex, MutexGuard, Wait};
use std::time::Clock;

/// So many connections over HTTP that have no slot are accepted nevertheless, so that requests for the state of the
/// server are answered.
const ROOM: u32 = 8;

/// The slots of connections, those of each port apart, how whoever has one is served, and what is counted of them.
#[derive(Drop)]
pub struct Slots {
    /// Of those that talk lines.
    lines: Pool,
    /// Of those that talk HTTP: so a browser or a scraper takes none from clients.
    requests: Pool,
    /// Taken by the one long body that is answered.
    long_body: Mutex<()>,
    patience: Patience,
    hosts: Vec<String>,
    metrics: Metrics,
    hints: bool,
    /// The paths of the store's nodes, by which hints go and looks are answered, if there was memory for them.
    paths: Option<Paths>,
    log: Option<Log>,
    streams: Streams,
    /// What is counted of the file that rounds are kept in, if they are.
    kept: Option<Arc<FileCounts>>,
}

impl Slots {
    /// All slots of the doors, free.
    pub fn new<R: Clock>(
        rt: &R,
        alloc: Global,
        doors: &Doors,
        manner: Manner,
        paths: Option<Paths>,
        kept: Option<Arc<FileCounts>>,
    ) -> Slots {
        let first = &doors.first;
        let (lines, requests) = match (first.talk, &doors.http) {
            (Talk::Requests, _) => (0, first.slots),
            (Talk::Lines, Some(http)) => (first.slots, http.slots),
            (Talk::Lines, None) => (first.slots, 0),
        };
        let Manner {
            patience,
            log,
            hosts,
            hints,
            memory,
        } = manner;
        Slots {
            lines: Pool::new(lines, 0),
            requests: Pool::new(requests, ROOM),
            long_body: Mutex::new(()),
            patience,
            hosts,
            metrics: Metrics::new(rt, alloc, memory),
            hints,
            paths,
            log: log.map(|form| Log::new(form)),
            streams: Streams::new(alloc),
            kept,
        }
    }

    /// The slots of connections that talk so.
    pub fn pool(&self, talk: Talk) -> &Pool {
        match talk {
            Talk::Lines => &self.lines,
            Talk::Requests => &self.requests,
        }
    }

    /// How long a connection may idle, and whether one without a slot is told.
    pub fn patience(&self) -> Patience {
        self.patience
    }

    /// Names that requests may have for their host, beside addresses and `localhost`.
    pub fn hosts(&self) -> &[String] {
        &self.hosts
    }

    /// What is counted of the server.
    pub fn metrics(&self) -> &Metrics {
        &self.metrics
    }

    /// Whether each refusal of a line has a hint.
    pub fn hints(&self) -> bool
        ensures { result ≡ self.now.hints }
    {
        self.hints
    }

    /// A tree with the names of the store's, by which hints go, if it is known.
    pub fn tree(&self) -> Option<&Tree> {
        let paths = self.paths.as_ref()?;
        Some(paths.tree())
    }

    /// The paths of the store's nodes, if they are known.
    pub fn paths(&self) -> Option<&Paths> {
        self.paths.as_ref()
    }

    /// The streams of all connections.
    pub fn streams(&self) -> &Streams {
        &self.streams
    }

    /// What is counted of the file that rounds are kept in, if they are.
    pub fn kept(&self) -> Option<&FileCounts> {
        match &self.kept {
            Some(counts) => Some(counts),
            None => None,
        }
    }

    /// Where it is logged who comes and goes, if anywhere.
    pub fn log(&self) -> Option<&Log> {
        self.log.as_ref()
    }

    /// The turn of a body of so many bytes, once no other long one is answered; a short one needs none.
    pub fn turn_of_body<R: Wait>(&self, rt: &R, bytes: usize) -> Option<MutexGuard<'_, ()>> {
        if bytes > MOST_KEPT {
            Some(self.long_body.lock(rt))
        } else {
            None
        }
    }
}
