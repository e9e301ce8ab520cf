use grove_base::NoMemory;
use std::alloc::Global;
use std::net::{Shutdown, TcpStream};
use std::sync::{Arc, Condvar, Mutex, Wait};
use std::time::{Clock, Duration};

/// The streams of all connections, so that they can be ended together.
#[derive(Drop)]
pub struct Streams {
    alloc: Global,
    list: Mutex<List>,
    /// Rung when it isn't as before whether connections are served.
    turned: Condvar,
}

#[derive(Drop)]
struct List {
    streams: Vec<Listed>,
    /// How many were ever listed.
    count: u64,
    stage: Stage,
}

/// Whether connections are served.
#[derive(Clone, Copy, PartialEq, Eq)]
enum Stage {
    Open,
    /// A round couldn't be kept, so they are ended before long.
    Failed,
    /// None is served any more.
    Closed,
}

/// A stream on the list.
#[derive(Drop)]
pub struct Listed {
    number: u64,
    stream: Arc<TcpStream>,
}

impl Listed {
    pub fn stream(&self) -> &TcpStream {
        &self.stream
    }
}

impl Streams {
    /// An empty list.
    pub fn new(alloc: Global) -> Streams {
        Streams {
            alloc,
            list: Mutex::new(List {
                streams: Vec::new(alloc),
                count: 0,
                stage: Stage::Open,
            }),
            turned: Condvar::new(),
        }
    }

    /// Lists a stream.
    pub fn add<R: Wait>(&self, rt: &R, stream: TcpStream) -> Result<Listed, NoMemory> {
        let stream = Arc::new(self.alloc, stream)?;
        let mut list = self.list.lock(rt);
        list.count = list.count.wrapping_add(1);
        let number = list.count;
        let other = Listed {
            number,
            stream: Arc::try_clone(&stream)?,
        };
        list.streams.push(other)?;
        if list.stage == Stage::Closed {
            let _ended = stream.shutdown(Shutdown::Both);
        }
        Ok(Listed { number, stream })
    }

    /// Takes a stream off the list, and closes it.
    pub fn remove<R: Wait>(&self, rt: &R, listed: Listed) {
        let mut list = self.list.lock(rt);
        let place = list
            .streams
            .iter()
            .position(|other| other.number == listed.number);
        if let Some(place) = place {
            let _other = list.streams.swap_remove(place);
        }
    }

    /// A round couldn't be kept.
    pub fn fail<R: Wait>(&self, rt: &R) {
        self.turn(rt, Stage::Failed);
    }

    /// No connection is served any more: those that there are, and those that come, are ended.
    pub fn close<R: Wait>(&self, rt: &R) {
        self.turn(rt, Stage::Closed);
        for listed in &self.list.lock(rt).streams {
            let _ended = listed.stream.shutdown(Shutdown::Both);
        }
    }

    fn turn<R: Wait>(&self, rt: &R, stage: Stage) {
        let mut list = self.list.lock(rt);
        if list.stage != Stage::Closed {
            list.stage = stage;
        }
        drop(list);
        self.turned.notify_all();
    }

    pub fn is_closed<R: Wait>(&self, rt: &R) -> bool {
        self.list.lock(rt).stage == Stage::Closed
    }

    /// Waits so long, but no longer than connections are served and all is kept, and says whether that is over.
    pub fn ends_within<R: Wait + Clock>(&self, rt: &R, longest: Duration) -> bool {
        let list = self.list.lock(rt);
        let (list, _) = self
            .turned
            .wait_timeout_while(rt, list, longest, |list| list.stage == Stage::Open);
        list.stage != Stage::Open
    }

    /// Waits until a round couldn't be kept, or until no connection is served any more, and says whether it is the
    /// first.
    pub fn await_failure<R: Wait>(&self, rt: &R) -> bool {
        let list = self.list.lock(rt);
        let list = self
            .turned
            .wait_while(rt, list, |list| list.stage == Stage::Open);
        list.stage == Stage::Failed
    }
}
