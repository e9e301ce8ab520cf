ghost use Rattle.std.specs.Prelude.{◌≡◌};
ghost use Rattle.std.specs.Io.{ReadsAtMost};
ghost use Rattle.std.specs.Io.KnownBytes.{ReadConsumes};

use crate::ending::is_late;
use grove_gauge::TimeLimit;
use std::cell::Cell;
use std::io::{self, Read};
use std::time::{Clock, Duration, Instant};

/// A reader whose next read can be limited in time.
pub trait LimitedRead: Read {
    /// Lets a read wait so long; nothing stands for ever.
    fn limit_read(&self, longest: Option<Duration>) -> io::Result<()>;
}

/// What is waited for over a connection.
#[derive(Clone, Copy)]
pub enum Awaited<'a> {
    /// A line, which a line feed ends.
    Line,
    /// A request. Once one has come, whoever answers it sets this.
    Request(&'a Cell<bool>),
}

/// A connection that may idle for so long and no longer: a read of it fails once a line, or a request, has been waited
/// for all that time. A part of one wins none, and the time in which one is answered doesn't count. What it reads is
/// what the stream gives.
#[derive(Drop)]
pub struct TimedStream<'a, R, S> {
    clock: &'a R,
    stream: S,
    awaited: Awaited<'a>,
    limit: TimeLimit,
    /// Whether the time was up.
    is_late: &'a Cell<bool>,
}

impl<'a, R: Clock, S: LimitedRead> TimedStream<'a, R, S> {
    /// A connection for which nothing is waited for yet. Once the time was up, `is_late` tells so.
    pub fn new(
        clock: &'a R,
        stream: S,
        awaited: Awaited<'a>,
        longest: Duration,
        is_late: &'a Cell<bool>,
    ) -> TimedStream<'a, R, S> {
        TimedStream {
            clock,
            stream,
            awaited,
            limit: TimeLimit::new(longest),
            is_late,
        }
    }

    /// How long the next read may wait, as there is so much time left. Where there is none, the system refuses the
    /// limit.
    fn time_left(&mut self) -> io::Result<Duration>
        ensures { self.new.stream ≡ self.old.stream }
    {
        let now = Instant::now(self.clock)?;
        if self.has_come() {
            self.limit.has_come();
        }
        Ok(self.limit.time_left(now))
    }

    /// Has a request come since this was last asked?
    fn has_come(&self) -> bool {
        match self.awaited {
            Awaited::Line => false,
            Awaited::Request(has_come) => has_come.replace(false),
        }
    }

    /// Reads before the time is up.
    fn read_in_time(&mut self, buffer: &mut [u8]) -> io::Result<usize>
        ensures bound { ReadsAtMost result buffer.new }
        ensures bytes { ReadConsumes (S.remaining self.old.stream) (S.remaining self.new.stream) result buffer.new }
    {
        let left = self.time_left()?;
        self.is_late.set(left.is_zero());
        self.stream.limit_read(Some(left))?;
        let read = self.stream.read(buffer);
        if let Err(error) = &read {
            self.is_late.set(is_late(error));
        }
        read
    }
}

impl<R: Clock, S: LimitedRead> Read for TimedStream<'_, R, S> {
    ghost remaining = { λ timed. S.remaining timed.stream };

    fn read(&mut self, buffer: &mut [u8]) -> io::Result<usize> {
        let count = self.read_in_time(buffer)?;
        if matches!(self.awaited, Awaited::Line) && buffer[..count].contains(&b'\n') {
            self.limit.has_come();
        }
        Ok(count)
    }
}
