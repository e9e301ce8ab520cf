ghost use Rattle.std.specs.Prelude.{◌≡◌};

use crate::ending::is_late;
use grove_gauge::TimeLimit;
use std::cell::Cell;
use std::io::{self, ErrorKind, Write};
use std::time::{Clock, Duration, Instant};

/// So many milliseconds a write of the system waits at most, below a timed writer: what it has taken by then it tells.
pub const LONGEST_TRY: u64 = 100;

/// A writer whose client may take nothing for so long and no longer: then a write fails. Each byte taken wins the whole
/// time anew.
#[derive(Drop)]
pub struct TimedWriter<'a, R, W> {
    clock: &'a R,
    writer: W,
    limit: TimeLimit,
    /// Whether the time was up.
    is_late: &'a Cell<bool>,
}

impl<'a, R: Clock, W: Write> TimedWriter<'a, R, W> {
    /// Over a writer that gives up a write after `LONGEST_TRY`. Once the time was up, `is_late` tells so.
    pub fn new(
        clock: &'a R,
        writer: W,
        longest: Duration,
        is_late: &'a Cell<bool>,
    ) -> TimedWriter<'a, R, W> {
        TimedWriter {
            clock,
            writer,
            limit: TimeLimit::new(longest),
            is_late,
        }
    }

    /// Is no time left for the client to take something?
    fn is_time_up(&mut self) -> io::Result<bool>
        ensures { self.new.writer ≡ self.old.writer }
    {
        let now = Instant::now(self.clock)?;
        let is_late = self.limit.time_left(now).is_zero();
        self.is_late.set(is_late);
        Ok(is_late)
    }
}

impl<R: Clock, W: Write> Write for TimedWriter<'_, R, W> {
    ghost contents = { λ timed. W.contents timed.writer };

    fn write(&mut self, bytes: &[u8]) -> io::Result<usize> {
        // A loop is proved to end, so this one counts its turns.
        for _ in 0..u64::MAX {
            if self.is_time_up()? {
                break;
            }
            match self.writer.write(bytes) {
                Err(error) if is_late(&error) => {}
                Err(error) => return Err(error),
                Ok(count) => {
                    self.limit.has_come();
                    return Ok(count);
                }
            }
        }
        Err(ErrorKind::TimedOut.into())
    }

    fn flush(&mut self) -> io::Result<()> {
        self.writer.flush()
    }
}
