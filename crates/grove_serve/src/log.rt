use crate::event::Event;
use crate::event_line::EventLine;
use crate::remedy::Lack;
use grove_words::LogForm;
use jiff::Timestamp;
use std::sync::atomic::{AtomicBool, AtomicU64, Ordering};
use std::sync::{Condvar, Mutex, Wait};
use std::time::{Clock, Duration};

/// So many lines are written in one second.
const MOST_LINES: u32 = 100;

/// What standard error is told of a server, an event a line. If standard error fails, nothing else does.
#[derive(Drop)]
pub struct Log {
    form: LogForm,
    /// Whoever writes a line has it meanwhile.
    pen: Mutex<Pen>,
    connections: AtomicU64,
    /// It was told what is lacking for the next connection, and none was accepted since.
    is_wanting: AtomicBool,
    /// No more connections are accepted.
    is_closed: Mutex<bool>,
    closed: Condvar,
}

/// How much was written in a second.
#[derive(Drop)]
struct Pen {
    /// The second, since 1970.
    second: i64,
    lines: u32,
    /// How many events were too many.
    left_out: u64,
    /// It was told that a connection couldn't be accepted.
    has_failure: bool,
}

impl Pen {
    /// Nothing was written in this second.
    fn new(second: i64) -> Pen {
        Pen {
            second,
            lines: 0,
            left_out: 0,
            has_failure: false,
        }
    }
}

impl Log {
    /// A log whose lines have this form.
    pub fn new(form: LogForm) -> Log {
        Log {
            form,
            pen: Mutex::new(Pen::new(0)),
            connections: AtomicU64::new(0),
            is_wanting: AtomicBool::new(false),
            is_closed: Mutex::new(false),
            closed: Condvar::new(),
        }
    }

    /// Writes a line for the event, or counts it if its second has too many.
    pub fn write<R: Wait + Clock + Eprint>(&self, rt: &R, event: Event<'_>) {
        let mut pen = self.pen.lock(rt);
        let time = self.turn_to_now(rt, &mut pen);
        self.write_or_count(rt, &mut pen, time, event);
    }

    /// Writes that a connection couldn't be accepted, once in a second.
    pub fn write_failure<R: Wait + Clock + Eprint>(&self, rt: &R, event: Event<'_>) {
        let mut pen = self.pen.lock(rt);
        let time = self.turn_to_now(rt, &mut pen);
        if !pen.has_failure {
            pen.has_failure = true;
            self.write_or_count(rt, &mut pen, time, event);
        }
    }

    /// Writes how many events of an earlier second were left out, if any were.
    pub fn catch_up<R: Wait + Clock + Eprint>(&self, rt: &R) {
        let mut pen = self.pen.lock(rt);
        self.turn_to_now(rt, &mut pen);
    }

    /// The time, for whose second the pen is made ready.
    fn turn_to_now<R: Clock + Eprint>(&self, rt: &R, pen: &mut Pen) -> Timestamp {
        let time = Timestamp::now(rt).unwrap_or(Timestamp::UNIX_EPOCH);
        let second = time.as_second();
        if pen.second != second {
            let events = pen.left_out;
            *pen = Pen::new(second);
            if events > 0 {
                self.write_line(rt, pen, time, Event::LeftOut { events });
            }
        }
        time
    }

    fn write_or_count<R: Eprint>(&self, rt: &R, pen: &mut Pen, time: Timestamp, event: Event<'_>) {
        if pen.lines < MOST_LINES {
            self.write_line(rt, pen, time, event);
        } else {
            pen.left_out = pen.left_out.saturating_add(1);
        }
    }

    fn write_line<R: Eprint>(&self, rt: &R, pen: &mut Pen, time: Timestamp, event: Event<'_>) {
        pen.lines = pen.lines.saturating_add(1);
        let form = self.form;
        let line = EventLine { form, time, event };
        let _written = rt.eprintln(format_args!("{line}"));
    }

    /// The number of the next connection, from 1.
    pub fn next_number(&self) -> u64 {
        self.connections
            .fetch_add(1, Ordering::SeqCst)
            .wrapping_add(1)
    }

    /// Writes what is lacking for the next connection, once until one is accepted.
    pub fn lack<R: Wait + Clock + Eprint>(&self, rt: &R, lack: Lack) {
        if !self.is_wanting.swap(true, Ordering::SeqCst) {
            self.write(rt, Event::Lacks(lack));
        }
    }

    /// A connection was accepted, so nothing is lacking.
    pub fn lack_nothing(&self) {
        self.is_wanting.store(false, Ordering::SeqCst);
    }

    /// No more connections are accepted.
    pub fn close<R: Wait>(&self, rt: &R) {
        *self.is_closed.lock(rt) = true;
        self.closed.notify_all();
    }

    /// Waits so long, but no longer than connections are accepted, and gives whether they are no more.
    pub fn closes_within<R: Wait + Clock>(&self, rt: &R, longest: Duration) -> bool {
        let is_closed = self.is_closed.lock(rt);
        let (is_closed, _) = self
            .closed
            .wait_timeout_while(rt, is_closed, longest, |is_closed| !*is_closed);
        *is_closed
    }
}
