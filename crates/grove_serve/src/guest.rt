use crate::counted_stream::CountedStream;
use crate::ending::Ending;
use crate::event::Event;
use crate::log::Log;
use crate::service::Talk;
use crate::slots::Slots;
use grove_base::Hint;
use grove_desk::{LineWatch, Receipt, RoundWatch};
use grove_page::{hint_of_refusal, with_hint};
use grove_store::Refusal;
use std::alloc::{AllocGlobal, Global};
use std::cell::Cell;
use std::net::TcpStream;
use std::sync::Wait;
use std::time::{Clock, Instant};

/// What is logged beside a refusal that is about no part of its line.
const LONG_LINE: &str =
    "the line has more than the 1048576 bytes that are taken, and wasn't looked into";

/// A connection, as it is counted and as the log has it.
#[derive(Drop)]
pub struct Guest<'a> {
    slots: &'a Slots,
    talk: Talk,
    number: u64,
    /// How many of its lines are answered.
    lines: Cell<u64>,
    /// Set once a request has come.
    has_come: Cell<bool>,
}

impl<'a> Guest<'a> {
    /// A connection of which no line is answered.
    pub fn new(slots: &'a Slots, talk: Talk, number: u64) -> Guest<'a> {
        Guest {
            slots,
            talk,
            number,
            lines: Cell::new(0),
            has_come: Cell::new(false),
        }
    }

    pub fn slots(&self) -> &'a Slots {
        self.slots
    }

    pub fn talk(&self) -> Talk {
        self.talk
    }

    /// Its number in the log, if there is one.
    pub fn number(&self) -> u64 {
        self.number
    }

    /// Notes that a request has come whole.
    pub fn note_request(&self) {
        self.has_come.set(true);
    }

    /// Whether a request has come since this was last reset.
    pub fn has_come(&self) -> &Cell<bool> {
        &self.has_come
    }

    /// What the stream gives, counted.
    pub fn reader<'s>(&'s self, stream: &'s TcpStream) -> CountedStream<'s> {
        let traffic = self.slots.metrics().traffic(self.talk);
        CountedStream::new(stream, &traffic.bytes_received)
    }

    /// What the stream takes, counted.
    pub fn writer<'s>(&'s self, stream: &'s TcpStream) -> CountedStream<'s> {
        let traffic = self.slots.metrics().traffic(self.talk);
        CountedStream::new(stream, &traffic.bytes_sent)
    }

    /// Counts and logs that the line after those which are answered is refused by this name, with its hint if there is
    /// one.
    fn note_refused<R: Wait + Clock + Eprint>(
        &self,
        rt: &R,
        name: &'static str,
        hint: Option<&str>,
    ) {
        self.slots.metrics().count_refusal(rt, name);
        if let Some(log) = self.slots.log() {
            let event = Event::Refused {
                connection: self.number,
                line: self.lines.get().saturating_add(1),
                name,
                hint,
            };
            log.write(rt, event);
        }
    }

    /// The hint for a refused line that goes to the log alone, if there is one, and memory for the hint.
    fn logged_hint(&self, alloc: Global, line: &[u8], refusal: &Refusal) -> Option<Hint> {
        let _log = self.slots.log()?;
        hint_of_refusal(alloc, self.slots.tree(), line, refusal).ok()
    }

    /// Counts and logs that the connection has ended, and why.
    pub fn note_end<R: Wait + Clock + Eprint>(&self, rt: &R, ending: Ending) {
        if ending.idle().is_some() {
            self.slots.metrics().traffic(self.talk).idled.count_one();
        }
        if let Some(log) = self.slots.log() {
            let event = Event::Ended {
                connection: self.number,
                lines: self.lines.get(),
                ending,
            };
            log.write(rt, event);
        }
    }
}

impl<'a, R: Clock> RoundWatch<R> for Guest<'a> {
    fn begin(&self, rt: &R) -> Option<Instant> {
        self.slots.metrics().begin(rt)
    }

    fn end(&self, rt: &R, began: Option<Instant>, receipts: &[Receipt]) {
        self.slots.metrics().end(rt, began, receipts);
    }
}

impl<'a, R: Wait + Clock + Eprint + AllocGlobal> LineWatch<R> for Guest<'a> {
    /// Without a hint in the reply the log has one of its own.
    fn refuse(
        &self,
        rt: &R,
        line: &[u8],
        refusal: Refusal,
        hints: bool,
        reply: Vec<u8>,
    ) -> Vec<u8> {
        let alloc = rt.alloc();
        let (reply, hint) = with_hint(alloc, hints, self.slots.tree(), line, refusal, reply);
        let hint = match hint {
            Some(hint) => Some(hint),
            None => self.logged_hint(alloc, line, &refusal),
        };
        self.note_refused(
            rt,
            refusal.name(),
            hint.as_ref().map(|hint| unlabelled(hint.as_str())),
        );
        reply
    }

    fn note_long_line(&self, rt: &R) {
        self.note_refused(rt, "long-line", Some(LONG_LINE));
    }

    fn count_line(&self, _rt: &R) {
        self.lines.set(self.lines.get().saturating_add(1));
        self.slots.metrics().lines.count_one();
    }
}

/// The hint without what it begins with beside a refused document.
fn unlabelled(hint: &str) -> &str {
    hint.strip_prefix("hint: ").unwrap_or(hint)
}
