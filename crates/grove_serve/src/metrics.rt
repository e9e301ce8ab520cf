use crate::counter::Counter;
use crate::histogram::Histogram;
use crate::memory_file::MemoryFile;
use crate::service::Talk;
use grove_desk::{Receipt, RoundWatch};
use grove_gauge::{PortCounts, RefusalCount, Scale, Tally};
use jiff::Timestamp;
use std::alloc::Global;
use std::sync::{Mutex, MutexGuard, Wait};
use std::time::{Clock, Duration, Instant};

/// What is counted of a server since it was started.
#[derive(Drop)]
pub struct Metrics {
    /// When it was started; nothing, if the clock didn't say.
    pub started: Option<Timestamp>,
    /// Lines that were answered.
    pub lines: Counter,
    /// Rounds that the store has counted.
    pub rounds: Counter,
    /// How many lines each turn at the store answered.
    pub lines_of_rounds: Histogram,
    /// How long each took, in microseconds.
    pub times_of_rounds: Histogram,
    memory: Option<MemoryFile>,
    alloc: Global,
    refusals: Mutex<Vec<RefusalCount>>,
    refused: Counter,
    sessions: Traffic,
    requests: Traffic,
}

/// What is counted of the connections of a port.
#[derive(Drop)]
pub struct Traffic {
    pub accepted: Counter,
    /// How often the next connection couldn't be accepted.
    pub failed_accepts: Counter,
    /// Connections that have or had a slot, and of these the ones that left it.
    pub begun: Counter,
    pub left: Counter,
    /// Connections for which there was no slot, and that were told so.
    pub turned_away: Counter,
    /// Connections that were ended because they idled.
    pub idled: Counter,
    pub bytes_received: Counter,
    pub bytes_sent: Counter,
}

impl Metrics {
    /// Of a server that is started now, and whose memory the file tells.
    pub fn new<R: Clock>(rt: &R, alloc: Global, memory: Option<MemoryFile>) -> Metrics {
        Metrics {
            started: Timestamp::now(rt).ok(),
            lines: Counter::new(),
            rounds: Counter::new(),
            lines_of_rounds: Histogram::new(Scale::Lines),
            times_of_rounds: Histogram::new(Scale::Times),
            memory,
            alloc,
            refusals: Mutex::new(Vec::new(alloc)),
            refused: Counter::new(),
            sessions: Traffic::new(),
            requests: Traffic::new(),
        }
    }

    /// How many bytes of memory the server has now, if the system says it.
    pub fn resident_bytes(&self) -> Option<u64> {
        self.memory.as_ref()?.resident_bytes()
    }

    /// What is counted of connections that talk so.
    pub fn traffic(&self, talk: Talk) -> &Traffic {
        match talk {
            Talk::Lines => &self.sessions,
            Talk::Requests => &self.requests,
        }
    }

    /// Counts a line that was refused by this name. Without memory for a further name it is counted by none.
    pub fn count_refusal<R: Wait>(&self, rt: &R, name: &str) {
        self.refused.count_one();
        let mut refusals = self.refusals.lock(rt);
        for refusal in refusals.iter_mut() {
            if refusal.name.as_str() == name {
                refusal.lines = refusal.lines.saturating_add(1);
                return;
            }
        }
        if let Ok(name) = String::from_str(self.alloc, name) {
            let _counted = refusals.push(RefusalCount { name, lines: 1 });
        }
    }

    /// What is counted by now of what each minute is told of.
    pub fn tally(&self) -> Tally {
        Tally {
            lines: self.lines.get(),
            refused: self.refused.get(),
            rounds: self.rounds.get(),
            times: self.times_of_rounds.read(),
        }
    }

    /// How many lines were refused by each name. None is refused meanwhile.
    pub fn refusals<R: Wait>(&self, rt: &R) -> MutexGuard<'_, Vec<RefusalCount>> {
        self.refusals.lock(rt)
    }
}

impl Traffic {
    /// How many connections have a slot.
    pub fn in_use(&self) -> u64 {
        let left = self.left.get();
        self.begun.get().saturating_sub(left)
    }

    /// What is counted by now, at a port with so many slots.
    pub fn read(&self, slots: u32) -> PortCounts {
        PortCounts {
            in_use: self.in_use(),
            slots: u64::from(slots),
            accepted: self.accepted.get(),
            failed_accepts: self.failed_accepts.get(),
            turned_away: self.turned_away.get(),
            idled: self.idled.get(),
            bytes_received: self.bytes_received.get(),
            bytes_sent: self.bytes_sent.get(),
        }
    }

    fn new() -> Traffic {
        Traffic {
            accepted: Counter::new(),
            failed_accepts: Counter::new(),
            begun: Counter::new(),
            left: Counter::new(),
            turned_away: Counter::new(),
            idled: Counter::new(),
            bytes_received: Counter::new(),
            bytes_sent: Counter::new(),
        }
    }
}

impl<R: Clock> RoundWatch<R> for Metrics {
    fn begin(&self, rt: &R) -> Option<Instant> {
        Instant::now(rt).ok()
    }

    fn end(&self, rt: &R, began: Option<Instant>, receipts: &[Receipt]) {
        self.lines_of_rounds.note(receipts.len() as u64);
        if let Some(last) = receipts.last() {
            self.rounds.raise_to(last.rounds);
        }
        if let (Some(began), Ok(now)) = (began, Instant::now(rt)) {
            let time = micros(now.saturating_duration_since(began));
            self.times_of_rounds.note(time);
        }
    }
}

/// So many microseconds, or the most that a number can say.
fn micros(time: Duration) -> u64 {
    u64::try_from(time.as_micros()).unwrap_or(u64::MAX)
}
