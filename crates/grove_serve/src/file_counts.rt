use crate::counter::Counter;
use crate::histogram::Histogram;
use grove_gauge::{KeptCounts, Scale};
use std::sync::atomic::{AtomicU64, Ordering};
use std::time::Duration;

/// What is counted of the file that rounds are kept in, by whoever keeps them.
#[derive(Drop)]
pub struct FileCounts {
    rounds: Counter,
    bytes: AtomicU64,
    /// How long each sync took, in microseconds.
    syncs: Histogram,
}

impl FileCounts {
    /// Of a file of so many bytes, which has the store after so many rounds.
    pub fn new(rounds: u64, bytes: u64) -> FileCounts {
        let counts = FileCounts {
            rounds: Counter::new(),
            bytes: AtomicU64::new(bytes),
            syncs: Histogram::new(Scale::Times),
        };
        counts.rounds.raise_to(rounds);
        counts
    }

    /// Notes what the file has after a sync, and how long that took, if the clock told.
    pub fn note_sync(&self, rounds: u64, bytes: u64, time: Option<Duration>) {
        self.rounds.raise_to(rounds);
        self.bytes.store(bytes, Ordering::SeqCst);
        if let Some(time) = time {
            self.syncs
                .note(u64::try_from(time.as_micros()).unwrap_or(u64::MAX));
        }
    }

    /// What is counted by now.
    pub fn read(&self) -> KeptCounts {
        KeptCounts {
            rounds: self.rounds.get(),
            bytes: self.bytes.load(Ordering::SeqCst),
            syncs: self.syncs.read(),
        }
    }
}
