use crate::fixtures::MOST_LOOKS;
use grove_tree::Gate;
use std::sync::atomic::{AtomicBool, AtomicU64, Ordering};

/// A gate at which two of those that come wait for each other, so that two threads must be at work at once.
#[derive(Drop)]
pub struct Meeting {
    step: u32,
    pair: (u32, u32),
    first: AtomicU64,
    second: AtomicU64,
    calls: AtomicU64,
    missed: AtomicBool,
}

impl Meeting {
    /// A gate at which these two meet, each before its step of this number.
    pub fn at_step(step: u32, first: u32, second: u32) -> Self {
        Meeting {
            step,
            pair: (first, second),
            first: AtomicU64::new(0),
            second: AtomicU64::new(0),
            calls: AtomicU64::new(0),
            missed: AtomicBool::new(false),
        }
    }

    /// Did the two come once each, and at once?
    pub fn has_met(&self) -> bool {
        let came = (
            self.first.load(Ordering::SeqCst),
            self.second.load(Ordering::SeqCst),
        );
        came == (1, 1) && !self.missed.load(Ordering::SeqCst)
    }

    /// How many came, these two or others.
    pub fn calls(&self) -> u64 {
        self.calls.load(Ordering::SeqCst)
    }

    fn wait(&self, mine: &AtomicU64, other: &AtomicU64) {
        mine.fetch_add(1, Ordering::SeqCst);
        for _ in 0..MOST_LOOKS {
            if other.load(Ordering::SeqCst) > 0 {
                return;
            }
        }
        self.missed.store(true, Ordering::SeqCst);
    }
}

impl Gate for Meeting {
    fn at(&self, txn: u32, step: u32) {
        self.calls.fetch_add(1, Ordering::SeqCst);
        if (txn, step) == (self.pair.0, self.step) {
            self.wait(&self.first, &self.second);
        } else if (txn, step) == (self.pair.1, self.step) {
            self.wait(&self.second, &self.first);
        }
    }
}
