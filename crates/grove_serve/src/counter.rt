use std::sync::atomic::{AtomicU64, Ordering};

/// A count that only grows, by any thread.
#[derive(Drop)]
pub struct Counter {
    count: AtomicU64,
}

impl Counter {
    pub fn new() -> Counter {
        Counter {
            count: AtomicU64::new(0),
        }
    }

    pub fn count_one(&self) {
        self.add(1);
    }

    /// Counts one more, and gives the count with it.
    pub fn count_next(&self) -> u64 {
        self.count.fetch_add(1, Ordering::SeqCst).wrapping_add(1)
    }

    pub fn add(&self, count: u64) {
        self.count.fetch_add(count, Ordering::SeqCst);
    }

    /// Learns of a greater count.
    pub fn raise_to(&self, count: u64) {
        self.count.fetch_max(count, Ordering::SeqCst);
    }

    pub fn get(&self) -> u64 {
        self.count.load(Ordering::SeqCst)
    }
}
