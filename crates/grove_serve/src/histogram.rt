use crate::counter::Counter;
use grove_gauge::{Buckets, MOST_BUCKETS, Scale};
use std::array;

/// How many values there were, by the least bound that each is within, and their sum, counted by any thread.
#[derive(Drop)]
pub struct Histogram {
    scale: Scale,
    buckets: [Counter; MOST_BUCKETS],
    sum: Counter,
}

impl Histogram {
    /// A histogram of this scale, and no values.
    pub fn new(scale: Scale) -> Histogram {
        Histogram {
            scale,
            buckets: array::from_fn(|_| Counter::new()),
            sum: Counter::new(),
        }
    }

    /// Counts a value.
    pub fn note(&self, value: u64) {
        if let Some(bucket) = self.buckets.get(self.scale.place_of(value)) {
            bucket.count_one();
        }
        self.sum.add(value);
    }

    /// What is counted by now.
    pub fn read(&self) -> Buckets {
        let counts = array::from_fn(|place| match self.buckets.get(place) {
            Some(bucket) => bucket.get(),
            None => 0,
        });
        Buckets {
            scale: self.scale,
            counts,
            sum: self.sum.get(),
        }
    }
}
