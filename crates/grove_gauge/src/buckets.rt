ghost use Rattle.std.specs.Prelude.{◌≡◌, ◌<◌, sum, MatchOption};
ghost use Rattle.grove_gauge.specs.Shares.{capped, no_values, within, share_of, IsTimeWithin, IsChange};

use crate::{Scale, Seconds};

/// The most buckets of a histogram, with that of all greater values.
pub const MOST_BUCKETS: usize = 20;

/// How many values there were, by the least bound that each is within, and their sum.
#[derive(Clone, Copy)]
pub struct Buckets {
    /// With fewer bounds than there are buckets.
    pub scale: Scale,
    pub counts: [u64; MOST_BUCKETS],
    pub sum: u64,
}

impl Buckets {
    /// No values.
    pub fn new(scale: Scale) -> Buckets
        ensures { result ≡ no_values scale }
    {
        Buckets {
            scale,
            counts: [0; MOST_BUCKETS],
            sum: 0,
        }
    }

    /// How many values are counted up to the bucket at the place.
    pub fn within(&self, place: usize) -> u64
        requires { place < 20 }
        ensures { result ≡ within self.now.counts place }
    {
        total(&self.counts[..place + 1])
    }

    /// How many values there are.
    pub fn total(&self) -> u64
        ensures { result ≡ capped (sum self.now.counts) }
    {
        total(&self.counts)
    }

    /// The values that have come since there were those before.
    pub fn since(&self, before: &Buckets) -> Buckets
        ensures { IsChange before.now self.now result }
    {
        let mut change = *self;
        for place in 0..MOST_BUCKETS {
            change.counts[place] = self.counts[place].saturating_sub(before.counts[place]);
        }
        change.sum = self.sum.saturating_sub(before.sum);
        change
    }

    /// The least bound that so many of a hundred values are within, if there are values. For those beyond all bounds
    /// it is the greatest bound.
    pub fn time_within(&self, hundredths: u64) -> Option<Seconds>
        ensures { MatchOption result (share_of self.now hundredths ≡ 0)
            (λ time. IsTimeWithin self.now hundredths time.micros) }
    {
        let wanted = self.total().saturating_mul(hundredths).div_ceil(100);
        if wanted == 0 {
            return None;
        }
        let last = self.scale.len() - 1;
        for place in 0..last {
            if self.within(place) >= wanted {
                let micros = self.scale.bound(place).0;
                return Some(Seconds { micros });
            }
        }
        let micros = self.scale.bound(last).0;
        Some(Seconds { micros })
    }
}

/// The counts, added up as far as a number can say.
fn total(counts: &[u64]) -> u64
    ensures { result ≡ capped (sum counts.now) }
{
    let mut all = 0u64;
    for count in counts {
        all = all.saturating_add(*count);
    }
    all
}
