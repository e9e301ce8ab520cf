ghost use Rattle.std.specs.Prelude.{◌≡◌};
ghost use Rattle.grove_gauge.specs.Minutes.{AreTimes, IsMinute, nothing};

use crate::{Buckets, Scale, Seconds};

/// What was counted until some time.
#[derive(Clone, Copy)]
pub struct Tally {
    pub lines: u64,
    pub refused: u64,
    pub rounds: u64,
    /// How long the rounds took.
    pub times: Buckets,
}

/// What a minute brought.
#[derive(Clone, Copy)]
pub struct Minute {
    pub lines: u64,
    pub refused: u64,
    pub rounds: u64,
    /// A time that half of the rounds took at most, and one that 99 of 100 did, if there were rounds.
    pub times: Option<RoundTimes>,
}

#[derive(Clone, Copy)]
pub struct RoundTimes {
    pub median: Seconds,
    pub slowest: Seconds,
}

impl Tally {
    /// Nothing is counted.
    pub fn new() -> Tally
        ensures { result ≡ nothing }
    {
        Tally {
            lines: 0,
            refused: 0,
            rounds: 0,
            times: Buckets::new(Scale::Times),
        }
    }

    /// What has been counted since there was what was counted before.
    pub fn since(&self, before: &Tally) -> Minute
        ensures { IsMinute before.now self.now result }
    {
        let times = self.times.since(&before.times);
        Minute {
            lines: self.lines.saturating_sub(before.lines),
            refused: self.refused.saturating_sub(before.refused),
            rounds: self.rounds.saturating_sub(before.rounds),
            times: times_of(&times),
        }
    }
}

/// How long rounds took, if there were any.
fn times_of(times: &Buckets) -> Option<RoundTimes>
    ensures { AreTimes times.now result }
{
    Some(RoundTimes {
        median: times.time_within(50)?,
        slowest: times.time_within(99)?,
    })
}
